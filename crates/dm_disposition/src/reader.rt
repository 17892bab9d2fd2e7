ghost use Rattle.dm_disposition.specs.Views.{Gives};

use crate::DispFault;
use crate::notes::Notes;
use std::alloc::Global;

/// The kind and the parameters of a value.
pub fn read(alloc: Global, value: &[u8]) -> Result<Notes, DispFault>
    ensures { Gives value.now result }
{
    let mut notes = Notes::new(alloc);
    for (place, byte) in value.iter().enumerate() {
        match notes.state.after(*byte) {
            Some(next) => notes.take(alloc, place, *byte, next)?,
            None => return Err(DispFault::NotGrammar(place)),
        }
    }
    if !notes.state.is_end() {
        return Err(DispFault::NotGrammar(value.len()));
    }
    notes.settle(alloc)?;
    Ok(notes)
}
