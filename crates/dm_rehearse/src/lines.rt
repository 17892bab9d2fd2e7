ghost use Rattle.std.specs.Prelude.{◌≡◌, IfOk};
ghost use Rattle.dm_rehearse.specs.Lines.{lines_of};

use crate::Counts;
use dm_generated::size_of;
use dm_types::{NoMemory, Text};
use std::alloc::Global;

/// What a rehearsal prints: four lines, with the size of the number's content, these counts and this digest.
pub fn lines_of(
    alloc: Global,
    number: u64,
    counts: Counts,
    sum: &[u8; 32],
) -> Result<Text, NoMemory>
    ensures { IfOk result (λ text. text ≡ lines_of number counts.attempts counts.broke sum.now) }
{
    let size = size_of(number);
    let attempts = counts.attempts;
    let broke = counts.broke;
    let digits = hex::encode(alloc, sum)?;
    let text = format!(in alloc;
        "bytes {size}\nattempts {attempts}\nbroke {broke}\nsha256 {digits}\n"
    )?;
    Ok(Text::from_vec(text.into_bytes()))
}
