ghost use Rattle.std.specs.Prelude.{◌≡◌, OnOk};
ghost use Rattle.dm_disposition.specs.Views.{view};
ghost use Rattle.dm_disposition.specs.Machine.{taken, settled, finished, nothing};

use crate::state::State;
use dm_types::NoMemory;
use std::alloc::Global;
use std::mem;

/// A parameter: the place of its name in the whole value, the name, and its value's text with the quotes.
#[derive(Debug, Drop)]
pub struct Parameter {
    pub place: usize,
    pub name: Vec<u8>,
    pub text: Vec<u8>,
}

/// What was read so far: the kind, the parameters that are whole, and the one that is under way.
#[derive(Debug, Drop)]
pub struct Notes {
    pub state: State,
    pub kind: Vec<u8>,
    pub done: Vec<Parameter>,
    place: usize,
    name: Vec<u8>,
    text: Vec<u8>,
}

impl Notes {
    pub fn new(alloc: Global) -> Notes
        ensures { view result ≡ nothing }
    {
        Notes {
            state: State::Start,
            kind: Vec::new(alloc),
            done: Vec::new(alloc),
            place: 0,
            name: Vec::new(alloc),
            text: Vec::new(alloc),
        }
    }

    /// Behind a value its parameter is whole.
    pub fn settle(&mut self, alloc: Global) -> Result<(), NoMemory>
        ensures { OnOk result (view self.new ≡ settled (view self.old)) }
    {
        match self.state {
            State::Token | State::Closed => self.finish(alloc),
            _ => Ok(()),
        }
    }

    fn finish(&mut self, alloc: Global) -> Result<(), NoMemory>
        ensures { OnOk result (view self.new ≡ finished (view self.old)) }
    {
        let parameter = Parameter {
            place: self.place,
            name: mem::replace(&mut self.name, Vec::new(alloc)),
            text: mem::replace(&mut self.text, Vec::new(alloc)),
        };
        self.done.push(parameter)?;
        Ok(())
    }

    /// Notes one byte more, at this place, which leads to the next state.
    pub fn take(
        &mut self,
        alloc: Global,
        place: usize,
        byte: u8,
        next: State,
    ) -> Result<(), NoMemory>
        ensures { OnOk result (view self.new ≡ taken (view self.old) place byte next) }
    {
        match next {
            State::Kind => self.kind.push(byte)?,
            State::Between | State::Semicolon => self.settle(alloc)?,
            State::Name => {
                if self.state == State::Semicolon {
                    self.place = place;
                }
                self.name.push(byte)?;
            }
            State::Token | State::Quoted | State::Escaped | State::Closed => self.text.push(byte)?,
            State::Start | State::AfterName | State::Equals => {}
        }
        self.state = next;
        Ok(())
    }
}
