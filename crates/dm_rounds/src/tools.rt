ghost use Rattle.std.specs.Prelude.{◌≡◌, ◌≤◌, [], vec_len, vec_capacity, IfOk};

use crate::Lane;
use dm_types::NoMemory;
use std::alloc::Global;

/// How many lanes may be open at once.
const MOST_LANES: usize = 16;

/// What is taken before any wire is open: room for the lanes, and a buffer for their pieces.
pub struct Tools<W> {
    pub lanes: Vec<Lane<W>>,
    pub buffer: Vec<u8>,
}

impl<W> Tools<W> {
    /// Takes them, for pieces of at most so many bytes.
    pub fn new(alloc: Global, piece: usize) -> Result<Tools<W>, NoMemory>
        ensures none { IfOk result (λ tools. tools.lanes.items ≡ []) }
        ensures place { IfOk result (λ tools. 16 ≤ vec_capacity tools.lanes) }
        ensures room { IfOk result (λ tools. vec_len tools.buffer ≡ piece) }
    {
        let buffer = vec![in alloc; 0u8; piece]?;
        let lanes = Vec::with_capacity(alloc, MOST_LANES)?;
        Ok(Tools { lanes, buffer })
    }

    /// Lets go of the room for lanes, where none is open, and gives the buffer back.
    pub fn let_go(self) -> Vec<u8>
        requires { vec_len self.lanes ≡ 0 }
        ensures { result ≡ self.buffer }
    {
        let Tools { lanes, buffer } = self;
        lanes.destroy_empty();
        buffer
    }
}
