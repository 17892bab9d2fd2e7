//! A wire that gives its bytes in pieces.
ghost use Rattle.dm_edge.specs.Counts.{wire_count};

use dm_edge::{EveryByte, Wire, WireCounts, WireFault};

/// A wire that gives its bytes in pieces of a size at most, and then ends, or fails.
#[derive(Drop)]
pub struct Pieces<'a> {
    left: &'a [u8],
    size: usize,
    last: Option<WireFault>,
    counts: WireCounts,
    /// How often a receive failed.
    failed: u64,
    /// How many receives there were.
    pub receives: u64,
}

impl Wire for Pieces<'_> {
    ghost use Rattle.std.specs.Prelude.{[]};
    ghost use Rattle.std.proofs.Common.{inl};
    ghost use Rattle.dm_edge.specs.Counts.{wire_count};

    type O = EveryByte;

    ghost tells = { ⊥ };

    ghost origin = { λ _. record {} };

    ghost purpose = { λ _. record { address = record { text = []; host = []; port = 80; target = [] }; id = record { 0 = 1 }; attempt = record { 0 = 1 } } };

    ghost told = { λ _. record { given = []; left = []; sent = [] } };

    ghost faults = { λ w. wire_count w.counts };

    ghost wants = { λ w. w.failed };

    ghost honest = { λ _. inl (λ _ _ _ _. tt) };

    fn send(&mut self, _piece: &[u8]) -> Result<(), WireFault> {
        Ok(())
    }

    fn receive(&mut self, buf: &mut [u8]) -> Result<usize, WireFault> {
        self.receives = self.receives.saturating_add(1);
        let count = self.size.min(buf.len()).min(self.left.len());
        if let (0, Some(fault)) = (count, self.last) {
            self.counts.raise(fault);
            self.failed = self.failed.saturating_add(1);
            return Err(fault);
        }
        let (piece, left) = self.left.split_at(count);
        buf[..count].copy_from_slice(piece);
        self.left = left;
        Ok(count)
    }
}

pub fn wire_of(left: &[u8], size: usize, last: Option<WireFault>) -> Pieces<'_> {
    Pieces {
        left,
        size,
        last,
        counts: WireCounts::NONE,
        failed: 0,
        receives: 0,
    }
}
