//! The bytes that were received and not taken yet.
ghost use Rattle.std.specs.Prelude.{◌≡◌, ◌<◌, ◌≤◌, ◌+◌, [], length, take, drop, slice_range, min, true, false, IfOk, IfErr, MatchResult};
ghost use Rattle.dm_types.specs.Faults.{HasCause};
ghost use Rattle.dm_edge.specs.Faults.{wire_kind};
ghost use Rattle.dm_edge.specs.Head.{most_head};
ghost use Rattle.dm_edge.specs.Wire.{WantsBy};
ghost use Rattle.dm_reply.specs.Ahead.{Grows, Stays};
ghost use Rattle.dm_reply.specs.Reads.{OnlyReads};

use dm_edge::{MOST_HEAD, Wire, WireFault};
use dm_types::NoMemory;
use std::alloc::Global;
use std::marker::Model;

/// A buffer of 65,536 bytes for what lies ahead.
#[derive(Drop)]
pub struct Ahead {
    buffer: Vec<u8>,
    start: usize,
    end: usize,
}

impl Model for Ahead {
    ghost use Rattle.std.specs.Prelude.{ℕ, List};

    ghost Value = { List ℕ };

    ghost use Rattle.dm_reply.specs.Buffer.{ahead_of, IsBuffer};

    ghost view = { ahead_of };

    ghost invariant = { IsBuffer };
}

impl Ahead {
    pub fn new(alloc: Global) -> Result<Ahead, NoMemory>
        ensures { IfOk result (λ ahead. ahead ≡ []) }
    {
        Ok(Ahead {
            buffer: vec![in alloc; 0; MOST_HEAD]?,
            start: 0,
            end: 0,
        })
    }

    pub fn bytes(&self) -> &[u8]
        ensures same { result.now ≡ self.now }
        ensures within { length self.now ≤ most_head }
    {
        &self.buffer[self.start..self.end]
    }

    /// The bytes behind the first ones.
    pub fn behind(&self, count: usize) -> &[u8]
        requires { count ≤ length self.now }
        ensures { result.now ≡ drop count self.now }
    {
        &self.bytes()[count..]
    }

    pub fn is_empty(&self) -> bool
        ensures empty { result ≡ true → self.now ≡ [] }
        ensures some { result ≡ false → 0 < length self.now }
    {
        self.bytes().is_empty()
    }

    /// Lets the first bytes go.
    pub fn pass(&mut self, count: usize)
        requires { count ≤ length self.old }
        ensures { self.new ≡ drop count self.old }
    {
        self.start += count;
    }

    /// Copies the first bytes to the front of the caller's buffer, at most so many, and lets them go.
    pub fn give(&mut self, most: usize, buf: &mut [u8]) -> usize
        requires { most ≤ length buf.old }
        ensures count { result ≡ min most (length self.old) }
        ensures given { take result buf.new ≡ take result self.old }
        ensures after { self.new ≡ drop result self.old }
    {
        let ahead = &self.buffer[self.start..self.end];
        let count = most.min(ahead.len());
        buf[..count].copy_from_slice(&ahead[..count]);
        self.start += count;
        count
    }

    /// Copies so many bytes behind the first ones to the front of the caller's buffer, and lets all of them go.
    pub fn give_behind(&mut self, from: usize, count: usize, buf: &mut [u8])
        requires within { from + count ≤ length self.old }
        requires room { count ≤ length buf.old }
        ensures given { take count buf.new ≡ take count (drop from self.old) }
        ensures after { self.new ≡ drop count (drop from self.old) }
    {
        self.pass(from);
        self.give(count, buf);
    }

    /// Receives behind what lies ahead. 0 is the end.
    pub fn receive<W: Wire>(&mut self, wire: &mut W) -> Result<usize, WireFault>
        requires { length self.old < most_head }
        ensures count { MatchResult result (λ n. (length self.new ≡ length self.old + n) × (length self.new ≤ most_head)) (λ _. self.new ≡ self.old) }
        ensures told { W.tells → MatchResult result (Grows (W.told wire.old) (W.told wire.new) self.old self.new) (λ _. Stays (W.told wire.old) (W.told wire.new)) }
        ensures reads { OnlyReads W.tells W.told W.purpose W.origin W.wants wire.old wire.new }
        ensures cause { HasCause wire_kind (W.faults wire.old) (W.faults wire.new) result }
        ensures wants { WantsBy (W.wants wire.old) (W.wants wire.new) result }
    {
        self.end = move_down(&mut self.buffer, self.start, self.end);
        self.start = 0;
        let count = receive_behind(wire, &mut self.buffer, self.end)?;
        self.end += count;
        Ok(count)
    }

    /// Lets all that lies ahead go, and receives in its place. 0 is the end.
    pub fn refill<W: Wire>(&mut self, wire: &mut W) -> Result<usize, WireFault>
        ensures count { IfOk result (λ n. length self.new ≡ n) }
        ensures told { W.tells → MatchResult result (Grows (W.told wire.old) (W.told wire.new) [] self.new) (λ _. Stays (W.told wire.old) (W.told wire.new)) }
        ensures reads { OnlyReads W.tells W.told W.purpose W.origin W.wants wire.old wire.new }
        ensures cause { HasCause wire_kind (W.faults wire.old) (W.faults wire.new) result }
        ensures wants { WantsBy (W.wants wire.old) (W.wants wire.new) result }
    {
        self.clear();
        self.receive(wire)
    }

    fn clear(&mut self)
        ensures { self.new ≡ [] }
    {
        self.start = self.end;
    }
}

/// Moves this range of the buffer to its front, where it doesn't stand there, and says how many bytes that is.
fn move_down(buffer: &mut [u8], start: usize, end: usize) -> usize
    requires { (start ≤ end) × (end ≤ length buffer.old) }
    ensures size { result + start ≡ end }
    ensures same { take result buffer.new ≡ slice_range buffer.old start end }
{
    if start > 0 {
        buffer.copy_within(start..end, 0);
    }
    end - start
}

/// Receives into the buffer, behind so many bytes of it.
fn receive_behind<W: Wire>(wire: &mut W, buffer: &mut [u8], end: usize) -> Result<usize, WireFault>
    requires { end < length buffer.old }
    ensures within { IfOk result (λ n. end + n ≤ length buffer.old) }
    ensures before { IfErr result (λ _. take end buffer.new ≡ take end buffer.old) }
    ensures told { W.tells → MatchResult result (λ n. Grows (W.told wire.old) (W.told wire.new) (take end buffer.old) (take (end + n) buffer.new) n) (λ _. Stays (W.told wire.old) (W.told wire.new)) }
    ensures size { IfOk result (λ n. length (take (end + n) buffer.new) ≡ end + n) }
    ensures reads { OnlyReads W.tells W.told W.purpose W.origin W.wants wire.old wire.new }
    ensures cause { HasCause wire_kind (W.faults wire.old) (W.faults wire.new) result }
    ensures wants { WantsBy (W.wants wire.old) (W.wants wire.new) result }
{
    wire.receive(&mut buffer[end..])
}
