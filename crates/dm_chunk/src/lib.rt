//! The chunked coding (RFC 9112, section 7.1): a grammar on whole texts, and a decoder that is fed them in pieces.
#![tactic(auto)]

ghost use Rattle.std.specs.Prelude.{◌≡◌, ℕ, ◌+◌, ◌<◌, ◌≤◌, false, List, [], ◌++◌, length, take};
ghost use Rattle.dm_chunk.specs.Machine.{is_stop};
ghost use Rattle.dm_chunk.specs.Waits.{framing_left, Waits, Rests};
ghost use Rattle.dm_chunk.specs.Decoded.{HasDecoded, Decodes, IsWithin};

mod laws;
mod place;

pub use laws::{apart, one_reading, some_reading, stays, told_is_brought};
use place::Place;

/// A decoder of one chunked body. It keeps no bytes and takes no memory.
#[derive(Clone, Copy, Debug, PartialEq, Eq)]
pub struct Chunks {
    place: Place,
}

/// What a decoder made of the bytes ahead.
#[derive(Clone, Copy, Debug, PartialEq, Eq)]
pub enum Step {
    /// All of them are taken, none of them is data, and the body isn't whole.
    More,
    /// So many bytes of data stand at this place. They and what is before them are taken, and nothing behind them.
    Data { from: usize, count: usize },
    /// The body is whole with so many bytes, which are taken. None of them is data.
    End(usize),
    /// No chunked body goes on so.
    Broken,
}

impl Chunks {
    /// A decoder that was fed nothing.
    pub fn new() -> Chunks
        ensures { HasDecoded [] [] result }
    {
        Chunks {
            place: Place::Digits { count: 0, size: 0 },
        }
    }

    /// Goes over the bytes ahead, up to the end of the next data, of which it takes at most `room` bytes.
    /// The caller calls again with the bytes behind those that were taken. What is told so doesn't depend on
    /// how the text is cut. After `End(n)` it answers `End(0)`, and after `Broken` the same.
    pub fn step(&mut self, ahead: &[u8], room: usize) -> Step
        requires { 0 < room }

        // It lies within the bytes ahead, and data comes with at least one byte.
        ensures within { IsWithin result (length ahead.now) room }

        // Whatever was fed and told before, the answer says what the whole text is.
        ensures decodes { (read content : List ℕ) → HasDecoded read content self.old → Decodes read content ahead.now result self.new }

        // Framing comes to an end: each byte of it leaves less to come.
        ensures waits { Waits result self.old self.new (length ahead.now) }
    {
        let from = self.skip_framing(ahead);
        match self.place {
            Place::Done => Step::End(from),
            Place::Broken => Step::Broken,
            Place::Data(left) => self.take_data(left, from, ahead, room),
            Place::Digits { .. }
            | Place::Blanks { .. }
            | Place::Extension { .. }
            | Place::LineEnd(_)
            | Place::DataEnd
            | Place::TrailerStart(_)
            | Place::Trailer(_)
            | Place::TrailerEnd(_)
            | Place::LastEnd(_) => Step::More,
        }
    }

    /// Goes over framing, up to data or an end, and says how many bytes that is.
    fn skip_framing(&mut self, ahead: &[u8]) -> usize
        ensures within { result ≤ length ahead.now }
        ensures stops { is_stop self.new.place ≡ false → result ≡ length ahead.now }
        ensures reads { (read content : List ℕ) → HasDecoded read content self.old → HasDecoded (read ++ take result ahead.now) content self.new }
        ensures waits { framing_left self.new + result ≤ framing_left self.old }
    {
        for (at, byte) in ahead.iter().enumerate() {
            if self.place.is_stop() {
                return at;
            }
            self.place = self.place.after(*byte);
        }
        ahead.len()
    }

    /// Takes data, of which so much is left in the chunk, from this place on.
    fn take_data(&mut self, left: u64, from: usize, ahead: &[u8], room: usize) -> Step
        requires room { 0 < room }
        requires here { self.old.place ≡ Place.Data left }
        requires bounds { from ≤ length ahead.now }
        requires stops { is_stop self.old.place ≡ false → from ≡ length ahead.now }
        ensures within { IsWithin result (length ahead.now) room }
        ensures decodes { (read content : List ℕ) → HasDecoded (read ++ take from ahead.now) content self.old → Decodes read content ahead.now result self.new }
        ensures rests { Rests result self.old self.new from (length ahead.now) }
    {
        let there = ahead.len() - from;
        let count = left.min(there.min(room) as u64);
        if count == 0 {
            return Step::More;
        }
        self.place = Place::Data(left - count);
        Step::Data {
            from,
            count: count as usize,
        }
    }
}

#[cfg(test)]
mod tests;
