ghost use Rattle.std.specs.Prelude.{◌≡◌, ◌<◌, ◌≤◌, ◌+◌, ℕ, List, [], length, take, drop, false, Some, None, IsTrue, IfOk, IfErr, IfSome, Result, Err};
ghost use Rattle.dm_types.specs.Faults.{HasCause, NoneFell};
ghost use Rattle.httparse.specs.Grammar.{ResponseHead};
ghost use Rattle.dm_edge.specs.declared.wanted.Wanted.{Wanted as Asked};
ghost use Rattle.dm_edge.specs.Wire.{stream_of};
ghost use Rattle.dm_edge.specs.Begins.{most_content};
ghost use Rattle.dm_reply.specs.Content.{unread, HasFramed, HasRead, HeadSays, HeadBreaks, IsPlainHead, IsFramedAs, ContentSays, Advances, EndsAll, counted_of, extent_of, size_told};
ghost use Rattle.dm_reply.specs.Unfinished.{LeavesContent, LeavesFramed, LeavesHead};
ghost use Rattle.dm_reply.specs.Steps.{settled, settled_reader, least_of, FramedSays, IsSameReader, IsWithin, KeepsTo, EndsCounted, ShowsWant, most_of};
ghost use Rattle.dm_edge.specs.Causes.{is_content_cause};
ghost use Rattle.dm_reply.specs.Causes.{IsHeadFault};
ghost use Rattle.dm_reply.specs.Faults.{cause_kind, head_kind};
ghost use Rattle.dm_reply.specs.Reads.{OnlyReads};

use crate::ahead::Ahead;
use crate::body::Body;
use crate::chunked::give_chunked;
use crate::found::Found;
use crate::part::{part_answer, size_of};
use crate::plain::{give_counted, give_to_end, least};
use crate::receiving::receive_head;
use crate::{Got, Head, HeadFault, Wanted};
use dm_edge::Wire;
use dm_policy::Cause;
use dm_types::NoMemory;
use std::alloc::Global;
use std::marker::Model;

/// Reads one reply: its head, once, and then its content piece by piece. Its answers are the same
/// for every way in which the stream is cut into pieces.
#[derive(Drop)]
pub struct ReplyReader {
    wanted: Wanted,
    ahead: Ahead,
    body: Body,
    /// How many bytes the part has, where its head was read.
    size: Option<u64>,
    given: u64,
    broke: Option<Cause>,
}

impl Model for ReplyReader {
    ghost use Rattle.dm_reply.specs.Content.{Reader};

    ghost Value = { Reader };

    ghost use Rattle.dm_reply.specs.Reader.{reader_of, IsReader};

    ghost view = { reader_of };

    ghost invariant = { IsReader };
}

impl ReplyReader {
    /// A reader of the reply to a request for this. Takes the buffer for the head, 65,536 bytes.
    pub fn new(alloc: Global, wanted: Wanted) -> Result<ReplyReader, NoMemory>
        ensures { IfOk result (λ reader. reader ≡ unread wanted) }
    {
        Ok(ReplyReader {
            wanted,
            ahead: Ahead::new(alloc)?,
            body: Body::ToEnd,
            size: None,
            given: 0,
            broke: None,
        })
    }

    /// Receives the head, behind at most eight interim ones. It is called once, on a wire that gave
    /// nothing yet.
    pub fn head<W: Wire>(&mut self, alloc: Global, wire: &mut W) -> Result<Head, HeadFault>
        requires { self.old ≡ unread self.old.wanted }
        ensures says { W.tells → (W.told wire.old).given ≡ []
            → IfOk result (HeadSays self.old.wanted (W.told wire.new) self.new) }
        ensures wanted { self.new.wanted ≡ self.old.wanted }
        ensures plain { IfOk result (IsPlainHead self.old.wanted) }
        ensures fresh { IfOk result (λ head. (self.new.reading.given ≡ 0) × (self.new.reading.broke ≡ None)) }
        ensures size { IfOk result (λ head. self.new.size ≡ size_told (extent_of head)) }
        ensures framed { IfOk result (λ head. IsFramedAs self.old.wanted head self.new head.kind) }
        ensures broke { W.tells → (W.told wire.old).given ≡ []
            → IfErr result (HeadBreaks self.old.wanted (stream_of (W.told wire.new))) }
        ensures unfinished { W.tells → (W.told wire.old).given ≡ []
            → IfErr result (LeavesHead (W.told wire.new).given) }
        ensures own { IfErr result IsHeadFault }
        ensures reads { OnlyReads W.tells W.told W.purpose W.origin W.wants wire.old wire.new }
        ensures cause { HasCause head_kind (W.faults wire.old) (W.faults wire.new) result }
    {
        match receive_head(alloc, &self.wanted, &mut self.ahead, wire) {
            Ok(Found { head, body }) => {
                self.body = body;
                self.size = size_of(&head);
                Ok(head)
            }
            Err(fault) => Err(fault),
        }
    }

    /// Puts the next bytes of the content at the front of the buffer, and says how many, or that the
    /// content was given whole. After a cause it answers the same cause from then on. It takes no
    /// memory; `Memory` is answered only where the wire wanted it.
    pub fn content<W: Wire>(&mut self, wire: &mut W, buf: &mut [u8]) -> Result<Got, Cause>
        requires { 0 < length buf.old }
        ensures says { W.tells → (wanted : Asked) (head : ResponseHead) (content : List ℕ)
            → HasRead wanted head (W.told wire.old).given self.old content → ContentSays wanted head (W.told wire.new) self.new result buf.new content }
        ensures unfinished { W.tells → (wanted : Asked) (head : ResponseHead) (content : List ℕ)
            → HasRead wanted head (W.told wire.old).given self.old content → LeavesContent wanted head (W.told wire.new).given content result }
        ensures keeps { KeepsTo (least_of self.old.size (most_of self.old.reading.body)) self.old.reading.given (length buf.old) result }
        ensures all { EndsAll self.old result }
        ensures advances { Advances self.old.reading self.new.reading result (length buf.old) }
        ensures in_part { IfSome self.new.size (λ size. self.new.reading.given ≤ size) }
        ensures kept { (self.new.wanted ≡ self.old.wanted) × (self.new.size ≡ self.old.size)
            × (counted_of self.new.reading.body ≡ counted_of self.old.reading.body) }
        ensures ends { IfErr result (λ cause. self.new.reading.broke ≡ Some cause) }
        ensures repeats { IfSome self.old.reading.broke (λ cause. (result ≡ Err cause) × (self.new ≡ self.old) × (W.told wire.new ≡ W.told wire.old)) }
        ensures reads { OnlyReads W.tells W.told W.purpose W.origin W.wants wire.old wire.new }
        ensures later { NoneFell (W.faults wire.old) (W.faults wire.new) }
        ensures cause { self.old.reading.broke ≡ None → HasCause cause_kind (W.faults wire.old) (W.faults wire.new) result }
        ensures memory { self.old.reading.broke ≡ None → IfErr result (ShowsWant (W.wants wire.old) (W.wants wire.new)) }
        ensures own { IfErr result (λ broke. IsTrue (is_content_cause broke)) }
    {
        if let Some(cause) = self.broke {
            return Err(cause);
        }
        let result = self.next(wire, buf);
        self.settle(result)
    }

    /// The next of the content, which for a part ends after its bytes.
    fn next<W: Wire>(&mut self, wire: &mut W, buf: &mut [u8]) -> Result<Got, Cause>
        requires room { 0 < length buf.old }
        requires unbroken { self.old.reading.broke ≡ None }
        ensures keeps { KeepsTo (least_of self.old.size (most_of self.old.reading.body)) self.old.reading.given (length buf.old) result }
        ensures all { EndsAll self.old result }
        ensures same { IsSameReader self.old self.new }
        ensures says { W.tells → (wanted : Asked) (head : ResponseHead) (content : List ℕ)
            → HasRead wanted head (W.told wire.old).given self.old content → ContentSays wanted head (W.told wire.new) (settled_reader self.new result) result buf.new content }
        ensures unfinished { W.tells → (wanted : Asked) (head : ResponseHead) (content : List ℕ)
            → HasRead wanted head (W.told wire.old).given self.old content → LeavesContent wanted head (W.told wire.new).given content result }
        ensures reads { OnlyReads W.tells W.told W.purpose W.origin W.wants wire.old wire.new }
        ensures cause { HasCause cause_kind (W.faults wire.old) (W.faults wire.new) result }
        ensures memory { IfErr result (ShowsWant (W.wants wire.old) (W.wants wire.new)) }
        ensures own { IfErr result (λ broke. IsTrue (is_content_cause broke)) }
    {
        match self.size {
            Some(size) => self.next_of_part(size, wire, buf),
            None => self.framed(wire, buf),
        }
    }

    /// The next of a part of this size, which ends after its bytes. It asks for no more than it lacks.
    fn next_of_part<W: Wire>(
        &mut self,
        size: u64,
        wire: &mut W,
        buf: &mut [u8],
    ) -> Result<Got, Cause>
        requires room { 0 < length buf.old }
        requires unbroken { self.old.reading.broke ≡ None }
        requires size { self.old.size ≡ Some size }
        ensures keeps { KeepsTo (least_of self.old.size (most_of self.old.reading.body)) self.old.reading.given (length buf.old) result }
        ensures all { EndsAll self.old result }
        ensures same { IsSameReader self.old self.new }
        ensures says { W.tells → (wanted : Asked) (head : ResponseHead) (content : List ℕ)
            → HasRead wanted head (W.told wire.old).given self.old content → ContentSays wanted head (W.told wire.new) (settled_reader self.new result) result buf.new content }
        ensures unfinished { W.tells → (wanted : Asked) (head : ResponseHead) (content : List ℕ)
            → HasRead wanted head (W.told wire.old).given self.old content → LeavesContent wanted head (W.told wire.new).given content result }
        ensures reads { OnlyReads W.tells W.told W.purpose W.origin W.wants wire.old wire.new }
        ensures cause { HasCause cause_kind (W.faults wire.old) (W.faults wire.new) result }
        ensures memory { IfErr result (ShowsWant (W.wants wire.old) (W.wants wire.new)) }
        ensures own { IfErr result (λ broke. IsTrue (is_content_cause broke)) }
    {
        let given = self.given;
        if given == size {
            return Ok(Got::End);
        }
        let room = least(size - given, buf.len());
        let answer = self.framed(wire, &mut buf[..room]);
        part_answer(answer, given, size)
    }

    /// The next of what is framed.
    fn framed<W: Wire>(&mut self, wire: &mut W, buf: &mut [u8]) -> Result<Got, Cause>
        requires room { 0 < length buf.old }
        requires unbroken { self.old.reading.broke ≡ None }
        ensures keeps { KeepsTo (most_of self.old.reading.body) self.old.reading.given (length buf.old) result }
        ensures all { EndsCounted self.old.reading result }
        ensures limit { most_of self.old.reading.body ≤ most_content }
        ensures same { IsSameReader self.old self.new }
        ensures says { W.tells → (wanted : Asked) (head : ResponseHead) (content : List ℕ) → HasFramed wanted head (W.told wire.old).given self.old.reading content
            → FramedSays wanted head (W.told wire.new) (settled self.new.reading result) result buf.new content }
        ensures unfinished { W.tells → (wanted : Asked) (head : ResponseHead) (content : List ℕ) → HasFramed wanted head (W.told wire.old).given self.old.reading content
            → LeavesFramed wanted head (W.told wire.new).given content result }
        ensures reads { OnlyReads W.tells W.told W.purpose W.origin W.wants wire.old wire.new }
        ensures cause { HasCause cause_kind (W.faults wire.old) (W.faults wire.new) result }
        ensures memory { IfErr result (ShowsWant (W.wants wire.old) (W.wants wire.new)) }
        ensures own { IfErr result (λ broke. IsTrue (is_content_cause broke)) }
    {
        match self.body {
            Body::Counted(wanted) => give_counted(&mut self.ahead, wanted, self.given, wire, buf),
            Body::ToEnd => give_to_end(&mut self.ahead, self.given, wire, buf),
            Body::Chunked(mut chunks) => {
                let result = give_chunked(&mut self.ahead, &mut chunks, self.given, wire, buf);
                self.body = Body::Chunked(chunks);
                result
            }
        }
    }

    /// Counts what is given, and keeps a cause.
    fn settle(&mut self, answer: Result<Got, Cause>) -> Result<Got, Cause>
        requires within { IsWithin (least_of self.old.size (most_of self.old.reading.body)) self.old.reading.given answer }
        requires own { IfErr answer (λ broke. IsTrue (is_content_cause broke)) }
        ensures same { result ≡ answer }
        ensures after { self.new ≡ settled_reader self.old answer }
    {
        match answer {
            Ok(Got::Bytes(count)) => self.given += count as u64,
            Ok(Got::End) => {}
            Err(cause) => self.broke = Some(cause),
        }
        answer
    }
}
