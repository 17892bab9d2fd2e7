ghost use Rattle.std.specs.Prelude.{◌≡◌, ◌+◌, ◌-◌, ◌<◌, ◌≤◌, ◌^◌, length, min, take, true, IfOk, IfErr, OnOk};
ghost use Rattle.dm_edge.specs.Counts.{raised_by};
ghost use Rattle.dm_edge.specs.Wire.{Sends, Receives, WantsBy};
ghost use Rattle.dm_generated.specs.Content.{bytes_from};
ghost use Rattle.dm_generated.specs.Replies.{Answers, brought, count_of, first_of, head_of, is_reply, stream_with};
ghost use Rattle.dm_generated_net.specs.Wired.{GivesNext, SendsAll, Wants, told_by};

use crate::chain::Chain;
use dm_edge::{Generated, Wire, WireFault};
use dm_generated::{Reply, brought_of, fill, head_text, reply_to};
use dm_types::{Address, Attempt, ItemId, NoMemory, Text};
use std::alloc::Global;
use std::marker::Model;

/// A wire that brings what a number generates. No call fails but for want of memory.
#[derive(Debug)]
pub struct GeneratedWire {
    pub(crate) alloc: Global,
    pub(crate) number: u64,
    /// Its number among the wires of its net.
    pub(crate) wire: u64,
    pub(crate) address: Address,
    pub(crate) id: ItemId,
    pub(crate) attempt: Attempt,
    pub(crate) sent: Text,
    pub(crate) reply: Reply,
    /// The head of the reply.
    pub(crate) head: Text,
    /// How many bytes were received.
    pub(crate) given: u64,
    /// How often memory was wanting.
    pub(crate) wants: u64,
    /// The room in which its net keeps what is told of it, once it is closed.
    pub(crate) spare: Box<Chain>,
}

impl Model for GeneratedWire {
    ghost use Rattle.dm_generated_net.specs.Wired.{Wired, IsWire};

    ghost Value = { Wired };

    ghost view = { λ w. record {
      number = w.number;
      wire = w.wire;
      purpose = record { address = w.address; id = w.id; attempt = w.attempt };
      sent = w.sent;
      reply = w.reply;
      given = w.given;
      wants = w.wants;
    } };

    ghost invariant = { λ w. IsWire w.number w.wire w.reply w.head w.given };
}

/// Gives the next of these bytes, as many as the buffer takes, and says how many.
fn give_head(left: &[u8], buf: &mut [u8]) -> usize
    ensures size { result ≡ min (length buf.old) (length left.now) }
    ensures bytes { take result buf.new ≡ take result left.now }
{
    let size = buf.len().min(left.len());
    buf[..size].copy_from_slice(&left[..size]);
    size
}

/// Gives the next bytes of the content, of which so many are left.
fn give_body(number: u64, first: u64, left: u64, buf: &mut [u8]) -> usize
    requires first { first < 2 ^ 32 }
    requires left { left < 2 ^ 32 }
    ensures size { result ≡ min (length buf.old) left }
    ensures bytes { take result buf.new ≡ bytes_from number first result }
{
    let size = buf.len().min(left as usize);
    fill(number, first, &mut buf[..size]);
    size
}

/// Gives the next bytes of the content of a reply, of which so many were received.
fn give_rest(number: u64, wire: u64, reply: Reply, at: u64, buf: &mut [u8]) -> usize
    requires good { is_reply number reply ≡ true }
    requires at { at ≤ brought number wire (count_of number reply) }
    ensures size { result ≡ min (length buf.old) (brought number wire (count_of number reply) - at) }
    ensures bytes { take result buf.new ≡ bytes_from number (first_of reply + at) result }
{
    let all = brought_of(number, wire, reply.count(number));
    let left = all - at;
    let first = reply.first() + at;
    give_body(number, first, left, buf)
}

/// Gives the next bytes of a stream, of which so many were received, and says how many.
fn give(number: u64, wire: u64, reply: Reply, head: &[u8], given: u64, buf: &mut [u8]) -> usize
    requires good { is_reply number reply ≡ true }
    requires head { head.now ≡ head_of number reply }
    requires given { given ≤ length (stream_with number wire reply) }
    ensures { GivesNext (stream_with number wire reply) given (length buf.old) result buf.new }
{
    let from = given as usize;
    let size = head.len();
    if from < size {
        return give_head(&head[from..], buf);
    }
    let at = (from - size) as u64;
    give_rest(number, wire, reply, at, buf)
}

impl GeneratedWire {
    /// Memory was wanting.
    fn want(&mut self) -> WireFault
        ensures fault { result ≡ WireFault.NoMemory }
        ensures counted { self.new ≡ record self.old { wants = raised_by 1 self.old.wants } }
    {
        self.wants = self.wants.saturating_add(1);
        WireFault::NoMemory
    }
}

/// What a request gets, with its head.
struct Answer {
    reply: Reply,
    head: Text,
}

/// What was sent to an address gets this reply.
fn told_to(alloc: Global, number: u64, address: &Address, sent: &[u8]) -> Result<Answer, NoMemory>
    requires { number < 2 ^ 32 }
    ensures answers { IfOk result (λ told. Answers number address.now sent.now told.reply) }
    ensures good { IfOk result (λ told. is_reply number told.reply ≡ true) }
    ensures head { IfOk result (λ told. told.head ≡ head_of number told.reply) }
{
    let reply = reply_to(alloc, number, address, sent)?;
    let head = head_text(alloc, number, reply)?;
    Ok(Answer { reply, head })
}

impl Wire for GeneratedWire {
    type O = Generated;

    ghost use Rattle.std.specs.Prelude.{◌≡◌};

    ghost tells = { Unit {0} };

    ghost origin = { λ w. record { seed = w.number } };

    ghost purpose = { λ w. w.purpose };

    ghost told = { told_by };

    ghost faults = { λ _ _. 0 };

    ghost wants = { λ w. w.wants };

    ghost use Rattle.dm_generated.proofs.Fairness.{honest_by};

    ghost honest = { λ w. honest_by w.number w.wire w.reply w.purpose w.given w.sent };

    fn send(&mut self, piece: &[u8]) -> Result<(), WireFault>
        ensures sent { Sends (told_by self.old) (told_by self.new) result piece.now }
        ensures stays { (self.new.purpose ≡ self.old.purpose) × (self.new.number ≡ self.old.number) }
        ensures wants { WantsBy self.old.wants self.new.wants result }

        // The reply is determined by what was sent.
        ensures ok { OnOk result (SendsAll self.old self.new piece.now) }
        ensures err { IfErr result (Wants self.old self.new piece.now) }
    {
        if self.sent.push_bytes(piece).is_err() {
            return Err(self.want());
        }
        if self.given == 0 {
            match told_to(self.alloc, self.number, &self.address, self.sent.bytes()) {
                Ok(told) => {
                    let Answer { reply, head } = told;
                    self.reply = reply;
                    self.head = head;
                }
                Err(NoMemory) => return Err(self.want()),
            }
        }
        Ok(())
    }

    fn receive(&mut self, buf: &mut [u8]) -> Result<usize, WireFault>
        ensures within { IfOk result (λ n. n ≤ length buf.old) }
        ensures given { Receives (told_by self.old) (told_by self.new) result buf.new }
        ensures wants { WantsBy self.old.wants self.new.wants result }

        // It never fails.
        ensures ok { IfOk result (λ n. self.new ≡ record self.old { given = self.old.given + n }) }
        ensures err { IfErr result (λ _. ⊥) }
    {
        let count = give(
            self.number,
            self.wire,
            self.reply,
            self.head.bytes(),
            self.given,
            buf,
        );
        self.given += count as u64;
        Ok(count)
    }
}
