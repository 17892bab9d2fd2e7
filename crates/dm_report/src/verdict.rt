ghost use Rattle.std.specs.Prelude.{◌≡◌, ◌++◌, IfOk, IfNone, IfSome};
ghost use Rattle.std.specs.Fmt.{decimal};
ghost use Rattle.dm_report.specs.Texts.{line};
ghost use Rattle.dm_report.specs.Verdict as verdicts;
ghost use Rattle.dm_report.specs.Lines as lines;

use crate::values::state_text;
use dm_types::{DiskKind, ItemId, NoMemory, Phase, Reason, Text};
use std::alloc::Global;

/// How a command ended.
#[derive(Clone, Copy, Debug, PartialEq, Eq)]
pub enum Verdict {
    /// It did what it says.
    Done,
    /// The item is interrupted.
    Interrupted(Reason),
    /// The words are no command.
    BadWords,
    /// The address is refused.
    BadAddress,
    /// No item has this id.
    NoItem(ItemId),
    /// The command isn't allowed in the item's state.
    WrongState(Phase),
    /// The journal is damaged at this byte, counted from 0.
    Damaged(u64),
    /// A call on the disk failed.
    DiskFailed(DiskKind),
    /// The list has so many items, and takes no more.
    ItemsFull(u32),
    /// Memory was wanting.
    NoMemory,
    /// The item of this id has the word, and another address.
    OtherWord(ItemId),
    /// The record of this number can't be imported, the first counted as 1. It is 0 where the file doesn't stand, is too
    /// long or has another header.
    BadImport(u32),
    /// No connection was accepted.
    NotAccepted,
    /// A call on the history failed.
    HistoryFailed,
}

/// The status that the program ends with, unless a write fails.
pub fn status_of(verdict: Verdict) -> u8
    ensures { result ≡ verdicts.status_of verdict }
{
    match verdict {
        Verdict::Done => 0,
        Verdict::Interrupted(_) => 1,
        Verdict::BadWords => 2,
        Verdict::BadAddress => 2,
        Verdict::NoItem(_) => 3,
        Verdict::WrongState(_) => 4,
        Verdict::Damaged(_) => 5,
        Verdict::DiskFailed(_) => 6,
        Verdict::ItemsFull(_) => 8,
        Verdict::NoMemory => 9,
        Verdict::OtherWord(_) => 10,
        Verdict::BadImport(_) => 11,
        Verdict::NotAccepted => 12,
        Verdict::HistoryFailed => 13,
    }
}

/// The line on standard error of a verdict with which nothing is told, or a kind alone.
pub fn fixed_line(verdict: Verdict) -> &'static [u8]
    requires { verdicts.IsMade verdict → ⊥ }
    ensures { result.now ≡ verdicts.errs_of verdict }
{
    match line_of_fixed(verdict) {
        Some(line) => line,
        None => b"",
    }
}

/// The same, where the verdict is such a one.
pub(crate) fn line_of_fixed(verdict: Verdict) -> Option<&'static [u8]>
    ensures some { IfSome result (λ line. line.now ≡ verdicts.errs_of verdict) }
    ensures none { IfNone result (verdicts.IsMade verdict) }
{
    match verdict {
        Verdict::Done => Some(b""),
        Verdict::Interrupted(_) => None,
        Verdict::BadWords => Some(b"bad words\n"),
        Verdict::BadAddress => Some(b"bad address\n"),
        Verdict::NoItem(_) => None,
        Verdict::WrongState(_) => None,
        Verdict::Damaged(_) => None,
        Verdict::DiskFailed(kind) => Some(disk_line(kind)),
        Verdict::ItemsFull(_) => None,
        Verdict::NoMemory => Some(b"no memory\n"),
        Verdict::OtherWord(_) => None,
        Verdict::BadImport(_) => None,
        Verdict::NotAccepted => Some(b"accept failed\n"),
        Verdict::HistoryFailed => Some(b"history failed\n"),
    }
}

/// `disk <kind>`.
fn disk_line(kind: DiskKind) -> &'static [u8]
    ensures { result.now ≡ lines.disk_line kind }
{
    match kind {
        DiskKind::Failed => b"disk failed\n",
        DiskKind::Denied => b"disk denied\n",
        DiskKind::NoSpace => b"disk no-space\n",
        DiskKind::NameTooLong => b"disk name-too-long\n",
    }
}

/// The line on standard error, or nothing.
pub fn errs_line(alloc: Global, verdict: Verdict) -> Result<Text, NoMemory>
    ensures { IfOk result (λ text. text ≡ verdicts.errs_of verdict) }
{
    match line_of_fixed(verdict) {
        Some(line) => Text::from_bytes(alloc, line),
        None => made_line(alloc, verdict),
    }
}

/// The line of a verdict that isn't a fixed one. Of a fixed one it is nothing, and takes no memory.
pub(crate) fn made_line(alloc: Global, verdict: Verdict) -> Result<Text, NoMemory>
    ensures { IfOk result (λ text. verdicts.IsMade verdict → text ≡ verdicts.errs_of verdict) }
{
    match verdict {
        Verdict::Done => Ok(Text::new(alloc)),
        Verdict::Interrupted(reason) => interrupted_line(alloc, reason),
        Verdict::BadWords => Ok(Text::new(alloc)),
        Verdict::BadAddress => Ok(Text::new(alloc)),
        Verdict::NoItem(id) => numbered_line(alloc, b"no item ", u64::from(id.0)),
        Verdict::WrongState(phase) => state_line(alloc, phase),
        Verdict::Damaged(place) => numbered_line(alloc, b"journal damaged at ", place),
        Verdict::DiskFailed(_) => Ok(Text::new(alloc)),
        Verdict::ItemsFull(count) => numbered_line(alloc, b"items full ", u64::from(count)),
        Verdict::NoMemory => Ok(Text::new(alloc)),
        Verdict::OtherWord(id) => numbered_line(alloc, b"word of item ", u64::from(id.0)),
        Verdict::BadImport(number) => numbered_line(alloc, b"import ", u64::from(number)),
        Verdict::NotAccepted => Ok(Text::new(alloc)),
        Verdict::HistoryFailed => Ok(Text::new(alloc)),
    }
}

/// `interrupted <code> <NAME>`, with the reason's number and name.
fn interrupted_line(alloc: Global, reason: Reason) -> Result<Text, NoMemory>
    ensures { IfOk result (λ text. text ≡ lines.interrupted_line reason) }
{
    let code = reason.code();
    let name = reason.name();
    let line = format!(in alloc; "interrupted {code} {name}\n")?;
    Ok(Text::from_vec(line.into_bytes()))
}

/// `state <state>`, as in the line of an item.
fn state_line(alloc: Global, phase: Phase) -> Result<Text, NoMemory>
    ensures { IfOk result (λ text. text ≡ lines.state_line phase) }
{
    let state = state_text(alloc, phase)?;
    let mut text = Text::from_bytes(alloc, b"state ")?;
    text.push_bytes(state.bytes())?;
    text.push_bytes(b"\n")?;
    Ok(text)
}

/// A line that ends with a number.
fn numbered_line(alloc: Global, front: &[u8], number: u64) -> Result<Text, NoMemory>
    ensures { IfOk result (λ text. text ≡ line (front.now ++ decimal number)) }
{
    let mut text = Text::from_bytes(alloc, front)?;
    let number = format!(in alloc; "{number}")?;
    text.push_bytes(number.as_bytes())?;
    text.push_bytes(b"\n")?;
    Ok(text)
}
