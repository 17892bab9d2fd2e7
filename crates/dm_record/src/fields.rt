//! Fields, read from the front of bytes.

ghost use Rattle.std.specs.Prelude.{◌≡◌, ◌≤◌, ◌<◌, length, IfOk};
ghost use Rattle.std.specs.Int.{w32, w64};
ghost use Rattle.dm_record.specs.Reading.{Gives, number_at, run_at, length_at, text_at, optional_at, coded_at, times_at, flag_of, by_of, within, reason_of, id_at, epoch_at, attempt_at, digest_at, reason_at, key_at, slice_at, slices_at, phased_at, interrupted_at, phase_at};

use crate::fault::Stop;
use dm_types::{Attempt, By, Epoch, ItemId, Key, Phase, Reason, Slice, Slices, Text};
use std::alloc::Global;

#[tactic(auto, unfolding(crate::specs::Reading::number_at, crate::specs::Reading::run_at))]
pub(crate) fn read_u32(bytes: &[u8]) -> Result<(u32, &[u8]), Stop>
    ensures { Gives (λ x. (x.0, x.1.now)) result (number_at w32 bytes.now) }
{
    if bytes.len() < 4 {
        return Err(Stop::Short);
    }
    let (front, rest) = bytes.split_at(4);
    let number = u32::from_be_bytes([front[0], front[1], front[2], front[3]]);
    Ok((number, rest))
}

#[tactic(auto, unfolding(crate::specs::Reading::number_at, crate::specs::Reading::run_at))]
pub(crate) fn read_u64(bytes: &[u8]) -> Result<(u64, &[u8]), Stop>
    ensures { Gives (λ x. (x.0, x.1.now)) result (number_at w64 bytes.now) }
{
    if bytes.len() < 8 {
        return Err(Stop::Short);
    }
    let (front, rest) = bytes.split_at(8);
    let number = u64::from_be_bytes([
        front[0], front[1], front[2], front[3], front[4], front[5], front[6], front[7],
    ]);
    Ok((number, rest))
}

#[tactic(auto, unfolding(crate::specs::Reading::run_at))]
fn read_run(count: usize, bytes: &[u8]) -> Result<(&[u8], &[u8]), Stop>
    ensures run { Gives (λ x. (x.0.now, x.1.now)) result (run_at count bytes.now) }
    ensures count { IfOk result (λ x. length x.0.now ≡ count) }
{
    if bytes.len() < count {
        return Err(Stop::Short);
    }
    Ok(bytes.split_at(count))
}

/// A length of two bytes. Where its high byte alone passes the limit, that byte is the stray one.
#[tactic(auto, unfolding(crate::specs::Reading::length_at))]
fn read_length(limit: u16, bytes: &[u8]) -> Result<(u16, &[u8]), Stop>
    ensures { Gives (λ x. (x.0, x.1.now)) result (length_at limit bytes.now) }
{
    match bytes {
        [] => Err(Stop::Short),
        [high, ..] if 256 * u32::from(*high) > u32::from(limit) => Err(Stop::Stray(bytes.len())),
        [_] => Err(Stop::Short),
        [high, low, rest @ ..] => {
            let length = 256 * u32::from(*high) + u32::from(*low);
            if length > u32::from(limit) {
                return Err(Stop::Stray(rest.len() + 1));
            }
            Ok((length as u16, rest))
        }
    }
}

#[tactic(auto, unfolding(crate::specs::Reading::text_at))]
pub(crate) fn read_text(alloc: Global, limit: u16, bytes: &[u8]) -> Result<(Text, &[u8]), Stop>
    ensures { Gives (λ x. (x.0, x.1.now)) result (text_at limit bytes.now) }
{
    let (length, rest) = read_length(limit, bytes)?;
    let (front, rest) = read_run(length as usize, rest)?;
    match Text::from_bytes(alloc, front) {
        Ok(text) => Ok((text, rest)),
        Err(_) => Err(Stop::NoMemory),
    }
}

#[tactic(auto, unfolding(crate::specs::Reading::digest_at))]
pub(crate) fn read_digest(bytes: &[u8]) -> Result<([u8; 32], &[u8]), Stop>
    ensures { Gives (λ x. (x.0, x.1.now)) result (digest_at bytes.now) }
{
    let (front, rest) = read_run(32, bytes)?;
    let mut digest = [0; 32];
    digest.copy_from_slice(front);
    Ok((digest, rest))
}

#[tactic(auto, unfolding(crate::specs::Reading::id_at))]
pub(crate) fn read_id(bytes: &[u8]) -> Result<(ItemId, &[u8]), Stop>
    ensures { Gives (λ x. (x.0, x.1.now)) result (id_at bytes.now) }
{
    let (id, rest) = read_u32(bytes)?;
    Ok((ItemId(id), rest))
}

#[tactic(auto, unfolding(crate::specs::Reading::epoch_at))]
pub(crate) fn read_epoch(bytes: &[u8]) -> Result<(Epoch, &[u8]), Stop>
    ensures { Gives (λ x. (x.0, x.1.now)) result (epoch_at bytes.now) }
{
    let (epoch, rest) = read_u32(bytes)?;
    Ok((Epoch(epoch), rest))
}

#[tactic(auto, unfolding(crate::specs::Reading::attempt_at))]
pub(crate) fn read_attempt(bytes: &[u8]) -> Result<(Attempt, &[u8]), Stop>
    ensures { Gives (λ x. (x.0, x.1.now)) result (attempt_at bytes.now) }
{
    let (attempt, rest) = read_u32(bytes)?;
    Ok((Attempt(attempt), rest))
}

/// One byte from `low` to `high`.
#[tactic(auto, unfolding(crate::specs::Reading::coded_at))]
pub(crate) fn read_within(low: u8, high: u8, bytes: &[u8]) -> Result<(u8, &[u8]), Stop>
    ensures read { Gives (λ x. (x.0, x.1.now)) result (coded_at (within low high) bytes.now) }
    ensures within { IfOk result (λ x. (low ≤ x.0) × (x.0 ≤ high)) }
{
    match bytes {
        [] => Err(Stop::Short),
        [n, rest @ ..] if low <= *n && *n <= high => Ok((*n, rest)),
        [_, ..] => Err(Stop::Stray(bytes.len())),
    }
}

#[tactic(auto, unfolding(crate::specs::Reading::coded_at))]
pub(crate) fn read_flag(bytes: &[u8]) -> Result<(bool, &[u8]), Stop>
    ensures { Gives (λ x. (x.0, x.1.now)) result (coded_at flag_of bytes.now) }
{
    match bytes {
        [] => Err(Stop::Short),
        [0, rest @ ..] => Ok((false, rest)),
        [1, rest @ ..] => Ok((true, rest)),
        [_, ..] => Err(Stop::Stray(bytes.len())),
    }
}

#[tactic(auto, unfolding(crate::specs::Reading::coded_at))]
pub(crate) fn read_by(bytes: &[u8]) -> Result<(By, &[u8]), Stop>
    ensures { Gives (λ x. (x.0, x.1.now)) result (coded_at by_of bytes.now) }
{
    match bytes {
        [] => Err(Stop::Short),
        [1, rest @ ..] => Ok((By::User, rest)),
        [2, rest @ ..] => Ok((By::Itself, rest)),
        [_, ..] => Err(Stop::Stray(bytes.len())),
    }
}

fn reason_with(code: u8) -> Option<Reason>
    ensures { result ≡ reason_of code }
{
    Reason::from_code(u16::from(code))
}

/// The low byte of a reason's number.
#[tactic(auto, unfolding(crate::specs::Reading::coded_at))]
fn read_code(bytes: &[u8]) -> Result<(Reason, &[u8]), Stop>
    ensures { Gives (λ x. (x.0, x.1.now)) result (coded_at reason_of bytes.now) }
{
    match bytes {
        [] => Err(Stop::Short),
        [code, rest @ ..] => match reason_with(*code) {
            Some(reason) => Ok((reason, rest)),
            None => Err(Stop::Stray(bytes.len())),
        },
    }
}

#[tactic(auto, unfolding(crate::specs::Reading::reason_at))]
pub(crate) fn read_reason(bytes: &[u8]) -> Result<(Reason, &[u8]), Stop>
    ensures { Gives (λ x. (x.0, x.1.now)) result (reason_at bytes.now) }
{
    let (_, rest) = read_within(0, 0, bytes)?;
    let (reason, rest) = read_code(rest)?;
    Ok((reason, rest))
}

#[tactic(auto, unfolding(crate::specs::Reading::key_at))]
pub(crate) fn read_key(alloc: Global, bytes: &[u8]) -> Result<(Key, &[u8]), Stop>
    ensures { Gives (λ x. (x.0, x.1.now)) result (key_at bytes.now) }
{
    match bytes {
        [] => Err(Stop::Short),
        [1, rest @ ..] => {
            let (tag, rest) = read_text(alloc, 1024, rest)?;
            Ok((Key::Strong(tag), rest))
        }
        [2, rest @ ..] => {
            let (id, rest) = read_id(rest)?;
            let (attempt, rest) = read_attempt(rest)?;
            Ok((Key::Once(id, attempt), rest))
        }
        [_, ..] => Err(Stop::Stray(bytes.len())),
    }
}

#[tactic(auto, unfolding(crate::specs::Reading::slice_at))]
fn read_slice(bytes: &[u8]) -> Result<(Slice, &[u8]), Stop>
    ensures { Gives (λ x. (x.0, x.1.now)) result (slice_at bytes.now) }
{
    let (first, rest) = read_u64(bytes)?;
    let (got, rest) = read_u64(rest)?;
    let (finished, rest) = read_flag(rest)?;
    let slice = Slice {
        first,
        got,
        finished,
    };
    Ok((slice, rest))
}

fn read_each(alloc: Global, count: u8, bytes: &[u8]) -> Result<(Slices, &[u8]), Stop>
    requires { count ≤ 64 }
    ensures { Gives (λ x. (x.0, x.1.now)) result (times_at slice_at count bytes.now) }
{
    let mut slices = Slices::new(alloc);
    let mut rest = bytes;
    for _ in 0..count {
        let (slice, after) = read_slice(rest)?;
        slices.push(slice)?;
        rest = after;
    }
    Ok((slices, rest))
}

#[tactic(auto, unfolding(crate::specs::Reading::slices_at))]
pub(crate) fn read_slices(alloc: Global, bytes: &[u8]) -> Result<(Slices, &[u8]), Stop>
    ensures { Gives (λ x. (x.0, x.1.now)) result (slices_at bytes.now) }
{
    let (count, rest) = read_within(1, 64, bytes)?;
    let (slices, rest) = read_each(alloc, count, rest)?;
    Ok((slices, rest))
}

#[tactic(auto, unfolding(crate::specs::Reading::optional_at))]
pub(crate) fn read_stated_digest(bytes: &[u8]) -> Result<(Option<[u8; 32]>, &[u8]), Stop>
    ensures { Gives (λ x. (x.0, x.1.now)) result (optional_at digest_at bytes.now) }
{
    match bytes {
        [] => Err(Stop::Short),
        [0, rest @ ..] => Ok((None, rest)),
        [1, rest @ ..] => {
            let (digest, rest) = read_digest(rest)?;
            Ok((Some(digest), rest))
        }
        [_, ..] => Err(Stop::Stray(bytes.len())),
    }
}

#[tactic(auto, unfolding(crate::specs::Reading::optional_at))]
pub(crate) fn read_known_total(bytes: &[u8]) -> Result<(Option<u64>, &[u8]), Stop>
    ensures { Gives (λ x. (x.0, x.1.now)) result (optional_at (number_at w64) bytes.now) }
{
    match bytes {
        [] => Err(Stop::Short),
        [0, rest @ ..] => Ok((None, rest)),
        [1, rest @ ..] => {
            let (total, rest) = read_u64(rest)?;
            Ok((Some(total), rest))
        }
        [_, ..] => Err(Stop::Stray(bytes.len())),
    }
}

#[tactic(auto, unfolding(crate::specs::Reading::optional_at))]
pub(crate) fn read_known_text(
    alloc: Global,
    limit: u16,
    bytes: &[u8],
) -> Result<(Option<Text>, &[u8]), Stop>
    ensures { Gives (λ x. (x.0, x.1.now)) result (optional_at (text_at limit) bytes.now) }
{
    match bytes {
        [] => Err(Stop::Short),
        [0, rest @ ..] => Ok((None, rest)),
        [1, rest @ ..] => {
            let (text, rest) = read_text(alloc, limit, rest)?;
            Ok((Some(text), rest))
        }
        [_, ..] => Err(Stop::Stray(bytes.len())),
    }
}

#[tactic(auto, unfolding(crate::specs::Reading::optional_at))]
pub(crate) fn read_known_key(alloc: Global, bytes: &[u8]) -> Result<(Option<Key>, &[u8]), Stop>
    ensures { Gives (λ x. (x.0, x.1.now)) result (optional_at key_at bytes.now) }
{
    match bytes {
        [] => Err(Stop::Short),
        [0, rest @ ..] => Ok((None, rest)),
        [1, rest @ ..] => {
            let (key, rest) = read_key(alloc, rest)?;
            Ok((Some(key), rest))
        }
        [_, ..] => Err(Stop::Stray(bytes.len())),
    }
}

#[tactic(auto, unfolding(crate::specs::Reading::optional_at))]
fn read_kept_reason(bytes: &[u8]) -> Result<(Option<Reason>, &[u8]), Stop>
    ensures { Gives (λ x. (x.0, x.1.now)) result (optional_at reason_at bytes.now) }
{
    match bytes {
        [] => Err(Stop::Short),
        [0, rest @ ..] => Ok((None, rest)),
        [1, rest @ ..] => {
            let (reason, rest) = read_reason(rest)?;
            Ok((Some(reason), rest))
        }
        [_, ..] => Err(Stop::Stray(bytes.len())),
    }
}

#[tactic(auto, unfolding(crate::specs::Reading::phased_at))]
fn read_phased(phase: Phase, bytes: &[u8]) -> Result<(Phase, Option<Reason>, &[u8]), Stop>
    ensures { Gives (λ x. ((x.0, x.1), x.2.now)) result (phased_at phase bytes.now) }
{
    let (reason, rest) = read_kept_reason(bytes)?;
    Ok((phase, reason, rest))
}

#[tactic(auto, unfolding(crate::specs::Reading::interrupted_at))]
fn read_interrupted(bytes: &[u8]) -> Result<(Phase, Option<Reason>, &[u8]), Stop>
    ensures { Gives (λ x. ((x.0, x.1), x.2.now)) result (interrupted_at bytes.now) }
{
    let (_, rest) = read_within(1, 1, bytes)?;
    let (reason, rest) = read_reason(rest)?;
    Ok((Phase::Interrupted(reason), Some(reason), rest))
}

/// A phase, and the reason that may stand behind it. An interrupted item has one.
#[tactic(auto, unfolding(crate::specs::Reading::phase_at))]
pub(crate) fn read_phase(bytes: &[u8]) -> Result<(Phase, Option<Reason>, &[u8]), Stop>
    ensures { Gives (λ x. ((x.0, x.1), x.2.now)) result (phase_at bytes.now) }
{
    match bytes {
        [] => Err(Stop::Short),
        [1, rest @ ..] => read_phased(Phase::Waiting, rest),
        [2, rest @ ..] => read_phased(Phase::Running, rest),
        [3, rest @ ..] => read_phased(Phase::Paused, rest),
        [4, rest @ ..] => read_phased(Phase::Finishing, rest),
        [5, rest @ ..] => read_phased(Phase::Complete, rest),
        [6, rest @ ..] => read_phased(Phase::Cancelled, rest),
        [7, rest @ ..] => read_interrupted(rest),
        [_, ..] => Err(Stop::Stray(bytes.len())),
    }
}
