//! An item as a compaction records it, read in five parts.

ghost use Rattle.std.specs.Prelude.{◌≡◌};
ghost use Rattle.dm_record.specs.Reading.{Gives, order_at, course_at, told_at, kept_at, make_item, restored_at};

use crate::fault::Stop;
use crate::fields::{
    read_attempt, read_epoch, read_flag, read_id, read_known_key, read_known_text,
    read_known_total, read_phase, read_slices, read_stated_digest, read_text, read_u32, read_u64,
};
use crate::parts::{Course, Kept, Order, Told};
use dm_types::{Entry, Item, Phase, Reason};
use std::alloc::Global;

#[tactic(auto, unfolding(crate::specs::Reading::order_at))]
fn read_order(alloc: Global, bytes: &[u8]) -> Result<(Order, &[u8]), Stop>
    ensures { Gives (λ x. (x.0, x.1.now)) result (order_at bytes.now) }
{
    let (id, rest) = read_id(bytes)?;
    let (word, rest) = read_text(alloc, 64, rest)?;
    let (first_address, rest) = read_text(alloc, 4096, rest)?;
    let (wish, rest) = read_text(alloc, 255, rest)?;
    let (digest, rest) = read_stated_digest(rest)?;
    let order = Order {
        id,
        word,
        first_address,
        wish,
        digest,
    };
    Ok((order, rest))
}

#[tactic(auto, unfolding(crate::specs::Reading::course_at))]
fn read_course(bytes: &[u8]) -> Result<(Course, &[u8]), Stop>
    ensures { Gives (λ x. (x.0, x.1.now)) result (course_at bytes.now) }
{
    let (epoch, rest) = read_epoch(bytes)?;
    let (attempt, rest) = read_attempt(rest)?;
    let (autos, rest) = read_u32(rest)?;
    let (begun, rest) = read_flag(rest)?;
    let course = Course {
        epoch,
        attempt,
        autos,
        begun,
    };
    Ok((course, rest))
}

#[tactic(auto, unfolding(crate::specs::Reading::told_at))]
fn read_told(alloc: Global, bytes: &[u8]) -> Result<(Told, &[u8]), Stop>
    ensures { Gives (λ x. (x.0, x.1.now)) result (told_at bytes.now) }
{
    let (key, rest) = read_known_key(alloc, bytes)?;
    let (last_address, rest) = read_known_text(alloc, 4096, rest)?;
    let (total, rest) = read_known_total(rest)?;
    let (name, rest) = read_known_text(alloc, 255, rest)?;
    let (modified, rest) = read_known_text(alloc, 128, rest)?;
    let told = Told {
        key,
        last_address,
        total,
        name,
        modified,
    };
    Ok((told, rest))
}

#[tactic(auto, unfolding(crate::specs::Reading::kept_at))]
fn read_kept(alloc: Global, bytes: &[u8]) -> Result<(Kept, &[u8]), Stop>
    ensures { Gives (λ x. (x.0, x.1.now)) result (kept_at bytes.now) }
{
    let (slices, rest) = read_slices(alloc, bytes)?;
    let (have, rest) = read_stated_digest(rest)?;
    let (at_ms, rest) = read_u64(rest)?;
    let kept = Kept {
        slices,
        have,
        at_ms,
    };
    Ok((kept, rest))
}

/// The item of these parts.
fn item_of(
    order: Order,
    phase: Phase,
    reason: Option<Reason>,
    course: Course,
    told: Told,
    kept: Kept,
) -> Item
    ensures { result ≡ make_item (order, ((phase, reason), (course, (told, kept)))) }
{
    let Order {
        id,
        word,
        first_address,
        wish,
        digest,
    } = order;
    let Told {
        key,
        last_address,
        total,
        name,
        modified,
    } = told;
    let Kept {
        slices,
        have,
        at_ms,
    } = kept;
    Item {
        id,
        word,
        first_address,
        wish,
        digest,
        phase,
        reason,
        epoch: course.epoch,
        attempt: course.attempt,
        autos: course.autos,
        begun: course.begun,
        key,
        last_address,
        total,
        name,
        modified,
        slices,
        have,
        at_ms,
    }
}

#[tactic(auto, unfolding(crate::specs::Reading::restored_at))]
pub(crate) fn read_restored(alloc: Global, bytes: &[u8]) -> Result<(Entry, &[u8]), Stop>
    ensures { Gives (λ x. (x.0, x.1.now)) result (restored_at bytes.now) }
{
    let (order, rest) = read_order(alloc, bytes)?;
    let (phase, reason, rest) = read_phase(rest)?;
    let (course, rest) = read_course(rest)?;
    let (told, rest) = read_told(alloc, rest)?;
    let (kept, rest) = read_kept(alloc, rest)?;
    let item = item_of(order, phase, reason, course, told, kept);
    Ok((Entry::Restored { item }, rest))
}
