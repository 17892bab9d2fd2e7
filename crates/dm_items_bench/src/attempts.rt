// The calls of an attempt whose answers are more than a fault.
use crate::disks::MemoryDesk;
use crate::said::{Said, done};
use dm_items::{Pass, SlicePass};
use dm_policy::Cause;
use dm_types::{By, ItemId};

pub(crate) fn begin(desk: &mut MemoryDesk, id: ItemId, by: By) -> Said {
    match desk.begin(id, by, 0) {
        Ok(begun) => Said::Begun(begun),
        Err(fault) => Said::No(fault),
    }
}

pub(crate) fn plan(desk: &mut MemoryDesk, pass: &Pass, count: u32) -> Said {
    if count < 1 || count > 16 {
        return Said::Gone;
    }
    match desk.plan(pass, count) {
        Ok(parts) => Said::Parts(parts.count(), parts.items().last().copied()),
        Err(fault) => Said::No(fault),
    }
}

pub(crate) fn check(desk: &MemoryDesk, pass: &SlicePass) -> Said {
    match desk.check(pass) {
        Ok(place) => Said::Next(place),
        Err(fault) => Said::No(fault),
    }
}

/// The attempt broke off: its stream ended before its content, or the reply to a range request was a whole one.
pub(crate) fn broke(desk: &mut MemoryDesk, pass: &Pass, is_whole: bool) -> Said {
    let cause = if is_whole {
        Cause::RangeRefused(200)
    } else {
        Cause::ContentShort {
            have: 5,
            wanted: Some(11),
        }
    };
    done(desk.broke(pass, &cause))
}

pub(crate) fn finish(desk: &mut MemoryDesk, pass: &Pass) -> Said {
    match desk.finish(pass, 0) {
        Ok(finished) => Said::Finished(finished),
        Err(fault) => Said::No(fault),
    }
}
