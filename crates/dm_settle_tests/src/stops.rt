// What a stop or a fault at each call of the disk leaves of an item that is being brought.
use dm_disk::Pick;
use dm_items::Finished;
use dm_items_bench::{Said, after_fault, after_stop};
use dm_types::{Phase, Reason};
use std::alloc::Global;

const COMPLETE: Said = Said::Is(Phase::Complete, 11);

/// How many calls of the disk bring the item.
const CALLS: u64 = 54;

// From which stop on the image with the least finds item 1 so: the gate of the entry is synced then. The
// image with all that reads finds it one call earlier, where the gate is written.
const FOUND: [(u64, Said); 6] = [
    (0, Said::Gone),
    (19, Said::Is(Phase::Waiting, 0)),
    (23, Said::Is(Phase::Interrupted(Reason::Crash), 0)),
    (37, Said::Is(Phase::Interrupted(Reason::Crash), 5)),
    (43, Said::Is(Phase::Interrupted(Reason::Crash), 11)),
    (48, COMPLETE),
];

/// How item 1 is found where so many calls have left their gates synced.
fn wanted(calls: u64) -> Said {
    let mut found = Said::Gone;
    for row in &FOUND {
        if row.0 <= calls {
            found = row.1;
        }
    }
    found
}

/// Whether a stop behind so many calls is told, and item 1 is found as wanted and is brought from there.
fn is_found(alloc: Global, calls: u64, pick: Pick, wanted: Said) -> bool {
    match after_stop(alloc, calls, pick) {
        Some(stop) => {
            let is_told = stop.ended != Said::Finished(Finished::Complete);
            is_told && stop.found == wanted && stop.is_brought
        }
        None => false,
    }
}

#[test]
fn a_stop_at_each_call_leaves_an_item_that_is_brought(rt: HostRuntime) {
    let alloc = rt.alloc();
    for calls in 0..CALLS {
        assert!(rt;
            is_found(alloc, calls, Pick::Least, wanted(calls)),
            "least at {calls}"
        );
        assert!(rt;
            is_found(alloc, calls, Pick::Present, wanted(calls + 1)),
            "present at {calls}"
        );
    }
    let is_whole = match after_stop(alloc, CALLS, Pick::Least) {
        Some(stop) => stop.ended == Said::Finished(Finished::Complete),
        None => false,
    };
    assert!(rt; is_whole);
}

#[test]
fn a_fault_of_each_call_leaves_an_item_that_is_brought(rt: HostRuntime) {
    for call in 0..CALLS {
        assert!(rt; after_fault(rt.alloc(), call), "at {call}");
    }
}
