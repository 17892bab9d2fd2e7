ghost use Rattle.std.specs.Prelude.{◌≡◌, ◌≤◌, false};
ghost use Rattle.dm_types.specs.Faults.{NoneFell};
ghost use Rattle.dm_store.specs.Origin.{said_of};
ghost use Rattle.dm_bring.specs.Bringing.{BringsOn, MayBring, WasBrought};

use dm_brings::course_behind;
use dm_disk_model::Disk;
use dm_does::Course;
use dm_edge::Net;
use dm_fetch::fetch;
use dm_items::Desk;
use dm_types::ItemId;
use std::alloc::Global;

/// Brings an item, and says how the command goes on behind it.
fn bring_item<D: Disk, N: Net>(
    alloc: Global,
    desk: &mut Desk<D, N::O>,
    net: &mut N,
    id: ItemId,
    slices: u32,
    turns: &[u8],
    at: u64,
) -> Course
    requires whole { desk.old.broken ≡ false }
    requires some { 1 ≤ slices }
    requires few { slices ≤ 16 }
    requires origin { N.origin_of net.old ≡ desk.old.origin }
    ensures brought { WasBrought D.tells D.history D.faults D.far (λ o. said_of (N.O.says o)) N.tells desk.old desk.new (N.closed net.old) (N.closed net.new) (N.faults net.old) (N.faults net.new) id slices at result }
    ensures later { NoneFell (N.faults net.old) (N.faults net.new) }
    ensures stays { N.origin_of net.new ≡ N.origin_of net.old }
{
    let _kept = desk.items();
    let ended = fetch(alloc, desk, net, id, slices, turns, at);
    course_behind(&ended, Course::Brings(id, slices))
}

/// Brings the item where the course says so, by an attempt of the user and those that the item makes by itself, and
/// says how the command goes on. A course that ends is handed back, and nothing is done. `turns` says which open
/// connection is read next, and they go round where it is empty; `at` is in milliseconds since 1970.
pub fn bring<D: Disk, N: Net>(
    alloc: Global,
    desk: &mut Desk<D, N::O>,
    net: &mut N,
    course: Course,
    turns: &[u8],
    at: u64,
) -> Course
    requires may { MayBring desk.old course }
    requires origin { N.origin_of net.old ≡ desk.old.origin }
    ensures brings { BringsOn D.tells D.history D.faults D.far (λ o. said_of (N.O.says o)) N.tells desk.old desk.new (N.closed net.old) (N.closed net.new) (N.faults net.old) (N.faults net.new) at course result }
    ensures later { NoneFell (N.faults net.old) (N.faults net.new) }
    ensures stays { N.origin_of net.new ≡ N.origin_of net.old }
{
    match course {
        Course::Ends(verdict, show) => Course::Ends(verdict, show),
        Course::Brings(id, slices) => bring_item(alloc, desk, net, id, slices, turns, at),
    }
}
