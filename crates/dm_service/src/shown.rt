//! Which item a reply shows, and which one it says is removed.
ghost use Rattle.std.specs.Prelude.{◌≡◌};
ghost use Rattle.std.specs.Option.{option_copied};
ghost use Rattle.dm_service.specs.Api.{item_by, removed_by};

use dm_does::{Course, Job, Show};
use dm_item::Items;
use dm_types::{Item, ItemId};

/// The item that the course shows, as it stands now.
pub fn item_of(items: &Items, course: Course) -> Option<&Item>
    ensures { option_copied result ≡ item_by items.now.items course }
{
    match course {
        Course::Ends(_, Show::Line(id)) => items.get(id),
        Course::Ends(_, Show::Whole(id)) => items.get(id),
        Course::Ends(_, _) => None,
        Course::Brings(id, _) => items.get(id),
    }
}

/// The item that is removed.
pub fn removed_id(job: &Job) -> ItemId
    ensures { result ≡ removed_by job.now }
{
    match job {
        Job::Remove(id) => *id,
        _ => ItemId(0),
    }
}
