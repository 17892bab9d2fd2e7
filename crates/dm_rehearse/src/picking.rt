ghost use Rattle.std.specs.Prelude.{◌≡◌};
ghost use Rattle.dm_rehearse.specs.Picking.{pick_of};

use dm_disk::Pick;

/// Which image a crash leaves between the two sessions of a number.
pub fn pick_of(number: u32) -> Pick
    ensures { result ≡ pick_of number }
{
    if number % 2 == 0 {
        Pick::Least
    } else {
        Pick::Present
    }
}
