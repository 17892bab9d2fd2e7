//! Desks over a disk in memory, whose calls and answers are values: what tests of a desk share.
#![tactic(auto)]

mod adding;
mod attempts;
mod bring;
mod calls;
mod disks;
mod files;
mod openings;
mod passes;
mod pieces;
mod said;
mod stops;
mod telling;

pub use calls::{Call, make};
pub use disks::MemoryDesk;
pub use files::{Given, Left};
pub use openings::{Opening, Played, crash, play, waiting};
pub use passes::{
    AGAIN, ANEW, ASKED, FIRST, LEFT_HALF, ON, OTHER, OTHER_PART, PART, REST, RIGHT_HALF, THIRD,
    TOLD,
};
pub use said::Said;
pub use stops::{Stop, after_fault, after_stop};
