//! Runs of commands over a disk and a net in memory, as values: what tests of the commands share.
#![tactic(auto)]

mod broken;
mod disks;
mod nets;
mod playing;
mod rows;
mod runs;
mod stops;

pub use broken::{Behind, Broken, play_broken};
pub use disks::stands;
pub use playing::{Played, Step, play};
pub use rows::{Asked, Left, Outside, Row, Told};
pub use runs::{Runs, texts};
pub use stops::{first_lost, first_untold, said};
