//! The parts of a desk: its journal, the list that it holds, and the lives of the attempts that run. One
//! entry after another is recorded here, and each call says what a crash leaves at any moment.
#![tactic(auto)]

mod adding;
mod finding;
mod idling;
mod life;
mod pass;
mod publishing;
mod readying;
mod recording;
mod room;
mod saving;
mod store;
mod syncing;
mod unrecorded;

pub use adding::{record_added, record_new};
pub use finding::{find_life, life_of, live_at};
pub use idling::record_idle;
pub use life::Life;
pub use pass::{Gone, Pass};
pub use publishing::publish_item;
pub use readying::{Readied, ready};
pub use recording::{add_life, drop_life, interrupt, put_failed, record, save_at, save_life};
pub use room::make_room;
pub use saving::{SaveFault, save};
pub use store::Store;
pub use syncing::sync_names;
pub use unrecorded::Unrecorded;
