//! The items that a list of recorded entries leaves, and which entry may come next.
#![tactic(auto)]

mod before;
mod change;
mod conditions;
mod copies;
mod fault;
mod items;
mod laws;
mod names;
mod restored;
mod rows;
mod take;

pub use before::Before;
pub use fault::ApplyFault;
pub use items::Items;
pub use laws::history_laws;
pub use rows::mode_of_item;
