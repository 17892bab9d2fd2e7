//! Items that were being finished when the program ended are settled: where one file of the item stands,
//! and is whole, it gets its name, and the item is complete.
#![tactic(auto)]

mod judging;
mod moving;
mod settling;

pub use settling::settle_all;
