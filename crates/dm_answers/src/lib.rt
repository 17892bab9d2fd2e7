//! What the calls of a desk take and answer. The contracts of the calls cite the definitions of this
//! crate; the calls themselves stand above it.
#![tactic(auto)]

mod answer;
mod fault;
mod order;

pub use answer::{Begun, Finished, IdList, Named, SlicePass, SlicePasses, Told};
pub use fault::{DeskFault, OpenFault};
pub use order::{Order, Taken};
