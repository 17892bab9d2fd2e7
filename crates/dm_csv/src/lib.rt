//! Files that are imported: CSV with a header, and a record for each item.
#![tactic(auto)]

mod fields;
mod importing;
mod records;
mod row;
mod rows;

pub use importing::{ImportFault, csv_import};
pub use row::ImportRow;
pub use rows::ImportRows;
