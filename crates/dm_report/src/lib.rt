//! Every text that is printed: the line of an item, the lines that show one whole, and what the ending of a command
//! says.
#![tactic(auto)]

mod ending;
mod export;
mod item;
mod line;
mod report;
mod values;
mod verdict;

pub use ending::Ending;
pub use export::csv_export;
pub use item::{item_line, item_text, row_line};
pub use line::{add_field, add_last, add_number_field};
pub use report::report_text;
pub use values::{digest_text, number_or, number_text, state_text};
pub use verdict::{Verdict, errs_line, fixed_line, status_of};

#[cfg(test)]
mod tests;
