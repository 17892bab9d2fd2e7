//! The report, the list as CSV, and files that are imported, as texts.
#![tactic(auto)]

#[cfg(test)]
mod imports;
#[cfg(test)]
mod lists;
