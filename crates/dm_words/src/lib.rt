//! The words of the command line: one grammar for all commands, and what each of them asks.
#![tactic(auto)]

mod command;
mod pieces;
mod table;
mod values;

pub use command::{BadWords, Command, Wish, read_command, read_serve};
pub use table::CommandName;
pub use values::{digest_of, is_file_name, is_name, is_word};

#[cfg(test)]
mod tests;
