//! Addresses, and the requests that ask for them.
#![tactic(auto)]

mod address;
mod reading;
mod request;

pub use address::{AddressFault, Unread, next_address, read_address};
pub use request::{Ask, request_text};

#[cfg(test)]
mod tests;
