//! The program's runs over objects in memory and over a real socket, as tables.
#![tactic(auto)]

#[cfg(test)]
mod list;
#[cfg(test)]
mod replies;
#[cfg(test)]
mod rows;
#[cfg(test)]
mod runs;
#[cfg(test)]
mod socket;
#[cfg(test)]
mod stops;
