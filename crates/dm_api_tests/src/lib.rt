//! Requests to the service, byte by byte.
#![tactic(auto)]

#[cfg(test)]
mod connections;
#[cfg(test)]
mod replies;
#[cfg(test)]
mod requests;
