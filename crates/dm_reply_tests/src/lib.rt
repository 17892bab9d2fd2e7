//! Replies, read from wires that give them in pieces.
#![tactic(auto)]

#[cfg(test)]
mod collecting;
#[cfg(test)]
mod parts;
#[cfg(test)]
mod replies;
#[cfg(test)]
mod wires;
