//! What a stop, a fault or other hands leave of an item, and how the next opening settles it.
#![tactic(auto)]

#[cfg(test)]
mod settlings;
#[cfg(test)]
mod stops;
