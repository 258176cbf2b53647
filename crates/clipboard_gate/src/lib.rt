//! The clipboard that two key chords work: one asks the focused guest for its data, the other gives
//! what is held to the focused guest. Keys and focus are the caller's: a `Gate` is told which guest to
//! ask, and which guest some data is from.
//!
//! All memory is taken when a `Gate` is made. What isn't held any more is overwritten with zeros.
#![tactic(auto)]

mod gate;
#[cfg(test)]
mod tests;

pub use gate::Gate;
