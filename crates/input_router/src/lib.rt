//! What the user's events do: where the pointer is, which row is grabbed, which keys are held, who has
//! the focus and who the hover, and what the rows are told of it.
//!
//! `Router` takes the events (`route`, `take`), and tells focus and hover once an item is done (`settle`,
//! `settle_at`). It asks the desktop for the places of its rows (`Places`), and hands on what is for them
//! (`Deliver`).
#![tactic(auto)]

mod codes;
mod commands;
mod deliver;
mod grab;
mod keys;
mod places;
mod pointer;
mod router;
mod settle;
#[cfg(test)]
mod tests;
mod walks;

pub use deliver::Deliver;
pub use places::Places;
pub use router::{Routed, Router, Taken};
