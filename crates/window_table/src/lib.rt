//! The windows of one guest. All memory that a table ever needs is taken as it is made.
#![tactic(auto)]

mod held;
mod index;
mod pane;
mod ref_lists;
mod table;

pub use pane::{DumpSize, Pane};
pub use table::Table;

#[cfg(test)]
mod tests;
