//! The links to guests: each reply is sent on its guest's link as long as that is open, and a send that fails cuts the link.
#![tactic(auto)]

mod links;

pub use links::{LinkState, Links};

#[cfg(test)]
mod tests;
