//! The desktop of several guests: their sessions, the stack of their windows, and the picture of them.
//! It takes the items of an input one after the other, and knows nothing of where these come from or
//! of how what guests are told is written.
//!
//! All memory is taken as a desk is opened.
#![tactic(auto)]

mod clip;
mod deliveries;
mod desk;
mod events;
mod grants;
mod outputs;
mod panes;
mod pastes;
mod places;
mod settle;
mod stack;
mod summary;
#[cfg(test)]
mod tests;
mod windows;

pub use compositor::Picture;
pub use desk::{Desk, Stepped};
pub use summary::Summary;
