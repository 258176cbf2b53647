//! The picture of a desktop: each pixel of its outputs once, from the topmost window down.
#![tactic(auto)]

mod band;
mod columns;
mod draw;
mod outputs;
mod panes;
mod picture;

pub use panes::{PaneView, Panes};
pub use picture::Picture;

#[cfg(test)]
mod tests;
