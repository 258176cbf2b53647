//! The tree of top windows and boxes that an agent shows, and the pixels of it that changed.
#![tactic(auto)]

mod adds;
mod boxes;
mod clip;
mod damage;
mod edits;
mod fault;
mod frame;
mod ids;
mod paint;
mod path;
mod scene;
mod top;
mod tops;

pub use fault::SceneFault;
pub use scene::Scene;

#[cfg(test)]
mod tests;
