//! The shared frames of guests: pages of words that a guest may write at any time, read one word at a
//! time.
#![tactic(auto)]

mod cells;
mod frames;
mod glass;
mod place;
mod pool_port;
mod port;
mod region;
mod tape;
mod tape_port;
mod waiting;

pub use glass::Glass;
pub use place::Place;
pub use pool_port::PoolPort;
pub use port::FramePort;
pub use tape_port::TapePort;

#[cfg(test)]
mod tests;
