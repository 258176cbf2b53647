//! What was read of windows, kept in square tiles of pixels, in memory that is taken once.
#![tactic(auto)]

mod shelf;
mod spot;
mod square;
mod tiles;

pub use tiles::Tiles;

#[cfg(test)]
mod tests;
