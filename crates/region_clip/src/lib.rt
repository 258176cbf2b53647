//! Sets of pixels: rectangles that have no common points, and what of a row is still to be drawn.
#![tactic(auto)]

mod law;
mod rect_cut;
mod region;
mod row_spans;

pub use law::law_of_regions;
pub use region::{Full, Region};
pub use row_spans::{RowSpans, Spans};

#[cfg(test)]
mod tests;
