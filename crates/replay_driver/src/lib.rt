//! A whole run: the desk is stepped by the items that a feed gives, and all that comes of them is
//! written as the records of an output; and the feed that reads these items from a record.
#![tactic(auto)]

mod item_writer;
mod outcome;
mod picture_writer;
mod post_writer;
mod replay_feed;
mod run;
mod summary_writer;
#[cfg(test)]
mod tests;

pub use outcome::{Bounds, Outcome};
pub use replay_feed::{FeedState, ReplayFeed};
pub use run::desk_run;
