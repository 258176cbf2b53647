//! The objects of the outside: where bytes come from and go to, with their faults counted.
//!
//! Every `Source`, `Sink` and `Feed` has a count of its faults. It never falls, and a call answers
//! Failed only where it rose (a count that stands at 2 ^ 64 - 1 stays there). What an object tells
//! of its content is optional: the adapters over std tell nothing, the forms in memory tell all,
//! until one of them finds no memory for what it was to keep.
#![tactic(auto)]

mod fails;
mod feed;
mod file_journal;
mod held;
mod held_items;
mod journal;
mod kept;
mod kept_starts;
mod link;
mod mem_journal;
mod mem_link;
mod mem_wire;
mod memory;
mod outlet;
mod post_list;
mod send_fails;
mod sent_bytes;
mod sink;
mod source;
mod std_streams;
mod sure;
mod sure_journal;
mod sure_wire;
mod wire;

pub use feed::{Feed, FeedFault, Next, RecordFault, RecordKind};
pub use file_journal::FileJournal;
pub use journal::{Journal, StartFault};
pub use link::{Link, SendFailed};
pub use mem_journal::MemJournal;
pub use mem_wire::MemWire;
pub use memory::{MemSink, MemSource};
pub use outlet::Outlet;
pub use post_list::PostList;
pub use send_fails::SendFail;
pub use sink::{Sink, put_all};
pub use source::{Failed, Source, fill};
pub use std_streams::{StdSink, StdSource};
pub use sure::{SureSink, SureSource};
pub use sure_journal::SureJournal;
pub use sure_wire::SureWire;
pub use wire::Wire;

#[cfg(test)]
mod tests;
