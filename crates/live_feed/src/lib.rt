//! The bytes that wait for a guest until its socket takes them, and the reading of a change of its
//! frames.
#![tactic(auto)]

mod change;
mod guest;
mod live_wire;
mod outbox;
mod page;
mod row;
mod socket;
mod sockets;
mod user;
mod user_item;

pub use live_wire::LiveWire;
pub use outbox::{MAX_WAITING, Outbox};
pub use page::{PageRead, page_of};

#[cfg(test)]
mod tests;
#[cfg(test)]
mod wire_tests;
