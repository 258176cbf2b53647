//! What an output says of each guest, as laws over the definitions: the records that are read of a run's
//! bytes are the run's posts, and those of one guest are what the guest would be told alone.
//!
//! The calls do nothing: what is known stands in their contracts.
#![tactic(auto)]

mod law;
mod worked;

pub use law::law_of_outputs;
pub use worked::worked_records;
