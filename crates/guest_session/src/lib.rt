//! One guest's session with the daemon: its bytes, its windows, and what they lead to. It reads
//! messages of the Qubes GUI protocol, checks each before anything of it has an effect, and answers
//! its guest alone.
//!
//! All memory is taken as a session is opened.
#![tactic(auto)]

mod desk;
mod edit;
mod grant;
mod obey;
mod place;
mod read;
mod replies;
mod report;
mod rows;
mod session;
#[cfg(test)]
mod tests;
mod text;
mod turn;
mod units;

pub use session::Session;
pub use turn::Turn;
pub use window_table::Pane;
