//! The formats of records and of outputs, which are this project's own: how a record is read and
//! spelled, and how what the desktop posts is spelled and read. It knows nothing of the desk.
#![tactic(auto)]

mod clipboard;
mod clipboard_out;
mod config;
mod config_out;
mod item;
mod item_out;
mod law;
mod made;
mod made_pieces;
mod made_round;
mod made_setup;
mod outputs;
mod outputs_out;
mod part;
mod post;
#[cfg(test)]
mod tests;
mod version;

pub use config::{ConfigRead, read_config};
pub use config_out::{config_len, put_config};
pub use item::{fixed_len, item_of, item_within};
pub use item_out::{put_item, spell_item};
pub use law::{law_of_made_records, law_of_posts, law_of_records};
pub use made::{MadeFault, put_made};
pub use part::{PartRead, fill_whole};
pub use post::{Post, post_of};
