//! The plain types of the desktop, and the definitions of what it does (`specs/`).
//!
//! A desktop shows the windows of several guests. Its state is one value, and each item of its
//! input (a piece of a guest's bytes, a change of a guest's frames, what the user does) is one step
//! of it: `specs/Steps.antt` has that step, and the files that it names have its parts.
#![tactic(auto)]

mod cause;
mod checks;
mod clip;
mod ids;
mod input;
mod item;
mod law;
mod limits;
mod row_id;
mod rules;
mod setup;

pub use cause::Cause;
pub use checks::law_first_cause;
pub use clip::denies;
pub use ids::Ids;
pub use input::GIn;
pub use item::Item;
pub use law::{law_of_changes, law_of_cutting, law_of_edges};
pub use limits::{
    DUMP_ACK_MINOR, MAX_GUESTS, MAX_OUTPUTS, MAX_PAGES, MAX_PIECE, MAX_SKIPPED_CLIPBOARD,
    MAX_TILES, MAX_WAITING_STORES, MAX_WINDOWS, PAGE_BYTES, PAGE_WORDS, TILE_SIDE,
    VERSION_REPLY_MINOR,
};
pub use row_id::RowId;
pub use setup::{GuestSetup, Guests, Name, Outputs, Pair, Pairs, Setup};
