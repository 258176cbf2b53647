//! Laws over whole runs of the definitions, and small hand-computed runs that the definitions have to
//! give. The calls do nothing: what is known stands in their contracts, and no other crate needs it.
#![tactic(auto)]

mod law;
mod worked;

pub use law::{
    law_clip_bytes, law_ended_session, law_granted, law_of_clipboard, law_of_others, law_of_pieces,
    law_of_sound_states,
};
pub use worked::{
    worked_causes, worked_clipboard, worked_frames, worked_guests, worked_input, worked_messages,
    worked_outputs, worked_rows, worked_streams,
};
