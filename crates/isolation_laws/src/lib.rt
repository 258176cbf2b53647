//! Isolation, as laws over the definitions: each guest's replies and windows are what they would be with
//! nobody else on the desktop.
//!
//! `specs/Alone.antt` is the guest alone: what its own bytes and the inputs that it is granted do to its
//! windows, and what it is told. It knows no other guest, no stack, no pointer, no focus and no clipboard.
#![tactic(auto)]

mod law;

pub use law::{law_guest_alone, law_mask, law_two_worlds};
