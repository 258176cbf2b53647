//! The receive buffer of one guest: takes its bytes piece by piece, and shows the messages in them,
//! whole and one at a time, as the Qubes GUI protocol cuts them: a version word of four bytes, then
//! messages of a header and a body.
//!
//! All memory is taken when a buffer is made. What is shown is borrowed from the buffer, uncopied.
#![tactic(auto)]

mod buffer;
mod stream;
#[cfg(test)]
mod tests;

use gui_wire::{Header, WireFault};
pub use stream::InStream;

// The bytes of a message's header.
const HEADER_LEN: usize = 12;

/// What the bytes after the version word begin with. `body` is borrowed from the buffer. `left` and
/// `more` count bytes.
#[derive(Clone, Copy)]
pub enum Front<'a> {
    /// A whole message.
    Whole { header: Header, body: &'a [u8] },
    /// A header whose type is unknown, or whose length doesn't fit its type.
    Bad { header: Header, fault: WireFault },
    /// The header of more clipboard data than 256,000 bytes.
    ClipLong { header: Header },
    /// Clipboard data longer than the limit, of at most 256,000 bytes, whose body has passed and wasn't
    /// kept.
    Skipped { header: Header },
    /// Clipboard data longer than the limit, of at most 256,000 bytes, of whose body this many bytes are
    /// still to come.
    Skipping { left: usize },
    /// No whole message: the header, or the message, lacks this many bytes.
    Need { more: usize },
}
