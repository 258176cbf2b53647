// What a turn of a session did.
use desk_laws::Cause;
use gui_num::Rect;

/// What a turn of a session did.
#[derive(Clone, Copy, Debug, PartialEq, Eq)]
pub enum Turn {
    /// No whole message, word or fault is there.
    Wait,
    /// A message, or the version word, had its effect and was answered. `window` is that of the
    /// message's header, 0 for the version word. `drawn` is the rectangle of the window's pixels that
    /// was read, counted from the upper left corner of its place; None where no pixel was.
    Changed { window: u32, drawn: Option<Rect> },
    /// Clipboard data of no more bytes than the clipboard's limit stands in front.
    ClipWhole,
    /// Longer clipboard data, of at most `MAX_SKIPPED_CLIPBOARD` bytes, stands in front; its bytes weren't kept.
    ClipOver,
    /// The session ended: the guest's windows are gone.
    Ended(Cause),
}
