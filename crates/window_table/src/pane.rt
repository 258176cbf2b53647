// What is kept of one window.
use arrayvec::ArrayVec;
use gui_num::Rect;

/// What is kept of one window beside its id and its dump. Places and sizes are in pixels from the
/// desktop's upper left corner.
#[derive(Drop)]
pub struct Pane {
    /// Where its content lies.
    pub place: Rect,
    /// Whether it is mapped.
    pub mapped: bool,
    /// Whether the guest asked for override-redirect.
    pub asked: bool,
    /// Whether that is granted.
    pub over: bool,
    /// The id of its parent, or 0.
    pub parent: u32,
    /// The id of the window that it is transient for, or 0.
    pub transient: u32,
    /// Its title, at most 128 bytes.
    pub title: ArrayVec<u8, 128>,
    /// Its class, at most 64 bytes.
    pub class: ArrayVec<u8, 64>,
    /// The name of its class's instance, at most 64 bytes.
    pub name: ArrayVec<u8, 64>,
    /// The fields of its WINDOW_HINTS in the order of `qubes-gui-protocol.h`: flags, min width, min
    /// height, max width, max height, width increment, height increment, base width and base height.
    pub hints: [u32; 9],
    /// Its flags, as `qubes-gui-protocol.h` counts them.
    pub flags: u32,
    /// Its cursor, as X11 counts them.
    pub cursor: u32,
    /// Whether it is docked.
    pub docked: bool,
}

/// The width and the height of a dump, in pixels.
#[derive(Clone, Copy, Debug, PartialEq, Eq)]
pub struct DumpSize {
    /// Pixels in a row.
    pub width: u32,
    /// Rows.
    pub height: u32,
}
