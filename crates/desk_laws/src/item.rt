// What happens on the desktop.

/// One event of the desktop's input. Guests are counted from 0 and are below the setup's number of
/// guests; `x` and `y` are pixels from the desktop's upper left corner; `state` holds the modifier
/// keys and buttons as X11 counts them, at most 8191.
#[derive(Clone, Copy, Debug, PartialEq, Eq)]
pub enum Item {
    /// A piece of a guest's bytes, which stands beside the item: 1 to 65,536 bytes.
    Bytes {
        guest: u32,
    },
    /// The end of a guest's bytes.
    Closed {
        guest: u32,
    },
    /// A change of a guest's shared frames: the bytes beside the item go into the page at the
    /// offset, once `delay` more words were loaded. Offset and length are multiples of 4.
    Store {
        guest: u32,
        delay: u16,
        page: u32,
        offset: u32,
    },
    /// A key was pressed or released.
    Key {
        down: bool,
        code: u8,
        state: u16,
    },
    /// The pointer moved to this pixel.
    Move {
        x: i32,
        y: i32,
        state: u16,
    },
    /// A button, 1 to 15, was pressed or released.
    Press {
        down: bool,
        button: u8,
        state: u16,
    },
    /// The window manager's command to close the focused window.
    Close,
    /// The command to focus the next window.
    Next,
    /// The command to show the window that was hidden last.
    Restore,
    /// The command to move the focused window to this pixel.
    MoveTo {
        x: i32,
        y: i32,
    },
    /// The command to give the focused window this width and height.
    SizeTo {
        w: i32,
        h: i32,
    },
    /// The picture of the desktop is asked for.
    Snap,
    /// The input's end.
    End,
    /// The link to a guest failed.
    Lost {
        guest: u32,
    },
    /// Nothing happened for a while.
    Idle,
}
