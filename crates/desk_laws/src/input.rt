// What the desktop grants a guest.

use gui_num::Rect;

/// An input that the desktop grants one window of a guest. `x` and `y` are pixels from the upper
/// left corner of the window's content.
#[derive(Clone, Copy, Debug, PartialEq, Eq)]
pub enum GIn {
    /// A key was pressed or released.
    Key {
        window: u32,
        down: bool,
        code: u8,
        state: u16,
    },
    /// A button was pressed or released.
    Button {
        window: u32,
        down: bool,
        x: i32,
        y: i32,
        state: u16,
        button: u8,
    },
    /// The pointer moved within the window.
    Motion {
        window: u32,
        x: i32,
        y: i32,
        state: u16,
    },
    /// The pointer entered or left; `focus` tells whether the window has the focus.
    Crossing {
        window: u32,
        enter: bool,
        x: i32,
        y: i32,
        focus: bool,
    },
    /// The window gained or lost the focus.
    Focus {
        window: u32,
        gained: bool,
    },
    /// The state of the keyboard, for the guest as a whole.
    Keymap,
    /// The window is asked to close.
    Close {
        window: u32,
    },
    /// The window is put at this place with this size.
    Place {
        window: u32,
        rect: Rect,
    },
    /// The window is shown again.
    Restored {
        window: u32,
    },
    /// The guest is asked for its clipboard.
    ClipAsk {
        window: u32,
    },
    /// The guest is given the clipboard, whose bytes stand beside the input.
    ClipGive {
        window: u32,
    },
}
