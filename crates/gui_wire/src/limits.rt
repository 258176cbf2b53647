// The numbers that limit a window, its flags and the clipboard.

/// The greatest width of a window, in pixels: `MAX_WINDOW_WIDTH` of `qubes-gui-protocol.h`.
pub const MAX_WINDOW_WIDTH: u32 = 16384;

/// The greatest height of a window, in pixels: `MAX_WINDOW_HEIGHT` of `qubes-gui-protocol.h`.
pub const MAX_WINDOW_HEIGHT: u32 = 6144;

/// The most bytes that the clipboard holds in its first revision: `MAX_CLIPBOARD_SIZE` of
/// `qubes-gui-protocol.h`.
pub const MAX_CLIPBOARD_SIZE: u32 = 65000;

/// The most bytes of a CLIPBOARD_DATA message to an agent, in either revision of the clipboard. The
/// second revision, and its number, are this project's own.
pub const MAX_CLIPBOARD_DATA: u32 = 256_000;

/// The flag by which a window asks for the whole desktop: `WINDOW_FLAG_FULLSCREEN` of
/// `qubes-gui-protocol.h`.
pub const WINDOW_FLAG_FULLSCREEN: u32 = 1;

/// The flag by which a window asks to be noticed: `WINDOW_FLAG_DEMANDS_ATTENTION` of
/// `qubes-gui-protocol.h`.
pub const WINDOW_FLAG_DEMANDS_ATTENTION: u32 = 2;

/// The flag by which a window is hidden: `WINDOW_FLAG_MINIMIZE` of `qubes-gui-protocol.h`.
pub const WINDOW_FLAG_MINIMIZE: u32 = 4;

/// All flags that a window can have.
pub const WINDOW_FLAGS: u32 = WINDOW_FLAG_FULLSCREEN
    | WINDOW_FLAG_DEMANDS_ATTENTION
    | WINDOW_FLAG_MINIMIZE;

/// The bytes of a page, to which a dump's references point.
pub const PAGE_BYTES: u32 = 4096;

/// The most references of a dump: the pages of a window of the greatest size, with four bytes a
/// pixel.
pub const MAX_DUMP_REFS: u32 = (4 * MAX_WINDOW_WIDTH * MAX_WINDOW_HEIGHT + (PAGE_BYTES - 1))
    / PAGE_BYTES;

/// The most bytes in the body of a dump: its four numbers, and the references of four bytes each.
pub const MAX_DUMP_LEN: u32 = 16 + 4 * MAX_DUMP_REFS;
