// The numbers that this project limits a desktop, its guests and its items by.

/// The most guests of a desktop.
pub const MAX_GUESTS: u32 = 16;

/// The most outputs of a desktop.
pub const MAX_OUTPUTS: u32 = 8;

/// The most windows of a guest.
pub const MAX_WINDOWS: u32 = 1024;

/// The most bytes of clipboard data in a message that is skipped; the session ends at a longer one.
pub const MAX_SKIPPED_CLIPBOARD: u32 = 256_000;

/// The most bytes of a guest in one item.
pub const MAX_PIECE: u32 = 65536;

/// The most changes of a guest's frames that wait for their load.
pub const MAX_WAITING_STORES: u32 = 64;

/// The bytes of a page of a guest's frames.
pub const PAGE_BYTES: u32 = gui_wire::PAGE_BYTES;

/// The words of a page, of four bytes each.
pub const PAGE_WORDS: u32 = PAGE_BYTES / 4;

/// The most pages of a guest's frames.
pub const MAX_PAGES: u32 = 16384;

/// The side of a tile of contents, in pixels.
pub const TILE_SIDE: u32 = 64;

/// The most tiles that a guest's contents take.
pub const MAX_TILES: u32 = 4096;

/// The least minor version of an agent that is told the daemon's version.
pub const VERSION_REPLY_MINOR: u32 = 4;

/// The least minor version of an agent whose dumps are acknowledged.
pub const DUMP_ACK_MINOR: u32 = 7;
