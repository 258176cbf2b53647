// Reads an item of the user's.
ghost use Rattle.std.specs.Prelude.{◌≤◌, length};
ghost use Rattle.desk_laws.specs.Items.{FitsItem};
ghost use Rattle.live_feed.specs.UserItems.{SaysItem, IfNeed, IfWhole};

use io_ports::{Next, RecordKind};
use record_format::{fixed_len, item_within};

// What the user's bytes begin with.
#[derive(Clone, Copy, Debug, PartialEq, Eq)]
pub(crate) enum UserRead {
    // An item of `size` bytes.
    Whole { next: Next, size: usize },
    // No fault yet, and no whole item: at most 15 bytes are there.
    Need,
    // No item of the user's.
    Bad(RecordKind),
}

// What these bytes begin with, for so many guests and pages.
pub(crate) fn user_item(bytes: &[u8], guests: usize, pages: u32) -> UserRead
    ensures says { SaysItem guests pages bytes.now result }
    ensures fits { IfWhole result (λ next size. FitsItem guests pages next.item next.len × (size ≤ length bytes.now)) }
    ensures few { IfNeed result (length bytes.now ≤ 15) }
{
    let Some(kind) = bytes.first() else {
        return UserRead::Need;
    };
    if *kind < 5 || *kind > 10 {
        return UserRead::Bad(RecordKind::Kind);
    }
    let Some(fields) = fixed_len(*kind) else {
        return UserRead::Bad(RecordKind::Kind);
    };
    let size = 1 + fields;
    if bytes.len() < size {
        return UserRead::Need;
    }
    match item_within(bytes, guests, pages) {
        Some((item, len)) => UserRead::Whole {
            next: Next { item, len },
            size,
        },
        None => UserRead::Bad(RecordKind::Range),
    }
}
