// Reads a change of a guest's frames together with the bytes that it writes.
ghost use Rattle.std.specs.Prelude.{◌≤◌, length};
ghost use Rattle.live_feed.specs.FrameChanges.{SaysWhole, IfMissing};

use crate::{PageRead, page_of};

/// The bytes of the three numbers before those of a change.
pub(crate) const HEAD_BYTES: usize = 12;

// As `page_of`, but the bytes of the change are to be there too: `Need` tells how many of all are missing.
pub(crate) fn change_of(bytes: &[u8], pages: u32) -> PageRead
    ensures says { SaysWhole pages bytes.now result }
    ensures few { IfMissing result (length bytes.now ≤ 4107) }
{
    let read = page_of(bytes, pages);
    match read {
        PageRead::Whole { len, .. } if bytes.len() < HEAD_BYTES + len => PageRead::Need {
            more: HEAD_BYTES + len - bytes.len(),
        },
        _ => read,
    }
}
