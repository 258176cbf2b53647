// Reads the three numbers of a change of a guest's frames.
ghost use Rattle.std.specs.Prelude.{◌≡◌, ◌+◌, ◌*◌, ◌≤◌, ◌↔◌, length, IsTrue};
ghost use Rattle.gui_wire.specs.Words.{word_at};
ghost use Rattle.desk_laws.specs.Items.{IsChange};
ghost use Rattle.live_feed.specs.FrameChanges.{Says};

use desk_laws::PAGE_BYTES;

/// What a guest's bytes of frame changes begin with.
#[derive(Clone, Copy, Debug, PartialEq, Eq)]
pub enum PageRead {
    /// A change of `len` bytes, whole words, from the byte `offset` on of the page of this number. These
    /// bytes come behind the twelve of the three numbers.
    Whole { page: u32, offset: u32, len: usize },
    /// The three numbers aren't there yet: this many of their twelve bytes are missing.
    Need { more: usize },
    /// The three numbers are those of no change of whole words within one page.
    Bad,
}

// The number of index i, of four bytes with the lowest first.
fn word_at(bytes: &[u8], i: usize) -> u32
    requires within { 4 * i + 4 ≤ length bytes.now }
    ensures { result ≡ word_at i bytes.now }
{
    let at = 4 * i;
    u32::from_le_bytes([bytes[at], bytes[at + 1], bytes[at + 2], bytes[at + 3]])
}

fn is_change(page: u32, offset: u32, len: u32, pages: u32) -> bool
    ensures { IsTrue result ↔ IsChange page offset len pages }
{
    let is_whole = offset % 4 == 0 && len % 4 == 0 && len >= 4;
    page < pages && is_whole && len <= PAGE_BYTES && offset <= PAGE_BYTES - len
}

/// What these bytes begin with, for frames of so many pages. `Need` exactly where there are fewer than
/// twelve, `Bad` exactly where the first three numbers are those of no change.
pub fn page_of(bytes: &[u8], pages: u32) -> PageRead
    ensures { Says pages bytes.now result }
{
    if bytes.len() < 12 {
        return PageRead::Need {
            more: 12 - bytes.len(),
        };
    }
    let (page, offset, len) = (word_at(bytes, 0), word_at(bytes, 1), word_at(bytes, 2));
    if is_change(page, offset, len, pages) {
        PageRead::Whole {
            page,
            offset,
            len: len as usize,
        }
    } else {
        PageRead::Bad
    }
}
