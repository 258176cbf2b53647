// Reads the records of an output.
ghost use Rattle.std.specs.Prelude.{◌≡◌, ◌≤◌, ◌+◌, ◌++◌, ℕ, List, length, Some, option_map};
ghost use Rattle.record_format.specs.PostFields.{OutPost, post_spelling, HasPostSpelling, long_at, framed_read, reply_read, ended_read, picture_read, summary_read, post_read, seen_found};

use crate::config::number_at;

/// A record of an output.
#[derive(Clone, Copy, Debug, PartialEq, Eq)]
pub enum Post<'a> {
    /// What is sent to a guest.
    Reply {
        guest: u8,
        bytes: &'a [u8],
    },
    /// The end of a guest's session: the number of its cause, and the cause's two values.
    Ended {
        guest: u8,
        cause: u8,
        a: u32,
        b: u32,
    },
    /// A picture, as a PPM file.
    Picture {
        bytes: &'a [u8],
    },
    /// The counts of items, of messages that had their effect, of words that were read from frames, and
    /// of pixels drawn.
    Summary {
        items: u64,
        messages: u64,
        glances: u64,
        painted: u64,
    },
}

fn long_at(bytes: &[u8], place: usize) -> u64
    requires { place + 8 ≤ length bytes.now }
    ensures { result ≡ long_at place bytes.now }
{
    u64::from_le_bytes([
        bytes[place],
        bytes[place + 1],
        bytes[place + 2],
        bytes[place + 3],
        bytes[place + 4],
        bytes[place + 5],
        bytes[place + 6],
        bytes[place + 7],
    ])
}

// Bytes behind their length, which stands at this place.
fn framed_of(bytes: &[u8], place: usize) -> Option<&[u8]>
    requires { place ≤ 2 }
    ensures { option_map (λ r. r.now) result ≡ framed_read place bytes.now }
{
    if bytes.len() < place + 4 {
        return None;
    }
    let len = number_at(bytes, place) as usize;
    let behind = &bytes[place + 4..];
    if behind.len() < len {
        return None;
    }
    Some(&behind[..len])
}

fn reply_of(bytes: &[u8]) -> Option<(Post<'_>, usize)>
    ensures { option_map seen_found result ≡ reply_read bytes.now }
{
    match framed_of(bytes, 2) {
        Some(framed) => Some((
            Post::Reply {
                guest: bytes[1],
                bytes: framed,
            },
            6 + framed.len(),
        )),
        None => None,
    }
}

fn picture_of(bytes: &[u8]) -> Option<(Post<'_>, usize)>
    ensures { option_map seen_found result ≡ picture_read bytes.now }
{
    match framed_of(bytes, 1) {
        Some(framed) => Some((Post::Picture { bytes: framed }, 5 + framed.len())),
        None => None,
    }
}

fn ended_of(bytes: &[u8]) -> Option<(Post<'_>, usize)>
    ensures { option_map seen_found result ≡ ended_read bytes.now }
{
    if bytes.len() < 11 {
        return None;
    }
    let post = Post::Ended {
        guest: bytes[1],
        cause: bytes[2],
        a: number_at(bytes, 3),
        b: number_at(bytes, 7),
    };
    Some((post, 11))
}

fn summary_of(bytes: &[u8]) -> Option<(Post<'_>, usize)>
    ensures { option_map seen_found result ≡ summary_read bytes.now }
{
    if bytes.len() < 33 {
        return None;
    }
    let post = Post::Summary {
        items: long_at(bytes, 1),
        messages: long_at(bytes, 9),
        glances: long_at(bytes, 17),
        painted: long_at(bytes, 25),
    };
    Some((post, 33))
}

fn read_post(bytes: &[u8]) -> Option<(Post<'_>, usize)>
    ensures { option_map seen_found result ≡ post_read bytes.now }
{
    if bytes.is_empty() {
        return None;
    }
    match bytes[0] {
        1 => reply_of(bytes),
        2 => ended_of(bytes),
        3 => picture_of(bytes),
        4 => summary_of(bytes),
        _ => None,
    }
}

/// The record of an output that the bytes begin with, and how many of them it takes. `None` exactly where
/// they don't begin with the kind of a record, all its numbers and, for Reply and Picture, as many bytes
/// as the length says. What these bytes and the other numbers say isn't looked at. The format is this
/// project's own.
pub fn post_of(bytes: &[u8]) -> Option<(Post<'_>, usize)>
    ensures reads { option_map seen_found result ≡ post_read bytes.now }
    // each record's spelling is read, whatever follows it
    ensures known { (post : OutPost) (rest : List ℕ) → HasPostSpelling post → bytes.now ≡ post_spelling post ++ rest →
        option_map seen_found result ≡ Some (post, length (post_spelling post)) }
{
    read_post(bytes)
}
