// The references of a dump, borrowed from its body.
ghost use Rattle.std.specs.Prelude.{◌≡◌, ◌<◌, ◌*◌, ◌%◌, ◌^◌, length, slice_index};
ghost use Rattle.gui_wire.specs.Words.{words, all_words};

use crate::words::word_at;

/// The references of a dump, as they stand in its body: numbers of four bytes each, the lowest byte
/// first.
#[derive(Clone, Copy)]
pub struct Refs<'a> {
    bytes: &'a [u8],
    ghost whole: { length bytes.now % 4 ≡ 0 },
    ghost small: { length bytes.now < 2 ^ 32 },
}

impl<'a> Refs<'a> {
    /// The references that these bytes spell. There is a multiple of four bytes, below 2^32 of them.
    pub fn new(bytes: &'a [u8]) -> Refs<'a>
        requires whole { length bytes.now % 4 ≡ 0 }
        requires small { length bytes.now < 2 ^ 32 }
        ensures { result.bytes.now ≡ bytes.now }
    {
        Refs { bytes }
    }

    /// How many references there are.
    pub fn count(&self) -> u32
        ensures { result ≡ length (all_words self.now.bytes.now) }
    {
        (self.bytes.len() / 4) as u32
    }

    /// The reference with index i, from 0.
    pub fn at(&self, i: u32) -> u32
        requires { i < length (all_words self.now.bytes.now) }
        ensures { result ≡ slice_index (all_words self.now.bytes.now) i }
    {
        word_at(self.bytes, i as usize)
    }

    // The bytes as they stand in the body.
    pub(crate) fn bytes(&self) -> &'a [u8]
        ensures value { result.now ≡ self.now.bytes.now }
        ensures len { length result.now ≡ 4 * length (all_words self.now.bytes.now) }
        ensures small { length result.now < 2 ^ 32 }
        ensures numbers { words (all_words self.now.bytes.now) ≡ result.now }
    {
        spelled_numbers(self.bytes)
    }
}

// Bytes, four by four, are the spelling of their numbers.
fn spelled_numbers(bytes: &[u8]) -> &[u8]
    requires { length bytes.now % 4 ≡ 0 }
    ensures value { result.now ≡ bytes.now }
    ensures len { length bytes.now ≡ 4 * length (all_words bytes.now) }
    ensures numbers { words (all_words bytes.now) ≡ bytes.now }
{
    bytes
}
