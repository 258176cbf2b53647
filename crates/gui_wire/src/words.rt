// Numbers of 32 bits in bytes, the lowest byte first.
ghost use Rattle.std.specs.Prelude.{◌≡◌, ◌<◌, ◌≤◌, ◌^◌, ◌+◌, ◌*◌, ◌/◌, [], ◌∷◌, ◌++◌, length, drop};
ghost use Rattle.gui_wire.specs.Words.{word as spelled, words, word_at, signed_at, message_bytes};

use byteorder::{ByteOrder, LittleEndian};

// The bytes of a header.
pub const HEAD_LEN: usize = 12;

/// The numbers of hints, of which there are nine.
pub fn hint_numbers(hints: &[u32; 9]) -> &[u32]
    ensures value { result.now ≡ hints.now }
    ensures len { length hints.now ≡ 9 }
{
    hints
}

/// The keys of a keymap, of which there are 32 bytes.
pub fn key_bytes(keys: &[u8; 32]) -> &[u8]
    ensures value { result.now ≡ keys.now }
    ensures len { length keys.now ≡ 32 }
{
    keys
}

/// The number with index i, from 0.
pub fn word_at(bytes: &[u8], i: usize) -> u32
    requires { 4 * i + 4 ≤ length bytes.now }
    ensures { result ≡ word_at i bytes.now }
{
    LittleEndian::read_u32(&bytes[4 * i..])
}

/// The number with index i, from 0, as two's complement.
pub fn signed_at(bytes: &[u8], i: usize) -> i32
    requires { 4 * i + 4 ≤ length bytes.now }
    ensures { result ≡ signed_at i bytes.now }
{
    word_at(bytes, i).cast_signed()
}

/// Writes one number as four bytes, the lowest first, and answers 4. The rest of `out` stays. A
/// version word is spelled like this.
pub fn spell_word(word: u32, out: &mut [u8]) -> usize
    requires { 4 ≤ length out.old }
    ensures out { out.new ≡ spelled word ++ drop 4 out.old }
    ensures len { result ≡ 4 }
{
    LittleEndian::write_u32(out, word);
    4
}

/// Writes numbers one after the other, and answers how many bytes that are. The rest of `out` stays.
pub fn spell_words(numbers: &[u32], out: &mut [u8]) -> usize
    requires { 4 * length numbers.now ≤ length out.old }
    ensures out { out.new ≡ words numbers.now ++ drop (4 * length numbers.now) out.old }
    ensures len { result ≡ 4 * length numbers.now }
{
    let len = 4 * numbers.len();
    LittleEndian::write_u32_into(numbers, &mut out[..len]);
    len
}

/// Writes bytes, and answers how many they are. The rest of `out` stays.
pub fn spell_bytes(bytes: &[u8], out: &mut [u8]) -> usize
    requires { length bytes.now ≤ length out.old }
    ensures out { out.new ≡ bytes.now ++ drop (length bytes.now) out.old }
    ensures len { result ≡ length bytes.now }
{
    let len = bytes.len();
    out[..len].copy_from_slice(bytes);
    len
}

/// Writes a message whose body is numbers.
pub fn spell_numbers(kind: u32, window: u32, numbers: &[u32], out: &mut [u8]) -> usize
    requires room { 12 + 4 * length numbers.now ≤ length out.old }
    requires small { length numbers.now ≤ 9 }
    ensures out { out.new ≡ message_bytes kind window (words numbers.now)
        ++ drop (12 + 4 * length numbers.now) out.old }
    ensures len { result ≡ 12 + 4 * length numbers.now }
{
    let len = 4 * numbers.len();
    let at = spell_words(&[kind, window, len as u32], out);
    at + spell_words(numbers, &mut out[at..])
}

/// Writes a message whose body is two lists of bytes, one after the other.
pub fn spell_parts(kind: u32, window: u32, front: &[u8], back: &[u8], out: &mut [u8]) -> usize
    requires room { 12 + length front.now + length back.now ≤ length out.old }
    requires small { length front.now + length back.now < 2 ^ 32 }
    ensures out { out.new ≡ message_bytes kind window (front.now ++ back.now)
        ++ drop (12 + length front.now + length back.now) out.old }
    ensures len { result ≡ 12 + length front.now + length back.now }
{
    let len = front.len() + back.len();
    let mut at = spell_words(&[kind, window, len as u32], out);
    at += spell_bytes(front, &mut out[at..]);
    at + spell_bytes(back, &mut out[at..])
}

/// Writes the daemon's answer to a version word, and answers 16: width and height of the desktop in
/// pixels, depth 24, and the memory of its pixels in units of 1024 bytes, rounded up. The rest of
/// `out` stays. The form is `msg_xconf` of `qubes-gui-protocol.h`; depth and memory are this
/// project's own.
pub fn spell_xconf(width: u32, height: u32, out: &mut [u8]) -> usize
    requires room { 16 ≤ length out.old }
    requires width { width ≤ 8192 }
    requires height { height ≤ 8192 }
    ensures out { out.new ≡ words (width ∷ height ∷ 24 ∷ (width * height * 4 + 1023) / 1024 ∷ [])
        ++ drop 16 out.old }
    ensures len { result ≡ 16 }
{
    let mem = (width * height * 4).div_ceil(1024);
    spell_words(&[width, height, 24, mem], out)
}
