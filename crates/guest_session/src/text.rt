// Texts of a guest, as they are kept.
ghost use Rattle.std.specs.Prelude.{◌≡◌, ◌≤◌, length};
ghost use Rattle.desk_laws.specs.Effects as effects;

use arrayvec::ArrayVec;

// A byte that prints, or `_` in its place.
fn printed(byte: u8) -> u8
    ensures { result ≡ effects.printed byte }
{
    if (32..=126).contains(&byte) {
        byte
    } else {
        b'_'
    }
}

// A text up to its first zero byte, each byte that doesn't print as `_`.
pub(crate) fn text_of<const N: usize>(bytes: &[u8]) -> ArrayVec<u8, N>
    requires { length bytes.now ≤ N }
    ensures { result.items ≡ effects.text_of bytes.now }
{
    let mut text = ArrayVec::new();
    for byte in bytes {
        if *byte == 0 {
            return text;
        }
        text.push(printed(*byte));
    }
    text
}
