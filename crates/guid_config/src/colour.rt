// Colours as texts of six hexadecimal digits.
ghost use Rattle.std.specs.Prelude.{◌≡◌, ◌+◌, ◌≤◌, ◌<◌, length, Some, None, IfSome};
ghost use Rattle.toml.specs.View.{view};
ghost use Rattle.guid_config.specs.Values.{digit_of, digits_at, colour_in, colour_of, value_at};

use gui_num::Colour;
use toml::Value;

// The value of a hexadecimal digit, in either case.
fn digit_of(b: u8) -> Option<u8>
    ensures is { result ≡ digit_of b }
    ensures low { IfSome result (λ n. n < 16) }
{
    match b {
        b'0'..=b'9' => Some(b - b'0'),
        b'a'..=b'f' => Some(b - b'a' + 10),
        b'A'..=b'F' => Some(b - b'A' + 10),
        _ => None,
    }
}

// The number of the two digits from this place on.
fn digits_at(text: &[u8], place: usize) -> Option<u32>
    requires { place + 2 ≤ length text.now }
    ensures is { result ≡ digits_at place text.now }
    ensures low { IfSome result (λ n. n < 256) }
{
    let high = digit_of(text[place])?;
    let low = digit_of(text[place + 1])?;
    Some(16 * u32::from(high) + u32::from(low))
}

// The colour that a text of six hexadecimal digits is. `None` exactly for any other text.
fn colour_in(text: &[u8]) -> Option<Colour>
    ensures { result ≡ colour_in text.now }
{
    if text.len() != 6 {
        return None;
    }
    let red = digits_at(text, 0)?;
    let green = digits_at(text, 2)?;
    let blue = digits_at(text, 4)?;
    Some(Colour(65536 * red + (256 * green + blue)))
}

// The colour that a value is. `None` exactly for a value that isn't a text of six hexadecimal digits.
fn colour_of(value: &Value) -> Option<Colour>
    ensures { result ≡ colour_of (view value.now) }
{
    match value.as_str() {
        Some(text) => colour_in(text.as_bytes()),
        None => None,
    }
}

/// The colour at a key of a table, or what it usually is where the key isn't there. `None` exactly where
/// another value is there, or where the colour isn't there and has no usual value.
pub fn colour_at(tree: &Value, key: &str, usual: Option<Colour>) -> Option<Colour>
    ensures { result ≡ value_at colour_of usual key.now (view tree.now) }
{
    match tree.get(key) {
        Some(value) => colour_of(value),
        None => usual,
    }
}
