// The values at the keys of a table.
ghost use Rattle.std.specs.Prelude.{◌≡◌, None, map, string_bytes};
ghost use Rattle.std.specs.List.{list_all, list_any};
ghost use Rattle.std.specs.Str.{bytes_eq};
ghost use Rattle.std.specs.Option.{option_copied};
ghost use Rattle.std.specs.BTreeMap.{keys};
ghost use Rattle.toml.specs.Data.{get, as_str};
ghost use Rattle.toml.specs.View.{view, table_view};
ghost use Rattle.guid_config.specs.Values.{keys_among, has_only, value_at, number_to, number_of, name_of};

use toml::{Table, Value};

// Whether the key is one of these.
fn is_among(key: &str, known: &[&str]) -> bool
    ensures { result ≡ list_any (λ k. bytes_eq k.now key.now) known.now }
{
    known.iter().any(|k| *k == key)
}

// Whether each key of the table is one of these.
fn are_among(table: &Table, known: &[&str]) -> bool
    ensures { result ≡ list_all (λ k. list_any (λ n. bytes_eq n.now (string_bytes k)) known.now) (keys table.now) }
{
    table.keys().all(|key| is_among(key.as_str(), known))
}

/// Whether the value is a table with no other keys than these.
pub fn has_only(tree: &Value, known: &[&str]) -> bool
    ensures { result ≡ has_only (map (λ k. k.now) known.now) (view tree.now) }
{
    match tree.as_table() {
        Some(table) => are_among(table, known),
        None => false,
    }
}

/// The number from 0 to `most` that a value is. `None` exactly for any other value.
pub fn number_to(value: &Value, most: u32) -> Option<u32>
    ensures { result ≡ number_to most (view value.now) }
{
    let number = u32::try_from(value.as_integer()?).ok()?;
    if number <= most { Some(number) } else { None }
}

/// The number of 32 bits at a key of a table, or what it usually is where the key isn't there. `None`
/// exactly where another value is there, or where the number isn't there and has no usual value.
pub fn number_at(tree: &Value, key: &str, usual: Option<u32>) -> Option<u32>
    ensures { result ≡ value_at number_of usual key.now (view tree.now) }
{
    match tree.get(key) {
        Some(value) => number_to(value, u32::MAX),
        None => usual,
    }
}

/// The text at a key of a table. `None` exactly where another value or none is there.
pub fn text_at<'a>(tree: &'a Value, key: &str) -> Option<&'a str>
    ensures { option_copied result ≡ value_at as_str None key.now (view tree.now) }
{
    match tree.get(key) {
        Some(value) => value.as_str(),
        None => None,
    }
}
