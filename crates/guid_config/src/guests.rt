// The guests of a configuration.
ghost use Rattle.std.specs.Prelude.{◌≡◌, ◌++◌, List, codes, option_map};
ghost use Rattle.toml.specs.View.{view, array_view};
ghost use Rattle.guid_config.specs.Values.{name_of, value_at};
ghost use Rattle.guid_config.specs.Shape.{guest_of, each, each_at};
ghost use Rattle.guid_config.specs.Reading.{Gives};

use crate::ConfigFault;
use crate::colour::colour_at;
use crate::values::{has_only, text_at};
use desk_laws::{GuestSetup, Guests, Name};
use std::alloc::Global;
use toml::Value;
use toml::value::Array;

// The name at a key of a table. `None` exactly where no text of at most 255 bytes is there.
fn name_at(tree: &Value, key: &str) -> Option<Name>
    ensures { result ≡ value_at name_of None key.now (view tree.now) }
{
    match text_at(tree, key) {
        Some(text) if text.len() <= 255 => Some(Name::new(text.as_bytes())),
        _ => None,
    }
}

// The guest that a value is: a table of a name and a colour. `None` exactly for any other value.
fn guest_of(tree: &Value) -> Option<GuestSetup>
    ensures { result ≡ guest_of (view tree.now) }
{
    if !has_only(tree, &["name", "colour"]) {
        return None;
    }
    let name = name_at(tree, "name")?;
    let colour = colour_at(tree, "colour", None)?;
    Some(GuestSetup { colour, name })
}

// The guests that the items are, in their order.
fn each_guest(alloc: Global, items: &Array) -> Result<Guests, ConfigFault>
    ensures { Gives (each guest_of (array_view items.now)) result }
{
    let mut guests = Guests::new(alloc);
    for item in items {
        match guest_of(item) {
            Some(guest) => guests.push(guest)?,
            None => return Err(ConfigFault::Shape),
        }
    }
    Ok(guests)
}

/// The guests of a configuration, none where the key `guest` isn't there. `Shape` exactly where something
/// else than an array of guests is there. `NoMemory` where there is no memory for them.
pub fn guests_of(alloc: Global, tree: &Value) -> Result<Guests, ConfigFault>
    ensures { Gives (each_at guest_of (codes "guest") (view tree.now)) result }
{
    match tree.get("guest") {
        Some(value) => match value.as_array() {
            Some(items) => each_guest(alloc, items),
            None => Err(ConfigFault::Shape),
        },
        None => Ok(Guests::new(alloc)),
    }
}
