// The outputs of a configuration.
ghost use Rattle.std.specs.Prelude.{◌≡◌, Some, None, [], ◌∷◌, codes, pos};
ghost use Rattle.toml.specs.View.{view, array_view};
ghost use Rattle.guid_config.specs.Values.{number_to, value_at};
ghost use Rattle.guid_config.specs.Shape.{output_of, outputs_of, each};
ghost use Rattle.guid_config.specs.Reading.{Gives};

use crate::ConfigFault;
use crate::values::{has_only, number_at, number_to};
use desk_laws::Outputs;
use gui_num::Rect;
use std::alloc::Global;
use toml::Value;
use toml::value::Array;

// The place at a key of a table. `None` exactly where no number from 0 to 2147483647 is there.
fn place_at(tree: &Value, key: &str) -> Option<u32>
    ensures { result ≡ value_at (number_to 2147483647) None key.now (view tree.now) }
{
    match tree.get(key) {
        Some(value) => number_to(value, 2147483647),
        None => None,
    }
}

// The output that a value is: a table of a place and a size. `None` exactly for any other value.
fn output_of(tree: &Value) -> Option<Rect>
    ensures { result ≡ output_of (view tree.now) }
{
    if !has_only(tree, &["x", "y", "w", "h"]) {
        return None;
    }
    let x = place_at(tree, "x")?;
    let y = place_at(tree, "y")?;
    let w = number_at(tree, "w", None)?;
    let h = number_at(tree, "h", None)?;
    Some(Rect {
        x: x.cast_signed(),
        y: y.cast_signed(),
        w,
        h,
    })
}

// The outputs that the items are, in their order.
fn each_output(alloc: Global, items: &Array) -> Result<Outputs, ConfigFault>
    ensures { Gives (each output_of (array_view items.now)) result }
{
    let mut outputs = Outputs::new(alloc);
    for item in items {
        match output_of(item) {
            Some(output) => outputs.push(output)?,
            None => return Err(ConfigFault::Shape),
        }
    }
    Ok(outputs)
}

/// The outputs of a configuration, the one of the whole plane where the key `output` isn't there. `Shape`
/// exactly where something else than an array of outputs is there. `NoMemory` where there is no memory
/// for them.
pub fn outputs_of(
    alloc: Global,
    tree: &Value,
    width: u32,
    height: u32,
) -> Result<Outputs, ConfigFault>
    ensures { Gives (outputs_of width height (view tree.now)) result }
{
    match tree.get("output") {
        Some(value) => match value.as_array() {
            Some(items) => each_output(alloc, items),
            None => Err(ConfigFault::Shape),
        },
        None => whole_plane(alloc, width, height),
    }
}

// The one output of the whole plane.
fn whole_plane(alloc: Global, width: u32, height: u32) -> Result<Outputs, ConfigFault>
    ensures { Gives (Some (record { x = pos 0; y = pos 0; w = width; h = height } ∷ [])) result }
{
    let mut outputs = Outputs::new(alloc);
    outputs.push(Rect {
        x: 0,
        y: 0,
        w: width,
        h: height,
    })?;
    Ok(outputs)
}
