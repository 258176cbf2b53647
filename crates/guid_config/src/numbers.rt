// The numbers of a configuration, and its background.
ghost use Rattle.std.specs.Prelude.{◌≡◌, ◌≤◌, IfSome};
ghost use Rattle.toml.specs.View.{view};
ghost use Rattle.guid_config.specs.Shape.{numbers_of};

use crate::colour::colour_at;
use crate::values::number_at;
use gui_num::Colour;
use toml::Value;

/// The numbers at the top of a configuration, and its background, as `Live` and its setup have them.
#[derive(Clone, Copy, Debug, PartialEq, Eq)]
pub struct Numbers {
    pub width: u32,
    pub height: u32,
    pub border: u32,
    pub pages: u32,
    pub tiles: u32,
    pub percent: u32,
    pub background: Colour,
    pub idle: u32,
    pub clip: u32,
}

/// The numbers of a configuration, and its background. `None` exactly where a required one isn't there,
/// or one isn't in its range.
pub fn numbers_of(tree: &Value) -> Option<Numbers>
    ensures is { result ≡ numbers_of (view tree.now) }
    ensures some_idle { IfSome result (λ numbers. 1 ≤ numbers.idle) }
{
    let numbers = Numbers {
        width: number_at(tree, "width", None)?,
        height: number_at(tree, "height", None)?,
        border: number_at(tree, "border", Some(2))?,
        pages: number_at(tree, "pages", Some(8192))?,
        tiles: number_at(tree, "tiles", Some(4096))?,
        percent: number_at(tree, "percent", Some(90))?,
        background: colour_at(tree, "background", Some(Colour(0)))?,
        idle: number_at(tree, "idle", Some(1_000_000))?,
        clip: number_at(tree, "clip", Some(1))?,
    };
    if numbers.idle >= 1 {
        Some(numbers)
    } else {
        None
    }
}
