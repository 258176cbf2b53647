// Reads a configuration, and looks at the rules of its setup.
ghost use Rattle.std.specs.Prelude.{◌≡◌, ◌≤◌, IfOk};
ghost use Rattle.toml.specs.View.{view};
ghost use Rattle.desk_laws.specs.Rules.{Fits};
ghost use Rattle.guid_config.specs.Values.{has_only};
ghost use Rattle.guid_config.specs.Shape.{live_of, live_with, top_keys};
ghost use Rattle.guid_config.specs.Reading.{Gives, Reads};

use crate::guests::guests_of;
use crate::numbers::{Numbers, numbers_of};
use crate::outputs::outputs_of;
use crate::pairs::denied_of;
use crate::values::has_only;
use desk_laws::{Guests, Outputs, Pairs, Setup};
use gui_num::NoMemory;
use std::alloc::Global;
use toml::{Table, Value};

/// What a configuration states: the setup of a desk, and after how many rounds in a row in which nothing
/// comes a live desk ends, from 1 to 4294967295.
#[derive(Drop)]
pub struct Live {
    pub setup: Setup,
    pub idle: u64,
}

/// Why no configuration was read.
#[derive(Clone, Copy, Debug, PartialEq, Eq)]
pub enum ConfigFault {
    /// The bytes are no TOML document.
    NotToml,
    /// The document isn't one of a configuration: it has an unknown key, or lacks a required one, or a
    /// value isn't what it has to be.
    Shape,
    /// The setup breaks the rule of this number, and none before it.
    Rule(u8),
    /// There is no memory for the document, the guests, the outputs or the pairs.
    NoMemory,
}

impl From<NoMemory> for ConfigFault {
    ghost use Rattle.std.specs.Prelude.{◌≡◌};
    ghost use Rattle.guid_config.specs.declared.live.ConfigFault.{ConfigFault};

    ghost from_gives = { λ _ fault. fault ≡ ConfigFault.NoMemory };

    fn from(_: NoMemory) -> Self {
        ConfigFault::NoMemory
    }
}

// Whether the tree of a document has no other keys than those of a configuration.
fn has_only_its_keys(tree: &Value) -> bool
    ensures { result ≡ has_only top_keys (view tree.now) }
{
    has_only(
        tree,
        &[
            "width",
            "height",
            "border",
            "pages",
            "tiles",
            "percent",
            "background",
            "idle",
            "clip",
            "guest",
            "output",
            "deny",
        ],
    )
}

fn live_with(numbers: Numbers, guests: Guests, outputs: Outputs, denied: Pairs) -> Live
    ensures { result ≡ live_with numbers guests outputs denied }
{
    let setup = Setup {
        width: numbers.width,
        height: numbers.height,
        border: numbers.border,
        pages: numbers.pages,
        tiles: numbers.tiles,
        percent: numbers.percent,
        background: numbers.background,
        guests,
        outputs,
        clip: numbers.clip,
        denied,
    };
    let idle = u64::from(numbers.idle);
    Live { setup, idle }
}

// What the tree of a document states.
fn live_of(alloc: Global, tree: &Value) -> Result<Live, ConfigFault>
    ensures gives { Gives (live_of (view tree.now)) result }
    ensures some_idle { IfOk result (λ live. 1 ≤ live.idle) }
{
    if !has_only_its_keys(tree) {
        return Err(ConfigFault::Shape);
    }
    let Some(numbers) = numbers_of(tree) else {
        return Err(ConfigFault::Shape);
    };
    let guests = guests_of(alloc, tree)?;
    let outputs = outputs_of(alloc, tree, numbers.width, numbers.height)?;
    let denied = denied_of(alloc, tree, guests.items())?;
    Ok(live_with(numbers, guests, outputs, denied))
}

/// Reads a configuration from TOML text. The setup that it states breaks no rule, and `idle` is at least 1.
///
/// `NotToml` exactly where the bytes are no document by the grammar of TOML 1.1 as the kit's `toml` states it;
/// `Shape` exactly where they are a document that has an unknown key, or lacks a required one, or has a value
/// that isn't of the type and the range of its key; `Rule` exactly where the setup breaks a rule, with the number
/// of the first one. `NoMemory` only where there is no memory for what is read.
pub fn read(alloc: Global, bytes: &[u8]) -> Result<Live, ConfigFault>
    ensures reads { Reads bytes.now result }
    ensures fits { IfOk result (λ live. Fits live.setup) }
    ensures some_idle { IfOk result (λ live. 1 ≤ live.idle) }
{
    let table = match toml::table_from_slice(alloc, bytes) {
        Ok(table) => table,
        Err(e) => {
            return Err(if e.is_memory() {
                ConfigFault::NoMemory
            } else {
                ConfigFault::NotToml
            });
        }
    };
    let live = live_of(alloc, &Value::Table(table))?;
    match live.setup.first_broken() {
        Some(k) => Err(ConfigFault::Rule(k)),
        None => Ok(live),
    }
}
