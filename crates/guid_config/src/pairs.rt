// The pairs of guests between which no paste goes.
ghost use Rattle.std.specs.Prelude.{◌≡◌, ◌<◌, ◌≤◌, length, codes, position, option_map, IfOk, IfSome, OnOk};
ghost use Rattle.std.specs.List.{position_or_len};
ghost use Rattle.std.specs.Str.{bytes_eq};
ghost use Rattle.toml.specs.View.{view, array_view};
ghost use Rattle.desk_laws.specs.Rules.{is_before};
ghost use Rattle.guid_config.specs.Pairs.{number_named, put_in, in_order};
ghost use Rattle.guid_config.specs.Shape.{pair_of, each, each_at};
ghost use Rattle.guid_config.specs.Reading.{Gives, GivesItems};

use crate::ConfigFault;
use crate::values::{has_only, text_at};
use desk_laws::{GuestSetup, Pair, Pairs};
use gui_num::NoMemory;
use std::alloc::Global;
use toml::Value;
use toml::value::Array;

// The number of the first guest of this name, where one has it.
fn place_named(name: &[u8], guests: &[GuestSetup]) -> Option<usize>
    ensures { result ≡ position (λ g. bytes_eq g.name name.now) guests.now }
{
    guests.iter().position(|g| g.name.bytes() == name)
}

// The number of the first guest of this name, and that of all guests where none has it; at most u32::MAX.
fn number_named(name: &str, guests: &[GuestSetup]) -> u32
    ensures { result ≡ number_named name.now guests.now }
{
    let place = place_named(name.as_bytes(), guests).unwrap_or(guests.len());
    place.min(u32::MAX as usize) as u32
}

// The pair that a value names: a table of two names. `None` exactly for any other value.
fn pair_of(tree: &Value, guests: &[GuestSetup]) -> Option<Pair>
    ensures { result ≡ pair_of guests.now (view tree.now) }
{
    if !has_only(tree, &["from", "to"]) {
        return None;
    }
    let from = text_at(tree, "from")?;
    let to = text_at(tree, "to")?;
    Some(Pair {
        from: number_named(from, guests),
        to: number_named(to, guests),
    })
}

// Whether a pair comes before another.
fn is_before(a: Pair, b: Pair) -> bool
    ensures { result ≡ is_before a b }
{
    a.from < b.from || (a.from == b.from && a.to < b.to)
}

// The place of the first pair that a pair comes before.
fn first_behind(pairs: &[Pair], pair: Pair) -> Option<usize>
    ensures is { result ≡ position (is_before pair) pairs.now }
    ensures within { IfSome result (λ place. place < length pairs.now) }
{
    pairs.iter().position(|p| is_before(pair, *p))
}

// The place of the first pair that a pair comes before, or the number of all where it comes before none.
#[tactic(auto, using(crate::proofs::PairLemmas::place_or_len))]
fn place_for(pairs: &[Pair], pair: Pair) -> usize
    ensures is { result ≡ position_or_len (is_before pair) pairs.now }
    ensures within { result ≤ length pairs.now }
{
    first_behind(pairs, pair).unwrap_or(pairs.len())
}

// Puts a pair among pairs in order, before the first that it comes before.
#[tactic(auto, using(crate::proofs::PairLemmas::inserted_in))]
fn put_in(pairs: &mut Vec<Pair>, pair: Pair) -> Result<(), NoMemory>
    ensures { OnOk result (pairs.new.items ≡ put_in pair pairs.old.items) }
{
    let place = place_for(pairs, pair);
    pairs.insert(place, pair)?;
    Ok(())
}

// The pairs that the items name, in order.
fn each_pair(alloc: Global, items: &Array, guests: &[GuestSetup]) -> Result<Vec<Pair>, ConfigFault>
    ensures { GivesItems (option_map in_order (each (pair_of guests.now) (array_view items.now))) result }
{
    let mut pairs = Vec::new(alloc);
    for item in items {
        match pair_of(item, guests) {
            Some(pair) => put_in(&mut pairs, pair)?,
            None => return Err(ConfigFault::Shape),
        }
    }
    Ok(pairs)
}

// The same pairs as a setup has them.
fn as_denied(alloc: Global, pairs: &[Pair]) -> Result<Pairs, NoMemory>
    ensures { IfOk result (λ denied. denied ≡ pairs.now) }
{
    let mut denied = Pairs::new(alloc);
    for pair in pairs {
        denied.push(*pair)?;
    }
    Ok(denied)
}

/// The pairs that a configuration denies, in order, none where the key `deny` isn't there. `Shape` exactly
/// where something else than an array of pairs of names is there. `NoMemory` where there is no memory for
/// them.
pub fn denied_of(alloc: Global, tree: &Value, guests: &[GuestSetup]) -> Result<Pairs, ConfigFault>
    ensures { Gives (option_map in_order (each_at (pair_of guests.now) (codes "deny") (view tree.now))) result }
{
    match tree.get("deny") {
        Some(value) => match value.as_array() {
            Some(items) => {
                let pairs = each_pair(alloc, items, guests)?;
                Ok(as_denied(alloc, &pairs)?)
            }
            None => Err(ConfigFault::Shape),
        },
        None => Ok(Pairs::new(alloc)),
    }
}
