// The record that is made from a number.
ghost use Rattle.std.specs.Prelude.{◌≡◌, ◌≤◌, ◌∷◌, ◌++◌, [], map, OnOk, OnErr, IsErrOf};
ghost use Rattle.io_ports.specs.Content.{Grows, GrowsPart};
ghost use Rattle.io_ports.specs.Counts.{HasCause, Rose};
ghost use Rattle.desk_laws.specs.Rows.{span};
ghost use Rattle.record_format.specs.ItemSpellings.{items_spelling};
ghost use Rattle.record_format.specs.RecordGrammar.{alone};
ghost use Rattle.record_format.specs.MadeRecord.{made_setup, opening_item, first_rounds, made_items, made};

use crate::config_out::put_config;
use crate::item_out::put_item;
use crate::made_pieces::opening_bytes;
use crate::made_round::{draw_of, next_seed, put_round};
use crate::made_setup::made_setup;
use desk_laws::{Item, Setup};
use io_ports::{Failed, Sink};
use std::alloc::Global;

// How many guests there are.
const GUESTS: u32 = 4;

/// Why a made record wasn't written whole.
#[derive(Clone, Copy, Debug, PartialEq, Eq)]
pub enum MadeFault {
    /// A write failed. A prefix of the record was written.
    Failed,
    /// There is no memory for the setup. Nothing was written.
    NoMemory,
}

// What the guests begin with.
fn put_openings<K: Sink>(out: &mut K) -> Result<(), Failed>
    ensures ok { OnOk result (Grows (K.written out.old) (items_spelling (map opening_item (span 0 4))) (K.written out.new)) }
    ensures err { OnErr result (GrowsPart (K.written out.old) (items_spelling (map opening_item (span 0 4))) (K.written out.new)) }
    ensures keeps { K.keeps out.old out.new }
    ensures cause { HasCause (K.faults out.old) (K.faults out.new) result }
{
    for guest in 0..GUESTS {
        match put_item(&Item::Bytes { guest }, &opening_bytes(guest), out) {
            Ok(()) => {}
            Err(e) => return Err(e),
        }
    }
    Ok(())
}

// The items of so many rounds.
fn put_rounds<K: Sink>(rounds: u32, out: &mut K) -> Result<(), Failed>
    ensures ok { OnOk result (Grows (K.written out.old) (items_spelling (first_rounds rounds rounds)) (K.written out.new)) }
    ensures err { OnErr result (GrowsPart (K.written out.old) (items_spelling (first_rounds rounds rounds)) (K.written out.new)) }
    ensures keeps { K.keeps out.old out.new }
    ensures cause { HasCause (K.faults out.old) (K.faults out.new) result }
{
    let mut seed = rounds as u64;
    for n in 0..rounds {
        seed = next_seed(seed);
        match put_round(n + 1, draw_of(seed), out) {
            Ok(()) => {}
            Err(e) => return Err(e),
        }
    }
    Ok(())
}

// The last picture and the end.
fn put_last<K: Sink>(out: &mut K) -> Result<(), Failed>
    ensures ok { OnOk result (Grows (K.written out.old) (items_spelling (alone Item.Snap ∷ alone Item.End ∷ [])) (K.written out.new)) }
    ensures err { OnErr result (GrowsPart (K.written out.old) (items_spelling (alone Item.Snap ∷ alone Item.End ∷ [])) (K.written out.new)) }
    ensures keeps { K.keeps out.old out.new }
    ensures cause { HasCause (K.faults out.old) (K.faults out.new) result }
{
    match put_item(&Item::Snap, &[], out) {
        Ok(()) => put_item(&Item::End, &[], out),
        Err(e) => Err(e),
    }
}

// All that stands behind what the guests begin with.
fn put_behind<K: Sink>(rounds: u32, out: &mut K) -> Result<(), Failed>
    ensures ok { OnOk result (Grows (K.written out.old) (items_spelling (first_rounds rounds rounds ++ alone Item.Snap ∷ alone Item.End ∷ [])) (K.written out.new)) }
    ensures err { OnErr result (GrowsPart (K.written out.old) (items_spelling (first_rounds rounds rounds ++ alone Item.Snap ∷ alone Item.End ∷ [])) (K.written out.new)) }
    ensures keeps { K.keeps out.old out.new }
    ensures cause { HasCause (K.faults out.old) (K.faults out.new) result }
{
    match put_rounds(rounds, out) {
        Ok(()) => put_last(out),
        Err(e) => Err(e),
    }
}

// All items.
fn put_items<K: Sink>(rounds: u32, out: &mut K) -> Result<(), Failed>
    ensures ok { OnOk result (Grows (K.written out.old) (items_spelling (made_items rounds)) (K.written out.new)) }
    ensures err { OnErr result (GrowsPart (K.written out.old) (items_spelling (made_items rounds)) (K.written out.new)) }
    ensures keeps { K.keeps out.old out.new }
    ensures cause { HasCause (K.faults out.old) (K.faults out.new) result }
{
    match put_openings(out) {
        Ok(()) => put_behind(rounds, out),
        Err(e) => Err(e),
    }
}

// The record with this setup.
fn put_record<K: Sink>(setup: &Setup, rounds: u32, out: &mut K) -> Result<(), Failed>
    requires { setup.now ≡ made_setup }
    ensures ok { OnOk result (Grows (K.written out.old) (made rounds) (K.written out.new)) }
    ensures err { OnErr result (GrowsPart (K.written out.old) (made rounds) (K.written out.new)) }
    ensures keeps { K.keeps out.old out.new }
    ensures cause { HasCause (K.faults out.old) (K.faults out.new) result }
{
    match put_config(setup, out) {
        Ok(()) => put_items(rounds, out),
        Err(e) => Err(e),
    }
}

/// Writes the record that is made from a number: four guests with a window each, so many rounds of items
/// that are drawn from this number alone, a picture after each 1000 of them, and a last one. One item is held
/// at a time. `Failed` where the sink failed: its count of faults rose then, and a prefix of the record was
/// written. `NoMemory` where there is no memory for the setup: the sink is then as it was.
pub fn put_made<K: Sink>(alloc: Global, rounds: u32, out: &mut K) -> Result<(), MadeFault>
    ensures ok { OnOk result (Grows (K.written out.old) (made rounds) (K.written out.new)) }
    ensures failed { IsErrOf result MadeFault.Failed → GrowsPart (K.written out.old) (made rounds) (K.written out.new) }
    ensures cause { IsErrOf result MadeFault.Failed → Rose (K.faults out.old) (K.faults out.new) }
    ensures same { IsErrOf result MadeFault.NoMemory → out.new ≡ out.old }
    ensures later { K.faults out.old ≤ K.faults out.new }
    ensures keeps { K.keeps out.old out.new }
{
    let Ok(setup) = made_setup(alloc) else {
        return Err(MadeFault::NoMemory);
    };
    match put_record(&setup, rounds, out) {
        Ok(()) => Ok(()),
        Err(Failed) => Err(MadeFault::Failed),
    }
}
