// The rows of a stacking in the order of their ids: the layer of one is found by halving, and mostly at once, where
// its key stood when it was found last.
ghost use Rattle.std.specs.Prelude.{◌≡◌, ℕ, ◌+◌, ◌<◌, ◌≤◌, ◌==◌, false, true, not, filter, length, drop, is_some, Some, None, vec_len, vec_capacity, if◌then◌else◌};
ghost use Rattle.std.specs.List.{insert, remove};
ghost use Rattle.desk_laws.specs.Rows.{same_row};
ghost use Rattle.stacking.specs.declared.index.TheConstants.{NOTES};
ghost use Rattle.stacking.specs.Keys.{IsPlaceFor, RiseFrom, before, first_id, first_layer, layer_in};

use desk_laws::RowId;

// How many places are noted: twice as many as a desktop has rows at most, so that few share one.
pub(crate) const NOTES: u32 = 32768;

// A row's id, and whether it is in the override layer.
#[derive(Clone, Copy)]
pub(crate) struct Key {
    pub(crate) id: RowId,
    pub(crate) over: bool,
}

// Whether an id comes before another: that of a lower guest, or of a lower window of the same.
fn is_before(a: RowId, b: RowId) -> bool
    ensures { result ≡ before a b }
{
    a.guest < b.guest || a.guest == b.guest && a.window < b.window
}

// How many keys come before an id.
fn place_for(keys: &[Key], id: RowId) -> usize
    ensures { IsPlaceFor id keys.now result }
{
    let mut low = 0;
    let mut high = keys.len();
    while low < high {
        let middle = low + (high - low) / 2;
        if is_before(keys[middle].id, id) {
            low = middle + 1;
        } else {
            high = middle;
        }
    }
    low
}

// The layer of the key at a place, if there is one and it is this row's.
fn layer_at(keys: &[Key], i: usize, id: RowId) -> Option<bool>
    ensures { result ≡ first_layer id (drop i keys.now) }
{
    if i < keys.len() && id == keys[i].id {
        Some(keys[i].over)
    } else {
        None
    }
}

// Whether a row is in the override layer, `None` where it has no key.
fn layer_by_halving(keys: &[Key], id: RowId) -> Option<bool>
    requires { RiseFrom first_id keys.now }
    ensures { result ≡ layer_in id keys.now }
{
    layer_at(keys, place_for(keys, id), id)
}

// The same, where the key at the place `near` is looked at first.
fn layer_near(keys: &[Key], near: usize, id: RowId) -> Option<bool>
    requires { RiseFrom first_id keys.now }
    ensures { result ≡ layer_in id keys.now }
{
    match layer_at(keys, near, id) {
        Some(over) => Some(over),
        None => layer_by_halving(keys, id),
    }
}

// Which note is a row's: the upper 15 bits of a sum that spreads ids which lie close together.
fn note_of(id: RowId) -> usize
    ensures { result < NOTES }
{
    let spread = id
        .window
        .wrapping_mul(0x9e37_79b1)
        .wrapping_add(id.guest.wrapping_mul(0x85eb_ca6b));
    (spread / 0x2_0000) as usize
}

// The same, where the place that is noted for the row is looked at first. A note may be of another row,
// or of none.
pub(crate) fn layer_in(keys: &[Key], notes: &[u32], id: RowId) -> Option<bool>
    requires rising { RiseFrom first_id keys.now }
    requires notes { length notes.now ≡ NOTES }
    ensures { result ≡ layer_in id keys.now }
{
    layer_near(keys, notes[note_of(id)] as usize, id)
}

// Notes where a row's key stands, unless that is noted.
pub(crate) fn note(notes: &mut Vec<u32>, keys: &[Key], id: RowId)
    requires { length notes.old.items ≡ NOTES }
    ensures { length notes.new.items ≡ NOTES }
{
    let k = note_of(id);
    if layer_at(keys, notes[k] as usize, id).is_none() {
        notes[k] = (place_for(keys, id) % 0x1_0000_0000) as u32;
    }
}

// Adds the key of a row that has none.
pub(crate) fn put_key(keys: &mut Vec<Key>, id: RowId, over: bool)
    requires rising { RiseFrom first_id keys.old.items }
    requires unknown { layer_in id keys.old.items ≡ None }
    requires room { length keys.old.items < vec_capacity keys.old }
    ensures rising { RiseFrom first_id keys.new.items }
    ensures layers { (other : RowId) → layer_in other keys.new.items ≡ (if same_row id other then Some over else layer_in other keys.old.items) }
    ensures capacity { vec_capacity keys.old ≤ vec_capacity keys.new }
{
    let i = place_for(keys, id);
    insert_at(keys, i, Key { id, over });
}

// Puts a key at a place.
fn insert_at(keys: &mut Vec<Key>, i: usize, key: Key)
    requires i { i ≤ vec_len keys.old }
    requires room { vec_len keys.old < vec_capacity keys.old }
    ensures items { keys.new.items ≡ insert keys.old.items i key }
    ensures capacity { vec_capacity keys.old ≤ vec_capacity keys.new }
{
    let _ = keys.insert(i, key);
}

// Takes away the key of a row that has one.
pub(crate) fn take_key(keys: &mut Vec<Key>, id: RowId)
    requires rising { RiseFrom first_id keys.old.items }
    requires known { is_some (layer_in id keys.old.items) ≡ true }
    ensures rising { RiseFrom first_id keys.new.items }
    ensures layers { (other : RowId) → layer_in other keys.new.items ≡ (if same_row id other then None else layer_in other keys.old.items) }
    ensures len { length keys.new.items + 1 ≡ length keys.old.items }
    ensures capacity { vec_capacity keys.new ≡ vec_capacity keys.old }
{
    let i = place_for(keys, id);
    remove_at(keys, i);
}

// Takes the key at a place away.
fn remove_at(keys: &mut Vec<Key>, i: usize)
    requires { i < vec_len keys.old }
    ensures items { keys.new.items ≡ remove keys.old.items i }
    ensures len { length keys.new.items + 1 ≡ length keys.old.items }
    ensures capacity { vec_capacity keys.new ≡ vec_capacity keys.old }
{
    keys.remove(i);
}

// Takes away the keys of a guest.
pub(crate) fn take_guest_keys(keys: &mut Vec<Key>, guest: u32)
    requires rising { RiseFrom first_id keys.old.items }
    ensures rising { RiseFrom first_id keys.new.items }
    ensures layers { (other : RowId) → layer_in other keys.new.items ≡ (if other.guest == guest then None else layer_in other keys.old.items) }
    ensures capacity { vec_capacity keys.new ≡ vec_capacity keys.old }
{
    keep_others(keys, guest);
}

// Keeps the keys of other guests alone.
fn keep_others(keys: &mut Vec<Key>, guest: u32)
    ensures items { keys.new.items ≡ filter (λ key. not (key.id.guest == guest)) keys.old.items }
    ensures capacity { vec_capacity keys.new ≡ vec_capacity keys.old }
{
    keys.retain(|key| key.id.guest != guest);
}
