// The windows of a table in the order of their ids: one is found by halving, and mostly at once, where it stood
// when a window came or went last.
ghost use Rattle.std.specs.Prelude.{◌≡◌, ℕ, ◌+◌, ◌<◌, ◌≤◌, ◌==◌, true, length, drop, is_some, Some, None, vec_len, vec_capacity, if◌then◌else◌};
ghost use Rattle.std.specs.List.{insert, remove};
ghost use Rattle.desk_laws.specs.declared.limits.TheConstants.{MAX_WINDOWS};
ghost use Rattle.window_table.specs.declared.index.TheConstants.{NOTES};
ghost use Rattle.window_table.specs.Keys.{IsPlaceFor, RiseFrom, first_slot, slot_in};

// How many places are noted: four times as many as there can be windows, so that few share one.
pub(crate) const NOTES: u32 = 4096;

// A window's id, and its slot.
#[derive(Clone, Copy)]
pub(crate) struct Key {
    pub(crate) window: u32,
    pub(crate) slot: u32,
}

// How many keys are of lower windows.
fn place_for(keys: &[Key], window: u32) -> usize
    ensures { IsPlaceFor window keys.now result }
{
    let mut low = 0;
    let mut high = keys.len();
    while low < high {
        let middle = low + (high - low) / 2;
        if keys[middle].window < window {
            low = middle + 1;
        } else {
            high = middle;
        }
    }
    low
}

// The slot of the key at a place, if there is one and it is this window's.
fn slot_at(keys: &[Key], i: usize, window: u32) -> Option<u32>
    ensures { result ≡ first_slot window (drop i keys.now) }
{
    if i < keys.len() && keys[i].window == window {
        Some(keys[i].slot)
    } else {
        None
    }
}

// The slot of a window, if it has a key.
fn slot_by_halving(keys: &[Key], window: u32) -> Option<u32>
    requires { RiseFrom 0 keys.now }
    ensures { result ≡ slot_in window keys.now }
{
    slot_at(keys, place_for(keys, window), window)
}

// The same, where the key at the place `near` is looked at first.
fn slot_near(keys: &[Key], near: usize, window: u32) -> Option<u32>
    requires { RiseFrom 0 keys.now }
    ensures { result ≡ slot_in window keys.now }
{
    match slot_at(keys, near, window) {
        Some(slot) => Some(slot),
        None => slot_by_halving(keys, window),
    }
}

// Which note is a window's: the upper 12 bits of a product that spreads ids which lie close together.
fn note_of(window: u32) -> usize
    ensures { result < NOTES }
{
    (window.wrapping_mul(0x9e37_79b1) / 0x10_0000) as usize
}

// The same, where the place that is noted for the window is looked at first. A note may be of another
// window, or of none.
pub(crate) fn slot_in(keys: &[Key], notes: &[u32], window: u32) -> Option<u32>
    requires rising { RiseFrom 0 keys.now }
    requires notes { length notes.now ≡ NOTES }
    ensures { result ≡ slot_in window keys.now }
{
    slot_near(keys, notes[note_of(window)] as usize, window)
}

// Notes where each window's key stands.
pub(crate) fn note_all(notes: &mut Vec<u32>, keys: &[Key])
    requires notes { length notes.old.items ≡ NOTES }
    requires few { length keys.now ≤ MAX_WINDOWS }
    ensures { length notes.new.items ≡ NOTES }
{
    for k in 0..keys.len() {
        notes[note_of(keys[k].window)] = k as u32;
    }
}

// Adds the key of a window that has none.
pub(crate) fn put_in(keys: &mut Vec<Key>, window: u32, slot: u32)
    requires rising { RiseFrom 0 keys.old.items }
    requires unknown { slot_in window keys.old.items ≡ None }
    requires room { vec_len keys.old < vec_capacity keys.old }
    ensures rising { RiseFrom 0 keys.new.items }
    ensures slots { (other : ℕ) → slot_in other keys.new.items ≡ (if window == other then Some slot else slot_in other keys.old.items) }
    ensures len { length keys.new.items ≡ length keys.old.items + 1 }
    ensures capacity { vec_capacity keys.old ≤ vec_capacity keys.new }
{
    let i = place_for(keys, window);
    insert_at(keys, i, Key { window, slot });
}

// Puts a key at a place.
fn insert_at(keys: &mut Vec<Key>, i: usize, key: Key)
    requires i { i ≤ vec_len keys.old }
    requires room { vec_len keys.old < vec_capacity keys.old }
    ensures items { keys.new.items ≡ insert keys.old.items i key }
    ensures len { length keys.new.items ≡ length keys.old.items + 1 }
    ensures capacity { vec_capacity keys.old ≤ vec_capacity keys.new }
{
    let _ = keys.insert(i, key);
}

// Takes away the key of a window that has one.
pub(crate) fn take_out(keys: &mut Vec<Key>, window: u32)
    requires rising { RiseFrom 0 keys.old.items }
    requires known { is_some (slot_in window keys.old.items) ≡ true }
    ensures rising { RiseFrom 0 keys.new.items }
    ensures slots { (other : ℕ) → slot_in other keys.new.items ≡ (if window == other then None else slot_in other keys.old.items) }
    ensures len { length keys.new.items + 1 ≡ length keys.old.items }
    ensures capacity { vec_capacity keys.new ≡ vec_capacity keys.old }
{
    let i = place_for(keys, window);
    remove_at(keys, i);
}

// Takes the key at a place away.
fn remove_at(keys: &mut Vec<Key>, i: usize)
    requires { i < vec_len keys.old }
    ensures items { keys.new.items ≡ remove keys.old.items i }
    ensures len { length keys.new.items + 1 ≡ length keys.old.items }
    ensures capacity { vec_capacity keys.new ≡ vec_capacity keys.old }
{
    keys.remove(i);
}
