// Page references, a list for each slot, in memory that was taken at the start.
ghost use Rattle.std.specs.Prelude.{◌≡◌, ℕ, ◌+◌, ◌-◌, ◌<◌, ◌≤◌, ◌^◌, [], ◌∷◌, ◌++◌, length, take, drop, slice_index, slice_index_or, slice_set, sum_by, vec_len, vec_capacity, IfOk, EachIndex};
ghost use Rattle.gui_wire.specs.Seen.{references};
ghost use Rattle.window_table.specs.Parts.{no_lists, moved_after, spliced, last_put_back};

use gui_num::NoMemory;
use gui_wire::Refs;
use std::alloc::Global;
use std::marker::Model;

// The references of all slots one after another, and where those of each slot begin: those of slot
// k stand from place k to place k + 1.
#[derive(Drop)]
pub(crate) struct RefLists {
    items: Vec<u32>,
    places: Vec<u32>,
    pages: u32,
}

impl Model for RefLists {
    ghost use Rattle.std.specs.Prelude.{◌≤◌, vec_capacity};
    ghost use Rattle.window_table.specs.Parts.{RefListsView, parts, AreCuts};

    ghost Value = { RefListsView };

    ghost view = { λ r. record { pages = r.pages; lists = parts r.items.items r.places.items } };

    ghost invariant = { λ r. AreCuts r.items.items r.places.items r.pages × (r.pages ≤ vec_capacity r.items) };
}

impl RefLists {
    // So many empty lists, with memory for so many references together.
    pub(crate) fn new(alloc: Global, slots: usize, pages: u32) -> Result<RefLists, NoMemory>
        requires { slots < 2 ^ 32 }
        ensures { IfOk result (λ r. r ≡ record { pages = pages; lists = no_lists slots }) }
    {
        let items = Vec::with_capacity(alloc, pages as usize)?;
        let places = vec![in alloc; 0u32; slots + 1]?;
        Ok(RefLists {
            items,
            places,
            pages,
        })
    }

    // How many references the lists may have together.
    pub(crate) fn pages(&self) -> u32
        ensures { result ≡ self.now.pages }
    {
        self.pages
    }

    // The number of references of a slot.
    pub(crate) fn count(&self, slot: usize) -> u32
        requires { slot < length self.now.lists }
        ensures { result ≡ length (slice_index_or self.now.lists slot []) }
    {
        self.places[slot + 1] - self.places[slot]
    }

    // The number of all references.
    pub(crate) fn total(&self) -> u32
        ensures { result ≡ sum_by length self.now.lists }
    {
        self.items.len() as u32
    }

    // The reference of a slot with index i, from 0.
    pub(crate) fn at(&self, slot: usize, i: u32) -> u32
        requires slot { slot < length self.now.lists }
        requires i { i < length (slice_index_or self.now.lists slot []) }
        ensures { result ≡ slice_index (slice_index_or self.now.lists slot []) i }
    {
        self.items[(self.places[slot] + i) as usize]
    }

    // Gives a slot these references in place of its own.
    pub(crate) fn set(&mut self, slot: usize, refs: &Refs<'_>)
        requires slot { slot < length self.old.lists }
        requires fits { sum_by length (slice_set self.old.lists slot (references refs.now)) ≤ self.old.pages }
        ensures { self.new ≡ record self.old { lists = slice_set self.old.lists slot (references refs.now) } }
    {
        let from = self.places[slot];
        let to = self.places[slot + 1];
        exchange(&mut self.items, from as usize, to as usize, refs);
        move_after(&mut self.places, slot, to - from, refs.count());
    }

    // Takes a slot's references away.
    pub(crate) fn empty(&mut self, slot: usize)
        requires { slot < length self.old.lists }
        ensures { self.new ≡ record self.old { lists = slice_set self.old.lists slot [] } }
    {
        let _ = &self.items;
        self.set(slot, &Refs::new(&[]));
    }

    // Takes all references away.
    pub(crate) fn clear(&mut self)
        ensures { self.new ≡ record self.old { lists = no_lists (length self.old.lists) } }
    {
        self.items.clear();
        self.places.fill(0);
    }
}

// Moves the places behind a slot.
fn move_after(places: &mut Vec<u32>, slot: usize, taken: u32, given: u32)
    requires slot { slot < vec_len places.old }
    requires low { (k : ℕ) → slot < k → k < length places.old.items → taken ≤ slice_index places.old.items k }
    requires high { (k : ℕ) → slot < k → k < length places.old.items → slice_index places.old.items k - taken + given < 2 ^ 32 }
    ensures { places.new.items ≡ moved_after slot taken given places.old.items }
{
    for k in slot + 1..places.len() {
        places[k] = places[k] - taken + given;
    }
}

// Exchanges what stands from one place to another.
fn exchange(items: &mut Vec<u32>, from: usize, to: usize, refs: &Refs<'_>)
    requires from { from ≤ to }
    requires to { to ≤ vec_len items.old }
    requires room { vec_len items.old - (to - from) + length (references refs.now) ≤ vec_capacity items.old }
    ensures items { items.new.items ≡ spliced items.old.items from to (references refs.now) }
    ensures capacity { vec_capacity items.new ≡ vec_capacity items.old }
{
    take_away(items, from, to);
    append(items, refs);
    put_back(items, from, refs.count() as usize);
}

// Puts the last of the numbers, so many, to a place further to the front.
fn put_back(items: &mut Vec<u32>, from: usize, given: usize)
    requires { from + given ≤ vec_len items.old }
    ensures items { items.new.items ≡ last_put_back items.old.items from given }
    ensures capacity { vec_capacity items.new ≡ vec_capacity items.old }
{
    items[from..].rotate_right(given);
}

// Takes away what stands from one place to another.
fn take_away(items: &mut Vec<u32>, from: usize, to: usize)
    requires from { from ≤ to }
    requires to { to ≤ vec_len items.old }
    ensures items { items.new.items ≡ take from items.old.items ++ drop to items.old.items }
    ensures capacity { vec_capacity items.new ≡ vec_capacity items.old }
{
    let left = items.len() - (to - from);
    items[from..].rotate_left(to - from);
    items.truncate(left);
}

// Appends the references.
fn append(items: &mut Vec<u32>, refs: &Refs<'_>)
    requires room { vec_len items.old + length (references refs.now) ≤ vec_capacity items.old }
    ensures items { items.new.items ≡ items.old.items ++ references refs.now }
    ensures capacity { vec_capacity items.new ≡ vec_capacity items.old }
{
    for i in 0..refs.count() {
        items.push_reserved(refs.at(i));
    }
}
