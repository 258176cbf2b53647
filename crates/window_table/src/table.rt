// The windows of one guest.
ghost use Rattle.std.specs.Prelude.{◌≡◌, ℕ, ◌+◌, ◌<◌, ◌≤◌, ◌==◌, not, [], ◌∷◌, ◌++◌, Some, None, IfOk, IfSome, IsSome, length, filter, option_map, is_some, slice_get, slice_index, vec_capacity, false};
ghost use Rattle.std.specs.Borrow.{sem};
ghost use Rattle.gui_wire.specs.Seen.{references};
ghost use Rattle.desk_laws.specs.Effects as effects;
ghost use Rattle.window_table.specs.Entries.{Entry, AreApart, entry_at, entry_with, updated, removed, new_pane, new_entry, plain_rows, with_dump, size_of_dump, refs_in};
ghost use Rattle.window_table.specs.Lending.{LendsPane};

use crate::held::{Held, forget};
use crate::index::{Key, NOTES, note_all, put_in, slot_in, take_out};
use crate::ref_lists::RefLists;
use crate::{DumpSize, Pane};
use arrayvec::ArrayVec;
use desk_laws::{Ids, MAX_WINDOWS};
use gui_num::{NoMemory, Rect};
use gui_wire::Refs;
use slab::Slab;
use std::alloc::Global;
use std::marker::Model;

/// The windows of one guest, each at a slot below `MAX_WINDOWS`: its id, its dump and its pane. No two
/// have the same id. They stand in the order in which they were added.
#[derive(Drop)]
pub struct Table {
    held: Slab<Held>,
    refs: RefLists,
    order: Vec<u32>,
    keys: Vec<Key>,
    notes: Vec<u32>,
}

impl Model for Table {
    ghost use Rattle.std.specs.Prelude.{◌≡◌, ◌≤◌, length, sum_by, vec_capacity};
    ghost use Rattle.desk_laws.specs.declared.limits.TheConstants.{MAX_WINDOWS};
    ghost use Rattle.window_table.specs.Entries.{TableView};
    ghost use Rattle.window_table.specs.Kept.{entries_of, IsKept};
    ghost use Rattle.window_table.specs.Keys.{IsIndex};
    ghost use Rattle.window_table.specs.declared.index.TheConstants.{NOTES};

    ghost Value = { TableView };

    ghost view = { λ t. record { pages = t.refs.pages; entries = entries_of t.held t.refs.lists t.order.items } };

    ghost invariant = { λ t. IsKept t.held t.refs.lists t.order.items × ((vec_capacity t.order ≡ MAX_WINDOWS) × ((sum_by length t.refs.lists ≤ t.refs.pages) × (IsIndex (entries_of t.held t.refs.lists t.order.items) t.keys.items × ((MAX_WINDOWS ≤ vec_capacity t.keys) × (length t.notes.items ≡ NOTES))))) };
}

impl Table {
    /// An empty table of windows that may have `pages` page references together. `NoMemory` where
    /// there is no memory for `MAX_WINDOWS` windows and so many references; no later call takes any.
    pub fn new(alloc: Global, pages: u32) -> Result<Table, NoMemory>
        ensures { IfOk result (λ table. table ≡ record { pages = pages; entries = [] }) }
    {
        let held = Slab::with_capacity(alloc, MAX_WINDOWS as usize)?;
        if held.capacity() != MAX_WINDOWS as usize {
            return Err(NoMemory);
        }
        let refs = RefLists::new(alloc, MAX_WINDOWS as usize, pages)?;
        let order = Vec::with_capacity(alloc, MAX_WINDOWS as usize)?;
        let keys = Vec::with_capacity(alloc, MAX_WINDOWS as usize)?;
        let notes = vec![in alloc; 0u32; NOTES as usize]?;
        Ok(Table {
            held,
            refs,
            order,
            keys,
            notes,
        })
    }

    /// Adds a window that the table doesn't have, while there are fewer than `MAX_WINDOWS`, as the last, and
    /// answers its slot. It is not mapped and has no dump.
    pub fn add(&mut self, window: u32, place: Rect, parent: u32, asked: bool) -> u32
        requires unknown { is_some (entry_with window self.old.entries) ≡ false }
        requires room { length self.old.entries < MAX_WINDOWS }
        ensures vacant { is_some (entry_at result self.old.entries) ≡ false }
        ensures below { result < MAX_WINDOWS }
        ensures added { self.new ≡ record self.old { entries = self.old.entries ++ new_entry result window place parent asked ∷ [] } }
    {
        let held = Held {
            window,
            size: None,
            pane: pane_of(place, parent, asked),
        };
        let slot = self.held.insert_reserved(held) as u32;
        self.order.push_reserved(slot);
        put_in(&mut self.keys, window, slot);
        note_all(&mut self.notes, &self.keys);
        slot
    }

    /// The slot of a window, `None` exactly where the table doesn't have it.
    pub fn slot_of(&self, window: u32) -> Option<u32>
        ensures slot { result ≡ option_map (λ e. e.slot) (entry_with window self.now.entries) }
        ensures known { is_some (entry_with window self.now.entries) ≡ is_some result }
        ensures same { IfSome result (λ slot. entry_at slot self.now.entries ≡ entry_with window self.now.entries) }
        ensures apart { AreApart self.now.entries }
        ensures few { length self.now.entries ≤ MAX_WINDOWS }
        ensures held { (other : ℕ) → effects.refs_besides other (plain_rows self.now.entries) ≤ self.now.pages }
    {
        slot_in(&self.keys, &self.notes, window)
    }

    /// How many windows there are, at most `MAX_WINDOWS`.
    pub fn len(&self) -> u32
        ensures count { result ≡ length self.now.entries }
        ensures apart { AreApart self.now.entries }
        ensures few { length self.now.entries ≤ MAX_WINDOWS }
    {
        self.order.len() as u32
    }

    /// The slot of the window with index i, from 0, in the order in which the windows were added.
    pub fn nth_slot(&self, i: u32) -> u32
        requires { i < length self.now.entries }
        ensures held { IsSome (entry_at result self.now.entries) }
        ensures nth { entry_at result self.now.entries ≡ slice_get self.now.entries i }
    {
        self.order[i as usize]
    }

    /// How many page references the windows may have together. They have no more.
    pub fn pages(&self) -> u32
        ensures is { result ≡ self.now.pages }
        ensures held { (other : ℕ) → effects.refs_besides other (plain_rows self.now.entries) ≤ self.now.pages }
    {
        self.refs.pages()
    }

    /// The pane of a slot that is held.
    pub fn get(&self, slot: u32) -> &Pane
        requires { IsSome (entry_at slot self.now.entries) }
        ensures { option_map (λ e. e.pane) (entry_at slot self.now.entries) ≡ Some result.now }
    {
        &self.held[slot as usize].pane
    }

    /// The pane of a slot that is held, to be changed.
    pub fn get_mut(&mut self, slot: u32) -> &mut Pane
        requires { IsSome (entry_at slot self.old.entries) }
        ensures* lent { sem 𝓛 (LendsPane self.entry slot result) }
        ensures pane { option_map (λ e. e.pane) (entry_at slot self.old.entries) ≡ Some result.now }
    {
        let held = &mut self.held[slot as usize];
        &mut held.pane
    }

    /// The id of the window at a slot that is held.
    pub fn window_at(&self, slot: u32) -> u32
        requires { IsSome (entry_at slot self.now.entries) }
        ensures { option_map (λ e. e.window) (entry_at slot self.now.entries) ≡ Some result }
    {
        self.held[slot as usize].window
    }

    /// The size of the dump at a slot that is held, in pixels, `None` exactly where it has no dump.
    pub fn dump_at(&self, slot: u32) -> Option<DumpSize>
        requires { IsSome (entry_at slot self.now.entries) }
        ensures { option_map (λ e. size_of_dump e.dump) (entry_at slot self.now.entries) ≡ Some result }
    {
        self.held[slot as usize].size
    }

    /// Removes the window at a slot that is held. Other windows that name it as parent or
    /// transient name 0 afterwards.
    pub fn remove(&mut self, slot: u32)
        requires { IsSome (entry_at slot self.old.entries) }
        ensures { (e : Entry) → entry_at slot self.old.entries ≡ Some e →
            self.new ≡ record self.old { entries = removed slot e.window self.old.entries } }
    {
        let held = self.held.remove(slot as usize);
        self.refs.empty(slot as usize);
        leave(&mut self.order, slot);
        take_out(&mut self.keys, held.window);
        note_all(&mut self.notes, &self.keys);
        forget(&mut self.held, held.window);
    }

    /// Gives the window at a slot that is held a dump of this size, in pixels, with these page
    /// references. With the references of the other windows they are at most `pages`.
    pub fn set_refs(&mut self, slot: u32, refs: &Refs<'_>, width: u32, height: u32)
        requires held { IsSome (entry_at slot self.old.entries) }
        requires fits { (e : Entry) → entry_at slot self.old.entries ≡ Some e →
            effects.refs_besides e.window (plain_rows self.old.entries) + length (references refs.now) ≤ self.old.pages }
        ensures { self.new ≡ record self.old {
          entries = updated slot
              (with_dump (record { width = width; height = height; refs = references refs.now })) self.old.entries;
        } }
    {
        self.refs.set(slot as usize, refs);
        let held = &mut self.held[slot as usize];
        held.size = Some(DumpSize { width, height });
    }

    /// The page reference with index i, from 0, of the window at a slot that is held.
    pub fn ref_at(&self, slot: u32, i: u32) -> u32
        requires held { IsSome (entry_at slot self.now.entries) }
        requires i { (e : Entry) → entry_at slot self.now.entries ≡ Some e → i < length (refs_in e.dump) }
        ensures { option_map (λ e. slice_index (refs_in e.dump) i) (entry_at slot self.now.entries) ≡ Some result }
    {
        self.refs.at(slot as usize, i)
    }

    /// Removes all windows.
    pub fn clear(&mut self)
        ensures { self.new ≡ record self.old { entries = [] } }
    {
        self.held.clear();
        self.refs.clear();
        self.order.clear();
        self.keys.clear();
    }
}

// A slot leaves the order.
fn leave(order: &mut Vec<u32>, slot: u32)
    ensures items { order.new.items ≡ filter (λ k. not (k == slot)) order.old.items }
    ensures capacity { vec_capacity order.new ≡ vec_capacity order.old }
{
    order.retain(|k| *k != slot);
}

// A new window's pane.
fn pane_of(place: Rect, parent: u32, asked: bool) -> Pane
    ensures { result ≡ new_pane place parent asked }
{
    Pane {
        place,
        mapped: false,
        asked,
        over: false,
        parent,
        transient: 0,
        title: ArrayVec::new(),
        class: ArrayVec::new(),
        name: ArrayVec::new(),
        hints: [0; 9],
        flags: 0,
        cursor: 0,
        docked: false,
    }
}

impl Ids for Table {
    ghost use Rattle.window_table.specs.Entries.{plain_rows};

    ghost rows = { λ table. plain_rows table.entries };

    fn known(&self, window: u32) -> bool {
        self.slot_of(window).is_some()
    }

    fn count(&self) -> u32 {
        self.len()
    }

    fn refs_besides(&self, window: u32) -> u32 {
        match slot_in(&self.keys, &self.notes, window) {
            Some(slot) => self.refs.total() - self.refs.count(slot as usize),
            None => self.refs.total(),
        }
    }
}
