//! The stacking order of the mapped windows, and the order in which they get the focus.
//!
//! The normal layer lies below the override layer. The focus list has the windows of both, the last
//! one is the first to have the focus. Stacking and focus are this project's own.
#![tactic(auto)]

mod index;

ghost use Rattle.std.specs.Prelude.{◌≡◌, ◌+◌, ◌<◌, ◌≤◌, ◌↔◌, [], ◌∷◌, ◌++◌, ◌==◌, not, filter, false, true, if◌then◌else◌, length, reverse, slice_get, vec_len, vec_capacity, IsTrue, IsNone, IfOk};
ghost use Rattle.desk_laws.specs.Layers.{HaveRowsOnce, no_layers, is_in, without, to_end, entered, departed, raised, relayered, id_from_top};
ghost use Rattle.desk_laws.specs.Following.{without_guest};

use crate::index::{Key, NOTES, layer_in, note, put_key, take_guest_keys, take_key};
use desk_laws::RowId;
use gui_num::NoMemory;
use std::alloc::Global;
use std::marker::Model;

/// The two layers, each from its bottom to its top, and the focus list from its front. A row is in
/// one layer or in none, and the focus list has exactly the rows of both layers, each once.
///
/// Whether a row is there, and in which layer, is found without a walk over the lists. Contracts see
/// the lists, and the number of rows that there is room for.
#[derive(Drop)]
pub struct Stacking {
    normal: Vec<RowId>,
    over: Vec<RowId>,
    focus: Vec<RowId>,
    keys: Vec<Key>,
    notes: Vec<u32>,
}

impl Model for Stacking {
    ghost use Rattle.std.specs.Prelude.{◌≡◌, ◌≤◌, length, vec_capacity};
    ghost use Rattle.stacking.specs.RowCounts.{AreCounted};
    ghost use Rattle.stacking.specs.Keys.{IsIndex};
    ghost use Rattle.stacking.specs.declared.index.TheConstants.{NOTES};
    ghost use Rattle.stacking.specs.Stacked.{Stacked};

    ghost Value = { Stacked };

    ghost view = { λ s. record { layers = record { normal = s.normal.items; over = s.over.items; focus = s.focus.items }; rows = vec_capacity s.focus } };

    ghost invariant = { λ s. AreCounted s.normal.items s.over.items s.focus.items × (vec_capacity s.focus ≤ vec_capacity s.normal) × (vec_capacity s.focus ≤ vec_capacity s.over) × IsIndex s.normal.items s.over.items s.keys.items × (vec_capacity s.focus ≤ vec_capacity s.keys) × (length s.notes.items ≡ NOTES) };
}

impl Stacking {
    /// No row, and room for `rows` of them. `NoMemory` where there is none for so many.
    pub fn new(alloc: Global, rows: u32) -> Result<Self, NoMemory>
        ensures { IfOk result (λ s. s ≡ record { layers = no_layers; rows = rows }) }
    {
        let rows = rows as usize;
        Ok(Stacking {
            normal: Vec::with_capacity(alloc, rows)?,
            over: Vec::with_capacity(alloc, rows)?,
            focus: Vec::with_capacity(alloc, rows)?,
            keys: Vec::with_capacity(alloc, rows)?,
            notes: vec![in alloc; 0u32; NOTES as usize]?,
        })
    }

    /// Takes up a row that became mapped: on top of its layer, and at the front of the focus list.
    pub fn enter(&mut self, id: RowId, over: bool)
        requires new { is_in self.old.layers.focus id ≡ false }
        requires room { length self.old.layers.focus < self.old.rows }
        ensures { self.new ≡ record self.old { layers = entered id over self.old.layers } }
    {
        put_first(&mut self.focus, id);
        put_key(&mut self.keys, id, over);
        if over {
            self.over.push_reserved(id);
        } else {
            self.normal.push_reserved(id);
        }
    }

    /// Takes out a row that is unmapped or gone, if it is there.
    pub fn leave(&mut self, id: RowId)
        ensures { self.new ≡ record self.old { layers = departed id self.old.layers } }
    {
        if self.holds(id) {
            self.take_row(id);
        }
    }

    // Whether a row stands in the lists. Where it doesn't, its leaving changes none of them.
    fn holds(&self, id: RowId) -> bool
        ensures is { result ≡ is_in self.now.layers.focus id }
        ensures none { result ≡ false → departed id self.now.layers ≡ self.now.layers }
    {
        layer_in(&self.keys, &self.notes, id).is_some()
    }

    // Takes out a row that is there.
    fn take_row(&mut self, id: RowId)
        requires { is_in self.old.layers.focus id ≡ true }
        ensures { self.new ≡ record self.old { layers = departed id self.old.layers } }
    {
        take_out(&mut self.normal, id);
        take_out(&mut self.over, id);
        take_out(&mut self.focus, id);
        take_key(&mut self.keys, id);
    }

    /// Takes out all rows of a guest, counted from 0.
    pub fn leave_guest(&mut self, guest: u32)
        ensures { self.new ≡ record self.old { layers = without_guest guest self.old.layers } }
    {
        take_guest_out(&mut self.normal, guest);
        take_guest_out(&mut self.over, guest);
        take_guest_out(&mut self.focus, guest);
        take_guest_keys(&mut self.keys, guest);
    }

    /// Puts a row on top of its layer and at the end of the focus list.
    pub fn click(&mut self, id: RowId)
        requires { IsTrue (is_in self.old.layers.focus id) }
        ensures { self.new ≡ record self.old { layers = raised id self.old.layers } }
    {
        move_to_end(&mut self.normal, id);
        move_to_end(&mut self.over, id);
        move_to_end(&mut self.focus, id);
    }

    /// Puts a row on top of the override layer (`over`) or of the normal one, where it isn't in that
    /// layer yet. Its place in the focus list stays.
    pub fn relayer(&mut self, id: RowId, over: bool)
        requires { IsTrue (is_in self.old.layers.focus id) }
        ensures { self.new ≡ record self.old { layers = relayered id over self.old.layers } }
    {
        note(&mut self.notes, &self.keys, id);
        if !self.is_in_layer(id, over) {
            self.change_layer(id, over);
        }
    }

    // Whether a row is in the override layer (`over`), or in the normal one.
    fn is_in_layer(&self, id: RowId, over: bool) -> bool
        ensures { result ≡ (if over then is_in self.now.layers.over id else is_in self.now.layers.normal id) }
    {
        layer_in(&self.keys, &self.notes, id) == Some(over)
    }

    // Puts a row on top of the override layer (`over`) or of the normal one, in which it isn't yet.
    fn change_layer(&mut self, id: RowId, over: bool)
        requires there { is_in self.old.layers.focus id ≡ true }
        requires other { (if over then is_in self.old.layers.over id else is_in self.old.layers.normal id) ≡ false }
        ensures { self.new ≡ record self.old { layers = relayered id over self.old.layers } }
    {
        take_key(&mut self.keys, id);
        put_key(&mut self.keys, id, over);
        if over {
            move_row(&mut self.normal, &mut self.over, id);
        } else {
            move_row(&mut self.over, &mut self.normal, id);
        }
    }

    /// The row that has `k` rows above it: those of the override layer come first, each layer from
    /// its top. `None` exactly where `k` is at least `len`.
    pub fn from_top(&self, k: usize) -> Option<RowId>
        ensures is { result ≡ id_from_top self.now.layers k }
        ensures none { IsNone result ↔ (length self.now.layers.focus ≤ k) }
    {
        if k < self.over.len() {
            nth_last(&self.over, k)
        } else {
            nth_last(&self.normal, k - self.over.len())
        }
    }

    /// The row that stands `k` places behind the front of the focus list. `None` exactly where `k` is
    /// at least `len`.
    pub fn focus_at(&self, k: usize) -> Option<RowId>
        ensures is { result ≡ slice_get self.now.layers.focus k }
        ensures none { IsNone result ↔ (length self.now.layers.focus ≤ k) }
    {
        self.focus.get(k).copied()
    }

    /// Whether the row stands in the lists.
    pub fn has(&self, id: RowId) -> bool
        ensures { result ≡ is_in self.now.layers.focus id }
    {
        self.holds(id)
    }

    /// How many rows there are.
    pub fn len(&self) -> usize
        ensures is { result ≡ length self.now.layers.focus }
        ensures room { length self.now.layers.focus ≤ self.now.rows }
        ensures once { HaveRowsOnce self.now.layers }
    {
        self.focus.len()
    }
}

// Whether a row stands in a list.
fn has(ids: &[RowId], id: RowId) -> bool
    ensures { result ≡ is_in ids.now id }
{
    ids.iter().any(|other| id == *other)
}

fn take_out(ids: &mut Vec<RowId>, id: RowId)
    ensures items { ids.new.items ≡ without id ids.old.items }
    ensures capacity { vec_capacity ids.new ≡ vec_capacity ids.old }
{
    ids.retain(|other| id != *other);
}

fn take_guest_out(ids: &mut Vec<RowId>, guest: u32)
    ensures items { ids.new.items ≡ filter (λ id. not (id.guest == guest)) ids.old.items }
    ensures capacity { vec_capacity ids.new ≡ vec_capacity ids.old }
{
    ids.retain(|id| id.guest != guest);
}

fn put_first(ids: &mut Vec<RowId>, id: RowId)
    requires { vec_len ids.old < vec_capacity ids.old }
    ensures items { ids.new.items ≡ id ∷ ids.old.items }
    ensures capacity { vec_capacity ids.new ≡ vec_capacity ids.old }
{
    let _ = ids.insert(0, id);
}

// Moves a row to the end of a list, if it stands there.
fn move_to_end(ids: &mut Vec<RowId>, id: RowId)
    ensures items { ids.new.items ≡ to_end id ids.old.items }
    ensures capacity { vec_capacity ids.new ≡ vec_capacity ids.old }
{
    if has(ids, id) {
        take_out(ids, id);
        ids.push_reserved(id);
    }
}

// Moves a row from one layer to the top of another.
fn move_row(from: &mut Vec<RowId>, to: &mut Vec<RowId>, id: RowId)
    requires { vec_len to.old < vec_capacity to.old }
    ensures from { from.new.items ≡ without id from.old.items }
    ensures to { to.new.items ≡ to.old.items ++ id ∷ [] }
    ensures from_capacity { vec_capacity from.new ≡ vec_capacity from.old }
    ensures to_capacity { vec_capacity to.new ≡ vec_capacity to.old }
{
    take_out(from, id);
    to.push_reserved(id);
}

// The row that stands k places before the last one.
fn nth_last(ids: &[RowId], k: usize) -> Option<RowId>
    ensures { result ≡ slice_get (reverse ids.now) k }
{
    if k < ids.len() {
        Some(ids[ids.len() - 1 - k])
    } else {
        None
    }
}

#[cfg(test)]
mod tests {
    use super::*;

    // The rows from the top, or the focus list from its front.
    fn rows_of(stack: &Stacking, from_top: bool) -> [Option<RowId>; 4] {
        let mut rows = [None; 4];
        for k in 0..4 {
            rows[k] = if from_top {
                stack.from_top(k)
            } else {
                stack.focus_at(k)
            };
        }
        rows
    }

    #[test]
    fn rows_come_and_go(rt: HostRuntime) -> Result<(), NoMemory> {
        let a = RowId {
            guest: 0,
            window: 1,
        };
        let b = RowId {
            guest: 0,
            window: 2,
        };
        let c = RowId {
            guest: 1,
            window: 1,
        };
        let mut stack = Stacking::new(rt.alloc(), 3)?;
        stack.enter(a, false);
        stack.enter(c, true);
        stack.enter(b, false);
        assert_eq!(rt; rows_of(&stack, true), [Some(c), Some(b), Some(a), None]);
        assert_eq!(rt; rows_of(&stack, false), [Some(b), Some(c), Some(a), None]);
        stack.click(c);
        stack.click(a);
        assert_eq!(rt; rows_of(&stack, true), [Some(c), Some(a), Some(b), None]);
        assert_eq!(rt; rows_of(&stack, false), [Some(b), Some(c), Some(a), None]);
        stack.relayer(b, true);
        stack.relayer(a, false);
        stack.relayer(c, true);
        assert_eq!(rt; rows_of(&stack, true), [Some(b), Some(c), Some(a), None]);
        stack.leave(c);
        assert_eq!(rt; stack.len(), 2);
        assert_eq!(rt; rows_of(&stack, true), [Some(b), Some(a), None, None]);
        assert_eq!(rt; rows_of(&stack, false), [Some(b), Some(a), None, None]);
        stack.enter(c, false);
        assert_eq!(rt; (stack.has(b), stack.has(c)), (true, true));
        stack.leave_guest(0);
        assert_eq!(rt; (stack.has(b), stack.has(c)), (false, true));
        assert_eq!(rt; rows_of(&stack, true), [Some(c), None, None, None]);
        Ok(())
    }
}
