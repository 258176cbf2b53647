// Items in memory that are given from the front: what the feed of a wire in memory is made of.
ghost use Rattle.std.specs.Prelude.{◌≡◌, ℕ, ◌+◌, ◌≤◌, List, [], All, length, sum_by, Some, IfOk, OnErr, IsErrOf};
ghost use Rattle.desk_laws.specs.Items.{FitsItem};
ghost use Rattle.desk_laws.specs.declared.limits.TheConstants.{MAX_PIECE};
ghost use Rattle.io_ports.specs.Feeds.{ComesNext, answer_of, given_after};
ghost use Rattle.io_ports.specs.MemWires.{held_feed};
ghost use Rattle.io_ports.specs.Wires.{no_more};

use crate::{FeedFault, Next, RecordFault};
use desk_laws::Item;
use gui_num::NoMemory;
use std::alloc::Global;
use std::marker::Model;

// The items with their bytes, of which the first `at` and the first `piece_at` were given.
#[derive(Drop)]
pub struct HeldItems {
    guests: usize,
    pages: u32,
    items: Vec<Next>,
    pieces: Vec<u8>,
    fate: Option<RecordFault>,
    at: usize,
    piece_at: usize,
    given: u64,
}

impl Model for HeldItems {
    ghost use Rattle.std.specs.Prelude.{◌≤◌, drop, vec_len};
    ghost use Rattle.io_ports.specs.MemWires.{HeldFeed, HeldSoFar, fed_items};

    ghost Value = { HeldFeed };

    ghost view = { λ h. record {
      guests = h.guests;
      pages = h.pages;
      left = record { items = fed_items (drop h.at h.items.items) (drop h.piece_at h.pieces.items); fate = h.fate };
      given = h.given;
    } };

    ghost invariant = { λ h. HeldSoFar h.guests h.pages h.items.items h.at h.pieces.items h.piece_at };
}

impl HeldItems {
    /// These items, for so many guests and pages, each with its part of the bytes. `NoMemory` where there
    /// is none to keep them.
    pub fn new(
        alloc: Global,
        guests: usize,
        pages: u32,
        items: &[Next],
        pieces: &[u8],
        fate: Option<RecordFault>,
    ) -> Result<Self, NoMemory>
        requires items { All (λ next. FitsItem guests pages next.item next.len) items.now }
        requires pieces { sum_by (λ next. next.len) items.now ≡ length pieces.now }
        ensures { IfOk result (λ h. h ≡ held_feed guests pages items.now pieces.now fate) }
    {
        Ok(HeldItems {
            guests,
            pages,
            items: items.to_vec(alloc)?,
            pieces: pieces.to_vec(alloc)?,
            fate,
            at: 0,
            piece_at: 0,
            given: 0,
        })
    }

    /// Gives the next item, with its bytes at the front of the room. It never answers Failed.
    pub fn next(&mut self, room: &mut [u8]) -> Result<Next, FeedFault>
        requires room { MAX_PIECE ≤ length room.old }
        ensures sure { IsErrOf result FeedFault.Failed → ⊥ }
        ensures range { IfOk result (λ n. FitsItem self.old.guests self.old.pages n.item n.len) }
        ensures coming { ComesNext self.old.left (answer_of result room.new) (Some self.new.left) }
        ensures untouched { OnErr result (room.new ≡ room.old) }
        ensures given { self.new.given ≡ given_after result self.old.given }
        ensures guests { self.new.guests ≡ self.old.guests }
        ensures pages { self.new.pages ≡ self.old.pages }
    {
        let Some(next) = self.items.get(self.at) else {
            return self.end();
        };
        let next = *next;
        let end = self.piece_at + next.len;
        room[..next.len].copy_from_slice(&self.pieces[self.piece_at..end]);
        self.at += 1;
        self.piece_at = end;
        self.given = self.given.saturating_add(1);
        Ok(next)
    }

    // What is answered where no item is left.
    fn end(&mut self) -> Result<Next, FeedFault>
        requires { self.old.left.items ≡ [] }
        ensures sure { IsErrOf result FeedFault.Failed → ⊥ }
        ensures range { IfOk result (λ n. (n.item ≡ Item.End) × (n.len ≡ 0)) }
        ensures coming { (room : List ℕ) → ComesNext self.old.left (answer_of result room) (Some self.new.left) }
        ensures given { self.new.given ≡ given_after result self.old.given }
        ensures left { self.new.left ≡ self.old.left }
        ensures guests { self.new.guests ≡ self.old.guests }
        ensures pages { self.new.pages ≡ self.old.pages }
    {
        if let Some(fault) = self.fate {
            return Err(FeedFault::Bad(fault));
        }
        self.given = self.given.saturating_add(1);
        Ok(Next {
            item: Item::End,
            len: 0,
        })
    }

    /// Has these numbers of guests and pages from now on. Where it hasn't them already, no item is left,
    /// and they end well.
    pub fn restart(&mut self, guests: usize, pages: u32)
        ensures guests { self.new.guests ≡ guests }
        ensures pages { self.new.pages ≡ pages }
        ensures same { self.old.guests ≡ guests → self.old.pages ≡ pages → self.new.left ≡ self.old.left }
        ensures other { ((self.old.guests ≡ guests) × (self.old.pages ≡ pages) → ⊥) → self.new.left ≡ no_more }
        ensures given { self.new.given ≡ self.old.given }
    {
        if self.guests == guests && self.pages == pages {
            return;
        }
        self.guests = guests;
        self.pages = pages;
        self.items.clear();
        self.pieces.clear();
        self.at = 0;
        self.piece_at = 0;
        self.fate = None;
    }
}
