// Frames that are a list of readings.
ghost use Rattle.std.specs.Prelude.{◌≡◌, ℕ, [], ◌∷◌, ◌++◌, ◌+◌, ◌<◌, ◌≤◌, ◌%◌, length, replicate, slice_index_or, slice_set, IfOk, OnErr};
ghost use Rattle.desk_laws.specs.Frames.{Tape as TapeState, load as load_of, store as store_of};

use crate::tape::Tape;
use crate::{FramePort, Place};
use gui_num::NoMemory;
use std::alloc::Global;
use std::marker::Model;

/// A list of readings for each guest: every load takes the next one of its guest, whatever its place,
/// and answers 0 once none is left. A store changes nothing.
#[derive(Drop)]
pub struct TapePort {
    tapes: Vec<Tape>,
    pages: u32,
}

impl Model for TapePort {
    ghost use Rattle.frame_pool.specs.Tapes.{TapesView};

    ghost Value = { TapesView };

    ghost view = { λ t. record { pages = t.pages; tapes = t.tapes.items } };
}

impl TapePort {
    /// No readings, for so many guests of so many pages. `NoMemory` where there is no memory for them.
    pub fn new(alloc: Global, guests: u32, pages: u32) -> Result<TapePort, NoMemory>
        ensures { IfOk result (λ port. port ≡ record { pages = pages; tapes = replicate guests [] }) }
    {
        let mut tapes = Vec::with_capacity(alloc, guests as usize)?;
        for _ in 0..guests {
            tapes.push_reserved(Tape::new(alloc));
        }
        Ok(TapePort { tapes, pages })
    }

    /// Adds a last reading of a guest, counted from 0. `NoMemory` where there is no memory for it, and
    /// then nothing changed.
    pub fn push(&mut self, guest: u32, word: u32) -> Result<(), NoMemory>
        requires { guest < length self.old.tapes }
        ensures more { IfOk result (λ _. self.new ≡ record self.old { tapes = slice_set self.old.tapes guest (slice_index_or self.old.tapes guest [] ++ word ∷ []) }) }
        ensures same { OnErr result (self.new ≡ self.old) }
    {
        self.tapes[guest as usize].push(word)
    }

    /// How many readings of a guest, counted from 0, are left.
    pub fn left(&self, guest: u32) -> usize
        requires { guest < length self.now.tapes }
        ensures { result ≡ length (slice_index_or self.now.tapes guest []) }
    {
        self.tapes[guest as usize].len()
    }
}

impl FramePort for TapePort {
    ghost guests = { λ t. length t.tapes };

    ghost pages = { λ t. t.pages };

    ghost state = { λ t guest. TapeState (slice_index_or t.tapes guest []) };

    fn load(&mut self, guest: u32, _place: Place) -> u32 {
        self.tapes[guest as usize].next()
    }

    fn store(&mut self, _guest: u32, _delay: u16, _page: u32, _offset: u32, _bytes: &[u8]) {}
}
