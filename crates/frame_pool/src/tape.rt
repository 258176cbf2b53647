// The readings of one guest.
ghost use Rattle.std.specs.Prelude.{◌≡◌, [], ◌∷◌, ◌++◌, length, drop, slice_index_or, IfOk, OnErr};

use gui_num::NoMemory;
use std::alloc::Global;
use std::marker::Model;

// Words, the first so many of which were taken. Contracts see those that are left.
#[derive(Drop)]
pub(crate) struct Tape {
    words: Vec<u32>,
    taken: usize,
}

impl Model for Tape {
    ghost use Rattle.std.specs.Prelude.{ℕ, List, drop, length, ◌≤◌};

    ghost Value = { List ℕ };

    ghost view = { λ t. drop t.taken t.words.items };

    ghost invariant = { λ t. t.taken ≤ length t.words.items };
}

impl Tape {
    // No words.
    pub(crate) fn new(alloc: Global) -> Tape
        ensures { result ≡ [] }
    {
        Tape {
            words: Vec::new(alloc),
            taken: 0,
        }
    }

    // Adds a last word. `NoMemory` where there is no memory for it, and then nothing changed.
    pub(crate) fn push(&mut self, word: u32) -> Result<(), NoMemory>
        ensures more { IfOk result (λ _. self.new ≡ self.old ++ word ∷ []) }
        ensures same { OnErr result (self.new ≡ self.old) }
    {
        self.words.push(word)?;
        Ok(())
    }

    // How many words are left.
    pub(crate) fn len(&self) -> usize
        ensures { result ≡ length self.now }
    {
        self.words.len() - self.taken
    }

    // Takes the next word, 0 where none is left.
    pub(crate) fn next(&mut self) -> u32
        ensures value { result ≡ slice_index_or self.old 0 0 }
        ensures rest { self.new ≡ drop 1 self.old }
    {
        if self.taken == self.words.len() {
            return 0;
        }
        let word = self.words[self.taken];
        self.taken += 1;
        word
    }
}
