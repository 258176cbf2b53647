// The frames of one guest, with the stores that wait.
ghost use Rattle.std.specs.Prelude.{◌≡◌, ◌+◌, ◌-◌, ◌<◌, ◌≤◌, ◌%◌, length, IfOk};
ghost use Rattle.desk_laws.specs.Frames.{load as load_of, store as store_of, write_words};
ghost use Rattle.desk_laws.specs.declared.limits.TheConstants.{PAGE_BYTES, PAGE_WORDS};
ghost use Rattle.frame_pool.specs.Ports.{fresh};
ghost use Rattle.frame_pool.specs.Runs.{run_of};

use crate::waiting::{Store, put, quiet_loads, settle};
use crate::{Glass, Place};
use arrayvec::ArrayVec;
use desk_laws::MAX_WAITING_STORES;
use gui_num::NoMemory;
use std::alloc::Global;
use std::marker::Model;

// The words of one guest, how many were loaded, and the stores that wait, in the order in which they
// came.
#[derive(Drop)]
pub(crate) struct Frames {
    glass: Glass,
    loads: u64,
    waiting: Vec<Store>,
    pages: u32,
}

impl Model for Frames {
    ghost use Rattle.std.specs.Prelude.{◌≡◌, ◌*◌, ◌≤◌, length, vec_capacity};
    ghost use Rattle.desk_laws.specs.Frames.{Pool};
    ghost use Rattle.desk_laws.specs.declared.limits.TheConstants.{MAX_WAITING_STORES, PAGE_WORDS};
    ghost use Rattle.frame_pool.specs.Ports.{FramesView};
    ghost use Rattle.frame_pool.specs.Regions.{AllLieIn};

    ghost Value = { FramesView };

    ghost view = { λ f. record { pages = f.pages; state = Pool f.glass f.loads f.waiting.items } };

    ghost invariant = { λ f. (length f.glass ≡ PAGE_WORDS * f.pages) × (AllLieIn (length f.glass) f.waiting.items × ((length f.waiting.items ≤ MAX_WAITING_STORES) × (MAX_WAITING_STORES ≤ vec_capacity f.waiting))) };
}

impl Frames {
    // So many pages of zero words, and room for the stores that may wait.
    #[tactic(auto, unfolding(crate::specs::Ports::fresh))]
    pub(crate) fn new(alloc: Global, pages: u32) -> Result<Frames, NoMemory>
        ensures { IfOk result (λ frames. frames ≡ record { pages = pages; state = fresh pages }) }
    {
        Ok(Frames {
            glass: Glass::new(alloc, pages)?,
            loads: 0,
            waiting: Vec::with_capacity(alloc, MAX_WAITING_STORES as usize)?,
            pages,
        })
    }

    // Writes the stores that are due, reads the word at a place, and counts the load.
    pub(crate) fn load(&mut self, place: Place) -> u32
        requires page { place.page < self.old.pages }
        requires word { place.word < PAGE_WORDS }
        ensures value { result ≡ (load_of self.old.state place.page place.word).0 }
        ensures after { self.new ≡ record self.old { state = (load_of self.old.state place.page place.word).1 } }
    {
        settle(&mut self.glass, &mut self.waiting, self.loads);
        let word = self.glass.load(place);
        self.loads = self.loads.saturating_add(1);
        word
    }

    // Loads the words of a page from a place on, as many as there is room for.
    pub(crate) fn load_run(&mut self, place: Place, words: &mut [u32])
        requires page { place.page < self.old.pages }
        requires end { place.word + length words.old ≤ PAGE_WORDS }
        ensures words { words.new ≡ (run_of self.old.state place.page place.word (length words.old)).words }
        ensures after { self.new ≡ record self.old { state = (run_of self.old.state place.page place.word (length words.old)).port } }
    {
        let mut done = 0;
        while done < words.len() {
            let at = Place {
                page: place.page,
                word: place.word + done as u32,
            };
            done += self.load_part(at, words, done);
        }
    }

    // Loads words into the room behind the first `done` words, so many that no store falls due among them,
    // and answers how many.
    fn load_part(&mut self, place: Place, words: &mut [u32], done: usize) -> usize
        requires page { place.page < self.old.pages }
        requires room { done < length words.old }
        requires end { place.word + (length words.old - done) ≤ PAGE_WORDS }
        ensures some { 0 < result }
        ensures few { done + result ≤ length words.old }
        ensures words { words.new ≡ write_words words.old done (run_of self.old.state place.page place.word result).words }
        ensures after { self.new ≡ record self.old { state = (run_of self.old.state place.page place.word result).port } }
    {
        settle(&mut self.glass, &mut self.waiting, self.loads);
        let n = quiet_loads(&self.waiting, self.loads, words.len() - done);
        let end = done + n;
        self.glass.load_run(place, &mut words[done..end]);
        self.loads = self.loads.saturating_add(n as u64);
        n
    }

    // Writes the stores that are due, and then the bytes, unless they have to wait and may.
    pub(crate) fn store(&mut self, delay: u16, page: u32, offset: u32, bytes: &[u8])
        requires page { page < self.old.pages }
        requires offset { offset % 4 ≡ 0 }
        requires whole { length bytes.now % 4 ≡ 0 }
        requires end { offset + length bytes.now ≤ PAGE_BYTES }
        ensures { self.new ≡ record self.old { state = store_of self.old.state delay page offset bytes.now } }
    {
        settle(&mut self.glass, &mut self.waiting, self.loads);
        if delay > 0 && self.waiting.len() < MAX_WAITING_STORES as usize {
            let due = self.loads.saturating_add(delay as u64);
            self.waiting
                .push_reserved(waiting_store(due, page, offset, bytes));
        } else {
            put(&mut self.glass, page, offset, bytes);
        }
    }
}

// A store that waits.
fn waiting_store(due: u64, page: u32, offset: u32, bytes: &[u8]) -> Store
    requires { length bytes.now ≤ PAGE_BYTES }
    ensures { result ≡ record { due = due; page = page; offset = offset; bytes = bytes.now } }
{
    let mut kept = ArrayVec::new();
    let _ = kept.try_extend_from_slice(bytes);
    Store {
        due,
        page,
        offset,
        bytes: kept,
    }
}
