// The frames of one guest.
ghost use Rattle.std.specs.Prelude.{◌≡◌, ◌+◌, ◌*◌, ◌/◌, ◌%◌, ◌<◌, ◌≤◌, length, slice_index, slice_set, IfOk};
ghost use Rattle.gui_wire.specs.Words.{all_words};
ghost use Rattle.desk_laws.specs.Frames.{write_words};
ghost use Rattle.frame_pool.specs.Regions.{zero_words};
ghost use Rattle.frame_pool.specs.Runs.{words_from};

use crate::Place;
use crate::region::Region;
use desk_laws::PAGE_WORDS;
use gui_num::NoMemory;
use std::alloc::Global;
use std::marker::Model;

/// The frames of one guest: pages of `PAGE_WORDS` words of 32 bits, all zero when made. Contracts see the list
/// of all words, page after page. They lie in one block, which is reached by a raw pointer alone, never
/// by a reference, and is freed when the frames are dropped.
#[derive(Drop)]
pub struct Glass {
    region: Region,
}

impl Model for Glass {
    ghost use Rattle.std.specs.Prelude.{ℕ, List};

    ghost Value = { List ℕ };

    ghost view = { λ g. g.region };
}

impl Glass {
    /// So many pages of zero words. `NoMemory` where there is no memory for them; no later call takes any.
    #[tactic(auto, unfolding(crate::specs::Regions::zero_words))]
    pub fn new(alloc: Global, pages: u32) -> Result<Glass, NoMemory>
        ensures zeros { IfOk result (λ glass. glass ≡ zero_words pages) }
        ensures len { IfOk result (λ glass. length glass ≡ PAGE_WORDS * pages) }
    {
        let region = Region::new(alloc, pages)?;
        Ok(Glass { region })
    }

    /// The word at this place, which lies in the pages: one read through the raw pointer.
    pub fn load(&self, place: Place) -> u32
        requires { PAGE_WORDS * place.page + place.word < length self.now }
        ensures { result ≡ slice_index self.now (PAGE_WORDS * place.page + place.word) }
    {
        self.region.load(index_of(place))
    }

    /// The words of one page from this place on, as many as `words` has room for: one read each through the raw
    /// pointer, in order.
    pub fn load_run(&self, place: Place, words: &mut [u32])
        requires end { place.word + length words.old ≤ PAGE_WORDS }
        requires page { PAGE_WORDS * place.page + PAGE_WORDS ≤ length self.now }
        ensures { words.new ≡ words_from self.now (PAGE_WORDS * place.page + place.word) (length words.old) }
    {
        self.region
            .load_run(place.page as usize, place.word as usize, words);
    }

    /// Writes the word at this place, which lies in the pages.
    pub fn store(&mut self, place: Place, word: u32)
        requires { PAGE_WORDS * place.page + place.word < length self.old }
        ensures { self.new ≡ slice_set self.old (PAGE_WORDS * place.page + place.word) word }
    {
        self.region.store(index_of(place), word);
    }

    // Writes the numbers that some bytes spell to the words of one page from this place on.
    pub(crate) fn store_run(&mut self, place: Place, bytes: &[u8])
        requires page { PAGE_WORDS * place.page + PAGE_WORDS ≤ length self.old }
        requires whole { length bytes.now % 4 ≡ 0 }
        requires end { place.word + length bytes.now / 4 ≤ PAGE_WORDS }
        ensures words { self.new ≡ write_words self.old (PAGE_WORDS * place.page + place.word) (all_words bytes.now) }
        ensures len { length self.new ≡ length self.old }
    {
        self.region
            .store_run(place.page as usize, place.word as usize, bytes);
    }
}

// The number of a word among the words of all pages.
fn index_of(place: Place) -> usize
    ensures { result ≡ PAGE_WORDS * place.page + place.word }
{
    PAGE_WORDS as usize * place.page as usize + place.word as usize
}
