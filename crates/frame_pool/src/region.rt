// A block of words, page after page, of which a page is written once it is first stored to.
ghost use Rattle.std.specs.Prelude.{◌≡◌, ◌+◌, ◌*◌, ◌/◌, ◌%◌, ◌^◌, ◌<◌, ◌≤◌, true, false, length, replicate, slice_index, slice_index_or, slice_set, IfOk};
ghost use Rattle.gui_wire.specs.Words.{all_words};
ghost use Rattle.desk_laws.specs.Frames.{write_words};
ghost use Rattle.desk_laws.specs.declared.limits.TheConstants.{PAGE_WORDS};
ghost use Rattle.frame_pool.specs.Cells.{numbers};
ghost use Rattle.frame_pool.specs.Runs.{words_from};
ghost use Rattle.frame_pool.specs.Touched.{AreTouched, AreWritten, IsCleared, stored_from};

use crate::cells::Cells;
use desk_laws::PAGE_WORDS;
use gui_wire::Refs;
use std::alloc::{AllocError, Global};
use std::marker::Model;

// Words of 32 bits. Contracts see the list of them, with zeros in the pages that weren't stored to yet.
pub(crate) struct Region {
    cells: Cells,
    touched: Vec<bool>,
    count: usize,
    heap: Global,
}

impl Model for Region {
    ghost use Rattle.std.specs.Prelude.{◌≡◌, ℕ, ◌*◌, ◌^◌, ◌<◌, List, length};
    ghost use Rattle.desk_laws.specs.declared.limits.TheConstants.{PAGE_WORDS};
    ghost use Rattle.frame_pool.specs.Cells.{numbers};
    ghost use Rattle.frame_pool.specs.Touched.{AreTouched};

    ghost Value = { List ℕ };

    ghost view = { λ r. numbers r.cells.words };

    ghost invariant = { λ r. AreTouched r.touched.items r.cells.words × ((length r.cells.words ≡ PAGE_WORDS * length r.touched.items) × ((r.count ≡ length r.cells.words) × (r.count * 4 < 2 ^ 63))) };
}

impl Drop for Region {
    // Frees the block.
    fn drop(self) {
        let Region {
            cells,
            touched,
            count,
            heap,
        } = self;
        cells.free(&heap, count);
    }
}

impl Region {
    // So many pages of zero words. None of them is written yet.
    pub(crate) fn new(heap: Global, pages: u32) -> Result<Region, AllocError>
        ensures { IfOk result (λ region. region ≡ replicate (PAGE_WORDS * pages) 0) }
    {
        let touched = untouched(heap, pages as usize)?;
        let count = PAGE_WORDS as usize * pages as usize;
        let cells = Cells::new(&heap, count)?;
        Ok(Region {
            cells,
            touched,
            count,
            heap,
        })
    }

    // The word with this index. It is read once, where its page was stored to.
    pub(crate) fn load(&self, at: usize) -> u32
        requires { at < length self.now }
        ensures { result ≡ slice_index self.now at }
    {
        if !self.touched[at / PAGE_WORDS as usize] {
            return 0;
        }
        self.cells.load(at)
    }

    // The words of a page from this one on, as many as there is room for. Each is read once, where the page
    // was stored to.
    pub(crate) fn load_run(&self, page: usize, word: usize, words: &mut [u32])
        requires page { PAGE_WORDS * page + PAGE_WORDS ≤ length self.now }
        requires end { word + length words.old ≤ PAGE_WORDS }
        ensures { words.new ≡ words_from self.now (PAGE_WORDS * page + word) (length words.old) }
    {
        if self.touched[page] {
            read_run(&self.cells, PAGE_WORDS as usize * page + word, words);
        } else {
            words.fill(0);
        }
    }

    // Writes the word with this index.
    pub(crate) fn store(&mut self, at: usize, word: u32)
        requires { at < length self.old }
        ensures { self.new ≡ slice_set self.old at word }
    {
        touch(&mut self.cells, &mut self.touched, at / PAGE_WORDS as usize);
        self.cells.store(at, word);
    }

    // Writes the numbers that some bytes spell to the words of a page from this one on.
    pub(crate) fn store_run(&mut self, page: usize, word: usize, bytes: &[u8])
        requires page { PAGE_WORDS * page + PAGE_WORDS ≤ length self.old }
        requires whole { length bytes.now % 4 ≡ 0 }
        requires end { word + length bytes.now / 4 ≤ PAGE_WORDS }
        ensures words { self.new ≡ write_words self.old (PAGE_WORDS * page + word) (all_words bytes.now) }
        ensures len { length self.new ≡ length self.old }
    {
        touch(&mut self.cells, &mut self.touched, page);
        write_run(&mut self.cells, PAGE_WORDS as usize * page + word, bytes);
    }
}

// So many pages that weren't stored to.
fn untouched(heap: Global, pages: usize) -> Result<Vec<bool>, AllocError>
    ensures { IfOk result (λ touched. touched.items ≡ replicate pages false) }
{
    let mut touched = Vec::with_capacity(heap, pages)?;
    for _ in 0..pages {
        touched.push_reserved(false);
    }
    Ok(touched)
}

// Writes zeros to a page that wasn't stored to yet.
fn touch(cells: &mut Cells, touched: &mut Vec<bool>, page: usize)
    requires small { length cells.old.words * 4 < 2 ^ 63 }
    requires page { page < length touched.old.items }
    requires whole { length cells.old.words ≡ PAGE_WORDS * length touched.old.items }
    requires touched { AreTouched touched.old.items cells.old.words }
    ensures touched { AreTouched touched.new.items cells.new.words }
    ensures flag { slice_index_or touched.new.items page false ≡ true }
    ensures same { numbers cells.new.words ≡ numbers cells.old.words }
    ensures cells { length cells.new.words ≡ length cells.old.words }
    ensures pages { length touched.new.items ≡ length touched.old.items }
{
    if !touched[page] {
        clear_page(cells, PAGE_WORDS as usize * page);
        touched[page] = true;
    }
}

// Writes zeros to the words of a page, the first of which has this index.
fn clear_page(cells: &mut Cells, from: usize)
    requires small { length cells.old.words * 4 < 2 ^ 63 }
    requires end { from + PAGE_WORDS ≤ length cells.old.words }
    ensures { IsCleared cells.old.words cells.new.words from PAGE_WORDS }
{
    for k in 0..PAGE_WORDS as usize {
        cells.store(from + k, 0);
    }
}

// Writes the numbers that some bytes spell to the words from an index on.
fn write_run(cells: &mut Cells, at: usize, bytes: &[u8])
    requires small { length cells.old.words * 4 < 2 ^ 63 }
    requires whole { length bytes.now % 4 ≡ 0 }
    requires short { length bytes.now < 2 ^ 32 }
    requires end { at + length (all_words bytes.now) ≤ length cells.old.words }
    ensures { cells.new.words ≡ stored_from cells.old.words at (all_words bytes.now) }
{
    let spelled = Refs::new(bytes);
    for k in 0..spelled.count() {
        cells.store(at + k as usize, spelled.at(k));
    }
}

// Reads the words from an index on, as many as there is room for: one read each, in order.
fn read_run(cells: &Cells, at: usize, words: &mut [u32])
    requires small { length cells.now.words * 4 < 2 ^ 63 }
    requires filled { AreWritten cells.now.words at (length words.old) }
    requires end { at + length words.old ≤ length cells.now.words }
    ensures { words.new ≡ words_from (numbers cells.now.words) at (length words.old) }
{
    for k in 0..words.len() {
        words[k] = cells.load(at + k);
    }
}
