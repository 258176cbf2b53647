// Words in a block of memory, behind a raw pointer. No function here makes a reference into the block.
ghost use Rattle.std.specs.Prelude.{◌≡◌, ℕ, ◌*◌, ◌^◌, ◌<◌, List, Option, Some, None, length, replicate, slice_index_or, slice_set, IfOk, IsSome};
ghost use base.Fraction.{full_share};
ghost use base.Fml.{fsep};
ghost use denote.Sharing.{one};
ghost use Rattle.frame_pool.specs.Cells.{written, blank, freed_by};

use std::alloc::{AllocError, Allocator, Global};
use std::marker::Model;

// A block of words of 32 bits. Contracts see each word that was written, and that the others weren't yet.
// It has to be freed by hand.
pub(crate) struct Cells {
    start: *mut u32,
    pub(crate) ghost words: { List (Option ℕ) },
}

impl Model for Cells {
    ghost also_owns = { λ c. fsep (written full_share c.start c.words) (fsep (blank c.start c.words) (freed_by c.start (length c.words))) };

    ghost also_shares = { λ c _ κ. one (λ q. written q c.start c.words) κ };
}

impl Cells {
    // So many words, none of them written.
    pub(crate) fn new(heap: &Global, count: usize) -> Result<Cells, AllocError>
        requires { count * 4 < 2 ^ 63 }
        ensures { IfOk result (λ cells. cells.words ≡ replicate count None) }
    {
        match heap.allocate(count * 4, 4) {
            Ok(block) => Ok(Cells {
                start: block as *mut u32,
            }),
            Err(refused) => Err(refused),
        }
    }

    // The word with this index, which was written: one read.
    pub(crate) fn load(&self, at: usize) -> u32
        requires small { length self.now.words * 4 < 2 ^ 63 }
        requires within { at < length self.now.words }
        requires filled { IsSome (slice_index_or self.now.words at None) }
        ensures { Some result ≡ slice_index_or self.now.words at None }
    {
        unsafe { *self.start.add(at) }
    }

    // Writes the word with this index.
    pub(crate) fn store(&mut self, at: usize, word: u32)
        requires small { length self.old.words * 4 < 2 ^ 63 }
        requires within { at < length self.old.words }
        ensures { self.new.words ≡ slice_set self.old.words at (Some word) }
    {
        unsafe { *self.start.add(at) = word };
    }

    // Frees the block. It takes the number of words.
    pub(crate) fn free(self, heap: &Global, count: usize)
        requires small { count * 4 < 2 ^ 63 }
        requires whole { count ≡ length self.words }
    {
        let Cells { start } = self;
        unsafe { heap.deallocate(start as *mut u8, count * 4, 4) };
    }
}
