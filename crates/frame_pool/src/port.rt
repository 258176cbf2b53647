// Where the frames of guests are read.
ghost use Rattle.std.specs.Prelude.{◌≡◌, ℕ, ◌+◌, ◌<◌, ◌≤◌, ◌%◌, length};
ghost use Rattle.desk_laws.specs.Frames.{PortState, load as load_of, store as store_of};
ghost use Rattle.frame_pool.specs.Ports.{ChangesFrames};
ghost use Rattle.frame_pool.specs.Runs.{run_of};
ghost use Rattle.desk_laws.specs.declared.limits.TheConstants.{PAGE_BYTES, PAGE_WORDS};

use crate::Place;

/// The frames of some guests, each with the same number of pages, and changes of them. A call on one
/// guest leaves the others as they are. No call takes memory.
pub trait FramePort {
    /// How many guests there are.
    ghost guests: { Self → ℕ };

    /// How many pages each guest has.
    ghost pages: { Self → ℕ };

    /// What each guest's frames hold.
    ghost state: { Self → ℕ → PortState };

    /// The word at a place in the frames of a guest, counted from 0, which is read once.
    fn load(&mut self, guest: u32, place: Place) -> u32
        requires guest { guest < guests self.old }
        requires page { place.page < pages self.old }
        requires word { place.word < PAGE_WORDS }
        ensures value { result ≡ (load_of (state self.old guest) place.page place.word).0 }
        ensures after { state self.new guest ≡ (load_of (state self.old guest) place.page place.word).1 }
        ensures alone { ChangesFrames guests pages state guest self.old self.new };

    /// The words of one page from a place on, as many as `words` has room for: as that many loads, in order
    /// and each of its word once.
    fn load_run(&mut self, guest: u32, place: Place, words: &mut [u32])
        requires guest { guest < guests self.old }
        requires page { place.page < pages self.old }
        requires end { place.word + length words.old ≤ PAGE_WORDS }
        ensures words { words.new ≡ (run_of (state self.old guest) place.page place.word (length words.old)).words }
        ensures after { state self.new guest ≡ (run_of (state self.old guest) place.page place.word (length words.old)).port }
        ensures alone { ChangesFrames guests pages state guest self.old self.new }
    {
        for k in 0..words.len() {
            words[k] = self.load(
                guest,
                Place {
                    page: place.page,
                    word: place.word + k as u32,
                },
            );
        }
    }

    /// Changes the frames of a guest, counted from 0: the bytes are written to a page, from the offset
    /// on, before the load that comes after `delay` further loads of this guest. The bytes and the
    /// offset are multiples of four, and the bytes end in the page.
    fn store(&mut self, guest: u32, delay: u16, page: u32, offset: u32, bytes: &[u8])
        requires guest { guest < guests self.old }
        requires page { page < pages self.old }
        requires offset { offset % 4 ≡ 0 }
        requires whole { length bytes.now % 4 ≡ 0 }
        requires some { 4 ≤ length bytes.now }
        requires end { offset + length bytes.now ≤ PAGE_BYTES }
        ensures after { state self.new guest ≡ store_of (state self.old guest) delay page offset bytes.now }
        ensures alone { ChangesFrames guests pages state guest self.old self.new };
}
