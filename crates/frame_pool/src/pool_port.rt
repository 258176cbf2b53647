// Frames in memory.
ghost use Rattle.std.specs.Prelude.{◌≡◌, ℕ, ◌+◌, ◌<◌, ◌≤◌, ◌%◌, length, replicate, slice_index_or, IfOk};
ghost use Rattle.desk_laws.specs.Frames.{load as load_of, store as store_of};
ghost use Rattle.frame_pool.specs.Ports.{AreZeros, fresh, no_frames};
ghost use Rattle.frame_pool.specs.Runs.{run_of};

use crate::frames::Frames;
use crate::{FramePort, Place};
use gui_num::NoMemory;
use std::alloc::Global;
use std::marker::Model;

/// The frames of some guests in memory, all zero when made.
///
/// A store with a delay waits, unless `MAX_WAITING_STORES` of its guest wait already. It is written before the
/// first load of its guest for which so many loads of the guest went before as there were at the
/// store, and `delay` more; stores that are due together are written in the order of their due
/// loads, and then in that in which they came. Any other store is written at once, after those that
/// are due. The count of loads stays at 2^64 - 1.
#[derive(Drop)]
pub struct PoolPort {
    frames: Vec<Frames>,
    pages: u32,
}

impl Model for PoolPort {
    ghost use Rattle.frame_pool.specs.Ports.{PoolsView, AllHave};

    ghost Value = { PoolsView };

    ghost view = { λ p. record { pages = p.pages; pools = p.frames.items } };

    ghost invariant = { λ p. AllHave p.pages p.frames.items };
}

impl PoolPort {
    /// Zero words, for so many guests of so many pages. `NoMemory` where there is no memory for them
    /// and for `MAX_WAITING_STORES` waiting stores of a page each for each guest; no later call takes any.
    pub fn new(alloc: Global, guests: u32, pages: u32) -> Result<PoolPort, NoMemory>
        ensures made { IfOk result (λ port. port ≡ record { pages = pages; pools = replicate guests (record { pages = pages; state = fresh pages }) }) }
        ensures zeros { IfOk result (λ port. AreZeros (length port.pools) port.pages (λ guest. (slice_index_or port.pools guest no_frames).state)) }
    {
        let mut frames = Vec::with_capacity(alloc, guests as usize)?;
        for _ in 0..guests {
            frames.push_reserved(Frames::new(alloc, pages)?);
        }
        Ok(PoolPort { frames, pages })
    }
}

impl FramePort for PoolPort {
    ghost guests = { λ p. length p.pools };

    ghost pages = { λ p. p.pages };

    ghost state = { λ p guest. (slice_index_or p.pools guest no_frames).state };

    fn load(&mut self, guest: u32, place: Place) -> u32 {
        self.frames[guest as usize].load(place)
    }

    fn load_run(&mut self, guest: u32, place: Place, words: &mut [u32]) {
        self.frames[guest as usize].load_run(place, words);
    }

    fn store(&mut self, guest: u32, delay: u16, page: u32, offset: u32, bytes: &[u8]) {
        self.frames[guest as usize].store(delay, page, offset, bytes);
    }
}
