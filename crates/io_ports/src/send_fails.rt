// Sends that are to fail, by their guests and numbers.
ghost use Rattle.std.specs.Prelude.{◌≡◌, ℕ, ◌<◌, ◌≤◌, ◌-◌, min, [], length, IfOk, IfSome, OnErr, option_map, is_some};
ghost use Rattle.io_ports.specs.Counts.{Rose, one_more, faults_after};
ghost use Rattle.io_ports.specs.MemWires.{counts_of, entry_for, next_entry, part_of};

use gui_num::NoMemory;
use std::alloc::Global;
use std::marker::Model;

/// A send that is to fail.
#[derive(Clone, Copy, Debug, PartialEq, Eq)]
pub struct SendFail {
    /// The guest that it goes to, counted from 0.
    pub guest: u32,
    /// Which of the sends to this guest it is, counted from 1, failing ones too.
    pub nth: u64,
    /// How many of its bytes are sent all the same: at most all but one.
    pub sent: usize,
}

// How many sends to a guest there were, and how many of them failed.
#[derive(Clone, Copy, Debug, PartialEq, Eq)]
pub struct SendCounts {
    sends: u64,
    faults: u64,
}

// The sends that are to fail, and the counts of each guest so far.
#[derive(Drop)]
pub struct SendFails {
    entries: Vec<SendFail>,
    counts: Vec<SendCounts>,
}

impl Model for SendFails {
    ghost use Rattle.io_ports.specs.MemWires.{SendPlan};

    ghost Value = { SendPlan };

    ghost view = { λ f. record { entries = f.entries.items; counts = f.counts.items } };
}

impl SendFails {
    /// These sends are to fail, and there is no guest yet. `NoMemory` where there is none to keep the entries.
    pub fn new(alloc: Global, entries: &[SendFail]) -> Result<Self, NoMemory>
        ensures { IfOk result (λ f. f ≡ record { entries = entries.now; counts = [] }) }
    {
        Ok(SendFails {
            entries: entries.to_vec(alloc)?,
            counts: Vec::new(alloc),
        })
    }

    /// Makes room for so many guests in all. `NoMemory` where there is none for those that are added. The
    /// counts stay in either case.
    #[tactic(auto, using(crate::proofs::WireLemmas::default_behind))]
    pub fn cover(&mut self, guests: usize) -> Result<(), NoMemory>
        ensures room { IfOk result (λ _. guests ≤ length self.new.counts) }
        ensures full { OnErr result (length self.old.counts < guests) }
        ensures grows { length self.old.counts ≤ length self.new.counts }
        ensures same { (guest : ℕ) → counts_of self.new.counts guest ≡ counts_of self.old.counts guest }
        ensures entries { self.new.entries ≡ self.old.entries }
    {
        while self.counts.len() < guests {
            self.counts.push(SendCounts {
                sends: 0,
                faults: 0,
            })?;
        }
        Ok(())
    }

    /// Counts a send of so many bytes to this guest, and answers how many of them are sent where it fails.
    pub fn next(&mut self, guest: u32, len: usize) -> Option<usize>
        requires guest { guest < length self.old.counts }
        requires some { 0 < len }
        ensures part { result ≡ option_map (part_of len) (next_entry self.old guest) }
        ensures counts { counts_of self.new.counts guest ≡ record { sends = one_more (counts_of self.old.counts guest).sends; faults = faults_after (is_some result) (counts_of self.old.counts guest).faults } }
        ensures less { IfSome result (λ sent. sent < len) }
        ensures later { (counts_of self.old.counts guest).faults ≤ (counts_of self.new.counts guest).faults }
        ensures rose { IfSome result (λ _. Rose (counts_of self.old.counts guest).faults (counts_of self.new.counts guest).faults) }
        ensures others { (other : ℕ) → (other ≡ guest → ⊥) → counts_of self.new.counts other ≡ counts_of self.old.counts other }
        ensures entries { self.new.entries ≡ self.old.entries }
        ensures length { length self.new.counts ≡ length self.old.counts }
    {
        let counts = &mut self.counts[guest as usize];
        counts.sends = counts.sends.saturating_add(1);
        let entry = first_for(&self.entries, guest, counts.sends)?;
        counts.faults = counts.faults.saturating_add(1);
        Some(entry.sent.min(len - 1))
    }
}

// The first entry for the send with this number to this guest.
fn first_for(entries: &[SendFail], guest: u32, nth: u64) -> Option<SendFail>
    ensures { result ≡ entry_for entries.now guest nth }
{
    entries
        .iter()
        .copied()
        .find(|entry| entry.guest == guest && entry.nth == nth)
}
