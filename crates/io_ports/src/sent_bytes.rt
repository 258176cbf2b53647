// What each guest was sent, kept in memory: what the link of a wire in memory is made of.
ghost use Rattle.std.specs.Prelude.{◌≡◌, ℕ, ◌<◌, ◌≤◌, [], length, IfOk, OnErr};
ghost use Rattle.io_ports.specs.Memory.{KeepsMore};
ghost use Rattle.io_ports.specs.MemWires.{sent_to};

use crate::kept::KeptBytes;
use gui_num::NoMemory;
use std::alloc::Global;
use std::marker::Model;

// Guests are only added, so that what one was sent is never forgotten.
#[derive(Drop)]
pub struct SentBytes {
    alloc: Global,
    guests: Vec<KeptBytes>,
}

impl Model for SentBytes {
    ghost use Rattle.std.specs.Prelude.{ℕ, List};
    ghost use Rattle.io_ports.specs.Memory.{Kept};

    ghost Value = { List (Kept ℕ) };

    ghost view = { λ s. s.guests.items };
}

impl SentBytes {
    /// No guest yet. It takes no memory.
    pub fn new(alloc: Global) -> Self
        ensures { result ≡ [] }
    {
        SentBytes {
            alloc,
            guests: Vec::new(alloc),
        }
    }

    /// Makes room for so many guests in all. `NoMemory` where there is none for those that are added. What
    /// was sent stays in either case.
    #[tactic(auto, using(crate::proofs::WireLemmas::default_behind))]
    pub fn cover(&mut self, guests: usize) -> Result<(), NoMemory>
        ensures room { IfOk result (λ _. guests ≤ length self.new) }
        ensures full { OnErr result (length self.old < guests) }
        ensures grows { length self.old ≤ length self.new }
        ensures same { (guest : ℕ) → sent_to self.new guest ≡ sent_to self.old guest }
    {
        while self.guests.len() < guests {
            self.guests.push(KeptBytes::new(self.alloc))?;
        }
        Ok(())
    }

    /// Keeps these bytes behind what this guest was sent.
    pub fn keep(&mut self, guest: u32, bytes: &[u8])
        requires { guest < length self.old }
        ensures kept { KeepsMore (sent_to self.old guest) bytes.now (sent_to self.new guest) }
        ensures others { (other : ℕ) → (other ≡ guest → ⊥) → sent_to self.new other ≡ sent_to self.old other }
        ensures length { length self.new ≡ length self.old }
    {
        self.guests[guest as usize].keep(bytes);
    }

    /// What this guest was sent, as far as there was memory to keep it.
    pub fn bytes(&self, guest: u32) -> &[u8]
        requires { guest < length self.now }
        ensures { result.now ≡ (sent_to self.now guest).items }
    {
        self.guests[guest as usize].bytes()
    }
}
