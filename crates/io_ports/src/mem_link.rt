// What guests were sent, and which sends to them fail: what the link of a failing wire in memory is made of.
ghost use Rattle.std.specs.Prelude.{◌≡◌, ℕ, ◌<◌, [], length, IfOk, OnErr, is_err, option_map};
ghost use Rattle.io_ports.specs.Counts.{one_more, faults_after};
ghost use Rattle.io_ports.specs.Links.{Sends};
ghost use Rattle.io_ports.specs.Memory.{KeepsMore};
ghost use Rattle.io_ports.specs.MemWires.{HasRoom, LeavesOtherGuests, SameLink, bytes_sent, counts_of, next_entry, part_of, part_sent, sent_to, traffic_of};

use crate::SendFailed;
use crate::send_fails::{SendFail, SendFails};
use crate::sent_bytes::SentBytes;
use gui_num::NoMemory;
use std::alloc::Global;
use std::marker::Model;

// Contracts see what each guest was sent, the sends that fail, and the counts.
#[derive(Drop)]
pub struct MemLink {
    sent: SentBytes,
    fails: SendFails,
}

impl Model for MemLink {
    ghost use Rattle.io_ports.specs.MemWires.{MemLinkView};

    ghost Value = { MemLinkView };

    ghost view = { λ l. record { sent = l.sent; plan = l.fails } };
}

impl MemLink {
    /// Nothing was sent, there is no guest yet, and these sends are to fail. `NoMemory` where there is none
    /// to keep them.
    pub fn new(alloc: Global, fails: &[SendFail]) -> Result<Self, NoMemory>
        ensures { IfOk result (λ l. l ≡ record { sent = []; plan = record { entries = fails.now; counts = [] } }) }
    {
        Ok(MemLink {
            sent: SentBytes::new(alloc),
            fails: SendFails::new(alloc, fails)?,
        })
    }

    /// Makes room for so many guests in all. `NoMemory` where there is none for those that are added. What
    /// was sent and the counts stay in either case.
    pub fn cover(&mut self, guests: usize) -> Result<(), NoMemory>
        ensures room { IfOk result (λ _. HasRoom guests self.new) }
        ensures full { OnErr result (HasRoom guests self.old → ⊥) }
        ensures grows { (n : ℕ) → HasRoom n self.old → HasRoom n self.new }
        ensures same { SameLink self.old self.new }
    {
        self.fails.cover(guests)?;
        self.sent.cover(guests)
    }

    /// Sends the bytes to this guest, or a part of them where that is to fail.
    pub fn send(&mut self, guest: u32, bytes: &[u8]) -> Result<(), SendFailed>
        requires sent { guest < length self.old.sent }
        requires counts { guest < length self.old.plan.counts }
        requires some { 0 < length bytes.now }
        ensures sends { Sends guest bytes.now result (traffic_of self.old) (traffic_of self.new) }
        ensures part { part_sent result ≡ option_map (part_of (length bytes.now)) (next_entry self.old.plan guest) }
        ensures kept { KeepsMore (sent_to self.old.sent guest) (bytes_sent result bytes.now) (sent_to self.new.sent guest) }
        ensures counts { counts_of self.new.plan.counts guest ≡ record { sends = one_more (counts_of self.old.plan.counts guest).sends; faults = faults_after (is_err result) (counts_of self.old.plan.counts guest).faults } }
        ensures entries { self.new.plan.entries ≡ self.old.plan.entries }
        ensures others { LeavesOtherGuests guest self.old self.new }
        ensures room { (n : ℕ) → HasRoom n self.old → HasRoom n self.new }
    {
        match self.fails.next(guest, bytes.len()) {
            Some(sent) => {
                self.sent.keep(guest, &bytes[..sent]);
                Err(SendFailed { sent })
            }
            None => {
                self.sent.keep(guest, bytes);
                Ok(())
            }
        }
    }

    /// What this guest was sent, as far as there was memory to keep it.
    pub fn bytes(&self, guest: u32) -> &[u8]
        requires { guest < length self.now.sent }
        ensures { result.now ≡ (sent_to self.now.sent guest).items }
    {
        self.sent.bytes(guest)
    }
}
