// The links to guests: which of them still take replies.
ghost use Rattle.std.specs.Prelude.{◌≡◌, ◌<◌, ◌^◌, ℕ, [], length, replicate, slice_set, ◌==◌, if◌then◌else◌, IfOk, MatchOption};
ghost use Rattle.reply_links.specs.Sends.{LinksSend, link_at};

use gui_num::NoMemory;
use io_ports::Link;
use std::alloc::Global;
use std::marker::Model;

/// Whether a guest is still sent its replies.
#[derive(Clone, Copy, Debug, PartialEq, Eq)]
pub enum LinkState {
    /// It is.
    Open,
    /// A send to it failed: it is to be lost.
    Cut,
    /// It was lost.
    Lost,
}

/// The links to the guests of a desk, seen as the list of their states.
#[derive(Drop)]
pub struct Links {
    states: Vec<LinkState>,
}

impl Model for Links {
    ghost use Rattle.std.specs.Prelude.{List};
    ghost use Rattle.reply_links.specs.declared.links.LinkState.{LinkState};

    ghost Value = { List LinkState };

    ghost view = { λ l. l.states.items };
}

impl Links {
    /// An open link for each of so many guests. `NoMemory` where there is no memory for them.
    pub fn new(alloc: Global, guests: u32) -> Result<Self, NoMemory>
        ensures { IfOk result (λ l. l ≡ replicate guests LinkState.Open) }
    {
        Ok(Links {
            states: vec![in alloc; LinkState::Open; guests as usize]?,
        })
    }

    /// The state of the link to this guest, counted from 0; `Lost` where it has none.
    pub fn state(&self, guest: u32) -> LinkState
        ensures is { result ≡ link_at guest self.now }
        ensures known { result ≡ LinkState.Open → guest < length self.now }
    {
        match self.states.get(guest as usize) {
            Some(state) => *state,
            None => LinkState::Lost,
        }
    }

    /// Sends the bytes to this guest, counted from 0, where its link is open, and cuts the link where that fails. A guest
    /// that has no link is sent nothing, nor is anybody where there are no bytes. The wire has as many guests as there are links.
    pub fn send<W: Link>(&mut self, wire: &mut W, guest: u32, bytes: &[u8])
        requires { length self.old ≡ W.guests wire.old }
        ensures sends { LinksSend self.old self.new (λ g. if guest == g then bytes.now else [])
            (record { sent = W.sent wire.old; faults = W.send_faults wire.old }) (record { sent = W.sent wire.new; faults = W.send_faults wire.new }) }
        ensures links { length self.new ≡ length self.old }
        ensures guests { W.guests wire.new ≡ W.guests wire.old }
        ensures keeps { W.keeps wire.old wire.new }
    {
        if bytes.is_empty() {
            return;
        }
        if let LinkState::Open = self.state(guest) {
            match wire.send(guest, bytes) {
                Ok(()) => {}
                Err(_) => self.states[guest as usize] = LinkState::Cut,
            }
        }
    }

    /// The first guest, counted from 0, whose link is cut. None exactly where no link is.
    pub fn first_cut(&self) -> Option<u32>
        requires { length self.now < 2 ^ 32 }
        ensures { MatchOption result
            ((guest : ℕ) → guest < length self.now → link_at guest self.now ≡ LinkState.Cut → ⊥)
            (λ guest. (guest < length self.now) × (link_at guest self.now ≡ LinkState.Cut)) }
    {
        match self
            .states
            .iter()
            .position(|state| *state == LinkState::Cut)
        {
            Some(guest) => Some(guest as u32),
            None => None,
        }
    }

    /// Notes that a guest, counted from 0, was lost.
    pub fn lose(&mut self, guest: u32)
        requires { guest < length self.old }
        ensures { self.new ≡ slice_set self.old guest LinkState.Lost }
    {
        self.states[guest as usize] = LinkState::Lost;
    }
}
