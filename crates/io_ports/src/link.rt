// Where the replies to guests are sent.
ghost use Rattle.std.specs.Prelude.{◌≡◌, ◌<◌, ℕ, List, length, Option, ⊤};
ghost use Rattle.io_ports.specs.Links.{Sends};

/// A send that failed.
#[derive(Clone, Copy, Debug, PartialEq, Eq)]
pub struct SendFailed {
    /// How many of the bytes were sent: those at the front, and not all.
    pub sent: usize,
}

/// Where the replies to guests are sent.
pub trait Link {
    /// The number of guests, which are counted from 0.
    ghost guests: { Self → ℕ };

    /// What each guest was sent, where that is told.
    ghost sent: { Self → ℕ → Option (List ℕ) };

    /// How often a send to each guest failed: counts that never fall, and stay at 2 ^ 64 - 1.
    ghost send_faults: { Self → ℕ → ℕ };

    /// What each send leaves as it was, from the link before it to the one after it.
    ghost keeps: { Self → Self → Type 0 } = { λ _ _. ⊤ };

    /// Sends the bytes, of which there is at least one, to this guest, behind what it was sent before. What
    /// others were sent stays.
    ///
    /// `SendFailed` only where this guest's count of faults rose. It tells how many of the bytes were sent
    /// all the same.
    fn send(&mut self, guest: u32, bytes: &[u8]) -> Result<(), SendFailed>
        requires guest { guest < guests self.old }
        requires some { 0 < length bytes.now }
        ensures sends { Sends guest bytes.now result (record { sent = sent self.old; faults = send_faults self.old }) (record { sent = sent self.new; faults = send_faults self.new }) }
        ensures guests { guests self.new ≡ guests self.old }
        ensures keeps { keeps self.old self.new };

    /// Without a call all is kept.
    ghost keeps_same: { (a : Self) → keeps a a };

    /// What each of two calls keeps, both keep.
    ghost keeps_on: { (a b c : Self) → keeps a b → keeps b c → keeps a c };
}
