// A feed of items and a link to guests that are one thing, such as the sockets of a live desk.
ghost use Rattle.std.specs.Prelude.{◌≡◌, ◌≤◌, ℕ, Option, is_ok, IsErrOf};
ghost use Rattle.io_ports.specs.Counts.{Rose};
ghost use Rattle.io_ports.specs.Feeds.{Answer};
ghost use Rattle.io_ports.specs.Starts.{Starts, Begins};
ghost use Rattle.io_ports.specs.Wires.{StartsFor, SameFeed};

use crate::{Feed, Link, StartFault};
use desk_laws::Setup;

/// A feed of items and a link to guests that are one thing.
///
/// What is given sends nothing, and what is sent gives nothing.
pub trait Wire: Feed + Link {
    /// The folders of all starts and that of the last one that succeeded, where they are told.
    ghost starts: { Self → Option Starts };

    /// Starts the wire in this folder for the guests of this setup. It gives no item and sends nothing.
    ///
    /// Failed only where the feed's count of faults rose. `NoMemory` where there is no memory for it. The
    /// feed is then as it was.
    fn start(&mut self, dir: &str, setup: &Setup) -> Result<(), StartFault>
        ensures begins { Begins (starts self.old) dir.now (is_ok result) (starts self.new) }
        ensures supply { StartsFor setup.now result
            (record { guests = Self.Feed.guests self.old; pages = Self.pages self.old; left = Self.left self.old })
            (record { guests = Self.Feed.guests self.new; pages = Self.pages self.new; left = Self.left self.new }) }
        ensures given { Self.given self.new ≡ Self.given self.old }
        ensures later { Self.faults self.old ≤ Self.faults self.new }
        ensures failed { IsErrOf result StartFault.Failed → Rose (Self.faults self.old) (Self.faults self.new) }
        ensures sent { (guest : ℕ) → Self.sent self.new guest ≡ Self.sent self.old guest }
        ensures send_faults { (guest : ℕ) → Self.send_faults self.new guest ≡ Self.send_faults self.old guest };

    /// The feed and the link speak of equally many guests.
    ghost one_number: { (a : Self) → Self.Link.guests a ≡ Self.Feed.guests a };

    /// A call of the feed sends nothing.
    ghost feeds_send_nothing: { (a b : Self) (answer : Answer) → Self.gives a answer b → (guest : ℕ) → Self.sent b guest ≡ Self.sent a guest };

    /// A call of the feed counts no failed send.
    ghost feeds_fail_no_send: { (a b : Self) (answer : Answer) → Self.gives a answer b → (guest : ℕ) → Self.send_faults b guest ≡ Self.send_faults a guest };

    /// A call of the feed starts nothing.
    ghost feeds_start_nothing: { (a b : Self) (answer : Answer) → Self.gives a answer b → starts b ≡ starts a };

    /// A send leaves the items, their fate, the counts and the numbers of the feed.
    ghost sends_feed_nothing: { (a b : Self) → Self.Link.keeps a b → SameFeed
        (record { guests = Self.Feed.guests a; pages = Self.pages a; left = Self.left a }) (Self.given a) (Self.faults a)
        (record { guests = Self.Feed.guests b; pages = Self.pages b; left = Self.left b }) (Self.given b) (Self.faults b) };

    /// A send starts nothing.
    ghost sends_start_nothing: { (a b : Self) → Self.Link.keeps a b → starts b ≡ starts a };
}
