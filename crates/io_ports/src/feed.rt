// Where the items of a run come from.
ghost use Rattle.std.specs.Prelude.{◌≡◌, ◌≤◌, ℕ, length, Option, IfOk, IsErrOf};
ghost use Rattle.desk_laws.specs.Items.{FitsItem};
ghost use Rattle.desk_laws.specs.Frames.{counted};
ghost use Rattle.desk_laws.specs.declared.limits.TheConstants.{MAX_PIECE};
ghost use Rattle.io_ports.specs.Content.{Told};
ghost use Rattle.io_ports.specs.Counts.{Rose};
ghost use Rattle.io_ports.specs.Feeds.{Answer, Coming, ComesNext, answer_of, given_after};

use desk_laws::Item;

/// What is wrong with a record where a fault stands. The record is this project's own format.
#[derive(Clone, Copy, Debug, PartialEq, Eq)]
pub enum RecordKind {
    /// It doesn't begin with the four bytes of a record.
    Magic,
    /// No item begins with this byte here.
    Kind,
    /// A field is out of its range.
    Range,
    /// The bytes end within an item, or where one is due.
    Short,
}

/// A fault of a record, and where it stands.
#[derive(Clone, Copy, Debug, PartialEq, Eq)]
pub struct RecordFault {
    /// The offset in bytes, from the record's beginning, of the item where the fault stands.
    pub offset: u64,
    /// What is wrong there.
    pub kind: RecordKind,
}

/// Why a feed gives no item.
#[derive(Clone, Copy, Debug, PartialEq, Eq)]
pub enum FeedFault {
    /// Where it takes its items from failed.
    Failed,
    /// Its items end in this fault.
    Bad(RecordFault),
}

/// An item, and how many bytes come with it.
#[derive(Clone, Copy, Debug, PartialEq, Eq)]
pub struct Next {
    /// The item.
    pub item: Item,
    /// The number of bytes at the front of the room that come with it.
    pub len: usize,
}

/// Where the items of a run come from.
pub trait Feed {
    /// The number of guests that its items speak of.
    ghost guests: { Self → ℕ };

    /// The number of pages that each of these guests has.
    ghost pages: { Self → ℕ };

    /// The items still to come, and what they end in, where they are told.
    ghost left: { Self → Option Coming };

    /// How many items it has given, End and Idle among them: a count that stays at 2 ^ 64 - 1.
    ghost given: { Self → ℕ };

    /// How often it has failed: a count that never falls, and stays at 2 ^ 64 - 1.
    ghost faults: { Self → ℕ };

    /// The feed before a call, what the call answered, and the feed after it.
    ghost gives: { Self → Answer → Self → Type 0 };

    /// Gives the next item, and puts the bytes that come with it into the front of the room, which
    /// has at least `MAX_PIECE` bytes. The item is in range for the feed's guests and pages. Only Bytes
    /// and Store come with bytes. Where no item is left and the items end well it gives End.
    ///
    /// Failed only where the count of faults rose. Bad exactly where no item is left and the items
    /// end in this fault; it stays so.
    fn next(&mut self, room: &mut [u8]) -> Result<Next, FeedFault>
        requires room { MAX_PIECE ≤ length room.old }
        ensures gives { gives self.old (answer_of result room.new) self.new }
        ensures range { IfOk result (λ n. FitsItem (guests self.old) (pages self.old) n.item n.len) }
        ensures coming { Told (left self.old) (λ coming. ComesNext coming (answer_of result room.new) (left self.new)) }
        ensures given { given self.new ≡ given_after result (given self.old) }
        ensures guests { guests self.new ≡ guests self.old }
        ensures pages { pages self.new ≡ pages self.old }
        ensures later { faults self.old ≤ faults self.new }
        ensures failed { IsErrOf result FeedFault.Failed → Rose (faults self.old) (faults self.new) };
}
