// A wire in memory that never fails.
ghost use Rattle.std.specs.Prelude.{◌≡◌, ℕ, ◌<◌, ◌≤◌, All, length, sum_by, Option, Some, IfOk, OnErr, IsOk, IsErrOf, is_ok, refl};
ghost use Rattle.std.proofs.Common.{◌∙◌, ap};
ghost use Rattle.desk_laws.specs.Items.{FitsItem};
ghost use Rattle.desk_laws.specs.declared.limits.TheConstants.{MAX_PIECE};
ghost use Rattle.io_ports.specs.Content.{Told};
ghost use Rattle.io_ports.specs.Counts.{Rose};
ghost use Rattle.io_ports.specs.Feeds.{ComesNext, answer_of, given_after};
ghost use Rattle.io_ports.specs.Links.{Sends};
ghost use Rattle.io_ports.specs.Memory.{KeepsMore, none_kept};
ghost use Rattle.io_ports.specs.MemWires.{held_feed, no_faults, sent_to, told_to};
ghost use Rattle.io_ports.specs.Starts.{Begins, none_started};
ghost use Rattle.io_ports.specs.Wires.{StartsFor};

use crate::held_items::HeldItems;
use crate::kept_starts::KeptStarts;
use crate::sent_bytes::SentBytes;
use crate::{Feed, FeedFault, Link, Next, RecordFault, SendFailed, StartFault, Wire};
use desk_laws::Setup;
use gui_num::NoMemory;
use std::alloc::Global;
use std::marker::Model;

/// A wire in memory whose calls and sends never fail.
///
/// It gives its items in order, and keeps what guests were sent and the folders of its starts. Once it found
/// no memory to keep some of it, it answers as before, and no longer tells what this guest was sent, or its
/// starts. A start for more guests than it ever had needs memory for them. Contracts see its feed, what each
/// guest was sent, and the starts that it tells.
#[derive(Drop)]
pub struct SureWire {
    feed: HeldItems,
    sent: SentBytes,
    starts: KeptStarts,
}

impl Model for SureWire {
    ghost use Rattle.std.specs.Prelude.{◌≤◌, length};
    ghost use Rattle.io_ports.specs.MemWires.{SureWireView};

    ghost Value = { SureWireView };

    ghost view = { λ w. record { feed = w.feed; sent = w.sent; starts = w.starts } };

    ghost invariant = { λ w. w.feed.guests ≤ length w.sent };
}

impl SureWire {
    /// A wire for so many guests with so many pages each, which gives these items and then ends in this
    /// fault, or well. `pieces` has the bytes of all items, one after another. Its only error is that there is
    /// no memory.
    pub fn new(
        alloc: Global,
        guests: u32,
        pages: u32,
        items: &[Next],
        pieces: &[u8],
        fate: Option<RecordFault>,
    ) -> Result<Self, NoMemory>
        requires items { All (λ next. FitsItem guests pages next.item next.len) items.now }
        requires pieces { sum_by (λ next. next.len) items.now ≡ length pieces.now }
        ensures feed { IfOk result (λ w. w.feed ≡ held_feed guests pages items.now pieces.now fate) }
        ensures sent { IfOk result (λ w. (guest : ℕ) → sent_to w.sent guest ≡ none_kept) }
        ensures starts { IfOk result (λ w. w.starts ≡ Some none_started) }
    {
        let guests = guests as usize;
        let mut sent = SentBytes::new(alloc);
        sent.cover(guests)?;
        Ok(SureWire {
            feed: HeldItems::new(alloc, guests, pages, items, pieces, fate)?,
            sent,
            starts: KeptStarts::new(alloc),
        })
    }

    /// The bytes that this guest, counted from 0, was sent: all of them, unless it found no memory for some.
    pub fn sent(&self, guest: u32) -> &[u8]
        requires { guest < self.now.feed.guests }
        ensures { result.now ≡ (sent_to self.now.sent guest).items }
    {
        self.sent.bytes(guest)
    }

    // Starts the feed, with room for what its guests will be sent.
    fn begin(&mut self, setup: &Setup) -> Result<(), StartFault>
        ensures supply { StartsFor setup.now result
            (record { guests = self.old.feed.guests; pages = self.old.feed.pages; left = Some self.old.feed.left })
            (record { guests = self.new.feed.guests; pages = self.new.feed.pages; left = Some self.new.feed.left }) }
        ensures given { self.new.feed.given ≡ self.old.feed.given }
        ensures sent { (guest : ℕ) → sent_to self.new.sent guest ≡ sent_to self.old.sent guest }
        ensures sure { IsErrOf result StartFault.Failed → ⊥ }
        ensures memory { IsErrOf result StartFault.NoMemory → length self.old.sent < length setup.now.guests }
        ensures starts { self.new.starts ≡ self.old.starts }
    {
        let guests = setup.guests.items().len();
        if self.sent.cover(guests).is_err() {
            return Err(StartFault::NoMemory);
        }
        self.feed.restart(guests, setup.pages);
        Ok(())
    }
}

impl Feed for SureWire {
    ghost guests = { λ w. w.feed.guests };

    ghost pages = { λ w. w.feed.pages };

    ghost left = { λ w. Some w.feed.left };

    ghost given = { λ w. w.feed.given };

    ghost faults = { λ _. 0 };

    ghost gives = { λ a answer b. (b.sent ≡ a.sent) × (b.starts ≡ a.starts) };

    fn next(&mut self, room: &mut [u8]) -> Result<Next, FeedFault>
        requires room { MAX_PIECE ≤ length room.old }
        ensures gives { (self.new.sent ≡ self.old.sent) × (self.new.starts ≡ self.old.starts) }
        ensures range { IfOk result (λ n. FitsItem self.old.feed.guests self.old.feed.pages n.item n.len) }
        ensures coming { Told (Some self.old.feed.left) (λ coming. ComesNext coming (answer_of result room.new) (Some self.new.feed.left)) }
        ensures given { self.new.feed.given ≡ given_after result self.old.feed.given }
        ensures guests { self.new.feed.guests ≡ self.old.feed.guests }
        ensures pages { self.new.feed.pages ≡ self.old.feed.pages }
        ensures later { 0 ≤ 0 }
        ensures failed { IsErrOf result FeedFault.Failed → Rose 0 0 }

        // It never fails.
        ensures sure { IsErrOf result FeedFault.Failed → ⊥ }
        ensures untouched { OnErr result (room.new ≡ room.old) }
    {
        self.feed.next(room)
    }
}

impl Link for SureWire {
    ghost guests = { λ w. w.feed.guests };

    ghost sent = { λ w guest. told_to w.sent guest };

    ghost send_faults = { λ _ guest. no_faults guest };

    ghost keeps = { λ a b. (b.feed ≡ a.feed) × (b.starts ≡ a.starts) };

    ghost keeps_same = { λ _. (refl, refl) };

    ghost keeps_on = { λ a b c first next. (next.0 ∙ first.0, next.1 ∙ first.1) };

    fn send(&mut self, guest: u32, bytes: &[u8]) -> Result<(), SendFailed>
        requires guest { guest < self.old.feed.guests }
        requires some { 0 < length bytes.now }
        ensures sends { Sends guest bytes.now result (record { sent = told_to self.old.sent; faults = no_faults }) (record { sent = told_to self.new.sent; faults = no_faults }) }
        ensures guests { self.new.feed.guests ≡ self.old.feed.guests }
        ensures keeps { (self.new.feed ≡ self.old.feed) × (self.new.starts ≡ self.old.starts) }

        // It never fails.
        ensures sure { IsOk result }
        ensures kept { KeepsMore (sent_to self.old.sent guest) bytes.now (sent_to self.new.sent guest) }
        ensures others { (other : ℕ) → (other ≡ guest → ⊥) → sent_to self.new.sent other ≡ sent_to self.old.sent other }
    {
        self.sent.keep(guest, bytes);
        Ok(())
    }
}

impl Wire for SureWire {
    ghost starts = { λ w. w.starts };

    ghost one_number = { λ _. refl };

    ghost feeds_send_nothing = { λ a b answer gives guest. ap (λ sent. told_to sent guest) gives.0 };

    ghost feeds_fail_no_send = { λ a b answer gives guest. refl };

    ghost feeds_start_nothing = { λ a b answer gives. gives.1 };

    ghost sends_feed_nothing = { λ a b kept. record {
      same_supply = ap (λ feed. record { guests = feed.guests; pages = feed.pages; left = Some feed.left }) kept.0;
      same_given = ap (λ feed. feed.given) kept.0;
      same_faults = refl;
    } };

    ghost sends_start_nothing = { λ a b kept. kept.1 };

    fn start(&mut self, dir: &str, setup: &Setup) -> Result<(), StartFault>
        ensures begins { Begins self.old.starts dir.now (is_ok result) self.new.starts }
        ensures supply { StartsFor setup.now result
            (record { guests = self.old.feed.guests; pages = self.old.feed.pages; left = Some self.old.feed.left })
            (record { guests = self.new.feed.guests; pages = self.new.feed.pages; left = Some self.new.feed.left }) }
        ensures given { self.new.feed.given ≡ self.old.feed.given }
        ensures later { 0 ≤ 0 }
        ensures failed { IsErrOf result StartFault.Failed → Rose 0 0 }
        ensures sent { (guest : ℕ) → told_to self.new.sent guest ≡ told_to self.old.sent guest }
        ensures send_faults { (guest : ℕ) → no_faults guest ≡ no_faults guest }

        // It never fails. There is always memory for as many guests as it had before.
        ensures sure { IsErrOf result StartFault.Failed → ⊥ }
        ensures memory { IsErrOf result StartFault.NoMemory → length self.old.sent < length setup.now.guests }
        ensures kept { (guest : ℕ) → sent_to self.new.sent guest ≡ sent_to self.old.sent guest }
    {
        let result = self.begin(setup);
        self.starts.keep(dir.as_bytes(), result.is_ok());
        result
    }
}
