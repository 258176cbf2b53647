// A wire in memory, with lists of the calls and of the sends that are to fail.
ghost use Rattle.std.specs.Prelude.{◌≡◌, ℕ, ◌<◌, ◌≤◌, ◌↔◌, All, length, sum_by, Option, Some, IfOk, OnErr, IsErrOf, is_err, is_ok, option_map, refl};
ghost use Rattle.std.proofs.Common.{◌∙◌, ap};
ghost use Rattle.desk_laws.specs.Items.{FitsItem};
ghost use Rattle.desk_laws.specs.declared.limits.TheConstants.{MAX_PIECE};
ghost use Rattle.io_ports.specs.Content.{Told};
ghost use Rattle.io_ports.specs.Counts.{Rose, faults_after, one_more};
ghost use Rattle.io_ports.specs.Feeds.{ComesNext, answer_of, given_after};
ghost use Rattle.io_ports.specs.Links.{Sends};
ghost use Rattle.io_ports.specs.Memory.{FailsNext, KeepsMore, failing_after, none_kept, to_fail};
ghost use Rattle.io_ports.specs.MemWires.{HasRoom, LeavesOtherGuests, SameLink, bytes_sent, counts_of, has_failed, held_feed, next_entry, no_sends, part_of, part_sent, sent_to, start_failed, told_to, traffic_of};
ghost use Rattle.io_ports.specs.Starts.{Begins, none_started};
ghost use Rattle.io_ports.specs.Wires.{StartsFor};

use crate::fails::Fails;
use crate::held_items::HeldItems;
use crate::kept_starts::KeptStarts;
use crate::mem_link::MemLink;
use crate::{Feed, FeedFault, Link, Next, RecordFault, SendFail, SendFailed, StartFault, Wire};
use desk_laws::Setup;
use gui_num::NoMemory;
use std::alloc::Global;
use std::marker::Model;

/// A wire in memory, some of whose calls and sends fail.
///
/// It gives its items in order, and keeps what guests were sent and the folders of its starts. Once it found
/// no memory to keep some of it, it answers as before, and no longer tells what this guest was sent, or its
/// starts. A start for more guests than it ever had needs memory for them. Contracts see its feed, the calls
/// that fail, what each guest was sent, the sends that fail, and the starts that it tells.
#[derive(Drop)]
pub struct MemWire {
    feed: HeldItems,
    fails: Fails,
    link: MemLink,
    starts: KeptStarts,
}

impl Model for MemWire {
    ghost use Rattle.io_ports.specs.MemWires.{HasRoom, MemWireView};

    ghost Value = { MemWireView };

    ghost view = { λ w. record { feed = w.feed; failing = w.fails; link = w.link; starts = w.starts } };

    ghost invariant = { λ w. HasRoom w.feed.guests w.link };
}

impl MemWire {
    /// A wire for so many guests with so many pages each, which gives these items and then ends in this
    /// fault, or well. `pieces` has the bytes of all items, one after another.
    ///
    /// `fails` has the numbers of the calls of `next` and `start` that fail, counted together from 1. `sends` has
    /// the sends that fail; of several for one send the first holds. Its only error is that there is no memory.
    pub fn new(
        alloc: Global,
        guests: u32,
        pages: u32,
        items: &[Next],
        pieces: &[u8],
        fate: Option<RecordFault>,
        fails: &[u64],
        sends: &[SendFail],
    ) -> Result<Self, NoMemory>
        requires items { All (λ next. FitsItem guests pages next.item next.len) items.now }
        requires pieces { sum_by (λ next. next.len) items.now ≡ length pieces.now }
        ensures feed { IfOk result (λ w. w.feed ≡ held_feed guests pages items.now pieces.now fate) }
        ensures fails { IfOk result (λ w. w.failing ≡ to_fail fails.now) }
        ensures sends { IfOk result (λ w. w.link.plan.entries ≡ sends.now) }
        ensures counts { IfOk result (λ w. (guest : ℕ) → counts_of w.link.plan.counts guest ≡ no_sends) }
        ensures sent { IfOk result (λ w. (guest : ℕ) → sent_to w.link.sent guest ≡ none_kept) }
        ensures starts { IfOk result (λ w. w.starts ≡ Some none_started) }
    {
        let guests = guests as usize;
        let mut link = MemLink::new(alloc, sends)?;
        link.cover(guests)?;
        Ok(MemWire {
            feed: HeldItems::new(alloc, guests, pages, items, pieces, fate)?,
            fails: Fails::new(alloc, fails)?,
            link,
            starts: KeptStarts::new(alloc),
        })
    }

    /// The bytes that this guest, counted from 0, was sent: all of them, unless it found no memory for some.
    pub fn sent(&self, guest: u32) -> &[u8]
        requires { guest < self.now.feed.guests }
        ensures { result.now ≡ (sent_to self.now.link.sent guest).items }
    {
        self.link.bytes(guest)
    }

    // Starts the feed and the link.
    fn begin(&mut self, setup: &Setup) -> Result<(), StartFault>
        ensures supply { StartsFor setup.now result
            (record { guests = self.old.feed.guests; pages = self.old.feed.pages; left = Some self.old.feed.left })
            (record { guests = self.new.feed.guests; pages = self.new.feed.pages; left = Some self.new.feed.left }) }
        ensures given { self.new.feed.given ≡ self.old.feed.given }
        ensures later { self.old.failing.faults ≤ self.new.failing.faults }
        ensures failed { IsErrOf result StartFault.Failed → Rose self.old.failing.faults self.new.failing.faults }
        ensures fails { IsErrOf result StartFault.Failed ↔ FailsNext self.old.failing }
        ensures counts { self.new.failing ≡ failing_after (start_failed result) self.old.failing }
        ensures link { SameLink self.old.link self.new.link }
        ensures memory { IsErrOf result StartFault.NoMemory → HasRoom (length setup.now.guests) self.old.link → ⊥ }
        ensures starts { self.new.starts ≡ self.old.starts }
    {
        if self.fails.next() {
            return Err(StartFault::Failed);
        }
        let guests = setup.guests.items().len();
        if self.link.cover(guests).is_err() {
            return Err(StartFault::NoMemory);
        }
        self.feed.restart(guests, setup.pages);
        Ok(())
    }
}

impl Feed for MemWire {
    ghost guests = { λ w. w.feed.guests };

    ghost pages = { λ w. w.feed.pages };

    ghost left = { λ w. Some w.feed.left };

    ghost given = { λ w. w.feed.given };

    ghost faults = { λ w. w.failing.faults };

    ghost gives = { λ a answer b. (b.link ≡ a.link) × (b.starts ≡ a.starts) };

    fn next(&mut self, room: &mut [u8]) -> Result<Next, FeedFault>
        requires room { MAX_PIECE ≤ length room.old }
        ensures gives { (self.new.link ≡ self.old.link) × (self.new.starts ≡ self.old.starts) }
        ensures range { IfOk result (λ n. FitsItem self.old.feed.guests self.old.feed.pages n.item n.len) }
        ensures coming { Told (Some self.old.feed.left) (λ coming. ComesNext coming (answer_of result room.new) (Some self.new.feed.left)) }
        ensures given { self.new.feed.given ≡ given_after result self.old.feed.given }
        ensures guests { self.new.feed.guests ≡ self.old.feed.guests }
        ensures pages { self.new.feed.pages ≡ self.old.feed.pages }
        ensures later { self.old.failing.faults ≤ self.new.failing.faults }
        ensures failed { IsErrOf result FeedFault.Failed → Rose self.old.failing.faults self.new.failing.faults }

        // It fails exactly where its number is listed, and then changes nothing but the counts.
        ensures fails { IsErrOf result FeedFault.Failed ↔ FailsNext self.old.failing }
        ensures counts { self.new.failing ≡ failing_after (has_failed result) self.old.failing }
        ensures same { IsErrOf result FeedFault.Failed → self.new.feed ≡ self.old.feed }
        ensures untouched { OnErr result (room.new ≡ room.old) }
    {
        if self.fails.next() {
            return Err(FeedFault::Failed);
        }
        self.feed.next(room)
    }
}

impl Link for MemWire {
    ghost guests = { λ w. w.feed.guests };

    ghost sent = { λ w guest. told_to w.link.sent guest };

    ghost send_faults = { λ w guest. (counts_of w.link.plan.counts guest).faults };

    ghost keeps = { λ a b. (b.feed ≡ a.feed) × (b.failing ≡ a.failing) × (b.starts ≡ a.starts) };

    ghost keeps_same = { λ _. (refl, refl, refl) };

    ghost keeps_on = { λ a b c first next. (next.0 ∙ first.0, next.1 ∙ first.1, next.2 ∙ first.2) };

    fn send(&mut self, guest: u32, bytes: &[u8]) -> Result<(), SendFailed>
        requires guest { guest < self.old.feed.guests }
        requires some { 0 < length bytes.now }
        ensures sends { Sends guest bytes.now result (traffic_of self.old.link) (traffic_of self.new.link) }
        ensures guests { self.new.feed.guests ≡ self.old.feed.guests }
        ensures keeps { (self.new.feed ≡ self.old.feed) × (self.new.failing ≡ self.old.failing) × (self.new.starts ≡ self.old.starts) }

        // It fails exactly where it is listed for this guest, and then sends as many bytes as the first entry says,
        // and at most all but one.
        ensures part { part_sent result ≡ option_map (part_of (length bytes.now)) (next_entry self.old.link.plan guest) }
        ensures kept { KeepsMore (sent_to self.old.link.sent guest) (bytes_sent result bytes.now) (sent_to self.new.link.sent guest) }
        ensures counts { counts_of self.new.link.plan.counts guest ≡ record { sends = one_more (counts_of self.old.link.plan.counts guest).sends; faults = faults_after (is_err result) (counts_of self.old.link.plan.counts guest).faults } }
        ensures entries { self.new.link.plan.entries ≡ self.old.link.plan.entries }
        ensures others { LeavesOtherGuests guest self.old.link self.new.link }
    {
        self.link.send(guest, bytes)
    }
}

impl Wire for MemWire {
    ghost starts = { λ w. w.starts };

    ghost one_number = { λ _. refl };

    ghost feeds_send_nothing = { λ a b answer gives guest. ap (λ link. told_to link.sent guest) gives.0 };

    ghost feeds_fail_no_send = { λ a b answer gives guest. ap (λ link. (traffic_of link).faults guest) gives.0 };

    ghost feeds_start_nothing = { λ a b answer gives. gives.1 };

    ghost sends_feed_nothing = { λ a b kept. record {
      same_supply = ap (λ feed. record { guests = feed.guests; pages = feed.pages; left = Some feed.left }) kept.0;
      same_given = ap (λ feed. feed.given) kept.0;
      same_faults = ap (λ failing. failing.faults) kept.1;
    } };

    ghost sends_start_nothing = { λ a b kept. kept.2 };

    fn start(&mut self, dir: &str, setup: &Setup) -> Result<(), StartFault>
        ensures begins { Begins self.old.starts dir.now (is_ok result) self.new.starts }
        ensures supply { StartsFor setup.now result
            (record { guests = self.old.feed.guests; pages = self.old.feed.pages; left = Some self.old.feed.left })
            (record { guests = self.new.feed.guests; pages = self.new.feed.pages; left = Some self.new.feed.left }) }
        ensures given { self.new.feed.given ≡ self.old.feed.given }
        ensures later { self.old.failing.faults ≤ self.new.failing.faults }
        ensures failed { IsErrOf result StartFault.Failed → Rose self.old.failing.faults self.new.failing.faults }
        ensures sent { (guest : ℕ) → told_to self.new.link.sent guest ≡ told_to self.old.link.sent guest }
        ensures send_faults { (guest : ℕ) → (counts_of self.new.link.plan.counts guest).faults ≡ (counts_of self.old.link.plan.counts guest).faults }

        // It fails exactly where its number is listed. There is always memory for as many guests as it had before.
        ensures fails { IsErrOf result StartFault.Failed ↔ FailsNext self.old.failing }
        ensures counts { self.new.failing ≡ failing_after (start_failed result) self.old.failing }
        ensures link { SameLink self.old.link self.new.link }
        ensures memory { IsErrOf result StartFault.NoMemory → HasRoom (length setup.now.guests) self.old.link → ⊥ }
    {
        let result = self.begin(setup);
        self.starts.keep(dir.as_bytes(), result.is_ok());
        result
    }
}
