// The sockets of a live desk as a wire. It tells no content.
ghost use Rattle.std.specs.Prelude.{◌≡◌, ◌+◌, ◌≤◌, ◌<◌, ℕ, length, None, slice_index, IfOk, IfErr, refl};
ghost use Rattle.std.proofs.Common.{◌∙◌, ap};
ghost use Rattle.desk_laws.specs.Items.{FitsItem};
ghost use Rattle.desk_laws.specs.declared.limits.TheConstants.{MAX_GUESTS, MAX_PIECE};
ghost use Rattle.io_ports.specs.Content.{Told};
ghost use Rattle.io_ports.specs.Counts.{Rose, faults_after};
ghost use Rattle.io_ports.specs.Feeds.{Coming, ComesNext, answer_of, given_after};
ghost use Rattle.io_ports.specs.Links.{Sends};
ghost use Rattle.io_ports.specs.Starts.{Begins};
ghost use Rattle.io_ports.specs.Wires.{SameFeed};
ghost use Rattle.live_feed.specs.Live.{send_faults_of, supply_of};

use crate::sockets::Sockets;
use desk_laws::{Item, MAX_GUESTS, Setup};
use gui_num::NoMemory;
use io_ports::{Feed, FeedFault, Link, Next, SendFailed, StartFault, Wire};
use std::alloc::Global;
use std::fs::Files;
use std::marker::Model;
use std::net::Net;

/// The sockets of a live desk, in one thread. It tells no content.
///
/// A start listens in its folder on `NAME.gui` and `NAME.pages` for each guest and on `user`; each takes one
/// connection. What a guest writes on `NAME.gui` is given in pieces as Bytes, what it writes on `NAME.pages` as
/// Stores without delay, and what comes on `user` as items. The sockets have their turns one after the other. A round
/// in which none has anything waits for a tenth of a second, and is given as Idle.
///
/// The end of `NAME.gui` is given as Closed; the end of `NAME.pages`, and a change of its that is none, closes both
/// sockets of the guest and is given as Closed too. The end of `user` is given as End, and bytes there that are no
/// item as Bad.
///
/// Bytes that a guest's socket doesn't take at once wait, up to `MAX_WAITING` of them. A send fails where there is no
/// room for the rest, and where the socket was closed or failed.
#[derive(Drop)]
pub struct LiveWire<R: Files + Net + Clone + Drop> {
    rt: R,
    alloc: Global,
    sockets: Option<Sockets>,
    guests: u32,
    pages: u32,
    given: u64,
    faults: u64,
    send_faults: [u64; 16],
}

impl<R: Files + Net + Clone + Drop> Model for LiveWire<R> {
    ghost use Rattle.std.specs.Prelude.{◌≤◌};
    ghost use Rattle.live_feed.specs.Live.{LiveState};

    ghost Value = { LiveState };

    ghost view = { λ w. record { guests = w.guests; pages = w.pages; given = w.given; faults = w.faults; send_faults = w.send_faults } };

    ghost invariant = { λ w. w.guests ≤ 16 };
}

impl<R: Files + Net + Clone + Drop> LiveWire<R> {
    /// A wire of no guests and no pages that wasn't started. Its only error is that there is no memory.
    pub fn new(rt: &R, alloc: Global) -> Result<Self, NoMemory>
        ensures guests { IfOk result (λ w. w.guests ≡ 0) }
        ensures pages { IfOk result (λ w. w.pages ≡ 0) }
        ensures given { IfOk result (λ w. w.given ≡ 0) }
        ensures faults { IfOk result (λ w. w.faults ≡ 0) }
        ensures send_faults { IfOk result (λ w. (guest : ℕ) → send_faults_of w guest ≡ 0) }
    {
        Ok(LiveWire {
            rt: rt.clone()?,
            alloc,
            sockets: None,
            guests: 0,
            pages: 0,
            given: 0,
            faults: 0,
            send_faults: [0; 16],
        })
    }

    // How many guests it was started for.
    #[cfg(test)]
    pub(crate) fn guests(&self) -> u32
        ensures { result ≡ self.now.guests }
    {
        self.guests
    }
}

fn idle() -> Next
    ensures { (guests pages : ℕ) → FitsItem guests pages result.item result.len }
{
    Next {
        item: Item::Idle,
        len: 0,
    }
}

// Gives what the sockets give, and Idle where there is nothing.
fn give(
    sockets: &mut Option<Sockets>,
    guests: u32,
    pages: u32,
    room: &mut [u8],
) -> Result<Next, FeedFault>
    requires guests { guests ≤ MAX_GUESTS }
    requires room { MAX_PIECE ≤ length room.old }
    ensures fits { IfOk result (λ next. FitsItem guests pages next.item next.len) }
{
    let Some(sockets) = sockets else {
        return Ok(idle());
    };
    match sockets.give(guests, pages, room)? {
        Some(next) => Ok(next),
        None => Ok(idle()),
    }
}

impl<R: Files + Net + Clone + Drop> Feed for LiveWire<R> {
    ghost guests = { λ w. w.guests };

    ghost pages = { λ w. w.pages };

    ghost left = { λ _. None };

    ghost given = { λ w. w.given };

    ghost faults = { λ w. w.faults };

    ghost gives = { λ a _ b. b.send_faults ≡ a.send_faults };

    fn next(&mut self, room: &mut [u8]) -> Result<Next, FeedFault> {
        let answer = give(&mut self.sockets, self.guests, self.pages, room);
        match answer {
            Ok(_) => self.given = self.given.saturating_add(1),
            Err(FeedFault::Failed) => self.faults = self.faults.saturating_add(1),
            Err(FeedFault::Bad(_)) => {}
        }
        answer
    }
}

impl<R: Files + Net + Clone + Drop> Link for LiveWire<R> {
    ghost guests = { λ w. w.guests };

    ghost sent = { λ _ _. None };

    ghost send_faults = { λ w guest. send_faults_of w guest };

    ghost keeps = { λ a b. SameFeed (supply_of a) a.given a.faults (supply_of b) b.given b.faults };

    ghost keeps_same = { λ _. record { same_supply = refl; same_given = refl; same_faults = refl } };

    ghost keeps_on = { λ _ _ _ first next. record {
      same_supply = next.same_supply ∙ first.same_supply;
      same_given = next.same_given ∙ first.same_given;
      same_faults = next.same_faults ∙ first.same_faults;
    } };

    fn send(&mut self, guest: u32, bytes: &[u8]) -> Result<(), SendFailed> {
        let sent = send(&mut self.sockets, guest, bytes);
        if sent.is_err() {
            let at = guest as usize;
            self.send_faults[at] = self.send_faults[at].saturating_add(1);
        }
        sent
    }
}

fn send(sockets: &mut Option<Sockets>, guest: u32, bytes: &[u8]) -> Result<(), SendFailed>
    requires some { 0 < length bytes.now }
    ensures part { IfErr result (λ e. e.sent < length bytes.now) }
{
    match sockets {
        Some(sockets) => sockets.send(guest as usize, bytes),
        None => Err(SendFailed { sent: 0 }),
    }
}

impl<R: Files + Net + Clone + Drop> Wire for LiveWire<R> {
    ghost starts = { λ _. None };

    ghost one_number = { λ _. refl };

    ghost feeds_send_nothing = { λ _ _ _ _ _. refl };

    ghost feeds_fail_no_send = { λ a b _ given guest. ap (λ counts. slice_index counts guest) given };

    ghost feeds_start_nothing = { λ _ _ _ _. refl };

    ghost sends_feed_nothing = { λ _ _ kept. kept };

    ghost sends_start_nothing = { λ _ _ _. refl };

    fn start(&mut self, dir: &str, setup: &Setup) -> Result<(), StartFault> {
        match open(&self.rt, self.alloc, dir, setup) {
            Ok(sockets) => {
                self.sockets = Some(sockets);
                self.guests = setup.guests.items().len() as u32;
                self.pages = setup.pages;
                Ok(())
            }
            Err(StartFault::Failed) => {
                self.faults = self.faults.saturating_add(1);
                Err(StartFault::Failed)
            }
            Err(StartFault::NoMemory) => Err(StartFault::NoMemory),
        }
    }
}

// Listens for the guests of a setup that has at most so many as a desk has.
fn open<R: Files + Net>(
    rt: &R,
    alloc: Global,
    dir: &str,
    setup: &Setup,
) -> Result<Sockets, StartFault>
    ensures { IfOk result (λ _. length setup.now.guests ≤ MAX_GUESTS) }
{
    if setup.guests.items().len() > MAX_GUESTS as usize {
        return Err(StartFault::Failed);
    }
    Sockets::open(rt, alloc, dir, setup)
}
