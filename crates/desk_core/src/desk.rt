// The desktop: the windows of its guests, and what the user does to them.
ghost use Rattle.std.specs.Prelude.{◌≡◌, ℕ, ◌<◌, ◌≤◌, ◌+◌, List, length, IfOk, IsTrue, false, true};
ghost use Rattle.desk_laws.specs.declared.setup.Setup.{Setup};
ghost use Rattle.desk_laws.specs.Rules.{first_broken};
ghost use Rattle.desk_laws.specs.Items.{FitsItem, IsChange};
ghost use Rattle.desk_laws.specs.Frames.{PortState, counted};
ghost use Rattle.desk_laws.specs.Endings.{is_item_of};
ghost use Rattle.desk_laws.specs.Scene.{Input};
ghost use Rattle.desk_laws.specs.State.{DeskState, opening};
ghost use Rattle.desk_laws.specs.Steps.{step, take_bytes, take_store, end_session};
ghost use Rattle.frame_pool.specs.Ports.{AreZeros, ChangesFrames, HasExtent, KeepsExtent};
ghost use Rattle.compositor.specs.PictureView.{shown_area};
ghost use Rattle.desk_core.specs.AloneSteps.{StepsAlone};
ghost use Rattle.desk_core.specs.Painting.{plane};
ghost use Rattle.desk_core.specs.DeskView.{guests_of, pages_of, picture_of, session_in};
ghost use Rattle.desk_core.specs.DeskStands.{IsAtRest, Stands, StepsTo, counted_in, stepped_of, summary_of};
ghost use Rattle.desk_core.specs.EventItems.{TakesOn};
ghost use Rattle.desk_core.specs.ItemSteps.{LeavesGuest, Steps, TakesItem};
ghost use Rattle.desk_core.specs.Pieces.{Drained, held_by};
ghost use Rattle.desk_core.specs.PieceSteps.{Pushes, TookSome};
ghost use Rattle.desk_core.specs.Scenes.{KeepSessions};
ghost use Rattle.desk_core.specs.Settling.{HasSeat};
ghost use Rattle.desk_core.specs.WindowsStand.{AreAtRest, StandsWith, StoresTo};
ghost use Rattle.desk_core.specs.WindowsView.{ChangesPart, put};

use crate::summary::Summary;
use crate::windows::Windows;
use compositor::Picture;
use desk_laws::{Cause, Item, Setup};
use frame_pool::FramePort;
use gui_num::NoMemory;
use input_router::Router;
use io_ports::Outlet;
use std::alloc::Global;
use std::marker::Model;

/// What a step did.
#[derive(Clone, Copy, Debug, PartialEq, Eq)]
pub enum Stepped {
    /// The next item may come.
    Going,
    /// The picture is drawn anew.
    Snap,
    /// The input ended.
    Ended,
}

/// A desktop with 1 to 16 guests. It takes the items of its input one after the other, answers each
/// guest alone, reads a guest's frames where it says that they changed, hands what the user does to the
/// windows that it is for, tells them focus and hover, and keeps a picture of what all of them show.
#[derive(Drop)]
pub struct Desk {
    windows: Windows,
    router: Router,
}

impl Model for Desk {
    ghost use Rattle.desk_core.specs.DeskView.{DeskView};
    ghost use Rattle.desk_core.specs.Seated.{AreSeated};

    ghost Value = { DeskView };

    ghost view = { λ d. record { windows = d.windows; seat = d.router } };

    ghost invariant = { λ d. AreSeated d.windows d.router };
}

impl Desk {
    /// The desktop of a setup that keeps its rules, before any item. `NoMemory` where there is none
    /// for the sessions, the stack and the picture; later nothing takes memory.
    pub fn open(alloc: Global, setup: &Setup) -> Result<Desk, NoMemory>
        requires { first_broken setup.now ≡ None }
        ensures stands { IfOk result (λ d. (frames : ℕ → PortState) → AreZeros (length setup.now.guests) setup.now.pages frames → Stands setup.now d frames (opening setup.now)) }
        ensures guests { IfOk result (λ d. guests_of d ≡ length setup.now.guests) }
        ensures pages { IfOk result (λ d. pages_of d ≡ setup.now.pages) }
        ensures fresh { IfOk result (λ d. (picture_of d).painted ≡ 0) }
    {
        Ok(Desk {
            windows: Windows::open(alloc, setup)?,
            router: Router::new(),
        })
    }

    // Takes one unit off the bytes that are held of a guest, and tells focus and hover where windows may
    // have moved. Answers whether there was one, and the session hasn't ended.
    fn take_turn<P: FramePort, O: Outlet>(&mut self, guest: u32, port: &mut P, out: &mut O) -> bool
        requires there { guest < guests_of self.old }
        requires port { HasExtent P.guests P.pages port.old (guests_of self.old) (pages_of self.old) }
        ensures took { (setup : Setup) (held : List ℕ) (others : ℕ → List ℕ) (frames : ℕ → PortState) (state : DeskState) → StandsWith setup (put guest held others) self.old.windows (put guest (P.state port.old guest) frames) state → HasSeat setup self.old.seat state
            → TookSome O.takes out.old out.new setup guest held others self.old self.new (put guest (P.state port.new guest) frames) state }
        ensures fewer { IsTrue result → held_by (session_in guest self.new) < held_by (session_in guest self.old) }
        ensures drained { result ≡ false → Drained (session_in guest self.new) }
        ensures alone { ChangesPart guest self.old.windows self.new.windows }
        ensures port { ChangesFrames P.guests P.pages P.state guest port.old port.new }
    {
        let told = self.windows.turn(guest, port, out);
        self.windows.settle(told, &mut self.router, out);
        told.goes_on()
    }

    // Takes all whole units off the bytes that are held of a guest, until one ends its session.
    fn take_units<P: FramePort, O: Outlet>(&mut self, guest: u32, port: &mut P, out: &mut O)
        requires there { guest < guests_of self.old }
        requires port { HasExtent P.guests P.pages port.old (guests_of self.old) (pages_of self.old) }
        ensures took { (setup : Setup) (held : List ℕ) (others : ℕ → List ℕ) (frames : ℕ → PortState) (state : DeskState) → StandsWith setup (put guest held others) self.old.windows (put guest (P.state port.old guest) frames) state → HasSeat setup self.old.seat state
            → TookSome O.takes out.old out.new setup guest held others self.old self.new (put guest (P.state port.new guest) frames) state }
        ensures drained { Drained (session_in guest self.new) }
        ensures alone { ChangesPart guest self.old.windows self.new.windows }
        ensures port { ChangesFrames P.guests P.pages P.state guest port.old port.new }
    {
        while self.take_turn(guest, port, out) {}
    }

    // Takes up as much of a piece of a guest's bytes as there is room for, and answers how much.
    fn push(&mut self, guest: u32, piece: &[u8]) -> usize
        requires there { guest < guests_of self.old }
        ensures within { result ≤ length piece.now }
        ensures some { Drained (session_in guest self.old) → 0 < length piece.now → 0 < result }
        ensures pushed { Pushes guest self.old self.new piece.now result }
    {
        self.windows.push(guest, piece)
    }

    // Takes a piece of a guest's bytes, however it is cut.
    fn take_piece<P: FramePort, O: Outlet>(
        &mut self,
        guest: u32,
        piece: &[u8],
        port: &mut P,
        out: &mut O,
    )
        requires there { guest < guests_of self.old }
        requires port { HasExtent P.guests P.pages port.old (guests_of self.old) (pages_of self.old) }
        ensures took { (setup : Setup) (state : DeskState) → IsAtRest setup self.old (P.state port.old) state → StepsTo O.takes out.old out.new setup self.new (P.state port.new) (take_bytes setup guest piece.now state) }
        ensures alone { ChangesPart guest self.old.windows self.new.windows }
        ensures port { ChangesFrames P.guests P.pages P.state guest port.old port.new }
    {
        self.take_units(guest, port, out);
        let mut left = piece;
        while !left.is_empty() {
            let size = self.push(guest, left);
            left = &left[size..];
            self.take_units(guest, port, out);
        }
    }

    // Ends a guest's session from outside, unless it has ended: the guest is told why, its windows are
    // gone, and the others are told focus and hover.
    fn end<O: Outlet>(&mut self, guest: u32, cause: Cause, out: &mut O)
        requires there { guest < guests_of self.old }
        ensures took { (setup : Setup) (frames : ℕ → PortState) (input : Input) (state : DeskState) → IsAtRest setup self.old frames state → StepsTo O.takes out.old out.new setup self.new frames (end_session setup guest input cause state) }
        ensures alone { ChangesPart guest self.old.windows self.new.windows }
    {
        let told = self.windows.end(guest, cause, out);
        self.windows.settle(told, &mut self.router, out);
    }

    // Takes an event of the user.
    fn event<O: Outlet>(&mut self, item: &Item, out: &mut O)
        ensures took { TakesOn O.takes out.old out.new item.now self.old self.new }
        ensures kept { KeepSessions self.old.windows.sessions self.new.windows.sessions }
        ensures rest { self.new.windows ≡ record self.old.windows { sessions = self.new.windows.sessions; layers = self.new.windows.layers; gate = self.new.windows.gate } }
    {
        self.windows.event(&mut self.router, item, out);
    }

    // Takes a change of a guest's frames, unless its session has ended.
    fn take_store<P: FramePort>(
        &self,
        guest: u32,
        delay: u16,
        page: u32,
        offset: u32,
        piece: &[u8],
        port: &mut P,
    )
        requires port { HasExtent P.guests P.pages port.old (guests_of self.now) (pages_of self.now) }
        requires guest { guest < guests_of self.now }
        requires change { IsChange page offset (length piece.now) (pages_of self.now) }
        ensures took { (setup : Setup) (state : DeskState) → AreAtRest setup self.now.windows (P.state port.old) state → StoresTo setup self.now.windows (P.state port.new) (take_store guest delay page offset piece.now state) }
        ensures port { ChangesFrames P.guests P.pages P.state guest port.old port.new }
    {
        self.windows
            .take_store(guest, delay, page, offset, piece, port);
    }

    // Counts an item.
    fn count_item(&mut self)
        ensures { self.new ≡ counted_in self.old }
    {
        self.windows.count_item();
    }

    // Draws the outputs anew, each pixel once.
    fn draw(&mut self)
        ensures desk { self.new ≡ record self.old { windows = record self.old.windows { picture = picture_of self.new } } }
        ensures sides { ((picture_of self.new).width ≡ (picture_of self.old).width) × ((picture_of self.new).height ≡ (picture_of self.old).height) × ((picture_of self.new).background ≡ (picture_of self.old).background) × ((picture_of self.new).outputs ≡ (picture_of self.old).outputs) }
        ensures painted { (picture_of self.new).painted ≡ counted ((picture_of self.old).painted + shown_area (picture_of self.old).outputs) }
        ensures pixels { (setup : Setup) (frames : ℕ → PortState) (state : DeskState) → AreAtRest setup self.old.windows frames state → (picture_of self.new).pixels ≡ plane setup state.scene.rows state.scene.layers }
    {
        self.windows.draw();
    }

    // Takes one item with its piece, and answers what it did.
    fn take_item<P: FramePort, O: Outlet>(
        &mut self,
        item: &Item,
        piece: &[u8],
        port: &mut P,
        out: &mut O,
    ) -> Stepped
        requires range { FitsItem (guests_of self.old) (pages_of self.old) item.now (length piece.now) }
        requires port { HasExtent P.guests P.pages port.old (guests_of self.old) (pages_of self.old) }
        ensures took { TakesItem O.takes out.old out.new item.now piece.now self.old self.new (P.state port.old) (P.state port.new) }
        ensures answer { result ≡ stepped_of item.now }
        ensures port { KeepsExtent P.guests P.pages port.old port.new }
    {
        match *item {
            Item::Bytes { guest } => {
                self.count_item();
                self.take_piece(guest, piece, port, out);
                Stepped::Going
            }
            Item::Closed { guest } => {
                self.count_item();
                self.end(guest, Cause::StreamEnded { a: 0, b: 0 }, out);
                Stepped::Going
            }
            Item::Lost { guest } => {
                self.count_item();
                self.end(guest, Cause::LinkFailed { a: 0, b: 0 }, out);
                Stepped::Going
            }
            Item::Store {
                guest,
                delay,
                page,
                offset,
            } => {
                self.count_item();
                self.take_store(guest, delay, page, offset, piece, port);
                Stepped::Going
            }
            Item::Snap => {
                self.count_item();
                self.draw();
                Stepped::Snap
            }
            Item::End => {
                self.count_item();
                Stepped::Ended
            }
            Item::Idle => Stepped::Going,
            _ => {
                self.count_item();
                self.event(item, out);
                Stepped::Going
            }
        }
    }

    /// Takes one item of the input with its piece: the bytes of a guest, cut in any way, or those of a
    /// change of its frames, else none. It answers what it did: the picture is drawn anew exactly at
    /// Snap, and the input ended exactly at End. Guests are told through the outlet what the item led
    /// to. Of the port a guest's frames are read where this guest says that they changed, and changed
    /// at Store, unless its session has ended.
    ///
    /// Each guest is told what it would be told with nobody else on the desktop, and its part of the desk
    /// becomes what it would become then: by its own messages, the words that are read of its frames, and
    /// the inputs that the step grants it.
    ///
    /// An item of one guest leaves the sessions, the windows and the frames of all others as they are.
    /// In each picture no content of one window touches that of another, and override-redirect windows
    /// lie in an output with their borders, and take no more than their percent of the largest one.
    pub fn step<P: FramePort, O: Outlet>(
        &mut self,
        item: &Item,
        piece: &[u8],
        port: &mut P,
        out: &mut O,
    ) -> Stepped
        requires range { FitsItem (guests_of self.old) (pages_of self.old) item.now (length piece.now) }
        requires port { HasExtent P.guests P.pages port.old (guests_of self.old) (pages_of self.old) }
        ensures steps { (setup : Setup) (state : DeskState) → Stands setup self.old (P.state port.old) state → Steps O.takes out.old out.new setup item.now piece.now state self.old self.new (P.state port.new) }
        ensures alone { (setup : Setup) (state : DeskState) → Stands setup self.old (P.state port.old) state → StepsAlone O.takes out.old out.new setup (step setup item.now piece.now state) self.old self.new }
        ensures others { (guest other : ℕ) → is_item_of guest item.now ≡ true → (other ≡ guest → ⊥) → LeavesGuest other self.old self.new (P.state port.old) (P.state port.new) }
        ensures answer { result ≡ stepped_of item.now }
        ensures sizes { KeepsExtent guests_of pages_of self.old self.new }
        ensures port { KeepsExtent P.guests P.pages port.old port.new }
    {
        self.take_item(item, piece, port, out)
    }

    /// The picture of the plane, as it was drawn last: 0 in each pixel where no Snap came yet, and in the
    /// pixels of no output.
    pub fn picture(&self) -> &Picture
        ensures { result.now ≡ picture_of self.now }
    {
        self.windows.picture()
    }

    /// How much there was so far.
    pub fn summary(&self) -> Summary
        ensures is { result ≡ summary_of self.now }
        ensures counts { (setup : Setup) (frames : ℕ → PortState) (state : DeskState) → Stands setup self.now frames state → result ≡ record { items = state.counts.items; messages = state.counts.messages; glances = state.counts.glances; painted = (picture_of self.now).painted } }
    {
        self.windows.summary()
    }
}
