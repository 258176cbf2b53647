// The windows of all guests: their sessions, the stack of the mapped ones, the counts and the picture.
ghost use Rattle.std.specs.Prelude.{◌≡◌, ℕ, ◌<◌, ◌≤◌, ◌+◌, List, length, map, slice_index_or, IfOk, false, true, if◌then◌else◌};
ghost use Rattle.desk_laws.specs.declared.setup.Setup.{Setup};
ghost use Rattle.desk_laws.specs.Rules.{first_broken};
ghost use Rattle.desk_laws.specs.Items.{IsChange};
ghost use Rattle.desk_laws.specs.Frames.{PortState, counted};
ghost use Rattle.desk_laws.specs.Scene.{Input};
ghost use Rattle.desk_laws.specs.Settle.{IsSettled};
ghost use Rattle.desk_laws.specs.Sizes.{sizes_of};
ghost use Rattle.desk_laws.specs.State.{DeskState, opening};
ghost use Rattle.desk_laws.specs.Steps.{event, take_store, end_session};
ghost use Rattle.frame_pool.specs.Ports.{AreZeros, ChangesFrames, HasExtent};
ghost use Rattle.compositor.specs.PictureView.{shown_area};
ghost use Rattle.desk_core.specs.Painting.{plane};
ghost use Rattle.desk_core.specs.EventSteps.{EventsTo};
ghost use Rattle.desk_core.specs.Pieces.{Drained, PushesPiece, held_by};
ghost use Rattle.desk_core.specs.Scenes.{KeepSessions};
ghost use Rattle.desk_core.specs.Seated.{AreSeated};
ghost use Rattle.desk_core.specs.Settling.{HasSeat, SettlesTo};
ghost use Rattle.desk_core.specs.Telling.{EndsTold, KeepsStanding, TookTold, answer_of, goes_on, moves};
ghost use Rattle.desk_core.specs.WindowsStand.{AreAtRest, IsFresh, PartStands, StandsWith, StoresTo, glances_in, item_counted, summary_in};
ghost use Rattle.desk_core.specs.WindowsView.{ChangesPart, guests_of, no_session, pages_of, part_of, picture_of, session_in};

use crate::clip::{drop_clip, take_clip};
use crate::events::take_event;
use crate::panes::{Shown, StackPanes, show_stack};
use crate::settle::settle;
use crate::stack::{follow, layer_of};
use crate::summary::Summary;
use clipboard_gate::Gate;
use compositor::Picture;
use desk_laws::{Cause, GuestSetup, Item, MAX_WINDOWS, Pair, RowId, Setup};
use frame_pool::FramePort;
use guest_session::{Session, Turn};
use gui_num::{Colour, NoMemory, Rect, area};
use input_router::Router;
use io_ports::Outlet;
use stacking::Stacking;
use std::alloc::Global;
use std::marker::Model;

/// What a guest's session did in its turn: no whole unit was there, an area of a window was read, some
/// other unit was taken, or the session ended.
#[derive(Clone, Copy, PartialEq, Eq)]
pub(crate) enum Told {
    Waits,
    Drew,
    Changed,
    Ended,
}

// What a turn is that told this area, if it read one.
fn told_of(drawn: Option<Rect>) -> Told
    ensures { result ≡ answer_of drawn }
{
    match drawn {
        Some(_) => Told::Drew,
        None => Told::Changed,
    }
}

impl Told {
    /// Whether more units may follow at once.
    pub(crate) fn goes_on(self) -> bool
        ensures { result ≡ goes_on self }
    {
        match self {
            Told::Drew | Told::Changed => true,
            Told::Waits | Told::Ended => false,
        }
    }

    /// Whether windows may have moved, come or gone, so that focus and hover are to be told.
    pub(crate) fn moves(self) -> bool
        ensures { result ≡ moves self }
    {
        match self {
            Told::Changed | Told::Ended => true,
            Told::Waits | Told::Drew => false,
        }
    }
}

// The windows of 1 to 16 guests. Each guest is answered alone, its frames are read where it says that they
// changed, the clipboard holds the data of the guest that was asked, and a picture is kept of what all of
// them show. Focus and hover are told by `settle` alone.
#[derive(Drop)]
pub(crate) struct Windows {
    border: u32,
    labels: Vec<Colour>,
    sessions: Vec<Session>,
    stack: Stacking,
    gate: Gate,
    // The pairs of guests between which no paste goes.
    denied: Vec<Pair>,
    items: u64,
    messages: u64,
    glances: u64,
    // What was shown when the picture was drawn last: the room is taken once, and filled at each Snap.
    shown: Vec<Shown>,
    picture: Picture,
}

impl Model for Windows {
    ghost use Rattle.std.specs.Prelude.{vec_capacity, ◌≤◌};
    ghost use Rattle.desk_core.specs.WindowsView.{WindowsView};
    ghost use Rattle.desk_core.specs.Kept.{IsKept};

    ghost Value = { WindowsView };

    ghost view = { λ d. record { border = d.border; labels = d.labels.items; sessions = d.sessions.items; layers = d.stack.layers; gate = d.gate; denied = d.denied.items; items = d.items; messages = d.messages; glances = d.glances; picture = d.picture } };

    ghost invariant = { λ d. IsKept d.stack.rows (record { border = d.border; labels = d.labels.items; sessions = d.sessions.items; layers = d.stack.layers; gate = d.gate; denied = d.denied.items; items = d.items; messages = d.messages; glances = d.glances; picture = d.picture }) × (d.stack.rows ≤ vec_capacity d.shown) };
}

// A count, and one more where something counts.
fn count_if(count: u64, counts: bool) -> u64
    ensures { result ≡ counted (count + (if counts then 1 else 0)) }
{
    count.saturating_add(u64::from(counts))
}

// A count of words, and those of an area that was read, one for each pixel.
fn count_read(count: u64, drawn: Option<Rect>) -> u64
    ensures { result ≡ counted (count + glances_in drawn) }
{
    match drawn {
        Some(read) => count.saturating_add(area(read)),
        None => count,
    }
}

// The label colour of each guest. `NoMemory` where there is none for them.
fn labels_of(alloc: Global, guests: &[GuestSetup]) -> Result<Vec<Colour>, NoMemory>
    ensures { IfOk result (λ labels. labels.items ≡ map (λ g. g.colour) guests.now) }
{
    let mut labels = Vec::with_capacity(alloc, guests.len())?;
    for guest in guests {
        labels.push_reserved(guest.colour);
    }
    Ok(labels)
}

// A copy of these pairs of guests. `NoMemory` where there is none for it.
fn pairs_of(alloc: Global, denied: &[Pair]) -> Result<Vec<Pair>, NoMemory>
    ensures { IfOk result (λ pairs. pairs.items ≡ denied.now) }
{
    let mut pairs = Vec::with_capacity(alloc, denied.len())?;
    for pair in denied {
        pairs.push_reserved(*pair);
    }
    Ok(pairs)
}

// A session for each guest of a setup, in their order. `NoMemory` where there is none for them.
fn open_sessions(alloc: Global, setup: &Setup) -> Result<Vec<Session>, NoMemory>
    requires { first_broken setup.now ≡ None }
    ensures count { IfOk result (λ sessions. length sessions.items ≡ length setup.now.guests) }
    ensures fresh { IfOk result (λ sessions. (guest : ℕ) → guest < length setup.now.guests → IsFresh setup.now guest (slice_index_or sessions.items guest no_session)) }
{
    let count = setup.guests.items().len();
    let mut sessions = Vec::with_capacity(alloc, count)?;
    for guest in 0..count {
        sessions.push_reserved(Session::open(alloc, guest as u32, setup)?);
    }
    Ok(sessions)
}

// The picture of a setup's outputs, of which nothing is drawn yet. `NoMemory` where there is none for it.
fn open_picture(alloc: Global, setup: &Setup) -> Result<Picture, NoMemory>
    requires { first_broken setup.now ≡ None }
    ensures numbers { IfOk result (λ p. (p.width ≡ setup.now.width) × (p.height ≡ setup.now.height) × (p.background ≡ setup.now.background.0) × (p.outputs ≡ setup.now.outputs)) }
    ensures fresh { IfOk result (λ p. p.painted ≡ 0) }
{
    Picture::new(
        alloc,
        setup.width,
        setup.height,
        setup.background,
        setup.outputs.items(),
    )
}

impl Windows {
    /// The windows of a setup that keeps its rules, before any item. `NoMemory` where there is none
    /// for the sessions, the stack and the picture; later nothing takes memory.
    pub(crate) fn open(alloc: Global, setup: &Setup) -> Result<Windows, NoMemory>
        requires { first_broken setup.now ≡ None }
        ensures stands { IfOk result (λ w. (frames : ℕ → PortState) → AreZeros (length setup.now.guests) setup.now.pages frames → AreAtRest setup.now w frames (opening setup.now)) }
        ensures guests { IfOk result (λ w. guests_of w ≡ length setup.now.guests) }
        ensures pages { IfOk result (λ w. pages_of w ≡ setup.now.pages) }
        ensures fresh { IfOk result (λ w. (picture_of w).painted ≡ 0) }
    {
        let guests = setup.guests.items();
        let windows = MAX_WINDOWS * guests.len() as u32;
        Ok(Windows {
            border: setup.border,
            labels: labels_of(alloc, guests)?,
            sessions: open_sessions(alloc, setup)?,
            stack: Stacking::new(alloc, windows)?,
            gate: Gate::new(alloc, setup.clip_limit())?,
            denied: pairs_of(alloc, setup.denied.items())?,
            items: 0,
            messages: 0,
            glances: 0,
            shown: Vec::with_capacity(alloc, windows as usize)?,
            picture: open_picture(alloc, setup)?,
        })
    }

    /// Lets a guest's session take one unit off the bytes that it holds, and the stack follow it. The
    /// guest is told what the unit leads to, but for focus and hover.
    pub(crate) fn turn<P: FramePort, O: Outlet>(
        &mut self,
        guest: u32,
        port: &mut P,
        out: &mut O,
    ) -> Told
        requires there { guest < guests_of self.old }
        requires port { HasExtent P.guests P.pages port.old (guests_of self.old) (pages_of self.old) }
        ensures took { (setup : Setup) (held : List ℕ) (state : DeskState) → PartStands setup guest held (part_of guest self.old) (P.state port.old guest) state → TookTold O.takes out.old out.new result setup guest held (part_of guest self.old) (part_of guest self.new) (P.state port.new guest) state }
        ensures fewer { goes_on result ≡ true → held_by (session_in guest self.new) < held_by (session_in guest self.old) }
        ensures drained { goes_on result ≡ false → Drained (session_in guest self.new) }
        ensures alone { ChangesPart guest self.old self.new }
        ensures port { ChangesFrames P.guests P.pages P.state guest port.old port.new }
    {
        let session = &mut self.sessions[guest as usize];
        let greeted = session.greeted();
        match session.turn(port, out) {
            Turn::Wait => Told::Waits,
            Turn::Changed { window, drawn } => {
                let layer = layer_of(session, window);
                follow(&mut self.stack, RowId { guest, window }, layer);
                self.messages = count_if(self.messages, greeted);
                self.glances = count_read(self.glances, drawn);
                told_of(drawn)
            }
            Turn::ClipWhole => {
                take_clip(session, guest, &mut self.gate);
                self.messages = count_if(self.messages, true);
                Told::Changed
            }
            Turn::ClipOver => {
                drop_clip(session, guest, &mut self.gate);
                self.messages = count_if(self.messages, true);
                Told::Changed
            }
            Turn::Ended(cause) => {
                self.stack.leave_guest(guest);
                self.gate.forget(guest);
                out.ended(guest, cause);
                Told::Ended
            }
        }
    }

    /// Takes up as much of a piece of a guest's bytes as there is room for, and answers how much.
    pub(crate) fn push(&mut self, guest: u32, piece: &[u8]) -> usize
        requires there { guest < guests_of self.old }
        ensures within { result ≤ length piece.now }
        ensures some { Drained (session_in guest self.old) → 0 < length piece.now → 0 < result }
        ensures pushed { PushesPiece (session_in guest self.old) (session_in guest self.new) piece.now result }
        ensures alone { ChangesPart guest self.old self.new }
        ensures part { part_of guest self.new ≡ record (part_of guest self.old) { session = session_in guest self.new } }
    {
        self.sessions[guest as usize].push(piece)
    }

    /// Ends a guest's session from outside, unless it has ended: the guest is told why, and its windows
    /// are gone. Focus and hover aren't told yet.
    pub(crate) fn end<O: Outlet>(&mut self, guest: u32, cause: Cause, out: &mut O) -> Told
        requires there { guest < guests_of self.old }
        ensures took { (setup : Setup) (frames : ℕ → PortState) (input : Input) (state : DeskState) → AreAtRest setup self.old frames state → EndsTold O.takes out.old out.new result setup self.new frames state (end_session setup guest input cause state) }
        ensures stands { (setup : Setup) (held : ℕ → List ℕ) (frames : ℕ → PortState) (state : DeskState) → StandsWith setup held self.old frames state → KeepsStanding result setup self.new frames state }
        ensures alone { ChangesPart guest self.old self.new }
    {
        if self.sessions[guest as usize].ended().is_some() {
            return Told::Waits;
        }
        self.sessions[guest as usize].end(cause);
        self.stack.leave_guest(guest);
        self.gate.forget(guest);
        out.ended(guest, cause);
        Told::Ended
    }

    /// Tells focus and hover where they are others than those last told, and notes them. Where what was
    /// told before left them as they were, there is nothing to do.
    pub(crate) fn settle<O: Outlet>(&mut self, told: Told, router: &mut Router, out: &mut O)
        ensures same { self.new ≡ self.old }
        ensures settles { (setup : Setup) (held : ℕ → List ℕ) (frames : ℕ → PortState) (state : DeskState) → StandsWith setup held self.old frames state → state.scene.seat ≡ router.old → (moves told ≡ false → IsSettled (sizes_of setup) state.scene)
            → SettlesTo O.takes out.old out.new setup held self.new frames router.new state }
    {
        if !told.moves() {
            return;
        }
        settle(
            router,
            &mut self.sessions,
            &self.stack,
            &mut self.gate,
            &self.denied,
            self.border,
            out,
        );
    }

    /// Takes an event of the user: it is routed to the windows, and focus and hover are told where they
    /// are others than those last told. A Move to a pixel in no output does nothing, and neither does
    /// an item that isn't an event of the user.
    pub(crate) fn event<O: Outlet>(&mut self, router: &mut Router, item: &Item, out: &mut O)
        requires { AreSeated self.old router.old }
        ensures rest { self.new ≡ record self.old { sessions = self.new.sessions; layers = self.new.layers; gate = self.new.gate } }
        ensures kept { KeepSessions self.old.sessions self.new.sessions }
        ensures event { (setup : Setup) (held : ℕ → List ℕ) (frames : ℕ → PortState) (state : DeskState) → StandsWith setup held self.old frames state → HasSeat setup router.old state
            → EventsTo O.takes out.old out.new setup held self.new frames router.new (event setup item.now state) }
    {
        take_event(
            router,
            &mut self.sessions,
            &mut self.stack,
            &mut self.gate,
            &self.denied,
            self.border,
            self.picture.outputs(),
            item,
            out,
        );
    }

    /// Takes a change of a guest's frames, unless its session has ended.
    pub(crate) fn take_store<P: FramePort>(
        &self,
        guest: u32,
        delay: u16,
        page: u32,
        offset: u32,
        piece: &[u8],
        port: &mut P,
    )
        requires port { HasExtent P.guests P.pages port.old (guests_of self.now) (pages_of self.now) }
        requires guest { guest < guests_of self.now }
        requires change { IsChange page offset (length piece.now) (pages_of self.now) }
        ensures took { (setup : Setup) (state : DeskState) → AreAtRest setup self.now (P.state port.old) state → StoresTo setup self.now (P.state port.new) (take_store guest delay page offset piece.now state) }
        ensures port { ChangesFrames P.guests P.pages P.state guest port.old port.new }
    {
        if self.sessions[guest as usize].ended().is_none() {
            port.store(guest, delay, page, offset, piece);
        }
    }

    /// Counts an item.
    pub(crate) fn count_item(&mut self)
        ensures { self.new ≡ item_counted self.old }
    {
        self.items = self.items.saturating_add(1);
    }

    /// Draws the outputs anew, each pixel once.
    pub(crate) fn draw(&mut self)
        ensures desk { self.new ≡ record self.old { picture = self.new.picture } }
        ensures sides { (self.new.picture.width ≡ self.old.picture.width) × (self.new.picture.height ≡ self.old.picture.height) × (self.new.picture.background ≡ self.old.picture.background) × (self.new.picture.outputs ≡ self.old.picture.outputs) }
        ensures painted { self.new.picture.painted ≡ counted (self.old.picture.painted + shown_area self.old.picture.outputs) }
        ensures pixels { (setup : Setup) (frames : ℕ → PortState) (state : DeskState) → AreAtRest setup self.old frames state → self.new.picture.pixels ≡ plane setup state.scene.rows state.scene.layers }
    {
        show_stack(
            &mut self.shown,
            &self.sessions,
            &self.stack,
            &self.labels,
            self.border,
        );
        self.picture.paint(&StackPanes {
            sessions: &self.sessions,
            shown: &self.shown,
        });
    }

    /// The picture of the plane, as it was drawn last.
    pub(crate) fn picture(&self) -> &Picture
        ensures { result.now ≡ picture_of self.now }
    {
        &self.picture
    }

    /// How much there was so far.
    pub(crate) fn summary(&self) -> Summary
        ensures is { result ≡ summary_in self.now }
        ensures counts { (setup : Setup) (held : ℕ → List ℕ) (frames : ℕ → PortState) (state : DeskState) → StandsWith setup held self.now frames state → result ≡ record { items = state.counts.items; messages = state.counts.messages; glances = state.counts.glances; painted = (picture_of self.now).painted } }
    {
        Summary {
            items: self.items,
            messages: self.messages,
            glances: self.glances,
            painted: self.picture.painted(),
        }
    }
}
