// One guest's session.
ghost use Rattle.std.specs.Prelude.{◌≡◌, ℕ, ◌+◌, ◌-◌, ◌<◌, ◌≤◌, List, [], ◌++◌, length, take, map, option_map, Some, None, false, true, IfOk, IfSome, MatchOption};
ghost use Rattle.gui_wire.specs.declared.Header.{Header};
ghost use Rattle.desk_laws.specs.declared.cause.Cause.{Cause};
ghost use Rattle.desk_laws.specs.Rules.{first_broken};
ghost use Rattle.desk_laws.specs.Sizes.{sizes_of};
ghost use Rattle.desk_laws.specs.Rows.{row_with, span};
ghost use Rattle.desk_laws.specs.Grants.{FitsGrant, granted};
ghost use Rattle.desk_laws.specs.Scene.{replies};
ghost use Rattle.desk_laws.specs.Stream.{front};
ghost use Rattle.desk_laws.specs.Stream as cut;
ghost use Rattle.desk_laws.specs.Ranges.{IsPlace};
ghost use Rattle.frame_pool.specs.Ports.{ChangesFrames};
ghost use Rattle.io_ports.specs.Posts.{Leads};
ghost use Rattle.in_stream.specs.Received.{StandsFor};
ghost use Rattle.in_stream.specs.Taking.{DropsUnit};
ghost use Rattle.guest_session.specs.SessionView.{HasRows, IsEnded, opened, with_stream};
ghost use Rattle.guest_session.specs.Panes.{ShowsRow};
ghost use Rattle.guest_session.specs.Clips.{BeginsWithClip, HasClip, HasKeptClip};
ghost use Rattle.tile_store.specs.Contents.{colour_or};
ghost use Rattle.guest_session.specs.Reading.{content_in};
ghost use Rattle.guest_session.specs.Turns.{Turns};

use crate::Turn;
use crate::desk::{Desk, desk_of};
use crate::grant::grant;
use crate::rows::Rows;
use crate::units::{ended_by, take_unit};
use desk_laws::{Cause, GIn, Setup};
use frame_pool::FramePort;
use gui_num::{Colour, NoMemory};
use in_stream::{Front, InStream};
use io_ports::Outlet;
use std::alloc::Global;
use std::marker::Model;
use window_table::Pane;

// How many bytes the header of a message has.
const HEAD_LEN: usize = 12;

/// One guest's session: the bytes that were taken of it, its windows in the order of their CREATE, its
/// minor version, and why it ended, if it did. It knows no other guest, and nothing of what lies on
/// top of what.
///
/// A caller hands bytes to `push` and calls `turn` until it answers Wait. Where `turn` answers
/// ClipWhole or ClipOver, it calls `clip_done` before the next `turn`.
#[derive(Drop)]
pub struct Session {
    desk: Desk,
    stream: InStream,
    rows: Rows,
    minor: u32,
    ended: Option<Cause>,
    // Where the message of a grant is spelled: room for the longest one.
    room: Vec<u8>,
}

impl Model for Session {
    ghost use Rattle.std.specs.Prelude.{length};
    ghost use Rattle.guest_session.specs.SessionView.{SessionView};
    ghost use Rattle.guest_session.specs.Desk.{KeepsDesk, sizes_in};
    ghost use Rattle.guest_session.specs.Parts.{joined};

    ghost Value = { SessionView };

    ghost view = { λ s. joined (sizes_in s.desk s.rows) s.stream s.rows s.minor s.ended };

    ghost invariant = { λ s. KeepsDesk s.desk s.stream.limit (length s.room.items) };
}

// A room for so many bytes.
fn room_for(alloc: Global, len: usize) -> Result<Vec<u8>, NoMemory>
    ensures { IfOk result (λ room. length room.items ≡ len) }
{
    Ok(vec![in alloc; 0; len]?)
}

impl Session {
    /// The session of a guest, counted from 0, before any of its bytes, under a setup that keeps its
    /// rules. It takes all memory that it ever needs: `NoMemory` where there is none for it. No other call
    /// takes any.
    pub fn open(alloc: Global, guest: u32, setup: &Setup) -> Result<Session, NoMemory>
        requires rules { first_broken setup.now ≡ None }
        requires guest { guest < length setup.now.guests }
        ensures fresh { IfOk result (λ s. s ≡ opened guest (sizes_of setup.now) s.stream) }
        ensures greeted { IfOk result (λ s. s.stream.greeted ≡ false) }
        ensures stands { IfOk result (λ s. StandsFor s.stream []) }
    {
        Ok(Session {
            desk: desk_of(alloc, setup)?,
            stream: InStream::new(alloc, setup.clip_limit())?,
            rows: Rows::new(alloc, guest, setup.pages, setup.tiles)?,
            minor: 0,
            ended: None,
            room: room_for(alloc, HEAD_LEN + setup.clip_limit() as usize)?,
        })
    }

    /// Takes bytes of the guest from the front of `piece`, and answers how many. At least one byte of
    /// a piece that isn't empty is taken where no whole message is held: by the first call after
    /// `open`, and by the first call after a `turn` that answered Wait. After the end all bytes are
    /// taken and dropped.
    pub fn push(&mut self, piece: &[u8]) -> usize
        ensures within { result ≤ length piece.now }
        ensures stands { self.old.ended ≡ None → (rest : List ℕ) → StandsFor self.old.stream rest → StandsFor self.new.stream (rest ++ take result piece.now) }
        ensures some { self.old.ended ≡ None → (rest : List ℕ) → StandsFor self.old.stream rest → front self.old.stream.greeted rest ≡ cut.Wait → 0 < length piece.now → 0 < result }
        ensures kept { self.new ≡ with_stream self.new.stream self.old }
        ensures greeted { self.new.stream.greeted ≡ self.old.stream.greeted }
        ensures after_end { (cause : Cause) → self.old.ended ≡ Some cause → (result ≡ length piece.now) × (self.new ≡ self.old) }
    {
        if self.ended.is_some() {
            return piece.len();
        }
        self.stream.push(piece)
    }

    /// Takes at most one message off the bytes, or the version word, and answers the guest through the
    /// outlet. Wait exactly where none is there whole. A message that is refused ends the session with
    /// its cause, its windows are then gone, nothing is answered and no frame is read; that the session
    /// ended isn't posted here. After the end it answers Wait and does nothing.
    ///
    /// A version word whose major number isn't 1 is refused (`BadVersion`), what `InStream::front` and
    /// `message_checks::check` refuse, and an SHMIMAGE that would take more tiles than are free
    /// (`PixelBudget`). Answered are the version word, CONFIGURE, MAP where it puts the window
    /// elsewhere, WINDOW_FLAGS where it puts the window on a whole output, and from minor version 7
    /// on WINDOW_DUMP. That an agent below version 1.4 isn't told the daemon's own version is this
    /// project's own, and so are the limits of override-redirect windows. Of the port only this guest's
    /// frames are read, each pixel of a reported area once, row by row from the top and from left to
    /// right.
    pub fn turn<P: FramePort, O: Outlet>(&mut self, port: &mut P, out: &mut O) -> Turn
        requires guest { self.old.guest < P.guests port.old }
        requires pages { P.pages port.old ≡ self.old.sizes.pages }
        ensures turned { self.old.ended ≡ None → (rest : List ℕ) → StandsFor self.old.stream rest → Turns O.takes out.old out.new (P.state port.old self.old.guest) (P.state port.new self.old.guest) self.old self.new result (front self.old.stream.greeted rest) }
        ensures after_end { (cause : Cause) → self.old.ended ≡ Some cause → (result ≡ Turn.Wait) × (self.new ≡ self.old) × (out.new ≡ out.old) × (P.state port.new self.old.guest ≡ P.state port.old self.old.guest) }
        ensures port { ChangesFrames P.guests P.pages P.state self.old.guest port.old port.new }
    {
        if self.ended.is_some() {
            return Turn::Wait;
        }
        let turn = take_unit(
            &mut self.stream,
            &mut self.rows,
            &self.desk,
            &mut self.minor,
            port,
            out,
        );
        self.ended = ended_by(turn);
        turn
    }

    /// The clipboard data that stands in front, after `turn` answered ClipWhole.
    pub fn clip(&self) -> &[u8]
        requires { HasKeptClip self.now.sizes.clip_limit self.now.stream }
        ensures { (header : Header) (body : List ℕ) → BeginsWithClip self.now.stream header body → result.now ≡ body }
    {
        match self.stream.front() {
            Front::Whole { body, .. } => body,
            _ => &[],
        }
    }

    /// Drops the clipboard message that stands in front, after `turn` answered ClipWhole or ClipOver.
    pub fn clip_done(&mut self)
        requires { HasClip self.old.stream }
        ensures kept { self.new ≡ with_stream self.new.stream self.old }
        ensures drops { DropsUnit self.old.stream self.new.stream }
        ensures greeted { self.new.stream.greeted ≡ true }
    {
        self.stream.drop_front();
    }

    /// Ends the session for a cause that comes from outside its bytes. The guest's windows are gone.
    pub fn end(&mut self, cause: Cause)
        ensures { IsEnded self.old cause self.new }
    {
        self.rows.clear();
        self.ended = Some(cause);
    }

    /// Grants the guest an input: does to the window what is granted (another place, shown again) and
    /// posts the message that tells it, nothing where the window isn't there. `paste` is what CLIPBOARD_DATA
    /// carries, no more bytes than the clipboard's limit, and of no matter for all other inputs. A place is
    /// in the range of places: from -32768 to 32767, and from 1 by 1 to the greatest window.
    ///
    /// Posted are KEYPRESS, BUTTON, MOTION, CROSSING, FOCUS, KEYMAP_NOTIFY, CLOSE, CONFIGURE,
    /// CLIPBOARD_REQ and CLIPBOARD_DATA of the Qubes GUI protocol; a window that is shown again is told
    /// nothing.
    pub fn grant<O: Outlet>(&mut self, input: &GIn, paste: &[u8], out: &mut O)
        requires fits { FitsGrant input.now }
        requires paste { length paste.now ≤ self.old.sizes.clip_limit }
        ensures session { self.new ≡ record self.old { rows = (granted self.old.guest self.old.rows input.now paste.now).rows } }
        ensures told { Leads O.takes out.old (replies self.old.guest (granted self.old.guest self.old.rows input.now paste.now).answers) out.new }
    {
        grant(&mut self.rows, input, paste, &mut self.room, out);
    }

    /// Why the session ended, `None` exactly while it hasn't.
    pub fn ended(&self) -> Option<Cause>
        ensures { result ≡ self.now.ended }
    {
        self.ended
    }

    /// Whether the version word was taken.
    pub fn greeted(&self) -> bool
        ensures { result ≡ self.now.stream.greeted }
    {
        self.stream.greeted()
    }

    /// How many windows the guest has.
    pub fn count(&self) -> u32
        ensures is { result ≡ length self.now.rows }
        ensures sound { HasRows self.now }
    {
        self.rows.count()
    }

    /// What is kept of a window, `None` exactly where the guest has no such window.
    pub fn pane(&self, window: u32) -> Option<&Pane>
        ensures is { MatchOption result (row_with window self.now.rows ≡ None) (λ pane. ShowsRow window self.now.rows pane.now) }
        ensures place { IfSome result (λ pane. IsPlace pane.now.place) }
        ensures sound { HasRows self.now }
    {
        self.rows.pane(window)
    }

    /// What was last read at a pixel of a window, counted from the upper left corner of its place.
    /// `None` exactly where the guest has no such window, the pixel isn't in it, or nothing was read
    /// there.
    pub fn content(&self, window: u32, x: u32, y: u32) -> Option<Colour>
        ensures { option_map (λ c. c.0) result ≡ content_in (row_with window self.now.rows) x y }
    {
        self.rows.content(window, x, y).map(Colour)
    }

    /// Writes the colours of a window's pixels from column `x` on in row `y`, as many as `out` has
    /// room for: what was last read of each, `blank` where nothing was.
    pub fn content_row(&self, window: u32, x: u32, y: u32, blank: Colour, out: &mut [u32])
        requires { x + length out.old ≤ 65536 }
        ensures { out.new ≡ map (λ i. colour_or blank.0 (content_in (row_with window self.now.rows) i y)) (span x (length out.old)) }
    {
        self.rows.content_row(window, x, y, blank.0, out);
    }
}
