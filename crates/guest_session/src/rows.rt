// The windows of one guest, and what its messages do to them.
ghost use Rattle.std.specs.Prelude.{◌≡◌, ℕ, ◌+◌, ◌-◌, ◌<◌, ◌≤◌, ◌^◌, ◌&&◌, min, nat_lt, slice_get, [], true, false, length, map, is_some, Some, None, IfOk, IfSome, MatchOption, MatchResult, if◌then◌else◌};
ghost use Rattle.gui_wire.specs.Seen.{message, references};
ghost use Rattle.desk_laws.specs.Rows.{Row, row_with, span};
ghost use Rattle.gui_num.specs.Rects.{area, grown};
ghost use Rattle.desk_laws.specs.Sizes.{Sizes};
ghost use Rattle.desk_laws.specs.Override.{taken_by, taken_besides};
ghost use Rattle.desk_laws.specs.Effects.{Added, Removed, clipped, created, id_if, reads, refs_besides};
ghost use Rattle.desk_laws.specs.Checks.{first_cause};
ghost use Rattle.gui_wire.specs.declared.limits.TheConstants.{MAX_WINDOW_HEIGHT, MAX_WINDOW_WIDTH};
ghost use Rattle.desk_laws.specs.declared.limits.TheConstants.{MAX_PAGES, MAX_WINDOWS};
ghost use Rattle.desk_laws.specs.Ranges.{IsPlace};
ghost use Rattle.message_checks.specs.Commands.{IsCommandOf};
ghost use Rattle.frame_pool.specs.Ports.{ChangesFrames};
ghost use Rattle.guest_session.specs.SessionView.{AreRows};
ghost use Rattle.guest_session.specs.Panes.{ShowsRow};
ghost use Rattle.tile_store.specs.Held.{colour_at, swept};
ghost use Rattle.tile_store.specs.Contents.{CutsAway, colour_or};
ghost use Rattle.guest_session.specs.Placing.{most_taken, standing_of};
ghost use Rattle.guest_session.specs.RowsView.{FitsDump, with_change, with_row, with_dump};
ghost use Rattle.guest_session.specs.Edits.{EditsPixels, FitsEdit, row_edited, tiles_edited};
ghost use Rattle.guest_session.specs.Reading.{ReadsAs, content_in};

use crate::edit::{Edit, edit_pane};
use crate::report::{clipped, read_at, width_of};
use desk_laws::{Cause, Ids};
use frame_pool::FramePort;
use gui_num::{NoMemory, Point, Rect, area, grow};
use gui_wire::{AgentMsg, Header, Refs};
use message_checks::{Command, Limits};
use std::alloc::Global;
use std::marker::Model;
use tile_store::Tiles;
use window_table::{Pane, Table};

// The most pixels that override-redirect windows are counted to take: more than any desktop has.
const MOST_TAKEN: u64 = 0x1_0000_0000;

// What of a window decides where it is put: its place, whether it is mapped and whether it is an
// override-redirect window, and its flags.
#[derive(Clone, Copy)]
pub(crate) struct Standing {
    pub(crate) place: Rect,
    pub(crate) mapped: bool,
    pub(crate) over: bool,
    pub(crate) flags: u32,
}

// The windows of one guest and what was read of their pixels, seen as the rows of the definitions.
#[derive(Drop)]
pub(crate) struct Rows {
    guest: u32,
    table: Table,
    tiles: Tiles,
}

impl Model for Rows {
    ghost use Rattle.guest_session.specs.RowsView.{RowsView, AreKept, viewed};

    ghost Value = { RowsView };

    ghost view = { λ r. viewed r.guest r.table r.tiles };

    ghost invariant = { λ r. AreKept r.table r.tiles.held };
}

impl Rows {
    // No window, for a guest whose frames have so many pages and whose windows may take so many tiles.
    // It takes all memory that is ever needed.
    pub(crate) fn new(alloc: Global, guest: u32, pages: u32, tiles: u32) -> Result<Rows, NoMemory>
        requires pages { pages ≤ MAX_PAGES }
        ensures { IfOk result (λ rows. rows ≡ record { guest = guest; pages = pages; tiles = tiles; rows = [] }) }
    {
        Ok(Rows {
            guest,
            table: Table::new(alloc, pages)?,
            tiles: Tiles::new(alloc, tiles)?,
        })
    }

    // The guest's number.
    pub(crate) fn guest(&self) -> u32
        ensures { result ≡ self.now.guest }
    {
        self.guest
    }

    // How many windows there are.
    pub(crate) fn count(&self) -> u32
        ensures is { result ≡ length self.now.rows }
        ensures sound { AreRows self.now.guest self.now.rows }
    {
        self.table.len()
    }

    // What is kept of a window, `None` exactly where there is none.
    pub(crate) fn pane(&self, window: u32) -> Option<&Pane>
        ensures is { MatchOption result (row_with window self.now.rows ≡ None) (λ pane. ShowsRow window self.now.rows pane.now) }
        ensures place { IfSome result (λ pane. IsPlace pane.now.place) }
        ensures sound { AreRows self.now.guest self.now.rows }
    {
        match self.table.slot_of(window) {
            Some(slot) => Some(self.table.get(slot)),
            None => None,
        }
    }

    // What of a window decides where it is put, `None` where there is no such window.
    pub(crate) fn standing(&self, window: u32) -> Option<Standing>
        ensures is { (row : Row) → row_with window self.now.rows ≡ Some row → result ≡ Some (standing_of row) }
        ensures place { IfSome result (λ standing. IsPlace standing.place) }
    {
        match self.pane(window) {
            Some(pane) => Some(Standing {
                place: pane.place,
                mapped: pane.mapped,
                over: pane.over,
                flags: pane.flags,
            }),
            None => None,
        }
    }

    // The outer areas, in pixels, of the mapped override-redirect windows but this one, together; 2^32
    // stands for more, too.
    pub(crate) fn taken_besides(&self, window: u32, border: u32) -> u64
        requires border { border ≤ 16 }
        ensures { result ≡ min most_taken (taken_besides border window self.now.rows) }
    {
        let mut taken = 0;
        for i in 0..self.table.len() {
            taken = MOST_TAKEN.min(taken + self.taken_by(i, window, border));
        }
        taken
    }

    // The outer area, in pixels, of the window with index i, where it is a mapped override-redirect
    // window other than this one, and 0 else.
    fn taken_by(&self, i: u32, window: u32, border: u32) -> u64
        requires i { i < length self.now.rows }
        requires border { border ≤ 16 }
        ensures is { (row : Row) → slice_get self.now.rows i ≡ Some row → result ≡ taken_by border window row }
        ensures small { result ≤ 2 ^ 30 }
    {
        let slot = self.table.nth_slot(i);
        taken_of(
            self.table.get(slot),
            self.table.window_at(slot) != window,
            border,
        )
    }

    // A name of a window that is there, and 0 in the place of another.
    pub(crate) fn known(&self, window: u32) -> u32
        ensures { result ≡ id_if (is_some (row_with window self.now.rows)) window }
    {
        if self.table.known(window) { window } else { 0 }
    }

    // Checks a message among these windows.
    pub(crate) fn check<'a>(&self, msg: &AgentMsg<'a>, header: Header) -> Result<Command<'a>, Cause>
        ensures first { MatchResult result
            (λ _. first_cause self.now.pages self.now.rows header (message msg.now) ≡ None)
            (λ cause. first_cause self.now.pages self.now.rows header (message msg.now) ≡ Some cause) }
        ensures command { MatchResult result (IsCommandOf (message msg.now)) (λ _. Unit {0}) }
    {
        let limits = Limits {
            pages: self.table.pages(),
        };
        message_checks::check(msg, header, &limits, &self.table)
    }

    // Adds a window, the last one.
    pub(crate) fn create(&mut self, window: u32, place: Rect, parent: u32, asked: bool)
        requires unknown { row_with window self.old.rows ≡ None }
        requires room { length self.old.rows < MAX_WINDOWS }
        requires place { IsPlace place }
        ensures { self.new ≡ with_change (Added (created self.old.guest window place parent asked)) self.old }
    {
        self.table.add(window, place, parent, asked);
    }

    // Removes a window, and where others name it they name 0.
    pub(crate) fn destroy(&mut self, window: u32)
        ensures { (row : Row) → row_with window self.old.rows ≡ Some row → self.new ≡ with_change (Removed window) self.old }
    {
        if let Some(slot) = self.table.slot_of(window) {
            self.table.remove(slot);
            self.tiles.drop_slot(slot);
        }
    }

    // Changes a window.
    pub(crate) fn edit(&mut self, window: u32, edit: &Edit<'_>)
        requires { FitsEdit edit.now }
        ensures { (row : Row) → row_with window self.old.rows ≡ Some row → self.new ≡ with_row (row_edited edit.now row) self.old }
    {
        if let Some(slot) = self.table.slot_of(window) {
            edit_pane(self.table.get_mut(slot), edit);
            cut_for(&mut self.tiles, slot, edit);
        }
    }

    // Gives a window a dump of this size, in pixels, with these page references.
    pub(crate) fn set_dump(&mut self, window: u32, width: u32, height: u32, refs: &Refs<'_>)
        requires budget { refs_besides window self.old.rows + length (references refs.now) ≤ self.old.pages }
        requires fits { FitsDump self.old.pages width height (references refs.now) }
        ensures { (row : Row) → row_with window self.old.rows ≡ Some row → self.new ≡ with_row (with_dump width height (references refs.now) row) self.old }
    {
        if let Some(slot) = self.table.slot_of(window) {
            self.table.set_refs(slot, refs, width, height);
        }
    }

    // Removes all windows.
    pub(crate) fn clear(&mut self)
        ensures { self.new ≡ record self.old { rows = [] } }
    {
        self.table.clear();
        self.tiles.clear();
    }

    // What was last read at a pixel of a window.
    pub(crate) fn content(&self, window: u32, x: u32, y: u32) -> Option<u32>
        ensures { result ≡ content_in (row_with window self.now.rows) x y }
    {
        match self.table.slot_of(window) {
            Some(slot) => colour_of(&self.tiles, slot, self.table.get(slot).place, x, y),
            None => None,
        }
    }

    // Writes the colours of a window's pixels from column `x` on in row `y`, `blank` where nothing was
    // read.
    pub(crate) fn content_row(&self, window: u32, x: u32, y: u32, blank: u32, out: &mut [u32])
        requires { x + length out.old ≤ 65536 }
        ensures { out.new ≡ map (λ i. colour_or blank (content_in (row_with window self.now.rows) i y)) (span x (length out.old)) }
    {
        match self.table.slot_of(window) {
            Some(slot) => self.tiles.read_row(slot, x, y, blank, out),
            None => out.fill(blank),
        }
    }

    // Reads an area of a window from the guest's frames, and answers what was read of it. `PixelBudget`
    // where it would take more tiles than are free; nothing is read then.
    pub(crate) fn read<P: FramePort>(
        &mut self,
        window: u32,
        x: u32,
        y: u32,
        width: u32,
        height: u32,
        port: &mut P,
    ) -> Result<Option<Rect>, Cause>
        requires guest { self.old.guest < P.guests port.old }
        requires pages { P.pages port.old ≡ self.old.pages }
        requires x { x < 2 ^ 31 }
        requires y { y < 2 ^ 31 }
        requires width { width < 2 ^ 31 }
        requires height { height < 2 ^ 31 }
        ensures reads { (sizes : Sizes) → sizes.tiles ≡ self.old.tiles → (row : Row) → row_with window self.old.rows ≡ Some row →
            ReadsAs (P.state port.old self.old.guest) (P.state port.new self.old.guest) self.old self.new result (reads sizes self.old.rows row (clipped row row.dump x y width height)) }
        ensures port { ChangesFrames P.guests P.pages P.state self.old.guest port.old port.new }
    {
        match self.table.slot_of(window) {
            Some(slot) => {
                let place = self.table.get(slot).place;
                let size = self.table.dump_at(slot);
                let area = clipped(place, size, x, y, width, height);
                read_at(
                    &mut self.tiles,
                    &self.table,
                    slot,
                    width_of(size),
                    area,
                    self.guest,
                    port,
                )
            }
            None => Ok(None),
        }
    }
}

// The colour of a slot's pixel within this place.
fn colour_of(tiles: &Tiles, slot: u32, place: Rect, x: u32, y: u32) -> Option<u32>
    requires w { place.w ≤ MAX_WINDOW_WIDTH }
    requires h { place.h ≤ MAX_WINDOW_HEIGHT }
    ensures { result ≡ (if nat_lt x place.w && nat_lt y place.h then colour_at slot x y tiles.now.held else None) }
{
    if x < place.w && y < place.h {
        tiles.at(
            slot,
            Point {
                x: x as i32,
                y: y as i32,
            },
        )
    } else {
        None
    }
}

// The outer area of a window, in pixels, where it is a mapped override-redirect window, and one of the
// others.
fn taken_of(pane: &Pane, other: bool, border: u32) -> u64
    requires place { IsPlace pane.now.place }
    requires border { border ≤ 16 }
    ensures is { result ≡ (if (pane.now.mapped && pane.now.over) && other then area (grown pane.now.place border) else 0) }
    ensures small { result ≤ 2 ^ 30 }
{
    if pane.mapped && pane.over && other {
        area(grow(pane.place, border))
    } else {
        0
    }
}

// Forgets what lies outside this size of the window at a slot.
fn cut_to(tiles: &mut Tiles, slot: u32, place: Rect)
    ensures tiles { tiles.new ≡ record tiles.old { held = swept slot place.w place.h tiles.old.held } }
    ensures pixels { CutsAway slot place.w place.h tiles.old.held tiles.new.held }
{
    tiles.cut(slot, place.w, place.h);
}

// Forgets what lies outside the size that a change gives the window at a slot.
fn cut_for(tiles: &mut Tiles, slot: u32, edit: &Edit<'_>)
    ensures tiles { tiles.new ≡ record tiles.old { held = tiles_edited edit.now slot tiles.old.held } }
    ensures pixels { EditsPixels edit.now slot tiles.old.held tiles.new.held }
{
    match *edit {
        Edit::Configure { place, .. } => cut_to(tiles, slot, place),
        Edit::Fill { place, .. } => cut_to(tiles, slot, place),
        _ => {}
    }
}
