// The areas of windows that are read from frames.
ghost use Rattle.std.specs.Prelude.{◌≡◌, ℕ, ◌-◌, ◌<◌, ◌^◌, ◌||◌, ◌==◌, nat_lt, true, length};
ghost use Rattle.desk_laws.specs.Effects as effects;
ghost use Rattle.frame_pool.specs.Ports.{ChangesFrames};
ghost use Rattle.tile_store.specs.Held.{are_whole, rises};
ghost use Rattle.guest_session.specs.Areas.{Covers, area_in, dump_at};
ghost use Rattle.guest_session.specs.Reading.{rect_of};
ghost use Rattle.guest_session.specs.ReadTiles.{ReadsTiles, clipped_to, needed, width_in};

use crate::read::{Reported, read_area};
use desk_laws::Cause;
use frame_pool::FramePort;
use gui_num::Rect;
use tile_store::Tiles;
use window_table::{DumpSize, Table};

// The width of a dump, 0 where there is none.
pub(crate) fn width_of(size: Option<DumpSize>) -> u32
    ensures { result ≡ width_in size }
{
    match size {
        Some(size) => size.width,
        None => 0,
    }
}

// The part of a side from `from` on that lies below both limits.
fn side_within(from: u32, n: u32, limit: u32, other: u32) -> u32
    requires from { from < 2 ^ 31 }
    requires n { n < 2 ^ 31 }
    ensures { result ≡ effects.side_within from n limit other }
{
    (from + n).min(limit.min(other)).saturating_sub(from)
}

// The area of an SHMIMAGE clipped to a dump of this size and to a place.
pub(crate) fn clipped(
    place: Rect,
    dump: Option<DumpSize>,
    x: u32,
    y: u32,
    width: u32,
    height: u32,
) -> Reported
    requires x { x < 2 ^ 31 }
    requires y { y < 2 ^ 31 }
    requires width { width < 2 ^ 31 }
    requires height { height < 2 ^ 31 }
    ensures { area_in result ≡ clipped_to place dump x y width height }
{
    match dump {
        Some(size) => Reported {
            x,
            y,
            w: side_within(x, width, size.width, place.w),
            h: side_within(y, height, size.height, place.h),
        },
        None => Reported {
            x: 0,
            y: 0,
            w: 0,
            h: 0,
        },
    }
}

// Whether an area has no pixel.
fn is_empty(area: Reported) -> bool
    ensures { result ≡ (area.w == 0 || area.h == 0) }
{
    area.w == 0 || area.h == 0
}

// An area as a rectangle of its window.
fn rect_at(area: Reported) -> Rect
    requires x { area.x < 2 ^ 31 }
    requires y { area.y < 2 ^ 31 }
    ensures { result ≡ rect_of (area_in area) }
{
    Rect {
        x: area.x as i32,
        y: area.y as i32,
        w: area.w,
        h: area.h,
    }
}

// Reads an area of the window at a slot, whose dump has this width, into tiles, unless it would take
// more of them than are free.
pub(crate) fn read_at<P: FramePort>(
    tiles: &mut Tiles,
    table: &Table,
    slot: u32,
    dump_width: u32,
    area: Reported,
    guest: u32,
    port: &mut P,
) -> Result<Option<Rect>, Cause>
    requires guest { guest < P.guests port.old }
    requires covers { 0 < area.w → 0 < area.h → Covers (P.pages port.old) dump_width (area_in area) (dump_at slot table.now.entries) }
    ensures rising { rises tiles.old.held ≡ true }
    ensures whole { are_whole tiles.old.held ≡ true }
    ensures filled { ReadsTiles (P.state port.old guest) (P.state port.new guest) tiles.old tiles.new result slot (dump_at slot table.now.entries) (area_in area) (nat_lt (tiles.old.number - length tiles.old.held) (needed slot (area_in area) tiles.old.held)) }
    ensures port { ChangesFrames P.guests P.pages P.state guest port.old port.new }
{
    let free = tiles.free();
    if is_empty(area) {
        return Ok(None);
    }
    let rect = rect_at(area);
    let need = tiles.need(slot, rect);
    if need > free {
        return Err(Cause::PixelBudget { a: need, b: free });
    }
    tiles.open(slot, rect);
    read_area(tiles, table, slot, dump_width, area, guest, port);
    Ok(Some(rect))
}
