// The pixels of a part of a window, read from its dump into its tiles.
ghost use Rattle.std.specs.Prelude.{◌≡◌, ℕ, ◌+◌, ◌/◌, ◌%◌, ◌<◌, ◌≤◌, true, length, map, Some};
ghost use Rattle.desk_laws.specs.Rows.{DumpOf};
ghost use Rattle.desk_laws.specs.Effects.{frame_place, points};
ghost use Rattle.frame_pool.specs.Ports.{ChangesFrames};
ghost use Rattle.frame_pool.specs.Runs.{run_of};
ghost use Rattle.desk_laws.specs.declared.limits.TheConstants.{PAGE_WORDS};
ghost use Rattle.tile_store.specs.Spots.{spot_of};
ghost use Rattle.tile_store.specs.Held.{is_held, places_in_row};
ghost use Rattle.tile_store.specs.Contents.{HoldsAll, KeepsHeld, tiles_coloured};
ghost use Rattle.guest_session.specs.Reading.{rect_of, area_loads};
ghost use Rattle.guest_session.specs.Areas.{Covers, area_in, dump_at, row_in, run_at, pixel_at, colour_of, tiles_read, frames_read};

use desk_laws::{PAGE_BYTES, PAGE_WORDS};
use frame_pool::{FramePort, Place};
use tile_store::Tiles;
use window_table::Table;

// What of a window was reported, within its dump and its place: columns x to x + w and rows y to y + h.
#[derive(Clone, Copy)]
pub(crate) struct Reported {
    pub(crate) x: u32,
    pub(crate) y: u32,
    pub(crate) w: u32,
    pub(crate) h: u32,
}

// Reads an area of the window at a slot, whose dump has this width: each pixel once, row by row from
// the top and from left to right. There is a tile for each.
pub(crate) fn read_area<P: FramePort>(
    tiles: &mut Tiles,
    table: &Table,
    slot: u32,
    dump_width: u32,
    area: Reported,
    guest: u32,
    port: &mut P,
)
    requires guest { guest < P.guests port.old }
    requires covers { Covers (P.pages port.old) dump_width (area_in area) (dump_at slot table.now.entries) }
    requires held { HoldsAll slot (rect_of (area_in area)) tiles.old.held }
    ensures tiles { tiles.new ≡ record tiles.old { held = tiles_coloured slot (points (area_in area)) (area_loads (P.state port.old guest) (dump_at slot table.now.entries) (area_in area)).words tiles.old.held } }
    ensures frames { P.state port.new guest ≡ (area_loads (P.state port.old guest) (dump_at slot table.now.entries) (area_in area)).port }
    ensures port { ChangesFrames P.guests P.pages P.state guest port.old port.new }
{
    let below = area.y + area.h;
    for y in area.y..below {
        read_row_of(tiles, table, slot, dump_width, area, y, guest, port);
    }
}

// Reads a row of an area, from left to right.
fn read_row_of<P: FramePort>(
    tiles: &mut Tiles,
    table: &Table,
    slot: u32,
    dump_width: u32,
    area: Reported,
    y: u32,
    guest: u32,
    port: &mut P,
)
    requires guest { guest < P.guests port.old }
    requires covers { Covers (P.pages port.old) dump_width (row_in (area_in area) y) (dump_at slot table.now.entries) }
    requires held { HoldsAll slot (rect_of (row_in (area_in area) y)) tiles.old.held }
    ensures tiles { tiles.new ≡ record tiles.old { held = tiles_read slot (dump_at slot table.now.entries) (places_in_row y area.x area.w) (P.state port.old guest) tiles.old.held } }
    ensures stay { KeepsHeld tiles.old.held tiles.new.held }
    ensures frames { P.state port.new guest ≡ frames_read (dump_at slot table.now.entries) (places_in_row y area.x area.w) (P.state port.old guest) }
    ensures port { ChangesFrames P.guests P.pages P.state guest port.old port.new }
{
    let past = area.x + area.w;
    let mut x = area.x;
    while x < past {
        x += read_run(tiles, table, slot, dump_width, x, y, past - x, guest, port);
    }
}

// Reads pixels of a row from a column on, at most so many: those that lie in one tile, and whose words lie in
// one page. Answers how many.
fn read_run<P: FramePort>(
    tiles: &mut Tiles,
    table: &Table,
    slot: u32,
    dump_width: u32,
    x: u32,
    y: u32,
    most: u32,
    guest: u32,
    port: &mut P,
) -> u32
    requires guest { guest < P.guests port.old }
    requires some { 0 < most }
    requires covers { Covers (P.pages port.old) dump_width (run_at x y most) (dump_at slot table.now.entries) }
    requires held { is_held (spot_of slot (x / 64, y / 64)) tiles.old.held ≡ true }
    ensures some { 0 < result }
    ensures few { result ≤ most }
    ensures tiles { tiles.new ≡ record tiles.old { held = tiles_read slot (dump_at slot table.now.entries) (places_in_row y x result) (P.state port.old guest) tiles.old.held } }
    ensures stay { KeepsHeld tiles.old.held tiles.new.held }
    ensures frames { P.state port.new guest ≡ frames_read (dump_at slot table.now.entries) (places_in_row y x result) (P.state port.old guest) }
    ensures port { ChangesFrames P.guests P.pages P.state guest port.old port.new }
{
    let place = place_of(table, slot, dump_width, x, y);
    let n = run_len(x, place.word, most);
    let mut room = [0; 64];
    let colours = &mut room[..n as usize];
    load_colours(port, guest, place, colours);
    tiles.put_row(slot, x, y, colours);
    n
}

// How many pixels from a column on, the first of which has this word of its page, lie in one tile and one page;
// at most so many.
fn run_len(x: u32, word: u32, most: u32) -> u32
    requires some { 0 < most }
    requires word { word < PAGE_WORDS }
    ensures some { 0 < result }
    ensures few { result ≤ most }
    ensures tile { x % 64 + result ≤ 64 }
    ensures page { word + result ≤ PAGE_WORDS }
{
    most.min(64 - x % 64).min(PAGE_WORDS - word)
}

// Loads words of a page: the low 24 bits of each are the colour of a pixel.
fn load_colours<P: FramePort>(port: &mut P, guest: u32, place: Place, colours: &mut [u32])
    requires guest { guest < P.guests port.old }
    requires page { place.page < P.pages port.old }
    requires end { place.word + length colours.old ≤ PAGE_WORDS }
    ensures colours { colours.new ≡ map colour_of (run_of (P.state port.old guest) place.page place.word (length colours.old)).words }
    ensures frames { P.state port.new guest ≡ (run_of (P.state port.old guest) place.page place.word (length colours.old)).port }
    ensures port { ChangesFrames P.guests P.pages P.state guest port.old port.new }
{
    port.load_run(guest, place, colours);
    mask(colours);
}

// Keeps the low 24 bits of each word.
fn mask(words: &mut [u32])
    ensures { words.new ≡ map colour_of words.old }
{
    for k in 0..words.len() {
        words[k] %= 0x100_0000;
    }
}

// Where the word of a pixel lies: four bytes a pixel, row by row, page after page.
fn place_of(table: &Table, slot: u32, dump_width: u32, x: u32, y: u32) -> Place
    requires covers { (pages : ℕ) × Covers pages dump_width (pixel_at x y) (dump_at slot table.now.entries) }
    ensures place { (dump : DumpOf) → dump_at slot table.now.entries ≡ Some dump → frame_place dump (x, y) ≡ record { page = result.page; word = result.word } }
    ensures page { (pages : ℕ) → Covers pages dump_width (pixel_at x y) (dump_at slot table.now.entries) → result.page < pages }
    ensures word { result.word < PAGE_WORDS }
{
    let byte = 4 * (y * dump_width + x);
    Place {
        page: table.ref_at(slot, byte / PAGE_BYTES),
        word: byte % PAGE_BYTES / 4,
    }
}
