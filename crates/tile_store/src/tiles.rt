// The store.
ghost use Rattle.std.specs.Prelude.{◌≡◌, ◌≢◌, ℕ, ◌+◌, ◌-◌, ◌*◌, ◌/◌, ◌%◌, ◌<◌, ◌≤◌, ◌^◌, true, false, [], length, IfOk, pos, ◌≤ℤ◌, vec_capacity, vec_len, map, Some, slice_index};
ghost use Rattle.gui_num.specs.Rects.{IsFit, nat_of};
ghost use Rattle.desk_laws.specs.Rows.{span, grid};
ghost use Rattle.tile_store.specs.declared.square.TheConstants.{PIXELS};
ghost use Rattle.tile_store.specs.Spots.{spot_of, spot_at, pixel_of};
ghost use Rattle.tile_store.specs.Held.{TilesView, rises, are_whole, content, is_held, with_tile, opened, missing, tiles_along, tiles_met, written, swept, dropped, places_in_row};
ghost use Rattle.tile_store.specs.Kept.{tiles_in, laid, numbers, AreOnce};
ghost use Rattle.tile_store.specs.Contents.{KeepsAll, HoldsAll, KeepsHeld, ColoursOne, CutsAway, Empties, tiles_coloured, row_colours};

use crate::shelf::{Entry, add, close_up, has, read, read_part, sweep, write, write_row};
use crate::spot::Spot;
use crate::square::{SIDE, Square};
use desk_laws::TILE_SIDE;
use gui_num::{NoMemory, Point, Rect};
use std::alloc::Global;
use std::marker::Model;

/// What was read of windows, each known by a slot, any number of 32 bits that the caller names: for a
/// pixel of a slot a colour, or nothing. It is kept in square tiles of pixels, so many as were taken
/// memory for; nothing but its held tiles is kept for a slot.
///
/// The held tiles stand in the order of slot, row and column, and a tile is found by halving: among
/// 4096 tiles by at most 13 comparisons. Opening or giving back a tile moves the entries behind it, 16
/// bytes each, and no pixels. The pixels of all tiles lie in one block, 16 KB a tile, of which no page
/// is touched before as many tiles are held at once.
#[derive(Drop)]
pub struct Tiles {
    held: Vec<Entry>,
    squares: Vec<Square>,
    spare: Vec<u32>,
    number: u32,
}

impl Model for Tiles {
    ghost use Rattle.std.specs.Prelude.{vec_capacity};
    ghost use Rattle.tile_store.specs.Held.{TilesView};
    ghost use Rattle.tile_store.specs.Kept.{IsKept, tiles_in};

    ghost Value = { TilesView };

    ghost view = { λ t. record { number = t.number; held = tiles_in t.squares.items t.held.items } };

    ghost invariant = { λ t. IsKept t.held.items t.squares.items t.spare.items (vec_capacity t.held) (vec_capacity t.squares) (vec_capacity t.spare) t.number };
}

impl Tiles {
    /// A store of `tiles` tiles, none of them held. `NoMemory` where there is no memory for them; no
    /// later call takes any.
    pub fn new(alloc: Global, tiles: u32) -> Result<Tiles, NoMemory>
        ensures { IfOk result (λ store. store ≡ record { number = tiles; held = [] }) }
    {
        let held = Vec::with_capacity(alloc, tiles as usize)?;
        let squares = Vec::with_capacity(alloc, tiles as usize)?;
        let spare = Vec::with_capacity(alloc, tiles as usize)?;
        Ok(Tiles {
            held,
            squares,
            spare,
            number: tiles,
        })
    }

    /// How many tiles aren't held.
    pub fn free(&self) -> u32
        ensures free { result ≡ self.now.number - length self.now.held }
        ensures few { length self.now.held ≤ self.now.number }
        ensures rising { rises self.now.held ≡ true }
        ensures whole { are_whole self.now.held ≡ true }
    {
        self.number - self.held.len() as u32
    }

    /// How many of the tiles that a rectangle of a slot meets aren't held.
    pub fn need(&self, slot: u32, r: Rect) -> u32
        requires fit { IsFit r }
        requires x { pos 0 ≤ℤ r.x }
        requires y { pos 0 ≤ℤ r.y }
        ensures need { result ≡ missing slot (tiles_met r) self.now.held }
        ensures none { result ≡ 0 → HoldsAll slot r self.now.held }
    {
        let from = tile_of(r.x);
        let to = tile_past(r.x, r.w);
        let top = tile_of(r.y);
        let below = tile_past(r.y, r.h);
        count_missing(&self.held, slot, from, to, top, below)
    }

    /// Takes tiles for all that a rectangle of a slot meets. Contents stay.
    pub fn open(&mut self, slot: u32, r: Rect)
        requires fit { IsFit r }
        requires x { pos 0 ≤ℤ r.x }
        requires y { pos 0 ≤ℤ r.y }
        requires room { missing slot (tiles_met r) self.old.held ≤ self.old.number - length self.old.held }
        ensures opened { self.new ≡ record self.old { held = opened slot (tiles_met r) self.old.held } }
        ensures count { length self.new.held ≡ length self.old.held + missing slot (tiles_met r) self.old.held }
        ensures contents { KeepsAll self.old.held self.new.held }
        ensures holds { HoldsAll slot r self.new.held }
        ensures stay { KeepsHeld self.old.held self.new.held }
    {
        let from = tile_of(r.x);
        let to = tile_past(r.x, r.w);
        let top = tile_of(r.y);
        let below = tile_past(r.y, r.h);
        let _ = &self.held;
        for row in top..below {
            self.open_row(slot, row, from, to);
        }
    }

    // Takes tiles for a row of tiles, from one column up to another.
    fn open_row(&mut self, slot: u32, row: u32, from: u32, to: u32)
        requires columns { from ≤ to }
        requires room { length self.old.held + missing slot (places_in_row row from (to - from)) self.old.held ≤ self.old.number }
        ensures { self.new ≡ record self.old { held = opened slot (places_in_row row from (to - from)) self.old.held } }
    {
        for column in from..to {
            self.open_one(Spot { slot, column, row });
        }
    }

    // Takes a tile for a spot.
    fn open_one(&mut self, spot: Spot)
        requires { is_held spot self.old.held ≡ false → length self.old.held < self.old.number }
        ensures { self.new ≡ record self.old { held = with_tile spot self.old.held } }
    {
        add(&mut self.held, &mut self.squares, &mut self.spare, spot);
    }

    /// Gives a pixel of a slot, whose tile is held, a colour.
    pub fn put(&mut self, slot: u32, p: Point, colour: u32)
        requires x { pos 0 ≤ℤ p.x }
        requires y { pos 0 ≤ℤ p.y }
        requires held { is_held (spot_at slot p) self.old.held ≡ true }
        requires colour { colour ≤ 16777215 }
        ensures put { self.new ≡ record self.old { held = written (spot_at slot p) (pixel_of p) colour self.old.held } }
        ensures one { ColoursOne slot p colour self.old.held self.new.held }
        ensures stay { KeepsHeld self.old.held self.new.held }
    {
        write(
            &self.held,
            &mut self.squares,
            lies_in(slot, p),
            index_of(p),
            colour,
        );
    }

    /// Gives the pixels of a slot from column `x` on in row `y` these colours, from left to right. They
    /// lie in one tile, which is held.
    pub fn put_row(&mut self, slot: u32, x: u32, y: u32, colours: &[u32])
        requires held { is_held (spot_of slot (x / TILE_SIDE, y / TILE_SIDE)) self.old.held ≡ true }
        requires columns { x % TILE_SIDE + length colours.now ≤ TILE_SIDE }
        requires colours { (i : ℕ) → i < length colours.now → slice_index colours.now i ≤ 16777215 }
        ensures put { self.new ≡ record self.old { held = tiles_coloured slot (places_in_row y x (length colours.now)) colours.now self.old.held } }
        ensures stay { KeepsHeld self.old.held self.new.held }
    {
        let spot = Spot {
            slot,
            column: x / TILE_SIDE,
            row: y / TILE_SIDE,
        };
        let k = y as usize % SIDE * SIDE + x as usize % SIDE;
        write_row(&self.held, &mut self.squares, spot, k, colours);
    }

    /// The colour of a pixel of a slot, `None` exactly where nothing was put there since it was last
    /// cut away.
    pub fn at(&self, slot: u32, p: Point) -> Option<u32>
        ensures { result ≡ content slot p self.now.held }
    {
        if p.x < 0 || p.y < 0 {
            return None;
        }
        read(&self.held, &self.squares, lies_in(slot, p), index_of(p))
    }

    /// Writes the colours of a slot's pixels from column `x` on in row `y`, as many as `out` has room
    /// for: what was put at each, `blank` where nothing was.
    pub fn read_row(&self, slot: u32, x: u32, y: u32, blank: u32, out: &mut [u32])
        requires { x + length out.old ≤ 65536 }
        ensures { out.new ≡ row_colours slot blank x y (length out.old) self.now.held }
    {
        read_parts(&self.held, &self.squares, slot, x, y, blank, out);
    }

    /// Forgets the pixels of a slot outside its first `w` columns and `h` rows, and gives back each of
    /// its tiles that has no pixel left.
    pub fn cut(&mut self, slot: u32, w: u32, h: u32)
        ensures cut { self.new ≡ record self.old { held = swept slot w h self.old.held } }
        ensures pixels { CutsAway slot w h self.old.held self.new.held }
    {
        sweep(
            &mut self.held,
            &mut self.squares,
            &mut self.spare,
            slot,
            w,
            h,
        );
    }

    /// Forgets all pixels of a slot, and gives back its tiles.
    pub fn drop_slot(&mut self, slot: u32)
        ensures dropped { self.new ≡ record self.old { held = dropped slot self.old.held } }
        ensures pixels { Empties slot self.old.held self.new.held }
    {
        close_up(&mut self.held, &self.squares, &mut self.spare, slot, true);
    }

    /// Forgets all pixels, and gives back all tiles.
    pub fn clear(&mut self)
        ensures { self.new ≡ record self.old { held = [] } }
    {
        self.held.clear();
        self.squares.clear();
        self.spare.clear();
    }
}

// The spot in which a pixel of a slot lies.
fn lies_in(slot: u32, p: Point) -> Spot
    requires x { pos 0 ≤ℤ p.x }
    requires y { pos 0 ≤ℤ p.y }
    ensures { result ≡ spot_at slot p }
{
    Spot {
        slot,
        column: p.x as u32 / TILE_SIDE,
        row: p.y as u32 / TILE_SIDE,
    }
}

// Which of its tile's pixels a pixel is.
fn index_of(p: Point) -> usize
    requires x { pos 0 ≤ℤ p.x }
    requires y { pos 0 ≤ℤ p.y }
    ensures pixel { result ≡ pixel_of p }
    ensures within { result < PIXELS }
{
    p.y as usize % SIDE * SIDE + p.x as usize % SIDE
}

// The column or row of tiles in which a coordinate lies.
fn tile_of(a: i32) -> u32
    requires { pos 0 ≤ℤ a }
    ensures { result ≡ nat_of a / TILE_SIDE }
{
    a as u32 / TILE_SIDE
}

// The column or row of tiles behind those that n pixels from a on meet.
fn tile_past(a: i32, n: u32) -> u32
    requires low { pos 0 ≤ℤ a }
    requires high { a ≤ℤ pos 65535 }
    requires n { n ≤ 32768 }
    ensures past { result ≡ nat_of a / TILE_SIDE + tiles_along (nat_of a) n }
    ensures few { tiles_along (nat_of a) n ≤ 1024 }
{
    if n == 0 {
        return tile_of(a);
    }
    (a as u32 + n + (TILE_SIDE - 1)) / TILE_SIDE
}

// How many tiles of a slot aren't held, from one column up to another and from one row up to another.
fn count_missing(held: &[Entry], slot: u32, from: u32, to: u32, top: u32, below: u32) -> u32
    requires rising { rises (laid held.now) ≡ true }
    requires columns { from ≤ to }
    requires wide { to - from ≤ 1024 }
    requires rows { top ≤ below }
    requires high { below - top ≤ 1024 }
    ensures { result ≡ missing slot (grid from top (to - from) (below - top)) (laid held.now) }
{
    let mut count = 0;
    for row in top..below {
        count += missing_in_row(held, slot, row, from, to);
    }
    count
}

// How many tiles of a slot's row of tiles aren't held, from one column up to another.
fn missing_in_row(held: &[Entry], slot: u32, row: u32, from: u32, to: u32) -> u32
    requires rising { rises (laid held.now) ≡ true }
    requires columns { from ≤ to }
    ensures count { result ≡ missing slot (places_in_row row from (to - from)) (laid held.now) }
    ensures few { result ≤ to - from }
{
    let mut count = 0;
    for column in from..to {
        if !has(held, Spot { slot, column, row }) {
            count += 1;
        }
    }
    count
}

// Writes the colours of a slot's pixels from column x on in row y, those of one tile after those of
// another.
fn read_parts(
    held: &[Entry],
    squares: &[Square],
    slot: u32,
    x: u32,
    y: u32,
    blank: u32,
    out: &mut [u32],
)
    requires rising { rises (tiles_in squares.now held.now) ≡ true }
    requires once { AreOnce (numbers held.now) (length squares.now) }
    requires columns { x + length out.old ≤ 65536 }
    ensures { out.new ≡ row_colours slot blank x y (length out.old) (tiles_in squares.now held.now) }
{
    let mut done = 0;
    let mut near = 0;
    while done < out.len() {
        let from = x + done as u32;
        let spot = Spot {
            slot,
            column: from / TILE_SIDE,
            row: y / TILE_SIDE,
        };
        let n = part_of(from, out.len() - done);
        let k = y as usize % SIDE * SIDE + from as usize % SIDE;
        near = read_part(held, squares, near, spot, k, n, blank, out, done);
        done += n;
    }
}

// How many of n pixels from a column on lie in one tile.
fn part_of(from: u32, n: usize) -> usize
    requires { 0 < n }
    ensures some { 0 < result }
    ensures few { result ≤ n }
    ensures one_tile { from % TILE_SIDE + result ≤ TILE_SIDE }
{
    let room = SIDE - from as usize % SIDE;
    if n < room { n } else { room }
}
