// The tiles that are held, in the order of their spots.
ghost use Rattle.std.specs.Prelude.{◌≡◌, ℕ, ◌+◌, ◌-◌, ◌*◌, ◌<◌, ◌≤◌, ◌^◌, true, false, [], ◌∷◌, ◌++◌, length, take, drop, Some, None, slice_index, slice_index_or, slice_set, vec_len, vec_capacity, map, filter};
ghost use Rattle.tile_store.specs.declared.shelf.Entry.{Entry};
ghost use Rattle.tile_store.specs.Kept.{tile_in, tiles_in, laid, numbers, times, AreOnce, AreOwned, TakesSquare, ClosesOne, cut_at, stays};
ghost use Rattle.tile_store.specs.declared.square.TheConstants.{PIXELS};
ghost use Rattle.tile_store.specs.Spots.{before, same};
ghost use Rattle.tile_store.specs.Squares.{blank};
ghost use Rattle.tile_store.specs.Held.{tile_at, is_held, pixel_in, rises, with_tile, written, row_written, swept, cut_tile, is_left, blank_tile};
ghost use Rattle.tile_store.specs.Contents.{colour_or};
ghost use Rattle.tile_store.specs.Places.{IsPlaceFor, is_first};

use crate::spot::{Spot, is_before, is_same};
use crate::square::Square;
use desk_laws::TILE_SIDE;

// A tile that is held: where it lies, and the number of its square.
#[derive(Clone, Copy)]
pub struct Entry {
    pub spot: Spot,
    pub number: u32,
}

// How many tiles come before a spot.
pub(crate) fn place_for(held: &[Entry], spot: Spot) -> usize
    ensures { IsPlaceFor spot (laid held.now) result }
{
    let mut low = 0;
    let mut high = held.len();
    while low < high {
        let middle = low + (high - low) / 2;
        if is_before(held[middle].spot, spot) {
            low = middle + 1;
        } else {
            high = middle;
        }
    }
    low
}

// The same, where `near` is a place that is looked at first.
fn place_near(held: &[Entry], near: usize, spot: Spot) -> usize
    requires { rises (laid held.now) ≡ true }
    ensures { IsPlaceFor spot (laid held.now) result }
{
    if is_at(held, near, spot) {
        near
    } else {
        place_for(held, spot)
    }
}

// Whether the tile at this place lies at the spot.
fn is_at(held: &[Entry], i: usize, spot: Spot) -> bool
    ensures { result ≡ is_first spot (drop i (laid held.now)) }
{
    i < held.len() && is_same(held[i].spot, spot)
}

// Whether a tile is held.
pub(crate) fn has(held: &[Entry], spot: Spot) -> bool
    requires { rises (laid held.now) ≡ true }
    ensures { result ≡ is_held spot (laid held.now) }
{
    is_at(held, place_for(held, spot), spot)
}

// The colour of a pixel of the tile at a spot, if the tile is held and something was read there.
pub(crate) fn read(held: &[Entry], squares: &[Square], spot: Spot, k: usize) -> Option<u32>
    requires rising { rises (tiles_in squares.now held.now) ≡ true }
    requires once { AreOnce (numbers held.now) (length squares.now) }
    requires k { k < PIXELS }
    ensures { result ≡ pixel_in k (tile_at spot (tiles_in squares.now held.now)) }
{
    let i = place_for(held, spot);
    if is_at(held, i, spot) {
        let square = &squares[held[i].number as usize];
        square.get(k)
    } else {
        None
    }
}

// Writes the colours of n pixels of the tile at a spot, from the one with number k on, behind the
// first `at` places of `out`, `blank` where nothing was read or the tile isn't held. The place `near` is
// looked at first, and the answer is the place behind the tile: there the next one is, if it is held.
pub(crate) fn read_part(
    held: &[Entry],
    squares: &[Square],
    near: usize,
    spot: Spot,
    k: usize,
    n: usize,
    blank: u32,
    out: &mut [u32],
    at: usize,
) -> usize
    requires rising { rises (tiles_in squares.now held.now) ≡ true }
    requires once { AreOnce (numbers held.now) (length squares.now) }
    requires pixels { k + n ≤ PIXELS }
    requires room { at + n ≤ length out.old }
    ensures read { (i : ℕ) → at ≤ i → i < at + n → slice_index out.new i ≡ colour_or blank (pixel_in (k + (i - at)) (tile_at spot (tiles_in squares.now held.now))) }
    ensures kept { (i : ℕ) → i < at → slice_index out.new i ≡ slice_index out.old i }
{
    let i = place_near(held, near, spot);
    if is_at(held, i, spot) {
        let square = &squares[held[i].number as usize];
        square.copy_to(k, n, blank, out, at);
        i + 1
    } else {
        fill_part(out, at, n, blank);
        i
    }
}

// Writes a colour n times behind the first `at` places of `out`.
fn fill_part(out: &mut [u32], at: usize, n: usize, colour: u32)
    requires room { at + n ≤ length out.old }
    ensures filled { (i : ℕ) → at ≤ i → i < at + n → slice_index out.new i ≡ colour }
    ensures kept { (i : ℕ) → i < at → slice_index out.new i ≡ slice_index out.old i }
{
    for j in 0..n {
        out[at + j] = colour;
    }
}

// Gives a pixel of a tile that is held a colour.
pub(crate) fn write(held: &[Entry], squares: &mut Vec<Square>, spot: Spot, k: usize, colour: u32)
    requires rising { rises (tiles_in squares.old.items held.now) ≡ true }
    requires once { AreOnce (numbers held.now) (length squares.old.items) }
    requires held { is_held spot (tiles_in squares.old.items held.now) ≡ true }
    requires k { k < PIXELS }
    requires colour { colour < 2 ^ 24 }
    ensures held { tiles_in squares.new.items held.now ≡ written spot k colour (tiles_in squares.old.items held.now) }
    ensures read { pixel_in k (tile_at spot (tiles_in squares.new.items held.now)) ≡ Some colour }
    ensures count { length squares.new.items ≡ length squares.old.items }
    ensures capacity { vec_capacity squares.new ≡ vec_capacity squares.old }
{
    let i = place_for(held, spot);
    let square = &mut squares[held[i].number as usize];
    square.set(k, colour);
}

// Gives pixels of a tile that is held, from the one with number k on, these colours.
pub(crate) fn write_row(
    held: &[Entry],
    squares: &mut Vec<Square>,
    spot: Spot,
    k: usize,
    colours: &[u32],
)
    requires rising { rises (tiles_in squares.old.items held.now) ≡ true }
    requires once { AreOnce (numbers held.now) (length squares.old.items) }
    requires held { is_held spot (tiles_in squares.old.items held.now) ≡ true }
    requires pixels { k + length colours.now ≤ PIXELS }
    requires colours { (i : ℕ) → i < length colours.now → slice_index colours.now i ≤ 16777215 }
    ensures held { tiles_in squares.new.items held.now ≡ row_written spot k colours.now (tiles_in squares.old.items held.now) }
    ensures count { length squares.new.items ≡ length squares.old.items }
    ensures capacity { vec_capacity squares.new ≡ vec_capacity squares.old }
{
    let i = place_for(held, spot);
    let square = &mut squares[held[i].number as usize];
    square.set_row(k, colours);
}

// Takes a square for a tile at a spot, if there is none.
pub(crate) fn add(
    held: &mut Vec<Entry>,
    squares: &mut Vec<Square>,
    spare: &mut Vec<u32>,
    spot: Spot,
)
    requires rising { rises (tiles_in squares.old.items held.old.items) ≡ true }
    requires owned { AreOwned held.old.items spare.old.items (length squares.old.items) }
    requires together { length held.old.items + length spare.old.items ≡ length squares.old.items }
    requires few { length squares.old.items < 2 ^ 32 }
    requires room { is_held spot (tiles_in squares.old.items held.old.items) ≡ false → vec_len held.old < vec_capacity held.old }
    requires square { is_held spot (tiles_in squares.old.items held.old.items) ≡ false → vec_len held.old < vec_capacity squares.old }
    ensures held { tiles_in squares.new.items held.new.items ≡ with_tile spot (tiles_in squares.old.items held.old.items) }
    ensures owned { AreOwned held.new.items spare.new.items (length squares.new.items) }
    ensures together { length held.new.items + length spare.new.items ≡ length squares.new.items }
    ensures taken { (most : ℕ) → length squares.old.items ≤ most → (is_held spot (tiles_in squares.old.items held.old.items) ≡ false → length held.old.items < most) → length squares.new.items ≤ most }
    ensures held_room { vec_capacity held.old ≤ vec_capacity held.new }
    ensures squares_room { vec_capacity squares.new ≡ vec_capacity squares.old }
    ensures spare_room { vec_capacity spare.new ≡ vec_capacity spare.old }
{
    let i = place_for(held, spot);
    if !is_at(held, i, spot) {
        let number = take_square(squares, spare);
        put_in(held, i, Entry { spot, number });
    }
}

// Puts an entry at a place.
fn put_in(held: &mut Vec<Entry>, i: usize, entry: Entry)
    requires i { i ≤ vec_len held.old }
    requires room { vec_len held.old < vec_capacity held.old }
    ensures held { held.new.items ≡ take i held.old.items ++ entry ∷ drop i held.old.items }
    ensures len { vec_len held.new ≡ vec_len held.old + 1 }
    ensures room { vec_capacity held.old ≤ vec_capacity held.new }
{
    let _ = held.insert(i, entry);
}

// Takes a square of which nothing is read: one that was given back, or else a new one.
fn take_square(squares: &mut Vec<Square>, spare: &mut Vec<u32>) -> u32
    requires once { AreOnce spare.old.items (length squares.old.items) }
    requires few { length squares.old.items < 2 ^ 32 }
    requires room { length spare.old.items ≡ 0 → vec_len squares.old < vec_capacity squares.old }
    ensures takes { TakesSquare squares.old.items squares.new.items spare.old.items spare.new.items result }
    ensures squares_room { vec_capacity squares.new ≡ vec_capacity squares.old }
    ensures spare_room { vec_capacity spare.new ≡ vec_capacity spare.old }
{
    match spare.pop() {
        Some(number) => {
            blank_out(squares, number);
            number
        }
        None => {
            let number = squares.len() as u32;
            squares.push_reserved(Square::new());
            number
        }
    }
}

// Forgets all pixels of a square.
fn blank_out(squares: &mut Vec<Square>, number: u32)
    requires { number < length squares.old.items }
    ensures blank { squares.new.items ≡ slice_set squares.old.items number blank }
    ensures capacity { vec_capacity squares.new ≡ vec_capacity squares.old }
{
    let square = &mut squares[number as usize];
    square.clear();
}

// Cuts the tiles of a slot to w columns and h rows, and gives back those that have no pixel left.
pub(crate) fn sweep(
    held: &mut Vec<Entry>,
    squares: &mut Vec<Square>,
    spare: &mut Vec<u32>,
    slot: u32,
    w: u32,
    h: u32,
)
    requires owned { AreOwned held.old.items spare.old.items (length squares.old.items) }
    requires room { length held.old.items + length spare.old.items ≤ vec_capacity spare.old }
    ensures held { tiles_in squares.new.items held.new.items ≡ swept slot w h (tiles_in squares.old.items held.old.items) }
    ensures owned { AreOwned held.new.items spare.new.items (length squares.new.items) }
    ensures together { length held.new.items + length spare.new.items ≡ length held.old.items + length spare.old.items }
    ensures count { length squares.new.items ≡ length squares.old.items }
    ensures held_room { vec_capacity held.new ≡ vec_capacity held.old }
    ensures squares_room { vec_capacity squares.new ≡ vec_capacity squares.old }
    ensures spare_room { vec_capacity spare.new ≡ vec_capacity spare.old }
{
    cut_tiles(held, squares, slot, w, h);
    close_up(held, squares, spare, slot, false);
}

// Cuts the tiles of a slot to w columns and h rows.
fn cut_tiles(held: &[Entry], squares: &mut Vec<Square>, slot: u32, w: u32, h: u32)
    requires { AreOnce (numbers held.now) (length squares.old.items) }
    ensures cut { tiles_in squares.new.items held.now ≡ map (cut_tile slot w h) (tiles_in squares.old.items held.now) }
    ensures count { length squares.new.items ≡ length squares.old.items }
    ensures capacity { vec_capacity squares.new ≡ vec_capacity squares.old }
{
    for i in 0..held.len() {
        cut_one(held, squares, i, slot, w, h);
    }
}

// Cuts the tile at a place, if it is one of the slot.
fn cut_one(held: &[Entry], squares: &mut Vec<Square>, i: usize, slot: u32, w: u32, h: u32)
    requires i { i < length held.now }
    requires once { AreOnce (numbers held.now) (length squares.old.items) }
    ensures cut { tiles_in squares.new.items held.now ≡ cut_at slot w h i (tiles_in squares.old.items held.now) }
    ensures count { length squares.new.items ≡ length squares.old.items }
    ensures capacity { vec_capacity squares.new ≡ vec_capacity squares.old }
{
    let entry = held[i];
    if entry.spot.slot == slot {
        let columns = left_of(w, entry.spot.column);
        let rows = left_of(h, entry.spot.row);
        let square = &mut squares[entry.number as usize];
        square.cut(columns, rows);
    }
}

// Gives back the tiles of a slot that have no pixel left, or all of them, and closes up the others.
pub(crate) fn close_up(
    held: &mut Vec<Entry>,
    squares: &[Square],
    spare: &mut Vec<u32>,
    slot: u32,
    all: bool,
)
    requires once { AreOnce (numbers held.old.items) (length squares.now) }
    requires room { length held.old.items + length spare.old.items ≤ vec_capacity spare.old }
    ensures held { held.new.items ≡ filter (λ e. stays all slot (tile_in squares.now e)) held.old.items }
    ensures owned { (n : ℕ) → times n (numbers held.new.items) + times n spare.new.items ≡ times n (numbers held.old.items) + times n spare.old.items }
    ensures together { length held.new.items + length spare.new.items ≡ length held.old.items + length spare.old.items }
    ensures held_room { vec_capacity held.new ≡ vec_capacity held.old }
    ensures spare_room { vec_capacity spare.new ≡ vec_capacity spare.old }
{
    let mut kept = 0;
    for i in 0..held.len() {
        let left = has_stayed(held[i], squares, slot, all);
        kept = close_one(held, spare, kept, i, left);
    }
    held.truncate(kept);
}

// Whether a tile stays where a slot gives back those that have no pixel left, or all.
fn has_stayed(entry: Entry, squares: &[Square], slot: u32, all: bool) -> bool
    requires { entry.number < length squares.now }
    ensures { result ≡ stays all slot (tile_in squares.now entry) }
{
    if entry.spot.slot != slot {
        return true;
    }
    !all && squares[entry.number as usize].has_pixel()
}

// Moves the entry at place i behind the first so many that stay, if it stays too, and else gives its
// square back. The answer is how many stay.
fn close_one(
    held: &mut Vec<Entry>,
    spare: &mut Vec<u32>,
    kept: usize,
    i: usize,
    left: bool,
) -> usize
    requires i { i < vec_len held.old }
    requires kept { kept ≤ i }
    requires room { vec_len spare.old < vec_capacity spare.old }
    ensures closes { ClosesOne held.old.items held.new.items spare.old.items spare.new.items kept i left result }
    ensures held_room { vec_capacity held.new ≡ vec_capacity held.old }
    ensures spare_room { vec_capacity spare.new ≡ vec_capacity spare.old }
{
    let entry = held[i];
    if left {
        held[kept] = entry;
        kept + 1
    } else {
        spare.push_reserved(entry.number);
        kept
    }
}

// How many of so many places lie in the k-th tile and behind it.
fn left_of(size: u32, k: u32) -> u32
    ensures { result ≡ size - TILE_SIDE * k }
{
    u64::from(size).saturating_sub(u64::from(TILE_SIDE) * u64::from(k)) as u32
}
