// The pixels of one tile.
ghost use Rattle.std.specs.Prelude.{◌≡◌, ℕ, ◌+◌, ◌-◌, ◌<◌, ◌≤◌, ◌^◌, length, take, drop, ◌++◌, Some, None, IfOk, slice_index, slice_index_or, slice_set, vec_len, IsSome, IsTrue, if◌then◌else◌};
ghost use Rattle.tile_store.specs.Squares.{blank, has_pixel, coloured_from, cut_from, cut_words, is_from, is_colour, shown};
ghost use Rattle.tile_store.specs.Contents.{colour_or};
ghost use Rattle.std.specs.List.{list_any};

use desk_laws::TILE_SIDE;
use std::marker::Model;

// The side of a tile, in pixels.
pub const SIDE: usize = TILE_SIDE as usize;

// How many pixels a tile has.
pub const PIXELS: usize = SIDE * SIDE;

// Stands where nothing was read.
const NOTHING: u32 = 0xff00_0000;

// The pixels of a tile, row by row: a colour each, or nothing. Squares of a `Vec` lie in one block.
#[derive(Drop)]
pub struct Square {
    words: [u32; PIXELS],
}

impl Model for Square {
    ghost use Rattle.std.specs.Prelude.{ℕ, ◌≡◌, List, Option, length};
    ghost use Rattle.tile_store.specs.declared.square.TheConstants.{PIXELS};
    ghost use Rattle.tile_store.specs.Squares.{all_shown};

    ghost Value = { List (Option ℕ) };

    ghost view = { λ s. all_shown s.words };

    ghost invariant = { λ s. length s.words ≡ PIXELS };
}

impl Square {
    // A tile of which nothing was read.
    pub(crate) fn new() -> Square
        ensures { result ≡ blank }
    {
        Square {
            words: [NOTHING; PIXELS],
        }
    }

    // Forgets all pixels.
    pub(crate) fn clear(&mut self)
        ensures { self.new ≡ blank }
    {
        self.words = [NOTHING; PIXELS];
    }

    // The colour of a pixel, if something was read there.
    pub(crate) fn get(&self, k: usize) -> Option<u32>
        requires { k < PIXELS }
        ensures { result ≡ slice_index_or self.now k None }
    {
        let word = self.words[k];
        if word < 0x100_0000 { Some(word) } else { None }
    }

    // Writes the colours of n pixels from the one with number k on behind the first `at` places of
    // `out`, `blank` where nothing was read.
    pub(crate) fn copy_to(&self, k: usize, n: usize, blank: u32, out: &mut [u32], at: usize)
        requires pixels { k + n ≤ PIXELS }
        requires room { at + n ≤ length out.old }
        ensures copied { (i : ℕ) → at ≤ i → i < at + n → slice_index out.new i ≡ colour_or blank (slice_index_or self.now (k + (i - at)) None) }
        ensures kept { (i : ℕ) → i < at → slice_index out.new i ≡ slice_index out.old i }
    {
        if are_colours(&self.words, k, n) {
            copy_words(&self.words, k, n, out, at);
        } else {
            copy_colours(&self.words, k, n, blank, out, at);
        }
    }

    // Gives a pixel a colour.
    pub(crate) fn set(&mut self, k: usize, colour: u32)
        requires k { k < PIXELS }
        requires colour { colour < 2 ^ 24 }
        ensures pixels { self.new ≡ slice_set self.old k (Some colour) }
        ensures read { slice_index_or self.new k None ≡ Some colour }
    {
        self.words[k] = colour;
    }

    // Gives the pixels from the one with number k on these colours.
    pub(crate) fn set_row(&mut self, k: usize, colours: &[u32])
        requires pixels { k + length colours.now ≤ PIXELS }
        requires colours { (i : ℕ) → i < length colours.now → slice_index colours.now i ≤ 16777215 }
        ensures { self.new ≡ coloured_from k colours.now self.old }
    {
        put_words(&mut self.words, k, colours);
    }

    // Forgets the pixels outside its first w columns and h rows.
    pub(crate) fn cut(&mut self, w: u32, h: u32)
        ensures { self.new ≡ cut_from 0 w h self.old }
    {
        // A tile that lies inside is left as it is.
        if w < TILE_SIDE || h < TILE_SIDE {
            cut_all(&mut self.words, w, h);
        }
    }

    // Whether some pixel has a colour.
    pub(crate) fn has_pixel(&self) -> bool
        ensures { result ≡ has_pixel self.now }
    {
        some_colour(&self.words)
    }
}

// Forgets the words outside the first w columns and h rows.
fn cut_all(words: &mut [u32; PIXELS], w: u32, h: u32)
    requires { length words.old ≡ PIXELS }
    ensures { words.new ≡ cut_words 0 w h words.old }
{
    for row in 0..SIDE {
        let kept = if row < h as usize {
            SIDE.min(w as usize)
        } else {
            0
        };
        forget(words, row * SIDE + kept, (row + 1) * SIDE);
    }
}

// Forgets the words from one number on up to another.
fn forget(words: &mut [u32; PIXELS], from: usize, end: usize)
    requires order { from ≤ end }
    requires inside { end ≤ length words.old }
    ensures len { length words.new ≡ length words.old }
    ensures words { (i : ℕ) → i < length words.old → slice_index words.new i ≡ (if is_from from end i then 4278190080 else slice_index words.old i) }
{
    if from < end {
        words[from..end].fill(NOTHING);
    }
}

// Whether some word is a colour.
fn some_colour(words: &[u32]) -> bool
    ensures { result ≡ list_any is_colour words.now }
{
    words.iter().any(|word| *word < 0x100_0000)
}

// Puts these words in the place of as many, from the one with number k on.
fn put_words(words: &mut [u32; PIXELS], k: usize, put: &[u32])
    requires { k + length put.now ≤ length words.old }
    ensures { words.new ≡ take k words.old ++ put.now ++ drop (k + length put.now) words.old }
{
    words[k..k + put.len()].copy_from_slice(put);
}

// Whether n words from the one with number k on are colours.
fn are_colours(words: &[u32], k: usize, n: usize) -> bool
    requires { k + n ≤ length words.now }
    ensures { IsTrue result → (i : ℕ) → i < n → slice_index words.now (k + i) < 2 ^ 24 }
{
    let mut greatest = 0;
    for j in 0..n {
        greatest = words[k + j].max(greatest);
    }
    greatest < 0x100_0000
}

// Writes n words from the one with number k on behind the first `at` places of `out`.
fn copy_words(words: &[u32], k: usize, n: usize, out: &mut [u32], at: usize)
    requires words { k + n ≤ length words.now }
    requires room { at + n ≤ length out.old }
    ensures copied { (i : ℕ) → at ≤ i → i < at + n → slice_index out.new i ≡ slice_index words.now (k + (i - at)) }
    ensures kept { (i : ℕ) → i < at → slice_index out.new i ≡ slice_index out.old i }
{
    out[at..at + n].copy_from_slice(&words[k..k + n]);
}

// Writes n words from the one with number k on behind the first `at` places of `out`, `blank` in the
// place of those that are no colours.
fn copy_colours(words: &[u32], k: usize, n: usize, blank: u32, out: &mut [u32], at: usize)
    requires words { k + n ≤ length words.now }
    requires room { at + n ≤ length out.old }
    ensures copied { (i : ℕ) → at ≤ i → i < at + n → slice_index out.new i ≡ colour_or blank (shown (slice_index words.now (k + (i - at)))) }
    ensures kept { (i : ℕ) → i < at → slice_index out.new i ≡ slice_index out.old i }
{
    for j in 0..n {
        out[at + j] = colour_of(words[k + j], blank);
    }
}

// The colour that a word is, or another where it is none.
fn colour_of(word: u32, blank: u32) -> u32
    ensures { result ≡ colour_or blank (shown word) }
{
    if word < 0x100_0000 { word } else { blank }
}
