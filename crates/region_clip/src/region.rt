// A set of pixels, as disjoint rectangles.
ghost use Rattle.std.specs.Prelude.{◌≡◌, ◌+◌, ◌<◌, ◌≤◌, ℕ, List, [], ◌∷◌, ◌++◌, ◌||◌, length, slice_get, Some, None, IfOk, OnOk, OnErr, vec_capacity, true, false};
ghost use Rattle.std.specs.List.{All};
ghost use Rattle.gui_num.specs.declared.Rect.{Rect};
ghost use Rattle.gui_num.specs.declared.Point.{Point};
ghost use Rattle.gui_num.specs.Rects.{IsFit, has};
ghost use Rattle.region_clip.specs.RectCuts.{IsNear, in_rects};
ghost use Rattle.region_clip.specs.Regions.{added, cut_all, cut_each};

use super::rect_cut::put_cut;
use gui_num::{NoMemory, Point, Rect, has};
use std::alloc::Global;
use std::marker::Model;
use std::mem::swap;

/// There is no room for the rectangle.
#[derive(Clone, Copy, Debug, PartialEq, Eq)]
pub struct Full;

// How many rectangles and pieces there may be at a time.
const MOST: usize = 256;

/// A set of pixels, as at most 256 rectangles of which no two have a common point. It is seen as the list
/// of these, in the order of `get`.
#[derive(Drop)]
pub struct Region {
    held: Vec<Rect>,
    // What is left of a rectangle that is being added, and where the next cut leaves it. A cut adds at most
    // four to one piece too many.
    pieces: Vec<Rect>,
    left: Vec<Rect>,
}

impl Model for Region {
    ghost Value = { List Rect };

    ghost view = { λ r. r.held.items };

    ghost invariant = { λ r. (length r.held.items ≤ 256) × (256 ≤ vec_capacity r.held) × (260 ≤ vec_capacity r.pieces) × (260 ≤ vec_capacity r.left) × All IsNear r.held.items };
}

impl Region {
    /// A set of no pixels. All memory is taken here: no other call takes any. `NoMemory` where there is none
    /// for 776 rectangles.
    pub fn new(alloc: Global) -> Result<Region, NoMemory>
        ensures { IfOk result (λ r. r ≡ []) }
    {
        let held = Vec::with_capacity(alloc, MOST)?;
        let pieces = Vec::with_capacity(alloc, MOST + 4)?;
        let left = Vec::with_capacity(alloc, MOST + 4)?;
        Ok(Region { held, pieces, left })
    }

    /// Adds the pixels of a rectangle, which is fit. Each held rectangle, in their order, is cut out of what is
    /// left of the new one; a piece that it meets is replaced by its parts above and below, in the piece's whole
    /// width, and then left and right of the cut. What remains follows the held rectangles. A rectangle of no
    /// pixels changes nothing.
    ///
    /// `Full` exactly where before or after one of these cuts there are more than 256 held rectangles and
    /// pieces together. Then nothing changes.
    pub fn add(&mut self, r: Rect) -> Result<(), Full>
        requires { IsFit r }
        ensures cut { OnOk result (added self.old r ≡ Some self.new) }
        ensures pixels { OnOk result ((p : Point) → in_rects self.new p ≡ (in_rects self.old p || has r p)) }
        ensures full { OnErr result (added self.old r ≡ None) }
        ensures same { OnErr result (self.new ≡ self.old) }
    {
        if r.w == 0 || r.h == 0 {
            return Ok(());
        }
        if !cut_out(&self.held, r, &mut self.pieces, &mut self.left) {
            return Err(Full);
        }
        append(&mut self.held, &self.pieces);
        Ok(())
    }

    /// Takes all pixels off.
    pub fn clear(&mut self)
        ensures { self.new ≡ [] }
    {
        self.held.clear();
    }

    /// Whether the set has the pixel.
    pub fn has(&self, p: Point) -> bool
        ensures { result ≡ in_rects self.now p }
    {
        one_has(&self.held, p)
    }

    /// How many rectangles there are.
    pub fn count(&self) -> usize
        ensures is { result ≡ length self.now }
        ensures few { result ≤ 256 }
    {
        self.held.len()
    }

    /// The k-th rectangle, counted from 0 in the order in which they were added. Ask only where `k` is below
    /// `count`.
    pub fn get(&self, k: usize) -> Rect
        requires { k < length self.now }
        ensures { slice_get self.now k ≡ Some result }
    {
        self.held[k]
    }
}

// Whether one of the rectangles has the point.
fn one_has(rects: &[Rect], p: Point) -> bool
    ensures { result ≡ in_rects rects.now p }
{
    for r in rects {
        if has(*r, p) {
            return true;
        }
    }
    false
}

// Puts the pieces behind the held rectangles.
fn append(held: &mut Vec<Rect>, pieces: &[Rect])
    requires { length held.old.items + length pieces.now ≤ vec_capacity held.old }
    ensures items { held.new.items ≡ held.old.items ++ pieces.now }
    ensures capacity { vec_capacity held.new ≡ vec_capacity held.old }
{
    for piece in pieces {
        held.push_reserved(*piece);
    }
}

// Leaves in `pieces` what is left of a rectangle when the held ones are cut out of it. False where there are
// once too many.
fn cut_out(held: &[Rect], r: Rect, pieces: &mut Vec<Rect>, left: &mut Vec<Rect>) -> bool
    requires held { All IsNear held.now }
    requires r { IsNear r }
    requires few { length held.now ≤ 256 }
    requires pieces { 260 ≤ vec_capacity pieces.old }
    requires left { 260 ≤ vec_capacity left.old }
    ensures pieces { 260 ≤ vec_capacity pieces.new }
    ensures left { 260 ≤ vec_capacity left.new }
    ensures near { All IsNear pieces.new.items }
    ensures cut { result ≡ true → cut_each (length held.now) held.now (r ∷ []) ≡ Some pieces.new.items }
    ensures few { result ≡ true → length held.now + length pieces.new.items ≤ 256 }
    ensures full { result ≡ false → cut_each (length held.now) held.now (r ∷ []) ≡ None }
{
    let room = MOST - held.len();
    pieces.clear();
    pieces.push_reserved(r);
    if room == 0 {
        return false;
    }
    for cut in held {
        left.clear();
        if !put_cuts(*cut, pieces, left, room) {
            return false;
        }
        swap(pieces, left);
    }
    true
}

// Puts what is left of all pieces when a rectangle is cut out of them. False where that is more than there is
// room for.
fn put_cuts(cut: Rect, pieces: &[Rect], left: &mut Vec<Rect>, room: usize) -> bool
    requires pieces { All IsNear pieces.now }
    requires cut { IsNear cut }
    requires empty { left.old.items ≡ [] }
    requires room { room + 4 ≤ vec_capacity left.old }
    requires few { room ≤ 256 }
    ensures capacity { vec_capacity left.new ≡ vec_capacity left.old }
    ensures cut { result ≡ true → left.new.items ≡ cut_all cut pieces.now }
    ensures few { result ≡ true → length left.new.items ≤ room }
    ensures full { result ≡ false → room < length (cut_all cut pieces.now) }
{
    for piece in pieces {
        put_cut(cut, *piece, left);
        if left.len() > room {
            return false;
        }
    }
    true
}
