//! Rectangles, points and colours.
#![tactic(auto)]

ghost use Rattle.std.specs.Prelude.{◌≡◌, ◌+◌, ◌<◌, ◌≤◌, ◌&&◌, ◌↔◌, false, negsuc, pos, ◌≤ℤ◌, IsTrue, IfSome, MatchOption};
ghost use Rattle.std.specs.Int.{int_max, int_min};
ghost use Rattle.gui_num.specs.declared.Point.{Point};
ghost use Rattle.gui_num.specs.Rects.{IsFit, has, on_side, grown, area, common, between, size_between, right, bottom};

use std::alloc::{AllocError, AllocFailed};

/// Out of memory.
#[derive(Clone, Copy, Debug, PartialEq, Eq)]
pub struct NoMemory;

impl From<AllocError> for NoMemory {
    fn from(_: AllocError) -> Self {
        NoMemory
    }
}

impl<T: Drop> From<AllocFailed<T>> for NoMemory {
    fn from(_: AllocFailed<T>) -> Self {
        NoMemory
    }
}

/// A rectangle of pixels: its upper left corner, and its width and height in pixels. It has the
/// points with `x <= px < x + w` and `y <= py < y + h`.
#[derive(Clone, Copy, Debug, PartialEq, Eq)]
pub struct Rect {
    pub x: i32,
    pub y: i32,
    pub w: u32,
    pub h: u32,
}

/// A pixel: `x` columns right of and `y` rows below the origin.
#[derive(Clone, Copy, Debug, PartialEq, Eq)]
pub struct Point {
    pub x: i32,
    pub y: i32,
}

/// A colour: red, green and blue of eight bits each, red the highest.
#[derive(Clone, Copy, Debug, PartialEq, Eq)]
pub struct Colour(pub u32);

/// Whether the rectangle is fit: x and y lie in -65536 to 65535, and w and h are at most 32768. The
/// range is this project's own.
pub fn is_fit(r: Rect) -> bool
    ensures { IsTrue result ↔ IsFit r }
{
    is_place(r.x) && is_place(r.y) && r.w <= 32768 && r.h <= 32768
}

fn is_place(z: i32) -> bool
    ensures { IsTrue result ↔ ((negsuc 65535 ≤ℤ z) × (z ≤ℤ pos 65535)) }
{
    -65536 <= z && z <= 65535
}

/// Whether the rectangle has the point. The right and the lower edge are not in it.
pub fn has(r: Rect, p: Point) -> bool
    ensures { result ≡ has r p }
{
    on_side(r.x, r.w, p.x) && on_side(r.y, r.h, p.y)
}

// Whether p is one of the n places from a on.
fn on_side(a: i32, n: u32, p: i32) -> bool
    ensures { result ≡ on_side a n p }
{
    a <= p && i64::from(p) < i64::from(a) + i64::from(n)
}

/// The number of its pixels.
pub fn area(r: Rect) -> u64
    ensures { result ≡ area r }
{
    u64::from(r.w) * u64::from(r.h)
}

/// The rectangle with a margin of n pixels added on all four sides.
pub fn grow(r: Rect, n: u32) -> Rect
    requires x_low { negsuc 32767 ≤ℤ r.x }
    requires x_high { r.x ≤ℤ pos 32767 }
    requires y_low { negsuc 32767 ≤ℤ r.y }
    requires y_high { r.y ≤ℤ pos 32767 }
    requires w { r.w ≤ 16384 }
    requires h { r.h ≤ 16384 }
    requires n { n ≤ 16 }
    ensures { result ≡ grown r n }
{
    let out = n as i32;
    Rect {
        x: r.x - out,
        y: r.y - out,
        w: r.w + 2 * n,
        h: r.h + 2 * n,
    }
}

/// The rectangle of the pixels that both have, `None` exactly where they have none in common.
pub fn meet(a: Rect, b: Rect) -> Option<Rect>
    requires a { IsFit a }
    requires b { IsFit b }
    ensures common { result ≡ common a b }
    ensures points { MatchOption result
        ((p : Point) → (has a p && has b p) ≡ false)
        (λ r. (p : Point) → has r p ≡ (has a p && has b p)) }
    ensures size { IfSome result (λ r. (0 < r.w) × (0 < r.h)) }
{
    between(
        a.x.max(b.x),
        a.y.max(b.y),
        right(a).min(right(b)),
        bottom(a).min(bottom(b)),
    )
}

// The column past the last one.
fn right(r: Rect) -> i32
    requires { IsFit r }
    ensures { result ≡ right r }
{
    r.x + r.w as i32
}

// The row past the last one.
fn bottom(r: Rect) -> i32
    requires { IsFit r }
    ensures { result ≡ bottom r }
{
    r.y + r.h as i32
}

// The rectangle between two corners, `None` where it has no pixel.
fn between(x0: i32, y0: i32, x1: i32, y1: i32) -> Option<Rect>
    ensures { result ≡ between x0 y0 x1 y1 }
{
    if x0 < x1 && y0 < y1 {
        Some(Rect {
            x: x0,
            y: y0,
            w: size(x0, x1),
            h: size(y0, y1),
        })
    } else {
        None
    }
}

// How many places lie from one up to another.
fn size(from: i32, to: i32) -> u32
    requires { from ≤ℤ to }
    ensures { result ≡ size_between from to }
{
    (i64::from(to) - i64::from(from)) as u32
}

#[cfg(test)]
mod tests {
    use super::*;

    #[test]
    fn meets_and_grows(rt: HostRuntime) {
        let a = Rect {
            x: -2,
            y: 1,
            w: 5,
            h: 4,
        };
        let b = Rect {
            x: 1,
            y: -3,
            w: 9,
            h: 6,
        };
        let both = Rect {
            x: 1,
            y: 1,
            w: 2,
            h: 2,
        };
        assert!(rt; is_fit(a) && is_fit(b) && !is_fit(Rect { w: 32769, ..a }));
        assert_eq!(rt; meet(a, b), Some(both));
        assert_eq!(rt; meet(both, Rect { x: 3, ..both }), None);
        assert!(rt; has(a, Point { x: 2, y: 4 }) && !has(a, Point { x: 3, y: 4 }));
        assert_eq!(rt;
            grow(a, 2),
            Rect {
                x: -4,
                y: -1,
                w: 9,
                h: 8
            }
        );
        assert_eq!(rt; area(a), 20);
    }

    #[test]
    fn want_of_memory(rt: HostRuntime) {
        assert_eq!(rt; NoMemory::from(AllocError), NoMemory);
    }
}
