//! The limits of override-redirect windows: which requests are granted, and where a granted window
//! is put. The limits, and the outputs that they speak of, are this project's own.
#![tactic(auto)]

ghost use Rattle.std.specs.Prelude.{◌≡◌, ◌+◌, ◌*◌, ◌^◌, ◌≤◌, Some, ℤ, false, true, negsuc, pos, ◌+ℤ◌, ◌≤ℤ◌, IsTrue};
ghost use Rattle.std.specs.Bool.{OnTrue};
ghost use Rattle.gui_num.specs.declared.Rect.{Rect};
ghost use Rattle.gui_num.specs.Rects.{area, grown};
ghost use Rattle.desk_laws.specs.Sizes.{Sizes};
ghost use Rattle.desk_laws.specs.Outputs.{lies_in};
ghost use Rattle.desk_laws.specs.Override.{is_granted, moved_inside, placed_in};
ghost use Rattle.redirect_limits.specs.Limits.{distance, placed_of};

mod outputs;

use gui_num::{Rect, area};
use label_border::outer;
pub use outputs::output_of;

/// What the limits depend on: the output that a window is put in, the width of the border in pixels,
/// and how many percent of the output's area the override-redirect windows of one guest may take.
#[derive(Clone, Copy, Debug, PartialEq, Eq)]
pub struct DeskSize {
    pub output: Rect,
    pub border: u32,
    pub percent: u32,
}

/// Where a window is put, and whether it is in the override layer, above all other windows.
#[derive(Clone, Copy, Debug, PartialEq, Eq)]
pub struct Placed {
    pub rect: Rect,
    pub over: bool,
}

/// Where a mapped window of a guest is put that asked for the place `rect`, and whether it is an
/// override-redirect window. `asked` says whether it is to be one, and `others` is the sum of the
/// outer areas, in pixels, of the guest's other mapped override-redirect windows.
///
/// The request is granted where it was asked, the outer rectangle is no wider and no higher than the
/// output, and all these outer areas with the window's own are at most `percent` of the output. A
/// granted window is moved, in x and in y, by as little as puts its outer rectangle into the output.
/// Any other window stays where it was asked to be.
pub fn effective(asked: bool, rect: Rect, others: u64, desk: &DeskSize) -> Placed
    requires x_low { negsuc 32767 ≤ℤ rect.x }
    requires x_high { rect.x ≤ℤ pos 32767 }
    requires y_low { negsuc 32767 ≤ℤ rect.y }
    requires y_high { rect.y ≤ℤ pos 32767 }
    requires w { rect.w ≤ 16384 }
    requires h { rect.h ≤ 16384 }
    requires left { pos 0 ≤ℤ desk.now.output.x }
    requires left_most { desk.now.output.x ≤ℤ pos 8191 }
    requires top { pos 0 ≤ℤ desk.now.output.y }
    requires top_most { desk.now.output.y ≤ℤ pos 8191 }
    requires width { desk.now.output.w ≤ 8192 }
    requires height { desk.now.output.h ≤ 8192 }
    requires pixels { desk.now.output.w * desk.now.output.h ≤ 33177600 }
    requires border { desk.now.border ≤ 16 }
    requires percent { desk.now.percent ≤ 90 }
    requires others { others ≤ 2 ^ 32 }

    // It is the rule against this output for every setup with these numbers.
    ensures rule { (sizes : Sizes) → sizes.border ≡ desk.now.border → sizes.percent ≡ desk.now.percent → placed_of result ≡ placed_in sizes (Some desk.now.output) asked rect others }

    // A granted window lies in the output with its border, and keeps its size.
    ensures inside { OnTrue result.over (lies_in desk.now.output (grown result.rect desk.now.border) ≡ true) }
    ensures size { (result.rect.w ≡ rect.w) × (result.rect.h ≡ rect.h) }

    // Every other place where it would lie in the output is at least as far away.
    ensures near { OnTrue result.over ((place : Rect) → place.w ≡ rect.w → place.h ≡ rect.h → lies_in desk.now.output (grown place desk.now.border) ≡ true
        → (distance rect.x result.rect.x ≤ distance rect.x place.x) × (distance rect.y result.rect.y ≤ distance rect.y place.y)) }

    // One that isn't granted stays.
    ensures stays { result.over ≡ false → result.rect ≡ rect }
{
    if !is_granted(asked, rect, others, desk) {
        return Placed { rect, over: false };
    }
    let output = desk.output;
    let x = moved_inside(rect.x, rect.w, desk.border, output.x, output.w);
    let y = moved_inside(rect.y, rect.h, desk.border, output.y, output.h);
    Placed {
        rect: Rect { x, y, ..rect },
        over: true,
    }
}

// Whether an override-redirect request is granted.
fn is_granted(asked: bool, rect: Rect, others: u64, desk: &DeskSize) -> bool
    requires x_low { negsuc 32767 ≤ℤ rect.x }
    requires x_high { rect.x ≤ℤ pos 32767 }
    requires y_low { negsuc 32767 ≤ℤ rect.y }
    requires y_high { rect.y ≤ℤ pos 32767 }
    requires w { rect.w ≤ 16384 }
    requires h { rect.h ≤ 16384 }
    requires pixels { desk.now.output.w * desk.now.output.h ≤ 33177600 }
    requires border { desk.now.border ≤ 16 }
    requires percent { desk.now.percent ≤ 90 }
    requires others { others ≤ 2 ^ 32 }
    ensures rule { (sizes : Sizes) → sizes.border ≡ desk.now.border → sizes.percent ≡ desk.now.percent → result ≡ is_granted sizes desk.now.output asked rect others }
    ensures width { IsTrue result → rect.w + 2 * desk.now.border ≤ desk.now.output.w }
    ensures height { IsTrue result → rect.h + 2 * desk.now.border ≤ desk.now.output.h }
{
    let whole = outer(rect, desk.border);
    asked
        && whole.w <= desk.output.w
        && whole.h <= desk.output.h
        && 100 * (others + area(whole)) <= share(desk)
}

// A hundred times the area, in pixels, that the override-redirect windows of one guest may take.
fn share(desk: &DeskSize) -> u64
    requires pixels { desk.now.output.w * desk.now.output.h ≤ 33177600 }
    requires percent { desk.now.percent ≤ 90 }
    ensures { result ≡ desk.now.percent * area desk.now.output }
{
    u64::from(desk.percent) * area(desk.output)
}

// Where a side of `size` pixels that was to begin at `z` begins in an output, so that it and its
// borders lie among the `limit` places from `from` on.
fn moved_inside(z: i32, size: u32, border: u32, from: i32, limit: u32) -> i32
    requires from { pos 0 ≤ℤ from }
    requires from_most { from ≤ℤ pos 8191 }
    requires limit { limit ≤ 8192 }
    requires fits { size + 2 * border ≤ limit }
    ensures { result ≡ moved_inside z size border from limit }
{
    let first = from + border as i32;
    let last = from + (limit - size - border) as i32;
    z.min(last).max(first)
}

#[cfg(test)]
mod tests {
    use super::*;

    // An output of 20 by 20 pixels, a border of one pixel, and windows of up to 100 pixels.
    const DESK: DeskSize = DeskSize {
        output: Rect {
            x: 0,
            y: 0,
            w: 20,
            h: 20,
        },
        border: 1,
        percent: 25,
    };

    // Whether a window of this size is granted beside others of this area.
    fn is_granted_size(w: u32, h: u32, others: u64) -> bool
        requires w { w ≤ 16384 }
        requires h { h ≤ 16384 }
        requires others { others ≤ 2 ^ 32 }
    {
        effective(true, Rect { x: 3, y: 4, w, h }, others, &DESK).over
    }

    #[test]
    fn areas_are_limited(rt: HostRuntime) {
        assert!(rt; is_granted_size(8, 8, 0) && !is_granted_size(8, 9, 0));
        assert!(rt; is_granted_size(6, 6, 0) && is_granted_size(3, 4, 64));
        assert!(rt; !is_granted_size(1, 1, 94));
    }

    #[test]
    fn windows_are_moved_inside(rt: HostRuntime) {
        let asked = Rect {
            x: 18,
            y: -3,
            w: 4,
            h: 2,
        };
        let inside = Rect {
            x: 15,
            y: 1,
            ..asked
        };
        let granted = effective(true, asked, 0, &DESK);
        assert_eq!(rt; (granted.rect, granted.over), (inside, true));
        let plain = effective(false, asked, 0, &DESK);
        assert_eq!(rt; (plain.rect, plain.over), (asked, false));
        let wide = Rect { w: 19, ..asked };
        let kept = effective(true, wide, 0, &DESK);
        assert_eq!(rt; (kept.rect, kept.over), (wide, false));
    }

    // Two outputs of 20 by 10 pixels, side by side.
    const LEFT: Rect = Rect {
        x: 0,
        y: 0,
        w: 20,
        h: 10,
    };

    const RIGHT: Rect = Rect {
        x: 20,
        y: 0,
        w: 20,
        h: 10,
    };

    const ON_LEFT: DeskSize = DeskSize {
        output: LEFT,
        border: 1,
        percent: 90,
    };

    const ON_RIGHT: DeskSize = DeskSize {
        output: RIGHT,
        border: 1,
        percent: 90,
    };

    #[test]
    fn windows_are_moved_into_their_output(rt: HostRuntime) {
        let low = Rect {
            x: 38,
            y: 8,
            w: 4,
            h: 2,
        };
        let put = Rect { x: 35, y: 7, ..low };
        assert_eq!(rt; output_of(low, &[LEFT, RIGHT]), RIGHT);
        assert_eq!(rt; effective(true, low, 0, &ON_RIGHT).rect, put);
        // The corner of this one lies in no output.
        let high = Rect { y: -3, ..low };
        let put = Rect { x: 15, y: 1, ..low };
        assert_eq!(rt; output_of(high, &[LEFT, RIGHT]), LEFT);
        assert_eq!(rt; effective(true, high, 0, &ON_LEFT).rect, put);
    }
}
