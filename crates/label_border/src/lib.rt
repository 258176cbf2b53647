//! The borders of windows: a ring of the guest's label colour around a window's content, as many
//! pixels wide on each side as the desktop's border says. Rings are this project's own.
#![tactic(auto)]

ghost use Rattle.std.specs.Prelude.{◌≡◌, ◌≤◌, ℤ, false, negsuc, pos, ◌≤ℤ◌, ◌<ℤ◌, IfSome, MatchOption};
ghost use Rattle.gui_num.specs.Rects.{IsFit, grown};
ghost use Rattle.label_border.specs.Rings.{has_at, among, columns_of};

use gui_num::{Point, Rect, grow, has};

/// The outer rectangle of a window: its place on the desktop with `border` more pixels on each of
/// the four sides. What of it is outside the place is the window's ring.
pub fn outer(r: Rect, border: u32) -> Rect
    requires x_low { negsuc 32767 ≤ℤ r.x }
    requires x_high { r.x ≤ℤ pos 32767 }
    requires y_low { negsuc 32767 ≤ℤ r.y }
    requires y_high { r.y ≤ℤ pos 32767 }
    requires w { r.w ≤ 16384 }
    requires h { r.h ≤ 16384 }
    requires border { border ≤ 16 }
    ensures { result ≡ grown r border }
{
    grow(r, border)
}

/// The content's columns in row `y` of the desktop, for a window at the place `r`: the first one and
/// the one past the last. `None` exactly where the row has no content, as above and below the window
/// and where it has no width. All other columns of the outer rectangle in that row are ring, however
/// wide the border is.
pub fn ring_row(r: Rect, border: u32, y: i32) -> Option<(i32, i32)>
    requires { IsFit r }
    ensures is { result ≡ columns_of r y }
    ensures columns { MatchOption result ((x : ℤ) → has_at r x y ≡ false) (λ columns. (x : ℤ) → has_at r x y ≡ among columns x) }
    ensures some { IfSome result (λ columns. columns.0 <ℤ columns.1) }
{
    if !has(r, Point { x: r.x, y }) {
        return None;
    }
    Some((r.x, r.x + r.w as i32))
}

#[cfg(test)]
mod tests {
    use super::*;

    #[test]
    fn a_window_and_its_ring(rt: HostRuntime) {
        let place = Rect {
            x: -1,
            y: 2,
            w: 3,
            h: 2,
        };
        let whole = Rect {
            x: -3,
            y: 0,
            w: 7,
            h: 6,
        };
        assert_eq!(rt; outer(place, 2), whole);
        assert_eq!(rt; ring_row(place, 2, 1), None);
        assert_eq!(rt; ring_row(place, 2, 2), Some((-1, 2)));
        assert_eq!(rt; ring_row(place, 2, 3), Some((-1, 2)));
        assert_eq!(rt; ring_row(place, 2, 4), None);
        assert_eq!(rt; ring_row(Rect { w: 0, ..place }, 2, 2), None);
    }
}
