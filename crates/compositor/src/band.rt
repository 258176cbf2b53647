// The panes that some rows of a picture meet, listed once for all of these rows.
ghost use Rattle.std.specs.Prelude.{◌≡◌, ◌<◌, ◌≤◌, ◌+◌, ◌++◌, ℕ, All, length, drop, pos, vec_len, vec_capacity};
ghost use Rattle.gui_num.specs.Rects.{IsFit};
ghost use Rattle.compositor.specs.Bands.{numbered, meets_rows, ShowSame};

use crate::panes::Panes;
use gui_num::Rect;

// How many rows have a list in common.
pub(crate) const BAND_ROWS: u32 = 16;

// How many panes are listed at most: sixteen guests with 1024 windows each. Those past that are asked at
// each row.
pub(crate) const MOST_LISTED: usize = 16 * 1024;

// Whether a rectangle has one of the rows from `top` on and before `bottom`.
fn in_band(r: Rect, top: u32, bottom: u32) -> bool
    requires fit { IsFit r }
    requires rows { top ≤ bottom }
    requires low { bottom ≤ 8192 }
    ensures { result ≡ meets_rows r top bottom }
{
    r.y < bottom as i32 && (top as i32) < r.y + r.h as i32
}

// Lists the k-th pane behind those above it, where one of the rows from `top` on and before `bottom` meets
// it. With all those below it the list shows in these rows what it showed with this pane below it as well.
fn list_pane<Q: Panes>(listed: &mut Vec<usize>, panes: &Q, k: usize, top: u32, bottom: u32)
    requires pane { k < length (Q.panes panes.now) }
    requires rows { top ≤ bottom }
    requires low { bottom ≤ 8192 }
    requires room { vec_len listed.old < vec_capacity listed.old }
    requires numbers { All (λ k. k < length (Q.panes panes.now)) listed.old.items }
    ensures numbers { All (λ k. k < length (Q.panes panes.now)) listed.new.items }
    ensures same { ShowSame top bottom (numbered (Q.panes panes.now) listed.old.items ++ drop k (Q.panes panes.now)) (Q.panes panes.now) → ShowSame top bottom (numbered (Q.panes panes.now) listed.new.items ++ drop (k + 1) (Q.panes panes.now)) (Q.panes panes.now) }
{
    if in_band(panes.view(k).outer, top, bottom) {
        listed.push_reserved(k);
    }
}

// Lists the panes that the rows from `top` on and before `bottom` meet, from the topmost one down, until
// there is no more room, and answers how many panes were looked at.
pub(crate) fn list_band<Q: Panes>(
    listed: &mut Vec<usize>,
    panes: &Q,
    top: u32,
    bottom: u32,
) -> usize
    requires rows { top ≤ bottom }
    requires low { bottom ≤ 8192 }
    ensures looked { result ≤ length (Q.panes panes.now) }
    ensures numbers { All (λ k. k < length (Q.panes panes.now)) listed.new.items }
    ensures same { ShowSame top bottom (numbered (Q.panes panes.now) listed.new.items ++ drop result (Q.panes panes.now)) (Q.panes panes.now) }
{
    listed.clear();
    let count = panes.count();
    for k in 0..count {
        if listed.len() == listed.capacity() {
            return k;
        }
        list_pane(listed, panes, k, top, bottom);
    }
    count
}
