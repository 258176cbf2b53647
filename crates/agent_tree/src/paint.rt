// The colours of a row of a window's pixels, painted box by box.
ghost use Rattle.std.specs.Prelude.{◌≡◌, ℕ, ◌+◌, ◌-◌, ◌<◌, ◌≤◌, ◌&&◌, not, nat_lt, nat_le, pos, negsuc, ◌+ℤ◌, ◌≤ℤ◌, int_lt, None, length, reverse, slice_index, slice_index_or, slice_set, if◌then◌else◌};
ghost use Rattle.std.specs.List.{All};
ghost use Rattle.std.specs.Option.{ForSome};
ghost use Rattle.agent_tree.specs.Frames.{IsPlace, IsNarrow, clipped, inside, outermost, shows};
ghost use Rattle.agent_tree.specs.Paths.{IsSound, AreNested};
ghost use Rattle.agent_tree.specs.Rows.{IsPainted};

use crate::boxes::SceneBox;
use crate::frame::{Frame, clipped, inside, outermost};
use gui_num::{Colour, Rect};

// The deepest level of a box is 64, and there is a frame for the level below it.
const FRAMES: usize = 66;

// Writes the colours of as many pixels of a row as there is room for, from a column on. They lie in the window.
pub(crate) fn paint_row(
    boxes: &[SceneBox],
    window: Rect,
    own: Colour,
    x: u32,
    y: u32,
    room: &mut [u32],
)
    requires sound { All IsSound boxes.now }
    requires nested { AreNested (reverse boxes.now) }
    requires place { IsPlace window }
    requires left { window.x ≡ pos 0 }
    requires top { window.y ≡ pos 0 }
    requires few { length room.old ≤ 16384 }
    ensures { IsPainted window own x y (reverse boxes.now) room.new }
{
    let count = room.len();
    fill_columns(room, 0, count, own.0);
    let mut frames = first_frames(window);
    for b in boxes {
        let shown = enter(&mut frames, *b);
        put_row(shown, b.colour, x, y, room);
    }
}

// The frames of the first box: the one of level 1 lies in the window, and no other one may come.
fn first_frames(window: Rect) -> [Option<Frame>; FRAMES]
    requires place { IsPlace window }
    requires left { window.x ≡ pos 0 }
    requires top { window.y ≡ pos 0 }
    ensures one { slice_index_or result 1 None ≡ outermost window }
    ensures narrow { All (λ f. ForSome f IsNarrow) result }
    ensures many { length result ≡ 66 }
{
    [outermost(window); FRAMES]
}

// What of a box shows. The frames are then those of the boxes that may come next.
fn enter(frames: &mut [Option<Frame>], b: SceneBox) -> Option<Rect>
    requires sound { IsSound b }
    requires room { 66 ≤ length frames.old }
    requires narrow { All (λ f. ForSome f IsNarrow) frames.old }
    ensures clip { result ≡ clipped (slice_index_or frames.old b.level None) b.place }
    ensures frames { frames.new ≡ slice_set frames.old (b.level + 1) (inside (slice_index_or frames.old b.level None) b.place) }
    ensures narrow { All (λ f. ForSome f IsNarrow) frames.new }
{
    let frame = frames[b.level as usize];
    frames[b.level as usize + 1] = inside(frame, b.place);
    clipped(frame, b.place)
}

// Colours what of a rectangle lies in a row from a column on.
fn put_row(shown: Option<Rect>, colour: Colour, x: u32, y: u32, room: &mut [u32])
    requires { length room.old ≤ 16384 }
    ensures { (k : ℕ) → k < length room.old → slice_index room.new k ≡ (if shows shown (record { x = pos (x + k); y = pos y }) then colour.0 else slice_index room.old k) }
{
    let Some(r) = shown else {
        return;
    };
    let top = i64::from(r.y);
    if i64::from(y) < top || top + i64::from(r.h) <= i64::from(y) {
        return;
    }
    let left = i64::from(r.x);
    let from = column(left, x, room.len());
    let past = column(left + i64::from(r.w), x, room.len());
    fill_columns(room, from, past, colour.0);
}

// How many of some pixels from a column on lie left of an edge.
fn column(edge: i64, x: u32, count: usize) -> usize
    requires low { negsuc 2147483647 ≤ℤ edge }
    requires high { edge ≤ℤ pos 8589934592 }
    requires count { count ≤ 16384 }
    ensures left { (k : ℕ) → k < count → nat_lt k result ≡ int_lt (pos (x + k)) edge }
    ensures few { result ≤ count }
{
    (edge - i64::from(x)).clamp(0, count as i64) as usize
}

// Colours the pixels from one on and before another.
fn fill_columns(room: &mut [u32], from: usize, past: usize, colour: u32)
    requires { past ≤ length room.old }
    ensures { (k : ℕ) → k < length room.old → slice_index room.new k ≡ (if not (nat_lt k from) && nat_lt k past then colour else slice_index room.old k) }
{
    for k in from..past {
        room[k] = colour;
    }
}
