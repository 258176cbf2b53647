// A rectangle that is cut out of another one.
ghost use Rattle.std.specs.Prelude.{◌≡◌, ◌+◌, ◌<◌, ◌≤◌, ◌≤ℤ◌, ◌++◌, ◌↔◌, true, length, IsTrue, vec_capacity};
ghost use Rattle.std.specs.Int.{int_max, int_min};
ghost use Rattle.gui_num.specs.Rects.{bottom, right, size_between};
ghost use Rattle.region_clip.specs.RectCuts.{IsNear, cut_by, meets, part, parts};

use gui_num::Rect;

// Puts what is left of a piece when a rectangle is cut out of it: the parts above, below, left and right
// of the cut, or the whole piece where they don't meet.
pub fn put_cut(cut: Rect, piece: Rect, left: &mut Vec<Rect>)
    requires cut { IsNear cut }
    requires piece { IsNear piece }
    requires room { length left.old.items + 4 ≤ vec_capacity left.old }
    ensures items { left.new.items ≡ left.old.items ++ cut_by cut piece }
    ensures capacity { vec_capacity left.new ≡ vec_capacity left.old }
{
    if do_meet(piece, cut) {
        put_parts(cut, piece, left);
    } else {
        left.push_reserved(piece);
    }
}

// Whether two rectangles have a common point.
fn do_meet(a: Rect, b: Rect) -> bool
    requires a { IsNear a }
    requires b { IsNear b }
    ensures { result ≡ meets a b }
{
    a.x.max(b.x) < right(a).min(right(b)) && a.y.max(b.y) < bottom(a).min(bottom(b))
}

// Puts the parts of a piece round a cut that meets it.
fn put_parts(cut: Rect, piece: Rect, left: &mut Vec<Rect>)
    requires cut { IsNear cut }
    requires piece { IsNear piece }
    requires room { length left.old.items + 4 ≤ vec_capacity left.old }
    ensures items { left.new.items ≡ left.old.items ++ parts cut piece }
    ensures capacity { vec_capacity left.new ≡ vec_capacity left.old }
{
    let top = piece.y.max(cut.y);
    let low = bottom(piece).min(bottom(cut));
    put_part(left, piece.x, piece.y, right(piece), cut.y);
    put_part(left, piece.x, bottom(cut), right(piece), bottom(piece));
    put_part(left, piece.x, top, cut.x, low);
    put_part(left, right(cut), top, right(piece), low);
}

// Puts the rectangle from one corner up to another, where it has a point.
fn put_part(left: &mut Vec<Rect>, x0: i32, y0: i32, x1: i32, y1: i32)
    requires { length left.old.items < vec_capacity left.old }
    ensures items { left.new.items ≡ left.old.items ++ part x0 y0 x1 y1 }
    ensures few { length left.new.items ≤ length left.old.items + 1 }
    ensures capacity { vec_capacity left.new ≡ vec_capacity left.old }
{
    if x0 < x1 && y0 < y1 {
        left.push_reserved(Rect {
            x: x0,
            y: y0,
            w: size(x0, x1),
            h: size(y0, y1),
        });
    }
}

// The column past the last one.
fn right(r: Rect) -> i32
    requires { IsNear r }
    ensures { result ≡ right r }
{
    r.x + r.w as i32
}

// The row past the last one.
fn bottom(r: Rect) -> i32
    requires { IsNear r }
    ensures { result ≡ bottom r }
{
    r.y + r.h as i32
}

// How many places lie from one up to another.
fn size(from: i32, to: i32) -> u32
    requires { from ≤ℤ to }
    ensures { result ≡ size_between from to }
{
    (i64::from(to) - i64::from(from)) as u32
}
