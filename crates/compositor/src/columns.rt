// Which columns and rows of a picture a rectangle has.
ghost use Rattle.std.specs.Prelude.{◌≡◌, ◌<◌, pos};
ghost use Rattle.gui_num.specs.Rects.{IsFit, nat_of, on_side, right};

use gui_num::Rect;

// The column of a place, 0 where it lies to the left of the picture.
pub(crate) fn column(x: i32) -> u32
    ensures { result ≡ nat_of x }
{
    if x < 0 { 0 } else { x as u32 }
}

// The column past the last one of a rectangle, 0 where that lies to the left of the picture.
pub(crate) fn right_column(r: Rect) -> u32
    requires { IsFit r }
    ensures { result ≡ nat_of (right r) }
{
    column(r.x + r.w as i32)
}

// Whether a rectangle reaches the row y.
pub(crate) fn in_row(r: Rect, y: u32) -> bool
    requires fit { IsFit r }
    requires row { y < 8192 }
    ensures { result ≡ on_side r.y r.h (pos y) }
{
    let place = y as i32;
    r.y <= place && place < r.y + r.h as i32
}
