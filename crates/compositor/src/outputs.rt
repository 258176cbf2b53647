// The outputs of a picture: the rectangles of its plane whose pixels are drawn.
ghost use Rattle.std.specs.Prelude.{◌≡◌, ◌<◌, ◌≤◌, ◌+◌, ℕ, All, None, IfSome, false, true, length};
ghost use Rattle.gui_num.specs.Rects.{IsFit, has};
ghost use Rattle.region_clip.specs.Spans.{in_spans};
ghost use Rattle.compositor.specs.Bands.{AreAsWide, spans_at};
ghost use Rattle.compositor.specs.Composed.{is_in, at_pixel};
ghost use Rattle.compositor.specs.PictureView.{shown_area, counted};

use crate::columns::{column, in_row, right_column};
use gui_num::{Point, Rect, area, has};
use region_clip::RowSpans;

// The end of columns from `x` on that an output has in the row `y`, `None` where none has the first.
fn shown_end(outputs: &[Rect], x: u32, y: u32) -> Option<u32>
    requires fit { All IsFit outputs.now }
    requires column { x < 8192 }
    requires row { y < 8192 }
    ensures none { result ≡ None → is_in outputs.now (at_pixel x y) ≡ false }
    ensures past { IfSome result (λ end. x < end) }
    ensures shown { IfSome result (λ end. (k : ℕ) → x ≤ k → k < end → is_in outputs.now (at_pixel k y) ≡ true) }
{
    let pixel = Point {
        x: x as i32,
        y: y as i32,
    };
    for output in outputs {
        if has(*output, pixel) {
            return Some(right_column(*output));
        }
    }
    None
}

// The end of columns from `x` on and before `end` that an output which hasn't the first hasn't in the
// row `y`.
fn hidden_end(output: Rect, x: u32, y: u32, end: u32) -> u32
    requires fit { IsFit output }
    requires row { y < 8192 }
    requires some { x < end }
    ensures past { x < result }
    ensures within { result ≤ end }
    ensures hidden { has output (at_pixel x y) ≡ false → (k : ℕ) → x ≤ k → k < result → has output (at_pixel k y) ≡ false }
{
    let left = column(output.x);
    if x < left && in_row(output, y) {
        end.min(left)
    } else {
        end
    }
}

// The end of columns from `x` on and before `width` that no output has in the row `y`.
fn gap_end(outputs: &[Rect], x: u32, y: u32, width: u32) -> u32
    requires fit { All IsFit outputs.now }
    requires row { y < 8192 }
    requires some { x < width }
    requires hidden { is_in outputs.now (at_pixel x y) ≡ false }
    ensures past { x < result }
    ensures within { result ≤ width }
    ensures hidden { (k : ℕ) → x ≤ k → k < result → is_in outputs.now (at_pixel k y) ≡ false }
{
    let mut end = width;
    for output in outputs {
        end = hidden_end(*output, x, y, end);
    }
    end
}

// Lets the columns be drawn that outputs have in the row `y`, and no others.
fn reset_row(row: &mut RowSpans, outputs: &[Rect], y: u32, width: u32)
    requires width { row.old.width ≡ width }
    requires small { width ≤ 8192 }
    requires row { y < 8192 }
    requires fit { All IsFit outputs.now }
    ensures width { row.new.width ≡ width }
    ensures columns { (x : ℕ) → x < width → in_spans row.new.spans x ≡ is_in outputs.now (at_pixel x y) }
{
    row.reset(0, width);
    let mut x = 0;
    while x < width {
        if let Some(end) = shown_end(outputs, x, y) {
            x = end;
        } else {
            let end = gap_end(outputs, x, y, width);
            row.cut(x, end);
            x = end;
        }
    }
}

// Lets the columns of some rows be drawn that outputs have there, from the row `top` of the picture down,
// and no others.
pub(crate) fn reset_rows(rows: &mut [RowSpans], outputs: &[Rect], top: u32, width: u32)
    requires small { width ≤ 8192 }
    requires low { top + length rows.old ≤ 8192 }
    requires widths { AreAsWide width rows.old }
    requires fit { All IsFit outputs.now }
    ensures widths { AreAsWide width rows.new }
    ensures columns { (j x : ℕ) → j < length rows.old → x < width → in_spans (spans_at rows.new j) x ≡ is_in outputs.now (at_pixel x (top + j)) }
{
    for j in 0..rows.len() {
        let y = top + j as u32;
        reset_row(&mut rows[j], outputs, y, width);
    }
}

// A count of pixels with those of outputs added, at most 2^64 - 1.
pub(crate) fn add_areas(painted: u64, outputs: &[Rect]) -> u64
    ensures { result ≡ counted (painted + shown_area outputs.now) }
{
    let mut count = painted;
    for output in outputs {
        count = count.saturating_add(area(*output));
    }
    count
}
