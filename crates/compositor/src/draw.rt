// How the panes are drawn onto one row of a picture, from the topmost one down, each pixel once.
ghost use Rattle.std.specs.Prelude.{◌≡◌, ◌<◌, ◌≤◌, ◌+◌, ◌-◌, ◌*◌, ◌++◌, ◌∷◌, [], ℕ, List, All, ◌&&◌, not, false, IsTrue, length, drop, slice_get, slice_index, Some, true, pos, ◌-ℤ◌, ◌≤ℤ◌, if◌then◌else◌};
ghost use Rattle.gui_num.specs.Rects.{IsFit, nat_of, has, on_side, right};
ghost use Rattle.region_clip.specs.Spans.{in_columns, in_spans, AreApart};
ghost use Rattle.compositor.specs.Bands.{numbered, AreAsWide, spans_at, will_show};
ghost use Rattle.compositor.specs.Composed.{Pane, views_of, colour_or, content_under, pane_colour, composed, is_in, at_pixel};

use crate::columns::{column, in_row, right_column};
use crate::outputs::reset_rows;
use crate::panes::{PaneView, Panes};
use gui_num::{Colour, Rect};
use label_border::ring_row;
use region_clip::{RowSpans, Spans};

// What a window shows where it has no content.
const BLANK: Colour = Colour(0x808080);

// How many columns, or rows, a place of the picture lies behind the edge of a window.
fn behind(edge: i32, place: u32) -> u32
    requires edge { edge ≤ℤ pos place }
    requires small { place ≤ 8192 }
    ensures { result ≡ nat_of (pos place -ℤ edge) }
{
    (i64::from(place) - i64::from(edge)) as u32
}

// Gives the columns from one on and before another this colour.
fn fill(row: &mut [u32], from: usize, end: usize, colour: u32)
    requires order { from ≤ end }
    requires inside { end ≤ length row.old }
    ensures { (x : ℕ) → x < length row.old → slice_index row.new x ≡ (if in_columns from end x then colour else slice_index row.old x) }
{
    if from < end {
        row[from..end].fill(colour);
    }
}

// Gives the columns from one on and before another what a pane shows from column `x` of its row `y` on.
fn draw_content<Q: Panes>(
    row: &mut [u32],
    from: usize,
    end: usize,
    panes: &Q,
    k: usize,
    x: u32,
    y: u32,
)
    requires order { from ≤ end }
    requires inside { end ≤ length row.old }
    requires pane { k < length (Q.panes panes.now) }
    requires small { x + (end - from) ≤ 32768 }
    requires content { (pane : Pane) → slice_get (Q.panes panes.now) k ≡ Some pane → (x + (end - from) ≤ pane.view.content.w) × (y < pane.view.content.h) }
    ensures { (pane : Pane) → slice_get (Q.panes panes.now) k ≡ Some pane → (i : ℕ) → i < length row.old → slice_index row.new i ≡ (if in_columns from end i then colour_or 0x808080 (pane.content (x + (i - from)) y) else slice_index row.old i) }
{
    panes.content_row(k, x, y, BLANK, &mut row[from..end]);
}

// Gives the columns from one on and before another the content that a pane has there, in the row y of
// the picture. All of them lie in its content rectangle.
fn draw_part<Q: Panes>(
    row: &mut [u32],
    from: u32,
    end: u32,
    panes: &Q,
    k: usize,
    view: &PaneView,
    y: u32,
)
    requires order { from ≤ end }
    requires inside { end ≤ length row.old }
    requires small { end ≤ 8192 }
    requires row { y < 8192 }
    requires pane { k < length (Q.panes panes.now) }
    requires view { slice_get (views_of (Q.panes panes.now)) k ≡ Some view.now }
    requires fit { IsFit view.now.content }
    requires left { from < end → view.now.content.x ≤ℤ pos from }
    requires right { from < end → pos end ≤ℤ right view.now.content }
    requires reached { on_side view.now.content.y view.now.content.h (pos y) ≡ true }
    ensures { (pane : Pane) → slice_get (Q.panes panes.now) k ≡ Some pane → (x : ℕ) → x < length row.old → slice_index row.new x ≡ (if in_columns from end x then content_under pane (at_pixel x y) else slice_index row.old x) }
{
    if from < end {
        let column = behind(view.content.x, from);
        let down = behind(view.content.y, y);
        draw_content(row, from as usize, end as usize, panes, k, column, down);
    }
}

// Draws a pane in the columns from one on and before another, in the row y of the picture: its border,
// its content and its border again.
fn draw_pane<Q: Panes>(
    row: &mut [u32],
    from: u32,
    end: u32,
    panes: &Q,
    k: usize,
    view: &PaneView,
    y: u32,
)
    requires order { from ≤ end }
    requires inside { end ≤ length row.old }
    requires small { end ≤ 8192 }
    requires row { y < 8192 }
    requires pane { k < length (Q.panes panes.now) }
    requires view { slice_get (views_of (Q.panes panes.now)) k ≡ Some view.now }
    requires fit { IsFit view.now.content }
    ensures { (pane : Pane) → slice_get (Q.panes panes.now) k ≡ Some pane → (x : ℕ) → x < length row.old → slice_index row.new x ≡ (if in_columns from end x then pane_colour pane (at_pixel x y) else slice_index row.old x) }
{
    // which columns are content doesn't depend on how wide the border is
    if let Some((first, past)) = ring_row(view.content, 0, y as i32) {
        let left = column(first).max(from).min(end);
        let right = column(past).max(left).min(end);
        fill(row, from as usize, left as usize, view.colour.0);
        draw_part(row, left, right, panes, k, view, y);
        fill(row, right as usize, end as usize, view.colour.0);
    } else {
        fill(row, from as usize, end as usize, view.colour.0);
    }
}

// Draws a pane in the columns of some spans that lie from x0 on and before x1.
fn draw_spans<Q: Panes>(
    row: &mut [u32],
    spans: Spans<'_>,
    panes: &Q,
    k: usize,
    view: &PaneView,
    x0: u32,
    x1: u32,
    y: u32,
)
    requires apart { AreApart 0 (length row.old) spans }
    requires small { length row.old ≤ 8192 }
    requires row { y < 8192 }
    requires pane { k < length (Q.panes panes.now) }
    requires view { slice_get (views_of (Q.panes panes.now)) k ≡ Some view.now }
    requires fit { IsFit view.now.content }
    ensures { (pane : Pane) → slice_get (Q.panes panes.now) k ≡ Some pane → (x : ℕ) → x < length row.old → slice_index row.new x ≡ (if in_spans spans.entry x && in_columns x0 x1 x then pane_colour pane (at_pixel x y) else slice_index row.old x) }
{
    for (start, end) in spans {
        let from = start.max(x0).min(end);
        let until = end.min(x1).max(from);
        draw_pane(row, from, until, panes, k, view, y);
    }
}

// Gives the columns of some spans this colour.
fn fill_spans(row: &mut [u32], spans: Spans<'_>, colour: u32)
    requires { AreApart 0 (length row.old) spans }
    ensures { (x : ℕ) → x < length row.old → slice_index row.new x ≡ (if in_spans spans.entry x then colour else slice_index row.old x) }
{
    for (start, end) in spans {
        fill(row, start as usize, end as usize, colour);
    }
}

// Draws the k-th pane, which has this place, where nothing is drawn yet.
fn paint_pane<Q: Panes>(
    row: &mut [u32],
    spans: &mut RowSpans,
    panes: &Q,
    k: usize,
    place: &PaneView,
    y: u32,
)
    requires width { spans.old.width ≡ length row.old }
    requires small { length row.old ≤ 8192 }
    requires row { y < 8192 }
    requires pane { k < length (Q.panes panes.now) }
    requires view { slice_get (views_of (Q.panes panes.now)) k ≡ Some place.now }
    requires outer { IsFit place.now.outer }
    requires content { IsFit place.now.content }
    ensures width { spans.new.width ≡ spans.old.width }
    ensures left { (pane : Pane) → slice_get (Q.panes panes.now) k ≡ Some pane → (x : ℕ) → in_spans spans.new.spans x ≡ (in_spans spans.old.spans x && not (has pane.view.outer (at_pixel x y))) }
    ensures row { (pane : Pane) → slice_get (Q.panes panes.now) k ≡ Some pane → (x : ℕ) → x < length row.old → slice_index row.new x ≡ (if in_spans spans.old.spans x && has pane.view.outer (at_pixel x y) then pane_colour pane (at_pixel x y) else slice_index row.old x) }
{
    if in_row(place.outer, y) {
        let x0 = column(place.outer.x);
        let x1 = right_column(place.outer);
        draw_spans(row, spans.spans_in(x0, x1), panes, k, place, x0, x1, y);
        spans.cut(x0, x1);
    }
}

// Draws the k-th pane where nothing is drawn yet in the row y, which begins at a place of the pixels.
fn paint_pane_at<Q: Panes>(
    pixels: &mut [u32],
    start: usize,
    spans: &mut RowSpans,
    panes: &Q,
    k: usize,
    place: &PaneView,
    y: u32,
    width: u32,
)
    requires width { spans.old.width ≡ width }
    requires small { width ≤ 8192 }
    requires row { y < 8192 }
    requires inside { start + width ≤ length pixels.old }
    requires pane { k < length (Q.panes panes.now) }
    requires view { slice_get (views_of (Q.panes panes.now)) k ≡ Some place.now }
    requires outer { IsFit place.now.outer }
    requires content { IsFit place.now.content }
    ensures width { spans.new.width ≡ width }
    ensures left { (pane : Pane) → slice_get (Q.panes panes.now) k ≡ Some pane → (x : ℕ) → in_spans spans.new.spans x ≡ (in_spans spans.old.spans x && not (has pane.view.outer (at_pixel x y))) }
    ensures here { (pane : Pane) → slice_get (Q.panes panes.now) k ≡ Some pane → (x : ℕ) → x < width → slice_index pixels.new (start + x) ≡ (if in_spans spans.old.spans x && has pane.view.outer (at_pixel x y) then pane_colour pane (at_pixel x y) else slice_index pixels.old (start + x)) }
    ensures before { (i : ℕ) → i < start → slice_index pixels.new i ≡ slice_index pixels.old i }
    ensures behind { (i : ℕ) → start + width ≤ i → slice_index pixels.new i ≡ slice_index pixels.old i }
{
    let end = start + width as usize;
    paint_pane(&mut pixels[start..end], spans, panes, k, place, y);
}

// Draws the k-th pane where nothing is drawn yet in the rows of a band, from its first one down.
fn paint_down<Q: Panes>(
    pixels: &mut [u32],
    rows: &mut [RowSpans],
    panes: &Q,
    k: usize,
    top: u32,
    width: u32,
)
    requires pane { k < length (Q.panes panes.now) }
    requires small { width ≤ 8192 }
    requires low { top + length rows.old ≤ 8192 }
    requires size { length pixels.old ≡ length rows.old * width }
    requires widths { AreAsWide width rows.old }
    ensures widths { AreAsWide width rows.new }
    ensures shown { (pane : Pane) → slice_get (Q.panes panes.now) k ≡ Some pane → (background : ℕ) (below : List Pane) (j x : ℕ) → j < length rows.old → x < width → will_show background below top width (record { rows = rows.new; pixels = pixels.new }) j x ≡ will_show background (pane ∷ below) top width (record { rows = rows.old; pixels = pixels.old }) j x }
{
    let place = panes.view(k);
    for j in 0..rows.len() {
        let start = j * width as usize;
        let y = top + j as u32;
        paint_pane_at(pixels, start, &mut rows[j], panes, k, &place, y, width);
    }
}

// Whether nothing is left to be drawn of some rows.
fn are_full(rows: &[RowSpans]) -> bool
    ensures { IsTrue result → (j x : ℕ) → j < length rows.now → in_spans (spans_at rows.now j) x ≡ false }
{
    for j in 0..rows.len() {
        let row = &rows[j];
        if !row.is_empty() {
            return false;
        }
    }
    true
}

// Draws the panes with these numbers where nothing is drawn yet, until all is drawn. What any panes below
// them would show then is what all of them together would have shown.
fn paint_listed<Q: Panes>(
    pixels: &mut [u32],
    rows: &mut [RowSpans],
    panes: &Q,
    listed: &[usize],
    top: u32,
    width: u32,
)
    requires numbers { All (λ k. k < length (Q.panes panes.now)) listed.now }
    requires small { width ≤ 8192 }
    requires low { top + length rows.old ≤ 8192 }
    requires size { length pixels.old ≡ length rows.old * width }
    requires widths { AreAsWide width rows.old }
    ensures widths { AreAsWide width rows.new }
    ensures shown { (background : ℕ) (below : List Pane) (j x : ℕ) → j < length rows.old → x < width → will_show background below top width (record { rows = rows.new; pixels = pixels.new }) j x ≡ will_show background (numbered (Q.panes panes.now) listed.now ++ below) top width (record { rows = rows.old; pixels = pixels.old }) j x }
{
    for k in listed {
        if are_full(rows) {
            return;
        }
        paint_down(pixels, rows, panes, *k, top, width);
    }
}

// Draws the panes from the `first` on where nothing is drawn yet, until all is drawn.
fn paint_from<Q: Panes>(
    pixels: &mut [u32],
    rows: &mut [RowSpans],
    panes: &Q,
    first: usize,
    top: u32,
    width: u32,
)
    requires small { width ≤ 8192 }
    requires low { top + length rows.old ≤ 8192 }
    requires size { length pixels.old ≡ length rows.old * width }
    requires widths { AreAsWide width rows.old }
    ensures widths { AreAsWide width rows.new }
    ensures shown { (background j x : ℕ) → j < length rows.old → x < width → will_show background [] top width (record { rows = rows.new; pixels = pixels.new }) j x ≡ will_show background (drop first (Q.panes panes.now)) top width (record { rows = rows.old; pixels = pixels.old }) j x }
{
    for k in first..panes.count() {
        if are_full(rows) {
            return;
        }
        paint_down(pixels, rows, panes, k, top, width);
    }
}

// Gives the columns of a row that are left to be drawn a colour. The row begins at a place of the pixels.
fn fill_at(pixels: &mut [u32], start: usize, spans: &RowSpans, width: u32, colour: u32)
    requires width { spans.now.width ≡ width }
    requires inside { start + width ≤ length pixels.old }
    ensures here { (x : ℕ) → x < width → slice_index pixels.new (start + x) ≡ (if in_spans spans.now.spans x then colour else slice_index pixels.old (start + x)) }
    ensures before { (i : ℕ) → i < start → slice_index pixels.new i ≡ slice_index pixels.old i }
    ensures behind { (i : ℕ) → start + width ≤ i → slice_index pixels.new i ≡ slice_index pixels.old i }
{
    let end = start + width as usize;
    fill_spans(&mut pixels[start..end], spans.spans(), colour);
}

// Gives the columns of some rows that are left to be drawn a colour.
fn fill_rows(pixels: &mut [u32], rows: &[RowSpans], width: u32, colour: u32)
    requires small { width ≤ 8192 }
    requires few { length rows.now ≤ 8192 }
    requires size { length pixels.old ≡ length rows.now * width }
    requires widths { AreAsWide width rows.now }
    ensures { (j x : ℕ) → j < length rows.now → x < width → slice_index pixels.new (j * width + x) ≡ (if in_spans (spans_at rows.now j) x then colour else slice_index pixels.old (j * width + x)) }
{
    for j in 0..rows.len() {
        let start = j * width as usize;
        fill_at(pixels, start, &rows[j], width, colour);
    }
}

// Draws what outputs have of the rows of a band, from the row `top` of the picture down, pane by pane in all of its rows, so
// that of each content rows that lie one below the other are read one after the other: the panes with
// these numbers, then those from the one with the number `rest` on, and the background.
pub(crate) fn paint_band<Q: Panes>(
    pixels: &mut [u32],
    rows: &mut [RowSpans],
    panes: &Q,
    outputs: &[Rect],
    listed: &[usize],
    rest: usize,
    top: u32,
    width: u32,
    background: u32,
)
    requires numbers { All (λ k. k < length (Q.panes panes.now)) listed.now }
    requires small { width ≤ 8192 }
    requires low { top + length rows.old ≤ 8192 }
    requires size { length pixels.old ≡ length rows.old * width }
    requires widths { AreAsWide width rows.old }
    requires fit { All IsFit outputs.now }
    ensures widths { AreAsWide width rows.new }
    ensures pixels { (j x : ℕ) → j < length rows.old → x < width → slice_index pixels.new (j * width + x) ≡ (if is_in outputs.now (at_pixel x (top + j)) then composed background (numbered (Q.panes panes.now) listed.now ++ drop rest (Q.panes panes.now)) (at_pixel x (top + j)) else slice_index pixels.old (j * width + x)) }
{
    reset_rows(rows, outputs, top, width);
    paint_listed(pixels, rows, panes, listed, top, width);
    paint_from(pixels, rows, panes, rest, top, width);
    fill_rows(pixels, rows, width, background);
}
