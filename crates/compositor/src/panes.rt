// What is to be drawn: the shown windows, from the topmost one down.
ghost use Rattle.std.specs.Prelude.{◌≡◌, ◌<◌, ◌≤◌, ◌+◌, ℕ, List, length, slice_get, slice_index, Some, true, false};
ghost use Rattle.gui_num.specs.declared.Point.{Point};
ghost use Rattle.gui_num.specs.Rects.{IsFit, has};
ghost use Rattle.compositor.specs.Composed.{Pane, colour_or, views_of};

use gui_num::{Colour, Rect};

/// Where a window is on the desktop: `outer` with its border and `content` without it, and the colour
/// of the border.
#[derive(Clone, Copy, Debug, PartialEq, Eq)]
pub struct PaneView {
    pub outer: Rect,
    pub content: Rect,
    pub colour: Colour,
}

/// The windows that are shown, counted from the topmost one. It is seen as the list of them from the
/// top, each with its view and its content by column and row.
pub trait Panes {
    ghost panes: { Self → List Pane };

    /// How many there are.
    fn count(&self) -> usize
        ensures { result ≡ length (panes self.now) };

    /// The view of the `k`-th. Both of its rectangles are fit, and its content lies in the outer one.
    fn view(&self, k: usize) -> PaneView
        requires { k < length (panes self.now) }
        ensures this { slice_get (views_of (panes self.now)) k ≡ Some result }
        ensures outer { IsFit result.outer }
        ensures content { IsFit result.content }
        ensures inside { (p : Point) → has result.content p ≡ true → has result.outer p ≡ true };

    /// The content of the `k`-th in column `x` and row `y` from the upper left corner of its content
    /// rectangle, `None` where it has none.
    fn content(&self, k: usize, x: u32, y: u32) -> Option<Colour>
        requires { k < length (panes self.now) }
        ensures { (pane : Pane) → slice_get (panes self.now) k ≡ Some pane → result ≡ pane.content x y };

    /// Writes what the `k`-th shows from column `x` on in row `y` of its content rectangle, as many
    /// columns as `out` has room for: the content of each, `blank` where it has none. All of them lie in
    /// the content rectangle.
    fn content_row(&self, k: usize, x: u32, y: u32, blank: Colour, out: &mut [u32])
        requires pane { k < length (panes self.now) }
        requires small { x + length out.old ≤ 32768 }
        requires inside { (pane : Pane) → slice_get (panes self.now) k ≡ Some pane → (x + length out.old ≤ pane.view.content.w) × (y < pane.view.content.h) }
        ensures { (pane : Pane) → slice_get (panes self.now) k ≡ Some pane → (i : ℕ) → i < length out.old → slice_index out.new i ≡ colour_or blank.0 (pane.content (x + i) y) }
    {
        for i in 0..out.len() {
            out[i] = colour_or(self.content(k, x + i as u32, y), blank);
        }
    }
}

// The colour of a content, or that of a blank where there is none.
fn colour_or(content: Option<Colour>, blank: Colour) -> u32
    ensures { result ≡ colour_or blank.0 content }
{
    match content {
        Some(colour) => colour.0,
        None => blank.0,
    }
}
