// The picture of the desktop: one colour for each pixel of its outputs.
ghost use Rattle.std.specs.Prelude.{◌≡◌, ◌<◌, ◌≤◌, ◌+◌, ◌-◌, ◌*◌, ◌++◌, ℕ, All, false, length, map, take, drop, slice_index, vec_len, IfOk, if◌then◌else◌};
ghost use Rattle.gui_num.specs.Rects.{IsFit};
ghost use Rattle.compositor.specs.Bands.{numbered, AreAsWide, ShowSame};
ghost use Rattle.compositor.specs.Composed.{composed, is_in, shown_at, at_pixel, all_pixels, AreZeroOutside};
ghost use Rattle.compositor.specs.PictureView.{LiesIn, shown_area, counted};

use crate::band::{BAND_ROWS, MOST_LISTED, list_band};
use crate::draw::paint_band;
use crate::outputs::add_areas;
use crate::panes::Panes;
use gui_num::{Colour, NoMemory, Rect};
use region_clip::RowSpans;
use std::alloc::Global;
use std::marker::Model;

/// The picture of the desktop: one colour for each pixel of a plane, which is 0 where no output has the
/// pixel. It is seen as the plane's sides in pixels, its background, its outputs, its colours row by row
/// from the top, and the number of pixels that were drawn in all.
#[derive(Drop)]
pub struct Picture {
    width: u32,
    height: u32,
    background: Colour,
    outputs: Vec<Rect>,
    pixels: Vec<u32>,
    // What is left to be drawn of each row of a band.
    rows: Vec<RowSpans>,
    // Which panes the rows that are drawn meet: room for a list that is made anew for each band of rows.
    listed: Vec<usize>,
    painted: u64,
}

impl Model for Picture {
    ghost use Rattle.std.specs.Prelude.{◌≡◌, All, vec_len};
    ghost use Rattle.compositor.specs.PictureView.{PictureView, HasSides, LiesIn};
    ghost use Rattle.compositor.specs.Composed.{AreZeroOutside};
    ghost use Rattle.compositor.specs.Bands.{AreAsWide};

    ghost Value = { PictureView };

    ghost view = { λ p. record { width = p.width; height = p.height; background = p.background.0; outputs = p.outputs.items; pixels = p.pixels.items; painted = p.painted } };

    ghost invariant = { λ p. HasSides p.width p.height (vec_len p.pixels) × AreAsWide p.width p.rows.items × (vec_len p.rows ≡ 16) × All (LiesIn p.width p.height) p.outputs.items × AreZeroOutside p.outputs.items p.width p.height p.pixels.items };
}

impl Picture {
    /// A picture of a plane of `width` by `height` pixels with at most 8 outputs, of which it keeps a copy.
    /// All its pixels are 0, and nothing counts as drawn yet. All memory is taken here: no other call takes
    /// any. `NoMemory` where there is none for its pixels, or for what drawing them needs.
    pub fn new(
        alloc: Global,
        width: u32,
        height: u32,
        background: Colour,
        outputs: &[Rect],
    ) -> Result<Picture, NoMemory>
        requires wide { width ≤ 8192 }
        requires high { height ≤ 8192 }
        requires few { length outputs.now ≤ 8 }
        requires placed { All (LiesIn width height) outputs.now }
        ensures { IfOk result (λ p. p ≡ record { width = width; height = height; background = background.0; outputs = outputs.now; pixels = map (λ _. 0) (all_pixels width height); painted = 0 }) }
    {
        let outputs = outputs.to_vec(alloc)?;
        let pixels = vec![in alloc; 0; height as usize * width as usize]?;
        let rows = new_rows(alloc, width)?;
        let listed = Vec::with_capacity(alloc, MOST_LISTED)?;
        Ok(Picture {
            width,
            height,
            background,
            outputs,
            pixels,
            rows,
            listed,
            painted: 0,
        })
    }

    /// The width of its plane in pixels, at most 8192.
    pub fn width(&self) -> u32
        ensures is { result ≡ self.now.width }
        ensures small { result ≤ 8192 }
    {
        self.width
    }

    /// The height of its plane in pixels, at most 8192.
    pub fn height(&self) -> u32
        ensures is { result ≡ self.now.height }
        ensures small { result ≤ 8192 }
        ensures whole { length self.now.pixels ≡ self.now.width * self.now.height }
    {
        self.height
    }

    /// Its outputs, the rectangles of the plane whose pixels are drawn. They lie in the plane.
    pub fn outputs(&self) -> &[Rect]
        ensures is { result.now ≡ self.now.outputs }
        ensures placed { All (LiesIn self.now.width self.now.height) result.now }
    {
        &self.outputs
    }

    /// The number of pixels that were drawn since it was made, at most 2^64 - 1.
    pub fn painted(&self) -> u64
        ensures { result ≡ self.now.painted }
    {
        self.painted
    }

    /// The colours of the row `y`, 0xrrggbb each, from the left, 0 where no output has the pixel. The rows
    /// are counted from the top, from 0.
    pub fn row(&self, y: u32) -> &[u32]
        requires { y < self.now.height }
        ensures row { result.now ≡ take self.now.width (drop (y * self.now.width) self.now.pixels) }
        ensures len { length result.now ≡ self.now.width }
        ensures outside { (x : ℕ) → x < self.now.width → is_in self.now.outputs (at_pixel x y) ≡ false → slice_index result.now x ≡ 0 }
    {
        let width = self.width as usize;
        let start = y as usize * width;
        &self.pixels[start..start + width]
    }

    /// Draws each pixel of the outputs once: it is of the colour of the topmost pane whose outer rectangle
    /// has it, which is its content inside the content rectangle (grey where there is none) and the colour
    /// of its border around that, and of the background where no pane has it. Pixels that no output has stay
    /// 0. As many pixels as the outputs have count as drawn, each as often as outputs have it.
    pub fn paint<Q: Panes>(&mut self, panes: &Q)
        ensures sides { (self.new.width ≡ self.old.width) × (self.new.height ≡ self.old.height) × (self.new.background ≡ self.old.background) × (self.new.outputs ≡ self.old.outputs) }
        ensures pixels { self.new.pixels ≡ map (shown_at self.old.background (Q.panes panes.now) self.old.outputs) (all_pixels self.old.width self.old.height) }
        ensures painted { self.new.painted ≡ counted (self.old.painted + shown_area self.old.outputs) }
    {
        paint_rows(
            &mut self.pixels,
            &mut self.rows,
            &mut self.listed,
            panes,
            &self.outputs,
            self.width,
            self.height,
            self.background.0,
        );
        self.painted = add_areas(self.painted, &self.outputs);
    }
}

// As many rows of this width as a band has. `NoMemory` where there is none for them.
fn new_rows(alloc: Global, width: u32) -> Result<Vec<RowSpans>, NoMemory>
    ensures count { IfOk result (λ rows. vec_len rows ≡ 16) }
    ensures widths { IfOk result (λ rows. AreAsWide width rows.items) }
{
    let mut rows = Vec::with_capacity(alloc, BAND_ROWS as usize)?;
    while rows.len() < BAND_ROWS as usize {
        rows.push_reserved(RowSpans::new(alloc, width)?);
    }
    Ok(rows)
}

// Draws the outputs of a picture, from the top, in bands of rows.
fn paint_rows<Q: Panes>(
    pixels: &mut [u32],
    rows: &mut [RowSpans],
    listed: &mut Vec<usize>,
    panes: &Q,
    outputs: &[Rect],
    width: u32,
    height: u32,
    background: u32,
)
    requires small { width ≤ 8192 }
    requires low { height ≤ 8192 }
    requires size { length pixels.old ≡ height * width }
    requires placed { All (LiesIn width height) outputs.now }
    requires outside { AreZeroOutside outputs.now width height pixels.old }
    requires band { length rows.old ≡ 16 }
    requires widths { AreAsWide width rows.old }
    ensures widths { AreAsWide width rows.new }
    ensures pixels { pixels.new ≡ map (shown_at background (Q.panes panes.now) outputs.now) (all_pixels width height) }
    ensures outside { AreZeroOutside outputs.now width height pixels.new }
{
    let mut top = 0;
    while top < height {
        let bottom = height.min(top + BAND_ROWS);
        let rest = list_band(listed, panes, top, bottom);
        paint_at(
            pixels, rows, panes, outputs, listed, rest, top, bottom, width, background,
        );
        top = bottom;
    }
}

// Draws what outputs have of the rows from `top` on and before `bottom`, in which the panes with these numbers and those from
// the one with the number `rest` on show what all show.
fn paint_at<Q: Panes>(
    pixels: &mut [u32],
    rows: &mut [RowSpans],
    panes: &Q,
    outputs: &[Rect],
    listed: &[usize],
    rest: usize,
    top: u32,
    bottom: u32,
    width: u32,
    background: u32,
)
    requires small { width ≤ 8192 }
    requires order { top ≤ bottom }
    requires low { bottom ≤ 8192 }
    requires inside { bottom * width ≤ length pixels.old }
    requires fit { All IsFit outputs.now }
    requires band { bottom - top ≤ length rows.old }
    requires widths { AreAsWide width rows.old }
    requires numbers { All (λ k. k < length (Q.panes panes.now)) listed.now }
    requires same { ShowSame top bottom (numbered (Q.panes panes.now) listed.now ++ drop rest (Q.panes panes.now)) (Q.panes panes.now) }
    ensures widths { AreAsWide width rows.new }
    ensures here { (x y : ℕ) → x < width → top ≤ y → y < bottom → slice_index pixels.new (y * width + x) ≡ (if is_in outputs.now (at_pixel x y) then composed background (Q.panes panes.now) (at_pixel x y) else slice_index pixels.old (y * width + x)) }
    ensures before { (i : ℕ) → i < top * width → slice_index pixels.new i ≡ slice_index pixels.old i }
    ensures behind { (i : ℕ) → bottom * width ≤ i → slice_index pixels.new i ≡ slice_index pixels.old i }
{
    let start = top as usize * width as usize;
    let end = bottom as usize * width as usize;
    let count = (bottom - top) as usize;
    paint_band(
        &mut pixels[start..end],
        &mut rows[..count],
        panes,
        outputs,
        listed,
        rest,
        top,
        width,
        background,
    );
}
