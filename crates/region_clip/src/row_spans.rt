// The columns of a row that aren't drawn yet.
ghost use Rattle.std.specs.Prelude.{◌≡◌, ◌+◌, ◌-◌, ◌*◌, ◌<◌, ◌≤◌, ℕ, Bool, List, [], ◌∷◌, ◌++◌, ◌&&◌, ◌↔◌, not, length, take, drop, IfOk, IsTrue, vec_len};
ghost use Rattle.std.specs.Iterator.{YieldsFirst, at_most};
ghost use Rattle.region_clip.specs.Spans.{RowOf, keep, cut_spans, in_columns, in_spans, ended_by, begun_before, meeting, AreApart};

use gui_num::NoMemory;
use std::alloc::Global;
use std::marker::Model;

/// The columns of one row of pixels that aren't drawn yet. It is seen as the row's width and the
/// spans of these columns from the left, each as its first column and the one past its last.
#[derive(Drop)]
pub struct RowSpans {
    width: u32,
    // The first `count` of these places hold the spans.
    places: Vec<(u32, u32)>,
    count: usize,
}

impl Model for RowSpans {
    ghost use Rattle.std.specs.Prelude.{◌≡◌, ◌*◌, ◌<◌, ◌≤◌, take, vec_len};
    ghost use Rattle.region_clip.specs.Spans.{RowOf, AreApart};

    ghost Value = { RowOf };

    ghost view = { λ r. record { width = r.width; spans = take r.count r.places.items } };

    ghost invariant = { λ r. AreApart 0 r.width (take r.count r.places.items) × (r.count ≤ vec_len r.places) × (r.width < 2 * vec_len r.places) };
}

impl RowSpans {
    /// A row of `width` columns, none of which is left to be drawn. All memory is taken here: no other
    /// call takes any. `NoMemory` where there is none for `width / 2 + 1` spans.
    pub fn new(alloc: Global, width: u32) -> Result<RowSpans, NoMemory>
        ensures { IfOk result (λ r. r ≡ record { width = width; spans = [] }) }
    {
        let places = vec![in alloc; (0u32, 0u32); width as usize / 2 + 1]?;
        Ok(RowSpans {
            width,
            places,
            count: 0,
        })
    }

    /// Leaves the columns from `x0` on and before `x1`, and no others.
    pub fn reset(&mut self, x0: u32, x1: u32)
        requires order { x0 ≤ x1 }
        requires inside { x1 ≤ self.old.width }
        ensures is { self.new ≡ record self.old { spans = keep x0 x1 } }
        ensures columns { (x : ℕ) → in_spans self.new.spans x ≡ in_columns x0 x1 x }
    {
        self.count = put_at(&mut self.places, 0, (x0, x1));
    }

    /// Takes off the columns from `x0` on and before `x1`; all others stay. Where `x1` isn't past `x0`,
    /// nothing changes.
    pub fn cut(&mut self, x0: u32, x1: u32)
        ensures is { self.new ≡ record self.old { spans = cut_spans x0 x1 self.old.spans } }
        ensures columns { (x : ℕ) → in_spans self.new.spans x ≡ (in_spans self.old.spans x && not (in_columns x0 x1 x)) }
    {
        if x0 < x1 {
            self.count = cut_from(&mut self.places, self.count, x0, x1, self.width);
        }
    }

    /// Whether no column is left to be drawn.
    pub fn is_empty(&self) -> bool
        ensures { IsTrue result ↔ (self.now.spans ≡ []) }
    {
        self.count == 0
    }

    /// The spans that are left, from the left. Each has a column, and between two there is a column that
    /// isn't left.
    pub fn spans(&self) -> Spans<'_>
        ensures these { result ≡ self.now.spans }
        ensures apart { AreApart 0 self.now.width result }
    {
        Spans {
            rest: &self.places[..self.count],
        }
    }

    /// Those of the spans that are left which end past `x0` and begin before `x1`, from the left. They
    /// aren't cut: the first may begin before `x0`, and the last may end past `x1`.
    pub fn spans_in(&self, x0: u32, x1: u32) -> Spans<'_>
        ensures these { result ≡ meeting x0 x1 self.now.spans }
        ensures apart { AreApart 0 self.now.width result }
        ensures columns { (x : ℕ) → (in_spans result x && in_columns x0 x1 x) ≡ (in_spans self.now.spans x && in_columns x0 x1 x) }
    {
        Spans {
            rest: met_by(&self.places[..self.count], x0, x1, self.width),
        }
    }
}

/// An iterator over spans of columns, each as its first column and the one past its last. It is seen as
/// the spans that are still to come.
#[derive(Drop)]
pub struct Spans<'a> {
    rest: &'a [(u32, u32)],
}

impl<'a> Model for Spans<'a> {
    ghost use Rattle.std.specs.Prelude.{List, ℕ};

    ghost Value = { List (ℕ × ℕ) };

    ghost view = { λ s. s.rest.now };
}

impl<'a> Iterator for Spans<'a> {
    type Item = (u32, u32);

    ghost next_gives = { YieldsFirst (λ left. left) };

    ghost remaining = { λ s. at_most (length s) };

    fn next(&mut self) -> Option<(u32, u32)> {
        let (first, others) = self.rest.split_first()?;
        self.rest = others;
        Some(*first)
    }
}

// How many of the spans end at `x` or before it: these are the first ones.
fn count_left(spans: &[(u32, u32)], x: u32, width: u32) -> usize
    requires { AreApart 0 width spans.now }
    ensures is { result ≡ ended_by x spans.now }
    ensures few { result ≤ length spans.now }
{
    let mut low = 0;
    let mut high = spans.len();
    while low < high {
        let middle = low + (high - low) / 2;
        if spans[middle].1 <= x {
            low = middle + 1;
        } else {
            high = middle;
        }
    }
    low
}

// How many of the spans begin before `x`: these are the first ones.
fn count_before(spans: &[(u32, u32)], x: u32, width: u32) -> usize
    requires { AreApart 0 width spans.now }
    ensures is { result ≡ begun_before x spans.now }
    ensures few { result ≤ length spans.now }
{
    let mut low = 0;
    let mut high = spans.len();
    while low < high {
        let middle = low + (high - low) / 2;
        if spans[middle].0 < x {
            low = middle + 1;
        } else {
            high = middle;
        }
    }
    low
}

// The spans that end past `x0` and begin before `x1`.
fn met_by(spans: &[(u32, u32)], x0: u32, x1: u32, width: u32) -> &[(u32, u32)]
    requires { AreApart 0 width spans.now }
    ensures { result.now ≡ meeting x0 x1 spans.now }
{
    let first = count_left(spans, x0, width);
    let past = count_before(spans, x1, width).max(first);
    &spans[first..past]
}

// Takes the columns from `x0` on and before `x1` off the first `count` spans, and answers how many spans
// there are then.
fn cut_from(places: &mut [(u32, u32)], count: usize, x0: u32, x1: u32, width: u32) -> usize
    requires some { x0 < x1 }
    requires count { count ≤ length places.old }
    requires apart { AreApart 0 width (take count places.old) }
    requires room { width < 2 * length places.old }
    ensures spans { take result places.new ≡ cut_spans x0 x1 (take count places.old) }
    ensures count { result ≤ length places.old }
{
    let spans = &places[..count];
    let first = count_left(spans, x0, width);
    let past = count_before(spans, x1, width);
    if first < past {
        let left = (spans[first].0, spans[first].1.min(x0));
        let right = (spans[past - 1].0.max(x1), spans[past - 1].1);
        put_cut(places, count, first, past, left, right)
    } else {
        count
    }
}

// Puts what is left of a cut, where it has columns, in the place of the spans from `first` on and before
// `past`, and answers how many spans there are then. Only what stands behind the cut is moved.
fn put_cut(
    places: &mut [(u32, u32)],
    count: usize,
    first: usize,
    past: usize,
    left: (u32, u32),
    right: (u32, u32),
) -> usize
    requires order { first ≤ past }
    requires within { past ≤ count }
    requires count { count ≤ length places.old }
    requires room { first + length (keep left.0 left.1) + length (keep right.0 right.1) + (count - past) ≤ length places.old }
    ensures spans { take result places.new ≡ take first places.old ++ (keep left.0 left.1 ++ (keep right.0 right.1 ++ drop past (take count places.old))) }
    ensures count { result ≡ first + length (keep left.0 left.1) + length (keep right.0 right.1) + (count - past) }
{
    let behind = first + usize::from(left.0 < left.1) + usize::from(right.0 < right.1);
    places.copy_within(past..count, behind);
    let middle = put_at(places, first, left);
    put_at(places, middle, right) + (count - past)
}

// Puts a span at a place, where it has a column, and answers which place is behind it.
fn put_at(places: &mut [(u32, u32)], at: usize, span: (u32, u32)) -> usize
    requires { at + length (keep span.0 span.1) ≤ length places.old }
    ensures places { places.new ≡ take at places.old ++ (keep span.0 span.1 ++ drop (at + length (keep span.0 span.1)) places.old) }
    ensures behind { result ≡ at + length (keep span.0 span.1) }
{
    if span.0 < span.1 {
        places[at] = span;
        at + 1
    } else {
        at
    }
}
