// Who lies at a pixel, and who stands in the focus list.
ghost use Rattle.std.specs.Prelude.{◌≡◌, IfSome, IsTrue, slice_get};
ghost use Rattle.desk_laws.specs.Layers.{id_from_top, is_in};
ghost use Rattle.input_router.specs.Spots.{has_content, is_under};
ghost use Rattle.input_router.specs.Walks.{is_wanted, passing, top_of, owner_of, last_wanted, first_wanted};

use crate::places::Places;
use desk_laws::RowId;
use gui_num::{Point, has};
use stacking::Stacking;

// Which rows of the focus list are looked for.
#[derive(Clone, Copy, PartialEq, Eq)]
pub(crate) enum Wanted {
    // Shown, and in the normal layer.
    Normal,
    // Not shown.
    Hidden,
}

// Whether the content of a row has the pixel.
pub(crate) fn has_content<Q: Places>(places: &Q, id: RowId, p: Point) -> bool
    ensures { result ≡ has_content p (Q.spots places.now id) }
{
    match places.place(id) {
        Some(place) => has(place, p),
        None => false,
    }
}

// Whether a row is shown, and its content or its border has the pixel. Of most rows the place says no, and
// nothing else is asked.
fn is_under<Q: Places>(places: &Q, id: RowId, p: Point) -> bool
    ensures { result ≡ is_under p (Q.spots places.now id) }
{
    match places.outer(id) {
        Some(outer) => has(outer, p) && places.shown(id),
        None => false,
    }
}

// Whether a row is wanted.
fn is_wanted<Q: Places>(places: &Q, id: RowId, wanted: Wanted) -> bool
    ensures { result ≡ is_wanted wanted (Q.spots places.now id) }
{
    match wanted {
        Wanted::Normal => places.shown(id) && !places.over(id),
        Wanted::Hidden => places.place(id).is_some() && !places.shown(id),
    }
}

// The row that has `k` others of the stack above it, where it is under the pixel.
fn under_at<Q: Places>(stack: &Stacking, places: &Q, p: Point, k: usize) -> Option<RowId>
    ensures { result ≡ passing (λ id. is_under p (Q.spots places.now id)) (id_from_top stack.now.layers k) }
{
    match stack.from_top(k) {
        Some(id) => {
            if is_under(places, id, p) {
                Some(id)
            } else {
                None
            }
        }
        None => None,
    }
}

// The row `k` places behind the front of the focus list, where it is wanted.
fn wanted_at<Q: Places>(stack: &Stacking, places: &Q, wanted: Wanted, k: usize) -> Option<RowId>
    ensures { result ≡ passing (λ id. is_wanted wanted (Q.spots places.now id)) (slice_get stack.now.layers.focus k) }
{
    match stack.focus_at(k) {
        Some(id) => {
            if is_wanted(places, id, wanted) {
                Some(id)
            } else {
                None
            }
        }
        None => None,
    }
}

// The topmost shown row whose content or border has the pixel.
pub(crate) fn top_at<Q: Places>(stack: &Stacking, places: &Q, p: Point) -> Option<RowId>
    ensures is { result ≡ top_of (Q.spots places.now) stack.now.layers p }
    ensures listed { IfSome result (λ id. IsTrue (is_in stack.now.layers.focus id)) }
{
    for k in 0..stack.len() {
        if let Some(id) = under_at(stack, places, p, k) {
            return Some(id);
        }
    }
    None
}

// That row, where its content has the pixel.
pub(crate) fn owner_at<Q: Places>(stack: &Stacking, places: &Q, p: Point) -> Option<RowId>
    ensures { result ≡ owner_of (Q.spots places.now) stack.now.layers p }
{
    match top_at(stack, places, p) {
        Some(id) => {
            if has_content(places, id, p) {
                Some(id)
            } else {
                None
            }
        }
        None => None,
    }
}

// The last wanted row of the focus list.
pub(crate) fn last_listed<Q: Places>(stack: &Stacking, places: &Q, wanted: Wanted) -> Option<RowId>
    ensures is { result ≡ last_wanted wanted (Q.spots places.now) stack.now.layers }
    ensures listed { IfSome result (λ id. IsTrue (is_in stack.now.layers.focus id)) }
{
    let mut left = stack.len();
    while left > 0 {
        left -= 1;
        if let Some(id) = wanted_at(stack, places, wanted, left) {
            return Some(id);
        }
    }
    None
}

// The first wanted row of the focus list.
pub(crate) fn first_listed<Q: Places>(stack: &Stacking, places: &Q, wanted: Wanted) -> Option<RowId>
    ensures is { result ≡ first_wanted wanted (Q.spots places.now) stack.now.layers }
    ensures listed { IfSome result (λ id. IsTrue (is_in stack.now.layers.focus id)) }
{
    for k in 0..stack.len() {
        if let Some(id) = wanted_at(stack, places, wanted, k) {
            return Some(id);
        }
    }
    None
}
