// The window manager's commands, which are for the focus, for the next row or for the one that was
// hidden last.
ghost use Rattle.std.specs.Prelude.{◌≡◌, ◌∷◌, [], IfSome, IsTrue, option_map};
ghost use Rattle.desk_laws.specs.declared.input.GIn.TheVariants as g;
ghost use Rattle.desk_laws.specs.Events.{move_to, size_to};
ghost use Rattle.desk_laws.specs.Layers.{is_in};
ghost use Rattle.desk_laws.specs.Ranges.{IsPlace, place_in_range, width_in_range, height_in_range, size_of};
ghost use Rattle.desk_laws.specs.Scene.{Grants};
ghost use Rattle.input_router.specs.Commanded.{raised_if, closing, restoring, place_in, placing};
ghost use Rattle.input_router.specs.Deliveries.{Leads};
ghost use Rattle.input_router.specs.Walks.{first_wanted, last_wanted};
ghost use Rattle.input_router.specs.declared.walks.Wanted.TheVariants.{Normal, Hidden};

use crate::deliver::Deliver;
use crate::places::Places;
use crate::walks::{Wanted, first_listed, last_listed};
use desk_laws::{GIn, RowId};
use gui_num::Rect;
use gui_wire::{MAX_WINDOW_HEIGHT, MAX_WINDOW_WIDTH};
use stacking::Stacking;

// A column or row of the desktop, brought into the range of places.
fn place_in_range(z: i32) -> i32
    ensures { result ≡ place_in_range z }
{
    z.min(32767).max(-32768)
}

// A size that a number asks for, 0 where it is below 0.
fn size_of(n: i32) -> u32
    ensures { result ≡ size_of n }
{
    if n < 0 { 0 } else { n as u32 }
}

// A place moved to a pixel, as far as the range of places goes.
fn moved_to(place: Rect, x: i32, y: i32) -> Rect
    requires { IsPlace place }
    ensures is { result ≡ move_to x y place }
    ensures range { IsPlace result }
{
    Rect {
        x: place_in_range(x),
        y: place_in_range(y),
        ..place
    }
}

// A place with another size, brought into the range of sizes.
fn sized_to(place: Rect, w: i32, h: i32) -> Rect
    requires { IsPlace place }
    ensures is { result ≡ size_to w h place }
    ensures range { IsPlace result }
{
    Rect {
        w: size_of(w).min(MAX_WINDOW_WIDTH).max(1),
        h: size_of(h).min(MAX_WINDOW_HEIGHT).max(1),
        ..place
    }
}

// A row with its place.
fn with_place<Q: Places>(row: Option<RowId>, places: &Q) -> Option<(RowId, Rect)>
    ensures range { IfSome result (λ found. IsPlace found.1) }
    ensures is { result ≡ place_in (Q.spots places.now) row }
{
    match row {
        Some(id) => {
            match places.place(id) {
                Some(place) => Some((id, place)),
                None => None,
            }
        }
        None => None,
    }
}

// Puts a row at a place.
fn tell_place<V: Deliver>(id: RowId, rect: Rect, to: &mut V)
    requires { IsPlace rect }
    ensures { Leads V.delivers to.old (Grants id (g.Place id.window rect) ∷ []) to.new }
{
    let place = GIn::Place {
        window: id.window,
        rect,
    };
    to.grant(id, &place);
}

// Moves the row that has the focus, and answers it.
pub(crate) fn move_focus<Q: Places, V: Deliver>(
    focus: Option<RowId>,
    x: i32,
    y: i32,
    places: &Q,
    to: &mut V,
) -> Option<RowId>
    ensures leads { Leads V.delivers to.old (placing (move_to x y) (place_in (Q.spots places.now) focus)) to.new }
    ensures is { result ≡ option_map (λ found. found.0) (place_in (Q.spots places.now) focus) }
{
    match with_place(focus, places) {
        Some((id, place)) => {
            tell_place(id, moved_to(place, x, y), to);
            Some(id)
        }
        None => None,
    }
}

// Gives the row that has the focus another size, and answers it.
pub(crate) fn size_focus<Q: Places, V: Deliver>(
    focus: Option<RowId>,
    w: i32,
    h: i32,
    places: &Q,
    to: &mut V,
) -> Option<RowId>
    ensures leads { Leads V.delivers to.old (placing (size_to w h) (place_in (Q.spots places.now) focus)) to.new }
    ensures is { result ≡ option_map (λ found. found.0) (place_in (Q.spots places.now) focus) }
{
    match with_place(focus, places) {
        Some((id, place)) => {
            tell_place(id, sized_to(place, w, h), to);
            Some(id)
        }
        None => None,
    }
}

// Asks the row that has the focus to close.
pub(crate) fn close_focus<V: Deliver>(focus: Option<RowId>, to: &mut V)
    ensures { Leads V.delivers to.old (closing focus) to.new }
{
    if let Some(id) = focus {
        to.grant(id, &GIn::Close { window: id.window });
    }
}

// Raises the first shown normal row of the focus list, and answers it.
pub(crate) fn raise_next<Q: Places>(stack: &mut Stacking, places: &Q) -> Option<RowId>
    ensures is { result ≡ first_wanted Normal (Q.spots places.now) stack.old.layers }
    ensures listed { IfSome result (λ id. IsTrue (is_in stack.old.layers.focus id)) }
    ensures stack { stack.new ≡ record stack.old { layers = raised_if result stack.old.layers } }
{
    match first_listed(stack, places, Wanted::Normal) {
        Some(id) => {
            stack.click(id);
            Some(id)
        }
        None => None,
    }
}

// Raises the hidden row that is last in the focus list, tells it that it is shown again, and answers it.
pub(crate) fn restore_last<Q: Places, V: Deliver>(
    stack: &mut Stacking,
    places: &Q,
    to: &mut V,
) -> Option<RowId>
    ensures is { result ≡ last_wanted Hidden (Q.spots places.now) stack.old.layers }
    ensures listed { IfSome result (λ id. IsTrue (is_in stack.old.layers.focus id)) }
    ensures stack { stack.new ≡ record stack.old { layers = raised_if result stack.old.layers } }
    ensures leads { Leads V.delivers to.old (restoring result) to.new }
{
    match last_listed(stack, places, Wanted::Hidden) {
        Some(id) => {
            stack.click(id);
            to.grant(id, &GIn::Restored { window: id.window });
            Some(id)
        }
        None => None,
    }
}
