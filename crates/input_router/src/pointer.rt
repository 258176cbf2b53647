// The pointer: where it is, on which row, and what its moves and buttons are for the rows.
ghost use Rattle.std.specs.Prelude.{◌≡◌, ℕ, ◌∷◌, [], ◌-ℤ◌, ◌≤ℤ◌, pos, negsuc, true, false, IsTrue, IfSome, Some, None, if◌then◌else◌};
ghost use Rattle.desk_laws.specs.declared.setup.Setup.{Setup};
ghost use Rattle.desk_laws.specs.Events.{grabbing, with_pointer, press, press_by, press_owner, press_row, release_by};
ghost use Rattle.desk_laws.specs.Layers.{is_in, raised, topmost};
ghost use Rattle.desk_laws.specs.Scene.{Scene};
ghost use Rattle.desk_laws.specs.Ranges.{IsPlace};
ghost use Rattle.input_router.specs.Deliveries.{Leads};
ghost use Rattle.input_router.specs.Pointed.{motion_in, moves_in, button_in, more_held};
ghost use Rattle.input_router.specs.Presents.{Presents, Carries};
ghost use Rattle.input_router.specs.Routes.{normal_id, raised_at, raised_press, Presses};
ghost use Rattle.input_router.specs.SeatView.{IsPixel};
ghost use Rattle.input_router.specs.Seated.{from_spot, hover_of};
ghost use Rattle.input_router.specs.Spots.{Shows, has_content, is_over_at};

use crate::deliver::Deliver;
use crate::places::Places;
use crate::router::Router;
use crate::settle::same;
use crate::walks::{has_content, owner_at, top_at};
use desk_laws::{GIn, RowId};
use gui_num::{Point, Rect};
use stacking::Stacking;

const CORNER: Point = Point { x: 0, y: 0 };

// How far a column, or a row, of the desktop lies behind the edge of a place.
fn behind(edge: i32, p: i32) -> i32
    requires edge_low { negsuc 32767 ≤ℤ edge }
    requires edge_high { edge ≤ℤ pos 32767 }
    requires low { pos 0 ≤ℤ p }
    requires high { p ≤ℤ pos 8191 }
    ensures { result ≡ p -ℤ edge }
{
    p - edge
}

// A pixel, from the corner of a place.
fn behind_corner(place: Rect, p: Point) -> Point
    requires place { IsPlace place }
    requires pixel { IsPixel p }
    ensures { result ≡ record { x = p.x -ℤ place.x; y = p.y -ℤ place.y } }
{
    Point {
        x: behind(place.x, p.x),
        y: behind(place.y, p.y),
    }
}

// The pointer, from the corner of a row's place; 0 where either isn't there.
pub(crate) fn inside<Q: Places>(places: &Q, id: RowId, pointer: Option<Point>) -> Point
    requires { IfSome pointer IsPixel }
    ensures { result ≡ from_spot (Q.spots places.now id) pointer }
{
    match places.place(id) {
        Some(place) => {
            match pointer {
                Some(p) => behind_corner(place, p),
                None => CORNER,
            }
        }
        None => CORNER,
    }
}

// Raises a row of the normal layer, and tells whether it did.
fn raise_normal<Q: Places>(id: RowId, stack: &mut Stacking, places: &Q) -> Option<RowId>
    requires { IsTrue (is_in stack.old.layers.focus id) }
    ensures stack { stack.new ≡ record stack.old { layers = (if is_over_at (Q.spots places.now id) then stack.old.layers else raised id stack.old.layers) } }
    ensures is { result ≡ (if is_over_at (Q.spots places.now id) then None else Some id) }
{
    if places.over(id) {
        return None;
    }
    stack.click(id);
    Some(id)
}

impl Router {
    // The pixel that the pointer is at.
    fn pointer(&self) -> Option<Point>
        ensures is { result ≡ self.now.pointer }
        ensures pixel { IfSome result IsPixel }
    {
        self.pointer
    }

    // Puts the pointer at a pixel.
    fn put_pointer(&mut self, p: Point)
        requires { IsPixel p }
        ensures { self.new ≡ with_pointer p self.old }
    {
        self.pointer = Some(p);
    }

    // The row that is grabbed, else the one whose content has the pointer.
    pub(crate) fn hover_now<Q: Places>(&self, stack: &Stacking, places: &Q) -> Option<RowId>
        ensures { result ≡ hover_of (Q.spots places.now) stack.now.layers self.now.grab self.now.pointer }
    {
        match self.grab {
            Some(id) => Some(id),
            None => {
                match self.pointer {
                    Some(p) => owner_at(stack, places, p),
                    None => None,
                }
            }
        }
    }

    // Tells the row that has the hover of a move.
    fn tell_motion<Q: Places, V: Deliver>(&self, state: u16, places: &Q, to: &mut V)
        ensures { Leads V.delivers to.old (motion_in (Q.spots places.now) self.now.pointer state self.now.hover) to.new }
    {
        if let Some(id) = self.hover {
            let at = inside(places, id, self.pointer);
            let motion = GIn::Motion {
                window: id.window,
                x: at.x,
                y: at.y,
                state,
            };
            to.grant(id, &motion);
        }
    }

    // Tells a row that a button was pressed or released.
    fn tell_button<Q: Places, V: Deliver>(
        &self,
        id: RowId,
        down: bool,
        button: u8,
        state: u16,
        places: &Q,
        to: &mut V,
    )
        ensures { Leads V.delivers to.old (button_in (Q.spots places.now) self.now.pointer id down button state) to.new }
    {
        let at = inside(places, id, self.pointer);
        let event = GIn::Button {
            window: id.window,
            down,
            x: at.x,
            y: at.y,
            state,
            button,
        };
        to.grant(id, &event);
    }

    // The pointer moves to this pixel. Answers the row that has the hover there, which is told of the move
    // where it had the hover before.
    pub(crate) fn point<Q: Places, V: Deliver>(
        &mut self,
        p: Point,
        state: u16,
        stack: &Stacking,
        places: &Q,
        to: &mut V,
    ) -> Option<RowId>
        requires { IsPixel p }
        ensures seat { self.new ≡ with_pointer p self.old }
        ensures leads { Leads V.delivers to.old (moves_in (Q.spots places.now) (Some p) state self.old.hover (hover_of (Q.spots places.now) stack.now.layers self.old.grab (Some p))) to.new }
        ensures is { result ≡ hover_of (Q.spots places.now) stack.now.layers self.old.grab (Some p) }
    {
        self.put_pointer(p);
        let hover = self.hover_now(stack, places);
        if same(self.hover, hover) {
            self.tell_motion(state, places, to);
        }
        hover
    }

    // Grabs a row whose content has the pixel, and tells it of the button.
    fn grab_at<Q: Places, V: Deliver>(
        &mut self,
        id: RowId,
        p: Point,
        button: u8,
        state: u16,
        places: &Q,
        to: &mut V,
    )
        ensures seat { self.new ≡ (if has_content p (Q.spots places.now id) then grabbing id (button ∷ []) self.old else self.old) }
        ensures leads { Leads V.delivers to.old (if has_content p (Q.spots places.now id) then button_in (Q.spots places.now) self.old.pointer id true button state else []) to.new }
    {
        if has_content(places, id, p) {
            self.tell_button(id, true, button, state, places, to);
            self.take_grab(id, button);
        }
    }

    // A button is pressed at this pixel, and no row is grabbed. Answers the row that was raised.
    fn press_free<Q: Places, V: Deliver>(
        &mut self,
        p: Point,
        button: u8,
        state: u16,
        stack: &mut Stacking,
        places: &Q,
        to: &mut V,
    ) -> Option<RowId>
        ensures rows { stack.new.rows ≡ stack.old.rows }
        ensures presses { (setup : Setup) (scene : Scene) → Presents setup.border (Q.spots places.now) stack.old.layers self.old scene
            → Presses V.delivers to.old to.new self.new stack.old.layers stack.new.layers result
            (normal_id (topmost setup.border scene.rows scene.layers p)) (press_owner (topmost setup.border scene.rows scene.layers p) p button state scene) }
    {
        match top_at(stack, places, p) {
            Some(id) => {
                self.grab_at(id, p, button, state, places, to);
                raise_normal(id, stack, places)
            }
            None => None,
        }
    }

    // A button is pressed while a row is grabbed.
    fn press_grabbed<Q: Places, V: Deliver>(
        &mut self,
        id: RowId,
        button: u8,
        state: u16,
        places: &Q,
        to: &mut V,
    )
        ensures seat { self.new ≡ record self.old { grab = more_held button self.old.grab } }
        ensures leads { Leads V.delivers to.old (button_in (Q.spots places.now) self.old.pointer id true button state) to.new }
    {
        self.tell_button(id, true, button, state, places, to);
        self.hold(button);
    }

    // A button is pressed. Answers the row that was raised.
    fn press<Q: Places, V: Deliver>(
        &mut self,
        button: u8,
        state: u16,
        stack: &mut Stacking,
        places: &Q,
        to: &mut V,
    ) -> Option<RowId>
        ensures rows { stack.new.rows ≡ stack.old.rows }
        ensures presses { (setup : Setup) (scene : Scene) → Presents setup.border (Q.spots places.now) stack.old.layers self.old scene
            → Presses V.delivers to.old to.new self.new stack.old.layers stack.new.layers result
            (raised_at setup scene.seat.pointer scene.seat.grab scene) (press_by setup scene.seat.pointer scene.seat.grab button state scene) }
    {
        let p = self.pointer()?;
        match self.grabbed() {
            Some(id) => {
                self.press_grabbed(id, button, state, places, to);
                None
            }
            None => self.press_free(p, button, state, stack, places, to),
        }
    }

    // A button is released, which matters where a grab holds it.
    fn release<Q: Places, V: Deliver>(&mut self, button: u8, state: u16, places: &Q, to: &mut V)
        ensures { (border : ℕ) (scene : Scene) → Shows border (Q.spots places.now) scene → scene.seat ≡ self.old
            → Carries V.delivers to.old to.new self.new (release_by scene.seat.grab button state scene) }
    {
        if let Some(id) = self.holder(button) {
            self.tell_button(id, false, button, state, places, to);
            self.let_go(button);
        }
    }

    // A button is pressed or released. Answers the row that was raised.
    pub(crate) fn button<Q: Places, V: Deliver>(
        &mut self,
        down: bool,
        button: u8,
        state: u16,
        stack: &mut Stacking,
        places: &Q,
        to: &mut V,
    ) -> Option<RowId>
        ensures rows { stack.new.rows ≡ stack.old.rows }
        ensures presses { (setup : Setup) (scene : Scene) → Presents setup.border (Q.spots places.now) stack.old.layers self.old scene
            → Presses V.delivers to.old to.new self.new stack.old.layers stack.new.layers result
            (raised_press setup down scene) (press setup down button state scene) }
    {
        if down {
            return self.press(button, state, stack, places, to);
        }
        self.release(button, state, places, to);
        None
    }
}
