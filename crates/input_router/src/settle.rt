// Focus and hover are told to the rows where they are others than those last told.
ghost use Rattle.std.specs.Prelude.{◌≡◌, ◌++◌, IfSome};
ghost use Rattle.desk_laws.specs.Scene.{Scene};
ghost use Rattle.desk_laws.specs.Settle.{same_id, hover_now, focusing, keymap, focus_told, settled_seat, settled, grab_checked};
ghost use Rattle.desk_laws.specs.Sizes.{Sizes};
ghost use Rattle.input_router.specs.Deliveries.{Leads};
ghost use Rattle.input_router.specs.Presents.{Presents, Carries};
ghost use Rattle.input_router.specs.Routes.{HoldsShown};
ghost use Rattle.input_router.specs.SeatView.{IsPixel};
ghost use Rattle.input_router.specs.Seated.{crossed, hover_moved};

use crate::deliver::Deliver;
use crate::places::Places;
use crate::pointer::inside;
use crate::router::Router;
use crate::walks::{Wanted, last_listed};
use desk_laws::{GIn, RowId};
use gui_num::Point;
use stacking::Stacking;

// Whether two rows, or none, are the same.
pub(crate) fn same(a: Option<RowId>, b: Option<RowId>) -> bool
    ensures { result ≡ same_id a b }
{
    match a {
        Some(first) => {
            match b {
                Some(second) => first == second,
                None => false,
            }
        }
        None => b.is_none(),
    }
}

// Tells a row, if there is one, that it gained or lost the focus.
fn tell_focusing<V: Deliver>(gained: bool, row: Option<RowId>, to: &mut V)
    ensures { Leads V.delivers to.old (focusing gained row) to.new }
{
    if let Some(id) = row {
        let focus = GIn::Focus {
            window: id.window,
            gained,
        };
        to.grant(id, &focus);
    }
}

// Tells the guest of a row, if there is one, the state of the keyboard.
fn tell_keymap<V: Deliver>(row: Option<RowId>, to: &mut V)
    ensures { Leads V.delivers to.old (keymap row) to.new }
{
    if let Some(id) = row {
        to.grant(id, &GIn::Keymap);
    }
}

// Tells a row, if there is one, that the pointer entered or left it, with this focus.
fn tell_crossing<Q: Places, V: Deliver>(
    enter: bool,
    row: Option<RowId>,
    focus: Option<RowId>,
    pointer: Option<Point>,
    places: &Q,
    to: &mut V,
)
    requires { IfSome pointer IsPixel }
    ensures { Leads V.delivers to.old (crossed (Q.spots places.now) focus pointer enter row) to.new }
{
    if let Some(id) = row {
        let at = inside(places, id, pointer);
        let crossing = GIn::Crossing {
            window: id.window,
            enter,
            x: at.x,
            y: at.y,
            focus: same(row, focus),
        };
        to.grant(id, &crossing);
    }
}

impl Router {
    // Tells the old focus and this one, where it is another.
    fn tell_focus<V: Deliver>(&self, focus: Option<RowId>, to: &mut V)
        ensures { Leads V.delivers to.old (focus_told self.now.focus focus) to.new }
    {
        if !same(self.focus, focus) {
            tell_focusing(false, self.focus, to);
            tell_focusing(true, focus, to);
            tell_keymap(focus, to);
        }
    }

    // Tells the old hover and this one, where it is another: first who is left, then who is entered.
    fn tell_hover<Q: Places, V: Deliver>(
        &self,
        hover: Option<RowId>,
        focus: Option<RowId>,
        places: &Q,
        to: &mut V,
    )
        ensures { Leads V.delivers to.old (hover_moved (Q.spots places.now) focus self.now.pointer self.now.hover hover) to.new }
    {
        if !same(self.hover, hover) {
            tell_crossing(false, self.hover, focus, self.pointer, places, to);
            tell_crossing(true, hover, focus, self.pointer, places, to);
        }
    }

    // Notes what was told. Where the focus is another, all noted keys are forgotten.
    fn note_told(&mut self, focus: Option<RowId>, hover: Option<RowId>)
        ensures { self.new ≡ settled_seat focus hover self.old }
    {
        if !same(self.focus, focus) {
            self.pressed_keys.clear();
        }
        self.focus = focus;
        self.hover = hover;
    }

    // Tells the rows of this focus and this hover, where they are others than those last told, and notes
    // them.
    fn tell_now<Q: Places, V: Deliver>(
        &mut self,
        focus: Option<RowId>,
        hover: Option<RowId>,
        places: &Q,
        to: &mut V,
    )
        ensures seat { self.new ≡ settled_seat focus hover self.old }
        ensures leads { Leads V.delivers to.old (focus_told self.old.focus focus ++ hover_moved (Q.spots places.now) focus self.old.pointer self.old.hover hover) to.new }
    {
        self.tell_focus(focus, to);
        self.tell_hover(hover, focus, places, to);
        self.note_told(focus, hover);
    }

    /// Ends a grab whose row isn't shown, and then tells the rows of the focus and the hover of this
    /// moment, where they are others than those last told: FocusOut to the old focus, FocusIn and the
    /// state of the keyboard to the new one, Leave to the old hover and Enter to the new one. Where the
    /// focus is another, the keys that were pressed are forgotten. No memory is taken.
    pub fn settle<Q: Places, V: Deliver>(&mut self, stack: &Stacking, places: &Q, to: &mut V)
        ensures { (sizes : Sizes) (scene : Scene) → Presents sizes.border (Q.spots places.now) stack.now.layers self.old scene
            → Carries V.delivers to.old to.new self.new (settled sizes (grab_checked scene)) }
    {
        self.check_grab(places);
        let focus_now = last_listed(stack, places, Wanted::Normal);
        let hover_now = self.hover_now(stack, places);
        self.tell_now(focus_now, hover_now, places, to);
    }

    /// Does what `settle` does where the hover of this moment is known, as `take` answers it for a move,
    /// and a row that is grabbed is shown: the rows are looked through for the focus alone. No memory is
    /// taken.
    pub fn settle_at<Q: Places, V: Deliver>(
        &mut self,
        hover: Option<RowId>,
        stack: &Stacking,
        places: &Q,
        to: &mut V,
    )
        ensures { (sizes : Sizes) (scene : Scene) → Presents sizes.border (Q.spots places.now) stack.now.layers self.old scene
            → HoldsShown scene → hover ≡ hover_now sizes scene
            → Carries V.delivers to.old to.new self.new (settled sizes (grab_checked scene)) }
    {
        let focus = last_listed(stack, places, Wanted::Normal);
        self.tell_now(focus, hover, places, to);
    }
}
