// The router: what is kept of the user's doings.
ghost use Rattle.std.specs.Prelude.{◌≡◌, None, false};
ghost use Rattle.desk_laws.specs.declared.setup.Setup.{Setup};
ghost use Rattle.desk_laws.specs.Scene.{Scene, idle_seat};
ghost use Rattle.desk_laws.specs.Settle.{IsSettled, same_id};
ghost use Rattle.desk_laws.specs.Sizes.{sizes_of};
ghost use Rattle.input_router.specs.Presents.{Presents};
ghost use Rattle.input_router.specs.Routes.{AreMapped, HasPixel, HoldsShown, StaysOn, Routes, Takes, told};

use crate::codes::Codes;
use crate::commands::{close_focus, move_focus, raise_next, restore_last, size_focus};
use crate::deliver::Deliver;
use crate::places::Places;
use crate::settle::same;
use crate::walks::{Wanted, last_listed};
use desk_laws::{Item, RowId};
use gui_num::Point;
use stacking::Stacking;
use std::marker::Model;

/// Where the pointer is, which row is grabbed, the keys that are held, and the focus and the hover as
/// they were last told to the rows.
///
/// Contracts see it as the seat of a scene.
#[derive(Drop)]
pub struct Router {
    pub(crate) pointer: Option<Point>,
    pub(crate) grab: Option<RowId>,
    pub(crate) buttons: Codes,
    pub(crate) pressed_keys: Codes,
    pub(crate) focus: Option<RowId>,
    pub(crate) hover: Option<RowId>,
}

impl Model for Router {
    ghost use Rattle.std.specs.Prelude.{IfSome};
    ghost use Rattle.desk_laws.specs.Scene.{Seat};
    ghost use Rattle.input_router.specs.SeatView.{grab_with, IsPixel};

    ghost Value = { Seat };

    ghost view = { λ r. record { pointer = r.pointer; grab = grab_with r.buttons r.grab; pressed_keys = r.pressed_keys; focus = r.focus; hover = r.hover } };

    ghost invariant = { λ r. IfSome r.pointer IsPixel };
}

/// What an event did to the stack and to a place: the row that it raised, and the row to which it granted
/// Place or Restored, each `None` exactly where there is none.
#[derive(Clone, Copy, Debug, PartialEq, Eq)]
pub struct Routed {
    pub raised: Option<RowId>,
    pub changed: Option<RowId>,
}

/// The same, whether focus and hover are still those last told, and the hover that a move found.
#[derive(Clone, Copy, Debug, PartialEq, Eq)]
pub struct Taken {
    pub raised: Option<RowId>,
    pub changed: Option<RowId>,
    /// Whether focus and hover are still those last told: `true` for a key, and for a move in which the
    /// hover stays; of other events it isn't told.
    pub settled: bool,
    /// For a move the row that the hover is then; of other events it isn't told.
    pub hover: Option<RowId>,
}

impl Router {
    /// No pointer, no grab, no key, no focus.
    pub fn new() -> Self
        ensures { result ≡ idle_seat }
    {
        Router {
            pointer: None,
            grab: None,
            buttons: Codes::new(),
            pressed_keys: Codes::new(),
            focus: None,
            hover: None,
        }
    }

    /// The row that has the focus, as last settled.
    pub fn focus(&self) -> Option<RowId>
        ensures { result ≡ self.now.focus }
    {
        self.focus
    }

    /// The row whose content has the pointer, or that is grabbed, as last settled.
    pub fn hover(&self) -> Option<RowId>
        ensures { result ≡ self.now.hover }
    {
        self.hover
    }

    // Notes another focus and hover as last told.
    fn note(&mut self, focus: Option<RowId>, hover: Option<RowId>)
        ensures { self.new ≡ told focus hover self.old }
    {
        self.focus = focus;
        self.hover = hover;
    }

    // What came of a move after which the hover is this one.
    fn moved(&self, hover: Option<RowId>) -> Taken
        ensures { result ≡ record { raised = None; changed = None; settled = same_id self.now.hover hover; hover = hover } }
    {
        Taken {
            raised: None,
            changed: None,
            settled: same(self.hover, hover),
            hover,
        }
    }

    /// Takes an event of the user: changes the stack, and tells the rows what is for them. An item that
    /// is no such event does nothing. No memory is taken.
    ///
    /// A row of the stack that isn't shown counts as hidden. What comes of it is what `route` of the
    /// definitions gives, for every setup and scene that these places, this stack and this router are
    /// those of, where the stack's rows are mapped, a row that is grabbed is shown, and the pixel of a
    /// Move is in an output. The row that is raised is named each time, also where it is on top already.
    ///
    /// The rows are looked through for the focus and for the hover. Where both are those last told,
    /// `take` does the same without that.
    pub fn route<Q: Places, V: Deliver>(
        &mut self,
        item: &Item,
        stack: &mut Stacking,
        places: &Q,
        to: &mut V,
    ) -> Routed
        requires { HasPixel item.now }
        ensures rows { stack.new.rows ≡ stack.old.rows }
        ensures routes { (setup : Setup) (scene : Scene) → Presents setup.border (Q.spots places.now) stack.old.layers self.old scene
            → AreMapped scene → HoldsShown scene → StaysOn setup item.now
            → Routes V.delivers to.old to.new self.new stack.old.layers stack.new.layers result setup item.now scene }
    {
        let (focus, hover) = (self.focus, self.hover);
        let focus_now = last_listed(stack, places, Wanted::Normal);
        let hover_now = self.hover_now(stack, places);
        self.note(focus_now, hover_now);
        let taken = self.take(item, stack, places, to);
        self.note(focus, hover);
        Routed {
            raised: taken.raised,
            changed: taken.changed,
        }
    }

    /// Does what `route` does where the focus and the hover of this moment are those last told, as
    /// `settle` leaves them: a key and the commands for the focus look through no rows, and a move once.
    /// Answers besides whether both are still those last told, so that `settle` has nothing to tell, and
    /// the hover that a move found, so that `settle_at` need not look for it.
    pub fn take<Q: Places, V: Deliver>(
        &mut self,
        item: &Item,
        stack: &mut Stacking,
        places: &Q,
        to: &mut V,
    ) -> Taken
        requires { HasPixel item.now }
        ensures rows { stack.new.rows ≡ stack.old.rows }
        ensures takes { (setup : Setup) (scene : Scene) → Presents setup.border (Q.spots places.now) stack.old.layers self.old scene
            → AreMapped scene → IsSettled (sizes_of setup) scene → StaysOn setup item.now
            → Takes V.delivers to.old to.new self.new stack.old.layers stack.new.layers result setup item.now scene }
    {
        match *item {
            Item::Key { down, code, state } => {
                self.key(down, code, state, to);
                unraised(true)
            }
            Item::Move { x, y, state } => {
                let hover = self.point(Point { x, y }, state, stack, places, to);
                self.moved(hover)
            }
            Item::Press {
                down,
                button,
                state,
            } => { named(self.button(down, button, state, stack, places, to), None) }
            Item::Close => {
                close_focus(self.focus(), to);
                unraised(false)
            }
            Item::Next => named(raise_next(stack, places), None),
            Item::Restore => {
                let restored = restore_last(stack, places, to);
                named(restored, restored)
            }
            Item::MoveTo { x, y } => named(None, move_focus(self.focus(), x, y, places, to)),
            Item::SizeTo { w, h } => named(None, size_focus(self.focus(), w, h, places, to)),
            _ => unraised(false),
        }
    }
}

// The row that was raised, and the one whose place or flags were changed.
fn named(raised: Option<RowId>, changed: Option<RowId>) -> Taken
    ensures { result ≡ record { raised = raised; changed = changed; settled = false; hover = None } }
{
    Taken {
        raised,
        changed,
        settled: false,
        hover: None,
    }
}

// No row was raised or changed.
fn unraised(settled: bool) -> Taken
    ensures { result ≡ record { raised = None; changed = None; settled = settled; hover = None } }
{
    Taken {
        raised: None,
        changed: None,
        settled,
        hover: None,
    }
}
