// The grab: while buttons are held, all that the pointer does is for the row on which the first was
// pressed.
ghost use Rattle.std.specs.Prelude.{◌≡◌, [], ◌∷◌, None};
ghost use Rattle.desk_laws.specs.Events.{grabbing};
ghost use Rattle.input_router.specs.Pointed.{grabbed_in, holder_in, more_held, less_held};
ghost use Rattle.input_router.specs.Seated.{kept_grab};

use crate::places::Places;
use crate::router::Router;
use desk_laws::RowId;

impl Router {
    // The grabbed row.
    pub(crate) fn grabbed(&self) -> Option<RowId>
        ensures { result ≡ grabbed_in self.now.grab }
    {
        self.grab
    }

    // The grabbed row, where this button is held.
    pub(crate) fn holder(&self, button: u8) -> Option<RowId>
        ensures { result ≡ holder_in button self.now.grab }
    {
        match self.grab {
            Some(id) => {
                if self.buttons.has(button) {
                    Some(id)
                } else {
                    None
                }
            }
            None => None,
        }
    }

    // Grabs a row with this button.
    pub(crate) fn take_grab(&mut self, id: RowId, button: u8)
        ensures { self.new ≡ grabbing id (button ∷ []) self.old }
    {
        self.grab = Some(id);
        self.buttons.clear();
        self.buttons.put(button);
    }

    // Holds one button more.
    pub(crate) fn hold(&mut self, button: u8)
        ensures { self.new ≡ record self.old { grab = more_held button self.old.grab } }
    {
        self.buttons.put(button);
    }

    // Holds one button less. The grab ends with the last one.
    pub(crate) fn let_go(&mut self, button: u8)
        ensures { self.new ≡ record self.old { grab = less_held button self.old.grab } }
    {
        self.buttons.take(button);
        if self.buttons.is_empty() {
            self.grab = None;
        }
    }

    // Lets the grabbed row go.
    fn end_grab(&mut self)
        ensures { self.new ≡ record self.old { grab = None } }
    {
        self.grab = None;
        self.buttons.clear();
    }

    // Ends a grab whose row isn't shown.
    pub(crate) fn check_grab<Q: Places>(&mut self, places: &Q)
        ensures { self.new ≡ record self.old { grab = kept_grab (Q.spots places.now) self.old.grab } }
    {
        if let Some(id) = self.grab {
            if !places.shown(id) {
                self.end_grab();
            }
        }
    }
}
