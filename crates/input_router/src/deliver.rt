// Where what the user's events bring about goes to.
ghost use Rattle.desk_laws.specs.Grants.{FitsGrant};
ghost use Rattle.desk_laws.specs.Scene.{Delivery, Grants, Asks, Pastes};

use desk_laws::{GIn, RowId};

/// Takes what is handed on to the rows, each thing for one of them.
///
/// What a delivery does is up to each deliverer, and is said by its relation `delivers`. A function
/// that delivers a list leads from the old deliverer to the new one by `delivers` over that list, in
/// order. `route` and `take` deliver one thing at most, `settle` and `settle_at` five.
pub trait Deliver {
    /// The deliverer before a delivery, the delivery, and the deliverer after it.
    ghost delivers: { Self → Delivery → Self → Type 0 };

    /// Grants a row an input. A place that is granted is in range, as `Places::place` says it.
    fn grant(&mut self, id: RowId, g: &GIn)
        requires { FitsGrant g.now }
        ensures { delivers self.old (Grants id g.now) self.new };

    /// Asks the guest of a row for its clipboard, in the row's name.
    fn ask(&mut self, id: RowId)
        ensures { delivers self.old (Asks id) self.new };

    /// Gives a row the clipboard that is held.
    fn paste(&mut self, id: RowId)
        ensures { delivers self.old (Pastes id) self.new };
}
