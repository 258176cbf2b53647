// What the router hands on to the guests waits in a queue: it asks the sessions for the places of their
// windows as long as it runs, so they can take it only behind that.
ghost use Rattle.std.specs.Prelude.{◌≡◌, [], map};
ghost use Rattle.std.specs.List.{All};
ghost use Rattle.desk_core.specs.Queued.{delivery_of, FitsDelivery, Queues};

use arrayvec::ArrayVec;
use desk_laws::{GIn, RowId};
use input_router::Deliver;
use std::marker::Model;

// One thing that is handed on to a row.
#[derive(Clone, Copy, Debug, PartialEq, Eq)]
pub(crate) enum Delivery {
    // An input is granted.
    Grant { id: RowId, input: GIn },
    // Its guest is asked for the clipboard.
    Ask { id: RowId },
    // It is given the clipboard that is held.
    Paste { id: RowId },
}

impl Default for Delivery {
    // What fills the places of a queue that aren't taken.
    fn default() -> Self {
        Delivery::Ask {
            id: RowId {
                guest: 0,
                window: 0,
            },
        }
    }
}

// Deliveries in their order, five at most: no event and no settling hands on more.
//
// Contracts see the list of them.
#[derive(Drop)]
pub(crate) struct Queue {
    deliveries: ArrayVec<Delivery, 5>,
}

impl Model for Queue {
    ghost use Rattle.std.specs.Prelude.{List, map};
    ghost use Rattle.std.specs.List.{All};
    ghost use Rattle.desk_laws.specs.Scene.{Delivery as Delivered};
    ghost use Rattle.desk_core.specs.Queued.{delivery_of, FitsDelivery};

    ghost Value = { List Delivered };

    ghost view = { λ q. map delivery_of q.deliveries.items };

    ghost invariant = { λ q. All FitsDelivery (map delivery_of q.deliveries.items) };
}

impl Queue {
    // Nothing is handed on.
    pub(crate) fn new() -> Self
        ensures { result ≡ [] }
    {
        Queue {
            deliveries: ArrayVec::new(),
        }
    }

    // What waits, in its order.
    pub(crate) fn deliveries(&self) -> &[Delivery]
        ensures is { map delivery_of result.now ≡ self.now }
        ensures fit { All FitsDelivery (map delivery_of result.now) }
    {
        self.deliveries.as_slice()
    }

    // Puts a delivery behind the others, where there is room for it.
    fn put(&mut self, delivery: Delivery)
        requires { FitsDelivery (delivery_of delivery) }
        ensures { Queues self.old (delivery_of delivery) self.new }
    {
        if self.deliveries.len() < 5 {
            self.deliveries.push(delivery);
        }
    }
}

impl Deliver for Queue {
    ghost delivers = { λ q d q'. Queues q d q' };

    fn grant(&mut self, id: RowId, g: &GIn) {
        self.put(Delivery::Grant { id, input: *g });
    }

    fn ask(&mut self, id: RowId) {
        self.put(Delivery::Ask { id });
    }

    fn paste(&mut self, id: RowId) {
        self.put(Delivery::Paste { id });
    }
}
