// What the user does: it is routed to the windows, and the rows are told of the focus and of the hover.
ghost use Rattle.std.specs.Prelude.{◌≡◌, false, ◌≤◌, length};
ghost use Rattle.std.specs.List.{All};
ghost use Rattle.compositor.specs.PictureView.{LiesIn};
ghost use Rattle.desk_laws.specs.declared.setup.Setup.{Setup};
ghost use Rattle.desk_laws.specs.Events.{route};
ghost use Rattle.desk_laws.specs.Scene.{Scene, and_then, ignored, perform};
ghost use Rattle.desk_laws.specs.Settle.{IsSettled, settle as settled_after};
ghost use Rattle.desk_laws.specs.Sizes.{sizes_of};
ghost use Rattle.input_router.specs.Routes.{HasPixel, StaysOn};
ghost use Rattle.clipboard_gate.specs.Kept.{keeping};
ghost use Rattle.desk_core.specs.Scenes.{IsScene, KeepSessions, TakePastes};
ghost use Rattle.desk_core.specs.EventSteps.{Performs, EventTakes, FindsBehind};

use crate::deliveries::Queue;
use crate::grants::carry_out;
use crate::outputs::stays_on;
use crate::places::SessionPlaces;
use crate::settle::{settle, settle_at};
use clipboard_gate::Gate;
use desk_laws::{Item, Pair};
use guest_session::Session;
use gui_num::Rect;
use input_router::{Router, Taken};
use io_ports::Outlet;
use stacking::Stacking;

// Routes an event, and carries out what it hands on to the windows. Answers whether focus and hover are
// still those last told, and behind a Move which row the hover is.
fn perform_event<O: Outlet>(
    router: &mut Router,
    sessions: &mut [Session],
    stack: &mut Stacking,
    gate: &mut Gate,
    denied: &[Pair],
    border: u32,
    item: &Item,
    out: &mut O,
) -> Taken
    requires border { border ≤ 16 }
    requires pastes { TakePastes gate.old sessions.old }
    requires pixel { HasPixel item.now }
    ensures rows { stack.new.rows ≡ stack.old.rows }
    ensures count { length sessions.new ≡ length sessions.old }
    ensures sessions { KeepSessions sessions.old sessions.new }
    ensures limit { gate.new.limit ≡ gate.old.limit }
    ensures performs { (setup : Setup) (scene : Scene) → setup.border ≡ border → setup.denied ≡ denied.now → StaysOn setup item.now
        → IsScene sessions.old stack.old.layers router.old scene → gate.old ≡ keeping (sizes_of setup).clip_limit scene.clip → IsSettled (sizes_of setup) scene
        → Performs O.takes out.old out.new sessions.old sessions.new stack.new.layers gate.new router.new result.settled (sizes_of setup) (perform setup.denied (route setup item.now scene) scene) }
    ensures finds { (setup : Setup) (scene : Scene) → setup.border ≡ border → StaysOn setup item.now → IsScene sessions.old stack.old.layers router.old scene → IsSettled (sizes_of setup) scene
        → result.settled ≡ false → FindsBehind item.now (sizes_of setup) (perform setup.denied (route setup item.now scene) scene).scene result.hover }
{
    let mut queue = Queue::new();
    let places = SessionPlaces { sessions, border };
    let taken = router.take(item, stack, &places, &mut queue);
    carry_out(&queue, sessions, gate, denied, out);
    taken
}

/// Takes an event of the user, on a desktop with these outputs and with borders of so many pixels: it is
/// routed to the windows, what it hands on to them is carried out, and the rows are told of the focus and
/// of the hover where they are others than before. A Move to a pixel in no output does nothing, and
/// neither does an item that isn't an event of the user. No paste goes between the denied pairs of guests.
/// No memory is taken.
///
/// What comes of it is what the definitions give for an event on the scene that these sessions, this
/// stack, this clipboard and this router are those of, where focus and hover were told as they are there.
pub(crate) fn take_event<O: Outlet>(
    router: &mut Router,
    sessions: &mut [Session],
    stack: &mut Stacking,
    gate: &mut Gate,
    denied: &[Pair],
    border: u32,
    outputs: &[Rect],
    item: &Item,
    out: &mut O,
)
    requires border { border ≤ 16 }
    requires pastes { TakePastes gate.old sessions.old }
    requires outputs { All (LiesIn 8192 8192) outputs.now }
    ensures rows { stack.new.rows ≡ stack.old.rows }
    ensures count { length sessions.new ≡ length sessions.old }
    ensures takes { (setup : Setup) (scene : Scene) → setup.border ≡ border → setup.outputs ≡ outputs.now → setup.denied ≡ denied.now
        → IsScene sessions.old stack.old.layers router.old scene → gate.old ≡ keeping (sizes_of setup).clip_limit scene.clip → IsSettled (sizes_of setup) scene
        → EventTakes O.takes out.old out.new sessions.old sessions.new stack.new.layers gate.new router.new (sizes_of setup) (and_then (perform setup.denied (route setup item.now scene) scene) (settled_after (sizes_of setup))) }
{
    if !stays_on(item, outputs) {
        return;
    }
    let taken = perform_event(router, sessions, stack, gate, denied, border, item, out);
    if taken.settled {
        return;
    }
    match *item {
        Item::Move { .. } => {
            settle_at(
                taken.hover,
                router,
                sessions,
                stack,
                gate,
                denied,
                border,
                out,
            )
        }
        _ => settle(router, sessions, stack, gate, denied, border, out),
    }
}
