// Once an item is done, the rows are told of the focus and of the hover.
ghost use Rattle.std.specs.Prelude.{◌≡◌, ◌≤◌};
ghost use Rattle.desk_laws.specs.Sizes.{Sizes};
ghost use Rattle.desk_laws.specs.Scene.{Scene};
ghost use Rattle.clipboard_gate.specs.Kept.{keeping};
ghost use Rattle.desk_core.specs.EventSteps.{KnowsHover};
ghost use Rattle.desk_core.specs.Scenes.{IsScene, Settles, TakePastes};

use crate::deliveries::Queue;
use crate::grants::carry_out;
use crate::places::SessionPlaces;
use clipboard_gate::Gate;
use desk_laws::{Pair, RowId};
use guest_session::Session;
use input_router::Router;
use io_ports::Outlet;
use stacking::Stacking;

// Ends a grab whose row isn't shown, and tells the rows of the focus and the hover of this moment, where
// they are others than those last told. The clipboard stays as it is.
pub(crate) fn settle<O: Outlet>(
    router: &mut Router,
    sessions: &mut [Session],
    stack: &Stacking,
    gate: &mut Gate,
    denied: &[Pair],
    border: u32,
    out: &mut O,
)
    requires border { border ≤ 16 }
    requires takes { TakePastes gate.old sessions.old }
    ensures { (sizes : Sizes) (scene : Scene) → sizes.border ≡ border → IsScene sessions.old stack.now.layers router.old scene → gate.old ≡ keeping sizes.clip_limit scene.clip
        → Settles O.takes out.old out.new sessions.old sessions.new gate.old gate.new router.new sizes scene }
{
    let mut queue = Queue::new();
    router.settle(stack, &SessionPlaces { sessions, border }, &mut queue);
    carry_out(&queue, sessions, gate, denied, out);
}

// The same where a row that is grabbed is shown, and the row that the hover is now is known: it isn't
// looked for.
pub(crate) fn settle_at<O: Outlet>(
    hover: Option<RowId>,
    router: &mut Router,
    sessions: &mut [Session],
    stack: &Stacking,
    gate: &mut Gate,
    denied: &[Pair],
    border: u32,
    out: &mut O,
)
    requires border { border ≤ 16 }
    requires takes { TakePastes gate.old sessions.old }
    ensures { (sizes : Sizes) (scene : Scene) → sizes.border ≡ border → IsScene sessions.old stack.now.layers router.old scene → gate.old ≡ keeping sizes.clip_limit scene.clip → KnowsHover sizes scene hover
        → Settles O.takes out.old out.new sessions.old sessions.new gate.old gate.new router.new sizes scene }
{
    let mut queue = Queue::new();
    let places = SessionPlaces { sessions, border };
    router.settle_at(hover, stack, &places, &mut queue);
    carry_out(&queue, sessions, gate, denied, out);
}
