// What is handed on to the guests is carried out on their sessions.
ghost use Rattle.std.specs.Prelude.{◌≡◌, ℕ, ◌<◌, ◌≤◌, [], is_some, length};
ghost use Rattle.desk_laws.specs.Grants.{FitsGrant};
ghost use Rattle.desk_laws.specs.Scene.{Scene, deliver, deliver_all, grant};
ghost use Rattle.clipboard_gate.specs.Kept.{keeping};
ghost use Rattle.desk_core.specs.Places.{row_of};
ghost use Rattle.desk_core.specs.Queued.{delivery_of, FitsDelivery};
ghost use Rattle.desk_core.specs.Scenes.{CarriedOut, Delivered, HasRowsOf, KeepSessions, TakePastes, session_at};

use crate::deliveries::{Delivery, Queue};
use crate::pastes::{ask, paste};
use crate::places::pane_of;
use clipboard_gate::Gate;
use desk_laws::{GIn, Pair, RowId};
use guest_session::Session;
use io_ports::Outlet;

// Whether there is a row with an id.
fn is_there(sessions: &[Session], id: RowId) -> bool
    ensures { result ≡ is_some (row_of sessions.now id) }
{
    pane_of(sessions, id).is_some()
}

// Grants a row an input, with these bytes where it is a paste. Nothing is granted to a row that is gone.
pub(crate) fn grant<O: Outlet>(
    sessions: &mut [Session],
    id: RowId,
    input: &GIn,
    bytes: &[u8],
    out: &mut O,
)
    requires fits { FitsGrant input.now }
    requires bytes { id.guest < length sessions.old → length bytes.now ≤ (session_at sessions.old id.guest).sizes.clip_limit }
    ensures kept { KeepSessions sessions.old sessions.new }
    ensures granted { (scene : Scene) → HasRowsOf sessions.old scene → CarriedOut O.takes out.old out.new sessions.new (grant id input.now bytes.now scene) }
{
    if is_there(sessions, id) {
        sessions[id.guest as usize].grant(input, bytes, out);
    }
}

// Carries out one thing. These are the pairs of guests between which no paste goes.
fn deliver<O: Outlet>(
    delivery: &Delivery,
    sessions: &mut [Session],
    gate: &mut Gate,
    denied: &[Pair],
    out: &mut O,
)
    requires fits { FitsDelivery (delivery_of delivery.now) }
    requires takes { TakePastes gate.old sessions.old }
    ensures kept { KeepSessions sessions.old sessions.new }
    ensures limit { gate.new.limit ≡ gate.old.limit }
    ensures delivers { (limit : ℕ) (scene : Scene) → HasRowsOf sessions.old scene → gate.old ≡ keeping limit scene.clip
        → Delivered O.takes out.old out.new sessions.new limit gate.new (deliver denied.now (delivery_of delivery.now) scene) }
{
    match delivery {
        Delivery::Grant { id, input } => grant(sessions, *id, input, &[], out),
        Delivery::Ask { id } => ask(sessions, *id, gate, out),
        Delivery::Paste { id } => paste(sessions, *id, gate, denied, out),
    }
}

// Carries out what waits in a queue, in its order. These are the pairs of guests between which no paste
// goes.
pub(crate) fn carry_out<O: Outlet>(
    queue: &Queue,
    sessions: &mut [Session],
    gate: &mut Gate,
    denied: &[Pair],
    out: &mut O,
)
    requires { TakePastes gate.old sessions.old }
    ensures kept { KeepSessions sessions.old sessions.new }
    ensures limit { gate.new.limit ≡ gate.old.limit }
    ensures delivers { (limit : ℕ) (scene : Scene) → HasRowsOf sessions.old scene → gate.old ≡ keeping limit scene.clip
        → Delivered O.takes out.old out.new sessions.new limit gate.new (deliver_all denied.now queue.now scene) }
{
    for delivery in queue.deliveries() {
        deliver(delivery, sessions, gate, denied, out);
    }
}
