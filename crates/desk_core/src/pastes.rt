// What the two key chords of the clipboard lead to: a guest is asked for its data, or is given what is held.
ghost use Rattle.std.specs.Prelude.{◌≡◌, ℕ, Some};
ghost use Rattle.desk_laws.specs.Clipboard.{Content, wiped};
ghost use Rattle.desk_laws.specs.Scene.{Scene, asks, grant, pastes, with_clip};
ghost use Rattle.clipboard_gate.specs.Kept.{keeping};
ghost use Rattle.desk_core.specs.Scenes.{Delivered, HasRowsOf, KeepSessions, TakePastes};

use crate::grants::grant;
use clipboard_gate::Gate;
use desk_laws::{GIn, Pair, RowId, denies};
use guest_session::Session;
use io_ports::Outlet;

// Asks a row's guest for its data, in place of any guest that was asked before.
pub(crate) fn ask<O: Outlet>(sessions: &mut [Session], id: RowId, gate: &mut Gate, out: &mut O)
    ensures kept { KeepSessions sessions.old sessions.new }
    ensures limit { gate.new.limit ≡ gate.old.limit }
    ensures asks { (limit : ℕ) (scene : Scene) → HasRowsOf sessions.old scene → gate.old ≡ keeping limit scene.clip
        → Delivered O.takes out.old out.new sessions.new limit gate.new (asks id scene) }
{
    gate.ask(id.guest);
    grant(sessions, id, &GIn::ClipAsk { window: id.window }, &[], out);
}

// Gives a row's guest the data that is held, and wipes it.
fn give<O: Outlet>(sessions: &mut [Session], id: RowId, gate: &mut Gate, out: &mut O)
    requires { TakePastes gate.old sessions.old }
    ensures kept { KeepSessions sessions.old sessions.new }
    ensures limit { gate.new.limit ≡ gate.old.limit }
    ensures gives { (limit : ℕ) (scene : Scene) (content : Content) → HasRowsOf sessions.old scene → gate.old ≡ keeping limit scene.clip → scene.clip.content ≡ Some content
        → Delivered O.takes out.old out.new sessions.new limit gate.new (grant id (GIn.ClipGive id.window) content.bytes (with_clip (wiped scene.clip) scene)) }
{
    if let Some(bytes) = gate.paste() {
        grant(
            sessions,
            id,
            &GIn::ClipGive { window: id.window },
            bytes,
            out,
        );
    }
    gate.wipe();
}

// Gives a row's guest the data that is held, if any is, and wipes it. Between a pair of guests that is
// denied no paste goes, and the data stays.
pub(crate) fn paste<O: Outlet>(
    sessions: &mut [Session],
    id: RowId,
    gate: &mut Gate,
    denied: &[Pair],
    out: &mut O,
)
    requires { TakePastes gate.old sessions.old }
    ensures kept { KeepSessions sessions.old sessions.new }
    ensures limit { gate.new.limit ≡ gate.old.limit }
    ensures pastes { (limit : ℕ) (scene : Scene) → HasRowsOf sessions.old scene → gate.old ≡ keeping limit scene.clip
        → Delivered O.takes out.old out.new sessions.new limit gate.new (pastes denied.now id scene.clip.content scene) }
{
    let Some(source) = gate.source() else {
        return;
    };
    if denies(denied, source, id.guest) {
        return;
    }
    give(sessions, id, gate, out);
}
