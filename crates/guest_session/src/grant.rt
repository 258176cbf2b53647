// What the desktop grants a guest: what it does to the window, and the message that tells it.
ghost use Rattle.std.specs.Prelude.{◌≡◌, ◌+◌, ◌≤◌, max, [], ◌∷◌, Some, IfSome, length};
ghost use Rattle.gui_wire.specs.declared.limits.TheConstants.{MAX_CLIPBOARD_DATA};
ghost use Rattle.desk_laws.specs.Rows.{Row, row_with};
ghost use Rattle.desk_laws.specs.Effects.{as_one};
ghost use Rattle.desk_laws.specs.Grants.{FitsGrant, grant_answers, grant_change, window_of};
ghost use Rattle.desk_laws.specs.Scene.{replies};
ghost use Rattle.io_ports.specs.Posts.{Leads};
ghost use Rattle.guest_session.specs.RowsView.{with_change};
ghost use Rattle.gui_wire.specs.DaemonMessages.{DaemonKeepsLengths, daemon_body, daemon_spelling};
ghost use Rattle.gui_wire.specs.Seen.{daemon_message};
ghost use Rattle.guest_session.specs.Grants.{Grants, IsTold, window_named};

use crate::edit::Edit;
use crate::rows::Rows;
use desk_laws::GIn;
use gui_wire::{DaemonMsg, WINDOW_FLAG_MINIMIZE, spell_daemon};
use io_ports::Outlet;

// The window that a granted input names, if it names one.
fn window_of(input: &GIn) -> Option<u32>
    ensures { result ≡ window_of input.now }
{
    match *input {
        GIn::Key { window, .. }
        | GIn::Button { window, .. }
        | GIn::Motion { window, .. }
        | GIn::Crossing { window, .. }
        | GIn::Focus { window, .. }
        | GIn::Close { window }
        | GIn::Place { window, .. }
        | GIn::Restored { window }
        | GIn::ClipAsk { window }
        | GIn::ClipGive { window } => Some(window),
        GIn::Keymap => None,
    }
}

// The window that the message of a granted input names, 0 for none.
fn window_named(input: &GIn) -> u32
    ensures { result ≡ window_named input.now }
{
    match window_of(input) {
        Some(window) => window,
        None => 0,
    }
}

// 1 for yes, 0 for no.
fn as_one(b: bool) -> u32
    ensures { result ≡ as_one b }
{
    if b { 1 } else { 0 }
}

// What tells a granted input of its window, with the pasted bytes where it gives the clipboard; nothing
// tells a window that it is shown again.
fn message_of<'a>(input: &GIn, paste: &'a [u8]) -> Option<DaemonMsg<'a>>
    requires { length paste.now ≤ MAX_CLIPBOARD_DATA }
    ensures short { IfSome result (λ msg. length (daemon_body (daemon_message msg)) ≤ max 32 (length paste.now)) }
    ensures told { IsTold (grant_answers input.now paste.now) (window_named input.now) result }
{
    match *input {
        GIn::Key {
            down,
            code,
            state,
            ..
        } => Some(DaemonMsg::Key {
            kind: if down { 2 } else { 3 },
            x: 0,
            y: 0,
            state: u32::from(state),
            keycode: u32::from(code),
        }),
        GIn::Button {
            down,
            x,
            y,
            state,
            button,
            ..
        } => Some(DaemonMsg::Button {
            kind: if down { 4 } else { 5 },
            x,
            y,
            state: u32::from(state),
            button: u32::from(button),
        }),
        GIn::Motion { x, y, state, .. } => Some(DaemonMsg::Motion {
            x,
            y,
            state: u32::from(state),
            is_hint: 0,
        }),
        GIn::Crossing {
            enter,
            x,
            y,
            focus,
            ..
        } => Some(DaemonMsg::Crossing {
            kind: if enter { 7 } else { 8 },
            x,
            y,
            state: 0,
            mode: 0,
            detail: 3,
            focus: as_one(focus),
        }),
        GIn::Focus { gained, .. } => Some(DaemonMsg::Focus {
            kind: if gained { 9 } else { 10 },
            mode: 0,
            detail: 3,
        }),
        GIn::Keymap => Some(DaemonMsg::Keymap { keys: [0; 32] }),
        GIn::Close { .. } => Some(DaemonMsg::Close),
        GIn::Place { rect, .. } => Some(DaemonMsg::Configure {
            x: rect.x,
            y: rect.y,
            width: rect.w,
            height: rect.h,
            override_redirect: 0,
        }),
        GIn::Restored { .. } => None,
        GIn::ClipAsk { .. } => Some(DaemonMsg::ClipAsk),
        GIn::ClipGive { .. } => Some(DaemonMsg::ClipGive { bytes: paste }),
    }
}

// Spells a message for a window into a room, and tells it.
fn tell_message<O: Outlet>(
    guest: u32,
    window: u32,
    msg: &DaemonMsg<'_>,
    room: &mut [u8],
    out: &mut O,
)
    requires lengths { DaemonKeepsLengths (daemon_message msg.now) }
    requires room { 12 + length (daemon_body (daemon_message msg.now)) ≤ length room.old }
    ensures told { Leads O.takes out.old (replies guest (daemon_spelling window (daemon_message msg.now) ∷ [])) out.new }
    ensures room { length room.new ≡ length room.old }
{
    let len = spell_daemon(window, msg, room);
    out.reply(guest, &room[..len]);
}

// Tells a guest what it was granted.
fn tell<O: Outlet>(guest: u32, input: &GIn, paste: &[u8], room: &mut [u8], out: &mut O)
    requires paste { length paste.now ≤ MAX_CLIPBOARD_DATA }
    requires room { 12 + max 32 (length paste.now) ≤ length room.old }
    ensures told { Leads O.takes out.old (replies guest (grant_answers input.now paste.now)) out.new }
    ensures room { length room.new ≡ length room.old }
{
    if let Some(msg) = message_of(input, paste) {
        tell_message(guest, window_named(input), &msg, room, out);
    }
}

// Does to a window with these flags what is granted: it gets another place, or is shown again.
fn change(rows: &mut Rows, window: u32, flags: u32, input: &GIn)
    requires fits { FitsGrant input.now }
    requires flags { (row : Row) → row_with window rows.old.rows ≡ Some row → flags ≡ row.flags }
    ensures { (row : Row) → row_with window rows.old.rows ≡ Some row → rows.new ≡ with_change (grant_change input.now row) rows.old }
{
    match *input {
        GIn::Place { rect: place, .. } => rows.edit(window, &Edit::Fill { flags, place }),
        GIn::Restored { .. } => {
            let left = flags - (flags & WINDOW_FLAG_MINIMIZE);
            rows.edit(window, &Edit::Flags(left));
        }
        _ => {}
    }
}

// Grants an input to the window that it names, and nothing where the window isn't there. The message is
// spelled in the room.
fn grant_to<O: Outlet>(
    rows: &mut Rows,
    window: u32,
    input: &GIn,
    paste: &[u8],
    room: &mut [u8],
    out: &mut O,
)
    requires fits { FitsGrant input.now }
    requires named { window_of input.now ≡ Some window }
    requires paste { length paste.now ≤ MAX_CLIPBOARD_DATA }
    requires room { 12 + max 32 (length paste.now) ≤ length room.old }
    ensures granted { Grants O.takes out.old out.new input.now paste.now rows.old rows.new }
    ensures room { length room.new ≡ length room.old }
{
    let Some(pane) = rows.pane(window) else {
        return;
    };
    let flags = pane.flags;
    change(rows, window, flags, input);
    tell(rows.guest(), input, paste, room, out);
}

// Grants an input to the window that it names, or to the guest as a whole. The message is spelled in the
// room.
pub(crate) fn grant<O: Outlet>(
    rows: &mut Rows,
    input: &GIn,
    paste: &[u8],
    room: &mut [u8],
    out: &mut O,
)
    requires fits { FitsGrant input.now }
    requires paste { length paste.now ≤ MAX_CLIPBOARD_DATA }
    requires room { 12 + max 32 (length paste.now) ≤ length room.old }
    ensures granted { Grants O.takes out.old out.new input.now paste.now rows.old rows.new }
    ensures room { length room.new ≡ length room.old }
{
    match window_of(input) {
        Some(window) => grant_to(rows, window, input, paste, room, out),
        None => tell(rows.guest(), input, paste, room, out),
    }
}
