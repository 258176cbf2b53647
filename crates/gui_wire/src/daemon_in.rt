// The messages to an agent, read.
ghost use Rattle.std.specs.Prelude.{◌≡◌, ◌≤◌, ◌<◌, ◌^◌, ◌++◌, ℕ, List, length, Some, option_map, IsTrue};
ghost use Rattle.gui_wire.specs.Beginnings.{Whole, beginning, IsInFront};
ghost use Rattle.gui_wire.specs.DaemonMessages.{DaemonMessage, daemon_length, fits_length, daemon_reading, daemon_spelling, HasDaemonSpelling};
ghost use Rattle.gui_wire.specs.Seen.{daemon_message, read_as};

use crate::head::header_of;
use crate::words::{HEAD_LEN, signed_at, word_at};
use crate::{DaemonMsg, MAX_CLIPBOARD_DATA, ReadDaemon};

/// What the bytes begin with: a message to an agent, with clipboard bytes borrowed from them; a whole
/// message of another type, to be skipped; a message that isn't whole yet, or whose header isn't; or
/// a header with a length that its type can't have, which is found as soon as the header is whole.
pub fn read_daemon(bytes: &[u8]) -> ReadDaemon<'_>
    ensures reads { read_as result ≡ beginning bytes.now }
    ensures spelled { IsInFront (read_as result) bytes.now }
    // each spelling is read, whatever follows it
    ensures known { (window : ℕ) (m : DaemonMessage) (rest : List ℕ) → window < 2 ^ 32 →
        HasDaemonSpelling m → bytes.now ≡ daemon_spelling window m ++ rest →
        read_as result ≡ Whole window m (length (daemon_spelling window m)) }
{
    if bytes.len() < HEAD_LEN {
        return ReadDaemon::Need {
            more: HEAD_LEN - bytes.len(),
        };
    }
    let header = header_of(bytes);
    let len = header.len as usize;
    let behind = &bytes[HEAD_LEN..];
    if !fits_daemon(header.kind, header.len) {
        return ReadDaemon::Bad { len: header.len };
    }
    if behind.len() < len {
        return ReadDaemon::Need {
            more: len - behind.len(),
        };
    }
    let used = HEAD_LEN + len;
    match daemon_message_of(&behind[..len], header.kind) {
        Some(msg) => ReadDaemon::Whole {
            window: header.window,
            msg,
            used,
        },
        None => ReadDaemon::Skip { used },
    }
}

// Whether the body of a message of this type may have this length; any, where it is no message to
// an agent.
fn fits_daemon(kind: u32, len: u32) -> bool
    ensures { result ≡ fits_length (daemon_length kind) len }
{
    match kind {
        124 | 125 | 134 => len == 20,
        126 => len == 16,
        127 => len == 28,
        128 => len == 12,
        137 | 139 | 149 => len == 0,
        140 => len <= MAX_CLIPBOARD_DATA,
        142 => len == 32,
        _ => true,
    }
}

// The message of a type whose body has a length that fits it, `None` where it is no message to an
// agent.
fn daemon_message_of(body: &[u8], kind: u32) -> Option<DaemonMsg<'_>>
    requires { IsTrue (fits_length (daemon_length kind) (length body.now)) }
    ensures { option_map daemon_message result ≡ daemon_reading kind body.now }
{
    Some(match kind {
        124 => key_of(body),
        125 => button_of(body),
        126 => motion_of(body),
        127 => crossing_of(body),
        128 => DaemonMsg::Focus {
            kind: word_at(body, 0),
            mode: word_at(body, 1),
            detail: word_at(body, 2),
        },
        134 => configure_of(body),
        137 => DaemonMsg::Close,
        139 => DaemonMsg::ClipAsk,
        140 => DaemonMsg::ClipGive { bytes: body },
        142 => keymap_of(body),
        149 => DaemonMsg::DumpAck,
        _ => return None,
    })
}

fn key_of(body: &[u8]) -> DaemonMsg<'_>
    requires { length body.now ≡ 20 }
    ensures { Some (daemon_message result) ≡ daemon_reading 124 body.now }
{
    DaemonMsg::Key {
        kind: word_at(body, 0),
        x: signed_at(body, 1),
        y: signed_at(body, 2),
        state: word_at(body, 3),
        keycode: word_at(body, 4),
    }
}

fn button_of(body: &[u8]) -> DaemonMsg<'_>
    requires { length body.now ≡ 20 }
    ensures { Some (daemon_message result) ≡ daemon_reading 125 body.now }
{
    DaemonMsg::Button {
        kind: word_at(body, 0),
        x: signed_at(body, 1),
        y: signed_at(body, 2),
        state: word_at(body, 3),
        button: word_at(body, 4),
    }
}

fn motion_of(body: &[u8]) -> DaemonMsg<'_>
    requires { length body.now ≡ 16 }
    ensures { Some (daemon_message result) ≡ daemon_reading 126 body.now }
{
    DaemonMsg::Motion {
        x: signed_at(body, 0),
        y: signed_at(body, 1),
        state: word_at(body, 2),
        is_hint: word_at(body, 3),
    }
}

fn crossing_of(body: &[u8]) -> DaemonMsg<'_>
    requires { length body.now ≡ 28 }
    ensures { Some (daemon_message result) ≡ daemon_reading 127 body.now }
{
    DaemonMsg::Crossing {
        kind: word_at(body, 0),
        x: signed_at(body, 1),
        y: signed_at(body, 2),
        state: word_at(body, 3),
        mode: word_at(body, 4),
        detail: word_at(body, 5),
        focus: word_at(body, 6),
    }
}

fn keymap_of(body: &[u8]) -> DaemonMsg<'_>
    requires { length body.now ≡ 32 }
    ensures { Some (daemon_message result) ≡ daemon_reading 142 body.now }
{
    let mut keys = [0; 32];
    keys.copy_from_slice(body);
    DaemonMsg::Keymap { keys }
}

fn configure_of(body: &[u8]) -> DaemonMsg<'_>
    requires { length body.now ≡ 20 }
    ensures { Some (daemon_message result) ≡ daemon_reading 134 body.now }
{
    DaemonMsg::Configure {
        x: signed_at(body, 0),
        y: signed_at(body, 1),
        width: word_at(body, 2),
        height: word_at(body, 3),
        override_redirect: word_at(body, 4),
    }
}
