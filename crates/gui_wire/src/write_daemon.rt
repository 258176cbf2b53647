// The messages to an agent, written.
ghost use Rattle.std.specs.Prelude.{◌≡◌, ◌≤◌, ◌+◌, ◌++◌, length, drop, min};
ghost use Rattle.gui_wire.specs.DaemonMessages.{daemon_body, daemon_spelling, DaemonKeepsLengths};
ghost use Rattle.gui_wire.specs.Seen.{daemon_message};

use crate::DaemonMsg;
use crate::words::{HEAD_LEN, key_bytes, spell_numbers, spell_parts};

/// How many bytes the message's spelling has, the 12 of its header included; 2^64 - 1 where there
/// would be more.
pub fn daemon_len(msg: &DaemonMsg<'_>) -> usize
    ensures whole { result ≡ min (12 + length (daemon_body (daemon_message msg.now))) usize.MAX }
    ensures len { DaemonKeepsLengths (daemon_message msg.now) →
        result ≡ 12 + length (daemon_body (daemon_message msg.now)) }
{
    match *msg {
        DaemonMsg::Key { .. } | DaemonMsg::Button { .. } => HEAD_LEN + 20,
        DaemonMsg::Motion { .. } => HEAD_LEN + 16,
        DaemonMsg::Crossing { .. } => HEAD_LEN + 28,
        DaemonMsg::Focus { .. } => HEAD_LEN + 12,
        DaemonMsg::Keymap { keys } => HEAD_LEN + key_bytes(&keys).len(),
        DaemonMsg::Close | DaemonMsg::ClipAsk | DaemonMsg::DumpAck => HEAD_LEN,
        DaemonMsg::ClipGive { bytes } => bytes.len().saturating_add(HEAD_LEN),
        DaemonMsg::Configure { .. } => HEAD_LEN + 20,
    }
}

/// Writes the message's spelling for a window: type, window and length of the body as numbers of four
/// bytes, the lowest first, and then the body, whose signed numbers stand as two's complement. It
/// answers how many bytes that are, and the rest of `out` stays. Clipboard data has at most 256,000
/// bytes.
pub fn spell_daemon(window: u32, msg: &DaemonMsg<'_>, out: &mut [u8]) -> usize
    requires lengths { DaemonKeepsLengths (daemon_message msg.now) }
    requires room { 12 + length (daemon_body (daemon_message msg.now)) ≤ length out.old }
    ensures out { out.new ≡ daemon_spelling window (daemon_message msg.now)
        ++ drop (12 + length (daemon_body (daemon_message msg.now))) out.old }
    ensures len { result ≡ 12 + length (daemon_body (daemon_message msg.now)) }
{
    match *msg {
        DaemonMsg::Key {
            kind,
            x,
            y,
            state,
            keycode,
        } => {
            let numbers = [kind, x.cast_unsigned(), y.cast_unsigned(), state, keycode];
            spell_numbers(124, window, &numbers, out)
        }
        DaemonMsg::Button {
            kind,
            x,
            y,
            state,
            button,
        } => {
            let numbers = [kind, x.cast_unsigned(), y.cast_unsigned(), state, button];
            spell_numbers(125, window, &numbers, out)
        }
        DaemonMsg::Motion {
            x,
            y,
            state,
            is_hint,
        } => {
            let numbers = [x.cast_unsigned(), y.cast_unsigned(), state, is_hint];
            spell_numbers(126, window, &numbers, out)
        }
        DaemonMsg::Crossing {
            kind,
            x,
            y,
            state,
            mode,
            detail,
            focus,
        } => {
            let (x, y) = (x.cast_unsigned(), y.cast_unsigned());
            spell_numbers(127, window, &[kind, x, y, state, mode, detail, focus], out)
        }
        DaemonMsg::Focus { kind, mode, detail } => {
            spell_numbers(128, window, &[kind, mode, detail], out)
        }
        DaemonMsg::Keymap { keys } => spell_parts(142, window, key_bytes(&keys), &[], out),
        DaemonMsg::Close => spell_numbers(137, window, &[], out),
        DaemonMsg::ClipAsk => spell_numbers(139, window, &[], out),
        DaemonMsg::ClipGive { bytes } => spell_parts(140, window, bytes, &[], out),
        DaemonMsg::Configure {
            x,
            y,
            width,
            height,
            override_redirect,
        } => {
            let (x, y) = (x.cast_unsigned(), y.cast_unsigned());
            spell_numbers(134, window, &[x, y, width, height, override_redirect], out)
        }
        DaemonMsg::DumpAck => spell_numbers(149, window, &[], out),
    }
}
