// The messages from an agent, written.
ghost use Rattle.std.specs.Prelude.{◌≡◌, ◌≤◌, ◌+◌, ◌++◌, length, drop, min};
ghost use Rattle.gui_wire.specs.AgentMessages.{body_of, spelling, KeepsLengths};
ghost use Rattle.gui_wire.specs.Seen.{message};

use crate::AgentMsg;
use crate::words::{HEAD_LEN, hint_numbers, spell_numbers, spell_parts, spell_words};

/// How many bytes the message's spelling has, the 12 of its header included; 2^64 - 1 where there
/// would be more.
pub fn agent_len(msg: &AgentMsg<'_>) -> usize
    ensures whole { result ≡ min (12 + length (body_of (message msg.now))) usize.MAX }
    ensures len { KeepsLengths (message msg.now) →
        result ≡ 12 + length (body_of (message msg.now)) }
{
    match *msg {
        AgentMsg::Create { .. } => HEAD_LEN + 24,
        AgentMsg::Destroy | AgentMsg::Unmap | AgentMsg::Dock => HEAD_LEN,
        AgentMsg::Map { .. } | AgentMsg::Flags { .. } => HEAD_LEN + 8,
        AgentMsg::Configure { .. } => HEAD_LEN + 20,
        AgentMsg::Shmimage { .. } => HEAD_LEN + 16,
        AgentMsg::Clip { bytes } => bytes.len().saturating_add(HEAD_LEN),
        AgentMsg::Name { text } => text.len().saturating_add(HEAD_LEN),
        AgentMsg::Hints { hints } => HEAD_LEN + 4 * hint_numbers(&hints).len(),
        AgentMsg::Class { class, name } => {
            let texts = class.len().saturating_add(name.len());
            texts.saturating_add(HEAD_LEN)
        }
        AgentMsg::Dump { refs, .. } => HEAD_LEN + 16 + refs.bytes().len(),
        AgentMsg::Cursor { .. } => HEAD_LEN + 4,
    }
}

/// Writes the message's spelling for a window: type, window and length of the body as numbers of four
/// bytes, the lowest first, and then the body. It answers how many bytes that are, and the rest of
/// `out` stays. A text has 128 bytes, class and name have 64 each, and there are at most
/// `MAX_DUMP_REFS` references.
pub fn spell_agent(window: u32, msg: &AgentMsg<'_>, out: &mut [u8]) -> usize
    requires lengths { KeepsLengths (message msg.now) }
    requires room { 12 + length (body_of (message msg.now)) ≤ length out.old }
    ensures out { out.new ≡ spelling window (message msg.now)
        ++ drop (12 + length (body_of (message msg.now))) out.old }
    ensures len { result ≡ 12 + length (body_of (message msg.now)) }
{
    match *msg {
        AgentMsg::Create {
            x,
            y,
            width,
            height,
            parent,
            override_redirect,
        } => {
            let numbers = [x, y, width, height, parent, override_redirect];
            spell_numbers(130, window, &numbers, out)
        }
        AgentMsg::Destroy => spell_numbers(131, window, &[], out),
        AgentMsg::Map {
            transient_for,
            override_redirect,
        } => spell_numbers(132, window, &[transient_for, override_redirect], out),
        AgentMsg::Unmap => spell_numbers(133, window, &[], out),
        AgentMsg::Configure {
            x,
            y,
            width,
            height,
            override_redirect,
        } => {
            let numbers = [x, y, width, height, override_redirect];
            spell_numbers(134, window, &numbers, out)
        }
        AgentMsg::Shmimage {
            x,
            y,
            width,
            height,
        } => spell_numbers(136, window, &[x, y, width, height], out),
        AgentMsg::Clip { bytes } => spell_parts(140, window, bytes, &[], out),
        AgentMsg::Name { text } => spell_parts(141, window, text, &[], out),
        AgentMsg::Dock => spell_numbers(143, window, &[], out),
        AgentMsg::Hints { hints } => spell_numbers(144, window, hint_numbers(&hints), out),
        AgentMsg::Flags {
            flags_set,
            flags_unset,
        } => spell_numbers(145, window, &[flags_set, flags_unset], out),
        AgentMsg::Class { class, name } => spell_parts(146, window, class, name, out),
        AgentMsg::Dump {
            kind,
            width,
            height,
            bpp,
            refs,
        } => {
            let mut front = [0; 16];
            spell_words(&[kind, width, height, bpp], &mut front);
            spell_parts(147, window, &front, refs.bytes(), out)
        }
        AgentMsg::Cursor { cursor } => spell_numbers(148, window, &[cursor], out),
    }
}
