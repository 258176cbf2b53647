// The messages from an agent, read out of their bodies.
ghost use Rattle.std.specs.Prelude.{◌≡◌, ◌<◌, ◌≤◌, ◌%◌, ◌++◌, ℕ, length, option_map, IsTrue, IfOk, IsOkAnd, MatchResult};
ghost use Rattle.gui_wire.specs.declared.limits.TheConstants.{MAX_DUMP_LEN};
ghost use Rattle.gui_wire.specs.AgentMessages.{AgentMessage, reading, rule_of, fits_rule, spelling, HasSpelling};
ghost use Rattle.gui_wire.specs.Headers.{header_bytes, head_result};
ghost use Rattle.gui_wire.specs.Seen.{message};

use crate::head::head_check;
use crate::words::word_at;
use crate::{AgentMsg, Header, Refs, WireFault};
use byteorder::{ByteOrder, LittleEndian};

fn create_of(body: &[u8]) -> AgentMsg<'_>
    requires { length body.now ≡ 24 }
    ensures { Some (message result) ≡ reading 130 body.now }
{
    AgentMsg::Create {
        x: word_at(body, 0),
        y: word_at(body, 1),
        width: word_at(body, 2),
        height: word_at(body, 3),
        parent: word_at(body, 4),
        override_redirect: word_at(body, 5),
    }
}

fn configure_of(body: &[u8]) -> AgentMsg<'_>
    requires { length body.now ≡ 20 }
    ensures { Some (message result) ≡ reading 134 body.now }
{
    AgentMsg::Configure {
        x: word_at(body, 0),
        y: word_at(body, 1),
        width: word_at(body, 2),
        height: word_at(body, 3),
        override_redirect: word_at(body, 4),
    }
}

fn shmimage_of(body: &[u8]) -> AgentMsg<'_>
    requires { length body.now ≡ 16 }
    ensures { Some (message result) ≡ reading 136 body.now }
{
    AgentMsg::Shmimage {
        x: word_at(body, 0),
        y: word_at(body, 1),
        width: word_at(body, 2),
        height: word_at(body, 3),
    }
}

fn hints_of(body: &[u8]) -> AgentMsg<'_>
    requires { length body.now ≡ 36 }
    ensures { Some (message result) ≡ reading 144 body.now }
{
    let mut hints = [0; 9];
    LittleEndian::read_u32_into(body, &mut hints);
    AgentMsg::Hints { hints }
}

fn class_of(body: &[u8]) -> AgentMsg<'_>
    requires { length body.now ≡ 128 }
    ensures { Some (message result) ≡ reading 146 body.now }
{
    let (class, name) = body.split_at(64);
    AgentMsg::Class { class, name }
}

fn dump_of(body: &[u8]) -> AgentMsg<'_>
    requires low { 16 ≤ length body.now }
    requires high { length body.now ≤ MAX_DUMP_LEN }
    requires whole { length body.now % 4 ≡ 0 }
    ensures { Some (message result) ≡ reading 147 body.now }
{
    AgentMsg::Dump {
        kind: word_at(body, 0),
        width: word_at(body, 1),
        height: word_at(body, 2),
        bpp: word_at(body, 3),
        refs: Refs::new(&body[16..]),
    }
}

// The message of a type whose body has a length that fits it, `None` where the type is unknown.
fn message_of(body: &[u8], kind: u32) -> Option<AgentMsg<'_>>
    requires { IsTrue (fits_rule (rule_of kind) (length body.now)) }
    ensures { option_map message result ≡ reading kind body.now }
{
    Some(match kind {
        130 => create_of(body),
        131 => AgentMsg::Destroy,
        132 => AgentMsg::Map {
            transient_for: word_at(body, 0),
            override_redirect: word_at(body, 1),
        },
        133 => AgentMsg::Unmap,
        134 => configure_of(body),
        136 => shmimage_of(body),
        140 => AgentMsg::Clip { bytes: body },
        141 => AgentMsg::Name { text: body },
        143 => AgentMsg::Dock,
        144 => hints_of(body),
        145 => AgentMsg::Flags {
            flags_set: word_at(body, 0),
            flags_unset: word_at(body, 1),
        },
        146 => class_of(body),
        147 => dump_of(body),
        148 => AgentMsg::Cursor {
            cursor: word_at(body, 0),
        },
        _ => return None,
    })
}

/// The message that a header and its body spell, with texts, bytes and references borrowed from
/// the body. The header is refused as `head_check` refuses it: `Kind` for a type that isn't known,
/// `Length` for a length that a known type can't have.
pub fn body_of(body: &[u8], header: Header) -> Result<AgentMsg<'_>, WireFault>
    requires { length body.now ≡ header.len }
    ensures checked { MatchResult result
        (λ _. head_result header ≡ Ok tt) (λ e. head_result header ≡ Err e) }
    ensures reads { IfOk result (λ m. reading header.kind body.now ≡ Some (message m)) }
    ensures spelled { IfOk result
        (λ m. spelling header.window (message m) ≡ header_bytes header ++ body.now) }
    ensures lengths { IfOk result (λ m. HasSpelling (message m)) }
    // each message with a spelling is read out of it
    ensures known { (m : AgentMessage) → HasSpelling m →
        spelling header.window m ≡ header_bytes header ++ body.now →
        IsOkAnd result (λ n. message n ≡ m) }
{
    head_check(header)?;
    message_of(body, header.kind).ok_or(WireFault::Kind(header.kind))
}
