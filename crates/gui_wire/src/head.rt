// The header of a message from an agent.
ghost use Rattle.std.specs.Prelude.{◌≡◌, ◌≤◌, length};
ghost use Rattle.gui_wire.specs.AgentMessages.{rule_of};
ghost use Rattle.gui_wire.specs.Headers.{header_at, head_result};

use crate::words::word_at;
use crate::{Header, LengthRule, MAX_DUMP_LEN, WireFault};

/// The header that the first 12 bytes spell: type, window and length of the body, in this order.
pub fn header_of(bytes: &[u8]) -> Header
    requires { 12 ≤ length bytes.now }
    ensures { result ≡ header_at bytes.now }
{
    Header {
        kind: word_at(bytes, 0),
        window: word_at(bytes, 1),
        len: word_at(bytes, 2),
    }
}

/// Which lengths the body of a message of this type may have. The types are those of
/// `qubes-gui-protocol.h` that this project takes; the exact lengths are this project's own.
pub fn length_rule(kind: u32) -> LengthRule
    ensures { result ≡ rule_of kind }
{
    match kind {
        130 => LengthRule::Exactly(24),
        131 => LengthRule::Exactly(0),
        132 => LengthRule::Exactly(8),
        133 => LengthRule::Exactly(0),
        134 => LengthRule::Exactly(20),
        136 => LengthRule::Exactly(16),
        140 => LengthRule::Clip,
        141 => LengthRule::Exactly(128),
        143 => LengthRule::Exactly(0),
        144 => LengthRule::Exactly(36),
        145 => LengthRule::Exactly(8),
        146 => LengthRule::Exactly(128),
        147 => LengthRule::Dump,
        148 => LengthRule::Exactly(4),
        _ => LengthRule::Unknown,
    }
}

/// Whether a header may stand before a body. The error is `Kind` with a type that isn't known, or
/// `Length` with a length that a known type can't have.
pub fn head_check(header: Header) -> Result<(), WireFault>
    ensures { result ≡ head_result header }
{
    let fits = match length_rule(header.kind) {
        LengthRule::Unknown => return Err(WireFault::Kind(header.kind)),
        LengthRule::Exactly(len) => header.len == len,
        LengthRule::Clip => true,
        LengthRule::Dump => 16 <= header.len && header.len <= MAX_DUMP_LEN && header.len % 4 == 0,
    };
    if fits {
        Ok(())
    } else {
        Err(WireFault::Length(header.len))
    }
}
