//! What is checked of a message from an agent before it has its effect: its fields, its guest's
//! windows, and its page references, in this project's own order.
#![tactic(auto)]

mod command;
mod ranges;
mod rows;
#[cfg(test)]
mod tests;

ghost use Rattle.std.specs.Prelude.{◌≡◌, ◌≤◌, Some, None, IfOk, MatchResult};
ghost use Rattle.gui_wire.specs.Seen.{message};
ghost use Rattle.desk_laws.specs.Effects.{refs_besides};
ghost use Rattle.desk_laws.specs.Checks.{first_cause};
ghost use Rattle.desk_laws.specs.declared.limits.TheConstants.{MAX_PAGES};
ghost use Rattle.message_checks.specs.Commands.{IsCommandOf};

pub use command::Command;
use command::command_of;
use desk_laws::{Cause, Ids};
use gui_wire::{AgentMsg, Header};
use ranges::range_fault;
use rows::rows_fault;

/// What a guest may have.
#[derive(Clone, Copy, Debug, PartialEq, Eq)]
pub struct Limits {
    /// How many pages its frames have, and so how many page references its windows may have.
    pub pages: u32,
}

/// Checks a message with its header against its guest's windows, and answers what it asks for.
///
/// The refusal is the first cause in this order. `BadRange`: a CREATE of window 0 (field 0), a
/// width, a height or a place of an area with bit 31 set, a dump's type other than 0, its width out
/// of 1 to 16384, its height out of 1 to 6144, its bits per pixel other than 24 and 32; fields are
/// numbered from 1 as in `qubes-gui-protocol.h`. `BadLength`: a dump whose references are not as
/// many as its pixels of four bytes need pages of 4096. `UnknownWindow`: not for a CREATE and for
/// clipboard data. `WindowExists` and `TooManyWindows` (more than 1024): for a CREATE. `RefRange`:
/// the first reference that is no page. `FrameBudget`: more references than pages.
pub fn check<'a, I: Ids>(
    msg: &AgentMsg<'a>,
    header: Header,
    limits: &Limits,
    ids: &I,
) -> Result<Command<'a>, Cause>
    requires pages { limits.now.pages ≤ MAX_PAGES }
    requires held { refs_besides header.window (I.rows ids.now) ≤ limits.now.pages }
    ensures first { MatchResult result
        (λ _. first_cause limits.now.pages (I.rows ids.now) header (message msg.now) ≡ None)
        (λ cause. first_cause limits.now.pages (I.rows ids.now) header (message msg.now) ≡ Some cause) }
    ensures command { IfOk result (IsCommandOf (message msg.now)) }
{
    if let Some(cause) = range_fault(msg, header) {
        return Err(cause);
    }
    if let Some(cause) = rows_fault(msg, header.window, limits.pages, ids) {
        return Err(cause);
    }
    Ok(command_of(msg))
}
