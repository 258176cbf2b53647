// What a message asks of its guest's windows.
ghost use Rattle.std.specs.Prelude.{◌≡◌, ◌≤◌, ◌+◌, [], ◌∷◌, length};
ghost use Rattle.gui_wire.specs.Seen.{message, references};
ghost use Rattle.desk_laws.specs.Rows.{row_with};
ghost use Rattle.desk_laws.specs.Effects as effects;
ghost use Rattle.desk_laws.specs.Effects.{first_of_causes, refs_besides};
ghost use Rattle.desk_laws.specs.Checks as checks;
ghost use Rattle.desk_laws.specs.declared.limits.TheConstants.{MAX_PAGES};

use desk_laws::{Cause, Ids, MAX_WINDOWS};
use gui_wire::{AgentMsg, Refs};

/// The first thing that is wrong with the message among its guest's windows.
pub fn rows_fault<I: Ids>(msg: &AgentMsg<'_>, window: u32, pages: u32, ids: &I) -> Option<Cause>
    requires pages { pages ≤ MAX_PAGES }
    requires held { refs_besides window (I.rows ids.now) ≤ pages }
    ensures { result ≡ checks.rows_fault pages (I.rows ids.now) window (message msg.now) }
{
    match msg {
        AgentMsg::Create { .. } => create_fault(window, ids),
        AgentMsg::Clip { .. } => None,
        AgentMsg::Dump { refs, .. } => dump_fault(window, refs, pages, ids),
        _ => unknown(window, ids),
    }
}

fn unknown<I: Ids>(window: u32, ids: &I) -> Option<Cause>
    ensures { result ≡ effects.unknown (row_with window (I.rows ids.now)) window }
{
    if ids.known(window) {
        None
    } else {
        Some(Cause::UnknownWindow { a: window, b: 0 })
    }
}

fn create_fault<I: Ids>(window: u32, ids: &I) -> Option<Cause>
    ensures { result ≡ first_of_causes (effects.exists_already (row_with window (I.rows ids.now)) window
        ∷ effects.too_many (I.rows ids.now) window ∷ []) }
{
    if ids.known(window) {
        return Some(Cause::WindowExists { a: window, b: 0 });
    }
    if ids.count() < MAX_WINDOWS {
        return None;
    }
    Some(Cause::TooManyWindows {
        a: window,
        b: MAX_WINDOWS,
    })
}

// The first reference that is no page.
fn bad_ref(pages: u32, refs: &Refs<'_>) -> Option<Cause>
    ensures { result ≡ effects.bad_ref pages (references refs.now) }
{
    for i in 0..refs.count() {
        let page = refs.at(i);
        if page >= pages {
            return Some(Cause::RefRange { a: page, b: pages });
        }
    }
    None
}

// More references than pages.
fn over_budget(need: u32, pages: u32) -> Option<Cause>
    ensures { result ≡ effects.over_budget need pages }
{
    if pages < need {
        Some(Cause::FrameBudget { a: need, b: pages })
    } else {
        None
    }
}

fn dump_fault<I: Ids>(window: u32, refs: &Refs<'_>, pages: u32, ids: &I) -> Option<Cause>
    requires pages { pages ≤ MAX_PAGES }
    requires held { refs_besides window (I.rows ids.now) ≤ pages }
    ensures { result ≡ first_of_causes (effects.unknown (row_with window (I.rows ids.now)) window
        ∷ effects.bad_ref pages (references refs.now)
        ∷ effects.over_budget (refs_besides window (I.rows ids.now) + length (references refs.now)) pages ∷ []) }
{
    if let Some(cause) = unknown(window, ids) {
        return Some(cause);
    }
    if let Some(cause) = bad_ref(pages, refs) {
        return Some(cause);
    }
    over_budget(ids.refs_besides(window) + refs.count(), pages)
}
