// Where the windows of all sessions are, as the router asks for them.
ghost use Rattle.std.specs.Prelude.{◌≡◌, ◌≤◌, None, IfSome, MatchOption};
ghost use Rattle.desk_laws.specs.Ranges.{IsPlace};
ghost use Rattle.guest_session.specs.Panes.{ShowsRow};
ghost use Rattle.desk_core.specs.Panes.{rows_in};
ghost use Rattle.desk_core.specs.Places.{row_of, spots_of};

use crate::panes::is_shown;
use desk_laws::RowId;
use guest_session::{Pane, Session};
use gui_num::Rect;
use input_router::Places;
use label_border::outer;

// The windows of these sessions, with borders of so many pixels.
#[derive(Clone, Copy)]
pub(crate) struct SessionPlaces<'a> {
    pub(crate) sessions: &'a [Session],
    pub(crate) border: u32,
    ghost narrow: { border ≤ 16 },
}

// The window with an id. `None` where there is no such guest or no such window.
pub(crate) fn pane_of(sessions: &[Session], id: RowId) -> Option<&Pane>
    ensures is { MatchOption result (row_of sessions.now id ≡ None) (λ pane. ShowsRow id.window (rows_in sessions.now id.guest) pane.now) }
    ensures place { IfSome result (λ pane. IsPlace pane.now.place) }
{
    sessions.get(id.guest as usize)?.pane(id.window)
}

impl Places for SessionPlaces<'_> {
    ghost spots = { λ p. spots_of p.border p.sessions.now };

    fn place(&self, id: RowId) -> Option<Rect> {
        match pane_of(self.sessions, id) {
            Some(pane) => Some(pane.place),
            None => None,
        }
    }

    fn outer(&self, id: RowId) -> Option<Rect> {
        match pane_of(self.sessions, id) {
            Some(pane) => Some(outer(pane.place, self.border)),
            None => None,
        }
    }

    fn shown(&self, id: RowId) -> bool {
        match pane_of(self.sessions, id) {
            Some(pane) => is_shown(pane),
            None => false,
        }
    }

    fn over(&self, id: RowId) -> bool {
        match pane_of(self.sessions, id) {
            Some(pane) => pane.over,
            None => false,
        }
    }
}
