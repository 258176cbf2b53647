// The shown windows, from the topmost one down, as the compositor asks for them.
ghost use Rattle.std.specs.Prelude.{◌≡◌, ℕ, ◌<◌, ◌≤◌, ◌+◌, ◌++◌, [], Some, length, map, option_and_then, option_map, slice_index, vec_len, vec_capacity};
ghost use Rattle.std.specs.List.{cons_option};
ghost use Rattle.desk_laws.specs.declared.row_id.RowId.{RowId};
ghost use Rattle.desk_laws.specs.Layers.{id_from_top};
ghost use Rattle.desk_laws.specs.Rows.{row_with};
ghost use Rattle.desk_laws.specs.Ranges.{IsPlace};
ghost use Rattle.guest_session.specs.Reading.{content_in};
ghost use Rattle.compositor.specs.Composed.{colour_or};
ghost use Rattle.desk_core.specs.Panes.{is_shown_window, bordered, content_of, pane_of, shown_of, shown_row, shown_with};

use compositor::{PaneView, Panes};
use desk_laws::RowId;
use guest_session::{Pane, Session};
use gui_num::{Colour, Rect};
use gui_wire::WINDOW_FLAG_MINIMIZE;
use label_border::outer;
use stacking::Stacking;
use std::marker::Model;

// A shown window, and where it is on the desktop.
#[derive(Drop)]
pub(crate) struct Shown {
    id: RowId,
    view: PaneView,
}

impl Model for Shown {
    ghost use Rattle.desk_core.specs.ShownView.{ShownView, CanBePainted};

    ghost Value = { ShownView };

    ghost view = { λ s. record { id = s.id; view = s.view } };

    ghost invariant = { λ s. CanBePainted s.view };
}

// Whether a window is shown: mapped and not hidden.
pub(crate) fn is_shown(pane: &Pane) -> bool
    ensures { result ≡ is_shown_window pane.now }
{
    pane.mapped && pane.flags / WINDOW_FLAG_MINIMIZE % 2 != 1
}

// A window at this place, with a border of so many pixels in its guest's label colour.
fn bordered(id: RowId, place: Rect, border: u32, label: Colour) -> Shown
    requires place { IsPlace place }
    requires border { border ≤ 16 }
    ensures { result ≡ bordered border label id place }
{
    Shown {
        id,
        view: PaneView {
            outer: outer(place, border),
            content: place,
            colour: label,
        },
    }
}

// The window with an id among those of its guest's session, where it is shown.
fn shown_in(session: &Session, id: RowId, border: u32, label: Colour) -> Option<Shown>
    requires { border ≤ 16 }
    ensures { result ≡ shown_row border label id (row_with id.window session.now.rows) }
{
    match session.pane(id.window) {
        Some(pane) => {
            if is_shown(pane) {
                Some(bordered(id, pane.place, border, label))
            } else {
                None
            }
        }
        None => None,
    }
}

// The window with an id, where it is shown, with its border in the label colour of its guest.
fn shown_with(sessions: &[Session], labels: &[Colour], id: RowId, border: u32) -> Option<Shown>
    requires session { id.guest < length sessions.now }
    requires label { id.guest < length labels.now }
    requires border { border ≤ 16 }
    ensures { result ≡ shown_with border labels.now sessions.now id }
{
    let guest = id.guest as usize;
    shown_in(&sessions[guest], id, border, labels[guest])
}

// The window that has `k` others of the stack above it, where it is shown.
fn shown_below(
    sessions: &[Session],
    stack: &Stacking,
    labels: &[Colour],
    border: u32,
    k: usize,
) -> Option<Shown>
    requires border { border ≤ 16 }
    requires sessions { (place : ℕ) (id : RowId) → id_from_top stack.now.layers place ≡ Some id → id.guest < length sessions.now }
    requires labels { (place : ℕ) (id : RowId) → id_from_top stack.now.layers place ≡ Some id → id.guest < length labels.now }
    ensures { result ≡ option_and_then (shown_with border labels.now sessions.now) (id_from_top stack.now.layers k) }
{
    match stack.from_top(k) {
        Some(id) => shown_with(sessions, labels, id, border),
        None => None,
    }
}

// Puts a window behind those of a list, if there is one.
fn put(shown: &mut Vec<Shown>, next: Option<Shown>)
    requires { vec_len shown.old < vec_capacity shown.old }
    ensures items { shown.new.items ≡ shown.old.items ++ cons_option next [] }
    ensures capacity { vec_capacity shown.new ≡ vec_capacity shown.old }
{
    if let Some(window) = next {
        shown.push_reserved(window);
    }
}

// Makes a list that of the shown windows, from the topmost one down. No memory is taken.
pub(crate) fn show_stack(
    shown: &mut Vec<Shown>,
    sessions: &[Session],
    stack: &Stacking,
    labels: &[Colour],
    border: u32,
)
    requires room { stack.now.rows ≤ vec_capacity shown.old }
    requires border { border ≤ 16 }
    requires sessions { (place : ℕ) (id : RowId) → id_from_top stack.now.layers place ≡ Some id → id.guest < length sessions.now }
    requires labels { (place : ℕ) (id : RowId) → id_from_top stack.now.layers place ≡ Some id → id.guest < length labels.now }
    ensures items { shown.new.items ≡ shown_of border labels.now sessions.now stack.now.layers }
    ensures capacity { vec_capacity shown.new ≡ vec_capacity shown.old }
{
    shown.clear();
    for k in 0..stack.len() {
        put(shown, shown_below(sessions, stack, labels, border, k));
    }
}

// What was last read at a pixel of a window, counted from the upper left corner of its place.
fn content_of(sessions: &[Session], id: RowId, x: u32, y: u32) -> Option<Colour>
    ensures { result ≡ option_map (λ c. record { 0 = c }) (content_of sessions.now id x y) }
{
    sessions.get(id.guest as usize)?.content(id.window, x, y)
}

// Writes what a window of a session shows from column `x` on in row `y`, as many columns as `out` has
// room for: what was last read of each, `blank` where nothing was.
fn write_row(session: &Session, window: u32, x: u32, y: u32, blank: Colour, out: &mut [u32])
    requires { x + length out.old ≤ 65536 }
    ensures { (i : ℕ) → i < length out.old → slice_index out.new i ≡ colour_or blank.0 (option_map (λ c. record { 0 = c }) (content_in (row_with window session.now.rows) (x + i) y)) }
{
    session.content_row(window, x, y, blank, out);
}

// Writes what the window with an id shows: `blank` everywhere where its guest has no session.
fn write_row_of(sessions: &[Session], id: RowId, x: u32, y: u32, blank: Colour, out: &mut [u32])
    requires { x + length out.old ≤ 65536 }
    ensures { (i : ℕ) → i < length out.old → slice_index out.new i ≡ colour_or blank.0 (option_map (λ c. record { 0 = c }) (content_of sessions.now id (x + i) y)) }
{
    match sessions.get(id.guest as usize) {
        Some(session) => write_row(session, id.window, x, y, blank, out),
        None => out.fill(blank.0),
    }
}

// The shown windows with the sessions that keep their contents.
#[derive(Clone, Copy)]
pub(crate) struct StackPanes<'a> {
    pub(crate) sessions: &'a [Session],
    pub(crate) shown: &'a [Shown],
}

impl Panes for StackPanes<'_> {
    ghost panes = { λ p. map (pane_of p.sessions.now) p.shown.now };

    fn count(&self) -> usize {
        self.shown.len()
    }

    fn view(&self, k: usize) -> PaneView {
        let shown = &self.shown[k];
        shown.view
    }

    fn content(&self, k: usize, x: u32, y: u32) -> Option<Colour> {
        let shown = &self.shown[k];
        content_of(self.sessions, shown.id, x, y)
    }

    fn content_row(&self, k: usize, x: u32, y: u32, blank: Colour, out: &mut [u32]) {
        let shown = &self.shown[k];
        write_row_of(self.sessions, shown.id, x, y, blank, out);
    }
}
