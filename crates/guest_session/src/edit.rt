// A change of one window, and of nothing else.
ghost use Rattle.std.specs.Prelude.{◌≡◌};
ghost use Rattle.guest_session.specs.Edits.{FitsEdit, pane_edited};

use crate::text::text_of;
use gui_num::Rect;
use gui_wire::WINDOW_FLAG_MINIMIZE;
use window_table::Pane;

// What changes.
#[derive(Clone, Copy)]
pub(crate) enum Edit<'a> {
    // It is mapped, with its corner at a place that was decided, and so was `over`. `transient` is the
    // window that it is transient for, 0 for none.
    Map {
        asked: bool,
        transient: u32,
        x: i32,
        y: i32,
        over: bool,
    },
    // It is unmapped, and no longer minimized.
    Unmap,
    // It has another place, which was decided, and so was `over`.
    Configure {
        place: Rect,
        asked: bool,
        over: bool,
    },
    // It has another title.
    Title(&'a [u8]),
    // It is docked.
    Dock,
    // It has other hints for its size.
    Hints([u32; 9]),
    // It has other flags.
    Flags(u32),
    // It has other flags, and with them another place.
    Fill {
        flags: u32,
        place: Rect,
    },
    // It has another class, and another name of it.
    Class {
        class: &'a [u8],
        name: &'a [u8],
    },
    // It has another cursor.
    Cursor(u32),
}

// Changes what is kept of the window.
pub(crate) fn edit_pane(pane: &mut Pane, edit: &Edit<'_>)
    requires { FitsEdit edit.now }
    ensures { pane.new ≡ pane_edited edit.now pane.old }
{
    match *edit {
        Edit::Map {
            asked,
            transient,
            x,
            y,
            over,
        } => {
            pane.mapped = true;
            pane.asked = asked;
            pane.over = over;
            pane.transient = transient;
            pane.place.x = x;
            pane.place.y = y;
        }
        Edit::Unmap => {
            pane.mapped = false;
            pane.over = false;
            pane.flags -= pane.flags & WINDOW_FLAG_MINIMIZE;
        }
        Edit::Configure { place, asked, over } => {
            pane.place = place;
            pane.asked = asked;
            pane.over = over;
        }
        Edit::Title(text) => pane.title = text_of(text),
        Edit::Dock => pane.docked = true,
        Edit::Hints(hints) => pane.hints = hints,
        Edit::Flags(flags) => pane.flags = flags,
        Edit::Fill { flags, place } => {
            pane.flags = flags;
            pane.place = place;
        }
        Edit::Class { class, name } => {
            pane.class = text_of(class);
            pane.name = text_of(name);
        }
        Edit::Cursor(cursor) => pane.cursor = cursor,
    }
}
