// What a checked message does.
ghost use Rattle.std.specs.Prelude.{◌≡◌, ℕ, ◌<◌, [], ◌∷◌, None, length};
ghost use Rattle.desk_laws.specs.Stream.{Whole, head_fault};
ghost use Rattle.desk_laws.specs.Effects.{configured_row, flags_after, mapped_row, tells_move, verdict};
ghost use Rattle.desk_laws.specs.Outputs.{output_of};
ghost use Rattle.desk_laws.specs.Ranges.{IsPlace};
ghost use Rattle.frame_pool.specs.Ports.{ChangesFrames};
ghost use Rattle.guest_session.specs.Desk.{FitDesk, sizes_in};
ghost use Rattle.guest_session.specs.Placing.{flagged_row, tells_full, tells_row};
ghost use Rattle.guest_session.specs.Obeyed.{AnsweredFor, Carries, CanObey, Changes, Obeyed};

use crate::desk::{Desk, output_at};
use crate::edit::Edit;
use crate::place::{configured, flags_after, goes_full, placed, whole_output};
use crate::replies::{acknowledge, tell_move, tell_place};
use crate::rows::Rows;
use desk_laws::Cause;
use frame_pool::FramePort;
use gui_num::Rect;
use gui_wire::{Header, body_of};
use io_ports::Outlet;
use message_checks::Command;

// Maps a window by the override rule, and tells its place where that changed.
fn map<O: Outlet>(
    rows: &mut Rows,
    desk: &Desk,
    window: u32,
    asked: bool,
    transient: u32,
    out: &mut O,
)
    requires fit { FitDesk desk.now }
    ensures { AnsweredFor O.takes out.old out.new rows.old rows.new window
        (mapped_row (sizes_in desk.now rows.old) rows.old.rows asked transient)
        (λ row. tells_move row (mapped_row (sizes_in desk.now rows.old) rows.old.rows asked transient row)) }
{
    let Some(old) = rows.standing(window) else {
        return;
    };
    let put = placed(rows, desk, window, old.place, asked);
    let edit = Edit::Map {
        asked,
        transient,
        x: put.rect.x,
        y: put.rect.y,
        over: put.over,
    };
    rows.edit(window, &edit);
    tell_move(rows.guest(), window, old.place, put.rect, out);
}

// Gives a window the place that it asks for, by the override rule where it is mapped, and tells it.
fn configure<O: Outlet>(
    rows: &mut Rows,
    desk: &Desk,
    window: u32,
    place: Rect,
    asked: bool,
    out: &mut O,
)
    requires fit { FitDesk desk.now }
    requires place { IsPlace place }
    ensures { AnsweredFor O.takes out.old out.new rows.old rows.new window
        (configured_row (sizes_in desk.now rows.old) rows.old.rows asked place)
        (λ row. tells_row (configured_row (sizes_in desk.now rows.old) rows.old.rows asked place row) ∷ []) }
{
    let Some(old) = rows.standing(window) else {
        return;
    };
    let put = configured(rows, desk, window, old, place, asked);
    let edit = Edit::Configure {
        place: put.rect,
        asked,
        over: put.over,
    };
    rows.edit(window, &edit);
    tell_place(rows.guest(), window, put.rect, put.over, out);
}

// Gives a window these flags. Where they put it on the whole of its output, its place is told.
fn flag<O: Outlet>(rows: &mut Rows, desk: &Desk, window: u32, set: u32, unset: u32, out: &mut O)
    requires fit { FitDesk desk.now }
    ensures { AnsweredFor O.takes out.old out.new rows.old rows.new window
        (λ row. flagged_row (sizes_in desk.now rows.old) (output_of desk.now.outputs row.place) (flags_after row.flags set unset) row)
        (λ row. tells_full (sizes_in desk.now rows.old) (output_of desk.now.outputs row.place) (flags_after row.flags set unset) row) }
{
    let Some(old) = rows.standing(window) else {
        return;
    };
    let flags = flags_after(old.flags, set, unset);
    let output = output_at(desk, old.place);
    if goes_full(old, flags, desk, output) {
        let place = whole_output(desk, output);
        rows.edit(window, &Edit::Fill { flags, place });
        tell_place(rows.guest(), window, place, false, out);
    } else {
        rows.edit(window, &Edit::Flags(flags));
    }
}

// Changes the windows as a checked message for one of them asks for, and answers the guest. Nothing is
// read.
fn change<O: Outlet>(
    rows: &mut Rows,
    desk: &Desk,
    minor: u32,
    window: u32,
    command: &Command<'_>,
    out: &mut O,
)
    requires fit { FitDesk desk.now }
    requires can { CanObey rows.old window command.now }
    ensures { Changes O.takes out.old out.new rows.old rows.new (sizes_in desk.now rows.old) minor window command.now }
{
    match *command {
        Command::Create {
            rect,
            parent,
            override_redirect,
        } => {
            let parent = rows.known(parent);
            rows.create(window, rect, parent, override_redirect != 0);
        }
        Command::Destroy => rows.destroy(window),
        Command::Map {
            transient_for,
            override_redirect,
        } => {
            let transient = rows.known(transient_for);
            map(rows, desk, window, override_redirect != 0, transient, out);
        }
        Command::Unmap => rows.edit(window, &Edit::Unmap),
        Command::Configure {
            rect,
            override_redirect,
        } => configure(rows, desk, window, rect, override_redirect != 0, out),
        Command::Name { text } => rows.edit(window, &Edit::Title(text)),
        Command::Dock => rows.edit(window, &Edit::Dock),
        Command::Hints { hints } => rows.edit(window, &Edit::Hints(hints)),
        Command::Flags {
            flags_set,
            flags_unset,
        } => flag(rows, desk, window, flags_set, flags_unset, out),
        Command::Class { class, name } => rows.edit(window, &Edit::Class { class, name }),
        Command::Dump {
            width,
            height,
            refs,
            ..
        } => {
            rows.set_dump(window, width, height, &refs);
            acknowledge(rows.guest(), window, minor, out);
        }
        Command::Cursor { cursor } => rows.edit(window, &Edit::Cursor(cursor)),
        Command::Clip { .. } | Command::Shmimage { .. } => {}
    }
}

// Does what a checked message for a window asks for, and answers the guest. Answers the rectangle of
// the window that was read, if one was, or why none is read.
fn obey<P: FramePort, O: Outlet>(
    rows: &mut Rows,
    desk: &Desk,
    minor: u32,
    window: u32,
    command: &Command<'_>,
    port: &mut P,
    out: &mut O,
) -> Result<Option<Rect>, Cause>
    requires fit { FitDesk desk.now }
    requires guest { rows.old.guest < P.guests port.old }
    requires pages { P.pages port.old ≡ rows.old.pages }
    requires can { CanObey rows.old window command.now }
    ensures obeyed { Obeyed O.takes out.old out.new (P.state port.old rows.old.guest) (P.state port.new rows.old.guest) rows.old rows.new result (sizes_in desk.now rows.old) minor window command.now }
    ensures port { ChangesFrames P.guests P.pages P.state rows.old.guest port.old port.new }
{
    if let Command::Shmimage {
        x,
        y,
        width,
        height,
    } = *command
    {
        return rows.read(window, x, y, width, height, port);
    }
    change(rows, desk, minor, window, command, out);
    Ok(None)
}

// Takes a message whose header has no fault: checks it whole, and only then does what it asks for and
// answers. A message that is refused changes nothing, and nothing is read for it. Answers the
// rectangle of the window that was read, if one was.
pub(crate) fn take<P: FramePort, O: Outlet>(
    rows: &mut Rows,
    desk: &Desk,
    minor: u32,
    header: Header,
    body: &[u8],
    port: &mut P,
    out: &mut O,
) -> Result<Option<Rect>, Cause>
    requires fit { FitDesk desk.now }
    requires len { length body.now ≡ header.len }
    requires taken { head_fault header ≡ None }
    requires guest { rows.old.guest < P.guests port.old }
    requires pages { P.pages port.old ≡ rows.old.pages }
    ensures carries { Carries O.takes out.old out.new (P.state port.old rows.old.guest) (P.state port.new rows.old.guest) rows.old rows.new result
        (verdict (sizes_in desk.now rows.old) rows.old.guest minor rows.old.rows (Whole header body.now)) }
    ensures port { ChangesFrames P.guests P.pages P.state rows.old.guest port.old port.new }
{
    let msg = match body_of(body, header) {
        Ok(msg) => msg,
        Err(_) => {
            return Err(Cause::BadType {
                a: header.kind,
                b: 0,
            });
        }
    };
    match rows.check(&msg, header) {
        Ok(command) => obey(rows, desk, minor, header.window, &command, port, out),
        Err(cause) => Err(cause),
    }
}
