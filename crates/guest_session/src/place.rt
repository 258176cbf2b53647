// Where a window is put.
ghost use Rattle.std.specs.Prelude.{◌≡◌, ◌+◌, ◌*◌, ◌<◌, IsTrue};
ghost use Rattle.desk_laws.specs.Rows.{Row};
ghost use Rattle.desk_laws.specs.Override.{effective, taken_besides};
ghost use Rattle.desk_laws.specs.Effects.{flags_after, goes_full, whole_output};
ghost use Rattle.desk_laws.specs.Ranges.{IsPlace};
ghost use Rattle.redirect_limits.specs.Limits.{placed_of};
ghost use Rattle.guest_session.specs.Desk.{FitDesk, FitOutput, sizes_in};
ghost use Rattle.guest_session.specs.RowsView.{RowsView};
ghost use Rattle.guest_session.specs.Placing.{configured_to, standing_of};

use crate::desk::{Desk, output_at};
use crate::rows::{Rows, Standing};
use gui_num::Rect;
use gui_wire::{MAX_WINDOW_HEIGHT, WINDOW_FLAG_FULLSCREEN, WINDOW_FLAGS};
use redirect_limits::{DeskSize, Placed, effective};

// Where a mapped window is put that asked for this place, and whether it is an override-redirect
// window, as is `asked`.
pub(crate) fn placed(rows: &Rows, desk: &Desk, window: u32, place: Rect, asked: bool) -> Placed
    requires fit { FitDesk desk.now }
    requires place { IsPlace place }
    ensures rule { placed_of result ≡ effective (sizes_in desk.now rows.now) asked place (taken_besides desk.now.border window rows.now.rows) }
    ensures place { IsPlace result.rect }
    ensures size { (result.rect.w ≡ place.w) × (result.rect.h ≡ place.h) }
{
    if !asked {
        return Placed {
            rect: place,
            over: false,
        };
    }
    let others = rows.taken_besides(window, desk.border);
    let size = DeskSize {
        output: output_at(desk, place),
        border: desk.border,
        percent: desk.percent,
    };
    effective(asked, place, others, &size)
}

// Where a window of this standing is put that asks for another place: as `placed` says where it is
// mapped, and else there.
pub(crate) fn configured(
    rows: &Rows,
    desk: &Desk,
    window: u32,
    old: Standing,
    place: Rect,
    asked: bool,
) -> Placed
    requires fit { FitDesk desk.now }
    requires place { IsPlace place }
    ensures rule { placed_of result ≡ configured_to (sizes_in desk.now rows.now) rows.now.rows window old asked place }
    ensures place { IsPlace result.rect }
{
    if old.mapped {
        placed(rows, desk, window, place, asked)
    } else {
        Placed {
            rect: place,
            over: old.over,
        }
    }
}

// The flags once some are unset and then some are set.
pub(crate) fn flags_after(flags: u32, set: u32, unset: u32) -> u32
    ensures { result ≡ flags_after flags set unset }
{
    ((flags - (flags & unset)) | set) & WINDOW_FLAGS
}

// Whether these flags put a window of this standing on a whole output: it goes to full screen, it isn't
// an override-redirect window, and the output has room.
pub(crate) fn goes_full(old: Standing, flags: u32, desk: &Desk, output: Rect) -> bool
    requires fit { FitDesk desk.now }
    ensures is { (rows : RowsView) (row : Row) → old ≡ standing_of row → result ≡ goes_full (sizes_in desk.now rows) row flags output }
    ensures wide { IsTrue result → 2 * desk.now.border < output.w }
    ensures high { IsTrue result → 2 * desk.now.border < output.h }
{
    let newly = old.flags / WINDOW_FLAG_FULLSCREEN % 2 != 1
        && flags / WINDOW_FLAG_FULLSCREEN % 2 == 1;
    let wide = 2 * desk.border < output.w;
    let high = 2 * desk.border < output.h;
    (newly && !old.over) && (wide && high)
}

// An output less the border, as high as a window may be.
pub(crate) fn whole_output(desk: &Desk, output: Rect) -> Rect
    requires fit { FitDesk desk.now }
    requires output { FitOutput output }
    requires wide { 2 * desk.now.border < output.w }
    requires high { 2 * desk.now.border < output.h }
    ensures is { (rows : RowsView) → result ≡ whole_output (sizes_in desk.now rows) output }
    ensures place { IsPlace result }
{
    Rect {
        x: output.x + desk.border as i32,
        y: output.y + desk.border as i32,
        w: output.w - 2 * desk.border,
        h: MAX_WINDOW_HEIGHT.min(output.h - 2 * desk.border),
    }
}
