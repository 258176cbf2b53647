// What a desktop shows of its rows.
ghost use Rattle.std.specs.Prelude.{◌≡◌, Option, IfSome, option_map};
ghost use Rattle.gui_num.specs.Rects.{IsFit};
ghost use Rattle.desk_laws.specs.declared.row_id.RowId.{RowId};
ghost use Rattle.desk_laws.specs.Ranges.{IsPlace};
ghost use Rattle.input_router.specs.Spots.{Spot, is_shown_at, is_over_at};

use desk_laws::RowId;
use gui_num::Rect;

/// Where the rows of a desktop are, in pixels from the desktop's upper left corner, and which of them
/// can be seen. Contracts see of it what it tells of each row.
pub trait Places {
    /// What is told of a row, `None` where there is no such row.
    ghost spots: { Self → RowId → Option Spot };

    /// The place of a row's content: x and y from -32768 to 32767, at least one pixel and at most
    /// 16384 by 6144. `None` exactly where there is no such row.
    fn place(&self, id: RowId) -> Option<Rect>
        ensures is { result ≡ option_map (λ spot. spot.place) (spots self.now id) }
        ensures range { IfSome result IsPlace };

    /// The place of a row with its border, which is fit. `None` exactly where there is no such row.
    fn outer(&self, id: RowId) -> Option<Rect>
        ensures is { result ≡ option_map (λ spot. spot.outer) (spots self.now id) }
        ensures fit { IfSome result IsFit };

    /// Whether a row is mapped and not hidden; `false` where there is no such row.
    fn shown(&self, id: RowId) -> bool
        ensures { result ≡ is_shown_at (spots self.now id) };

    /// Whether a row is in the override layer; `false` where there is no such row.
    fn over(&self, id: RowId) -> bool
        ensures { result ≡ is_over_at (spots self.now id) };
}
