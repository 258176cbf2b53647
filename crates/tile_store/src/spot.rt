// Where a tile lies.
ghost use Rattle.std.specs.Prelude.{◌≡◌};
ghost use Rattle.tile_store.specs.Spots.{before, same};

// A slot, and a tile's column and row among the tiles of the slot.
#[derive(Clone, Copy)]
pub struct Spot {
    pub slot: u32,
    pub column: u32,
    pub row: u32,
}

// Whether a spot comes before another: by slot, then by row, then by column.
pub(crate) fn is_before(a: Spot, b: Spot) -> bool
    ensures { result ≡ before a b }
{
    a.slot < b.slot || a.slot == b.slot && (a.row < b.row || a.row == b.row && a.column < b.column)
}

// Whether two spots are the same.
pub(crate) fn is_same(a: Spot, b: Spot) -> bool
    ensures { result ≡ same a b }
{
    a.slot == b.slot && a.row == b.row && a.column == b.column
}
