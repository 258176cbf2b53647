// What a check of a message asks of a guest's windows.
ghost use Rattle.std.specs.Prelude.{◌≡◌, List, length, is_some};
ghost use Rattle.desk_laws.specs.Rows.{Row, row_with};
ghost use Rattle.desk_laws.specs.Effects.{refs_besides};

/// The windows of one guest, as far as a check of its messages needs them.
pub trait Ids {
    /// The guest's rows, in any order. Only their windows and their dumps' references count here.
    ghost rows: { Self → List Row };

    /// Whether the guest has this window.
    fn known(&self, window: u32) -> bool
        ensures { result ≡ is_some (row_with window (rows self.now)) };

    /// How many windows the guest has.
    fn count(&self) -> u32
        ensures { result ≡ length (rows self.now) };

    /// How many page references the dumps of its windows have together, this window's left out.
    fn refs_besides(&self, window: u32) -> u32
        ensures { result ≡ refs_besides window (rows self.now) };
}
