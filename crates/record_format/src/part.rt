// Reads a part of a record whole.
ghost use Rattle.std.specs.Prelude.{◌≡◌, ◌≤◌, IsErrOf};
ghost use Rattle.io_ports.specs.Content.{Told};
ghost use Rattle.io_ports.specs.Counts.{Rose};
ghost use Rattle.record_format.specs.Parts.{Fills};

use io_ports::{Source, fill};

/// Why a part of a record wasn't read whole.
#[derive(Clone, Copy, Debug, PartialEq, Eq)]
pub enum PartRead {
    /// A read failed.
    Failed,
    /// The bytes ended first.
    Short,
}

/// Fills the room with the next bytes, and takes no byte behind them.
pub fn fill_whole<S: Source>(source: &mut S, room: &mut [u8]) -> Result<(), PartRead>
    ensures fills { Told (S.left source.old) (λ bytes. Fills result room.new bytes (S.left source.new)) }
    ensures keeps { S.keeps source.old source.new }
    ensures later { S.faults source.old ≤ S.faults source.new }
    ensures failed { IsErrOf result PartRead.Failed → Rose (S.faults source.old) (S.faults source.new) }
{
    let n = match fill(source, room) {
        Ok(n) => n,
        Err(_) => return Err(PartRead::Failed),
    };
    if n < room.len() {
        return Err(PartRead::Short);
    }
    Ok(())
}
