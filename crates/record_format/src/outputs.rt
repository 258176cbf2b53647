// Reads the outputs that stand behind the guests.
ghost use Rattle.std.specs.Prelude.{◌≡◌, ◌≤◌, ◌∷◌, [], length, IfOk, IfErr, IsErrOf};
ghost use Rattle.io_ports.specs.Content.{Told};
ghost use Rattle.io_ports.specs.Counts.{Rose};
ghost use Rattle.record_format.specs.Config.{rect_at, many_of, output_of, counted_outputs, outputs_of, outputs_in};
ghost use Rattle.record_format.specs.Readings.{Reads};

use crate::config::{ConfigRead, fill_part, number_at, signed_at};
use crate::version::Version;
use desk_laws::{MAX_OUTPUTS, Outputs};
use gui_num::Rect;
use io_ports::Source;
use std::alloc::Global;

fn rect_at(fixed: &[u8; 16]) -> Rect
    ensures { result ≡ rect_at fixed.now }
{
    Rect {
        x: signed_at(fixed, 0),
        y: signed_at(fixed, 4),
        w: number_at(fixed, 8),
        h: number_at(fixed, 12),
    }
}

fn read_output<S: Source>(source: &mut S) -> Result<Rect, ConfigRead>
    ensures reads { Told (S.left source.old) (λ bytes. Reads output_of result bytes (S.left source.new)) }
    ensures keeps { S.keeps source.old source.new }
    ensures later { S.faults source.old ≤ S.faults source.new }
    ensures failed { IsErrOf result ConfigRead.Failed → Rose (S.faults source.old) (S.faults source.new) }
{
    let mut fixed = [0u8; 16];
    match fill_part(source, &mut fixed) {
        Ok(()) => Ok(rect_at(&fixed)),
        Err(e) => Err(e),
    }
}

fn read_many<S: Source>(alloc: Global, source: &mut S, count: u8) -> Result<Outputs, ConfigRead>
    ensures reads { Told (S.left source.old) (λ bytes. Reads (many_of output_of count) result bytes (S.left source.new)) }
    ensures keeps { S.keeps source.old source.new }
    ensures later { S.faults source.old ≤ S.faults source.new }
    ensures failed { IsErrOf result ConfigRead.Failed → Rose (S.faults source.old) (S.faults source.new) }
{
    let mut outputs = Outputs::new(alloc);
    for _ in 0..count {
        let output = match read_output(source) {
            Ok(output) => output,
            Err(e) => return Err(e),
        };
        match outputs.push(output) {
            Ok(()) => {}
            Err(_) => return Err(ConfigRead::NoMemory),
        }
    }
    Ok(outputs)
}

// Reads so many outputs, unless there may not be so many.
fn read_counted<S: Source>(alloc: Global, source: &mut S, count: u8) -> Result<Outputs, ConfigRead>
    ensures reads { Told (S.left source.old) (λ bytes. Reads (counted_outputs count) result bytes (S.left source.new)) }
    ensures keeps { S.keeps source.old source.new }
    ensures later { S.faults source.old ≤ S.faults source.new }
    ensures failed { IsErrOf result ConfigRead.Failed → Rose (S.faults source.old) (S.faults source.new) }
{
    if count < 1 || count as u32 > MAX_OUTPUTS {
        return Err(ConfigRead::Rule(17));
    }
    read_many(alloc, source, count)
}

// Reads the number of outputs and the outputs.
fn read_listed<S: Source>(alloc: Global, source: &mut S) -> Result<Outputs, ConfigRead>
    ensures reads { Told (S.left source.old) (λ bytes. Reads outputs_of result bytes (S.left source.new)) }
    ensures keeps { S.keeps source.old source.new }
    ensures later { S.faults source.old ≤ S.faults source.new }
    ensures failed { IsErrOf result ConfigRead.Failed → Rose (S.faults source.old) (S.faults source.new) }
{
    let mut fixed = [0u8; 1];
    match fill_part(source, &mut fixed) {
        Ok(()) => read_counted(alloc, source, fixed[0]),
        Err(e) => Err(e),
    }
}

fn one_output(alloc: Global, plane: Rect) -> Result<Outputs, ConfigRead>
    ensures ok { IfOk result (λ outputs. outputs ≡ plane ∷ []) }
    ensures err { IfErr result (λ e. e ≡ ConfigRead.NoMemory) }
{
    let mut outputs = Outputs::new(alloc);
    match outputs.push(plane) {
        Ok(()) => Ok(outputs),
        Err(_) => Err(ConfigRead::NoMemory),
    }
}

// The outputs of a record of this version, whose plane this is.
pub(crate) fn read_outputs<S: Source>(
    alloc: Global,
    source: &mut S,
    version: Version,
    plane: Rect,
) -> Result<Outputs, ConfigRead>
    ensures reads { Told (S.left source.old) (λ bytes. Reads (outputs_in version plane) result bytes (S.left source.new)) }
    ensures keeps { S.keeps source.old source.new }
    ensures later { S.faults source.old ≤ S.faults source.new }
    ensures failed { IsErrOf result ConfigRead.Failed → Rose (S.faults source.old) (S.faults source.new) }
{
    match version {
        Version::First => one_output(alloc, plane),
        Version::Second => read_listed(alloc, source),
        Version::Third => read_listed(alloc, source),
    }
}
