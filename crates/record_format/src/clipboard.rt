// Reads the clipboard's revision and the denied pairs, which stand behind the outputs.
ghost use Rattle.std.specs.Prelude.{◌≡◌, ◌≤◌, length, IsErrOf};
ghost use Rattle.io_ports.specs.Content.{Told};
ghost use Rattle.io_ports.specs.Counts.{Rose};
ghost use Rattle.record_format.specs.Config.{many_of, pair_of, clipboard_of, plain_clipboard, clipboard_in};
ghost use Rattle.record_format.specs.Readings.{Reads};

use crate::config::{ConfigRead, fill_part};
use crate::version::Version;
use desk_laws::{Pair, Pairs};
use io_ports::Source;
use std::alloc::Global;

/// The clipboard's revision, and the pairs of guests between which no paste goes.
#[derive(Drop)]
pub(crate) struct Clipboard {
    pub clip: u32,
    pub denied: Pairs,
}

fn read_pair<S: Source>(source: &mut S) -> Result<Pair, ConfigRead>
    ensures reads { Told (S.left source.old) (λ bytes. Reads pair_of result bytes (S.left source.new)) }
    ensures keeps { S.keeps source.old source.new }
    ensures later { S.faults source.old ≤ S.faults source.new }
    ensures failed { IsErrOf result ConfigRead.Failed → Rose (S.faults source.old) (S.faults source.new) }
{
    let mut fixed = [0u8; 2];
    match fill_part(source, &mut fixed) {
        Ok(()) => Ok(Pair {
            from: fixed[0] as u32,
            to: fixed[1] as u32,
        }),
        Err(e) => Err(e),
    }
}

fn read_pairs<S: Source>(alloc: Global, source: &mut S, count: u8) -> Result<Pairs, ConfigRead>
    ensures reads { Told (S.left source.old) (λ bytes. Reads (many_of pair_of count) result bytes (S.left source.new)) }
    ensures keeps { S.keeps source.old source.new }
    ensures later { S.faults source.old ≤ S.faults source.new }
    ensures failed { IsErrOf result ConfigRead.Failed → Rose (S.faults source.old) (S.faults source.new) }
{
    let mut pairs = Pairs::new(alloc);
    for _ in 0..count {
        let pair = match read_pair(source) {
            Ok(pair) => pair,
            Err(e) => return Err(e),
        };
        match pairs.push(pair) {
            Ok(()) => {}
            Err(_) => return Err(ConfigRead::NoMemory),
        }
    }
    Ok(pairs)
}

// Reads the revision, the number of pairs and the pairs.
fn read_spelled<S: Source>(alloc: Global, source: &mut S) -> Result<Clipboard, ConfigRead>
    ensures reads { Told (S.left source.old) (λ bytes. Reads clipboard_of result bytes (S.left source.new)) }
    ensures keeps { S.keeps source.old source.new }
    ensures later { S.faults source.old ≤ S.faults source.new }
    ensures failed { IsErrOf result ConfigRead.Failed → Rose (S.faults source.old) (S.faults source.new) }
{
    let mut fixed = [0u8; 2];
    match fill_part(source, &mut fixed) {
        Ok(()) => {}
        Err(e) => return Err(e),
    }
    let clip = fixed[0] as u32;
    match read_pairs(alloc, source, fixed[1]) {
        Ok(denied) => Ok(Clipboard { clip, denied }),
        Err(e) => Err(e),
    }
}

fn plain_clipboard(alloc: Global) -> Clipboard
    ensures { result ≡ plain_clipboard }
{
    Clipboard {
        clip: 1,
        denied: Pairs::new(alloc),
    }
}

// The clipboard of a record of this version.
pub(crate) fn read_clipboard<S: Source>(
    alloc: Global,
    source: &mut S,
    version: Version,
) -> Result<Clipboard, ConfigRead>
    ensures reads { Told (S.left source.old) (λ bytes. Reads (clipboard_in version) result bytes (S.left source.new)) }
    ensures keeps { S.keeps source.old source.new }
    ensures later { S.faults source.old ≤ S.faults source.new }
    ensures failed { IsErrOf result ConfigRead.Failed → Rose (S.faults source.old) (S.faults source.new) }
{
    match version {
        Version::First | Version::Second => Ok(plain_clipboard(alloc)),
        Version::Third => read_spelled(alloc, source),
    }
}
