// Writes the clipboard's revision and the denied pairs behind the outputs.
ghost use Rattle.std.specs.Prelude.{◌≡◌, ◌≤◌, ◌∷◌, length, true, OnOk, OnErr};
ghost use Rattle.std.specs.List.{flat_map, list_all};
ghost use Rattle.io_ports.specs.Content.{Grows, GrowsPart};
ghost use Rattle.io_ports.specs.Counts.{HasCause};
ghost use Rattle.desk_laws.specs.Rules.{is_pair};
ghost use Rattle.record_format.specs.Config.{pair_spelling, clipboard_spelling};

use crate::version::Version;
use desk_laws::Pair;
use io_ports::{Failed, Sink, put_all};

// A pair of two of at most 256 guests.
fn pair_bytes(pair: Pair) -> [u8; 2]
    requires from { pair.from ≤ 255 }
    requires to { pair.to ≤ 255 }
    ensures { result ≡ pair_spelling pair }
{
    [pair.from as u8, pair.to as u8]
}

fn put_each<K: Sink>(pairs: &[Pair], out: &mut K) -> Result<(), Failed>
    requires { list_all (is_pair 256) pairs.now ≡ true }
    ensures ok { OnOk result (Grows (K.written out.old) (flat_map pair_spelling pairs.now) (K.written out.new)) }
    ensures err { OnErr result (GrowsPart (K.written out.old) (flat_map pair_spelling pairs.now) (K.written out.new)) }
    ensures keeps { K.keeps out.old out.new }
    ensures cause { HasCause (K.faults out.old) (K.faults out.new) result }
{
    for pair in pairs {
        match put_all(out, &pair_bytes(*pair)) {
            Ok(()) => {}
            Err(e) => return Err(e),
        }
    }
    Ok(())
}

// The revision, the number of the pairs, and the pairs.
fn put_spelled<K: Sink>(clip: u32, pairs: &[Pair], out: &mut K) -> Result<(), Failed>
    requires clip { clip ≤ 255 }
    requires few { length pairs.now ≤ 255 }
    requires pairs { list_all (is_pair 256) pairs.now ≡ true }
    ensures ok { OnOk result (Grows (K.written out.old) (clip ∷ length pairs.now ∷ flat_map pair_spelling pairs.now) (K.written out.new)) }
    ensures err { OnErr result (GrowsPart (K.written out.old) (clip ∷ length pairs.now ∷ flat_map pair_spelling pairs.now) (K.written out.new)) }
    ensures keeps { K.keeps out.old out.new }
    ensures cause { HasCause (K.faults out.old) (K.faults out.new) result }
{
    match put_all(out, &[clip as u8, pairs.len() as u8]) {
        Ok(()) => put_each(pairs, out),
        Err(e) => Err(e),
    }
}

// The clipboard in a record of this version.
pub(crate) fn put_clipboard<K: Sink>(
    version: Version,
    clip: u32,
    pairs: &[Pair],
    out: &mut K,
) -> Result<(), Failed>
    requires clip { clip ≤ 255 }
    requires few { length pairs.now ≤ 255 }
    requires pairs { list_all (is_pair 256) pairs.now ≡ true }
    ensures ok { OnOk result (Grows (K.written out.old) (clipboard_spelling version clip pairs.now) (K.written out.new)) }
    ensures err { OnErr result (GrowsPart (K.written out.old) (clipboard_spelling version clip pairs.now) (K.written out.new)) }
    ensures keeps { K.keeps out.old out.new }
    ensures cause { HasCause (K.faults out.old) (K.faults out.new) result }
{
    match version {
        Version::First | Version::Second => Ok(()),
        Version::Third => put_spelled(clip, pairs, out),
    }
}
