// Writes the outputs behind the guests.
ghost use Rattle.std.specs.Prelude.{◌≡◌, ◌≤◌, ◌∷◌, length, OnOk, OnErr};
ghost use Rattle.std.specs.List.{flat_map};
ghost use Rattle.io_ports.specs.Content.{Grows, GrowsPart};
ghost use Rattle.io_ports.specs.Counts.{HasCause};
ghost use Rattle.record_format.specs.Config.{output_spelling, outputs_spelling};

use crate::version::Version;
use gui_num::Rect;
use io_ports::{Failed, Sink, put_all};

#[tactic(auto, unfolding(crate::specs::Config::output_spelling))]
fn output_bytes(output: Rect) -> [u8; 16]
    ensures { result ≡ output_spelling output }
{
    let x = output.x.to_le_bytes();
    let y = output.y.to_le_bytes();
    let w = output.w.to_le_bytes();
    let h = output.h.to_le_bytes();
    let mut bytes = [0u8; 16];
    bytes[..4].copy_from_slice(&x);
    bytes[4..8].copy_from_slice(&y);
    bytes[8..12].copy_from_slice(&w);
    bytes[12..].copy_from_slice(&h);
    bytes
}

fn put_each<K: Sink>(outputs: &[Rect], out: &mut K) -> Result<(), Failed>
    ensures ok { OnOk result (Grows (K.written out.old) (flat_map output_spelling outputs.now) (K.written out.new)) }
    ensures err { OnErr result (GrowsPart (K.written out.old) (flat_map output_spelling outputs.now) (K.written out.new)) }
    ensures keeps { K.keeps out.old out.new }
    ensures cause { HasCause (K.faults out.old) (K.faults out.new) result }
{
    for output in outputs {
        match put_all(out, &output_bytes(*output)) {
            Ok(()) => {}
            Err(e) => return Err(e),
        }
    }
    Ok(())
}

// The number of the outputs, and the outputs.
fn put_listed<K: Sink>(outputs: &[Rect], out: &mut K) -> Result<(), Failed>
    requires { length outputs.now ≤ 255 }
    ensures ok { OnOk result (Grows (K.written out.old) (length outputs.now ∷ flat_map output_spelling outputs.now) (K.written out.new)) }
    ensures err { OnErr result (GrowsPart (K.written out.old) (length outputs.now ∷ flat_map output_spelling outputs.now) (K.written out.new)) }
    ensures keeps { K.keeps out.old out.new }
    ensures cause { HasCause (K.faults out.old) (K.faults out.new) result }
{
    match put_all(out, &[outputs.len() as u8]) {
        Ok(()) => put_each(outputs, out),
        Err(e) => Err(e),
    }
}

// The outputs in a record of this version.
pub(crate) fn put_outputs<K: Sink>(
    version: Version,
    outputs: &[Rect],
    out: &mut K,
) -> Result<(), Failed>
    requires { length outputs.now ≤ 255 }
    ensures ok { OnOk result (Grows (K.written out.old) (outputs_spelling version outputs.now) (K.written out.new)) }
    ensures err { OnErr result (GrowsPart (K.written out.old) (outputs_spelling version outputs.now) (K.written out.new)) }
    ensures keeps { K.keeps out.old out.new }
    ensures cause { HasCause (K.faults out.old) (K.faults out.new) result }
{
    match version {
        Version::First => Ok(()),
        Version::Second | Version::Third => put_listed(outputs, out),
    }
}
