// Writes the Summary record.
ghost use Rattle.std.specs.Prelude.{◌≡◌, OnOk, OnErr};
ghost use Rattle.io_ports.specs.Content.{Grows, GrowsPart};
ghost use Rattle.io_ports.specs.Counts.{HasCause};
ghost use Rattle.record_format.specs.OutputGrammar.{summary_record};

use desk_core::Summary;
use io_ports::{Failed, Sink, put_all};

// The Summary record.
fn summary_bytes(summary: &Summary) -> [u8; 33]
    ensures { result ≡ summary_record (record { items = summary.now.items; messages = summary.now.messages; glances = summary.now.glances }) summary.now.painted }
{
    let mut record = [0u8; 33];
    record[0] = 4;
    record[1..9].copy_from_slice(&summary.items.to_le_bytes());
    record[9..17].copy_from_slice(&summary.messages.to_le_bytes());
    record[17..25].copy_from_slice(&summary.glances.to_le_bytes());
    record[25..33].copy_from_slice(&summary.painted.to_le_bytes());
    record
}

/// Writes the Summary record.
pub fn put_summary<K: Sink>(out: &mut K, summary: &Summary) -> Result<(), Failed>
    ensures ok { OnOk result (Grows (K.written out.old) (summary_record (record { items = summary.now.items; messages = summary.now.messages; glances = summary.now.glances }) summary.now.painted) (K.written out.new)) }
    ensures err { OnErr result (GrowsPart (K.written out.old) (summary_record (record { items = summary.now.items; messages = summary.now.messages; glances = summary.now.glances }) summary.now.painted) (K.written out.new)) }
    ensures keeps { K.keeps out.old out.new }
    ensures cause { HasCause (K.faults out.old) (K.faults out.new) result }
{
    put_all(out, &summary_bytes(summary))
}
