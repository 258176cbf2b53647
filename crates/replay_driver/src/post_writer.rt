// Writes what guests are told as records.
ghost use Rattle.std.specs.Prelude.{◌≡◌, ◌∷◌, OnOk, OnErr};
ghost use Rattle.gui_wire.specs.Words.{word};
ghost use Rattle.io_ports.specs.Content.{Grows, GrowsPart};
ghost use Rattle.io_ports.specs.Counts.{HasCause};
ghost use Rattle.record_format.specs.OutputGrammar.{guest_byte, reply_record, ended_record, post_bytes};
ghost use Rattle.output_laws.specs.RunRecords.{HasCauseWidths};
ghost use Rattle.replay_driver.specs.Writes.{WritesOn};

use desk_laws::Cause;
use io_ports::{Failed, Outlet, Sink, put_all};

// How a Reply record begins that has a message of this length.
fn reply_head(guest: u32, len: usize) -> [u8; 6]
    ensures { result ≡ 1 ∷ guest_byte guest ∷ word len }
{
    let mut head = [0u8; 6];
    head[0] = 1;
    head[1] = (guest % 256) as u8;
    head[2..6].copy_from_slice(&len.to_le_bytes()[..4]);
    head
}

// Writes a Reply record.
fn put_reply<K: Sink>(out: &mut K, guest: u32, bytes: &[u8]) -> Result<(), Failed>
    ensures ok { OnOk result (Grows (K.written out.old) (reply_record guest bytes.now) (K.written out.new)) }
    ensures err { OnErr result (GrowsPart (K.written out.old) (reply_record guest bytes.now) (K.written out.new)) }
    ensures keeps { K.keeps out.old out.new }
    ensures cause { HasCause (K.faults out.old) (K.faults out.new) result }
{
    match put_all(out, &reply_head(guest, bytes.len())) {
        Ok(()) => put_all(out, bytes),
        Err(e) => Err(e),
    }
}

// An Ended record.
fn ended_bytes(guest: u32, number: u8, a: u32, b: u32) -> [u8; 11]
    ensures { result ≡ ended_record guest number a b }
{
    let mut record = [0u8; 11];
    record[0] = 2;
    record[1] = (guest % 256) as u8;
    record[2] = number;
    record[3..7].copy_from_slice(&a.to_le_bytes());
    record[7..11].copy_from_slice(&b.to_le_bytes());
    record
}

// Writes an Ended record.
fn put_ended<K: Sink>(out: &mut K, guest: u32, number: u8, a: u32, b: u32) -> Result<(), Failed>
    ensures ok { OnOk result (Grows (K.written out.old) (ended_record guest number a b) (K.written out.new)) }
    ensures err { OnErr result (GrowsPart (K.written out.old) (ended_record guest number a b) (K.written out.new)) }
    ensures keeps { K.keeps out.old out.new }
    ensures cause { HasCause (K.faults out.old) (K.faults out.new) result }
{
    put_all(out, &ended_bytes(guest, number, a, b))
}

/// An outlet that writes each post as a record, up to the first write that fails. The values of each cause that
/// it takes have 32 bits.
#[derive(Drop)]
pub struct PostWriter<'a, K> {
    /// Where the records go to.
    pub out: &'a mut K,
    /// Whether a write failed.
    pub failed: bool,
}

impl<K: Sink> Outlet for PostWriter<'_, K> {
    ghost takes = { λ a post b. HasCauseWidths post × WritesOn a.failed b.failed (post_bytes 0 post) (K.written a.out.now) (K.written b.out.now) (K.faults a.out.now) (K.faults b.out.now) ((b.out.ghost_name ≡ a.out.ghost_name) × K.keeps a.out.now b.out.now) };

    fn reply(&mut self, guest: u32, bytes: &[u8]) {
        if !self.failed {
            self.failed = put_reply(self.out, guest, bytes).is_err();
        }
    }

    fn ended(&mut self, guest: u32, cause: Cause) {
        let (a, b) = cause.values();
        if !self.failed {
            self.failed = put_ended(self.out, guest, cause.number(), a, b).is_err();
        }
    }
}
