// Making a record from a number.
ghost use Rattle.std.specs.Prelude.{◌≡◌, ◌≤◌};
ghost use Rattle.io_ports.specs.Counts.{Rose};
ghost use Rattle.guid_main.specs.Making.{Makes};

use crate::status::Status;
use io_ports::Sink;
use record_format::{MadeFault, put_made};
use std::alloc::Global;

// Writes the record of so many rounds.
pub(crate) fn make<K: Sink>(alloc: Global, rounds: u32, out: &mut K) -> Status
    ensures makes { Makes rounds result (K.written out.old) (K.written out.new) }
    ensures write_later { K.faults out.old ≤ K.faults out.new }
    ensures write { result ≡ Status.WriteFault → Rose (K.faults out.old) (K.faults out.new) }
    ensures read { result ≡ Status.ReadFault → ⊥ }
    ensures words { result ≡ Status.Usage → ⊥ }
{
    match put_made(alloc, rounds, out) {
        Ok(()) => Status::Done,
        Err(MadeFault::Failed) => Status::WriteFault,
        Err(MadeFault::NoMemory) => Status::NoMemory,
    }
}
