// Bytes in memory that are given from the front: what a source in memory is made of.
ghost use Rattle.std.specs.Prelude.{◌≡◌, ℕ, ◌≤◌, List, ◌++◌, length, min, take, drop, Some, IfOk, vec_len};
ghost use Rattle.io_ports.specs.Content.{Taken};

use gui_num::NoMemory;
use std::alloc::Global;
use std::marker::Model;

// Contracts see the bytes that weren't given yet.
#[derive(Drop)]
pub struct HeldBytes {
    bytes: Vec<u8>,
    at: usize,
}

impl Model for HeldBytes {
    ghost Value = { List ℕ };

    ghost view = { λ h. drop h.at h.bytes.items };

    ghost invariant = { λ h. h.at ≤ vec_len h.bytes };
}

impl HeldBytes {
    /// These bytes, of which none was given yet. `NoMemory` where there is none to keep them.
    pub fn new(alloc: Global, bytes: &[u8]) -> Result<Self, NoMemory>
        ensures { IfOk result (λ h. h ≡ bytes.now) }
    {
        Ok(HeldBytes {
            bytes: bytes.to_vec(alloc)?,
            at: 0,
        })
    }

    /// Moves as many bytes as fit into the front of the room, and answers how many.
    pub fn give(&mut self, room: &mut [u8]) -> usize
        ensures count { result ≡ min (length room.old) (length self.old) }
        ensures left { self.new ≡ drop result self.old }
        ensures room { room.new ≡ take result self.old ++ drop result room.old }
    {
        let n = room.len().min(self.bytes.len() - self.at);
        let end = self.at + n;
        room[..n].copy_from_slice(&self.bytes[self.at..end]);
        self.at = end;
        n
    }
}
