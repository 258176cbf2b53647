// The bytes that were posted to a guest and that its socket hasn't taken yet.
ghost use Rattle.std.specs.Prelude.{◌≡◌, ◌+◌, ◌≤◌, ◌++◌, [], length, drop, nat_le, IfOk};
ghost use Rattle.std.specs.Bool.{OnTrue, OnFalse};
ghost use Rattle.circular_buffer.specs.Buffer.{buffer};
ghost use Rattle.live_feed.specs.declared.outbox.TheConstants.{MAX_WAITING};

use crate::row::Row;
use circular_buffer::HeapCircularBuffer;
use gui_num::NoMemory;
use std::alloc::Global;
use std::marker::Model;

/// The most bytes that wait for one guest.
pub const MAX_WAITING: usize = 1 << 20;

/// The bytes that were posted and not yet taken off, seen as the list of them in their order. There are
/// at most `MAX_WAITING`, and all memory is taken when an outbox is made.
#[derive(Drop)]
pub struct Outbox {
    // Those that were shown, in one row.
    row: Row,
    // Those behind them.
    ring: HeapCircularBuffer<u8>,
}

impl Model for Outbox {
    ghost use Rattle.std.specs.Prelude.{◌≡◌, ◌+◌, ◌≤◌, ◌++◌, List, ℕ, length};

    ghost Value = { List ℕ };

    ghost view = { λ o. o.row ++ o.ring.items };

    ghost invariant = { λ o. (o.ring.capacity ≡ 1048576) × (length o.row + length o.ring.items ≤ 1048576) };
}

impl Outbox {
    ghost use Rattle.std.specs.Borrow.{sem};
    ghost use Rattle.std.specs.Io.BufRead.{Rests};
    ghost use Rattle.live_feed.specs.contracts.outbox.Outbox.{the_row};

    /// An outbox in which nothing waits. `NoMemory` where there is no memory for its bytes.
    pub fn new(alloc: Global) -> Result<Outbox, NoMemory>
        ensures { IfOk result (λ o. o ≡ []) }
    {
        let row = Row::new(alloc)?;
        let ring = HeapCircularBuffer::with_capacity(alloc, MAX_WAITING)?;
        Ok(Outbox { row, ring })
    }

    /// Posts these bytes behind those that wait, all of them or none: false, with nothing changed, exactly
    /// where more than `MAX_WAITING` bytes would wait.
    pub fn post(&mut self, bytes: &[u8]) -> bool
        ensures fits { result ≡ nat_le (length self.old + length bytes.now) MAX_WAITING }
        ensures posted { OnTrue result (self.new ≡ self.old ++ bytes.now) }
        ensures same { OnFalse result (self.new ≡ self.old) }
    {
        let room = MAX_WAITING - (self.row.bytes().len() + self.ring.len());
        if bytes.len() > room {
            return false;
        }
        self.ring.fill_from_slice(bytes);
        true
    }

    /// All bytes that wait, the first posted first. They wait on. Those that were posted since the last call
    /// are moved behind the others, once.
    pub fn front(&mut self) -> &[u8]
        ensures* same { sem 𝓛 (Rests the_row self.entry (λ now. now ≡ self.old)) }
        ensures all { result.now ≡ self.old }
    {
        line_up(&mut self.row, &mut self.ring);
        self.row.bytes()
    }

    /// Takes off the first n bytes of those that wait.
    pub fn drop_front(&mut self, n: usize)
        requires { n ≤ length self.old }
        ensures { self.new ≡ drop n self.old }
    {
        let behind = n.saturating_sub(self.row.bytes().len());
        let kept = self.ring.len() - behind;
        self.row.drop_front(n);
        self.ring.truncate_front(kept);
    }
}

// Brings what is in the ring behind the row.
fn line_up(row: &mut Row, ring: &mut HeapCircularBuffer<u8>)
    requires { length row.old + length ring.old.items ≤ MAX_WAITING }
    ensures row { row.new ≡ row.old ++ ring.old.items }
    ensures ring { ring.new ≡ buffer [] ring.old.capacity }
{
    let (first, rest) = ring.as_slices();
    row.append(first);
    row.append(rest);
    ring.clear();
}
