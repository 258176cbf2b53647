// Bytes in a row that grows at its end and shrinks at its front, in memory that is taken once.
ghost use Rattle.std.specs.Prelude.{◌≡◌, ◌+◌, ◌-◌, ◌≤◌, [], ◌++◌, length, drop, IfOk, vec_len, vec_capacity};
ghost use Rattle.live_feed.specs.declared.outbox.TheConstants.{MAX_WAITING};

use crate::outbox::MAX_WAITING;
use gui_num::NoMemory;
use std::alloc::Global;
use std::marker::Model;

// What is held stands in `bytes` from `start` on. Contracts see it alone.
#[derive(Drop)]
pub(crate) struct Row {
    bytes: Vec<u8>,
    start: usize,
}

impl Model for Row {
    ghost use Rattle.std.specs.Prelude.{◌≤◌, ℕ, List, drop, vec_len, vec_capacity};

    ghost Value = { List ℕ };

    ghost view = { λ r. drop r.start r.bytes.items };

    ghost invariant = { λ r. (r.start ≤ vec_len r.bytes) × (vec_len r.bytes ≤ 1048576) × (1048576 ≤ vec_capacity r.bytes) };
}

impl Row {
    pub(crate) fn new(alloc: Global) -> Result<Row, NoMemory>
        ensures { IfOk result (λ r. r ≡ []) }
    {
        Ok(Row {
            bytes: Vec::with_capacity(alloc, MAX_WAITING)?,
            start: 0,
        })
    }

    pub(crate) fn bytes(&self) -> &[u8]
        ensures { result.now ≡ self.now }
    {
        &self.bytes[self.start..]
    }

    // Takes these bytes behind the others. What is held is moved only where the row has come to the end of
    // its memory, or nothing is held.
    pub(crate) fn append(&mut self, bytes: &[u8])
        requires { length self.old + length bytes.now ≤ MAX_WAITING }
        ensures { self.new ≡ self.old ++ bytes.now }
    {
        let held = self.bytes.len() - self.start;
        if held == 0 || MAX_WAITING - self.bytes.len() < bytes.len() {
            remove_front(&mut self.bytes, self.start);
            self.start = 0;
        }
        extend(&mut self.bytes, bytes);
    }

    // Takes off the first n bytes, or all where there are no more.
    pub(crate) fn drop_front(&mut self, n: usize)
        ensures { self.new ≡ drop n self.old }
    {
        self.start += n.min(self.bytes.len() - self.start);
    }
}

fn remove_front(bytes: &mut Vec<u8>, n: usize)
    requires { n ≤ vec_len bytes.old }
    ensures items { bytes.new.items ≡ drop n bytes.old.items }
    ensures len { vec_len bytes.new ≡ vec_len bytes.old - n }
    ensures capacity { vec_capacity bytes.new ≡ vec_capacity bytes.old }
{
    let len = bytes.len();
    bytes.copy_within(n..len, 0);
    bytes.truncate(len - n);
}

// There is room for the bytes, so no memory is taken.
fn extend(bytes: &mut Vec<u8>, more: &[u8])
    requires { vec_len bytes.old + length more.now ≤ vec_capacity bytes.old }
    ensures items { bytes.new.items ≡ bytes.old.items ++ more.now }
    ensures len { vec_len bytes.new ≡ vec_len bytes.old + length more.now }
    ensures capacity { vec_capacity bytes.old ≤ vec_capacity bytes.new }
{
    let _ = bytes.extend_from_slice(more);
}
