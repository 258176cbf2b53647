// Bytes in a row that grows at its end and shrinks at its front, in memory that is taken once.
ghost use Rattle.std.specs.Prelude.{◌≡◌, ℕ, ◌+◌, ◌-◌, ◌≤◌, List, [], ◌++◌, length, min, take, drop, IfOk, vec_len, vec_capacity};
ghost use Rattle.in_stream.specs.Received.{longest};

use crate::HEADER_LEN;
use gui_num::NoMemory;
use gui_wire::MAX_DUMP_LEN;
use std::alloc::Global;
use std::marker::Model;

// The most bytes that are held: those of the longest message, a dump.
const LONGEST: usize = HEADER_LEN + MAX_DUMP_LEN as usize;

// What is held stands in `bytes` from `start` on. Contracts see it alone.
#[derive(Drop)]
pub(crate) struct Buffer {
    bytes: Vec<u8>,
    start: usize,
}

impl Model for Buffer {
    ghost Value = { List ℕ };

    ghost view = { λ b. drop b.start b.bytes.items };

    ghost invariant = { λ b. (b.start ≤ vec_len b.bytes) × (vec_len b.bytes ≤ longest) × (longest ≤ vec_capacity b.bytes) };
}

impl Buffer {
    pub(crate) fn new(alloc: Global) -> Result<Buffer, NoMemory>
        ensures { IfOk result (λ b. b ≡ []) }
    {
        Ok(Buffer {
            bytes: Vec::with_capacity(alloc, LONGEST)?,
            start: 0,
        })
    }

    pub(crate) fn bytes(&self) -> &[u8]
        ensures is { result.now ≡ self.now }
        ensures short { length result.now ≤ longest }
    {
        &self.bytes[self.start..]
    }

    // Takes as many of these bytes as there is room for, and answers how many. What is held is moved
    // only where the row has come to the end of its memory, or nothing is held.
    pub(crate) fn append(&mut self, bytes: &[u8]) -> usize
        ensures count { result ≡ min (length bytes.now) (longest - length self.old) }
        ensures is { self.new ≡ self.old ++ take result bytes.now }
    {
        let held = self.bytes.len() - self.start;
        let n = bytes.len().min(LONGEST - held);
        if held == 0 || LONGEST - self.bytes.len() < n {
            remove_front(&mut self.bytes, self.start);
            self.start = 0;
        }
        extend(&mut self.bytes, &bytes[..n]);
        n
    }

    pub(crate) fn drop_front(&mut self, n: usize)
        requires { n ≤ length self.old }
        ensures { self.new ≡ drop n self.old }
    {
        self.start += n;
    }

    // Takes `n` bytes out behind the first `at`, which are those that are moved.
    pub(crate) fn cut(&mut self, at: usize, n: usize)
        requires { at + n ≤ length self.old }
        ensures { self.new ≡ take at self.old ++ drop (at + n) self.old }
    {
        let end = self.start + at;
        self.bytes.copy_within(self.start..end, self.start + n);
        self.start += n;
    }
}

fn remove_front(bytes: &mut Vec<u8>, n: usize)
    requires { n ≤ vec_len bytes.old }
    ensures items { bytes.new.items ≡ drop n bytes.old.items }
    ensures len { vec_len bytes.new ≡ vec_len bytes.old - n }
    ensures capacity { vec_capacity bytes.new ≡ vec_capacity bytes.old }
{
    let len = bytes.len();
    bytes.copy_within(n..len, 0);
    bytes.truncate(len - n);
}

// There is room for the bytes, so no memory is taken.
fn extend(bytes: &mut Vec<u8>, more: &[u8])
    requires { vec_len bytes.old + length more.now ≤ vec_capacity bytes.old }
    ensures items { bytes.new.items ≡ bytes.old.items ++ more.now }
    ensures len { vec_len bytes.new ≡ vec_len bytes.old + length more.now }
    ensures capacity { vec_capacity bytes.old ≤ vec_capacity bytes.new }
{
    let _ = bytes.extend_from_slice(more);
}
