// The receive buffer of one guest.
ghost use Rattle.std.specs.Prelude.{◌≡◌, ℕ, ◌+◌, ◌-◌, ◌<◌, ◌≤◌, ◌^◌, None, Bool, true, false, List, [], ◌++◌, length, min, take, drop, IfOk};
ghost use Rattle.gui_wire.specs.Headers.{header_at};
ghost use Rattle.desk_laws.specs.Stream.{Wait, front_by, head_fault};
ghost use Rattle.in_stream.specs.Received.{StandsFor};
ghost use Rattle.in_stream.specs.Shown.{is_passed_over, shown, word_shown};
ghost use Rattle.in_stream.specs.Seen.{seen};
ghost use Rattle.in_stream.specs.Taking.{room, to_skip, kept, HasUnit, DropsUnit};

use crate::buffer::Buffer;
use crate::{Front, HEADER_LEN};
use desk_laws::MAX_SKIPPED_CLIPBOARD;
use gui_num::NoMemory;
use gui_wire::{Header, head_check, header_of};
use std::alloc::Global;
use std::marker::Model;

// The bytes of the version word.
const WORD_LEN: usize = 4;

// The type of clipboard data.
const CLIPBOARD_DATA: u32 = 140;

/// The bytes of one guest that were taken and not yet dropped. It stands for a rest of the guest's
/// bytes: what it holds, and in the place of a clipboard body that isn't kept any bytes, as many as
/// were passed over.
#[derive(Drop)]
pub struct InStream {
    buffer: Buffer,
    // The most bytes of a clipboard body that is kept.
    limit: u32,
    greeted: bool,
    // How many bytes of the body at the front were passed over: the header is held, they aren't.
    skipped: usize,
}

impl Model for InStream {
    ghost use Rattle.in_stream.specs.Received.{Received};
    ghost use Rattle.in_stream.specs.Invariant.{IsSound};

    ghost Value = { Received };

    ghost view = { λ s. record { limit = s.limit; greeted = s.greeted; held = s.buffer; skipped = s.skipped } };

    ghost invariant = { λ s. IsSound (record { limit = s.limit; greeted = s.greeted; held = s.buffer; skipped = s.skipped }) };
}

impl InStream {
    /// A buffer that holds nothing, before the version word. A clipboard body of more than `limit` and at
    /// most 256,000 bytes is passed over, and not kept. Whatever the limit, it takes memory for the longest
    /// message, a dump: `NoMemory` where there is none for it. No other call takes any.
    pub fn new(alloc: Global, limit: u32) -> Result<InStream, NoMemory>
        ensures limit { IfOk result (λ s. s.limit ≡ limit) }
        ensures fresh { IfOk result (λ s. s.greeted ≡ false) }
        ensures stands { IfOk result (λ s. StandsFor s []) }
    {
        Ok(InStream {
            buffer: Buffer::new(alloc)?,
            limit,
            greeted: false,
            skipped: 0,
        })
    }

    /// Takes bytes from the front of `piece`, and answers how many: as many as are still to be passed
    /// over and then fit. At least one byte of a piece that isn't empty is taken where no whole unit
    /// is there: where `front` answers Need or Skipping, and before the version word was dropped where
    /// `word` answers None.
    pub fn push(&mut self, piece: &[u8]) -> usize
        ensures within { result ≤ length piece.now }
        ensures stands { (rest : List ℕ) → StandsFor self.old rest → StandsFor self.new (rest ++ take result piece.now) }
        ensures count { (rest : List ℕ) → StandsFor self.old rest → result ≡ min (length piece.now) (room self.old.limit self.old.greeted rest) }
        ensures some { (rest : List ℕ) → StandsFor self.old rest → front_by head_fault self.old.greeted rest ≡ Wait → 0 < length piece.now → 0 < result }
        ensures limit { self.new.limit ≡ self.old.limit }
        ensures greeted { self.new.greeted ≡ self.old.greeted }
    {
        let skipped = self.skip(piece.len());
        skipped + self.buffer.append(&piece[skipped..])
    }

    /// Whether the version word was dropped.
    pub fn greeted(&self) -> bool
        ensures { result ≡ self.now.greeted }
    {
        self.greeted
    }

    /// The version word at the front, `None` exactly where fewer than four bytes are held.
    pub fn word(&self) -> Option<u32>
        ensures { (rest : List ℕ) → StandsFor self.now rest → result ≡ word_shown rest }
    {
        let held = self.buffer.bytes();
        if held.len() < WORD_LEN {
            return None;
        }
        Some(u32::from_le_bytes([held[0], held[1], held[2], held[3]]))
    }

    /// Drops the version word. It is there, and wasn't dropped before.
    pub fn drop_word(&mut self)
        requires first { self.old.greeted ≡ false }
        requires unit { HasUnit self.old }
        ensures drops { DropsUnit self.old self.new }
        ensures limit { self.new.limit ≡ self.old.limit }
        ensures greeted { self.new.greeted ≡ true }
    {
        self.buffer.drop_front(WORD_LEN);
        self.greeted = true;
    }

    /// What the bytes after the version word begin with. `Bad` and `ClipLong` come as soon as the
    /// header is there; the lengths are those of the header's table, in bytes. That clipboard data longer
    /// than the limit is passed over, and of more than 256,000 bytes refused, is this project's own.
    pub fn front(&self) -> Front<'_>
        requires { self.now.greeted ≡ true }
        ensures { (rest : List ℕ) → StandsFor self.now rest → seen result ≡ shown self.now.limit rest }
    {
        let held = self.buffer.bytes();
        if held.len() < HEADER_LEN {
            return Front::Need {
                more: HEADER_LEN - held.len(),
            };
        }
        let header = header_of(held);
        if let Err(fault) = head_check(header) {
            return Front::Bad { header, fault };
        }
        if header.kind == CLIPBOARD_DATA && header.len > MAX_SKIPPED_CLIPBOARD {
            return Front::ClipLong { header };
        }
        message_at(self.limit, header, &held[HEADER_LEN..], self.skipped)
    }

    /// Drops the message at the front. `front` is Whole or Skipped.
    pub fn drop_front(&mut self)
        requires greeted { self.old.greeted ≡ true }
        requires unit { HasUnit self.old }
        ensures drops { DropsUnit self.old self.new }
        ensures limit { self.new.limit ≡ self.old.limit }
        ensures greeted { self.new.greeted ≡ true }
    {
        let header = header_of(self.buffer.bytes());
        let body = header.len as usize - self.skipped;
        self.buffer.drop_front(HEADER_LEN + body);
        self.skipped = 0;
    }

    // Passes over the body at the front, where it isn't kept: what is held of it, and then up to `len`
    // bytes that follow. Answers how many of those.
    fn skip(&mut self, len: usize) -> usize
        ensures count { (rest : List ℕ) → StandsFor self.old rest → result ≡ min len (to_skip self.old.limit self.old.greeted rest) }
        ensures stands { (rest more : List ℕ) → StandsFor self.old rest → length more ≡ result → StandsFor self.new (rest ++ more) }
        ensures held { (rest : List ℕ) → StandsFor self.old rest → length self.new.held ≡ kept self.old.limit self.old.greeted rest }
        ensures limit { self.new.limit ≡ self.old.limit }
        ensures greeted { self.new.greeted ≡ self.old.greeted }
        ensures within { result ≤ len }
    {
        let held = self.buffer.bytes();
        if !self.greeted || held.len() < HEADER_LEN {
            return 0;
        }
        let header = header_of(held);
        if !is_passed_over(self.limit, header) {
            return 0;
        }
        let left = header.len as usize - self.skipped;
        let here = left.min(held.len() - HEADER_LEN);
        let there = len.min(left - here);
        self.buffer.cut(HEADER_LEN, here);
        self.skipped += here + there;
        there
    }
}

// Whether the body of this message is passed over.
fn is_passed_over(limit: u32, header: Header) -> bool
    ensures { result ≡ is_passed_over limit header }
{
    header.kind == CLIPBOARD_DATA && header.len > limit && header.len <= MAX_SKIPPED_CLIPBOARD
}

// What there is of a message whose header has no fault: `skipped` bytes of its body were passed over,
// and behind them there are these.
fn message_at(limit: u32, header: Header, behind: &[u8], skipped: usize) -> Front<'_>
    requires fits { skipped + length behind.now < 2 ^ 64 }
    requires kept { is_passed_over limit header ≡ false → skipped ≡ 0 }
    ensures { (rest passed : List ℕ) → 12 ≤ length rest → header_at rest ≡ header → head_fault header ≡ None → length passed ≡ skipped → drop 12 rest ≡ passed ++ behind.now → seen result ≡ shown limit rest }
{
    let len = header.len as usize;
    let there = skipped + behind.len();
    match (is_passed_over(limit, header), there < len) {
        (true, true) => Front::Skipping { left: len - there },
        (true, false) => Front::Skipped { header },
        (false, true) => Front::Need { more: len - there },
        (false, false) => Front::Whole {
            header,
            body: &behind[..len],
        },
    }
}
