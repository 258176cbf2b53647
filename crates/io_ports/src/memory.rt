// Sources and sinks in memory, with a list of the calls that are to fail.
ghost use Rattle.std.specs.Prelude.{◌≡◌, ℕ, ◌+◌, ◌<◌, ◌≤◌, ◌↔◌, [], length, min, take, drop, Option, Some, IfOk, OnErr, IsErr, IsTrue, is_err, ⊤};
ghost use Rattle.std.specs.Bool.{OnTrue};
ghost use Rattle.io_ports.specs.Content.{Grows, Taken, Told};
ghost use Rattle.io_ports.specs.Counts.{HasCause, Rose};
ghost use Rattle.io_ports.specs.Memory.{FailsNext, KeepsMore, failing_after, none_kept, to_fail, told_of};

use crate::fails::Fails;
use crate::held::HeldBytes;
use crate::kept::KeptBytes;
use crate::{Failed, Sink, Source};
use gui_num::NoMemory;
use std::alloc::Global;
use std::marker::Model;

/// A source over bytes in memory, some of whose reads fail.
///
/// A read that doesn't fail gives as many bytes as fit into its room. One that fails gives none and
/// takes none off. Contracts see the bytes that are left, and the reads that fail.
#[derive(Drop)]
pub struct MemSource {
    held: HeldBytes,
    fails: Fails,
}

impl Model for MemSource {
    ghost use Rattle.io_ports.specs.Memory.{FailingSource};

    ghost Value = { FailingSource };

    ghost view = { λ s. record { left = s.held; failing = s.fails } };
}

impl MemSource {
    /// A source of these bytes. `fails` has the numbers of the reads that fail, counted from 1.
    /// Its only error is that there is no memory.
    pub fn new(alloc: Global, bytes: &[u8], fails: &[u64]) -> Result<Self, NoMemory>
        ensures bytes { IfOk result (λ s. s.left ≡ bytes.now) }
        ensures fails { IfOk result (λ s. s.failing ≡ to_fail fails.now) }
    {
        Ok(MemSource {
            held: HeldBytes::new(alloc, bytes)?,
            fails: Fails::new(alloc, fails)?,
        })
    }
}

impl Source for MemSource {
    ghost left = { λ s. Some s.left };

    ghost faults = { λ s. s.failing.faults };

    ghost keeps_same = { λ _. tt };

    ghost keeps_on = { λ _ _ _ _ _. tt };

    fn read(&mut self, room: &mut [u8]) -> Result<usize, Failed>
        ensures bound { IfOk result (λ n. n ≤ length room.old) }
        ensures taken { IfOk result (λ n. Told (Some self.old.left) (λ bytes. Taken bytes n room.new (Some self.new.left))) }
        ensures end { IfOk result (λ n. Told (Some self.old.left) (λ bytes. 0 < length room.old → n ≡ 0 ↔ (bytes ≡ []))) }
        ensures same { OnErr result (Some self.new.left ≡ Some self.old.left) }
        ensures keeps { ⊤ }
        ensures cause { HasCause self.old.failing.faults self.new.failing.faults result }

        // It fails exactly where its number is listed, and else gives what fits.
        ensures fails { IsErr result ↔ FailsNext self.old.failing }
        ensures counts { self.new.failing ≡ failing_after (is_err result) self.old.failing }
        ensures all { IfOk result (λ n. n ≡ min (length room.old) (length self.old.left)) }
        ensures untouched { OnErr result (room.new ≡ room.old) }
    {
        if self.fails.next() {
            return Err(Failed);
        }
        Ok(self.held.give(room))
    }
}

/// A sink that keeps what it is given in memory, some of whose puts fail.
///
/// A put that doesn't fail takes the whole piece, and one that fails keeps none of it. Once a put
/// found no memory the sink answers as before, keeps nothing more, and tells no content. Contracts
/// see the bytes that it kept, and the puts that fail.
#[derive(Drop)]
pub struct MemSink {
    kept: KeptBytes,
    fails: Fails,
}

impl Model for MemSink {
    ghost use Rattle.io_ports.specs.Memory.{FailingSink};

    ghost Value = { FailingSink };

    ghost view = { λ k. record { kept = k.kept; failing = k.fails } };
}

impl MemSink {
    /// A sink that was given nothing. `fails` has the numbers of the puts that fail, counted from
    /// 1. Its only error is that there is no memory.
    pub fn new(alloc: Global, fails: &[u64]) -> Result<Self, NoMemory>
        ensures bytes { IfOk result (λ k. k.kept ≡ none_kept) }
        ensures fails { IfOk result (λ k. k.failing ≡ to_fail fails.now) }
    {
        Ok(MemSink {
            kept: KeptBytes::new(alloc),
            fails: Fails::new(alloc, fails)?,
        })
    }

    /// The bytes that it kept: all that were put, unless it found no memory for some.
    pub fn bytes(&self) -> &[u8]
        ensures { result.now ≡ self.now.kept.items }
    {
        self.kept.bytes()
    }

    /// Counts a call, and answers whether it fails: for a journal, whose starts are counted with the puts.
    pub(crate) fn fails_next(&mut self) -> bool
        ensures fails { IsTrue result ↔ FailsNext self.old.failing }
        ensures counts { self.new.failing ≡ failing_after result self.old.failing }
        ensures later { self.old.failing.faults ≤ self.new.failing.faults }
        ensures rose { OnTrue result (Rose self.old.failing.faults self.new.failing.faults) }
        ensures kept { self.new.kept ≡ self.old.kept }
    {
        self.fails.next()
    }
}

impl Sink for MemSink {
    ghost written = { λ k. told_of k.kept };

    ghost faults = { λ k. k.failing.faults };

    ghost keeps_same = { λ _. tt };

    ghost keeps_on = { λ _ _ _ _ _. tt };

    fn put(&mut self, bytes: &[u8]) -> Result<usize, Failed>
        ensures bound { IfOk result (λ n. n ≤ length bytes.now) }
        ensures some { IfOk result (λ n. 0 < length bytes.now → 0 < n) }
        ensures grows { IfOk result (λ n. Grows (told_of self.old.kept) (take n bytes.now) (told_of self.new.kept)) }
        ensures same { OnErr result (told_of self.new.kept ≡ told_of self.old.kept) }
        ensures keeps { ⊤ }
        ensures cause { HasCause self.old.failing.faults self.new.failing.faults result }

        // It fails exactly where its number is listed, and else takes the whole piece.
        ensures fails { IsErr result ↔ FailsNext self.old.failing }
        ensures counts { self.new.failing ≡ failing_after (is_err result) self.old.failing }
        ensures all { IfOk result (λ n. n ≡ length bytes.now) }
        ensures kept { IfOk result (λ _. KeepsMore self.old.kept bytes.now self.new.kept) }
        ensures untouched { OnErr result (self.new.kept ≡ self.old.kept) }
    {
        if self.fails.next() {
            return Err(Failed);
        }
        self.kept.keep(bytes);
        Ok(bytes.len())
    }
}
