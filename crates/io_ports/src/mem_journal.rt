// A journal in memory, with a list of the calls that are to fail.
ghost use Rattle.std.specs.Prelude.{◌≡◌, ℕ, ◌<◌, ◌≤◌, ◌↔◌, length, take, Some, IfOk, OnErr, IsErr, IsErrOf, is_err, is_ok, refl};
ghost use Rattle.std.proofs.Common.{◌∙◌};
ghost use Rattle.io_ports.specs.Content.{Grows};
ghost use Rattle.io_ports.specs.Counts.{HasCause, Rose};
ghost use Rattle.io_ports.specs.Memory.{FailsNext, KeepsMore, failing_after, none_kept, to_fail, told_of};
ghost use Rattle.io_ports.specs.Starts.{Begins, none_started};

use crate::kept_starts::KeptStarts;
use crate::{Failed, Journal, MemSink, Sink, StartFault};
use gui_num::NoMemory;
use std::alloc::Global;
use std::marker::Model;

/// A journal that keeps what it is given in memory, some of whose calls fail.
///
/// It takes pieces as `MemSink` does. A start is a call as a put is. Once a start found no memory to keep its
/// name, starts aren't told any longer. Contracts see its sink, and the starts that it tells.
#[derive(Drop)]
pub struct MemJournal {
    sink: MemSink,
    starts: KeptStarts,
}

impl Model for MemJournal {
    ghost use Rattle.io_ports.specs.Memory.{FailingJournal};

    ghost Value = { FailingJournal };

    ghost view = { λ j. record { sink = j.sink; starts = j.starts } };
}

impl MemJournal {
    /// A journal that was given nothing and wasn't started. `fails` has the numbers of the calls that fail,
    /// puts and starts, counted from 1. Its only error is that there is no memory.
    pub fn new(alloc: Global, fails: &[u64]) -> Result<Self, NoMemory>
        ensures bytes { IfOk result (λ j. j.sink.kept ≡ none_kept) }
        ensures fails { IfOk result (λ j. j.sink.failing ≡ to_fail fails.now) }
        ensures starts { IfOk result (λ j. j.starts ≡ Some none_started) }
    {
        Ok(MemJournal {
            sink: MemSink::new(alloc, fails)?,
            starts: KeptStarts::new(alloc),
        })
    }

    /// The bytes that it kept: all that were put, unless it found no memory for some.
    pub fn bytes(&self) -> &[u8]
        ensures { result.now ≡ self.now.sink.kept.items }
    {
        self.sink.bytes()
    }
}

impl Sink for MemJournal {
    ghost written = { λ j. told_of j.sink.kept };

    ghost faults = { λ j. j.sink.failing.faults };

    ghost keeps = { λ a b. b.starts ≡ a.starts };

    ghost keeps_same = { λ _. refl };

    ghost keeps_on = { λ a b c first next. next ∙ first };

    fn put(&mut self, bytes: &[u8]) -> Result<usize, Failed>
        ensures bound { IfOk result (λ n. n ≤ length bytes.now) }
        ensures some { IfOk result (λ n. 0 < length bytes.now → 0 < n) }
        ensures grows { IfOk result (λ n. Grows (told_of self.old.sink.kept) (take n bytes.now) (told_of self.new.sink.kept)) }
        ensures same { OnErr result (told_of self.new.sink.kept ≡ told_of self.old.sink.kept) }
        ensures keeps { self.new.starts ≡ self.old.starts }
        ensures cause { HasCause self.old.sink.failing.faults self.new.sink.failing.faults result }

        // It is the put of its sink.
        ensures fails { IsErr result ↔ FailsNext self.old.sink.failing }
        ensures counts { self.new.sink.failing ≡ failing_after (is_err result) self.old.sink.failing }
        ensures all { IfOk result (λ n. n ≡ length bytes.now) }
        ensures kept { IfOk result (λ _. KeepsMore self.old.sink.kept bytes.now self.new.sink.kept) }
        ensures untouched { OnErr result (self.new.sink.kept ≡ self.old.sink.kept) }
    {
        self.sink.put(bytes)
    }
}

impl Journal for MemJournal {
    ghost starts = { λ j. j.starts };

    ghost puts_start_nothing = { λ _ _ kept. kept };

    fn start(&mut self, name: &str) -> Result<(), StartFault>
        ensures begins { Begins self.old.starts name.now (is_ok result) self.new.starts }
        ensures written { told_of self.new.sink.kept ≡ told_of self.old.sink.kept }
        ensures later { self.old.sink.failing.faults ≤ self.new.sink.failing.faults }
        ensures failed { IsErrOf result StartFault.Failed → Rose self.old.sink.failing.faults self.new.sink.failing.faults }

        // It fails exactly where its number is listed.
        ensures fails { IsErrOf result StartFault.Failed ↔ FailsNext self.old.sink.failing }
        ensures memory { IsErr result → IsErrOf result StartFault.Failed }
        ensures counts { self.new.sink.failing ≡ failing_after (is_err result) self.old.sink.failing }
        ensures kept { self.new.sink.kept ≡ self.old.sink.kept }
    {
        let fails = self.sink.fails_next();
        self.starts.keep(name.as_bytes(), !fails);
        if fails {
            return Err(StartFault::Failed);
        }
        Ok(())
    }
}
