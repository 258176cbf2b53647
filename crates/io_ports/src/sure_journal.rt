// A journal in memory that never fails.
ghost use Rattle.std.specs.Prelude.{◌≡◌, ℕ, ◌<◌, ◌≤◌, length, take, Some, IfOk, IsOk, OnErr, IsErrOf, is_ok, refl};
ghost use Rattle.std.proofs.Common.{◌∙◌};
ghost use Rattle.io_ports.specs.Content.{Grows};
ghost use Rattle.io_ports.specs.Counts.{HasCause, Rose};
ghost use Rattle.io_ports.specs.Memory.{KeepsMore, none_kept, told_of};
ghost use Rattle.io_ports.specs.Starts.{Begins, none_started};

use crate::kept_starts::KeptStarts;
use crate::{Failed, Journal, Sink, StartFault, SureSink};
use gui_num::NoMemory;
use std::alloc::Global;
use std::marker::Model;

/// A journal that keeps what it is given in memory, and whose calls never fail.
///
/// It takes pieces as `SureSink` does. Once a start found no memory to keep its name, starts aren't told any
/// longer. Contracts see the bytes that it kept, and the starts that it tells.
#[derive(Drop)]
pub struct SureJournal {
    sink: SureSink,
    starts: KeptStarts,
}

impl Model for SureJournal {
    ghost use Rattle.io_ports.specs.Memory.{SureJournalView};

    ghost Value = { SureJournalView };

    ghost view = { λ j. record { kept = j.sink; starts = j.starts } };
}

impl SureJournal {
    /// A journal that was given nothing and wasn't started. It takes no memory, and always answers Ok.
    pub fn new(alloc: Global) -> Result<Self, NoMemory>
        ensures sure { IsOk result }
        ensures bytes { IfOk result (λ j. j.kept ≡ none_kept) }
        ensures starts { IfOk result (λ j. j.starts ≡ Some none_started) }
    {
        Ok(SureJournal {
            sink: SureSink::new(alloc)?,
            starts: KeptStarts::new(alloc),
        })
    }

    /// The bytes that it kept: all that were put, unless it found no memory for some.
    pub fn bytes(&self) -> &[u8]
        ensures { result.now ≡ self.now.kept.items }
    {
        self.sink.bytes()
    }
}

impl Sink for SureJournal {
    ghost written = { λ j. told_of j.kept };

    ghost faults = { λ _. 0 };

    ghost keeps = { λ a b. b.starts ≡ a.starts };

    ghost keeps_same = { λ _. refl };

    ghost keeps_on = { λ a b c first next. next ∙ first };

    fn put(&mut self, bytes: &[u8]) -> Result<usize, Failed>
        ensures bound { IfOk result (λ n. n ≤ length bytes.now) }
        ensures some { IfOk result (λ n. 0 < length bytes.now → 0 < n) }
        ensures grows { IfOk result (λ n. Grows (told_of self.old.kept) (take n bytes.now) (told_of self.new.kept)) }
        ensures same { OnErr result (told_of self.new.kept ≡ told_of self.old.kept) }
        ensures keeps { self.new.starts ≡ self.old.starts }
        ensures cause { HasCause 0 0 result }

        // It never fails, and takes the whole piece.
        ensures sure { IsOk result }
        ensures all { IfOk result (λ n. n ≡ length bytes.now) }
        ensures kept { KeepsMore self.old.kept bytes.now self.new.kept }
    {
        self.sink.put(bytes)
    }
}

impl Journal for SureJournal {
    ghost starts = { λ j. j.starts };

    ghost puts_start_nothing = { λ _ _ kept. kept };

    fn start(&mut self, name: &str) -> Result<(), StartFault>
        ensures begins { Begins self.old.starts name.now (is_ok result) self.new.starts }
        ensures written { told_of self.new.kept ≡ told_of self.old.kept }
        ensures later { 0 ≤ 0 }
        ensures failed { IsErrOf result StartFault.Failed → Rose 0 0 }

        // It never fails.
        ensures sure { IsOk result }
        ensures kept { self.new.kept ≡ self.old.kept }
    {
        self.starts.keep(name.as_bytes(), true);
        Ok(())
    }
}
