// Calls that are to fail, by their numbers.
ghost use Rattle.std.specs.Prelude.{◌≡◌, ◌≤◌, ◌↔◌, IsTrue, IfOk};
ghost use Rattle.std.specs.Bool.{OnTrue};
ghost use Rattle.io_ports.specs.Counts.{Rose};
ghost use Rattle.io_ports.specs.Memory.{FailsNext, failing_after, to_fail};

use gui_num::NoMemory;
use std::alloc::Global;
use std::marker::Model;

// The numbers of the calls that are to fail, counted from 1, and the counts so far.
#[derive(Drop)]
pub struct Fails {
    numbers: Vec<u64>,
    calls: u64,
    faults: u64,
}

impl Model for Fails {
    ghost use Rattle.io_ports.specs.Memory.{Failing};

    ghost Value = { Failing };

    ghost view = { λ f. record { numbers = f.numbers.items; calls = f.calls; faults = f.faults } };
}

impl Fails {
    /// No call was made yet; those with these numbers, counted from 1, are to fail. `NoMemory` where
    /// there is none to keep the numbers.
    pub fn new(alloc: Global, numbers: &[u64]) -> Result<Self, NoMemory>
        ensures { IfOk result (λ f. f ≡ to_fail numbers.now) }
    {
        Ok(Fails {
            numbers: numbers.to_vec(alloc)?,
            calls: 0,
            faults: 0,
        })
    }

    /// Counts a call, and answers whether it fails.
    pub fn next(&mut self) -> bool
        ensures fails { IsTrue result ↔ FailsNext self.old }
        ensures counts { self.new ≡ failing_after result self.old }
        ensures later { self.old.faults ≤ self.new.faults }
        ensures rose { OnTrue result (Rose self.old.faults self.new.faults) }
    {
        self.calls = self.calls.saturating_add(1);
        let fails = self.numbers.contains(&self.calls);
        if fails {
            self.faults = self.faults.saturating_add(1);
        }
        fails
    }
}
