// The names of starts that are kept in memory.
ghost use Rattle.std.specs.Prelude.{◌≡◌, Some, IfOk, option_map};
ghost use Rattle.io_ports.specs.Starts.{Begins, none_started, started};

use gui_num::NoMemory;
use std::alloc::Global;
use std::marker::Model;

// The names of all starts, and that of the last one that succeeded. Once it found no memory it isn't
// whole, and keeps nothing more.
#[derive(Drop)]
pub struct KeptStarts {
    alloc: Global,
    names: Vec<Vec<u8>>,
    running: Option<Vec<u8>>,
    is_whole: bool,
}

impl Model for KeptStarts {
    ghost use Rattle.std.specs.Prelude.{Option};
    ghost use Rattle.io_ports.specs.Starts.{Starts};
    ghost use Rattle.io_ports.specs.Memory.{told_starts};

    ghost Value = { Option Starts };

    ghost view = { λ k. told_starts k.is_whole k.names.items k.running };
}

impl KeptStarts {
    /// No start yet. It takes no memory.
    pub fn new(alloc: Global) -> Self
        ensures { result ≡ Some none_started }
    {
        KeptStarts {
            alloc,
            names: Vec::new(alloc),
            running: None,
            is_whole: true,
        }
    }

    /// Keeps a start with this name, as long as there was memory for all.
    pub fn keep(&mut self, name: &[u8], succeeded: bool)
        ensures { Begins self.old name.now succeeded self.new }
    {
        self.is_whole = self.is_whole && self.note(name, succeeded).is_ok();
    }

    // Puts the name behind the others.
    fn note(&mut self, name: &[u8], succeeded: bool) -> Result<(), NoMemory>
        ensures { IfOk result (λ _. self.new ≡ option_map (started name.now succeeded) self.old) }
    {
        let copy = name.to_vec(self.alloc)?;
        self.names.push(copy)?;
        if succeeded {
            self.running = Some(name.to_vec(self.alloc)?);
        }
        Ok(())
    }
}
