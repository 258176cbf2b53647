// Where the items of a run are noted down.
ghost use Rattle.std.specs.Prelude.{◌≡◌, ◌≤◌, Option, is_ok, IsErrOf};
ghost use Rattle.io_ports.specs.Counts.{Rose};
ghost use Rattle.io_ports.specs.Starts.{Starts, Begins};

use crate::Sink;

/// Why a journal or a wire wasn't started.
#[derive(Clone, Copy, Debug, PartialEq, Eq)]
pub enum StartFault {
    /// What it stands on failed.
    Failed,
    /// There is no memory for it.
    NoMemory,
}

/// A sink that is started under a name, as a file is made.
pub trait Journal: Sink {
    /// The names of all starts and that of the last one that succeeded, where they are told.
    ghost starts: { Self → Option Starts };

    /// Starts the journal under this name. It writes nothing.
    ///
    /// Failed only where the sink's count of faults rose. `NoMemory` where there is no memory for it.
    fn start(&mut self, name: &str) -> Result<(), StartFault>
        ensures begins { Begins (starts self.old) name.now (is_ok result) (starts self.new) }
        ensures written { Self.written self.new ≡ Self.written self.old }
        ensures later { Self.faults self.old ≤ Self.faults self.new }
        ensures failed { IsErrOf result StartFault.Failed → Rose (Self.faults self.old) (Self.faults self.new) };

    /// A put starts nothing.
    ghost puts_start_nothing: { (a b : Self) → Self.keeps a b → starts b ≡ starts a };
}
