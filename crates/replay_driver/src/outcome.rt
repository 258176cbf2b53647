// How a run over a feed ends.

use io_ports::RecordFault;

/// How a run over a feed ends.
#[derive(Clone, Copy, Debug, PartialEq, Eq)]
pub enum Outcome {
    /// The feed gave End, and all that the items give was written.
    Done,
    /// The feed's items end in this fault.
    BadRecord(RecordFault),
    /// The feed failed.
    ReadFault,
    /// A write failed.
    WriteFault,
    /// There is no memory to begin with.
    NoMemory,
    /// As many items were taken as may be, and none of them was End.
    TooLong,
}

/// How much a run takes at most.
#[derive(Clone, Copy, Debug, PartialEq, Eq)]
pub struct Bounds {
    /// How many items, at least 1.
    pub items: u64,
}
