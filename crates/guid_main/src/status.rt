// How the program ends: its statuses, their numbers and their lines.
ghost use Rattle.std.specs.Prelude.{◌≡◌, Some};
ghost use Rattle.guid_main.specs.Statuses.{kind_name, line_of, number_of};

use io_ports::{RecordFault, RecordKind};
use std::fmt;

/// How the program ends. Its exit numbers and lines are this project's own. It is printed as its
/// line, without a newline; that of `Done` is empty.
#[derive(Clone, Copy, Debug, PartialEq, Eq)]
pub enum Status {
    /// The input came to its End, and all that it gives was written; or the record that was asked for was made whole.
    Done,
    /// The words after the program's name have no known form.
    Usage,
    /// The setup breaks the rule of this number, 1 to 14 or 17 to 22.
    BadConfig { rule: u8 },
    /// The record has this fault; all that stands before it was done and written.
    BadRecord { fault: RecordFault },
    /// A read of the input failed; all that was read whole was done and written.
    ReadFault,
    /// A write of the output failed; a prefix of the output, or of the record that was asked for, was written.
    WriteFault,
    /// There is no memory to begin with; nothing was written.
    NoMemory,
    /// The input has 2^40 items before its End; all that they give was written.
    TooLong,
}

impl Status {
    /// The number that the program ends with: 0 for `Done`, else from 2 to 9.
    pub fn number(&self) -> u8
        ensures { result ≡ number_of self.now }
    {
        match self {
            Status::Done => 0,
            Status::Usage => 2,
            Status::BadConfig { .. } => 3,
            Status::BadRecord { .. } => 4,
            Status::ReadFault => 5,
            Status::WriteFault => 6,
            Status::NoMemory => 7,
            Status::TooLong => 9,
        }
    }
}

// The word for a kind of fault.
fn kind_name(kind: RecordKind) -> &'static str
    ensures { result.now ≡ kind_name kind }
{
    match kind {
        RecordKind::Magic => "magic",
        RecordKind::Kind => "kind",
        RecordKind::Range => "range",
        RecordKind::Short => "short",
    }
}

impl fmt::Display for Status {
    ghost output = { λ s. Some (line_of s) };

    fn fmt<W: fmt::Write>(&self, f: &mut fmt::Formatter<W>) -> fmt::Result {
        match self {
            Status::Done => Ok(()),
            Status::Usage => write!(f, "usage: guid replay | guid make N"),
            Status::BadConfig { rule } => write!(f, "bad configuration: rule {rule}"),
            Status::BadRecord { fault } => {
                write!(
                    f,
                    "bad record at {}: {}",
                    fault.offset,
                    kind_name(fault.kind)
                )
            }
            Status::ReadFault => write!(f, "read fault"),
            Status::WriteFault => write!(f, "write fault"),
            Status::NoMemory => write!(f, "out of memory"),
            Status::TooLong => write!(f, "input too long"),
        }
    }
}
