// Why a session ends.
ghost use Rattle.std.specs.Prelude.{◌≡◌};
ghost use Rattle.desk_laws.specs.Causes.{number_of, values_of};

/// Why the daemon ended a guest's session. `a` and `b` say what was wrong: see each variant. The
/// numbers and values are this project's own.
#[derive(Clone, Copy, Debug, PartialEq, Eq)]
pub enum Cause {
    /// The major number of the version word `a` isn't 1.
    BadVersion { a: u32, b: u32 },
    /// The message type `a` isn't one that the daemon takes.
    BadType { a: u32, b: u32 },
    /// The body length `a` isn't the one that the message's type has.
    BadLength { a: u32, b: u32 },
    /// The field with the number `a` (0 is the header's window) has the value `b` out of its range.
    BadRange { a: u32, b: u32 },
    /// The guest has no window `a`.
    UnknownWindow { a: u32, b: u32 },
    /// The guest has a window `a` already.
    WindowExists { a: u32, b: u32 },
    /// The window `a` would be one more than the `b` that a guest may have.
    TooManyWindows { a: u32, b: u32 },
    /// The page reference `a` isn't below the number `b` of pages.
    RefRange { a: u32, b: u32 },
    /// The guest's windows would have `a` page references, more than the number `b` of pages.
    FrameBudget { a: u32, b: u32 },
    /// Reading the area would take `a` new tiles, more than the `b` that are free.
    PixelBudget { a: u32, b: u32 },
    /// Clipboard data of `a` bytes, too long even to be skipped.
    ClipTooLong { a: u32, b: u32 },
    /// The guest's stream ended.
    StreamEnded { a: u32, b: u32 },
    /// A reply couldn't be sent to the guest.
    LinkFailed { a: u32, b: u32 },
}

impl Cause {
    /// The number that stands for the cause in an Ended record, 1 to 13.
    pub fn number(&self) -> u8
        ensures { result ≡ number_of self.now }
    {
        match self {
            Cause::BadVersion { .. } => 1,
            Cause::BadType { .. } => 2,
            Cause::BadLength { .. } => 3,
            Cause::BadRange { .. } => 4,
            Cause::UnknownWindow { .. } => 5,
            Cause::WindowExists { .. } => 6,
            Cause::TooManyWindows { .. } => 7,
            Cause::RefRange { .. } => 8,
            Cause::FrameBudget { .. } => 9,
            Cause::PixelBudget { .. } => 10,
            Cause::ClipTooLong { .. } => 11,
            Cause::StreamEnded { .. } => 12,
            Cause::LinkFailed { .. } => 13,
        }
    }

    /// The two values that stand beside the cause in an Ended record, `a` and then `b`.
    pub fn values(&self) -> (u32, u32)
        ensures { result ≡ values_of self.now }
    {
        match self {
            Cause::BadVersion { a, b }
            | Cause::BadType { a, b }
            | Cause::BadLength { a, b }
            | Cause::BadRange { a, b }
            | Cause::UnknownWindow { a, b }
            | Cause::WindowExists { a, b }
            | Cause::TooManyWindows { a, b }
            | Cause::RefRange { a, b }
            | Cause::FrameBudget { a, b }
            | Cause::PixelBudget { a, b }
            | Cause::ClipTooLong { a, b }
            | Cause::StreamEnded { a, b }
            | Cause::LinkFailed { a, b } => (*a, *b),
        }
    }
}
