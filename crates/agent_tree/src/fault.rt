// Why a call of a scene is refused.
use gui_num::NoMemory;

/// Why a call of a scene did nothing.
#[derive(Clone, Copy, Debug, PartialEq, Eq)]
pub enum SceneFault {
    /// No box or top window has the id, or the named one is no top window where only that will do.
    Unknown,
    /// The id of what is new is in use.
    Exists,
    /// There would be more than 1024 top windows, 65,536 boxes, 64 levels, 8192 pages or 4096 tiles.
    Limit,
    /// Out of memory.
    NoMemory,
}

impl From<NoMemory> for SceneFault {
    fn from(_: NoMemory) -> Self {
        SceneFault::NoMemory
    }
}
