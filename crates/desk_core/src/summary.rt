// How much there was of the input.

/// How many items and messages there were, how many words were read of frames, and how many pixels
/// were drawn. Each number stays at 2^64 - 1 once it is there.
#[derive(Clone, Copy, Debug, PartialEq, Eq)]
pub struct Summary {
    pub items: u64,
    pub messages: u64,
    pub glances: u64,
    pub painted: u64,
}
