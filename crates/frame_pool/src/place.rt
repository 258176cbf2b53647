// Where a word stands.

/// Where a word of 32 bits stands in a guest's frames: its page, counted from 0, and its number in
/// that page, from 0 to 1023.
#[derive(Clone, Copy, Debug, PartialEq, Eq)]
pub struct Place {
    /// The page, from 0.
    pub page: u32,
    /// The word in the page, from 0 to 1023.
    pub word: u32,
}
