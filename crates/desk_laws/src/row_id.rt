// Which window of which guest.

/// A window of a guest: the guest's number, counted from 0, and the id that the guest gave the
/// window. Two guests may use one id for windows of their own.
#[derive(Clone, Copy, Debug, PartialEq, Eq)]
pub struct RowId {
    pub guest: u32,
    pub window: u32,
}
