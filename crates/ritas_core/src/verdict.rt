//! What may be done with an item.

use crate::fault::CoreFault;

/// What is done with an item that is given.
#[derive(Clone, Copy, Debug, PartialEq, Eq)]
pub enum Verdict {
    /// It doesn't pass a check.
    Refuse(CoreFault),
    /// It repeats one that was taken or is held.
    Again,
    /// It is held.
    Hold,
    /// It is taken.
    Take,
}
