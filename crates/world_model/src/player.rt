//! Who takes the steps of a schedule that is made.

/// Who takes the steps of a schedule that is made: a correct replica, or a face of a faulty one.
#[derive(Clone, Copy, Debug, PartialEq, Eq)]
pub enum Player {
    /// The correct replica of this number.
    Correct(u8),
    /// The face with this place among the faces. It runs a replica's code with a faulty replica's keys and coin.
    Face(u8),
}
