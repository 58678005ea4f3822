//! Why a piece isn't taken.

/// Why a piece isn't taken: the first of these that holds. Each leaves the observer as it was.
#[derive(Clone, Copy, Debug, PartialEq, Eq)]
pub enum PieceFault {
    /// There is no such replica.
    NoSuchReplica,
    /// The bytes aren't a piece: from this offset on they are wrong, missing or too many.
    Form(u32),
    /// The piece has a row at a position 64 or more above the log's length, which it carries.
    Ahead(u32),
    /// At this position the replica gave another row before, which is still kept.
    Changed(u32),
    /// There was not enough memory.
    Mem,
}
