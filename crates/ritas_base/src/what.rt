//! What is written of a schedule: of one that is replayed, and of one that is made.

/// What is written of a schedule that is replayed.
#[derive(Clone, Copy, Debug, PartialEq, Eq)]
pub enum What {
    /// The report of its world.
    Report,
    /// The frames that its correct replicas made.
    Frames,
    /// The last vector that each correct replica decided, in root services 5 and 6.
    Vectors,
}

/// What is written of a schedule that is made.
#[derive(Clone, Copy, Debug, PartialEq, Eq)]
pub enum DriveWhat {
    /// The report of its world.
    Report,
    /// The schedule file.
    Schedule,
}
