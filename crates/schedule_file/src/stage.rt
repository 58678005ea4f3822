//! How far a reader is: an end that was read stays, and so does a fault.

use crate::fault::FileFault;

/// How far a file was read.
#[derive(Clone, Copy, Debug)]
pub enum Stage {
    /// Events may follow.
    Open,
    /// The end was read.
    Ended,
    /// A fault was met.
    Stopped(FileFault),
}
