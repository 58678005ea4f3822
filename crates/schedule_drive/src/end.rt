//! How making a schedule ends.

use world_model::Audit;

/// How a call that makes a schedule ended.
#[derive(Clone, Copy, Debug, PartialEq, Eq)]
pub enum DriveEnd {
    /// The text was written, of a schedule with this audit.
    Done(Audit),
    /// The schedule would pass this limit: 4,000,000 steps, or 67,108,864 bytes of its file.
    Limit(u32),
    /// The sink failed.
    Write,
    /// There was not enough memory.
    Mem,
}
