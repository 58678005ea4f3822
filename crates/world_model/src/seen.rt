//! What may become of an event.

use replica::Refusal;
use ritas_core::Answer;

/// What became of an event.
#[derive(Clone, Copy, Debug, PartialEq, Eq)]
pub enum Seen {
    /// The replica that it happened to answered.
    Answered(Answer),
    /// The replica that it happened to refused it.
    Refused(Refusal),
    /// It happened to no correct replica, or named a frame that no correct replica made.
    Missed,
}
