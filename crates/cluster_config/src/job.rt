//! The jobs that a command line may name.

use ritas_base::{DriveWhat, What};

/// What a run is asked to do.
#[derive(Clone, Copy, Debug, PartialEq, Eq)]
pub enum Job {
    /// Replays a schedule that it reads.
    Replay(What),
    /// Makes a schedule of a plan that it reads.
    Drive(DriveWhat),
    /// Deals the keys of a session.
    Keys,
    /// Runs one replica.
    Node,
    /// Runs all replicas of a session.
    Cluster,
    /// Hands a request to the replicas of a session.
    Submit,
    /// Watches the log of a session.
    Watch,
}
