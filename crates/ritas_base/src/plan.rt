//! Plans of schedules: a session, who attacks it and how, and the order of steps.

use crate::mode::Mode;
use crate::params::Params;

/// In which order the players of a plan take their steps.
#[derive(Clone, Copy, Debug, PartialEq, Eq)]
pub enum Order {
    /// In sweeps over all players, one after the other.
    Sweep,
    /// One at a time, as numbers are drawn.
    Random,
}

/// What the faulty replicas of a plan do.
#[derive(Clone, Copy, Debug, PartialEq, Eq)]
pub enum Attack {
    /// There are none.
    Absent,
    /// They send nothing.
    Silent,
    /// Each plays two replicas, and shows one part of the others the one and the other part the other.
    TwoFace,
    /// Each says the other bit in what it broadcasts in binary consensus.
    Flip,
    /// They send frames that nobody can open.
    Garbage,
}

/// A schedule that is to be made: its numbers, its keys, and what happens in it.
#[derive(Clone, Copy, Debug)]
pub struct Plan {
    /// The session's number.
    pub session: u64,
    /// How many replicas there are, and how many of them may be faulty: the last ones are, where there is an attack.
    pub p: Params,
    /// The root service, and the broadcast of VECTs.
    pub mode: Mode,
    /// The key from which all others are dealt.
    pub master: [u8; 32],
    /// The order of steps.
    pub order: Order,
    /// What the faulty replicas do.
    pub attack: Attack,
    /// Where the drawn numbers start.
    pub start_number: u64,
    /// How many commands are given, or how many different values.
    pub commands: u32,
    /// To how many correct replicas each command of root services 6 and 7 is given.
    pub copies: u8,
}
