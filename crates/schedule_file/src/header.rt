//! The header of a schedule file: the session, its correct replicas and their keys.

use ritas_base::{Mode, Params, SenderSet};

/// What the header of a file says.
#[derive(Clone, Copy, Debug)]
pub struct Header {
    /// The number of the session.
    pub session: u64,
    /// How many replicas there are, and how many of them may be faulty.
    pub p: Params,
    /// The root service, the broadcast of VECT, and the version of the frames.
    pub mode: Mode,
    /// The correct replicas, all below n.
    pub correct: SenderSet,
    /// The keys of the session.
    pub keys: HeaderKeys,
}

/// The keys that a file carries.
#[derive(Clone, Copy, Debug)]
pub enum HeaderKeys {
    /// The master key, of which all keys and coin keys are dealt.
    Master([u8; 32]),
    /// The keys of one replica alone: the one that it shares with each replica, and its coin key. The places of `row`
    /// from n on are zero.
    Row {
        me: u8,
        row: [[u8; 32]; 31],
        coin: [u8; 32],
    },
}
