//! Whose part in which instance a box is, at which slot it speaks, and what its attempts wait for.

ghost use Rattle.std.specs.Prelude.{◌≡◌, ◌<◌};

use ritas_base::{Params, Slot};

/// Whose part in which instance a box is: the session's numbers, the replica and the round.
#[derive(Clone, Copy)]
pub(crate) struct Part {
    pub(crate) params: Params,
    pub(crate) me: u8,
    pub(crate) a: u32,
    /// How many proposals the first attempt waits for.
    pub(crate) wait: u8,
    /// The number of the last attempt.
    pub(crate) last: u8,
    ghost within: { me < params.n },
}

impl Part {
    ghost use Rattle.layer_api.specs.Multi.{Desk};
    ghost use Rattle.vector_consensus.specs.Parts.{IsVectorPart, own_proposal_slot};

    /// The part of a replica in a session of these numbers, in the instance of a round.
    pub(crate) fn new(p: &Params, me: u8, a: u32) -> Part
        requires { me < p.now.n }
        ensures { (at : Desk) → at.scope.numbers ≡ p.now → at.me ≡ me → at.scope.a ≡ a → IsVectorPart result at }
    {
        Part {
            params: *p,
            me,
            a,
            wait: p.wait(),
            last: p.f(),
        }
    }

    /// The slot of this replica's proposal.
    pub(crate) fn slot(&self) -> Slot
        ensures { result ≡ own_proposal_slot self.now }
    {
        Slot {
            class: 2,
            a: self.a,
            attempt: 0,
            bround: 0,
            step: 0,
            origin: self.me,
        }
    }
}
