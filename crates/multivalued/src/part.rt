//! Whose part in which instance a box is, and at which slots it speaks.

ghost use Rattle.std.specs.Prelude.{◌≡◌};
ghost use Rattle.multivalued.specs.Parts.{IsMultiPart, own_class_slot};
ghost use Rattle.layer_api.specs.Multi.{Desk};

use ritas_base::{Params, Slot};

/// Whose part in which instance a box is: the replica, the round and the attempt; and how many messages it waits for.
#[derive(Clone, Copy)]
pub(crate) struct Part {
    pub(crate) me: u8,
    pub(crate) a: u32,
    pub(crate) attempt: u8,
    pub(crate) wait: u8,
}

impl Part {
    /// The part of a replica in a session of these numbers, in the instance of a round and an attempt.
    pub(crate) fn new(p: &Params, me: u8, a: u32, attempt: u8) -> Part
        ensures { (at : Desk) → at.scope.numbers ≡ p.now → at.me ≡ me → at.scope.a ≡ a → at.scope.attempt ≡ attempt → IsMultiPart result at }
    {
        Part {
            me,
            a,
            attempt,
            wait: p.n() - p.f(),
        }
    }

    /// This replica's slot of its proposal, of class 3, or of its VECT, of class 4.
    pub(crate) fn slot(&self, class: u8) -> Slot
        ensures { result ≡ own_class_slot self.now class }
    {
        Slot {
            class,
            a: self.a,
            attempt: self.attempt,
            bround: 0,
            step: 0,
            origin: self.me,
        }
    }
}
