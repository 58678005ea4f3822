//! Whose part in which instance a box is, and the line of steps: 200 rounds of three.

ghost use Rattle.std.specs.Prelude.{◌≡◌, ◌<◌, [], ◌∷◌, ◌++◌, OnOk, OnErr};
ghost use Rattle.binary_consensus.specs.Going.{own_step_slot, line_of};

use ritas_base::{Bytes, Mem, Say, Slot};
use std::alloc::Global;

/// Rounds are numbered from 1 up to this.
const ROUNDS: u8 = 200;

/// There are so many steps in the line of all rounds.
pub(crate) const STEPS: u16 = 3 * ROUNDS as u16;

/// Whose part in which instance a box is: the replica, the round and the attempt.
#[derive(Clone, Copy)]
pub(crate) struct Part {
    pub(crate) me: u8,
    pub(crate) a: u32,
    pub(crate) attempt: u8,
}

impl Part {
    /// The slot of a step at this replica.
    pub(crate) fn slot(&self, t: u16) -> Slot
        requires { t < 600 }
        ensures { result ≡ own_step_slot self.now t }
    {
        Slot {
            class: 5,
            a: self.a,
            attempt: self.attempt,
            bround: (t / 3) as u8 + 1,
            step: (t % 3) as u8 + 1,
            origin: self.me,
        }
    }

    /// Says a vote at a step. For want of memory nothing is said.
    pub(crate) fn say(
        &self,
        alloc: Global,
        t: u16,
        vote: u8,
        says: &mut Vec<Say>,
    ) -> Result<(), Mem>
        requires { t < 600 }
        ensures said { OnOk result
            (says.new.items ≡ says.old.items ++ record { slot = own_step_slot self.now t; value = vote ∷ [] } ∷ []) }
        ensures err { OnErr result (says.new.items ≡ says.old.items) }
    {
        let value = Bytes::from_slice(alloc, &[vote])?;
        says.push(Say {
            slot: self.slot(t),
            value,
        })?;
        Ok(())
    }
}

/// The step of the line that a slot is of, if it is of one.
pub(crate) fn line_of(slot: &Slot) -> Option<u16>
    ensures { result ≡ line_of slot.now }
{
    if slot.bround < 1 || slot.bround > ROUNDS || slot.step < 1 || slot.step > 3 {
        return None;
    }
    Some(3 * u16::from(slot.bround - 1) + u16::from(slot.step - 1))
}
