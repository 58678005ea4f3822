//! Under which key of the arena the value of each slot stands.

ghost use Rattle.std.specs.Prelude.{◌≡◌, None, OnOk, OnErr};
ghost use Rattle.ritas_base.specs.Slots.{within};
ghost use Rattle.std.specs.FinMap.{empty, get, insert};
ghost use Rattle.instance_tree.specs.SlotMaps.{is_before_round, is_command_below};
ghost use Rattle.instance_tree.specs.Keys.{TakesOut};

use crate::origins::Origins;
use crate::ring::Ring;
use crate::span::Span;
use ritas_base::{Mem, Slot};
use std::alloc::Global;
use std::marker::Model;

/// The key of each slot that has one.
#[derive(Drop)]
pub(crate) struct Keys {
    slots: Origins,
    // The slots of rounds once more, by which those that are past are found.
    rounds: Ring,
}

impl Model for Keys {
    ghost use Rattle.std.specs.Prelude.{ℕ};
    ghost use Rattle.std.specs.Coded.{coded_ℕ};
    ghost use Rattle.std.specs.FinMap.{FinMap, code};
    ghost use Rattle.ritas_base.specs.SlotOrder.{slot_cmp};
    ghost use Rattle.instance_tree.specs.SlotMaps.{slot_code};
    ghost use Rattle.instance_tree.specs.Keys.{AreOfRounds};

    ghost Value = { FinMap slot_cmp ℕ };

    ghost coded = { code slot_code coded_ℕ };

    ghost view = { λ k. k.slots };

    ghost invariant = { λ k. AreOfRounds k.slots k.rounds };
}

impl Keys {
    /// No slot has a key. It takes no memory.
    pub(crate) fn new(alloc: Global, span: Span) -> Keys
        ensures { result ≡ empty }
    {
        Keys {
            slots: Origins::new(alloc, span),
            rounds: Ring::new(alloc, span.rounds()),
        }
    }

    /// The key of a slot.
    pub(crate) fn find(&self, slot: &Slot) -> Option<usize>
        ensures { result ≡ get self.now slot.now }
    {
        self.slots.find(slot)
    }

    /// Gives a slot a key, where it has none. The one error is want of memory, and all stays as it was then.
    pub(crate) fn insert(&mut self, slot: Slot, key: usize) -> Result<(), Mem>
        requires { get self.old slot ≡ None }
        ensures ok { OnOk result (self.new ≡ insert self.old slot key) }
        ensures err { OnErr result (self.new ≡ self.old) }
    {
        self.slots.insert(slot, key)?;
        if !is_of_round(&slot) {
            return Ok(());
        }
        if self.rounds.insert(slot, key).is_err() {
            self.slots.remove(&slot);
            return Err(Mem);
        }
        Ok(())
    }

    /// Takes out a slot of a round before this one, and answers its key; `None` where there is no such slot.
    pub(crate) fn take_before(&mut self, round: u32) -> Option<usize>
        ensures { TakesOut (is_before_round round) self.old self.new result }
    {
        let (slot, key) = self.rounds.take_below(round)?;
        self.slots.remove(&slot);
        Some(key)
    }

    /// Takes out the slot of a command of this origin that is numbered below, and answers its key; `None` where there is no
    /// such slot.
    pub(crate) fn take_command(&mut self, origin: u8, below: u32) -> Option<usize>
        ensures { TakesOut (is_command_below origin below) self.old self.new result }
    {
        let (_, key) = self.slots.take_command(origin, below)?;
        Some(key)
    }
}

// Whether the slot is of one of the classes that belong to rounds.
fn is_of_round(slot: &Slot) -> bool
    ensures { result ≡ within 2 5 slot.now.class }
{
    slot.class >= 2 && slot.class <= 5
}
