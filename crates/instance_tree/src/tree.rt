//! The tree: an arena of values, and the key of each slot.

ghost use Rattle.std.specs.Prelude.{◌≡◌, None, OnOk, OnErr, IfErr, option_copied};
ghost use Rattle.std.specs.Option.{option_copied_mut};
ghost use Rattle.std.specs.Borrow.{sem};
ghost use Rattle.std.specs.FinMap.{empty, get, insert};
ghost use Rattle.instance_tree.specs.SlotMaps.{without_slots, is_before_round, is_command_below};

use crate::keys::Keys;
use crate::span::Span;
use ritas_base::{Mem, Slot};
use slab::Slab;
use std::alloc::Global;
use std::marker::Model;

/// Values at slots, each slot with one value at most.
#[derive(Drop)]
pub struct Tree<V> {
    arena: Slab<V>,
    keys: Keys,
}

impl<V> Model for Tree<V> {
    ghost use Rattle.std.specs.FinMap.{FinMap, code};
    ghost use Rattle.ritas_base.specs.SlotOrder.{slot_cmp};
    ghost use Rattle.instance_tree.specs.SlotMaps.{slot_code};
    ghost use Rattle.instance_tree.specs.Arena.{values_by_slot, IsTied};

    ghost Value = { FinMap slot_cmp V };

    ghost coded = { code slot_code V.code };

    ghost view = { λ t. values_by_slot t.keys t.arena };

    ghost invariant = { λ t. IsTied t.keys t.arena };
}

impl<V: Drop> Tree<V> {
    ghost use Rattle.instance_tree.specs.Lends.{lends_at};

    /// No slot has a value. The span says for how many slots at a time its look-ups are quick. It takes no memory.
    pub fn new(alloc: Global, span: Span) -> Tree<V>
        ensures { result ≡ empty }
    {
        Tree {
            arena: Slab::new(alloc),
            keys: Keys::new(alloc, span),
        }
    }

    /// The value of a slot. `None` exactly where the slot has none.
    pub fn find(&self, slot: &Slot) -> Option<&V>
        ensures { option_copied result ≡ get self.now slot.now }
    {
        let key = self.keys.find(slot)?;
        self.arena.get(key)
    }

    /// The value of a slot, to be written to. `None` exactly where the slot has none. What is written is the slot's value
    /// then, and other slots keep theirs.
    pub fn find_mut(&mut self, slot: &Slot) -> Option<&mut V>
        ensures* writes_back { sem 𝓛 (lends_at V.row self.entry slot.now result) }
        ensures value { option_copied_mut result ≡ get self.old slot.now }
    {
        let key = self.keys.find(slot)?;
        Some(&mut self.arena[key])
    }

    /// Gives a slot its value, where it has none.
    ///
    /// For want of memory the value comes back, and all stays as it was.
    pub fn make(&mut self, _alloc: Global, slot: Slot, v: V) -> Result<(), V>
        requires { get self.old slot ≡ None }
        ensures ok { OnOk result (self.new ≡ insert self.old slot v) }
        ensures err { OnErr result (self.new ≡ self.old) }
        ensures back { IfErr result (λ value. value ≡ v) }
    {
        if self.arena.reserve(1).is_err() {
            return Err(v);
        }
        let key = self.arena.vacant_key();
        match self.keys.insert(slot, key) {
            Err(Mem) => Err(v),
            Ok(()) => {
                self.arena.insert_reserved(v);
                Ok(())
            }
        }
    }

    /// Drops the values of rounds before this one: those at slots of classes 2 to 5 whose number is below it. Other slots keep
    /// theirs. It takes no memory.
    pub fn drop_before(&mut self, round: u32)
        ensures { self.new ≡ without_slots (is_before_round round) self.old }
    {
        while let Some(key) = self.keys.take_before(round) {
            self.arena.remove(key);
        }
    }

    /// Drops the values of this origin's commands that are numbered below: those at slots of class 1 and this origin whose
    /// number is below it. Other slots keep theirs. It takes no memory.
    pub fn drop_commands(&mut self, origin: u8, below: u32)
        ensures { self.new ≡ without_slots (is_command_below origin below) self.old }
    {
        while let Some(key) = self.keys.take_command(origin, below) {
            self.arena.remove(key);
        }
    }
}
