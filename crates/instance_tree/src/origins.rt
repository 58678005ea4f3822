//! The keys of all origins' slots.

ghost use Rattle.std.specs.Prelude.{◌≡◌, ◌≢◌, ◌<◌, None, OnOk, OnErr, length};
ghost use Rattle.std.specs.FinMap.{empty, get, insert, remove};
ghost use Rattle.instance_tree.specs.SlotMaps.{is_command_below};
ghost use Rattle.instance_tree.specs.Keys.{TakesSpotOut};
ghost use Rattle.instance_tree.specs.Places.{AreSame};

use crate::origin::Origin;
use crate::span::Span;
use ritas_base::{Mem, Slot};
use std::alloc::Global;
use std::marker::Model;

/// Slots with their keys, by origin.
#[derive(Drop)]
pub(crate) struct Origins {
    span: Span,
    origins: Vec<Origin>,
}

impl Model for Origins {
    ghost use Rattle.std.specs.Prelude.{ℕ};
    ghost use Rattle.std.specs.Coded.{coded_ℕ};
    ghost use Rattle.std.specs.FinMap.{FinMap, code};
    ghost use Rattle.ritas_base.specs.SlotOrder.{slot_cmp};
    ghost use Rattle.instance_tree.specs.SlotMaps.{slot_code};
    ghost use Rattle.instance_tree.specs.Places.{joined_map, ArePlaced};

    ghost Value = { FinMap slot_cmp ℕ };

    ghost coded = { code slot_code coded_ℕ };

    ghost view = { λ o. joined_map o.origins.items };

    ghost invariant = { λ o. ArePlaced (λ s. s.origin) o.origins.items };
}

impl Origins {
    /// No slot has a key. It takes no memory.
    pub(crate) fn new(alloc: Global, span: Span) -> Origins
        ensures { result ≡ empty }
    {
        Origins {
            span,
            origins: Vec::new(alloc),
        }
    }

    /// The key of a slot.
    pub(crate) fn find(&self, slot: &Slot) -> Option<usize>
        ensures { result ≡ get self.now slot.now }
    {
        let place = usize::from(slot.origin);
        if place >= self.origins.len() {
            return None;
        }
        self.origins[place].find(slot)
    }

    /// Gives a slot a key, where it has none. The one error is want of memory, and all stays as it was then.
    pub(crate) fn insert(&mut self, slot: Slot, key: usize) -> Result<(), Mem>
        requires { get self.old slot ≡ None }
        ensures ok { OnOk result (self.new ≡ insert self.old slot key) }
        ensures err { OnErr result (self.new ≡ self.old) }
    {
        let place = usize::from(slot.origin);
        reach(&mut self.origins, self.span, place)?;
        self.origins[place].insert(slot, key)
    }

    /// A slot that isn't of a command has no key any more.
    pub(crate) fn remove(&mut self, slot: &Slot)
        requires { slot.now.class ≢ 1 }
        ensures { self.new ≡ remove self.old slot.now }
    {
        let place = usize::from(slot.origin);
        if place < self.origins.len() {
            self.origins[place].remove(slot);
        }
    }

    /// Takes out the slot of a command of this origin that is numbered below; `None` where there is no such slot.
    pub(crate) fn take_command(&mut self, origin: u8, below: u32) -> Option<(Slot, usize)>
        ensures { TakesSpotOut (is_command_below origin below) self.old self.new result }
    {
        let place = usize::from(origin);
        if place >= self.origins.len() {
            return None;
        }
        self.origins[place].take_command(below)
    }
}

// There is an origin at the place.
fn reach(origins: &mut Vec<Origin>, span: Span, place: usize) -> Result<(), Mem>
    ensures same { AreSame origins.old.items origins.new.items }
    ensures ok { OnOk result (place < length origins.new.items) }
{
    let alloc = *origins.allocator();
    while origins.len() <= place {
        origins.push(Origin::new(alloc, span))?;
    }
    Ok(())
}
