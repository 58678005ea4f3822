//! The keys of one origin's slots.

ghost use Rattle.std.specs.Prelude.{◌≡◌, ◌≢◌, None, OnOk, OnErr};
ghost use Rattle.std.specs.FinMap.{empty, get, insert, remove};
ghost use Rattle.instance_tree.specs.SlotMaps.{is_numbered_command};
ghost use Rattle.instance_tree.specs.Keys.{TakesSpotOut};
ghost use Rattle.instance_tree.specs.Places.{cell_kind, cell_of};

use crate::bucket::Bucket;
use crate::buckets::{find_at, insert_at, remove_at};
use crate::ring::Ring;
use crate::span::Span;
use ritas_base::{Mem, NUMBER_LIMIT, Slot};
use std::alloc::Global;
use std::marker::Model;

/// Slots with their keys: those of commands by their numbers, and each other one in a cell.
#[derive(Drop)]
pub(crate) struct Origin {
    span: Span,
    commands: Ring,
    cells: Vec<Bucket>,
}

impl Model for Origin {
    ghost use Rattle.std.specs.Prelude.{ℕ, ◌∷◌};
    ghost use Rattle.std.specs.Coded.{coded_ℕ};
    ghost use Rattle.std.specs.FinMap.{FinMap, code};
    ghost use Rattle.ritas_base.specs.SlotOrder.{slot_cmp};
    ghost use Rattle.instance_tree.specs.SlotMaps.{slot_code};
    ghost use Rattle.instance_tree.specs.Places.{joined_map, ArePlaced, place_in_origin};

    ghost Value = { FinMap slot_cmp ℕ };

    ghost coded = { code slot_code coded_ℕ };

    ghost view = { λ o. joined_map (o.commands ∷ o.cells.items) };

    ghost invariant = { λ o. ArePlaced (place_in_origin o.span) (o.commands ∷ o.cells.items) };
}

impl Origin {
    /// No slot has a key. It takes no memory.
    pub(crate) fn new(alloc: Global, span: Span) -> Origin
        ensures { result ≡ empty }
    {
        Origin {
            span,
            commands: Ring::new(alloc, span.commands()),
            cells: Vec::new(alloc),
        }
    }

    /// The key of a slot.
    pub(crate) fn find(&self, slot: &Slot) -> Option<usize>
        ensures { result ≡ get self.now slot.now }
    {
        if slot.class == 1 {
            self.commands.find(slot)
        } else {
            find_at(self.cells.as_slice(), cell_of(self.span, slot), slot)
        }
    }

    /// Gives a slot a key, where it has none. The one error is want of memory, and all stays as it was then.
    pub(crate) fn insert(&mut self, slot: Slot, key: usize) -> Result<(), Mem>
        requires { get self.old slot ≡ None }
        ensures ok { OnOk result (self.new ≡ insert self.old slot key) }
        ensures err { OnErr result (self.new ≡ self.old) }
    {
        if slot.class == 1 {
            self.commands.insert(slot, key)
        } else {
            insert_at(&mut self.cells, cell_of(self.span, &slot), slot, key)
        }
    }

    /// A slot that isn't of a command has no key any more.
    pub(crate) fn remove(&mut self, slot: &Slot)
        requires { slot.now.class ≢ 1 }
        ensures { self.new ≡ remove self.old slot.now }
    {
        remove_at(&mut self.cells, cell_of(self.span, slot), slot);
    }

    /// Takes out the slot of a command that is numbered below; `None` where there is no such slot.
    pub(crate) fn take_command(&mut self, below: u32) -> Option<(Slot, usize)>
        ensures { TakesSpotOut (is_numbered_command below) self.old self.new result }
    {
        self.commands.take_below(below)
    }
}

// A number for the class, and in class 5 for the step.
fn cell_kind(slot: &Slot) -> u8
    ensures { result ≡ cell_kind slot.now }
{
    if slot.class == 5 {
        4 + slot.step % 4
    } else {
        slot.class % 4
    }
}

// The cell of a slot that isn't of a command.
fn cell_of(span: Span, slot: &Slot) -> usize
    ensures { result ≡ cell_of span slot.now }
{
    let kind = usize::from(cell_kind(slot));
    match span {
        Span::Window => {
            let tries = usize::from(slot.attempt % 4 * 4 + slot.bround % 4);
            (tries * 8 + kind) * 16 + (slot.a % 16) as usize
        }
        Span::Session => (slot.a % NUMBER_LIMIT) as usize * 8 + kind,
    }
}
