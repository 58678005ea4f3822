//! What opens and is past together, and where an item is kept.

ghost use Rattle.std.specs.Prelude.{◌≡◌, false};
ghost use Rattle.std.specs.Ordering.{is_gt};
ghost use Rattle.ooc_buffers.specs.Groups.{plain_slot, group_of};
ghost use Rattle.ooc_buffers.specs.Spots.{spot_cmp, spot_behind};

use ritas_base::{Item, Kind, Slot};

/// A group of items: the columns of one slot, or the other items of one class, number and attempt, and for commands of
/// one origin.
#[derive(Clone, Copy, PartialEq, Eq, PartialOrd, Ord)]
pub(crate) struct Group {
    is_column: bool,
    slot: Slot,
}

/// Where an item is kept: by its group, its round, the mark of its value where it is a column, and a stamp that grows with
/// each item that is held.
#[derive(Clone, Copy, PartialEq, Eq, PartialOrd, Ord)]
pub(crate) struct Spot {
    pub(crate) group: Group,
    pub(crate) bround: u8,
    pub(crate) mark: u64,
    pub(crate) stamp: u64,
}

// The slot that stands for those of one class, number and attempt.
fn plain_slot(slot: Slot) -> Slot
    ensures { result ≡ plain_slot slot }
{
    Slot {
        bround: 0,
        step: 0,
        origin: if slot.class == 1 { slot.origin } else { 0 },
        ..slot
    }
}

impl Group {
    pub(crate) fn of(item: &Item) -> Group
        ensures { result ≡ group_of item.now }
    {
        match item.kind {
            Kind::Column => Group {
                is_column: true,
                slot: item.slot,
            },
            _ => Group {
                is_column: false,
                slot: plain_slot(item.slot),
            },
        }
    }
}

impl Spot {
    // Behind all of its group.
    pub(crate) fn behind(self) -> Spot
        ensures spot { result ≡ spot_behind self }
        ensures later { is_gt (spot_cmp self result) ≡ false }
    {
        Spot {
            bround: u8::MAX,
            mark: u64::MAX,
            stamp: u64::MAX,
            ..self
        }
    }
}
