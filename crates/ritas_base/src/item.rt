//! What replicas hear and say: items, messages, and the broadcasts that layers start.

ghost use Rattle.std.specs.Prelude.{◌≡◌, IfOk};
ghost use Rattle.ritas_base.specs.Messages.{item_of};

use crate::bytes::{Bytes, Mem};
use crate::slot::Slot;
use std::alloc::Global;

/// The kinds of messages: those of reliable broadcast, those of echo broadcast, and then those that reliable broadcast by
/// digests has beside its own.
#[derive(Clone, Copy, Debug, PartialEq, Eq, PartialOrd, Ord)]
pub enum Kind {
    Init,
    Echo,
    Ready,
    Send,
    Hashes,
    Column,
    Want,
    Value,
}

/// What one replica hears from another.
#[derive(Debug, Drop)]
pub struct Item {
    pub from: u8,
    pub kind: Kind,
    pub slot: Slot,
    pub value: Bytes,
}

/// Whom a message is for: every replica, the sender too, or one of them.
#[derive(Clone, Copy, Debug, PartialEq, Eq, PartialOrd, Ord)]
pub enum To {
    All,
    One(u8),
}

/// What one replica says.
#[derive(Debug, Drop)]
pub struct Msg {
    pub to: To,
    pub kind: Kind,
    pub slot: Slot,
    pub value: Bytes,
}

/// A broadcast to start.
#[derive(Debug, Drop)]
pub struct Say {
    pub slot: Slot,
    pub value: Bytes,
}

impl Item {
    /// A copy of this item. The one error is want of memory.
    pub fn copy(&self, alloc: Global) -> Result<Item, Mem>
        ensures { IfOk result (λ item. item ≡ self.now) }
    {
        let value = self.value.copy(alloc)?;
        Ok(Item {
            from: self.from,
            kind: self.kind,
            slot: self.slot,
            value,
        })
    }
}

impl Msg {
    /// The item that this message of a sender is at its receivers. The one error is want of memory.
    pub fn to_item(&self, alloc: Global, from: u8) -> Result<Item, Mem>
        ensures { IfOk result (λ item. item ≡ item_of from self.now) }
    {
        let value = self.value.copy(alloc)?;
        Ok(Item {
            from,
            kind: self.kind,
            slot: self.slot,
            value,
        })
    }
}
