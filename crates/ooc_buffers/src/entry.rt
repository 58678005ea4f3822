//! An item that is held.

ghost use Rattle.std.specs.Prelude.{◌≡◌, Bool};
ghost use Rattle.ritas_base.specs.declared.item.Item.{Item};
ghost use Rattle.ooc_buffers.specs.Lists.{is_same_item};
ghost use Rattle.ooc_buffers.specs.Closures.{Computes};

use ritas_base::{Item, Kind};
use std::marker::Model;

/// An item that is held, and the length that it was held with.
#[derive(Drop)]
pub(crate) struct Entry {
    pub(crate) item: Item,
    pub(crate) len: u32,
}

impl Model for Entry {
    ghost use Rattle.ooc_buffers.specs.Lists.{HeldItem};

    ghost Value = { HeldItem };

    ghost view = { λ e. record { item = e.item; len = e.len } };
}

impl Entry {
    // Whether the item passes the test.
    pub(crate) fn passes<F: Fn(&Item) -> bool>(&self, test: &F) -> bool
        requires { F.IsAlwaysCallable test.now }
        ensures { (t : Item → Bool) → Computes F.Fn test.now t → result ≡ t self.now.item }
    {
        test(&self.item)
    }
}

// Whether two items of one peer are held as one.
pub(crate) fn is_same(a: &Item, b: &Item) -> bool
    ensures { result ≡ is_same_item a.now b.now }
{
    a.kind == b.kind && a.slot == b.slot && (a.kind != Kind::Column || a.value.is_same(&b.value))
}
