//! The trait of a broadcast: its calls, what they mean, and the laws that each implementation proves.

ghost use Rattle.std.specs.Prelude.{◌≡◌, ℕ, ◌<◌, ◌==◌, Bool, true, false, List, [], IfOk};
ghost use Rattle.std.specs.Option.{option_copied};
ghost use Rattle.ritas_base.specs.declared.item.Msg.{Msg};
ghost use Rattle.ritas_base.specs.Messages.{Place};
ghost use Rattle.ritas_base.specs.History.{Call};
ghost use Rattle.ritas_base.specs.Tags.{Tags};
ghost use Rattle.layer_api.specs.Broadcast.{BroadcastRules, Tagging};
ghost use Rattle.layer_api.specs.BroadcastCalls.{CastShown, ShowsCast, Started, Takes};
ghost use Rattle.layer_api.specs.OneValue.{ValueLaws, OneValue};
ghost use Rattle.layer_api.specs.EntryLaws.{EntryLaws};
ghost use Rattle.layer_api.specs.OpeningLaws.{ReadyByKind};

use ritas_base::{Item, Mem, Msg, Params, Slot, Tagger};
use std::alloc::Global;

/// What became of an item that a broadcast was given.
#[derive(Clone, Copy, Debug, PartialEq, Eq)]
pub enum Heard {
    /// It was taken.
    Took,
    /// It repeats one that was taken, and changed nothing.
    Repeat,
}

/// One replica's part in one broadcast. There are three: reliable broadcast in which ECHO and READY carry the value, the
/// same with its digest, and echo broadcast. Sessions of version 1 have the first, those of version 2 the second, and those of
/// version 3 the first at slots of class 5 and the second at others; each may have the third beside.
pub trait Broadcast: Drop + Sized {
    /// The value stands for these calls, the newest first, at this place, with a tagger that answers so.
    ghost stands: { Self → Place → Tags → List Call → Type 0 };

    /// What the broadcast means.
    ghost rules: { BroadcastRules };

    /// No call on it was without memory.
    ghost live: { Self → Bool };

    /// The form, as below.
    ghost FORM: { ℕ };

    /// What its getters answer.
    ghost shown: { Self → CastShown };

    /// Which broadcast it is: 1 is reliable broadcast with values, 2 is echo broadcast, and 3 is reliable broadcast with
    /// digests.
    const FORM: u8;

    /// The part of replica `me` in the broadcast of a slot, before any call. The one error is want of memory.
    fn new(alloc: Global, p: &Params, me: u8, slot: Slot) -> Result<Self, Mem>
        requires me_below { me < p.now.n }
        requires origin_below { slot.origin < p.now.n }
        ensures { IfOk result (λ b. (tags : Tags) → stands b (record { numbers = p.now; me = me; slot = slot }) tags []) };

    /// Broadcasts a value, and appends the messages that become due by it. It may be called once, at the slot's origin.
    ///
    /// For want of memory `out` is as before, and the value isn't `live`.
    fn start<T: Tagger>(
        &mut self,
        alloc: Global,
        t: &T,
        value: &[u8],
        out: &mut Vec<Msg>,
    ) -> Result<(), Mem>
        ensures { Started stands rules live shown (record { me = T.me t.now; tags = T.tags t.now }) self.old self.new value.now out.old.items out.new.items result };

    /// Takes an item, and appends the messages that become due by it. An item that repeats one changes nothing.
    ///
    /// For want of memory `out` is as before, and the value isn't `live`.
    fn take<T: Tagger>(
        &mut self,
        alloc: Global,
        t: &T,
        item: &Item,
        out: &mut Vec<Msg>,
    ) -> Result<Heard, Mem>
        ensures { Takes stands rules live shown (record { me = T.me t.now; tags = T.tags t.now }) self.old self.new item.now out.old.items out.new.items result };

    /// Whether an item of this slot and broadcast can be taken yet.
    fn ready_for(&self, item: &Item) -> bool
        ensures { result ≡ (shown self.now).ready item.now };

    /// What is delivered, if anything is.
    fn delivered(&self) -> Option<&[u8]>
        ensures { option_copied result ≡ (shown self.now).out };

    /// Whether no call on this value answered want of memory.
    fn live(&self) -> bool
        ensures { result ≡ live self.now };

    /// A value that stands for some calls is live, and its getters answer what the rules say.
    ghost shows: { (b : Self) (at : Place) (tags : Tags) (h : List Call) → stands b at tags h → (live b ≡ true) × ShowsCast rules at tags h (shown b) };

    /// It means what its form says.
    ghost form: { rules.form ≡ FORM };

    /// The laws of a single value.
    ghost value_laws: { ValueLaws rules };

    /// Where the entries come from that its messages carry.
    ghost entry_laws: { EntryLaws rules };

    /// The law of one value, over every run of correct replicas.
    ghost one_value: { OneValue rules };

    /// Whether an item can be taken yet goes by its kind alone.
    ghost ready_by_kind: { ReadyByKind rules };
}
