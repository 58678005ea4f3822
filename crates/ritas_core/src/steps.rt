//! The steps of a call on a core.

ghost use Rattle.std.specs.Prelude.{◌≡◌, List, ◌∷◌, ◌++◌, OnOk, OnErr};
ghost use Rattle.ritas_base.specs.declared.item.Item.{Item};
ghost use Rattle.ooc_buffers.specs.Lists.{released, remaining};
ghost use Rattle.ritas_core.specs.Parts.{Parts};
ghost use Rattle.ritas_core.specs.Order.{ordered, own_items, Extends};
ghost use Rattle.ritas_core.specs.Stands.{meaning, LayersStand};
ghost use Rattle.ritas_core.specs.LayerCalls.{SameSeat, GivesItem, is_past_in, is_open_in};
ghost use Rattle.ritas_core.specs.Waiting.{is_column_at, AreGrouped, AreColumns, MayOpen, MayEnd};

use crate::answer::Answer;
use crate::change::Change;
use crate::fault::CoreFault;
use crate::kernel::Core;
use crate::layers::Layers;
use crate::send::{in_order, keep_own};
use layer_api::{Broadcast, Service};
use ooc_buffers::Held;
use ritas_base::{Coin, Item, Kind, Mem, Msg, Slot, Tagger};
use std::alloc::Global;
use std::collections::VecDeque;

/// Moves what is open to the back of the inbox. For want of memory nothing moved.
fn open<S: Service, E: Broadcast, C: Coin + Drop, T: Tagger + Drop>(
    alloc: Global,
    layers: &Layers<S, E, C, T>,
    held: &mut Held,
    inbox: &mut VecDeque<Item>,
) -> Result<(), Mem>
    ensures inbox { let m = meaning S.stands S.rules S.shown E.stands E.rules E.shown C.bits T.me T.tags in
        (p : Parts) → LayersStand m layers.now p → AreGrouped (is_open_in m layers.now p) held.old
        → OnOk result (inbox.new.items ≡ inbox.old.items ++ released (is_open_in m layers.now p) held.old) }
    ensures held { let m = meaning S.stands S.rules S.shown E.stands E.rules E.shown C.bits T.me T.tags in
        (p : Parts) → LayersStand m layers.now p → AreGrouped (is_open_in m layers.now p) held.old
        → OnOk result (held.new ≡ remaining (is_open_in m layers.now p) held.old) }
    ensures err { OnErr result ((inbox.new.items ≡ inbox.old.items) × (held.new ≡ held.old)) }
{
    held.release(alloc, |item| layers.is_open(item), inbox)
}

/// Whether an item is a column of this slot.
fn is_column_at(slot: Slot, item: &Item) -> bool
    ensures { result ≡ is_column_at slot item.now }
{
    item.kind == Kind::Column && slot == item.slot
}

/// Moves the open columns of a slot to the back of the inbox, where nothing else may have opened. For want of memory nothing
/// moved.
fn open_columns<S: Service, E: Broadcast, C: Coin + Drop, T: Tagger + Drop>(
    alloc: Global,
    layers: &Layers<S, E, C, T>,
    slot: Slot,
    held: &mut Held,
    inbox: &mut VecDeque<Item>,
) -> Result<(), Mem>
    ensures inbox { let m = meaning S.stands S.rules S.shown E.stands E.rules E.shown C.bits T.me T.tags in
        (p : Parts) → LayersStand m layers.now p → AreColumns slot (is_open_in m layers.now p) held.old
        → OnOk result (inbox.new.items ≡ inbox.old.items ++ released (is_open_in m layers.now p) held.old) }
    ensures held { let m = meaning S.stands S.rules S.shown E.stands E.rules E.shown C.bits T.me T.tags in
        (p : Parts) → LayersStand m layers.now p → AreColumns slot (is_open_in m layers.now p) held.old
        → OnOk result (held.new ≡ remaining (is_open_in m layers.now p) held.old) }
    ensures err { OnErr result ((inbox.new.items ≡ inbox.old.items) × (held.new ≡ held.old)) }
{
    held.release(
        alloc,
        |item| is_column_at(slot, item) && layers.is_open(item),
        inbox,
    )
}

/// Moves what is open to the back of the inbox, where something may have opened. For want of memory nothing moved.
fn release<S: Service, E: Broadcast, C: Coin + Drop, T: Tagger + Drop>(
    alloc: Global,
    layers: &Layers<S, E, C, T>,
    change: Change,
    held: &mut Held,
    inbox: &mut VecDeque<Item>,
) -> Result<(), Mem>
    ensures inbox { let m = meaning S.stands S.rules S.shown E.stands E.rules E.shown C.bits T.me T.tags in
        (p : Parts) → LayersStand m layers.now p → MayOpen m change layers.now p held.old
        → OnOk result (inbox.new.items ≡ inbox.old.items ++ released (is_open_in m layers.now p) held.old) }
    ensures held { let m = meaning S.stands S.rules S.shown E.stands E.rules E.shown C.bits T.me T.tags in
        (p : Parts) → LayersStand m layers.now p → MayOpen m change layers.now p held.old
        → OnOk result (held.new ≡ remaining (is_open_in m layers.now p) held.old) }
    ensures err { OnErr result ((inbox.new.items ≡ inbox.old.items) × (held.new ≡ held.old)) }
{
    match change {
        Change::Cast => Ok(()),
        Change::Columns(slot) => open_columns(alloc, layers, slot, held, inbox),
        Change::Service => open(alloc, layers, held, inbox),
    }
}

/// Puts out what was made, in order, and moves what comes to oneself and then what is open to the back of the inbox. For
/// want of memory some of it may be there; what is held is as before.
fn put_out<S: Service, E: Broadcast, C: Coin + Drop, T: Tagger + Drop>(
    alloc: Global,
    layers: &Layers<S, E, C, T>,
    change: Change,
    made: Vec<Msg>,
    held: &mut Held,
    inbox: &mut VecDeque<Item>,
    out: &mut Vec<Msg>,
) -> Result<(), Mem>
    ensures out { OnOk result (out.new.items ≡ out.old.items ++ ordered made.items) }
    ensures inbox { let m = meaning S.stands S.rules S.shown E.stands E.rules E.shown C.bits T.me T.tags in
        OnOk result ((p : Parts) → LayersStand m layers.now p → MayOpen m change layers.now p held.old
        → inbox.new.items ≡ (inbox.old.items ++ own_items layers.now.me (ordered made.items)) ++ released (is_open_in m layers.now p) held.old) }
    ensures held { let m = meaning S.stands S.rules S.shown E.stands E.rules E.shown C.bits T.me T.tags in
        OnOk result ((p : Parts) → LayersStand m layers.now p → MayOpen m change layers.now p held.old
        → held.new ≡ remaining (is_open_in m layers.now p) held.old) }
    ensures err { OnErr result (Extends inbox.old.items inbox.new.items × Extends out.old.items out.new.items × (held.new ≡ held.old)) }
{
    let mut sent = in_order(alloc, made)?;
    keep_own(alloc, layers.me, sent.as_slice(), inbox)?;
    out.append(&mut sent)?;
    release(alloc, layers, change, held, inbox)?;
    Ok(())
}

/// Drops the held items that are past, where a window may have moved.
fn forget<S: Service, E: Broadcast, C: Coin + Drop, T: Tagger + Drop>(
    layers: &Layers<S, E, C, T>,
    change: Change,
    held: &mut Held,
)
    ensures { let m = meaning S.stands S.rules S.shown E.stands E.rules E.shown C.bits T.me T.tags in
        (p : Parts) → LayersStand m layers.now p → MayEnd m change layers.now p held.old
        → held.new ≡ remaining (λ x. is_past_in m layers.now p x.slot) held.old }
{
    match change {
        Change::Cast | Change::Columns(_) => {}
        Change::Service => held.forget(|item| layers.is_past(&item.slot)),
    }
}

/// Gives the layers the item at the front of the inbox.
pub(crate) fn take_front<S: Service, E: Broadcast, C: Coin + Drop, T: Tagger + Drop>(
    alloc: Global,
    layers: &mut Layers<S, E, C, T>,
    inbox: &VecDeque<Item>,
    made: &mut Vec<Msg>,
) -> Result<Option<Change>, Mem>
    ensures given { let m = meaning S.stands S.rules S.shown E.stands E.rules E.shown C.bits T.me T.tags in
        (item : Item) (rest : List Item) → inbox.now.items ≡ item ∷ rest
        → GivesItem m layers.old layers.new item made.old.items made.new.items result }
    ensures same { SameSeat layers.old layers.new }
{
    match inbox.front() {
        Some(item) => layers.take(alloc, item, made),
        // No such inbox comes.
        None => Ok(None),
    }
}

impl<S: Service, E: Broadcast, C: Coin + Drop, T: Tagger + Drop> Core<S, E, C, T> {
    ghost use Rattle.std.specs.Prelude.{OnOk, OnErr};
    ghost use Rattle.ritas_core.specs.Stands.{meaning};
    ghost use Rattle.ritas_core.specs.Shown.{tagger_of};
    ghost use Rattle.ritas_core.specs.CoreCalls.{Finishes, Withdraws, PassesOn, TriesInput};

    /// Puts out what was made, in order, moves what comes to oneself and then what is open to the inbox, and drops what is
    /// past. For want of memory all is as before.
    fn finish(
        &mut self,
        alloc: Global,
        change: Change,
        made: Vec<Msg>,
        out: &mut Vec<Msg>,
    ) -> Result<(), Mem>
        ensures ok { let m = meaning S.stands S.rules S.shown E.stands E.rules E.shown C.bits T.me T.tags in
            OnOk result (Finishes m change self.old self.new made.items out.old.items out.new.items) }
        ensures err { OnErr result (Withdraws self.old self.new out.old.items out.new.items) }
        ensures tagger { tagger_of self.new ≡ tagger_of self.old }
    {
        let waiting = self.inbox.len();
        let sent = out.len();
        if let Err(fault) = put_out(
            alloc,
            &self.layers,
            change,
            made,
            &mut self.held,
            &mut self.inbox,
            out,
        ) {
            self.inbox.truncate(waiting);
            out.truncate(sent);
            return Err(fault);
        }
        forget(&self.layers, change, &mut self.held);
        Ok(())
    }

    /// Passes on what the layers made of an open item, if it doesn't repeat one that its slot took. For want of memory the
    /// core stops.
    pub(crate) fn pass_on(
        &mut self,
        alloc: Global,
        taken: Result<Option<Change>, Mem>,
        made: Vec<Msg>,
        out: &mut Vec<Msg>,
    ) -> Result<Answer, CoreFault>
        ensures does { let m = meaning S.stands S.rules S.shown E.stands E.rules E.shown C.bits T.me T.tags in
            PassesOn m self.old self.new taken made.items out.old.items out.new.items result }
        ensures tagger { tagger_of self.new ≡ tagger_of self.old }
    {
        match taken {
            Ok(taken) => match taken {
                None => Ok(Answer::Repeat),
                Some(change) => match self.finish(alloc, change, made, out) {
                    Ok(()) => Ok(Answer::Took),
                    Err(_) => {
                        self.stopped = true;
                        Err(CoreFault::Mem)
                    }
                },
            },
            Err(_) => {
                self.stopped = true;
                Err(CoreFault::Mem)
            }
        }
    }

    /// Gives an input to the layers.
    pub(crate) fn try_input(
        &mut self,
        alloc: Global,
        value: &[u8],
        out: &mut Vec<Msg>,
    ) -> Result<(), Mem>
        ensures does { let m = meaning S.stands S.rules S.shown E.stands E.rules E.shown C.bits T.me T.tags in
            TriesInput m self.old self.new value.now out.old.items out.new.items result }
        ensures tagger { tagger_of self.new ≡ tagger_of self.old }
    {
        let mut made = Vec::new(alloc);
        self.layers.input(alloc, value, &mut made)?;
        self.finish(alloc, Change::Service, made, out)?;
        Ok(())
    }
}
