//! The service of a replica over its broadcasts, the windows, and which items are open.

ghost use Rattle.std.specs.Prelude.{◌≡◌, nat_le, not, true, false, Some, IsOk, OnOk, OnErr, if◌then◌else◌};
ghost use Rattle.std.specs.BTreeMap.{get};
ghost use Rattle.ritas_base.specs.declared.slot.Slot.{Slot};
ghost use Rattle.ritas_base.specs.SlotOrder.{slot_cmp, is_slot};
ghost use Rattle.ritas_core.specs.LayerCalls.{quiet_change};

use crate::cast::Cast;
use crate::casts::start_casts;
use crate::change::Change;
use crate::drops::{drop_past, mark};
use crate::fault::CoreFault;
use crate::hear::{is_ready, take_cast};
use crate::limits::{is_behind, is_beyond};
use crate::taken::Taken;
use frame_codec::input_fault;
use instance_tree::Tree;
use layer_api::{Broadcast, COMMAND_WINDOW, Service};
use ritas_base::{
    Bytes, Coin, Item, Kind, Mem, Mode, Msg, NUMBER_LIMIT, Params, RootService, Say, Slot, Tagger,
};
use std::alloc::Global;
use std::collections::BTreeMap;

/// The service of a replica, the broadcasts of those slots that aren't past, and what they are given. In version 3 no slot is
/// past. In root services 1 and 2, which show what every slot delivered, that is kept by itself.
#[derive(Drop)]
pub struct Layers<S: Service, E: Broadcast, C: Coin + Drop, T: Tagger + Drop> {
    pub(crate) params: Params,
    pub(crate) mode: Mode,
    pub(crate) me: u8,
    pub(crate) tagger: T,
    pub(crate) coin: C,
    pub(crate) service: S,
    pub(crate) casts: Tree<Cast<E>>,
    pub(crate) outputs: BTreeMap<Slot, Bytes>,
}

/// Whether what a slot delivered is kept: in root services 1 and 2, which deliver commands, each by itself.
fn keeps_outputs(mode: &Mode) -> bool
    ensures { result ≡ not (nat_le 3 mode.now.root) }
{
    match mode.service() {
        RootService::Reliable | RootService::Echo => true,
        RootService::Binary
        | RootService::MultiValued
        | RootService::Vector
        | RootService::Atomic
        | RootService::Direct => false,
    }
}

/// In root services 1 and 2 keeps what a slot delivered, since its broadcast is dropped once the slot is past.
fn keep_output(
    mode: &Mode,
    outputs: &mut BTreeMap<Slot, Bytes>,
    slot: Slot,
    value: Bytes,
) -> Result<(), Mem>
    ensures kept { OnOk result (nat_le 3 mode.now.root ≡ false
        → (s : Slot) → get slot_cmp outputs.new s ≡ (if is_slot slot s then Some value else get slot_cmp outputs.old s)) }
    ensures err { OnErr result ((s : Slot) → get slot_cmp outputs.new s ≡ get slot_cmp outputs.old s) }
    ensures spared { nat_le 3 mode.now.root ≡ true → IsOk result }
{
    if keeps_outputs(mode) {
        outputs.insert(slot, value)?;
    }
    Ok(())
}

/// What an item changes where its slot delivers nothing: columns are at slots of echo broadcast alone.
fn quiet_change(item: &Item) -> Change
    ensures { result ≡ quiet_change item.now }
{
    match item.kind {
        Kind::Send | Kind::Hashes | Kind::Column => Change::Columns(item.slot),
        _ => Change::Cast,
    }
}

impl<S: Service, E: Broadcast, C: Coin + Drop, T: Tagger + Drop> Layers<S, E, C, T> {
    ghost use Rattle.std.specs.Prelude.{◌≡◌, ◌<◌, None, OnOk, OnErr};
    ghost use Rattle.std.specs.Option.{option_copied};
    ghost use Rattle.layer_api.specs.Words.{Ask, Hear};
    ghost use Rattle.ritas_core.specs.SlotCast.{shown_by_cast};
    ghost use Rattle.ritas_core.specs.Shown.{layers_out};
    ghost use Rattle.ritas_core.specs.Parts.{Parts};
    ghost use Rattle.ritas_core.specs.Checks.{mark_of, window_fault, input_check};
    ghost use Rattle.frame_codec.specs.Inputs.{IsInput};
    ghost use Rattle.ritas_core.specs.Stands.{meaning, rules_of, LayersStand};
    ghost use Rattle.ritas_core.specs.LayerCalls.{ChangesCasts, StartsSaid, StartsFewerSaid};
    ghost use Rattle.ritas_core.specs.LayerCalls.{SameSeat, KeepsOutputs, TellsLayers, TellsNoLayer, GivesItem, is_past_in, is_let_in, is_open_in};
    ghost use Rattle.ritas_core.specs.Drops.{mark_shown, is_past_shown, hides_shown};

    /// Drops the broadcasts that are past by what the service was told, and starts what it says.
    fn start_said(&mut self, alloc: Global, says: &[Say], made: &mut Vec<Msg>) -> Result<(), Mem>
        ensures ok { let m = meaning S.stands S.rules S.shown E.stands E.rules E.shown C.bits T.me T.tags in
            OnOk result (StartsSaid m self.old self.new says.now made.old.items made.new.items) }
        ensures err { let m = meaning S.stands S.rules S.shown E.stands E.rules E.shown C.bits T.me T.tags in
            OnErr result (StartsFewerSaid m self.old self.new says.now) }
        ensures rest { ChangesCasts self.old self.new }
    {
        drop_past(
            self.mode.version,
            &self.service,
            self.params.n(),
            &mut self.casts,
        );
        start_casts(
            alloc,
            &self.params,
            &self.mode,
            self.me,
            &self.tagger,
            &self.service,
            &mut self.casts,
            says,
            made,
        )
    }

    /// Tells the service what a slot delivered, drops the broadcasts that are past by that, and starts what it says.
    fn hear(
        &mut self,
        alloc: Global,
        slot: &Slot,
        value: &[u8],
        made: &mut Vec<Msg>,
    ) -> Result<(), Mem>
        ensures told { let m = meaning S.stands S.rules S.shown E.stands E.rules E.shown C.bits T.me T.tags in
            OnOk result (TellsLayers m self.old self.new (Hear slot.now value.now) made.old.items made.new.items) }
        ensures missed { let m = meaning S.stands S.rules S.shown E.stands E.rules E.shown C.bits T.me T.tags in
            OnErr result (TellsNoLayer m self.old self.new (Hear slot.now value.now)) }
        ensures same { SameSeat self.old self.new }
        ensures outputs { KeepsOutputs self.old self.new }
    {
        let mut says = Vec::new(alloc);
        self.service
            .heard(alloc, &self.coin, slot, value, &mut says)?;
        self.start_said(alloc, says.as_slice(), made)
    }

    /// Gives the service an input, drops the broadcasts that are past by that, and starts what it says.
    pub(crate) fn input(
        &mut self,
        alloc: Global,
        value: &[u8],
        made: &mut Vec<Msg>,
    ) -> Result<(), Mem>
        ensures told { let m = meaning S.stands S.rules S.shown E.stands E.rules E.shown C.bits T.me T.tags in
            OnOk result (TellsLayers m self.old self.new (Ask value.now) made.old.items made.new.items) }
        ensures missed { let m = meaning S.stands S.rules S.shown E.stands E.rules E.shown C.bits T.me T.tags in
            OnErr result (TellsNoLayer m self.old self.new (Ask value.now)) }
        ensures same { SameSeat self.old self.new }
        ensures outputs { KeepsOutputs self.old self.new }
    {
        let mut says = Vec::new(alloc);
        self.service.input(alloc, value, &mut says)?;
        self.start_said(alloc, says.as_slice(), made)
    }

    /// Gives an item to its broadcast, and what is delivered by it to the service. Answers what changed, or `None` where the item
    /// repeats one.
    pub(crate) fn take(
        &mut self,
        alloc: Global,
        item: &Item,
        made: &mut Vec<Msg>,
    ) -> Result<Option<Change>, Mem>
        ensures given { let m = meaning S.stands S.rules S.shown E.stands E.rules E.shown C.bits T.me T.tags in
            GivesItem m self.old self.new item.now made.old.items made.new.items result }
        ensures same { SameSeat self.old self.new }
    {
        match take_cast(
            alloc,
            &self.params,
            &self.mode,
            self.me,
            &self.tagger,
            &mut self.casts,
            item,
            made,
        )? {
            Taken::Repeat => Ok(None),
            Taken::Took(None) => Ok(Some(quiet_change(item))),
            Taken::Took(Some(value)) => {
                self.hear(alloc, &item.slot, value.as_slice(), made)?;
                keep_output(&self.mode, &mut self.outputs, item.slot, value)?;
                Ok(Some(Change::Service))
            }
        }
    }

    /// What the window of a slot is counted from: the least command number that isn't finished, or how many rounds are
    /// complete.
    pub(crate) fn mark(&self, slot: &Slot) -> u32
        ensures rules { let m = meaning S.stands S.rules S.shown E.stands E.rules E.shown C.bits T.me T.tags in
            (p : Parts) → LayersStand m self.now p → slot.now.origin < self.now.params.n
            → result ≡ mark_of (rules_of m self.now) p slot.now }
        ensures shown { result ≡ mark_shown (S.shown self.now.service) slot.now }
    {
        mark(&self.service, slot)
    }

    /// Whether an item inside its window may be taken now.
    pub(crate) fn lets_in(&self, item: &Item) -> bool
        ensures { (p : Parts) → LayersStand (meaning S.stands S.rules S.shown E.stands E.rules E.shown C.bits T.me T.tags) self.now p
            → result ≡ is_let_in (meaning S.stands S.rules S.shown E.stands E.rules E.shown C.bits T.me T.tags) self.now p item.now }
    {
        self.service.is_open(&item.slot) && is_ready(&self.casts, item)
    }

    /// Whether a slot is past. In version 3 none is.
    pub(crate) fn is_past(&self, slot: &Slot) -> bool
        ensures rules { (p : Parts) → LayersStand (meaning S.stands S.rules S.shown E.stands E.rules E.shown C.bits T.me T.tags) self.now p
            → result ≡ is_past_in (meaning S.stands S.rules S.shown E.stands E.rules E.shown C.bits T.me T.tags) self.now p slot.now }
        ensures shown { result ≡ is_past_shown self.now.mode.version (S.shown self.now.service) self.now.params.n slot.now }
    {
        slot.origin < self.params.n() && is_behind(self.mode.version, slot, self.mark(slot))
    }

    /// Whether what a slot delivered isn't shown any more: in root services 3 to 7 that of a past slot isn't.
    pub(crate) fn hides(&self, slot: &Slot) -> bool
        ensures { result ≡ hides_shown self.now.mode (S.shown self.now.service) self.now.params.n slot.now }
    {
        !keeps_outputs(&self.mode) && self.is_past(slot)
    }

    /// What a slot delivered, as it was kept by itself, or as its broadcast has it.
    pub(crate) fn delivered(&self, slot: &Slot) -> Option<&[u8]>
        ensures { option_copied result ≡ layers_out (shown_by_cast E.shown) self.now slot.now }
    {
        if keeps_outputs(&self.mode) {
            match self.outputs.get(slot) {
                Some(value) => Some(value.as_slice()),
                None => None,
            }
        } else {
            match self.casts.find(slot) {
                Some(cast) => cast.delivered(),
                None => None,
            }
        }
    }

    /// Whether an item is open.
    pub(crate) fn is_open(&self, item: &Item) -> bool
        ensures { (p : Parts) → LayersStand (meaning S.stands S.rules S.shown E.stands E.rules E.shown C.bits T.me T.tags) self.now p
            → result ≡ is_open_in (meaning S.stands S.rules S.shown E.stands E.rules E.shown C.bits T.me T.tags) self.now p item.now }
    {
        if item.slot.origin >= self.params.n() {
            return false;
        }
        let mark = self.mark(&item.slot);
        !is_behind(self.mode.version, &item.slot, mark)
            && !is_beyond(&item.slot, mark)
            && self.lets_in(item)
    }

    /// Why no input may be given now.
    fn window_fault(&self) -> Option<CoreFault>
        ensures { let m = meaning S.stands S.rules S.shown E.stands E.rules E.shown C.bits T.me T.tags in
            (p : Parts) → LayersStand m self.now p → self.now.me < self.now.params.n
            → result ≡ window_fault (rules_of m self.now) p }
    {
        if self.service.given() {
            return Some(CoreFault::InputTaken);
        }
        let number = self.service.next_number();
        let base = self.service.base(self.me);
        if u64::from(number) >= u64::from(base) + u64::from(COMMAND_WINDOW)
            || number >= NUMBER_LIMIT
        {
            return Some(CoreFault::WindowFull(number));
        }
        None
    }

    /// The first check that an input doesn't pass.
    #[tactic(auto, unfolding(crate::specs::Checks::input_check))]
    pub(crate) fn input_fault(&self, value: &[u8]) -> Option<CoreFault>
        ensures exact { let m = meaning S.stands S.rules S.shown E.stands E.rules E.shown C.bits T.me T.tags in
            (p : Parts) → LayersStand m self.now p → self.now.me < self.now.params.n
            → result ≡ input_check (rules_of m self.now) p value.now }
        ensures good { result ≡ None → IsInput self.now.params self.now.mode value.now }
    {
        if let Some(place) = input_fault(&self.params, &self.mode, value) {
            return Some(CoreFault::Input(place));
        }
        self.window_fault()
    }
}
