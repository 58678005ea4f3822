//! The boxes of the rounds that are kept.

ghost use Rattle.std.specs.Prelude.{◌≡◌, ℕ, suc, max, true, None, Some, [], option_copied, option_map, OnOk};
ghost use Rattle.std.specs.VecDeque.{deque_capacity};
ghost use Rattle.ritas_base.specs.Versions.{has_past};
ghost use Rattle.layer_api.specs.Windows.{rounds_kept};
ghost use Rattle.ordered_rounds.specs.Boxes.{box_at, opens_in, spent_in, vector_by_box, last_in, older_then, HasRoom, BoxHears, HearsBox};

use crate::round_box::RoundBox;
use layer_api::ROUNDS_KEPT;
use ritas_base::{Coin, FrameVersion, Mem, Say, Slot};
use std::alloc::Global;
use std::collections::VecDeque;

/// The boxes of the current round, once it began, and of rounds before it: where there is a past, of the two
/// before it, and where there is none, of all.
#[derive(Drop)]
pub(crate) struct Boxes<V: RoundBox> {
    /// Of the current round, once it began.
    pub(crate) current: Option<V>,
    /// Of the rounds before it, the latest first.
    pub(crate) older: VecDeque<V>,
}

// Whether the box, where there is one, takes items of the slot.
fn opens<V: RoundBox>(one: Option<&V>, slot: &Slot) -> bool
    ensures { result ≡ opens_in V.shown (option_copied one.entry) slot.now }
{
    match one {
        Some(one) => one.is_open(slot),
        None => false,
    }
}

// The box, where there is one, hears what a slot delivered.
fn hear<V: RoundBox, C: Coin>(
    alloc: Global,
    coin: &C,
    one: &mut Option<V>,
    slot: &Slot,
    value: &[u8],
    made: &mut Vec<Say>,
) -> Result<(), Mem>
    ensures { BoxHears V.stands V.rules V.live V.shown (C.bits coin.now) one.old one.new slot.now value.now made.old.items made.new.items result }
{
    match one {
        Some(one) => one.heard(alloc, coin, slot, value, made),
        None => Ok(()),
    }
}

// The vector of a round, where the round's box decided one.
fn vector_in<V: RoundBox>(one: Option<&V>) -> Option<(u32, u8, &[u8])>
    ensures { option_map (λ x. record { round = x.0; attempt = x.1; value = x.2.now }) result ≡ vector_by_box V.shown (option_copied one.entry) }
{
    match one {
        Some(one) => one.vector(),
        None => None,
    }
}

impl<V: RoundBox> Boxes<V> {
    /// No round began. It takes no memory.
    pub(crate) fn none(alloc: Global) -> Boxes<V>
        ensures current { result.current ≡ None }
        ensures older { result.older.items ≡ [] }
    {
        Boxes {
            current: None,
            older: VecDeque::new(alloc),
        }
    }

    // The box of the round so many before the current one.
    fn at(&self, before: u32) -> Option<&V>
        ensures { option_copied result ≡ box_at self.now before }
    {
        match before {
            0 => self.current.as_ref(),
            _ => self.older.get(before as usize - 1),
        }
    }

    /// Whether the box of the round so many before the current one takes items of the slot.
    pub(crate) fn is_open(&self, before: u32, slot: &Slot) -> bool
        ensures { result ≡ opens_in V.shown (box_at self.now before) slot.now }
    {
        opens(self.at(before), slot)
    }

    /// Whether the current round began and is spent.
    pub(crate) fn is_spent(&self) -> bool
        ensures { result ≡ spent_in V.shown self.now.current }
    {
        match &self.current {
            Some(one) => one.spent(),
            None => false,
        }
    }

    /// The last vector that is decided, where so many rounds are complete: that of the current round, or of the one before it.
    pub(crate) fn last_vector(&self, completed: u32) -> Option<(u32, u8, &[u8])>
        ensures { option_map (λ x. record { round = x.0; attempt = x.1; value = x.2.now }) result ≡ last_in V.shown completed self.now }
    {
        match vector_in(self.at(0)) {
            Some(found) => Some(found),
            None if completed > 0 => vector_in(self.at(1)),
            None => None,
        }
    }

    // The box of the older round at this place hears what a slot delivered.
    fn older_heard<C: Coin>(
        &mut self,
        alloc: Global,
        coin: &C,
        place: usize,
        slot: &Slot,
        value: &[u8],
        made: &mut Vec<Say>,
    ) -> Result<(), Mem>
        ensures { (k : ℕ) → k ≡ suc place
            → HearsBox V.stands V.rules V.live V.shown (C.bits coin.now) k self.old self.new slot.now value.now made.old.items made.new.items result }
    {
        match self.older.get_mut(place) {
            Some(one) => one.heard(alloc, coin, slot, value, made),
            None => Ok(()),
        }
    }

    /// The box of the round so many before the current one hears what a slot delivered, and says what follows.
    pub(crate) fn heard<C: Coin>(
        &mut self,
        alloc: Global,
        coin: &C,
        before: u32,
        slot: &Slot,
        value: &[u8],
        made: &mut Vec<Say>,
    ) -> Result<(), Mem>
        ensures { HearsBox V.stands V.rules V.live V.shown (C.bits coin.now) before self.old self.new slot.now value.now made.old.items made.new.items result }
    {
        match before {
            0 => hear(alloc, coin, &mut self.current, slot, value, made),
            _ => self.older_heard(alloc, coin, before as usize - 1, slot, value, made),
        }
    }

    /// Takes the memory that `shift` needs: where there is a past, for two boxes and no more. For want of memory
    /// the boxes stay as they were.
    pub(crate) fn reserve(&mut self, version: FrameVersion) -> Result<(), Mem>
        ensures current { self.new.current ≡ self.old.current }
        ensures older { self.new.older.items ≡ self.old.older.items }
        ensures room { OnOk result (HasRoom version self.new) }
        ensures few { OnOk result (has_past version ≡ true
            → deque_capacity self.new.older ≡ max (deque_capacity self.old.older) rounds_kept) }
    {
        if version.has_past() {
            let room = (ROUNDS_KEPT as usize).saturating_sub(self.older.len());
            self.older.reserve_exact(room)?;
        } else {
            self.older.reserve(1)?;
        }
        Ok(())
    }

    /// The current round is complete: its box is now that of the round before the current one. Where there is a past,
    /// the oldest is dropped if there are three then. It takes no memory.
    pub(crate) fn shift(&mut self, version: FrameVersion)
        requires room { HasRoom version self.old }
        ensures current { self.new.current ≡ None }
        ensures older { (one : V) → self.old.current ≡ Some one
            → self.new.older.items ≡ older_then version self.old.older.items one }
    {
        if version.has_past() {
            self.older.truncate(ROUNDS_KEPT as usize - 1);
        }
        if let Some(one) = self.current.take() {
            self.older.push_front_reserved(one);
        }
    }
}
