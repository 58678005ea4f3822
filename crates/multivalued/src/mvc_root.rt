//! Multi-valued consensus as root service 4: one instance, whose input is a value.

use crate::opening::is_slot_of;
use layer_api::{Decided, MultiBox, Outcome, Service};
use ritas_base::{Coin, Id, Mem, Mode, Params, Say, Slot};
use std::alloc::Global;

/// Multi-valued consensus as a root service, for root service 4: one instance, over any box.
///
/// Its input is a value of class 3, which it proposes. It has one round and attempt, of number 0, no commands and no
/// identifier log.
#[derive(Drop)]
pub struct MvcRoot<M: MultiBox> {
    inner: M,
    given: bool,
}

impl<M: MultiBox> Service for MvcRoot<M> {
    ghost use Rattle.std.specs.Prelude.{◌≡◌};
    ghost use Rattle.multivalued.specs.Root.{multi_root_desk, multi_root};
    ghost use Rattle.multivalued.specs.Laws.RootWords.{root_word_laws};
    ghost use Rattle.multivalued.specs.Laws.RootLog.{root_log};
    ghost use Rattle.multivalued.specs.Laws.Opening.{root_opens_down};
    ghost use Rattle.multivalued.specs.RootStands.{MultiRootStands, multi_root_shown, root_shows};

    ghost stands = { MultiRootStands M.stands };

    ghost rules = { multi_root M.rules };

    ghost live = { λ s. M.live s.inner };

    ghost shown = { λ s. multi_root_shown (M.shown s.inner) s.given };

    fn serves(root: u8) -> bool {
        root == 4
    }

    fn new(alloc: Global, p: &Params, _mode: &Mode, me: u8) -> Result<MvcRoot<M>, Mem> {
        Ok(MvcRoot {
            inner: M::new(alloc, p, me, 0, 0)?,
            given: false,
        })
    }

    fn input(&mut self, alloc: Global, value: &[u8], says: &mut Vec<Say>) -> Result<(), Mem> {
        let taken = self.inner.propose(alloc, value, says);
        if taken.is_ok() {
            self.given = true;
        }
        taken
    }

    fn heard<C: Coin>(
        &mut self,
        alloc: Global,
        coin: &C,
        slot: &Slot,
        value: &[u8],
        says: &mut Vec<Say>,
    ) -> Result<(), Mem> {
        self.inner.heard(alloc, coin, slot, value, says)
    }

    fn is_open(&self, slot: &Slot) -> bool {
        is_slot_of(0, 0, slot) && self.inner.is_open(slot)
    }

    fn completed(&self) -> u32 {
        0
    }

    fn base(&self, _origin: u8) -> u32 {
        0
    }

    fn next_number(&self) -> u32 {
        0
    }

    fn given(&self) -> bool {
        self.given
    }

    fn done(&self) -> &[Id] {
        &[]
    }

    fn outcome(&self) -> Outcome<'_> {
        match self.inner.decision() {
            Decided::NotYet => Outcome::Undecided,
            Decided::Nothing => Outcome::Nothing,
            Decided::Value(value) => Outcome::Value(value),
        }
    }

    fn last_vector(&self) -> Option<(u32, u8, &[u8])> {
        None
    }

    fn live(&self) -> bool {
        self.inner.live()
    }

    ghost lives = { λ s seat w stands. (M.shows s.inner (multi_root_desk seat) w stands.inner).0 };

    ghost shows = { λ s seat w stands. root_shows M.rules seat w (M.shown s.inner) s.given stands.given (M.shows s.inner (multi_root_desk seat) w stands.inner).1 };

    ghost word_laws = { root_word_laws M.rules M.multi_laws };

    ghost one_log = { root_log M.rules M.one_decision };

    ghost opens_down = { root_opens_down M.rules M.opens_down };
}
