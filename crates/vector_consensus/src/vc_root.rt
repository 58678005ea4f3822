//! Vector consensus as root service 5: one instance, whose input is a value.

use layer_api::{Outcome, Service, VectorBox, is_slot_in};
use ritas_base::{Coin, Id, Mem, Mode, Params, Say, Slot};
use std::alloc::Global;

/// Vector consensus as a root service, for root service 5: one instance, over any box.
///
/// Its input is a value of class 2, which it proposes. It has one round, of number 0, no commands and no
/// identifier log.
#[derive(Drop)]
pub struct VcRoot<V: VectorBox> {
    inner: V,
    f: u8,
    given: bool,
}

impl<V: VectorBox> Service for VcRoot<V> {
    ghost use Rattle.std.specs.Prelude.{◌≡◌};
    ghost use Rattle.vector_consensus.specs.Root.{vector_root_desk, vector_root};
    ghost use Rattle.vector_consensus.specs.Laws.RootWords.{root_word_laws};
    ghost use Rattle.vector_consensus.specs.Laws.RootLog.{root_log};
    ghost use Rattle.vector_consensus.specs.Laws.Opening.{root_opens_down};
    ghost use Rattle.vector_consensus.specs.RootStands.{VectorRootStands, vector_root_shown, root_shows};

    ghost stands = { VectorRootStands V.stands };

    ghost rules = { vector_root V.rules };

    ghost live = { λ s. V.live s.inner };

    ghost shown = { λ s. vector_root_shown s.f (V.shown s.inner) s.given };

    fn serves(root: u8) -> bool {
        root == 5
    }

    fn new(alloc: Global, p: &Params, _mode: &Mode, me: u8) -> Result<VcRoot<V>, Mem> {
        Ok(VcRoot {
            inner: V::new(alloc, p, me, 0)?,
            f: p.f(),
            given: false,
        })
    }

    fn input(&mut self, alloc: Global, value: &[u8], says: &mut Vec<Say>) -> Result<(), Mem> {
        let taken = self.inner.propose(alloc, value, says);
        if taken.is_ok() {
            self.given = true;
        }
        taken
    }

    fn heard<C: Coin>(
        &mut self,
        alloc: Global,
        coin: &C,
        slot: &Slot,
        value: &[u8],
        says: &mut Vec<Say>,
    ) -> Result<(), Mem> {
        self.inner.heard(alloc, coin, slot, value, says)
    }

    fn is_open(&self, slot: &Slot) -> bool {
        is_slot_in(self.f, 0, slot) && self.inner.is_open(slot)
    }

    fn completed(&self) -> u32 {
        0
    }

    fn base(&self, _origin: u8) -> u32 {
        0
    }

    fn next_number(&self) -> u32 {
        0
    }

    fn given(&self) -> bool {
        self.given
    }

    fn done(&self) -> &[Id] {
        &[]
    }

    fn outcome(&self) -> Outcome<'_> {
        match self.inner.decision() {
            Some(value) => Outcome::Value(value),
            None if self.inner.spent() => Outcome::Spent,
            None => Outcome::Undecided,
        }
    }

    fn last_vector(&self) -> Option<(u32, u8, &[u8])> {
        Some((0, self.inner.decided_try()?, self.inner.decision()?))
    }

    fn live(&self) -> bool {
        self.inner.live()
    }

    ghost lives = { λ s seat w stands. (V.shows s.inner (vector_root_desk seat) w stands.inner).0 };

    ghost shows = { λ s seat w stands. root_shows V.rules seat w (V.shown s.inner) s.f s.given stands.f stands.given (V.shows s.inner (vector_root_desk seat) w stands.inner).1 };

    ghost word_laws = { root_word_laws V.rules V.vector_laws };

    ghost one_log = { root_log V.rules V.one_vector };

    ghost opens_down = { root_opens_down V.rules V.opens_down };
}
