//! Binary consensus as root service 3: one instance, whose input is a bit.

use crate::part::line_of;
use layer_api::{BinaryBox, Outcome, Service, vote_of};
use ritas_base::{Coin, Id, Mem, Mode, Params, Say, Slot};
use std::alloc::Global;

/// Binary consensus as a root service, for root service 3: one instance, over any box.
///
/// Its input is the byte of a bit, which it proposes. It has one round and attempt, of number 0, no commands and no
/// identifier log.
#[derive(Drop)]
pub struct BinRoot<B: BinaryBox> {
    inner: B,
    given: bool,
}

impl<B: BinaryBox> Service for BinRoot<B> {
    ghost use Rattle.std.specs.Prelude.{◌≡◌};
    ghost use Rattle.binary_consensus.specs.Root.{root_bench, binary_root};
    ghost use Rattle.binary_consensus.specs.Laws.RootWords.{root_word_laws};
    ghost use Rattle.binary_consensus.specs.Laws.RootLog.{root_one_log};
    ghost use Rattle.binary_consensus.specs.Laws.Opening.{root_opens_down};
    ghost use Rattle.binary_consensus.specs.RootStands.{BinaryRootStands, binary_root_shown, root_shows};

    ghost stands = { BinaryRootStands B.stands };

    ghost rules = { binary_root B.rules };

    ghost live = { λ s. B.live s.inner };

    ghost shown = { λ s. binary_root_shown (B.shown s.inner) s.given };

    fn serves(root: u8) -> bool {
        root == 3
    }

    fn new(alloc: Global, p: &Params, _mode: &Mode, me: u8) -> Result<BinRoot<B>, Mem> {
        Ok(BinRoot {
            inner: B::new(alloc, p, me, 0, 0)?,
            given: false,
        })
    }

    fn input(&mut self, alloc: Global, value: &[u8], says: &mut Vec<Say>) -> Result<(), Mem> {
        let taken = self.inner.propose(alloc, value == [1].as_slice(), says);
        if taken.is_ok() {
            self.given = true;
        }
        taken
    }

    fn heard<C: Coin>(
        &mut self,
        alloc: Global,
        coin: &C,
        slot: &Slot,
        value: &[u8],
        says: &mut Vec<Say>,
    ) -> Result<(), Mem> {
        self.inner.heard(alloc, coin, slot, vote_of(value), says)
    }

    fn is_open(&self, slot: &Slot) -> bool {
        self.given
            && slot.class == 5
            && slot.a == 0
            && slot.attempt == 0
            && line_of(slot).is_some()
            && u16::from(slot.bround) <= u16::from(self.inner.round()) + 1
    }

    fn completed(&self) -> u32 {
        0
    }

    fn base(&self, _origin: u8) -> u32 {
        0
    }

    fn next_number(&self) -> u32 {
        0
    }

    fn given(&self) -> bool {
        self.given
    }

    fn done(&self) -> &[Id] {
        &[]
    }

    fn outcome(&self) -> Outcome<'_> {
        match self.inner.decision() {
            Some(bit) => Outcome::Bit(bit),
            None if self.inner.rounds_over() => Outcome::Over,
            None => Outcome::Undecided,
        }
    }

    fn last_vector(&self) -> Option<(u32, u8, &[u8])> {
        None
    }

    fn live(&self) -> bool {
        self.inner.live()
    }

    ghost lives = { λ s seat w stands. (B.shows s.inner (root_bench seat) w stands.inner).0 };

    ghost shows = { λ s seat w stands. root_shows B.rules seat w (B.shown s.inner) s.given stands.given (B.shows s.inner (root_bench seat) w stands.inner).1 };

    ghost word_laws = { root_word_laws B.rules B.box_laws };

    ghost one_log = { root_one_log B.rules B.one_bit };

    ghost opens_down = { root_opens_down B.rules };
}
