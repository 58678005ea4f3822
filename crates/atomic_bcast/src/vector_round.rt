//! A round of vector consensus: a vector of lists of identifiers is decided.

ghost use Rattle.std.specs.Prelude.{◌≡◌, OnOk, OnErr};

use layer_api::VectorBox;
use ordered_rounds::{Ordered, RoundBox, backed_ids};
use ritas_base::{Coin, Id, Mem, Params, RootService, Say, Slot};
use std::alloc::Global;

/// Atomic broadcast over any vector consensus, for root service 6.
///
/// The rounds are those of `Ordered`: each is one vector consensus on lists of identifiers, and wants those in the log
/// that stand in f + 1 of the vector's lists.
///
/// It is that of Correia, Neves and Veríssimo, "From Consensus to Atomic Broadcast: Time-Free Byzantine-Resistant
/// Protocols without Signatures" (The Computer Journal, 2006). That f + 1 lists must name an identifier is this project's
/// own profile.
pub type Abc<V> = Ordered<VectorRound<V>>;

/// One replica's part in a round of vector consensus: its box, and the round's number.
#[derive(Drop)]
pub struct VectorRound<V: VectorBox> {
    a: u32,
    inner: V,
}

impl<V: VectorBox> RoundBox for VectorRound<V> {
    ghost use Rattle.atomic_bcast.specs.VectorRounds.{by_vectors, VectorStands, vector_shown};
    ghost use Rattle.atomic_bcast.specs.Laws.VectorRounds.{vector_round_laws, one_vector_round};
    ghost use Rattle.atomic_bcast.specs.Laws.VectorShows.{vector_shows};

    ghost stands = { VectorStands V.stands };

    ghost rules = { by_vectors V.rules };

    ghost live = { λ x. V.live x.inner };

    ghost shown = { vector_shown V.shown };

    fn service() -> RootService {
        RootService::Atomic
    }

    fn new(alloc: Global, p: &Params, me: u8, a: u32) -> Result<VectorRound<V>, Mem> {
        Ok(VectorRound {
            a,
            inner: V::new(alloc, p, me, a)?,
        })
    }

    fn propose(&mut self, alloc: Global, value: &[u8], says: &mut Vec<Say>) -> Result<(), Mem> {
        self.inner.propose(alloc, value, says)
    }

    fn heard<C: Coin>(
        &mut self,
        alloc: Global,
        coin: &C,
        slot: &Slot,
        value: &[u8],
        says: &mut Vec<Say>,
    ) -> Result<(), Mem> {
        self.inner.heard(alloc, coin, slot, value, says)
    }

    fn is_open(&self, slot: &Slot) -> bool {
        self.inner.is_open(slot)
    }

    fn decision(&self) -> Option<&[u8]> {
        self.inner.decision()
    }

    fn wanted(alloc: Global, p: &Params, decided: &[u8]) -> Result<Vec<Id>, Mem> {
        backed_ids(alloc, p, decided)
    }

    fn vector(&self) -> Option<(u32, u8, &[u8])> {
        Some((self.a, self.inner.decided_try()?, self.inner.decision()?))
    }

    fn spent(&self) -> bool {
        self.inner.spent()
    }

    fn live(&self) -> bool {
        self.inner.live()
    }

    ghost shows = { vector_shows V.stands V.rules V.live V.shown V.shows };

    ghost round_laws = { vector_round_laws V.rules V.vector_laws };

    ghost one_round = { one_vector_round V.rules V.vector_laws V.one_vector };

    ghost opens_down = { V.opens_down };
}
