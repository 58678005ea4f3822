//! What a call does: a proposal of one's own, or what a slot delivered.

ghost use Rattle.std.specs.Prelude.{◌≡◌, ℕ, [], ◌∷◌, IfOk};
ghost use Rattle.multivalued.specs.Holding.{StartsProposal, FollowsInit, FollowsVect, FollowsVote};
ghost use Rattle.multivalued.specs.Stands.{FollowsSlot, KeepsBox};

use crate::mvc::Mvc;
use crate::settling::{Progress, decide, settle};
use layer_api::{BinaryBox, vote_of};
use ritas_base::{Bytes, Coin, Mem, Say, Slot};
use std::alloc::Global;

/// Each of these says what follows from a call, and answers how far the box then has come.
impl<B: BinaryBox> Mvc<B> {
    /// It proposes a value.
    pub(crate) fn start(
        &mut self,
        alloc: Global,
        value: &[u8],
        made: &mut Vec<Say>,
    ) -> Result<Progress, Mem>
        ensures ok { IfOk result (λ next. StartsProposal B.stands B.rules self.old self.new next made.old.items made.new.items value.now) }
        ensures keeps { KeepsBox self.old self.new }
    {
        let value = Bytes::from_slice(alloc, value)?;
        let slot = self.part.slot(3);
        made.push(Say { slot, value })?;
        let own = Progress {
            own: true,
            ..self.place
        };
        settle(alloc, &self.part, own, &self.table, &mut self.inner, made)
    }

    /// It hears what replica k proposes.
    fn hear_init(
        &mut self,
        alloc: Global,
        k: u8,
        value: &[u8],
        made: &mut Vec<Say>,
    ) -> Result<Progress, Mem>
        ensures ok { IfOk result (λ next. FollowsInit B.stands B.rules self.old self.new next made.old.items made.new.items k value.now) }
        ensures keeps { KeepsBox self.old self.new }
    {
        self.table.hear_init(alloc, k, value)?;
        settle(
            alloc,
            &self.part,
            self.place,
            &self.table,
            &mut self.inner,
            made,
        )
    }

    /// It hears the VECT of replica k.
    fn hear_vect(
        &mut self,
        alloc: Global,
        k: u8,
        value: &[u8],
        made: &mut Vec<Say>,
    ) -> Result<Progress, Mem>
        ensures ok { IfOk result (λ next. FollowsVect B.stands B.rules self.old self.new next made.old.items made.new.items k value.now) }
        ensures keeps { KeepsBox self.old self.new }
    {
        self.table.hear_vect(alloc, k, value)?;
        settle(
            alloc,
            &self.part,
            self.place,
            &self.table,
            &mut self.inner,
            made,
        )
    }

    /// It hears a vote of the binary instance.
    fn hear_vote<C: Coin>(
        &mut self,
        alloc: Global,
        coin: &C,
        slot: &Slot,
        vote: u8,
        made: &mut Vec<Say>,
    ) -> Result<Progress, Mem>
        ensures ok { IfOk result (λ next. FollowsVote B.stands B.rules self.old self.new next made.old.items made.new.items (C.bits coin.now) slot.now vote) }
        ensures keeps { KeepsBox self.old self.new }
    {
        self.inner.heard(alloc, coin, slot, vote, made)?;
        Ok(Progress {
            round: self.inner.round(),
            decided: decide(self.place.decided, self.inner.decision(), &self.table),
            ..self.place
        })
    }

    /// It hears what a slot delivered.
    pub(crate) fn hear<C: Coin>(
        &mut self,
        alloc: Global,
        coin: &C,
        slot: &Slot,
        value: &[u8],
        made: &mut Vec<Say>,
    ) -> Result<Progress, Mem>
        ensures ok { IfOk result (λ next. FollowsSlot B.stands B.rules self.old self.new next made.old.items made.new.items (C.bits coin.now) slot.now value.now) }
        ensures keeps { KeepsBox self.old self.new }
    {
        match slot.class {
            3 => self.hear_init(alloc, slot.origin, value, made),
            4 => self.hear_vect(alloc, slot.origin, value, made),
            _ => self.hear_vote(alloc, coin, slot, vote_of(value), made),
        }
    }
}
