//! What a core shows. No getter takes memory.

use crate::cast::Cast;
use crate::kernel::Core;
use instance_tree::Tree;
use layer_api::{Broadcast, Service};
use ritas_base::{Coin, Item, Mode, Params, Slot, Tagger};

impl<S: Service, E: Broadcast, C: Coin + Drop, T: Tagger + Drop> Core<S, E, C, T> {
    ghost use Rattle.std.specs.Prelude.{◌≡◌, ◌⊎◌, true, length, IfSome};
    ghost use Rattle.std.specs.Option.{is_some, option_copied};
    ghost use Rattle.std.specs.FinMap.{get};
    ghost use Rattle.ritas_base.specs.declared.slot.Slot.{Slot};
    ghost use Rattle.layer_api.specs.ServiceCalls.{ShowsBetween};
    ghost use Rattle.ooc_buffers.specs.Lists.{held_bytes};
    ghost use Rattle.ritas_core.specs.Rules.{Rules, seat_of, route_of};
    ghost use Rattle.ritas_core.specs.Parts.{parts};
    ghost use Rattle.ritas_core.specs.Machine.{CoreState, with_lost};
    ghost use Rattle.ritas_core.specs.Stands.{meaning, CoreStands};
    ghost use Rattle.ritas_core.specs.Shown.{params_of, mode_of, me_of, tagger_of, first_waiting, all_bytes, delivered_at, shown_at, keeps_broadcast};
    ghost use Rattle.ritas_core.specs.SlotCast.{shown_by_cast, route_of_cast};

    /// The numbers of the session.
    pub fn params(&self) -> &Params
        ensures value { result.now ≡ params_of self.now }
        ensures rules { let m = meaning S.stands S.rules S.shown E.stands E.rules E.shown C.bits T.me T.tags in
            (r : Rules) (st : CoreState) → CoreStands m self.now r st → result.now ≡ r.casts.numbers }
    {
        &self.layers.params
    }

    /// The root service, and the switch for VECT.
    pub fn mode(&self) -> &Mode
        ensures value { result.now ≡ mode_of self.now }
        ensures rules { let m = meaning S.stands S.rules S.shown E.stands E.rules E.shown C.bits T.me T.tags in
            (r : Rules) (st : CoreState) → CoreStands m self.now r st → result.now ≡ r.mode }
    {
        &self.layers.mode
    }

    /// The number of this replica.
    pub fn me(&self) -> u8
        ensures value { result ≡ me_of self.now }
        ensures rules { let m = meaning S.stands S.rules S.shown E.stands E.rules E.shown C.bits T.me T.tags in
            (r : Rules) (st : CoreState) → CoreStands m self.now r st → result ≡ r.casts.me }
    {
        self.layers.me
    }

    /// What this replica tags with.
    pub fn tagger(&self) -> &T
        ensures value { result.now ≡ tagger_of self.now }
        ensures rules { let m = meaning S.stands S.rules S.shown E.stands E.rules E.shown C.bits T.me T.tags in
            (r : Rules) (st : CoreState) → CoreStands m self.now r st
            → (T.me result.now ≡ r.casts.me) × (T.tags result.now ≡ r.casts.tags) }
    {
        &self.layers.tagger
    }

    /// How many items wait.
    pub fn inbox_len(&self) -> usize
        ensures { let m = meaning S.stands S.rules S.shown E.stands E.rules E.shown C.bits T.me T.tags in
            (r : Rules) (st : CoreState) → CoreStands m self.now r st → result ≡ length st.inbox }
    {
        self.inbox.len()
    }

    /// The item that waits first, which the next turn takes.
    pub fn inbox_front(&self) -> Option<&Item>
        ensures { let m = meaning S.stands S.rules S.shown E.stands E.rules E.shown C.bits T.me T.tags in
            (r : Rules) (st : CoreState) → CoreStands m self.now r st
            → option_copied result ≡ first_waiting st.inbox }
    {
        self.inbox.front()
    }

    /// How many bytes are held, over all peers.
    pub fn held(&self) -> u64
        ensures { let m = meaning S.stands S.rules S.shown E.stands E.rules E.shown C.bits T.me T.tags in
            (r : Rules) (st : CoreState) → CoreStands m self.now r st → result ≡ all_bytes st.held }
    {
        let mut sum: u64 = 0;
        for peer in 0..self.layers.params.n() {
            sum += u64::from(self.held.bytes(peer));
        }
        sum
    }

    /// How many bytes are held for one peer.
    pub fn held_of(&self, peer: u8) -> u32
        ensures { let m = meaning S.stands S.rules S.shown E.stands E.rules E.shown C.bits T.me T.tags in
            (r : Rules) (st : CoreState) → CoreStands m self.now r st
            → result ≡ held_bytes st.held peer }
    {
        self.held.bytes(peer)
    }

    /// The service. Each of its getters answers as after the core's history, or, once the core is stopped, as after that with
    /// what the stop lost.
    pub fn service(&self) -> &S
        ensures shown { let m = meaning S.stands S.rules S.shown E.stands E.rules E.shown C.bits T.me T.tags in
            (r : Rules) (st : CoreState) → CoreStands m self.now r st
            → ShowsBetween r.service (seat_of r) (parts r st.history).words (parts r (with_lost st)).words (S.shown result.now) }
        ensures live { let m = meaning S.stands S.rules S.shown E.stands E.rules E.shown C.bits T.me T.tags in
            (r : Rules) (st : CoreState) → CoreStands m self.now r st → st.live ≡ true
            → S.stands result.now (seat_of r) (parts r st.history).words }
    {
        &self.layers.service
    }

    /// What a slot delivered. `None` is answered exactly where it delivered nothing, and in root services 3 to 7 also where
    /// the slot is past: its round plus 2 is less than how many rounds are complete, or its command number plus 64 is less than
    /// the least of its origin that isn't finished. In root services 1 and 2, and in version 3 where no slot is past, every
    /// slot's delivery is answered.
    ///
    /// It is so by the core's history, or, once the core is stopped, by that or by that with what the stop lost.
    pub fn delivered(&self, slot: &Slot) -> Option<&[u8]>
        ensures shown { let m = meaning S.stands S.rules S.shown E.stands E.rules E.shown C.bits T.me T.tags in
            (r : Rules) (st : CoreState) → CoreStands m self.now r st
            → (option_copied result ≡ shown_at r st.history slot.now) ⊎ (option_copied result ≡ shown_at r (with_lost st) slot.now) }
        ensures live { let m = meaning S.stands S.rules S.shown E.stands E.rules E.shown C.bits T.me T.tags in
            (r : Rules) (st : CoreState) → CoreStands m self.now r st → st.live ≡ true
            → option_copied result ≡ shown_at r st.history slot.now }
    {
        if self.layers.hides(slot) {
            return None;
        }
        self.layers.delivered(slot)
    }

    /// The broadcasts, by their slots. While the core isn't stopped, exactly those slots have one that aren't past and at which the
    /// core took an item or started a broadcast, and each has delivered what its slot has. In version 3 no slot is past, so every
    /// slot that had such a call keeps its broadcast while the core lasts.
    ///
    /// Those of class 4, and in root service 2 those of class 1, are `Other`. The others are `Plain` in version 1 of frames and
    /// `Digest` in version 2; in version 3 those of class 5 are `Plain`, and the rest `Digest`.
    pub fn broadcasts(&self) -> &Tree<Cast<E>>
        ensures kept { let m = meaning S.stands S.rules S.shown E.stands E.rules E.shown C.bits T.me T.tags in
            (r : Rules) (st : CoreState) → CoreStands m self.now r st → st.live ≡ true → (s : Slot)
            → is_some (get result.now s) ≡ keeps_broadcast r st.history s }
        ensures delivered { let m = meaning S.stands S.rules S.shown E.stands E.rules E.shown C.bits T.me T.tags in
            (r : Rules) (st : CoreState) → CoreStands m self.now r st → st.live ≡ true → (s : Slot)
            → IfSome (get result.now s) (λ b. (shown_by_cast E.shown b).out ≡ delivered_at r st.history s) }
        ensures route { let m = meaning S.stands S.rules S.shown E.stands E.rules E.shown C.bits T.me T.tags in
            (r : Rules) (st : CoreState) → CoreStands m self.now r st → st.live ≡ true → (s : Slot)
            → IfSome (get result.now s) (λ b. route_of_cast b ≡ route_of r.mode s) }
    {
        &self.layers.casts
    }

    /// Whether no call on this core was without memory, but for one that only was to hold an item.
    pub fn live(&self) -> bool
        ensures { let m = meaning S.stands S.rules S.shown E.stands E.rules E.shown C.bits T.me T.tags in
            (r : Rules) (st : CoreState) → CoreStands m self.now r st → result ≡ st.live }
    {
        !self.stopped
    }
}
