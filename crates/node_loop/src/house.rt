//! The replicas that are served.
ghost use Rattle.std.specs.Prelude.{◌≡◌, ℕ, ◌&&◌, Some, List, length, nat_le, if◌then◌else◌};
ghost use Rattle.ritas_base.specs.declared.event.Event.{Event};
ghost use Rattle.ritas_core.specs.Machine.{CoreState};
ghost use Rattle.world_model.specs.World.{Setting, states_of};
ghost use Rattle.world_model.specs.Stands.{IsReplica};
ghost use Rattle.world_model.specs.Agree.{rows_at};
ghost use Rattle.node_loop.specs.Meanings.{meaning_of};
ghost use Rattle.node_loop.specs.Serving.{is_busy};
ghost use Rattle.node_loop.specs.Standing.{is_before_other};

use crate::output::{More, Output};
use crate::peers::{Keeper, Pair, version_of};
use crate::waiting::Waiters;
use layer_api::{Broadcast, Service};
use replica::Replica;
use ritas_base::{Coin, Mem};
use std::alloc::Global;

/// The replicas that are here, who waits at them, and what is kept for the peers of each.
#[derive(Drop)]
pub(crate) struct House<S: Service, E: Broadcast, C: Coin + Drop> {
    pub replicas: Vec<Replica<S, E, C>>,
    pub waiting: Waiters,
    pub keepers: Vec<Keeper>,
}

/// Whether a number is less than the least one, if there is one.
pub(crate) fn is_less(number: u8, least: Option<u8>) -> bool
    ensures value { result ≡ is_before_other number least }
{
    match least {
        Some(other) => number < other,
        None => true,
    }
}

/// The number of a replica.
pub(crate) fn number_of<S: Service, E: Broadcast, C: Coin + Drop>(replica: &Replica<S, E, C>) -> u8
    ensures number { let m = meaning_of S.Service E.Broadcast C.Coin in
        (w : Setting) (states : ℕ → CoreState) (i : ℕ) → IsReplica m w states i replica.now → result ≡ (w.keys i).me }
{
    replica.keys().me()
}

// Whether an item waits at a replica.
fn is_busy<S: Service, E: Broadcast, C: Coin + Drop>(replica: &Replica<S, E, C>) -> bool
    ensures busy { let m = meaning_of S.Service E.Broadcast C.Coin in
        (w : Setting) (states : ℕ → CoreState) (i : ℕ) → IsReplica m w states i replica.now → result ≡ is_busy (states i).inbox }
{
    replica.core().inbox_len() > 0
}

// Whether the log of a replica has so many rows.
fn has_rows<S: Service, E: Broadcast, C: Coin + Drop>(
    replica: &Replica<S, E, C>,
    count: u32,
) -> bool
    ensures enough { let m = meaning_of S.Service E.Broadcast C.Coin in
        (w : Setting) (es : List Event) (i : ℕ) → IsReplica m w (states_of w es) i replica.now → result ≡ nat_le count (length (rows_at w es i)) }
{
    replica.log().len() >= count
}

// The replica's number, if an item waits at it and the number is less than the least one; else this.
fn lesser<S: Service, E: Broadcast, C: Coin + Drop>(
    replica: &Replica<S, E, C>,
    least: Option<u8>,
) -> Option<u8>
    ensures least { let m = meaning_of S.Service E.Broadcast C.Coin in
        (w : Setting) (states : ℕ → CoreState) (i : ℕ) → IsReplica m w states i replica.now
        → result ≡ (if is_busy (states i).inbox && is_before_other (w.keys i).me least then Some (w.keys i).me else least) }
{
    let number = number_of(replica);
    if is_busy(replica) && is_less(number, least) {
        Some(number)
    } else {
        least
    }
}

impl<S: Service, E: Broadcast, C: Coin + Drop> House<S, E, C> {
    ghost use Rattle.std.specs.Prelude.{◌≡◌, ℕ, ◌<◌, ◌&&◌, nat_lt, [], ◌∷◌, ◌++◌, length};
    ghost use Rattle.std.specs.Prelude.{List, true, false, MatchOption, Some, None, IfOk, OnErr, if◌then◌else◌};
    ghost use Rattle.std.specs.List.{slice_get};
    ghost use Rattle.ritas_base.specs.declared.event.Event.{Event};
    ghost use Rattle.world_model.specs.World.{Setting};
    ghost use Rattle.node_loop.specs.Meanings.{meaning_of};
    ghost use Rattle.node_loop.specs.declared.peers.Pair.{Pair as APair};
    ghost use Rattle.node_loop.specs.Waiting.{Waiting, nobody};
    ghost use Rattle.node_loop.specs.Calls.{silent};
    ghost use Rattle.node_loop.specs.Peers.{Peers, no_peers, with_mark};
    ghost use Rattle.node_loop.specs.Resending.{asks_for_more, peers_due, due};
    ghost use Rattle.node_loop.specs.Serving.{here, busy, has_enough_rows};
    ghost use Rattle.node_loop.specs.Served.{AreHere};
    ghost use Rattle.node_loop.specs.Standing.{HouseStands, IsMore, ComesOut, is_before_other};

    /// These replicas, at which nobody waits, and for whose peers nothing is kept. The one error is want of memory, and then the
    /// replicas are as they were.
    pub(crate) fn new(
        alloc: Global,
        replicas: &mut Vec<Replica<S, E, C>>,
    ) -> Result<House<S, E, C>, Mem>
        ensures stands { let m = meaning_of S.Service E.Broadcast C.Coin in
            (w : Setting) (es : List Event) (numbers : List ℕ) → AreHere m w es numbers replicas.old.items
            → IfOk result (λ house. HouseStands m w es numbers house nobody no_peers) }
        ensures err { OnErr result (replicas.new ≡ replicas.old) }
    {
        let mut keepers = Vec::new(alloc);
        for replica in replicas.iter() {
            keepers.push(Keeper::new(alloc, replica.keys().n(), version_of(replica))?)?;
        }
        Ok(House {
            replicas: std::mem::replace(replicas, Vec::new(alloc)),
            waiting: Waiters::new(alloc),
            keepers,
        })
    }

    /// Where the replica of a number stands, if it is here.
    pub(crate) fn place_of(&self, at: u8) -> Option<usize>
        ensures place { let m = meaning_of S.Service E.Broadcast C.Coin in
            (w : Setting) (es : List Event) (numbers : List ℕ) → AreHere m w es numbers self.now.replicas.items
            → MatchOption result (w.is_correct at ≡ false) (λ k. (w.is_correct at ≡ true) × (slice_get numbers k ≡ Some at)) }
    {
        for (place, replica) in self.replicas.iter().enumerate() {
            if number_of(replica) == at {
                return Some(place);
            }
        }
        None
    }

    /// The least number of a replica at which an item waits.
    pub(crate) fn least_busy(&self) -> Option<u8>
        ensures least { let m = meaning_of S.Service E.Broadcast C.Coin in
            (w : Setting) (es : List Event) (numbers : List ℕ) → AreHere m w es numbers self.now.replicas.items
            → MatchOption result (busy w es ≡ []) (λ i. (more : List ℕ) × (busy w es ≡ i ∷ more)) }
    {
        let mut least: Option<u8> = None;
        for replica in &self.replicas {
            least = lesser(replica, least);
        }
        least
    }

    // The peer of the replica at a place that is to be asked to send again, the least if there are several.
    fn due_at(&self, place: usize) -> Option<u8>
        ensures first { let m = meaning_of S.Service E.Broadcast C.Coin in
            (w : Setting) (es : List Event) (numbers : List ℕ) (ws : Waiting) (p : Peers) (at : ℕ) → HouseStands m w es numbers self.now ws p
            → slice_get numbers place ≡ Some at
            → MatchOption result (peers_due w es p at ≡ [])
            (λ j. (more : List APair) × (peers_due w es p at ≡ record { at = at; peer = j } ∷ more)) }
    {
        self.keepers.get(place)?.due(self.replicas.get(place)?)
    }

    // The number of the replica at a place, if a peer of it is to be asked to send again and the number is less than the least one; else
    // this.
    fn lesser_wishing(&self, place: usize, number: u8, least: Option<u8>) -> Option<u8>
        ensures least { let m = meaning_of S.Service E.Broadcast C.Coin in
            (w : Setting) (es : List Event) (numbers : List ℕ) (ws : Waiting) (p : Peers) (at : ℕ) → HouseStands m w es numbers self.now ws p
            → slice_get numbers place ≡ Some at
            → result ≡ (if nat_lt 0 (length (peers_due w es p at)) && is_before_other number least then Some number else least) }
    {
        if self.due_at(place).is_some() && is_less(number, least) {
            Some(number)
        } else {
            least
        }
    }

    // The least number of a replica that has a peer which is to be asked to send again.
    fn least_wishing(&self) -> Option<u8>
        ensures least { let m = meaning_of S.Service E.Broadcast C.Coin in
            (w : Setting) (es : List Event) (numbers : List ℕ) (ws : Waiting) (p : Peers) → HouseStands m w es numbers self.now ws p
            → MatchOption result (due w es (here w) p ≡ []) (λ i. (more : List APair) × (w.is_correct i ≡ true)
            × (nat_lt 0 (length (peers_due w es p i)) ≡ true) × (due w es (here w) p ≡ peers_due w es p i ++ more)) }
    {
        let mut least: Option<u8> = None;
        for (place, replica) in self.replicas.iter().enumerate() {
            least = self.lesser_wishing(place, number_of(replica), least);
        }
        least
    }

    /// The least peer, of the least replica that has one, which is to be asked to send again.
    pub(crate) fn least_due(&self) -> Option<Pair>
        ensures first { let m = meaning_of S.Service E.Broadcast C.Coin in
            (w : Setting) (es : List Event) (numbers : List ℕ) (ws : Waiting) (p : Peers) → HouseStands m w es numbers self.now ws p
            → MatchOption result (due w es (here w) p ≡ []) (λ pair. (more : List APair) × (due w es (here w) p ≡ pair ∷ more)) }
    {
        let at = self.least_wishing()?;
        let peer = self.due_at(self.place_of(at)?)?;
        Some(Pair { at, peer })
    }

    // A peer of the replica at a place isn't marked any more.
    fn unmark(&mut self, place: usize, peer: u8)
        ensures unmarks { let m = meaning_of S.Service E.Broadcast C.Coin in
            (w : Setting) (es : List Event) (numbers : List ℕ) (ws : Waiting) (p : Peers) (at : ℕ) → HouseStands m w es numbers self.old ws p
            → slice_get numbers place ≡ Some at → HouseStands m w es numbers self.new ws (with_mark at peer None p) }
    {
        if let Some(keeper) = self.keepers.get_mut(place) {
            keeper.unmark(peer);
        }
    }

    // The note that asks a peer of the replica at a place to send again.
    fn again_to(&self, place: usize, peer: u8) -> More
        ensures note { let m = meaning_of S.Service E.Broadcast C.Coin in
            (w : Setting) (es : List Event) (numbers : List ℕ) (ws : Waiting) (p : Peers) (at : ℕ) → HouseStands m w es numbers self.now ws p
            → slice_get numbers place ≡ Some at → peer < w.numbers.n → IsMore w at result (asks_for_more w.mode.version at peer p) }
    {
        let Some(replica) = self.replicas.get(place) else {
            return More::Nothing;
        };
        let Some(keeper) = self.keepers.get(place) else {
            return More::Nothing;
        };
        let channel = replica.channel();
        if peer >= channel.keys().n() {
            return More::Nothing;
        }
        More::Note {
            peer,
            bytes: channel.seal_again(peer, keeper.wanted_from(peer)),
        }
    }

    /// A peer of a replica is asked to send again, and isn't marked any more.
    pub(crate) fn remind(&mut self, pair: Pair, output: &mut Output)
        ensures comes { let m = meaning_of S.Service E.Broadcast C.Coin in
            (w : Setting) (es : List Event) (numbers : List ℕ) (ws : Waiting) (p : Peers) → HouseStands m w es numbers self.old ws p
            → w.is_correct pair.at ≡ true → pair.peer < w.numbers.n
            → ComesOut m w es numbers self.new output.new (silent [] ws) (asks_for_more w.mode.version pair.at pair.peer p) }
        ensures none { output.new.event ≡ None }
    {
        output.clear(pair.at);
        let Some(place) = self.place_of(pair.at) else {
            return;
        };
        output.more = self.again_to(place, pair.peer);
        self.unmark(place, pair.peer);
    }

    /// Whether each log has so many rows, if that isn't 0.
    pub(crate) fn is_done(&self, until: u32) -> bool
        ensures done { let m = meaning_of S.Service E.Broadcast C.Coin in
            (w : Setting) (es : List Event) (numbers : List ℕ) → AreHere m w es numbers self.now.replicas.items
            → result ≡ has_enough_rows w until es }
    {
        if until == 0 {
            return false;
        }
        for replica in &self.replicas {
            if !has_rows(replica, until) {
                return false;
            }
        }
        true
    }
}
