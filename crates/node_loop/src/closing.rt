//! What serving does besides in an epoch of a chain: replicas close it, and it turns requests away.
ghost use Rattle.std.specs.Prelude.{◌≡◌, ℕ, List};
ghost use Rattle.ritas_base.specs.declared.event.Event.{Event};
ghost use Rattle.world_model.specs.World.{Setting, states_of};
ghost use Rattle.world_model.specs.EveryWorld.{IsWorld};
ghost use Rattle.world_model.specs.Stands.{IsReplica};
ghost use Rattle.node_loop.specs.Chains.{has_place, has_clients_place, has_ended_at, has_place_at};
ghost use Rattle.node_loop.specs.Chains.{is_reserved, is_crowded};
ghost use Rattle.node_loop.specs.Meanings.{meaning_of};
ghost use Rattle.node_loop.specs.Serving.{may_close};

use crate::asks::{Message, asked_in};
use crate::house::{House, is_less, number_of};
use crate::limits::Closing;
use crate::output::Output;
use crate::waiting::Asked;
use client_port::write_request;
use command_log::CLOSING_CLIENT;
use layer_api::{Broadcast, COMMAND_WINDOW, Service};
use replica::Replica;
use ritas_base::{Coin, Mem, NUMBER_LIMIT};
use std::alloc::Global;

// Whether a command of a number has a place in the window that begins with the least.
fn has_place(least: u32, number: u32) -> bool
    ensures value { result ≡ has_place least number }
{
    u64::from(number) < u64::from(least) + u64::from(COMMAND_WINDOW) && number < NUMBER_LIMIT
}

// Whether that of a client does, where it leaves one for the closing command.
fn has_clients_place(least: u32, number: u32) -> bool
    ensures value { result ≡ has_clients_place least number }
{
    u64::from(number) + 1 < u64::from(least) + u64::from(COMMAND_WINDOW)
        && u64::from(number) + u64::from(COMMAND_WINDOW) < u64::from(NUMBER_LIMIT)
}

// Whether the next command of a replica has a place.
fn has_place_at<S: Service, E: Broadcast, C: Coin + Drop>(replica: &Replica<S, E, C>) -> bool
    ensures place { let m = meaning_of S.Service E.Broadcast C.Coin in
        (w : Setting) (es : List Event) (i : ℕ)
        → IsWorld m.service m.cast w → IsReplica m w (states_of w es) i replica.now
        → result ≡ has_place_at w es i }
{
    let service = replica.core().service();
    !service.given() && has_place(service.base(number_of(replica)), service.next_number())
}

// Whether the session of a replica is an epoch of a chain.
fn is_chained<S: Service, E: Broadcast, C: Coin + Drop>(replica: &Replica<S, E, C>) -> bool
    ensures chained { let m = meaning_of S.Service E.Broadcast C.Coin in
        (w : Setting) (es : List Event) (i : ℕ) → IsReplica m w (states_of w es) i replica.now
        → result ≡ w.start.chained }
{
    replica.log().is_chained()
}

/// Whether the log of a replica has ended.
pub(crate) fn has_ended<S: Service, E: Broadcast, C: Coin + Drop>(
    replica: &Replica<S, E, C>,
) -> bool
    ensures ended { let m = meaning_of S.Service E.Broadcast C.Coin in
        (w : Setting) (es : List Event) (i : ℕ) → IsReplica m w (states_of w es) i replica.now
        → result ≡ has_ended_at w es i }
{
    replica.log().is_over()
}

// Whether a request of this client is refused at a replica.
fn is_reserved<S: Service, E: Broadcast, C: Coin + Drop>(
    replica: &Replica<S, E, C>,
    client: u32,
) -> bool
    ensures reserved { let m = meaning_of S.Service E.Broadcast C.Coin in
        (w : Setting) (es : List Event) (i : ℕ) → IsReplica m w (states_of w es) i replica.now
        → result ≡ is_reserved w client }
{
    is_chained(replica) && client == CLOSING_CLIENT
}

// Whether a client's request has no place at a replica, where the closing command is to have one.
fn is_crowded<S: Service, E: Broadcast, C: Coin + Drop>(replica: &Replica<S, E, C>) -> bool
    ensures crowded { let m = meaning_of S.Service E.Broadcast C.Coin in
        (w : Setting) (es : List Event) (i : ℕ)
        → IsWorld m.service m.cast w → IsReplica m w (states_of w es) i replica.now
        → result ≡ is_crowded w es i }
{
    let service = replica.core().service();
    is_chained(replica)
        && !has_clients_place(service.base(number_of(replica)), service.next_number())
}

// Whether a replica may close its epoch, which it does after so many rounds.
fn may_close<S: Service, E: Broadcast, C: Coin + Drop>(
    replica: &Replica<S, E, C>,
    rounds: u32,
) -> bool
    ensures may { let m = meaning_of S.Service E.Broadcast C.Coin in
        (w : Setting) (es : List Event) (i : ℕ)
        → IsWorld m.service m.cast w → IsReplica m w (states_of w es) i replica.now
        → result ≡ may_close w rounds es i }
{
    if !is_chained(replica) {
        return false;
    }
    if replica.core().service().completed() < rounds {
        return false;
    }
    if has_ended(replica) {
        return false;
    }
    has_place_at(replica)
}

impl<S: Service, E: Broadcast, C: Coin + Drop> House<S, E, C> {
    ghost use Rattle.std.specs.Prelude.{◌≡◌, ℕ, ◌&&◌, [], ◌∷◌, List, true, MatchOption, Some};
    ghost use Rattle.std.specs.Prelude.{None, OnOk, IfSome, if◌then◌else◌};
    ghost use Rattle.std.specs.List.{slice_get};
    ghost use Rattle.ritas_base.specs.declared.event.Event.{Event};
    ghost use Rattle.schedule_file.specs.Spelling.{IsSized};
    ghost use Rattle.world_model.specs.World.{Setting};
    ghost use Rattle.node_loop.specs.Calls.{epoch_closed};
    ghost use Rattle.node_loop.specs.Chains.{is_reserved, is_crowded};
    ghost use Rattle.node_loop.specs.Meanings.{meaning_of};
    ghost use Rattle.node_loop.specs.Peers.{Peers, keep_all};
    ghost use Rattle.node_loop.specs.Resending.{nothing_more};
    ghost use Rattle.node_loop.specs.Served.{AreHere};
    ghost use Rattle.node_loop.specs.Serving.{frames_made_by, is_epoch_over, wishes_to_close, wishing};
    ghost use Rattle.node_loop.specs.Serving.{closing_or, Want, Closes};
    ghost use Rattle.node_loop.specs.Standing.{HouseStands, ComesOut, is_before_other};
    ghost use Rattle.node_loop.specs.Waiting.{Waiting};

    /// Whether the epoch is over here: there are replicas, and the log of each has ended.
    pub(crate) fn is_over(&self) -> bool
        ensures over { let m = meaning_of S.Service E.Broadcast C.Coin in
            (w : Setting) (es : List Event) (numbers : List ℕ)
            → AreHere m w es numbers self.now.replicas.items → result ≡ is_epoch_over w es }
    {
        if self.replicas.is_empty() {
            return false;
        }
        for replica in &self.replicas {
            if !has_ended(replica) {
                return false;
            }
        }
        true
    }

    /// Whether a request of this client is refused at the replica at a place, as that of the
    /// closing client is in an epoch of a chain.
    pub(crate) fn is_reserved(&self, place: usize, client: u32) -> bool
        ensures reserved { let m = meaning_of S.Service E.Broadcast C.Coin in
            (w : Setting) (es : List Event) (numbers : List ℕ) (at : ℕ)
            → AreHere m w es numbers self.now.replicas.items → slice_get numbers place ≡ Some at
            → result ≡ is_reserved w client }
    {
        match self.replicas.get(place) {
            Some(replica) => is_reserved(replica, client),
            None => false,
        }
    }

    /// Whether a request has no place at the replica at a place.
    pub(crate) fn is_crowded(&self, place: usize) -> bool
        ensures crowded { let m = meaning_of S.Service E.Broadcast C.Coin in
            (w : Setting) (es : List Event) (numbers : List ℕ) (at : ℕ)
            → AreHere m w es numbers self.now.replicas.items → slice_get numbers place ≡ Some at
            → result ≡ is_crowded w es at }
    {
        match self.replicas.get(place) {
            Some(replica) => is_crowded(replica),
            None => false,
        }
    }

    // Whether the replica at a place, which has this number, wishes to close its epoch.
    fn wishes_at(&self, place: usize, number: u8, closing: Closing) -> bool
        ensures wishes { let m = meaning_of S.Service E.Broadcast C.Coin in
            (w : Setting) (es : List Event) (numbers : List ℕ) (ws : Waiting) (p : Peers)
            → HouseStands m w es numbers self.now ws p
            → slice_get numbers place ≡ Some number
            → result ≡ wishes_to_close w closing es ws number }
    {
        let Some(replica) = self.replicas.get(place) else {
            // There is no such place.
            return false;
        };
        let asked = Asked {
            at: number,
            client: CLOSING_CLIENT,
            request: closing.epoch,
        };
        may_close(replica, closing.rounds) && !self.waiting.has(asked)
    }

    // The number of the replica at a place, if it wishes to close its epoch and the number is less
    // than the least one; else this.
    fn lesser_closing(
        &self,
        place: usize,
        number: u8,
        closing: Closing,
        least: Option<u8>,
    ) -> Option<u8>
        ensures least { let m = meaning_of S.Service E.Broadcast C.Coin in
            (w : Setting) (es : List Event) (numbers : List ℕ) (ws : Waiting) (p : Peers)
            → HouseStands m w es numbers self.now ws p
            → slice_get numbers place ≡ Some number
            → result ≡ (if wishes_to_close w closing es ws number && is_before_other number least
            then Some number else least) }
    {
        if self.wishes_at(place, number, closing) && is_less(number, least) {
            Some(number)
        } else {
            least
        }
    }

    /// The least number of a replica that wishes to close its epoch.
    pub(crate) fn least_closing(&self, closing: Closing) -> Option<u8>
        ensures least { let m = meaning_of S.Service E.Broadcast C.Coin in
            (w : Setting) (es : List Event) (numbers : List ℕ) (ws : Waiting) (p : Peers)
            → HouseStands m w es numbers self.now ws p
            → MatchOption result (wishing w closing es ws ≡ [])
            (λ i. (more : List ℕ) × (w.is_correct i ≡ true)
            × (wishes_to_close w closing es ws i ≡ true) × (wishing w closing es ws ≡ i ∷ more)) }
    {
        let mut least: Option<u8> = None;
        for (place, replica) in self.replicas.iter().enumerate() {
            least = self.lesser_closing(place, number_of(replica), closing, least);
        }
        least
    }

    /// The replica that is to close its epoch, and the epoch's number, where there is one and these
    /// say so.
    pub(crate) fn due_to_close(&self, closing: Option<Closing>) -> Option<(u8, u32)>
        ensures first { let m = meaning_of S.Service E.Broadcast C.Coin in
            (w : Setting) (es : List Event) (numbers : List ℕ) (ws : Waiting) (p : Peers)
            → HouseStands m w es numbers self.now ws p
            → MatchOption result ((other : Want) → closing_or w closing es ws other ≡ other)
            (λ due. (w.is_correct due.0 ≡ true)
            × ((other : Want) → closing_or w closing es ws other ≡ Closes due.0 due.1)) }
    {
        let Some(closing) = closing else {
            return None;
        };
        let at = self.least_closing(closing)?;
        Some((at, closing.epoch))
    }

    /// A replica closes its epoch: the closing command is an input of it. The one error is want of
    /// memory.
    pub(crate) fn close(
        &mut self,
        alloc: Global,
        at: u8,
        epoch: u32,
        output: &mut Output,
    ) -> Result<(), Mem>
        ensures comes { let m = meaning_of S.Service E.Broadcast C.Coin in
            (w : Setting) (es : List Event) (numbers : List ℕ) (ws : Waiting) (p : Peers)
            → HouseStands m w es numbers self.old ws p
            → w.is_correct at ≡ true
            → let did = epoch_closed w es at epoch ws in
            OnOk result (ComesOut m w es numbers self.new output.new did
            (nothing_more (keep_all w.mode.version (frames_made_by w es did.event) p))) }
        ensures sized { OnOk result (IfSome output.new.event IsSized) }
    {
        output.clear(at);
        let Some(place) = self.place_of(at) else {
            return Ok(());
        };
        let bytes = write_request(alloc, CLOSING_CLIENT, epoch, &[])?;
        let asked = asked_in(at, bytes.as_slice());
        let message = Message {
            asked,
            conn: None,
            bytes,
        };
        self.submit(alloc, place, message, output)
    }
}
