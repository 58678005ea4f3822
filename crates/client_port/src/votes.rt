//! The votes over replies: the first position of each replica counts, and f + 1 equal ones settle it.

ghost use Rattle.std.specs.Prelude.{◌≡◌, ◌<◌, ◌≤◌, List, [], ◌∷◌, length, slice_index_or, Some, None, IfOk, OnOk, OnErr, MatchResult};
ghost use Rattle.client_port.specs.Messages.{reply_number_in};
ghost use Rattle.client_port.specs.Votes.{Wanted, ReplyCall, is_at, reply_fault_of, answer_of, settled_in, VotesStand};

use crate::number::number_at;
use crate::reply::{POSITION, REFUSAL, REPLY_LEN};
use ritas_base::Params;
use std::marker::Model;

/// Why a message isn't counted: the first of these that holds.
#[derive(Clone, Copy, Debug, PartialEq, Eq)]
pub enum ReplyFault {
    /// There is no such replica.
    NoSuchReplica,
    /// It hasn't 13 bytes.
    Length,
    /// Its first byte isn't 1 or 2.
    Form,
    /// It is for another client, or for another of its requests.
    NotMine,
    /// This replica gave a position before.
    Again,
    /// The replica refused the request, for the fault of this number.
    Refused(u32),
}

/// The votes over the replies to one request of a client: the position that each replica gave first.
///
/// A refusal leaves nothing behind: a replica that refused may give a position later, as where the request comes again.
#[derive(Debug, Drop)]
pub struct Votes {
    n: u8,
    f: u8,
    client: u32,
    request: u32,
    // There is a place for each replica that there may be; those from n on stay empty.
    positions: [Option<u32>; 31],
}

impl Model for Votes {
    ghost use Rattle.std.specs.Prelude.{◌≤◌, take};
    ghost use Rattle.client_port.specs.Votes.{Ballots};

    ghost Value = { Ballots };

    ghost view = { λ v. record {
      wanted = record { numbers = record { n = v.n; f = v.f }; client = v.client; request = v.request };
      positions = take v.n v.positions;
    } };

    ghost invariant = { λ v. v.n ≤ 31 };
}

impl Votes {
    /// Votes over the replies to a client's request, before any came.
    pub fn new(p: &Params, client: u32, request: u32) -> Votes
        ensures { VotesStand (record { numbers = p.now; client = client; request = request }) [] result }
    {
        Votes {
            n: p.n(),
            f: p.f(),
            client,
            request,
            positions: [None; 31],
        }
    }

    // The position that a message gives, or its first fault.
    #[tactic(auto, unfolding(crate::specs::Votes::reply_fault_of))]
    fn check(&self, from: u8, bytes: &[u8]) -> Result<u32, ReplyFault>
        ensures fault { MatchResult result
            (λ _. reply_fault_of self.now.wanted (slice_index_or self.now.positions from None) (record { from = from; bytes = bytes.now }) ≡ None)
            (λ fault. reply_fault_of self.now.wanted (slice_index_or self.now.positions from None) (record { from = from; bytes = bytes.now }) ≡ Some fault) }
        ensures position { IfOk result (λ position. position ≡ reply_number_in bytes.now) }
        ensures within { OnOk result ((from < self.now.wanted.numbers.n) × (self.now.wanted.numbers.n ≤ 31)) }
    {
        if from >= self.n {
            return Err(ReplyFault::NoSuchReplica);
        }
        if bytes.len() != REPLY_LEN {
            return Err(ReplyFault::Length);
        }
        let form = bytes[0];
        if form != POSITION && form != REFUSAL {
            return Err(ReplyFault::Form);
        }
        if number_at(bytes, 1) != self.client || number_at(bytes, 5) != self.request {
            return Err(ReplyFault::NotMine);
        }
        if self.positions[usize::from(from)].is_some() {
            return Err(ReplyFault::Again);
        }
        let number = number_at(bytes, 9);
        if form == REFUSAL {
            return Err(ReplyFault::Refused(number));
        }
        Ok(number)
    }

    // This position, where f + 1 replicas gave it.
    fn settled(&self, position: u32) -> Option<u32>
        ensures { result ≡ settled_in self.now position }
    {
        let given = self.positions[..usize::from(self.n)]
            .iter()
            .filter(|given| is_at(**given, position))
            .count();
        if given > usize::from(self.f) {
            Some(position)
        } else {
            None
        }
    }

    /// Counts a message of a replica, and answers its position where f + 1 replicas have given this position, with this
    /// one.
    ///
    /// `None` is answered where fewer have. The faults come in the order of `ReplyFault`, and leave the votes as they were.
    /// So `Again` is for a replica that gave a position, and not for one that only refused. It takes no memory.
    pub fn reply(&mut self, from: u8, bytes: &[u8]) -> Result<Option<u32>, ReplyFault>
        ensures answer { (w : Wanted) (h : List ReplyCall) → VotesStand w h self.old
            → result ≡ answer_of w h (record { from = from; bytes = bytes.now }) }
        ensures stands { (w : Wanted) (h : List ReplyCall) → VotesStand w h self.old
            → VotesStand w (record { from = from; bytes = bytes.now } ∷ h) self.new }
        ensures err { OnErr result (self.new ≡ self.old) }
    {
        let position = self.check(from, bytes)?;
        self.positions[usize::from(from)] = Some(position);
        Ok(self.settled(position))
    }
}

// Whether this position was given.
fn is_at(given: Option<u32>, position: u32) -> bool
    ensures { result ≡ is_at position given }
{
    match given {
        Some(other) => other == position,
        None => false,
    }
}
