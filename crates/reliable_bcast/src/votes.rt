//! Votes for values: the first one of each replica counts.

ghost use Rattle.std.specs.Prelude.{◌≡◌, ◌≤◌, true, OnErr, OnOk, None, Some, count_by, slice_set, replicate, position};
ghost use Rattle.std.specs.List.{list_any};
ghost use Rattle.std.specs.Str.{bytes_eq};
ghost use Rattle.ritas_base.specs.History.{is_value};
ghost use Rattle.ritas_base.specs.Members.{has_member};
ghost use Rattle.ritas_base.specs.Places.{is_awaited};

use ritas_base::{Bytes, Mem, SenderSet};
use std::alloc::Global;
use std::marker::Model;

/// A value, and who gave it.
#[derive(Drop)]
pub(crate) struct Ballot {
    value: Bytes,
    voters: SenderSet,
}

/// The first value from each of n replicas. Contracts see a list with a place for each replica.
#[derive(Drop)]
pub(crate) struct Votes {
    n: u8,
    ballots: Vec<Ballot>,
}

impl Model for Votes {
    ghost use Rattle.std.specs.Prelude.{ℕ, List, Option, ◌≤◌};
    ghost use Rattle.reliable_bcast.specs.Tally.{votes_in, IsBallotTally};

    ghost Value = { List (Option (List ℕ)) };

    ghost view = { λ v. votes_in v.n v.ballots.items };

    ghost invariant = { λ v. (v.n ≤ 31) × IsBallotTally v.n v.ballots.items };
}

impl Votes {
    /// No votes yet.
    pub(crate) fn new(alloc: Global, n: u8) -> Votes
        requires { n ≤ 31 }
        ensures { result ≡ replicate n None }
    {
        Votes {
            n,
            ballots: Vec::new(alloc),
        }
    }

    /// Whether k is one of the replicas and gave no value yet.
    pub(crate) fn awaits(&self, k: u8) -> bool
        ensures { result ≡ is_awaited self.now k }
    {
        k < self.n && !is_voter(&self.ballots, k)
    }

    /// How many gave this value.
    pub(crate) fn count(&self, value: &Bytes) -> u8
        ensures { result ≡ count_by (is_value value.now) self.now }
    {
        match place_of(&self.ballots, value) {
            Some(i) => self.ballots[i].voters.len(),
            None => 0,
        }
    }

    /// Adds the first value of a replica. For want of memory nothing changes.
    pub(crate) fn vote(&mut self, alloc: Global, k: u8, value: &Bytes) -> Result<(), Mem>
        requires { is_awaited self.old k ≡ true }
        ensures ok { OnOk result (self.new ≡ slice_set self.old k (Some value.now)) }
        ensures err { OnErr result (self.new ≡ self.old) }
    {
        if let Some(i) = place_of(&self.ballots, value) {
            let ballot = &mut self.ballots[i];
            ballot.voters = ballot.voters.with(k);
            return Ok(());
        }
        let value = value.copy(alloc)?;
        // Mostly there is one value, and a session keeps all of its broadcasts.
        self.ballots.reserve_exact(1)?;
        self.ballots.push(Ballot {
            value,
            voters: SenderSet::empty().with(k),
        })?;
        Ok(())
    }
}

/// Whether one of these ballots has k's vote.
fn is_voter(ballots: &[Ballot], k: u8) -> bool
    ensures { result ≡ list_any (λ b. has_member b.voters k) ballots.now }
{
    ballots.iter().any(|ballot| ballot.voters.has(k))
}

/// Where the ballot of this value stands.
fn place_of(ballots: &[Ballot], value: &Bytes) -> Option<usize>
    ensures { result ≡ position (λ b. bytes_eq b.value value.now) ballots.now }
{
    ballots
        .iter()
        .position(|ballot| ballot.value.is_same(value))
}
