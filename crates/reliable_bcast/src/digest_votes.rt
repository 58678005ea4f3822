//! Votes for digests: the first one of each replica counts. Each is a row of 32 bytes, until the rows are dropped.

ghost use Rattle.std.specs.Prelude.{◌≡◌, ℕ, ◌≤◌, true, not, [], OnErr, OnOk, None, Some, count_by, slice_set, slice_index_or, length, nat_lt, ◌&&◌, replicate};
ghost use Rattle.ritas_base.specs.History.{is_value};
ghost use Rattle.ritas_base.specs.Members.{has_member};
ghost use Rattle.ritas_base.specs.Places.{is_awaited};
ghost use Rattle.reliable_bcast.specs.VoteRows.{kept_value, without_values};

use ritas_base::{Mem, SenderSet};
use std::alloc::Global;
use std::marker::Model;
use vote_lanes::rows_equal;

/// The first digest from each of n replicas. Contracts see a list with a place for each replica, in which a digest
/// that isn't kept is empty.
#[derive(Drop)]
pub(crate) struct DigestVotes {
    n: u8,
    // Those who gave a digest.
    voters: SenderSet,
    // Those whose digest is in their row.
    kept: SenderSet,
    // A row for each replica, from the first vote on, until they are dropped.
    rows: Vec<[u8; 32]>,
}

impl Model for DigestVotes {
    ghost use Rattle.std.specs.Prelude.{ℕ, List, Option, ◌≤◌};
    ghost use Rattle.reliable_bcast.specs.VoteRows.{votes_of, HasVoteRows};

    ghost Value = { List (Option (List ℕ)) };

    ghost view = { λ v. votes_of v.n v.voters v.kept v.rows.items };

    ghost invariant = { λ v. (v.n ≤ 31) × HasVoteRows v.n v.voters v.kept v.rows.items };
}

impl DigestVotes {
    /// No votes yet.
    pub(crate) fn new(alloc: Global, n: u8) -> DigestVotes
        requires { n ≤ 31 }
        ensures { result ≡ replicate n None }
    {
        DigestVotes {
            n,
            voters: SenderSet::empty(),
            kept: SenderSet::empty(),
            rows: Vec::new(alloc),
        }
    }

    /// Whether k is one of the replicas and gave no digest yet.
    pub(crate) fn awaits(&self, k: u8) -> bool
        ensures { result ≡ is_awaited self.now k }
    {
        k < self.n && !self.voters.has(k)
    }

    /// Those who gave this digest, as far as digests are kept.
    pub(crate) fn voters(&self, digest: &[u8; 32]) -> SenderSet
        ensures few { length self.now ≤ 31 }
        ensures gave { (k : ℕ) → has_member result k ≡ (nat_lt k (length self.now) && is_value digest.now (slice_index_or self.now k None)) }
    {
        SenderSet::from_mask(rows_equal(&self.rows, self.kept.mask(), digest))
    }

    /// How many gave this digest, as far as digests are kept.
    pub(crate) fn count(&self, digest: &[u8; 32]) -> u8
        ensures { result ≡ count_by (is_value digest.now) self.now }
    {
        self.voters(digest).len()
    }

    /// Adds the first digest of a replica. The first vote takes memory for all of them; for want of it nothing changes.
    fn vote(&mut self, alloc: Global, k: u8, digest: &[u8; 32]) -> Result<(), Mem>
        requires { is_awaited self.old k ≡ true }
        ensures ok { OnOk result (self.new ≡ slice_set self.old k (Some digest.now)) }
        ensures err { OnErr result (self.new ≡ self.old) }
    {
        make_rows(alloc, self.n, &mut self.rows)?;
        self.rows[usize::from(k)] = *digest;
        self.kept = self.kept.with(k);
        self.voters = self.voters.with(k);
        Ok(())
    }

    /// Adds a replica whose digest isn't kept.
    fn mark(&mut self, k: u8)
        requires { is_awaited self.old k ≡ true }
        ensures { self.new ≡ slice_set self.old k (Some []) }
    {
        self.voters = self.voters.with(k);
    }

    /// Adds the first digest of a replica, or the replica alone where digests aren't counted any more. For want of memory
    /// nothing changes.
    pub(crate) fn add(
        &mut self,
        alloc: Global,
        k: u8,
        digest: &[u8; 32],
        counted: bool,
    ) -> Result<(), Mem>
        requires { is_awaited self.old k ≡ true }
        ensures ok { OnOk result (self.new ≡ slice_set self.old k (Some (kept_value (not counted) digest.now))) }
        ensures err { OnErr result (self.new ≡ self.old) }
    {
        if counted {
            return self.vote(alloc, k, digest);
        }
        self.mark(k);
        Ok(())
    }

    /// Drops the digests, and gives their memory back. Who gave one stays.
    pub(crate) fn forget(&mut self, alloc: Global)
        ensures { self.new ≡ without_values self.old }
    {
        self.kept = SenderSet::empty();
        self.rows = Vec::new(alloc);
    }
}

/// Makes a row for each of n replicas, where there is none yet. For want of memory nothing changes.
fn make_rows(alloc: Global, n: u8, rows: &mut Vec<[u8; 32]>) -> Result<(), Mem>
    ensures made { OnOk result (rows.old.items ≡ [] → length rows.new.items ≡ n) }
    ensures kept { OnOk result ((rows.old.items ≡ [] → ⊥) → rows.new.items ≡ rows.old.items) }
    ensures err { OnErr result (rows.new ≡ rows.old) }
{
    if rows.is_empty() {
        *rows = vec![in alloc; [0; 32]; usize::from(n)]?;
    }
    Ok(())
}
