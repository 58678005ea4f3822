//! The proposals that are there.

ghost use Rattle.std.specs.Prelude.{◌≡◌, ℕ, ◌≤◌, List, length, map, count_by, Option, is_some, IfOk};
ghost use Rattle.std.specs.Simd.Lanes.{mask_l};
ghost use Rattle.frame_codec.specs.Values.{vector_bytes};
ghost use Rattle.vector_consensus.specs.Consensus.{present};
ghost use Rattle.vector_consensus.specs.Kept.{AreKeptProposals, KeepsProposal};

use frame_codec::write_vector;
use ritas_base::{Bytes, Mem, SenderSet};
use std::alloc::Global;
use std::marker::Model;

/// The proposals that were heard: each is kept once, in the order of their replicas.
#[derive(Drop)]
pub(crate) struct Proposals {
    places: u32,
    entries: Vec<Bytes>,
}

impl Model for Proposals {
    ghost use Rattle.vector_consensus.specs.Kept.{KeptProposals, AreSome};

    ghost Value = { KeptProposals };

    ghost view = { λ t. record { places = t.places; entries = t.entries.items } };

    ghost invariant = { λ t. AreSome (record { places = t.places; entries = t.entries.items }) };
}

impl Proposals {
    /// Nothing is there yet.
    pub(crate) fn new(alloc: Global) -> Proposals
        ensures { (os : List (Option (List ℕ))) → length os ≤ 32 → count_by is_some os ≡ 0 → AreKeptProposals os result }
    {
        Proposals {
            places: 0,
            entries: Vec::new(alloc),
        }
    }

    /// How many are there.
    pub(crate) fn count(&self) -> u8
        ensures { result ≡ length self.now.entries }
    {
        self.entries.len() as u8
    }

    /// Hears what a replica proposes, of which nothing is there.
    pub(crate) fn hear(&mut self, alloc: Global, k: u8, value: &[u8]) -> Result<(), Mem>
        ensures { IfOk result (λ u. KeepsProposal k value.now self.old self.new) }
    {
        let places = SenderSet::from_mask(self.places);
        if k >= 32 || places.has(k) || value.len() > 65535 {
            return Ok(());
        }
        let at = places.rank(k) as usize;
        self.entries.insert(at, Bytes::from_slice(alloc, value)?)?;
        self.places = places.with(k).mask();
        Ok(())
    }

    /// The vector of all that are there. The one error is want of memory.
    pub(crate) fn vector(&self, alloc: Global) -> Result<Bytes, Mem>
        ensures { IfOk result (λ bytes. (os : List (Option (List ℕ))) → AreKeptProposals os self.now → bytes ≡ vector_bytes (mask_l (map is_some os)) (present os)) }
    {
        write_vector(alloc, SenderSet::from_mask(self.places), &self.entries)
    }
}
