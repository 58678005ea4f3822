//! All that was hashed in a world, kept so that two things with one image are found.

ghost use Rattle.std.specs.Prelude.{◌≡◌, true, false};

use crate::met::{EntryPair, Met};
use keyed_channel::{Channel, Keys};
use ritas_base::{Mem, Slot, Tagger};
use std::alloc::Global;
use std::collections::{BTreeMap, BTreeSet};

/// What is hashed for an entry.
#[derive(Clone, Copy, PartialEq, Eq)]
pub(crate) struct HashedEntry {
    pub(crate) slot: Slot,
    pub(crate) echoer: u8,
    pub(crate) verifier: u8,
    pub(crate) digest: [u8; 32],
}

/// What was hashed: each message once, with its digest, the set of the digests, and what entries are of by the entries.
#[derive(Drop)]
pub(crate) struct Hashed {
    messages: BTreeMap<Vec<u8>, [u8; 32]>,
    digests: BTreeSet<[u8; 32]>,
    entries: BTreeMap<[u8; 32], HashedEntry>,
}

// Whether the two differ.
fn differ(a: &HashedEntry, b: &HashedEntry) -> bool
    ensures same { result ≡ false → a.now ≡ b.now }
    ensures apart { result ≡ true → a.now ≡ b.now → ⊥ }
{
    a != b
}

impl Hashed {
    ghost use Rattle.std.specs.Prelude.{◌≡◌, ℕ, List, [], ◌∷◌, None, IfOk};
    ghost use Rattle.keyed_channel.specs.KeyRow.{KeyRow};
    ghost use Rattle.keyed_channel.specs.Keyed.{tags_of};
    ghost use Rattle.layer_api.specs.Entries.{Print, OfMessage, OfEntry};
    ghost use Rattle.world_model.specs.Met.{pair_of, met_with};
    ghost use Rattle.world_model.specs.Hashed.{digest_at, HashedStand, IsDigestOf, Adds, Meets, input_of, both_of, prints_with};

    /// Nothing.
    pub(crate) fn new(alloc: Global) -> Hashed
        ensures { HashedStand result [] }
    {
        Hashed {
            messages: BTreeMap::new(alloc),
            digests: BTreeSet::new(alloc),
            entries: BTreeMap::new(alloc),
        }
    }

    // Keeps a message that isn't there with its digest, unless another message has that.
    fn add_message(
        &mut self,
        alloc: Global,
        message: &[u8],
        digest: [u8; 32],
    ) -> Result<Option<[u8; 32]>, Mem>
        ensures { IfOk result (λ found. (k : KeyRow) (prints : List Print) → digest ≡ (tags_of k).digest message.now
            → digest_at self.old message.now ≡ None → HashedStand self.old prints
            → IsDigestOf self.new k message.now prints found) }
    {
        if !self.digests.insert(digest)? {
            return Ok(None);
        }
        let message = Vec::from_slice(alloc, message)?;
        self.messages.insert(message, digest)?;
        Ok(Some(digest))
    }

    /// The digest of a message, which is hashed where it isn't there yet. `None` where another message has its digest.
    pub(crate) fn digest_of(
        &mut self,
        alloc: Global,
        keys: &Channel,
        message: &[u8],
    ) -> Result<Option<[u8; 32]>, Mem>
        ensures { IfOk result (λ found. (prints : List Print) → HashedStand self.old prints
            → IsDigestOf self.new keys.now message.now prints found) }
    {
        match self.messages.get(message) {
            Some(digest) => Ok(Some(*digest)),
            None => self.add_message(alloc, message, keys.digest(message)),
        }
    }

    // An entry and what it is of. Whether it is of something else too.
    fn add_entry(&mut self, input: HashedEntry, entry: [u8; 32]) -> Result<bool, Mem>
        ensures { IfOk result (λ clash. (prints : List Print) → HashedStand self.old prints
            → Adds self.new (OfEntry (input_of input) entry) prints clash) }
    {
        match self.entries.insert(entry, input)? {
            Some(other) => Ok(differ(&other, &input)),
            None => Ok(false),
        }
    }

    // The entries that the replica of this number and another have of each other. Whether one is of something else too.
    fn add_both(
        &mut self,
        slot: Slot,
        me: u8,
        other: u8,
        digest: [u8; 32],
        pair: &EntryPair,
    ) -> Result<bool, Mem>
        ensures { IfOk result (λ clash. (k : KeyRow) → me ≡ k.me → pair.now ≡ pair_of k slot digest other
            → (prints : List Print) → HashedStand self.old prints → Meets self.new (both_of k slot digest other) prints clash) }
    {
        let given = HashedEntry {
            slot,
            echoer: me,
            verifier: other,
            digest,
        };
        if self.add_entry(given, pair.given)? {
            return Ok(true);
        }
        let expected = HashedEntry {
            slot,
            echoer: other,
            verifier: me,
            digest,
        };
        self.add_entry(expected, pair.expected)
    }

    /// The entries that the replica with these keys met at a message, whose digest is there. Whether two things hashed, of
    /// all so far, have one image; after that the maps aren't kept up.
    pub(crate) fn add_entries(&mut self, keys: &Keys, slot: Slot, met: &Met) -> Result<bool, Mem>
        ensures { IfOk result (λ clash. (m : List ℕ) → met.now ≡ met_with keys.now slot ((tags_of keys.now).digest m)
            → (prints : List Print) → HashedStand self.old (OfMessage m ((tags_of keys.now).digest m) ∷ prints)
            → Meets self.new (prints_with keys.now slot m) prints clash) }
    {
        let digest = *met.digest();
        for other in 0..keys.n() {
            let Some(pair) = met.pair(other) else {
                return Ok(false);
            };
            if self.add_both(slot, keys.me(), other, digest, pair)? {
                return Ok(true);
            }
        }
        Ok(false)
    }
}
