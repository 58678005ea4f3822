//! The traits of what a replica tags with, and of its coin.

ghost use Rattle.std.specs.Prelude.{◌≡◌, ℕ, Bool, ◌<◌, ◌⊎◌};
ghost use Rattle.ritas_base.specs.Tags.{Tags, HasDigests};
ghost use Rattle.ritas_base.specs.declared.slot.Slot.{Slot};

use crate::slot::Slot;

/// What one replica tags with: digests, and the entries of the hash matrix that it shares a key for.
pub trait Tagger {
    /// The replica's number.
    ghost me: { Self → ℕ };

    /// What it answers.
    ghost tags: { Self → Tags };

    /// A digest has 32 bytes.
    ghost digests: { (t : Self) → HasDigests (tags t) };

    /// The number of the replica.
    fn me(&self) -> u8
        ensures { result ≡ me self.now };

    /// The entry of an echoer for a verifier over a digest, at a slot. One of the two is this replica.
    fn entry(&self, slot: &Slot, echoer: u8, verifier: u8, d: &[u8; 32]) -> [u8; 32]
        requires mine { (echoer ≡ me self.now) ⊎ (verifier ≡ me self.now) }
        requires echoer_fits { echoer < 31 }
        requires verifier_fits { verifier < 31 }
        ensures { result ≡ (tags self.now).entry slot.now echoer verifier d.now };

    /// The digest of these bytes.
    fn digest(&self, bytes: &[u8]) -> [u8; 32]
        ensures { result ≡ (tags self.now).digest bytes.now };
}

/// A source of bits that are fixed for each slot.
pub trait Coin {
    /// The bit of each slot.
    ghost bits: { Self → Slot → Bool };

    /// The bit of this slot.
    fn toss(&self, slot: &Slot) -> bool
        ensures { result ≡ bits self.now slot.now };
}
