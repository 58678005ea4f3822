//! Sets of replicas, as masks of 32 bits.

ghost use Rattle.std.specs.Prelude.{◌≡◌, ℕ, ◌<◌, ◌==◌, ◌||◌, true, false};
ghost use Rattle.std.specs.Int.RustNames.{count_ones};
ghost use Rattle.ritas_base.specs.Members.{has_member, member_count};

use std::marker::Model;

/// A set of replica numbers below 32.
#[derive(Clone, Copy, Debug, PartialEq, Eq)]
pub struct SenderSet {
    mask: u32,
}

impl Model for SenderSet {
    ghost use Rattle.std.specs.Prelude.{ℕ};

    ghost Value = { ℕ };

    ghost view = { λ s. s.mask };

    ghost inverse = { λ m. record { mask = m } };
}

impl SenderSet {
    /// The empty set.
    pub fn empty() -> SenderSet
        ensures { (j : ℕ) → has_member result j ≡ false }
    {
        SenderSet { mask: 0 }
    }

    /// The set with k too.
    pub fn with(self, k: u8) -> SenderSet
        requires { k < 32 }
        ensures { (j : ℕ) → has_member result j ≡ (has_member self j || (j == k)) }
    {
        SenderSet {
            mask: self.mask | 1 << k,
        }
    }

    /// Whether k is in the set.
    pub fn has(&self, k: u8) -> bool
        ensures { result ≡ has_member self.now k }
    {
        let mask = self.mask;
        k < 32 && mask >> k & 1 == 1
    }

    /// How many members there are.
    pub fn len(&self) -> u8
        ensures { result ≡ member_count 32 self.now }
    {
        let mask = self.mask;
        mask.count_ones() as u8
    }

    /// The set that a mask is.
    pub fn from_mask(mask: u32) -> SenderSet
        ensures { result ≡ mask }
    {
        SenderSet { mask }
    }

    /// The mask of the set: bit k stands for replica k.
    pub fn mask(self) -> u32
        ensures { result ≡ self }
    {
        self.mask
    }

    /// How many members are below k.
    pub fn rank(self, k: u8) -> u32
        requires { k < 32 }
        ensures value { result ≡ member_count k self }
        ensures below { has_member self k ≡ true → result < count_ones self }
    {
        let below = self.mask % (1 << k);
        below.count_ones()
    }
}
