//! Sets of origins.

ghost use Rattle.std.specs.Prelude.{◌≡◌, ℕ, ◌==◌, ◌||◌};
ghost use Rattle.command_log.specs.Origins.{has_origin, origin_count, no_origins};

use ritas_base::SenderSet;

/// A set of origins, of any numbers that they may have: the k-th set has those from 32 k on.
#[derive(Clone, Copy)]
pub(crate) struct OriginSet {
    sets: [SenderSet; 8],
}

impl OriginSet {
    /// The empty set.
    pub(crate) fn empty() -> OriginSet
        ensures { result ≡ no_origins }
    {
        OriginSet {
            sets: [SenderSet::from_mask(0); 8],
        }
    }

    /// Whether an origin is in the set.
    pub(crate) fn has(&self, origin: u8) -> bool
        ensures { result ≡ has_origin self.now origin }
    {
        self.sets[usize::from(origin / 32)].has(origin % 32)
    }

    /// The set with an origin too.
    pub(crate) fn with(self, origin: u8) -> OriginSet
        ensures { (k : ℕ) → has_origin result k ≡ (has_origin self k || (k == origin)) }
    {
        let place = usize::from(origin / 32);
        let mut sets = self.sets;
        sets[place] = sets[place].with(origin % 32);
        OriginSet { sets }
    }

    /// How many origins there are.
    pub(crate) fn len(&self) -> u16
        ensures { result ≡ origin_count self.now }
    {
        let mut count = 0;
        for set in &self.sets {
            count += u16::from(set.len());
        }
        count
    }
}
