//! Numbers above the first gap of an origin's, kept in a set.

ghost use Rattle.std.specs.Prelude.{◌≡◌, ℕ, ◌==◌, ◌&&◌, ◌||◌, not, OnOk};
ghost use Rattle.ordered_rounds.specs.Early.{has_early, Advances};

use ritas_base::{Id, Mem, NUMBER_LIMIT};
use std::collections::BTreeSet;

// Takes a command out, and says whether it was there.
fn take_early(early: &mut BTreeSet<Id>, origin: u8, num: u32) -> bool
    ensures there { result ≡ has_early early.old origin num }
    ensures rest { (o k : ℕ) → has_early early.new o k ≡ (not (o == origin && k == num) && has_early early.old o k) }
{
    early.remove(&Id { origin, num })
}

/// Puts a command in.
pub fn put_early(early: &mut BTreeSet<Id>, origin: u8, num: u32) -> Result<(), Mem>
    ensures put { OnOk result
        ((o k : ℕ) → has_early early.new o k ≡ ((o == origin && k == num) || has_early early.old o k)) }
{
    early.insert(Id { origin, num })?;
    Ok(())
}

/// Takes out the commands of an origin from this base on, up to the first that isn't there. Its number is the new base.
pub fn advance(early: &mut BTreeSet<Id>, origin: u8, mut base: u32) -> u32
    ensures { Advances early.old early.new origin base result }
{
    while base < NUMBER_LIMIT && take_early(early, origin, base) {
        base += 1;
    }
    base
}
