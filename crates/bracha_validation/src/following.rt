//! Which value may follow: the rule of each step, answered from three counts in place of all sets of n - f votes.

ghost use Rattle.std.specs.Prelude.{◌≡◌, ◌+◌, ◌*◌, ◌/◌, ◌<◌, ◌≤◌, false, min, ◌⊎◌, ◌↔◌, IsTrue};
ghost use Rattle.bracha_validation.specs.Votes.{may_give, step_before};
ghost use Rattle.bracha_validation.specs.Tallies.{vote_count, tally_votes};

use crate::tally::Tally;
use ritas_base::Params;

/// Whether a message of `step` may carry `value`: whether some set of exactly n - f of the votes `before` gives it by the
/// rule of the step before.
///
/// `before` counts the votes of the step before `step`; before step 1 that is step 3 of the round before. The values are
/// 0, 1 and 2 for unmarked; none above 2 may follow. Where the rule gives a coin, both bits may follow.
///
/// The rule is that of G. Bracha, "Asynchronous Byzantine Agreement Protocols" (1987).
pub fn may_follow(p: &Params, step: u8, value: u8, before: &Tally) -> bool
    requires step { (1 ≤ step) × (step ≤ 3) }
    requires bits { step ≡ 2 → before.now.nones ≡ 0 }
    requires few { vote_count before.now ≤ p.now.n }
    ensures { result ≡ may_give p.now (step_before step) value (tally_votes before.now) }
{
    let n = p.n();
    let f = p.f();
    let wait = p.wait();
    if before.zeros + before.ones + before.nones < wait {
        return false;
    }
    match step {
        1 => third_gives(f, wait, value, before),
        2 => first_gives(wait, value, before),
        _ => second_gives(n, wait, value, before),
    }
}

/// Whether some set of `wait` votes of step 1 gives the value: the bit of more than half, at a tie 0.
fn first_gives(wait: u8, value: u8, votes: &Tally) -> bool
    requires { vote_count votes.now ≤ 31 }
    ensures zero { value ≡ 0 → (IsTrue result ↔ (wait ≤ 2 * (votes.now.zeros + votes.now.nones))) }
    ensures one { value ≡ 1 → (IsTrue result ↔ (wait < 2 * votes.now.ones)) }
    ensures more { 2 ≤ value → result ≡ false }
{
    match value {
        0 => wait <= 2 * (votes.zeros + votes.nones),
        1 => wait < 2 * votes.ones,
        _ => false,
    }
}

/// Whether some set of `wait` votes of step 2 gives the value: the bit of more than n / 2 votes, else 2.
fn second_gives(n: u8, wait: u8, value: u8, votes: &Tally) -> bool
    requires { vote_count votes.now ≤ 31 }
    ensures zero { value ≡ 0 → (IsTrue result ↔ (n < 2 * votes.now.zeros)) }
    ensures one { value ≡ 1 → (IsTrue result ↔ (n < 2 * votes.now.ones)) }
    ensures two { value ≡ 2
        → (IsTrue result ↔ (wait ≤ min votes.now.zeros (n / 2) + min votes.now.ones (n / 2) + votes.now.nones)) }
    ensures more { 3 ≤ value → result ≡ false }
{
    match value {
        0 => n < 2 * votes.zeros,
        1 => n < 2 * votes.ones,
        2 => wait <= votes.zeros.min(n / 2) + votes.ones.min(n / 2) + votes.nones,
        _ => false,
    }
}

/// Whether some set of `wait` votes of step 3 gives the value: 0 where it has more than f votes, else 1 where it has,
/// else both bits. So a set gives 0 unless it has more than f ones and no more than f zeros, and 1 where it has no more
/// than f zeros.
fn third_gives(f: u8, wait: u8, value: u8, votes: &Tally) -> bool
    requires { vote_count votes.now ≤ 31 }
    ensures zero { value ≡ 0
        → (IsTrue result ↔ ((f < votes.now.zeros) ⊎ (wait ≤ votes.now.zeros + min votes.now.ones f + votes.now.nones))) }
    ensures one { value ≡ 1 → (IsTrue result ↔ (wait ≤ min votes.now.zeros f + votes.now.ones + votes.now.nones)) }
    ensures more { 2 ≤ value → result ≡ false }
{
    match value {
        0 => f < votes.zeros || wait <= votes.zeros + votes.ones.min(f) + votes.nones,
        1 => wait <= votes.zeros.min(f) + votes.ones + votes.nones,
        _ => false,
    }
}
