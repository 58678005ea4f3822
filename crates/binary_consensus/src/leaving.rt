//! How a step is left: the vote that its rule gives, the bit that it decides, or a coin.

ghost use Rattle.std.specs.Prelude.{◌≡◌, ℕ, ◌≤◌, ◌<◌, List, None};
ghost use Rattle.bracha_validation.specs.Votes.{rule};
ghost use Rattle.bracha_validation.specs.Tallies.{vote_count, IsTally};
ghost use Rattle.binary_consensus.specs.Steps.{step_of};
ghost use Rattle.binary_consensus.specs.Consensus.{step_verdict};
ghost use Rattle.binary_consensus.specs.Going.{Leaves};

use crate::part::{Part, STEPS};
use bracha_validation::Tally;
use ritas_base::{Coin, Params};

/// What a step that is left leads to: what is decided by then, and the vote to say next, if one follows.
#[derive(Clone, Copy)]
pub(crate) struct Left {
    pub(crate) decided: Option<bool>,
    pub(crate) next: Option<u8>,
}

// The vote that the rule of a step gives to the votes there; `None` is a coin.
fn rule(p: &Params, step: u8, votes: &Tally) -> Option<u8>
    requires { vote_count votes.now ≤ p.now.n }
    ensures { (vs : List ℕ) → IsTally votes.now vs → result ≡ rule p.now step vs }
{
    let n = p.n();
    let Tally { zeros, ones, nones } = *votes;
    match step {
        1 => Some(if zeros + ones + nones < 2 * ones {
            1
        } else {
            0
        }),
        2 => Some(if n < 2 * zeros {
            0
        } else if n < 2 * ones {
            1
        } else {
            2
        }),
        _ => {
            if p.ready() <= zeros {
                Some(0)
            } else if p.ready() <= ones {
                Some(1)
            } else {
                None
            }
        }
    }
}

// The bit that step 3 of a round decides by these votes.
fn verdict(p: &Params, votes: &Tally) -> Option<bool>
    ensures { (vs : List ℕ) → IsTally votes.now vs → result ≡ step_verdict p.now 3 vs }
{
    if p.deliver() <= votes.zeros {
        Some(false)
    } else if p.deliver() <= votes.ones {
        Some(true)
    } else {
        None
    }
}

/// Leaves a step with these votes, where the steps below it decide `decided`.
pub(crate) fn leave<C: Coin>(
    part: &Part,
    p: &Params,
    coin: &C,
    t: u16,
    votes: &Tally,
    decided: Option<bool>,
) -> Left
    requires within { t < 600 }
    requires small { vote_count votes.now ≤ p.now.n }
    ensures leaves { Leaves part.now p.now (C.bits coin.now) t votes.now decided result }
    ensures last { t ≡ 599 → result.next ≡ None }
{
    let step = (t % 3) as u8 + 1;
    let ends_round = step == 3;
    if ends_round && decided.is_some() {
        return Left {
            decided,
            next: None,
        };
    }
    let decided = if ends_round {
        verdict(p, votes)
    } else {
        decided
    };
    if t + 1 == STEPS {
        return Left {
            decided,
            next: None,
        };
    }
    let next = match rule(p, step, votes) {
        Some(vote) => vote,
        None => u8::from(coin.toss(&part.slot(t))),
    };
    Left {
        decided,
        next: Some(next),
    }
}
