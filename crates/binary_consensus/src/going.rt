//! How an instance goes on: each step that has n - f accepted votes is left, and what follows is said.

ghost use Rattle.std.specs.Prelude.{◌≡◌, ℕ, ◌≤◌, ◌<◌, IfOk};
ghost use Rattle.binary_consensus.specs.Going.{LineGoesOn};

use crate::leaving::leave;
use crate::line::Line;
use crate::part::{Part, STEPS};
use crate::place::Place;
use ritas_base::{Coin, Mem, Say};
use std::alloc::Global;

/// Goes through the steps from the one that was said last, leaves those with n - f accepted votes, and says what follows
/// each.
pub(crate) fn go_on<C: Coin>(
    alloc: Global,
    part: &Part,
    line: &Line,
    coin: &C,
    place: Place,
    says: &mut Vec<Say>,
) -> Result<Place, Mem>
    requires { 1 ≤ place.said }
    ensures { IfOk result (λ next. LineGoesOn part.now line.now (C.bits coin.now) place says.old.items says.new.items next) }
{
    let p = line.params();
    let mut decided = place.decided;
    for t in place.said - 1..STEPS {
        let votes = line.accepted(t);
        if votes.zeros + votes.ones + votes.nones < p.wait() {
            return Ok(Place {
                said: t + 1,
                ended: false,
                decided,
            });
        }
        let left = leave(part, &p, coin, t, &votes, decided);
        decided = left.decided;
        let Some(next) = left.next else {
            return Ok(Place {
                said: t + 1,
                ended: true,
                decided,
            });
        };
        part.say(alloc, t + 1, next, says)?;
    }
    Ok(Place {
        said: STEPS,
        ended: true,
        decided,
    })
}
