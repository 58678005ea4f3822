//! What a round is proposed: the pending identifiers, of each origin the least, as many as its share.

ghost use Rattle.std.specs.Prelude.{◌≡◌, ℕ, ◌+◌, ◌/◌, ◌<◌, ◌≤◌, List, [], ◌∷◌, ◌++◌, reverse, length, IfOk, OnOk};
ghost use Rattle.std.specs.List.{AllByRecursion};
ghost use Rattle.ritas_base.specs.declared.id.Id.{Id};
ghost use Rattle.ordered_rounds.specs.Identifiers.{first_of_each};
ghost use Rattle.ordered_rounds.specs.Rounds.{proposal};
ghost use Rattle.ordered_rounds.specs.Pending.{HoldsIds, CountsOrigins};

use crate::limits::MOST_REPLICAS;
use frame_codec::MOST_IDS;
use ritas_base::{Id, Mem};
use std::alloc::Global;
use std::collections::BTreeSet;

// Takes an identifier, where fewer than so many of its origin are taken.
fn take_id(
    taken: &mut Vec<Id>,
    counts: &mut [u8; MOST_REPLICAS],
    most: u8,
    id: Id,
) -> Result<(), Mem>
    ensures counted { OnOk result (CountsOrigins counts.old (reverse taken.old.items) → CountsOrigins counts.new (reverse taken.new.items)) }
    ensures taken { OnOk result ((rest : List Id) → id.origin < 31 → CountsOrigins counts.old (reverse taken.old.items)
        → taken.new.items ++ first_of_each most (reverse taken.new.items) rest ≡ taken.old.items ++ first_of_each most (reverse taken.old.items) (id ∷ rest)) }
{
    if (id.origin as usize) < MOST_REPLICAS && counts[id.origin as usize] < most {
        taken.push(id)?;
        counts[id.origin as usize] += 1;
    }
    Ok(())
}

/// What a round is proposed: of each origin the least of the pending numbers, as many as its share of 64, in ascending order.
pub(crate) fn proposal(alloc: Global, n: u8, pending: &BTreeSet<Id>) -> Result<Vec<Id>, Mem>
    requires { 1 ≤ n }
    ensures { IfOk result (λ taken. (ids : List Id) → HoldsIds pending.now ids → AllByRecursion (λ x. x.origin < 31) ids → taken.items ≡ proposal n ids) }
{
    let most = MOST_IDS / n;
    let mut taken = Vec::new(alloc);
    let mut counts = [0; MOST_REPLICAS];
    for id in pending.iter() {
        take_id(&mut taken, &mut counts, most, *id)?;
    }
    Ok(taken)
}
