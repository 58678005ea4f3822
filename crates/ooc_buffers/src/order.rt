//! What leaves, in the order in which it was held.

ghost use Rattle.std.specs.Prelude.{◌≡◌, ℕ, [], sum_by};
ghost use Rattle.std.specs.VecDeque.{deque_len, deque_capacity};
ghost use Rattle.ooc_buffers.specs.Lists.{HeldItem};
ghost use Rattle.ooc_buffers.specs.Spots.{held_in, put_all, AreApart};

use crate::entry::Entry;
use crate::group::Spot;
use std::collections::VecDeque;

// Sorts the items by their stamps.
pub(crate) fn sort(moved: &mut VecDeque<(Spot, Entry)>)
    ensures order { AreApart moved.old.items → moved.new.items ≡ put_all [] moved.old.items }
    ensures same { (f : HeldItem → ℕ) → sum_by f (held_in moved.new.items) ≡ sum_by f (held_in moved.old.items) }
    ensures len { deque_len moved.new ≡ deque_len moved.old }
    ensures capacity { deque_capacity moved.new ≡ deque_capacity moved.old }
{
    moved
        .make_contiguous()
        .sort_unstable_by_key(|one| one.0.stamp);
}
