//! The frames that go out again together.

ghost use Rattle.std.specs.Prelude.{◌≡◌, true, [], ◌∷◌, MatchOption};
ghost use Rattle.std.specs.Map.{values_of};
ghost use Rattle.link_resume.specs.Lists.{is_behind, is_between, between, batch, joins_batch, bytes_with};

use crate::kept::Kept;
use std::collections::btree_map::Range;
use std::marker::Model;

/// A batch that is being given: frames that are kept for a peer, the oldest first. Contracts see it as those that are still to come.
#[derive(Drop)]
pub struct Batch<'a> {
    kept: Range<'a, u128, Kept>,
    // Its frames have greater numbers than this one, if there is one, and none greater than the last one.
    after: Option<u64>,
    last: u64,
    // The most bytes that it may have, unless it has one frame.
    most: u64,
    // How many those have that were given.
    given: Option<u64>,
}

impl<'a> Model for Batch<'a> {
    ghost use Rattle.std.specs.Prelude.{List};
    ghost use Rattle.std.specs.Map.{values_of};
    ghost use Rattle.link_resume.specs.declared.kept.Kept.{Kept};
    ghost use Rattle.link_resume.specs.Lists.{between, batch_behind};

    ghost Value = { List Kept };

    ghost view = { λ b. batch_behind b.most b.given (between b.after b.last (values_of b.kept)) };
}

// Whether a frame has a greater number than another one, if there is another.
fn is_behind(after: Option<u64>, kept: &Kept) -> bool
    ensures { result ≡ is_behind after kept.now }
{
    match after {
        Some(seq) => seq < kept.seq,
        None => true,
    }
}

// And none greater than the last one.
fn is_between(after: Option<u64>, last: u64, kept: &Kept) -> bool
    ensures { result ≡ is_between after last kept.now }
{
    is_behind(after, kept) && kept.seq <= last
}

// Whether a frame of so many bytes is in a batch of at most so many behind others that have so many, if there are any.
fn joins_batch(most: u64, given: Option<u64>, size: u64) -> bool
    ensures { result ≡ joins_batch most given size }
{
    match given {
        Some(bytes) => u128::from(bytes) + u128::from(size) <= u128::from(most),
        None => true,
    }
}

// How many bytes they have with it.
fn bytes_with(most: u64, given: Option<u64>, size: u64) -> u64
    requires { joins_batch most given size ≡ true }
    ensures { result ≡ bytes_with given size }
{
    match given {
        Some(bytes) => bytes + size,
        None => size,
    }
}

impl<'a> Batch<'a> {
    /// The batch of at most so many bytes at the front of those of these that have such numbers.
    pub(crate) fn new(
        kept: Range<'a, u128, Kept>,
        after: Option<u64>,
        last: u64,
        most: u64,
    ) -> Batch<'a>
        ensures { result ≡ batch most (between after last (values_of kept.entry)) }
    {
        Batch {
            kept,
            after,
            last,
            most,
            given: None,
        }
    }

    /// The next frame. `None` is answered exactly where none is to come, and then it isn't to be asked again. It takes no memory.
    pub fn next_frame(&mut self) -> Option<&'a Kept>
        ensures { MatchOption result (self.old ≡ []) (λ k. self.old ≡ k.now ∷ self.new) }
    {
        while let Some((_, kept)) = self.kept.next() {
            if is_between(self.after, self.last, kept) {
                let size = kept.frame.len() as u64;
                if !joins_batch(self.most, self.given, size) {
                    return None;
                }
                self.given = Some(bytes_with(self.most, self.given, size));
                return Some(kept);
            }
        }
        None
    }
}
