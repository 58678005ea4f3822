//! Which of some choices are open.
ghost use Rattle.std.specs.Prelude.{◌≡◌, ℕ, ◌≤◌, ◌∷◌, ◌++◌, List, Bool, [], length, slice_set, MatchOption, OnOk};
ghost use Rattle.schedule_drive.specs.Choices.{open_in, IsNth};

use std::alloc::{AllocError, Global};
use std::marker::Model;

/// Which of some choices are open, and how many.
#[derive(Drop)]
pub(crate) struct Row {
    flags: Vec<bool>,
    count: usize,
}

impl Model for Row {
    ghost use Rattle.std.specs.Prelude.{◌≡◌, List, Bool};
    ghost use Rattle.schedule_drive.specs.Choices.{open_in};

    ghost Value = { List Bool };

    ghost view = { λ r. r.flags.items };

    ghost invariant = { λ r. r.count ≡ open_in r.flags.items };
}

impl Row {
    /// Of no choices.
    pub(crate) fn new(alloc: Global) -> Row
        ensures { result ≡ [] }
    {
        Row {
            flags: Vec::new(alloc),
            count: 0,
        }
    }

    /// How many are open.
    pub(crate) fn count(&self) -> usize
        ensures { result ≡ open_in self.now }
    {
        self.count
    }

    /// One choice more, which isn't open.
    pub(crate) fn push(&mut self) -> Result<(), AllocError>
        ensures { OnOk result (self.new ≡ self.old ++ Bool.false ∷ []) }
    {
        self.flags.push(false)?;
        Ok(())
    }

    /// Whether a choice is open, if there is one at this place.
    pub(crate) fn set(&mut self, place: usize, is_open: bool)
        ensures { self.new ≡ slice_set self.old place is_open }
    {
        if place < self.flags.len() && self.flags[place] != is_open {
            self.flags[place] = is_open;
            if is_open {
                self.count += 1;
            } else {
                self.count -= 1;
            }
        }
    }

    /// The place of the open choice of this number, from 0.
    pub(crate) fn nth(&self, number: usize) -> Option<usize>
        ensures { MatchOption result (open_in self.now ≤ number) (λ place. IsNth self.now number place) }
    {
        if self.count <= number {
            return None;
        }
        let mut left = number;
        for (place, flag) in self.flags.iter().enumerate() {
            if *flag {
                if left == 0 {
                    return Some(place);
                }
                left -= 1;
            }
        }
        None
    }
}
