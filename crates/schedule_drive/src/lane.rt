//! The frames that one player made for another and that haven't passed.
ghost use Rattle.std.specs.Prelude.{◌≡◌, ℕ, ◌%◌, ◌≤◌, ◌⊎◌, Bool, filter, length, min, [], true, false, OnOk, IfOk};
ghost use Rattle.std.specs.List.{range_with_len, slice_get};
ghost use Rattle.schedule_drive.specs.Lanes.{IsLane, has_left, numbers_left, without_taken};
ghost use Rattle.schedule_plan.specs.Picks.{passes_once};

use std::alloc::{AllocError, Global};

// Of 16 frames one isn't counted as passed, and may come again.
fn passes_once(word: u32) -> bool
    ensures { result ≡ passes_once word }
{
    word / 256 % 16 != 0
}

/// The frames that one player made for another and that haven't passed, by their numbers from 0: at the front some of the oldest,
/// and then all from the next number on.
#[derive(Drop)]
pub(crate) struct Lane {
    front: Vec<usize>,
    next: usize,
    count: usize,
}

impl Lane {
    /// Of no frames.
    pub(crate) fn new(alloc: Global) -> Lane
        ensures { (left : ℕ → Bool) → ((m : ℕ) → left m ≡ true) → IsLane result 0 left }
    {
        Lane {
            front: Vec::new(alloc),
            next: 0,
            count: 0,
        }
    }

    /// Whether there is a frame.
    pub(crate) fn is_open(&self) -> bool
        ensures { (count : ℕ) (left : ℕ → Bool) → IsLane self.now count left → result ≡ has_left count left }
    {
        !self.front.is_empty() || self.next < self.count
    }

    /// There are so many frames now with those that passed.
    pub(crate) fn grow(&mut self, count: usize)
        ensures { (old : ℕ) (left : ℕ → Bool) → IsLane self.old old left → old ≤ count → IsLane self.new count left }
    {
        self.count = count;
    }

    // Takes numbers to the front, up to eight.
    fn fill(&mut self) -> Result<(), AllocError>
        ensures same { (count : ℕ) (left : ℕ → Bool) → IsLane self.old count left → OnOk result (IsLane self.new count left) }
        ensures full { OnOk result ((8 ≤ length self.new.front.items) ⊎ (self.new.count ≤ self.new.next)) }
    {
        while self.front.len() < 8 && self.next < self.count {
            self.front.push(self.next)?;
            self.next += 1;
        }
        Ok(())
    }

    /// One of the eight oldest frames, by this word. It counts as passed then, but one of 16.
    pub(crate) fn pick(&mut self, word: u32) -> Result<Option<usize>, AllocError>
        ensures number { (count : ℕ) (left : ℕ → Bool) → IsLane self.old count left
            → IfOk result (λ number. number ≡ slice_get (numbers_left count left) (word % min 8 (length (numbers_left count left)))) }
        ensures lane { (count : ℕ) (left : ℕ → Bool) → IsLane self.old count left
            → IfOk result (λ number. IsLane self.new count (without_taken word number left)) }
    {
        self.fill()?;
        let many = self.front.len().min(8);
        if many == 0 {
            return Ok(None);
        }
        let place = word as usize % many;
        let number = self.front[place];
        if passes_once(word) {
            self.front.remove(place);
        }
        Ok(Some(number))
    }
}
