//! The rows that replicas gave at the next positions, of which a row is taken over once f + 1 replicas gave it.

ghost use Rattle.std.specs.Prelude.{◌≡◌, ◌≢◌, ℕ, ◌+◌, ◌<◌, ◌⊎◌, List, [], ◌∷◌, length, Some, None, Err, IfOk, OnOk, IfErr, OnErr, OnSome, IfNone, slice_index_or};
ghost use Rattle.ritas_base.specs.Numbers.{Numbers};
ghost use Rattle.observer.specs.Reading.{piece_in};
ghost use Rattle.observer.specs.Giving.{GivenStep, Gave, Passed, rows_given, next_backed, change_faulty, given_fault};
ghost use Rattle.observer.specs.Places.{StandsForSteps, CanTakePiece, all_places};

use crate::changed::changed;
use crate::fault::PieceFault;
use crate::keeping::{PLACES, WINDOW, first_place, keep_rows};
use crate::reading::{COUNT, POSITION, form_fault, read_rows};
use crate::taking::{clear, take_next};
use client_port::{PIECE_FRONT, number_at};
use command_log::LogRow;
use ritas_base::{Mem, Params};
use std::alloc::Global;
use std::marker::Model;

/// The rows that replicas gave at the next 64 positions. Contracts see it as a `Window`, and say for which list of
/// steps it stands: pieces that replicas gave, and positions that were passed.
#[derive(Drop)]
pub struct GivenRows {
    n: u8,
    f: u8,
    // The next position.
    len: u32,
    // 31 places for each of the 64 positions from the next one on. A position and the 64th behind it have the same
    // places, since they are never waited for at once.
    places: Vec<Option<LogRow>>,
}

impl Model for GivenRows {
    ghost use Rattle.observer.specs.Places.{Window, IsSizedWindow};

    ghost Value = { Window };

    ghost view = { λ g. record {
      numbers = record { n = g.n; f = g.f };
      len = g.len;
      places = g.places.items;
    } };

    ghost invariant = { λ g. IsSizedWindow g.n g.len g.places.items };
}

// The places, empty. The one error is want of memory.
fn no_rows(alloc: Global) -> Result<Vec<Option<LogRow>>, Mem>
    ensures all { IfOk result (λ places. length places.items ≡ all_places) }
    ensures empty { IfOk result (λ places. (i : ℕ) → slice_index_or places.items i None ≡ None) }
{
    let mut places = Vec::new(alloc);
    for _ in 0..PLACES {
        places.push(None)?;
    }
    Ok(places)
}

// The fault that a replica gave another row before, if it did at a position.
fn change_fault(changed: Option<u32>) -> Option<PieceFault>
    ensures fault { result ≡ change_faulty changed }
    ensures memory { result ≢ Some PieceFault.Mem }
{
    match changed {
        Some(at) => Some(PieceFault::Changed(at)),
        None => None,
    }
}

impl GivenRows {
    /// The rows from a position on, of which none was given yet, for so many replicas, of which at most f are faulty.
    /// The one error is want of memory.
    pub fn new(alloc: Global, p: &Params, first: u32) -> Result<GivenRows, Mem>
        ensures { IfOk result (λ rows. StandsForSteps p.now first [] rows) }
    {
        Ok(GivenRows {
            n: p.n(),
            f: p.f(),
            len: first,
            places: no_rows(alloc)?,
        })
    }

    /// The next position: `next` takes over its row, or `pass` passes it.
    pub fn len(&self) -> u32
        ensures { result ≡ self.now.len }
    {
        self.len
    }

    /// The first fault of some bytes from a replica, which takes no memory to find.
    pub(crate) fn fault(&self, from: u8, bytes: &[u8]) -> Option<PieceFault>
        ensures exact { (p : Numbers) (first : ℕ) (h : List GivenStep)
            → StandsForSteps p first h self.now
            → result ≡ given_fault p (rows_given first h) from bytes.now }
        ensures none { IfNone result (CanTakePiece self.now.numbers.n self.now.len from bytes.now) }
        ensures memory { result ≢ Some PieceFault.Mem }
    {
        if from >= self.n {
            return Some(PieceFault::NoSuchReplica);
        }
        if let Some(at) = form_fault(self.n, bytes) {
            return Some(PieceFault::Form(at));
        }
        let first = number_at(bytes, POSITION);
        let count = bytes[COUNT];
        if count > 0
            && u64::from(first) + u64::from(count) > u64::from(self.len) + u64::from(WINDOW)
        {
            return Some(PieceFault::Ahead(self.len));
        }
        change_fault(changed(
            self.places.as_slice(),
            from,
            self.len,
            first,
            count,
            &bytes[PIECE_FRONT..],
        ))
    }

    /// Takes a piece in which no fault was found. The one error is want of memory, which leaves all as it was.
    pub(crate) fn take_whole(&mut self, alloc: Global, from: u8, bytes: &[u8]) -> Result<(), Mem>
        requires { CanTakePiece self.old.numbers.n self.old.len from bytes.now }
        ensures taken { (p : Numbers) (first : ℕ) (h : List GivenStep)
            → StandsForSteps p first h self.old → OnOk result (StandsForSteps p first
            (Gave (record { from = from; piece = piece_in bytes.now }) ∷ h) self.new) }
        ensures len { self.new.len ≡ self.old.len }
        ensures kept { OnErr result (self.new ≡ self.old) }
    {
        let mut rows = Vec::new(alloc);
        read_rows(alloc, &mut rows, bytes[COUNT], &bytes[PIECE_FRONT..])?;
        let first = number_at(bytes, POSITION);
        keep_rows(self.places.as_mut_slice(), from, self.len, first, &mut rows);
        Ok(())
    }

    /// Takes a piece that a replica gave.
    ///
    /// Each replica's first row for each of the 64 positions from `len` on is kept. What isn't taken is refused with
    /// the first of `PieceFault` that holds, where `len` is the log's length, and leaves all as it was.
    pub fn take_piece(&mut self, alloc: Global, from: u8, bytes: &[u8]) -> Result<(), PieceFault>
        ensures taken { (p : Numbers) (first : ℕ) (h : List GivenStep)
            → StandsForSteps p first h self.old → OnOk result (StandsForSteps p first
            (Gave (record { from = from; piece = piece_in bytes.now }) ∷ h) self.new) }
        ensures right { (p : Numbers) (first : ℕ) (h : List GivenStep)
            → StandsForSteps p first h self.old
            → OnOk result (given_fault p (rows_given first h) from bytes.now ≡ None) }
        ensures wrong { (p : Numbers) (first : ℕ) (h : List GivenStep)
            → StandsForSteps p first h self.old → IfErr result (λ fault. (fault ≡ PieceFault.Mem)
            ⊎ (given_fault p (rows_given first h) from bytes.now ≡ Some fault)) }
        // Memory is wanted only for a piece without a fault.
        ensures memory { (p : Numbers) (first : ℕ) (h : List GivenStep)
            → StandsForSteps p first h self.old → result ≡ Err PieceFault.Mem
            → given_fault p (rows_given first h) from bytes.now ≡ None }
        ensures len { self.new.len ≡ self.old.len }
        ensures kept { OnErr result (self.new ≡ self.old) }
    {
        if let Some(fault) = self.fault(from, bytes) {
            return Err(fault);
        }
        let Ok(()) = self.take_whole(alloc, from, bytes) else {
            return Err(PieceFault::Mem);
        };
        Ok(())
    }

    /// Takes over the row at the next position, where f + 1 replicas gave an equal one there, and passes that
    /// position. Where they didn't, nothing changes.
    ///
    /// Where two rows have f + 1 replicas, which takes more than f that lie, it is that of the least replica that gave
    /// one of them.
    pub fn next(&mut self) -> Option<LogRow>
        ensures row { (p : Numbers) (first : ℕ) (h : List GivenStep)
            → StandsForSteps p first h self.old → result ≡ next_backed p (rows_given first h) }
        ensures some { (p : Numbers) (first : ℕ) (h : List GivenStep)
            → StandsForSteps p first h self.old
            → OnSome result (StandsForSteps p first (Passed ∷ h) self.new) }
        ensures len { OnSome result (self.new.len ≡ self.old.len + 1) }
        ensures none { IfNone result (self.new ≡ self.old) }
    {
        let len = self.len;
        if len == u32::MAX {
            return None;
        }
        let Some(row) = take_next(self.n, self.f, len, self.places.as_mut_slice()) else {
            return None;
        };
        self.len = len + 1;
        Some(row)
    }

    /// Passes the next position, whose row the caller has from elsewhere. It is below 4,294,967,295. What replicas gave
    /// there is dropped.
    pub fn pass(&mut self)
        requires { self.old.len < 4294967295 }
        ensures passed { (p : Numbers) (first : ℕ) (h : List GivenStep)
            → StandsForSteps p first h self.old → StandsForSteps p first (Passed ∷ h) self.new }
        ensures len { self.new.len ≡ self.old.len + 1 }
    {
        clear(self.places.as_mut_slice(), first_place(self.len));
        self.len += 1;
    }
}
