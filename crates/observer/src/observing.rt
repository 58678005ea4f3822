//! The observer: its log, and the rows that wait for it to come to their positions.

ghost use Rattle.std.specs.Prelude.{◌≡◌, ℕ, ◌+◌, ◌⊎◌, List, [], ◌∷◌, length, Some, None, Err, IfOk, OnOk, IfErr, OnErr};
ghost use Rattle.std.specs.Option.{option_copied};
ghost use Rattle.ritas_base.specs.Numbers.{Numbers};
ghost use Rattle.command_log.specs.Rows.{row_at};
ghost use Rattle.observer.specs.Reading.{piece_in};
ghost use Rattle.observer.specs.Giving.{Gift};
ghost use Rattle.observer.specs.Watching.{observed, piece_fault};
ghost use Rattle.observer.specs.Standing.{StandsForGifts};

use crate::entering::enter_rows;
use crate::fault::PieceFault;
use crate::given::GivenRows;
use command_log::LogRow;
use ritas_base::{Mem, Params};
use std::alloc::Global;
use std::marker::Model;

/// A log that is put together from the pieces that replicas give of theirs. Contracts see it as a `Watcher`.
#[derive(Drop)]
pub struct Observer {
    // The oldest first.
    rows: Vec<LogRow>,
    // What replicas gave from the log's length on.
    given: GivenRows,
}

impl Model for Observer {
    ghost use Rattle.std.specs.Prelude.{◌≡◌, length, reverse};
    ghost use Rattle.observer.specs.Standing.{Watcher};

    ghost Value = { Watcher };

    ghost view = { λ o. record {
      numbers = o.given.numbers;
      rows = reverse o.rows.items;
      places = o.given.places;
    } };

    ghost invariant = { λ o. o.given.len ≡ length o.rows.items };
}

impl Observer {
    /// An observer of the logs of so many replicas, of which at most f are faulty. It has no rows yet. The one error
    /// is want of memory.
    pub fn new(alloc: Global, p: &Params) -> Result<Observer, Mem>
        ensures { IfOk result (λ o. StandsForGifts p.now [] o) }
    {
        Ok(Observer {
            rows: Vec::new(alloc),
            given: GivenRows::new(alloc, p, 0)?,
        })
    }

    /// How many rows the log has, which is the position of the next.
    pub fn len(&self) -> u32
        ensures { result ≡ length self.now.rows }
    {
        self.given.len()
    }

    /// The row at a position, and `None` from `len` on.
    pub fn row(&self, position: u32) -> Option<&LogRow>
        ensures { option_copied result ≡ row_at self.now.rows position }
    {
        self.rows.as_slice().get(position as usize)
    }

    /// Takes a piece that a replica gave, and answers how many rows it enters.
    ///
    /// Each replica's first row for each of the 64 positions from `len` on is kept. Then the row at `len` is entered,
    /// again and again, as long as f + 1 replicas gave an equal one there. Where two rows have f + 1 replicas, which
    /// takes more than f that lie, it is that of the least replica that gave one of them. What isn't taken is refused
    /// with the first of `PieceFault` that holds, and leaves the observer as it was.
    pub fn piece(&mut self, alloc: Global, from: u8, bytes: &[u8]) -> Result<u32, PieceFault>
        ensures taken { (p : Numbers) (h : List Gift) → StandsForGifts p h self.old
            → OnOk result (StandsForGifts p (record { from = from; piece = piece_in bytes.now } ∷ h) self.new) }
        ensures right { (p : Numbers) (h : List Gift) → StandsForGifts p h self.old
            → OnOk result (piece_fault p (observed p h) from bytes.now ≡ None) }
        ensures wrong { (p : Numbers) (h : List Gift) → StandsForGifts p h self.old
            → IfErr result (λ fault.
            (fault ≡ PieceFault.Mem) ⊎ (piece_fault p (observed p h) from bytes.now ≡ Some fault)) }
        // Memory is wanted only for a piece without a fault.
        ensures memory { (p : Numbers) (h : List Gift) → StandsForGifts p h self.old
            → result ≡ Err PieceFault.Mem → piece_fault p (observed p h) from bytes.now ≡ None }
        ensures count { IfOk result (λ count. count + length self.old.rows ≡ length self.new.rows) }
        ensures kept { OnErr result (self.new ≡ self.old) }
    {
        if let Some(fault) = self.given.fault(from, bytes) {
            return Err(fault);
        }
        let Ok(()) = self.rows.reserve(64) else {
            return Err(PieceFault::Mem);
        };
        let Ok(()) = self.given.take_whole(alloc, from, bytes) else {
            return Err(PieceFault::Mem);
        };
        Ok(enter_rows(&mut self.rows, &mut self.given, 64))
    }
}
