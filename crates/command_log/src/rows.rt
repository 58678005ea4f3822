//! Rows, and where the row of each client and request stands.

ghost use Rattle.std.specs.Prelude.{◌≡◌, ℕ, ◌<◌, ◌==◌, ◌↔◌, false, List, [], ◌∷◌, length, Some, None, IfOk, OnOk, OnErr};
ghost use Rattle.std.specs.Option.{option_copied};
ghost use Rattle.command_log.specs.Rows.{has_row, row_at, position_of, HasPlace};
ghost use Rattle.command_log.specs.Index.{row_key, HaveFourBytes};

use crate::row::LogRow;
use ritas_base::Mem;
use std::alloc::Global;
use std::collections::BTreeMap;
use std::marker::Model;

/// Rows in the order in which they were entered, one for each client and request. Contracts see them with the newest first.
#[derive(Drop)]
pub struct Rows {
    // The oldest first.
    rows: Vec<LogRow>,
    // The position of each row, by the key of its client and request.
    index: BTreeMap<u64, u32>,
}

impl Model for Rows {
    ghost use Rattle.std.specs.Prelude.{List, reverse};
    ghost use Rattle.command_log.specs.Index.{IsIndexed};
    ghost use Rattle.command_log.specs.Rows.{Row};

    ghost Value = { List Row };

    ghost view = { λ r. reverse r.rows.items };

    ghost invariant = { λ r. IsIndexed r.index (reverse r.rows.items) };
}

/// The key of a client and a request.
pub(crate) fn key_of(client: u32, request: u32) -> u64
    ensures { result ≡ row_key client request }
{
    u64::from(client) * 4_294_967_296 + u64::from(request)
}

impl Rows {
    /// No rows, which takes no memory.
    pub fn new(alloc: Global) -> Rows
        ensures { result ≡ [] }
    {
        Rows {
            rows: Vec::new(alloc),
            index: BTreeMap::new(alloc),
        }
    }

    /// Enters a row, whose client and request have none, and answers its position. There are at most 4,294,967,295. The one
    /// error is want of memory, after which the rows are as they were.
    pub fn enter(&mut self, row: LogRow) -> Result<u32, Mem>
        requires none { has_row self.old row.client row.request ≡ false }
        requires room { length self.old < 4294967295 }
        ensures position { IfOk result (λ position. position ≡ length self.old) }
        ensures ok { OnOk result (self.new ≡ row ∷ self.old) }
        ensures err { OnErr result (self.new ≡ self.old) }
    {
        self.rows.reserve(1)?;
        let position = self.rows.len() as u32;
        self.index
            .insert(key_of(row.client, row.request), position)?;
        self.rows.push_reserved(row);
        Ok(position)
    }

    /// The row at a position, and `None` from `len` on. Positions count from 0, in the order in which the rows were
    /// entered.
    pub fn row(&self, position: u32) -> Option<&LogRow>
        ensures { option_copied result ≡ row_at self.now position }
    {
        self.rows.as_slice().get(position as usize)
    }

    /// The position of the row of this client and request, where they have one.
    pub fn find(&self, client: u32, request: u32) -> Option<u32>
        ensures value { result ≡ position_of self.now client request }
        ensures exact { (position : ℕ) → (result ≡ Some position)
            ↔ HasPlace self.now position client request }
    {
        self.index.get(&key_of(client, request)).copied()
    }

    /// The numbers of each row's client and request have four bytes, as their types have.
    ///
    /// It does nothing: its contract is the fact.
    pub fn numbers_fit(&self)
        ensures { HaveFourBytes self.now }
    {
        let _ = &self.rows;
    }

    /// How many rows there are, which is the position of the next.
    pub fn len(&self) -> u32
        ensures { result ≡ length self.now }
    {
        self.rows.len() as u32
    }
}
