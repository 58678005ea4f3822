//! The log of commands: a row is entered at the (f + 1)st origin of its command, once for each client and request. In an epoch of a
//! chain a closing row ends it.

ghost use Rattle.std.specs.Prelude.{◌≡◌, ℕ, ◌+◌, ◌<◌, ◌≤◌, ◌==◌, ◌↔◌, true, false, List, [], ◌∷◌, length, take, drop, Some, None, Ok, IfOk, OnOk, OnErr, if◌then◌else◌};
ghost use Rattle.std.specs.Option.{option_copied};
ghost use Rattle.std.specs.Int.{w32, from_be_bytes};
ghost use Rattle.ritas_base.specs.Limits.{least_request};
ghost use Rattle.command_log.specs.Origins.{origin_count};
ghost use Rattle.command_log.specs.Rows.{CommandEntry, client_of, request_of, row_with, row_of, has_row, is_origin, alone, chained_on, has_ended, own_rows, row_at, position_of, entered, HasPlace};
ghost use Rattle.command_log.specs.Index.{row_key, HaveFourBytes};
ghost use Rattle.command_log.specs.Standing.{own_of, StandsFor, HasEntered, WaitsWith, IsEntryLost};

use crate::closing::closes;
use crate::origins::OriginSet;
use crate::row::LogRow;
use crate::rows::{Rows, key_of};
use crate::waiting::Waiting;
use ritas_base::{Bytes, Id, Mem};
use std::alloc::Global;
use std::marker::Model;

// The number that four bytes are.
fn number(command: &[u8], at: usize) -> u32
    requires { at + 4 ≤ length command.now }
    ensures { result ≡ from_be_bytes w32 (take 4 (drop at command.now)) }
{
    u32::from_be_bytes([
        command[at],
        command[at + 1],
        command[at + 2],
        command[at + 3],
    ])
}

// The payload of a command.
fn payload_of(command: &[u8]) -> &[u8]
    requires { least_request ≤ length command.now }
    ensures { result.now ≡ drop 8 command.now }
{
    &command[8..]
}

/// The log of commands. Contracts see it as a `Ledger`, whose rows have the newest first.
#[derive(Drop)]
pub struct Log {
    // A command has its row from its (f + 1)st origin on.
    f: u8,
    // Those of its base too.
    rows: Rows,
    // How many rows its base has.
    base_len: u32,
    // Whether a closing row above the base ends it.
    chained: bool,
    // Whether one did.
    ended: bool,
    // The origins of the commands whose client and request have no row.
    waiting: Waiting,
}

impl Model for Log {
    ghost use Rattle.command_log.specs.Standing.{Ledger, ledger_of, IsMarked};
    ghost use Rattle.command_log.specs.contracts.waiting.Waiting as e;
    ghost use Rattle.std.specs.Coded.{codes};

    ghost Value = { Ledger };

    ghost coded = { Prim.hlevel (codes, e.the_row.coded) };

    ghost view = { λ l. ledger_of l.f l.rows l.base_len l.chained l.waiting };

    ghost invariant = { λ l.
        IsMarked (ledger_of l.f l.rows l.base_len l.chained l.waiting) l.base_len l.ended };
}

impl Log {
    // A log that begins with these rows.
    fn begin(alloc: Global, f: u8, rows: Rows, chained: bool) -> Log
        ensures origins { result.f ≡ f }
        ensures start { result.start ≡ record { base = rows; chained = chained } }
        ensures stands { StandsFor result [] }
    {
        Log {
            f,
            base_len: rows.len(),
            chained,
            ended: false,
            rows,
            waiting: Waiting::new(alloc),
        }
    }

    /// The log of a session by itself. It has no rows, and takes no memory. A command gets its row at its (f + 1)st origin.
    pub fn new(alloc: Global, f: u8) -> Log
        ensures origins { result.f ≡ f }
        ensures start { result.start ≡ alone }
        ensures stands { StandsFor result [] }
    {
        Log::begin(alloc, f, Rows::new(alloc), false)
    }

    /// The log of an epoch of a chain. It begins with the rows of the epochs before, which are its base, and takes no memory. A
    /// command gets its row at its (f + 1)st origin, and no more once a closing row stands above the base.
    pub fn over(alloc: Global, f: u8, rows: Rows) -> Log
        ensures origins { result.f ≡ f }
        ensures start { result.start ≡ chained_on rows }
        ensures stands { StandsFor result [] }
    {
        Log::begin(alloc, f, rows, true)
    }

    /// Its rows, with those of its base: the base of the next epoch's log.
    pub fn into_rows(self) -> Rows
        ensures { result ≡ self.rows }
    {
        self.rows
    }

    /// How many rows its base has, which is the position of the first row above it.
    pub fn base_len(&self) -> u32
        ensures { result ≡ length self.now.start.base }
    {
        self.base_len
    }

    /// Whether the log is that of an epoch of a chain, which a closing row ends.
    pub fn is_chained(&self) -> bool
        ensures { result ≡ self.now.start.chained }
    {
        self.chained
    }

    /// Whether the log is that of an epoch of a chain, and one of its rows above the base closes the epoch. Then it enters nothing
    /// more. It takes the same time however many rows there are.
    pub fn is_over(&self) -> bool
        ensures exact { result ≡ has_ended self.now.start (own_of self.now) }
        ensures stands { (es : List CommandEntry) → StandsFor self.now es
            → result ≡ has_ended self.now.start (own_rows self.now.start self.now.f es) }
    {
        self.ended
    }

    // Enters a row, whose client and request have none, where the log isn't over, and answers its position. What waited for it
    // is let go of.
    fn enter(
        &mut self,
        alloc: Global,
        id: Id,
        client: u32,
        request: u32,
        payload: &[u8],
    ) -> Result<u32, Mem>
        requires lasts { has_ended self.old.start (own_of self.old) ≡ false }
        requires none { has_row self.old.rows client request ≡ false }
        requires room { length self.old.rows < 4294967295 }
        ensures position { IfOk result (λ position. position ≡ length self.old.rows) }
        ensures ok { let r = row_with id client request payload.now in
            OnOk result (HasEntered self.old self.new r) }
        ensures err { OnErr result (self.new ≡ self.old) }
    {
        let row = LogRow {
            id,
            client,
            request,
            payload: Bytes::from_slice(alloc, payload)?,
        };
        let closing = closes(&row);
        let position = self.rows.enter(row)?;
        self.ended = self.chained && closing;
        self.waiting.remove(key_of(client, request));
        Ok(position)
    }

    // A command has these origins now, whose client and request have no row, and the log isn't over. Where they are enough, its row
    // is entered with this identifier, and the row's position is answered; and else it waits with them.
    fn settle(
        &mut self,
        alloc: Global,
        id: Id,
        client: u32,
        request: u32,
        payload: &[u8],
        origins: OriginSet,
    ) -> Result<Option<u32>, Mem>
        requires lasts { has_ended self.old.start (own_of self.old) ≡ false }
        requires none { has_row self.old.rows client request ≡ false }
        requires room { length self.old.rows < 4294967295 }
        ensures many { let r = row_with id client request payload.now in
            self.old.f < origin_count origins
            → IfOk result (λ position. position ≡ Some (length self.old.rows))
            × OnOk result (HasEntered self.old self.new r) }
        ensures few { let r = row_with id client request payload.now in
            origin_count origins ≤ self.old.f
            → IfOk result (λ position. position ≡ None)
            × OnOk result (WaitsWith self.old self.new r origins) }
        ensures err { let r = row_with id client request payload.now in
            OnErr result (IsEntryLost self.old self.new r) }
        ensures f { self.new.f ≡ self.old.f }
        ensures start { self.new.start ≡ self.old.start }
    {
        if origins.len() > u16::from(self.f) {
            return Ok(Some(self.enter(alloc, id, client, request, payload)?));
        }
        self.waiting
            .keep(alloc, key_of(client, request), payload, origins)?;
        Ok(None)
    }

    /// Takes the next command of the identifier log. Where it is confirmed by this origin, its row is entered, and the row's
    /// position is answered.
    ///
    /// The command has its client's number and its request's, of four bytes each, the most significant first, and then its
    /// payload. It is confirmed as soon as it came from f + 1 different origins. `None` is answered where it isn't confirmed yet,
    /// and where its client and request have a row, in the base too. Once the log is over, `None` is answered, and nothing
    /// changes. The log has at most 4,294,967,295 rows. The one error is want of memory, after which the log is as it was. It
    /// comes only where the client and request have no row, and where the command hasn't come from this origin before.
    pub fn append(&mut self, alloc: Global, id: Id, command: &[u8]) -> Result<Option<u32>, Mem>
        requires long { least_request ≤ length command.now }
        requires room { length self.old.rows < 4294967295 }
        ensures position { let e : CommandEntry = record { id = id; command = command.now } in
            (es : List CommandEntry) → StandsFor self.old es
            → IfOk result (λ position. position ≡ entered self.old.start self.old.f e es) }
        ensures ok { let e : CommandEntry = record { id = id; command = command.now } in
            (es : List CommandEntry) → StandsFor self.old es
            → OnOk result (StandsFor self.new (e ∷ es)) }
        ensures err { (es : List CommandEntry) → StandsFor self.old es
            → OnErr result (StandsFor self.new es) }
        ensures kept { OnErr result (self.new.rows ≡ self.old.rows) }
        ensures f { self.new.f ≡ self.old.f }
        ensures start { self.new.start ≡ self.old.start }
        ensures over { has_ended self.old.start (own_of self.old) ≡ true
            → (result ≡ Ok None) × (self.new ≡ self.old) }
        ensures only { OnErr result
            (has_row self.old.rows (client_of command.now) (request_of command.now) ≡ false) }
        ensures first { let e : CommandEntry = record { id = id; command = command.now } in
            (es : List CommandEntry) → StandsFor self.old es
            → OnErr result (is_origin es (row_of e) id.origin ≡ false) }
    {
        if self.is_over() {
            return Ok(None);
        }
        let client = number(command, 0);
        let request = number(command, 4);
        if self.find(client, request).is_some() {
            return Ok(None);
        }
        let payload = payload_of(command);
        let origins = self.waiting.origins(key_of(client, request), payload);
        if origins.has(id.origin) {
            return Ok(None);
        }
        self.settle(alloc, id, client, request, payload, origins.with(id.origin))
    }

    /// The row at a position, and `None` from `len` on. Positions count from 0, in the order in which the rows were
    /// entered.
    pub fn row(&self, position: u32) -> Option<&LogRow>
        ensures { option_copied result ≡ row_at self.now.rows position }
    {
        self.rows.row(position)
    }

    /// The position of the row of this client and request, where they have one.
    pub fn find(&self, client: u32, request: u32) -> Option<u32>
        ensures value { result ≡ position_of self.now.rows client request }
        ensures exact { (position : ℕ) → (result ≡ Some position) ↔ HasPlace self.now.rows position client request }
    {
        self.rows.find(client, request)
    }

    /// The numbers of each row's client and request have four bytes, as their types have.
    ///
    /// It does nothing: its contract is the fact.
    pub fn numbers_fit(&self)
        ensures { HaveFourBytes self.now.rows }
    {
        self.rows.numbers_fit()
    }

    /// How many rows there are, which is the position of the next.
    pub fn len(&self) -> u32
        ensures { result ≡ length self.now.rows }
    {
        self.rows.len()
    }
}
