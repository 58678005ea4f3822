//! The laws of the rows, for replicas: one for each client and request, whose command has f + 1 origins.

ghost use Rattle.std.specs.Prelude.{◌≡◌, ℕ, ◌+◌, ◌*◌, ◌<◌, ◌≤◌, true, List, ◌++◌, length, Option, ◌⊎◌};
ghost use Rattle.ritas_base.specs.Limits.{number_limit};
ghost use Rattle.ritas_base.specs.declared.id.Id.{Id};
ghost use Rattle.layer_api.specs.Words.{Word};
ghost use Rattle.layer_api.specs.Service.{IsPart, ServiceRules, Seat, AreProper, WordLaws};
ghost use Rattle.command_log.specs.Rows.{CommandEntry, Row, Start, has_row, is_origin, origins, is_closed, alone, has_ended, own_rows, rows_over, rows_of, entries_of_log, command_rows, chain_rows, AreOnce, IsIn, HasRow};
ghost use Rattle.command_log.specs.Fresh.{fresh, closed_part};
ghost use Rattle.command_log.specs.Laws.{IsRowOf, IsOriginOf};

/// The laws of the rows of an identifier log. Each client and request has one row. The rows of a part of an identifier
/// log are a part of the rows, where the same commands were delivered. Each row is that of an identifier of the log. Its
/// command has more than f different origins, and a command that has so many has a row of its client and request. An origin
/// of a command is that of an identifier of the log, of which that command was delivered.
///
/// It does nothing: its contract is the law.
pub fn command_rows()
    ensures once { (f : ℕ) (es : List CommandEntry) → AreOnce (rows_of f es) }
    ensures part { (f : ℕ) (a b : Id → Option (List ℕ)) (xs ys : List Id) → IsPart xs ys → ((x : Id) → IsIn x xs → a x ≡ b x)
        → IsPart (command_rows f a xs) (command_rows f b ys) }
    ensures listed { (f : ℕ) (a : Id → Option (List ℕ)) (xs : List Id) (r : Row) → HasRow (command_rows f a xs) r → IsRowOf a xs r }
    ensures confirmed { (f : ℕ) (es : List CommandEntry) (r : Row) → HasRow (rows_of f es) r → f < origins es r }
    ensures covered { (f : ℕ) (es : List CommandEntry) (r : Row) → f < origins es r → has_row (rows_of f es) r.client r.request ≡ true }
    ensures origin { (a : Id → Option (List ℕ)) (xs : List Id) (r : Row) (k : ℕ) → is_origin (entries_of_log a xs) r k ≡ true → IsOriginOf a xs r k }
{}

/// The laws of the rows of an identifier log over any base. The base is a part of them, and each client and request has one
/// row, where it is so in the base. The rows of a part of an identifier log are a part of the rows, where the same commands were
/// delivered. Each row above the base is that of an identifier of the log, so there are no more of them than identifiers.
/// Its command has more than f different origins. A command that has so many has a row of its client and request, or the log
/// is over.
///
/// In an epoch of a chain the rows above the base are what the chain gets of the rows of a session by itself. It gets those
/// that are fresh, up to the first of them that closes, and the log is over exactly where one of the fresh rows closes. Over
/// no base the rows are those of a session by itself.
///
/// It does nothing: its contract is the law.
pub fn chain_rows()
    ensures base { (s : Start) (f : ℕ) (es : List CommandEntry) → IsPart s.base (rows_over s f es) }
    ensures once { (s : Start) (f : ℕ) (es : List CommandEntry)
        → AreOnce s.base → AreOnce (rows_over s f es) }
    ensures part { (s : Start) (f : ℕ) (a b : Id → Option (List ℕ)) (xs ys : List Id)
        → IsPart xs ys → ((x : Id) → IsIn x xs → a x ≡ b x)
        → IsPart (chain_rows s f a xs) (chain_rows s f b ys) }
    ensures listed { (s : Start) (f : ℕ) (a : Id → Option (List ℕ)) (xs : List Id) (r : Row)
        → HasRow (own_rows s f (entries_of_log a xs)) r → IsRowOf a xs r }
    ensures many { (s : Start) (f : ℕ) (a : Id → Option (List ℕ)) (xs : List Id)
        → length (chain_rows s f a xs) ≤ length s.base + length xs }
    ensures confirmed { (s : Start) (f : ℕ) (es : List CommandEntry) (r : Row)
        → HasRow (own_rows s f es) r → f < origins es r }
    ensures covered { (s : Start) (f : ℕ) (es : List CommandEntry) (r : Row) → f < origins es r
        → (has_row (rows_over s f es) r.client r.request ≡ true)
        ⊎ (has_ended s (own_rows s f es) ≡ true) }
    ensures of_log { (s : Start) (f : ℕ) (es : List CommandEntry) → s.chained ≡ true
        → own_rows s f es ≡ closed_part (fresh s.base (rows_of f es)) }
    ensures over { (s : Start) (f : ℕ) (es : List CommandEntry) → s.chained ≡ true
        → has_ended s (own_rows s f es) ≡ is_closed (fresh s.base (rows_of f es)) }
    ensures no_base { (f : ℕ) (es : List CommandEntry) → rows_over alone f es ≡ rows_of f es }
{}

/// The laws of a log that follows an identifier log. There are at most 31,000,000 identifiers, and no more rows. The entries
/// of an identifier log are the same by what was delivered before and now, where what was delivered of its identifiers
/// stays.
///
/// It does nothing: its contract is the law.
pub fn log_follows()
    ensures identifiers { (r : ServiceRules) → WordLaws r → (seat : Seat) (w : List Word) → AreProper r seat w → length (r.done seat w) ≤ 31 * number_limit }
    ensures rows { (f : ℕ) (a : Id → Option (List ℕ)) (xs : List Id) → length (command_rows f a xs) ≤ length xs }
    ensures entries { (before now : Id → Option (List ℕ)) (xs : List Id) → ((x : Id) → IsIn x xs → before x ≡ now x) → entries_of_log before xs ≡ entries_of_log now xs }
{}
