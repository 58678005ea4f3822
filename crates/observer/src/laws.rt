//! The laws of pieces, for whoever puts a log together from them.

ghost use Rattle.observer.specs.Laws.{LongestLaw, RowLaw, GivenRowLaw, LogLaw, AllEnteredLaw, PieceIsOfLog, PieceIsRead, PieceWasWritten};

/// A law: let at least n - f of n replicas be correct, and their logs be prefixes of one list. Where more than f
/// replicas gave a row at a position, and each correct one of them has it there, it is the row of the longest correct
/// log there. Where two correct replicas' logs are always prefixes one of the other, there is a longest one.
///
/// It does nothing: its contract is the law.
pub fn row_is_true()
    ensures longest { LongestLaw }
    ensures row { RowLaw }
{}

/// A law of `GivenRows`: let at least n - f of n replicas be correct, and their logs be prefixes of one list. Let each
/// piece that a correct replica gave be one of its log at some moment. Then the row that f + 1 replicas gave at the
/// next position is that of the longest correct log there. It holds from any position on, and whichever positions were
/// passed.
///
/// It does nothing: its contract is the law.
pub fn given_row_is_true()
    ensures { GivenRowLaw }
{}

/// A law: let at least n - f of n replicas be correct, their logs be prefixes of one list, and each piece that a
/// correct replica gave be one of its log at some moment. Then the log of an observer that took these pieces is a
/// prefix of the longest correct log. It is as long as the pieces make it: no row waits at its end that f + 1 replicas
/// gave.
///
/// It does nothing: its contract is the law.
pub fn log_is_true()
    ensures prefix { LogLaw }
    ensures whole { AllEnteredLaw }
{}

/// The laws of pieces: what `write_piece` makes of a log is of that log. What spells a piece is read as it, and what
/// is read without a fault spells it.
///
/// It does nothing: its contract is the law.
pub fn pieces_are_read()
    ensures of_log { PieceIsOfLog }
    ensures read { PieceIsRead }
    ensures written { PieceWasWritten }
{}
