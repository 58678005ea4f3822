//! The rows that f + 1 replicas gave at the log's length, entered.

ghost use Rattle.std.specs.Prelude.{◌≡◌, ◌+◌, ◌≤◌, length, vec_len, vec_capacity};
ghost use Rattle.observer.specs.Standing.{HasEnteredGiven};

use crate::given::GivenRows;
use command_log::LogRow;

/// Enters rows at the end of the log, again and again, so many at most, as long as f + 1 replicas gave the next one.
/// It answers how many.
pub(crate) fn enter_rows(rows: &mut Vec<LogRow>, given: &mut GivenRows, times: u8) -> u32
    requires next { given.old.len ≡ length rows.old.items }
    requires room { vec_len rows.old + times ≤ vec_capacity rows.old }
    ensures rows { HasEnteredGiven times rows.old.items given.old rows.new.items given.new }
    ensures count { result + vec_len rows.old ≡ vec_len rows.new }
    ensures few { result ≤ times }
    ensures next { given.new.len ≡ length rows.new.items }
{
    if times == 0 {
        return 0;
    }
    let Some(row) = given.next() else {
        return 0;
    };
    rows.push_reserved(row);
    1 + enter_rows(rows, given, times - 1)
}
