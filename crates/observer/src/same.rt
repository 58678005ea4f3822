//! Rows that are one, and the row that f + 1 replicas gave.

ghost use Rattle.std.specs.Prelude.{◌≡◌, ◌<◌, length, count_by};
ghost use Rattle.std.specs.List.{position};
ghost use Rattle.observer.specs.Giving.{is_same_row, is_row, givers, is_backed_gift};

use command_log::LogRow;

/// Whether two rows are one.
pub(crate) fn is_same_row(one: &LogRow, other: &LogRow) -> bool
    ensures { result ≡ is_same_row one.now other.now }
{
    one.id.origin == other.id.origin
        && one.id.num == other.id.num
        && one.client == other.client
        && one.request == other.request
        && one.payload.is_same(&other.payload)
}

// Whether this row was given.
fn is_row(row: &LogRow, gift: &Option<LogRow>) -> bool
    ensures { result ≡ is_row row.now gift.now }
{
    match gift {
        Some(other) => is_same_row(other, row),
        None => false,
    }
}

// How many of what replicas gave are this row.
fn givers(gifts: &[Option<LogRow>], row: &LogRow) -> usize
    ensures { result ≡ givers gifts.now row.now }
{
    gifts.iter().filter(|gift| is_row(row, gift)).count()
}

// Whether f + 1 of them are what was given.
fn is_backed_gift(f: u8, gifts: &[Option<LogRow>], gift: &Option<LogRow>) -> bool
    ensures { result ≡ is_backed_gift f gifts.now gift.now }
{
    match gift {
        Some(row) => usize::from(f) < givers(gifts, row),
        None => false,
    }
}

/// The place of the first row that f + 1 of them are.
pub(crate) fn first_backed(f: u8, gifts: &[Option<LogRow>]) -> Option<usize>
    ensures { result ≡ position (is_backed_gift f gifts.now) gifts.now }
{
    gifts.iter().position(|gift| is_backed_gift(f, gifts, gift))
}
