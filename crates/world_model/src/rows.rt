//! The rows of columns, and what replicas met.

ghost use Rattle.std.specs.Prelude.{◌≡◌, Some};
ghost use Rattle.std.specs.Option.{option_copied};
ghost use Rattle.world_model.specs.Audit.{is_among};
ghost use Rattle.world_model.specs.Met.{entries_given, is_expected, is_unknown};

use crate::met::{EntryPair, Met};
use frame_codec::column_entry;

// Whether a row is the entry that is expected, if one is.
fn is_expected(pair: Option<&EntryPair>, row: &[u8]) -> bool
    ensures { result ≡ is_expected (option_copied pair.entry) (Some row.now) }
{
    match pair {
        Some(pair) => row == pair.expected.as_slice(),
        None => false,
    }
}

// Whether a row is one of the entries that a replica gave, if it met anything.
fn was_given(met: Option<&Met>, likely: u8, row: &[u8]) -> bool
    ensures { result ≡ is_among (entries_given (option_copied met.entry)) (Some row.now) }
{
    match met {
        Some(met) => met.gives(likely, row),
        None => false,
    }
}

/// Whether a column has the entry of an echoer that replica me expects, which met this, where the echoer hadn't given it.
pub(crate) fn is_unknown(
    met: &Met,
    me: u8,
    echoers: Option<&Met>,
    echoer: u8,
    column: &[u8],
) -> bool
    ensures { result ≡ is_unknown met.now (option_copied echoers.entry) echoer column.now }
{
    match column_entry(column, echoer) {
        Some(row) => is_expected(met.pair(echoer), row) && !was_given(echoers, me, row),
        None => false,
    }
}
