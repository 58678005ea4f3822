//! The row that closes an epoch.

ghost use Rattle.std.specs.Prelude.{◌≡◌, ◌==◌};
ghost use Rattle.command_log.specs.Rows.{closing_client, closes};

use crate::row::LogRow;

/// The client number that is no client's: replicas submit the row that closes an epoch under it.
pub const CLOSING_CLIENT: u32 = 4_294_967_295;

/// Whether a row closes its epoch.
pub fn closes(row: &LogRow) -> bool
    ensures { result ≡ closes row.now }
{
    row.client == CLOSING_CLIENT
}
