//! The first position at which a replica gave another row before.

ghost use Rattle.std.specs.Prelude.{◌≡◌, ℕ, ◌+◌, ◌<◌, ◌≤◌, nat_le, length, None, if◌then◌else◌};
ghost use Rattle.command_log.specs.Pieces.{row_front};
ghost use Rattle.observer.specs.Reading.{row_at_front, rows_at_front, payload_size, AreWhole};
ghost use Rattle.observer.specs.Giving.{is_same_row, is_another_row, changed_from};
ghost use Rattle.observer.specs.Places.{placed, each, all_places};

use crate::keeping::first_place;
use crate::reading::payload_size;
use client_port::{PIECE_ROW_FRONT, number_at};
use command_log::LogRow;

// Whether a row is the one with which the bytes begin.
fn is_row_in(row: &LogRow, bytes: &[u8]) -> bool
    requires { row_front + payload_size bytes.now ≤ length bytes.now }
    ensures { result ≡ is_same_row row.now (row_at_front bytes.now) }
{
    let size = payload_size(bytes);
    row.id.origin == bytes[0]
        && row.id.num == number_at(bytes, 1)
        && row.client == number_at(bytes, 5)
        && row.request == number_at(bytes, 9)
        && row.payload.as_slice() == &bytes[PIECE_ROW_FRONT..PIECE_ROW_FRONT + size]
}

// Whether another row was given than the one with which the bytes begin.
fn is_another_row(gift: &Option<LogRow>, bytes: &[u8]) -> bool
    requires { row_front + payload_size bytes.now ≤ length bytes.now }
    ensures { result ≡ is_another_row (row_at_front bytes.now) gift.now }
{
    match gift {
        Some(row) => !is_row_in(row, bytes),
        None => false,
    }
}

/// The first position from `len` on at which another row of this replica is kept than these, which it gives from a
/// position on.
pub(crate) fn changed(
    places: &[Option<LogRow>],
    from: u8,
    len: u32,
    first: u32,
    count: u8,
    bytes: &[u8],
) -> Option<u32>
    requires sized { length places.now ≡ all_places }
    requires within { from < each }
    requires below { first + count ≤ 4294967295 }
    requires whole { AreWhole count bytes.now }
    ensures { result ≡ changed_from (λ at. if nat_le len at then placed places.now from at else None) first
        (rows_at_front count bytes.now) }
{
    if count == 0 {
        return None;
    }
    if first >= len && is_another_row(&places[first_place(first) + usize::from(from)], bytes) {
        return Some(first);
    }
    let size = PIECE_ROW_FRONT + payload_size(bytes);
    changed(places, from, len, first + 1, count - 1, &bytes[size..])
}
