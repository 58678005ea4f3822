//! How long the text of an epoch is.

ghost use Rattle.std.specs.Prelude.{◌≡◌, ◌<◌, ◌≤◌, ◌^◌, ◌+◌, length, take, drop, reverse, IfNone, IfSome, MatchOption};
ghost use Rattle.std.specs.List.{AllByRecursion};
ghost use Rattle.command_log.specs.Pieces.{row_front, row_size, rows_bytes};
ghost use Rattle.chain_file.specs.Epochs.{FitsRow, IsEpoch, IsRequest, epoch_from, epoch_text, requests_text};

use client_port::PIECE_ROW_FRONT;
use command_log::{LogRow, Rows};
use ritas_base::{Bytes, Id, LEAST_REQUEST, LONGEST_INPUT};

// How long a row of these parts is, if its payload fits.
fn len_of(id: Id, client: u32, request: u32, payload: &[u8]) -> Option<u64>
    ensures { MatchOption result (2 ^ 16 ≤ length payload.now)
        (λ len. (id.origin < 2 ^ 8) × (id.num < 2 ^ 32) × (client < 2 ^ 32) × (request < 2 ^ 32)
        × (length payload.now < 2 ^ 16) × (len ≡ row_front + length payload.now)) }
{
    let _ = (id, client, request);
    if payload.len() > 65_535 {
        return None;
    }
    Some((PIECE_ROW_FRONT + payload.len()) as u64)
}

// How long a row is, if it fits.
fn row_len(row: &LogRow) -> Option<u64>
    ensures { MatchOption result (¬ FitsRow row.now)
        (λ len. FitsRow row.now × (len ≡ row_size row.now) × (len < 65551)) }
{
    len_of(row.id, row.client, row.request, row.payload.as_slice())
}

// How long the row at a position is, where there is one, if it fits.
fn row_len_at(rows: &Rows, position: u32) -> Option<u64>
    ensures { MatchOption result
        (¬ AllByRecursion FitsRow (take 1 (drop position (reverse rows.now))))
        (λ len. AllByRecursion FitsRow (take 1 (drop position (reverse rows.now)))
        × (len ≡ length (rows_bytes (take 1 (drop position (reverse rows.now)))))
        × (len < 65551)) }
{
    match rows.row(position) {
        Some(row) => row_len(row),
        None => Some(0),
    }
}

// How long the rows from a position on are, if each fits.
fn rows_len(rows: &Rows, first: u32) -> Option<u64>
    ensures { MatchOption result (¬ AllByRecursion FitsRow (drop first (reverse rows.now)))
        (λ len. AllByRecursion FitsRow (drop first (reverse rows.now))
        × (len ≡ length (rows_bytes (drop first (reverse rows.now)))) × (len < 2 ^ 49)
        × (length (drop first (reverse rows.now)) < 2 ^ 32)) }
{
    let mut len = 0;
    for position in first..rows.len() {
        match row_len_at(rows, position) {
            Some(more) => len += more,
            None => return None,
        }
    }
    Some(len)
}

// How long a request is with its length, if it is one.
fn request_len(request: &[u8]) -> Option<u64>
    ensures { MatchOption result (¬ IsRequest request.now)
        (λ len. IsRequest request.now × (len ≡ 2 + length request.now) × (len < 4099)) }
{
    if request.len() < LEAST_REQUEST {
        return None;
    }
    if request.len() > LONGEST_INPUT {
        return None;
    }
    Some((2 + request.len()) as u64)
}

// How long the requests are, if each is one.
fn requests_len(waiting: &[Bytes]) -> Option<u64>
    requires { length waiting.now < 2 ^ 16 }
    ensures { MatchOption result (¬ AllByRecursion IsRequest waiting.now)
        (λ len. AllByRecursion IsRequest waiting.now
        × (len ≡ length (requests_text waiting.now)) × (len < 2 ^ 32)) }
{
    let mut len = 0;
    for request in waiting {
        match request_len(request.as_slice()) {
            Some(more) => len += more,
            None => return None,
        }
    }
    Some(len)
}

/// How many bytes the text of an epoch has, so that the front of its record can be written before
/// it. The rows of the epoch are those from position `first` on.
///
/// `None` is answered exactly where it has no text, or one that is too long for a record: more than
/// 4,294,967,295 bytes. It takes no memory.
pub fn epoch_len(rows: &Rows, first: u32, waiting: &[Bytes]) -> Option<u32>
    ensures some { IfSome result (λ len. IsEpoch (epoch_from rows.now first waiting.now)
        × (len ≡ length (epoch_text (epoch_from rows.now first waiting.now)))) }
    ensures none { IfNone result (IsEpoch (epoch_from rows.now first waiting.now)
        → 2 ^ 32 ≤ length (epoch_text (epoch_from rows.now first waiting.now))) }
{
    if waiting.len() > 65_535 {
        return None;
    }
    match rows_len(rows, first) {
        Some(rows_len) => match requests_len(waiting) {
            Some(requests_len) => record_len(6 + rows_len + requests_len),
            None => None,
        },
        None => None,
    }
}

// A length that a record may have.
fn record_len(len: u64) -> Option<u32>
    ensures { MatchOption result (2 ^ 32 ≤ len) (λ short. short ≡ len) }
{
    if len > 4_294_967_295 {
        return None;
    }
    Some(len as u32)
}
