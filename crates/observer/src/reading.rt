//! A piece, read from the left.

ghost use Rattle.std.specs.Prelude.{◌≡◌, ℕ, ◌+◌, ◌<◌, ◌≤◌, List, ◌++◌, length, take, drop, None, IfOk, OnOk, OnErr, IfSome, IfNone, MatchOption};
ghost use Rattle.command_log.specs.Pieces.{row_front, piece_front, longest_log_piece};
ghost use Rattle.observer.specs.Reading.{two_at, row_at_front, rows_at_front, payload_size, row_left, rows_left, front_left, piece_left, form_fault, row_count_in, AreWhole, IsWhole};

use client_port::{
    LONGEST_LOG_PIECE, MOST_PIECE_ROWS, PIECE_FORM, PIECE_FRONT, PIECE_ROW_FRONT, number_at,
};
use command_log::LogRow;
use ritas_base::{Bytes, Id, LONGEST_PAYLOAD, Mem, NUMBER_LIMIT};
use std::alloc::Global;

/// The offset of a piece's position.
pub(crate) const POSITION: usize = 1;

/// The offset of its number of rows.
pub(crate) const COUNT: usize = 5;

// The number in two bytes.
#[tactic(auto, unfolding(crate::specs::Reading::two_at))]
fn two_at(bytes: &[u8], at: usize) -> u16
    requires { at + 2 ≤ length bytes.now }
    ensures { result ≡ two_at at bytes.now }
{
    u16::from_be_bytes([bytes[at], bytes[at + 1]])
}

/// The length of the payload of the row with which the bytes begin.
pub(crate) fn payload_size(bytes: &[u8]) -> usize
    requires { row_front ≤ length bytes.now }
    ensures { result ≡ payload_size bytes.now }
{
    usize::from(two_at(bytes, 13))
}

// How many bytes are left from the first fault of a row on.
#[tactic(auto, unfolding(crate::specs::Reading::row_left))]
fn row_left(n: u8, bytes: &[u8]) -> Option<usize>
    ensures value { result ≡ row_left n bytes.now }
    ensures within { MatchOption result (row_front + payload_size bytes.now ≤ length bytes.now)
        (λ left. left ≤ length bytes.now) }
{
    let len = bytes.len();
    if len < 1 {
        return Some(0);
    }
    if bytes[0] >= n {
        return Some(len);
    }
    if len < 5 {
        return Some(0);
    }
    if number_at(bytes, 1) >= NUMBER_LIMIT {
        return Some(len - 1);
    }
    if len < PIECE_ROW_FRONT {
        return Some(0);
    }
    let size = payload_size(bytes);
    if size > LONGEST_PAYLOAD {
        return Some(len - 13);
    }
    if len < PIECE_ROW_FRONT + size {
        return Some(0);
    }
    None
}

// How many bytes are left from the first fault of so many rows on, or from what follows them.
fn rows_left(n: u8, count: u8, bytes: &[u8]) -> Option<usize>
    ensures value { result ≡ rows_left n count bytes.now }
    ensures within { IfSome result (λ left. left ≤ length bytes.now) }
{
    if count == 0 {
        return if bytes.is_empty() {
            None
        } else {
            Some(bytes.len())
        };
    }
    if let Some(left) = row_left(n, bytes) {
        return Some(left);
    }
    let size = PIECE_ROW_FRONT + payload_size(bytes);
    rows_left(n, count - 1, &bytes[size..])
}

// How many bytes are left from the first fault in front of the rows on.
#[tactic(auto, unfolding(crate::specs::Reading::front_left))]
fn front_left(bytes: &[u8]) -> Option<usize>
    ensures value { result ≡ front_left bytes.now }
    ensures within { MatchOption result (piece_front ≤ length bytes.now) (λ left. left ≤ length bytes.now) }
{
    let len = bytes.len();
    if len < 1 {
        return Some(0);
    }
    if bytes[0] != PIECE_FORM {
        return Some(len);
    }
    if len < PIECE_FRONT {
        return Some(0);
    }
    let count = bytes[COUNT];
    if count > MOST_PIECE_ROWS
        || u64::from(number_at(bytes, POSITION)) + u64::from(count) > 4_294_967_295
    {
        return Some(len - 5);
    }
    None
}

// How many bytes are left from the first fault of a piece on.
fn piece_left(n: u8, bytes: &[u8]) -> Option<usize>
    ensures value { result ≡ piece_left n bytes.now }
    ensures within { IfSome result (λ left. left ≤ length bytes.now) }
{
    if let Some(left) = front_left(bytes) {
        return Some(left);
    }
    rows_left(n, bytes[COUNT], &bytes[PIECE_FRONT..])
}

// As many bytes as a piece may have.
fn front_of(bytes: &[u8]) -> &[u8]
    ensures { result.now ≡ take longest_log_piece bytes.now }
{
    if bytes.len() > LONGEST_LOG_PIECE {
        &bytes[..LONGEST_LOG_PIECE]
    } else {
        bytes
    }
}

/// The offset of the first byte that is wrong, missing or too much, where the bytes aren't a piece of n replicas.
#[tactic(auto, unfolding(crate::specs::Reading::form_fault))]
pub(crate) fn form_fault(n: u8, bytes: &[u8]) -> Option<u32>
    ensures value { result ≡ form_fault n bytes.now }
    ensures whole { IfNone result (IsWhole bytes.now) }
{
    let short = front_of(bytes);
    match piece_left(n, short) {
        Some(left) => Some((short.len() - left) as u32),
        None => {
            if bytes.len() > LONGEST_LOG_PIECE {
                Some(LONGEST_LOG_PIECE as u32)
            } else {
                None
            }
        }
    }
}

// The row with which the bytes begin. The one error is want of memory.
fn row_at_front(alloc: Global, bytes: &[u8]) -> Result<LogRow, Mem>
    requires { row_front + payload_size bytes.now ≤ length bytes.now }
    ensures { IfOk result (λ row. row ≡ row_at_front bytes.now) }
{
    let size = payload_size(bytes);
    let payload = Bytes::from_slice(alloc, &bytes[PIECE_ROW_FRONT..PIECE_ROW_FRONT + size])?;
    Ok(LogRow {
        id: Id {
            origin: bytes[0],
            num: number_at(bytes, 1),
        },
        client: number_at(bytes, 5),
        request: number_at(bytes, 9),
        payload,
    })
}

/// Appends so many rows, which are whole there. The one error is want of memory, which comes only
/// where there is a row.
pub(crate) fn read_rows(
    alloc: Global,
    rows: &mut Vec<LogRow>,
    count: u8,
    bytes: &[u8],
) -> Result<(), Mem>
    requires { AreWhole count bytes.now }
    ensures rows { OnOk result (rows.new.items ≡ rows.old.items ++ rows_at_front count bytes.now) }
    ensures memory { OnErr result (0 < count) }
{
    if count == 0 {
        return Ok(());
    }
    rows.push(row_at_front(alloc, bytes)?)?;
    let size = PIECE_ROW_FRONT + payload_size(bytes);
    read_rows(alloc, rows, count - 1, &bytes[size..])
}
