//! Pieces of a log, written: the rows from a position on.

ghost use Rattle.std.specs.Prelude.{◌≡◌, ℕ, ◌+◌, ◌-◌, ◌<◌, ◌≤◌, ◌^◌, List, ◌++◌, length, drop, reverse, IfOk, OnOk};
ghost use Rattle.command_log.specs.Pieces.{row_bytes, rows_bytes, rows_within, piece_bytes, piece_of_log};

use command_log::{Log, LogRow};
use ritas_base::{Bytes, Mem};
use std::alloc::Global;

/// The first byte of a piece.
pub const PIECE_FORM: u8 = 3;

/// A piece begins with so many bytes: its form, the position, and how many rows there are.
pub const PIECE_FRONT: usize = 6;

/// A row of a piece begins with so many bytes, and then has its payload.
pub const PIECE_ROW_FRONT: usize = 15;

/// A piece has at most so many rows.
pub const MOST_PIECE_ROWS: u8 = 8;

/// A piece has at most so many bytes.
pub const LONGEST_LOG_PIECE: usize = 16_384;

// What a row begins with: its identifier, the client's number, the request's, and the length of the payload.
fn row_front(row: &LogRow) -> [u8; PIECE_ROW_FRONT]
    requires { length row.now.payload < 2 ^ 16 }
    ensures { result ++ row.now.payload ≡ row_bytes row.now }
{
    let [n3, n2, n1, n0] = row.id.num.to_be_bytes();
    let [c3, c2, c1, c0] = row.client.to_be_bytes();
    let [r3, r2, r1, r0] = row.request.to_be_bytes();
    let [l1, l0] = (row.payload.as_slice().len() as u16).to_be_bytes();
    [
        row.id.origin,
        n3,
        n2,
        n1,
        n0,
        c3,
        c2,
        c1,
        c0,
        r3,
        r2,
        r1,
        r0,
        l1,
        l0,
    ]
}

// Appends a row.
fn write_row(bytes: &mut Vec<u8>, row: &LogRow) -> Result<(), Mem>
    requires { length row.now.payload < 2 ^ 16 }
    ensures { OnOk result (bytes.new.items ≡ bytes.old.items ++ row_bytes row.now) }
{
    bytes.extend_from_slice(&row_front(row))?;
    bytes.extend_from_slice(row.payload.as_slice())?;
    Ok(())
}

// Appends the rows from a position on, so many at most and of no more than so many bytes. It answers how many they
// are.
fn write_rows(
    bytes: &mut Vec<u8>,
    log: &Log,
    position: u32,
    most: u8,
    room: usize,
) -> Result<u8, Mem>
    requires { room ≤ 16378 }
    ensures rows { OnOk result (bytes.new.items ≡
        bytes.old.items ++ rows_bytes (rows_within most room (drop position (reverse log.now.rows)))) }
    ensures count { IfOk result (λ count.
        count ≡ length (rows_within most room (drop position (reverse log.now.rows)))) }
    ensures few { IfOk result (λ count. count ≤ most) }
{
    if most == 0 || position >= log.len() {
        return Ok(0);
    }
    let Some(row) = log.row(position) else {
        return Ok(0);
    };
    let size = PIECE_ROW_FRONT + row.payload.as_slice().len();
    if size > room {
        return Ok(0);
    }
    write_row(bytes, row)?;
    Ok(1 + write_rows(bytes, log, position + 1, most - 1, room - size)?)
}

/// The piece of a log from a position on: its form, the position, how many rows it has, and the rows, in their order.
///
/// It has as many rows as there are, 8 at most, and no more than make a piece of 16,384 bytes. From a position behind
/// the last row it has none. The one error is want of memory.
pub fn write_piece(alloc: Global, log: &Log, position: u32) -> Result<Bytes, Mem>
    ensures { IfOk result (λ bytes. bytes ≡ piece_bytes (piece_of_log log.now.rows position)) }
{
    let mut rows = Vec::new(alloc);
    let room = LONGEST_LOG_PIECE - PIECE_FRONT;
    let count = write_rows(&mut rows, log, position, MOST_PIECE_ROWS, room)?;
    let mut piece = Vec::new(alloc);
    piece.push(PIECE_FORM)?;
    piece.extend_from_slice(&position.to_be_bytes())?;
    piece.push(count)?;
    piece.extend_from_slice(rows.as_slice())?;
    Ok(Bytes::from_vec(piece))
}
