//! Writing the text of an epoch.

ghost use Rattle.std.specs.Prelude.{◌≡◌, ◌<◌, ◌^◌, ◌++◌, length, take, drop, reverse, IsErr};
ghost use Rattle.command_log.specs.Pieces.{row_bytes, rows_bytes};
ghost use Rattle.std.specs.List.{AllByRecursion};
ghost use Rattle.outside.specs.Writing.{Writes};
ghost use Rattle.chain_file.specs.Epochs.{FitsRow, IsEpoch, IsRequest, epoch_from, epoch_text, request_text, requests_text, rows_from, rows_text, waiting_text};

use client_port::PIECE_ROW_FRONT;
use command_log::{LogRow, Rows};
use outside::{Failed, Sink, write_all};
use ritas_base::Bytes;

// What a row begins with: its identifier, the client's number, the request's, and the length of the payload.
fn row_front(row: &LogRow) -> [u8; PIECE_ROW_FRONT]
    requires { length row.now.payload < 2 ^ 16 }
    ensures { result ++ row.now.payload ≡ row_bytes row.now }
{
    let [n3, n2, n1, n0] = row.id.num.to_be_bytes();
    let [c3, c2, c1, c0] = row.client.to_be_bytes();
    let [r3, r2, r1, r0] = row.request.to_be_bytes();
    let [l1, l0] = (row.payload.as_slice().len() as u16).to_be_bytes();
    [
        row.id.origin,
        n3,
        n2,
        n1,
        n0,
        c3,
        c2,
        c1,
        c0,
        r3,
        r2,
        r1,
        r0,
        l1,
        l0,
    ]
}

// A row.
fn write_row<K: Sink>(sink: &mut K, row: &LogRow) -> Result<(), Failed>
    requires { length row.now.payload < 2 ^ 16 }
    ensures { Writes (row_bytes row.now) K.tells (K.taken sink.old) (K.taken sink.new)
        (K.faults sink.old) (K.faults sink.new) result (IsErr result) }
{
    write_all(sink, &row_front(row))?;
    write_all(sink, row.payload.as_slice())
}

// The row at a position, where there is one.
fn write_row_at<K: Sink>(sink: &mut K, rows: &Rows, position: u32) -> Result<(), Failed>
    requires { AllByRecursion FitsRow (drop position (reverse rows.now)) }
    ensures { Writes (rows_bytes (take 1 (drop position (reverse rows.now)))) K.tells
        (K.taken sink.old) (K.taken sink.new) (K.faults sink.old) (K.faults sink.new)
        result (IsErr result) }
{
    match rows.row(position) {
        Some(row) => write_row(sink, row),
        None => Ok(()),
    }
}

// The rows from a position on, the oldest first.
fn write_rows_from<K: Sink>(sink: &mut K, rows: &Rows, first: u32) -> Result<(), Failed>
    requires { AllByRecursion FitsRow (drop first (reverse rows.now)) }
    ensures { Writes (rows_bytes (drop first (reverse rows.now))) K.tells
        (K.taken sink.old) (K.taken sink.new) (K.faults sink.old) (K.faults sink.new)
        result (IsErr result) }
{
    for position in first..rows.len() {
        write_row_at(sink, rows, position)?;
    }
    Ok(())
}

// How many rows there are from a position on.
fn row_count(rows: &Rows, first: u32) -> u32
    ensures { result ≡ length (rows_from rows.now first) }
{
    rows.len().saturating_sub(first)
}

// How many rows there are from a position on, and these.
fn write_rows<K: Sink>(sink: &mut K, rows: &Rows, first: u32) -> Result<(), Failed>
    requires { AllByRecursion FitsRow (rows_from rows.now first) }
    ensures { Writes (rows_text (rows_from rows.now first)) K.tells
        (K.taken sink.old) (K.taken sink.new) (K.faults sink.old) (K.faults sink.new)
        result (IsErr result) }
{
    write_all(sink, &row_count(rows, first).to_be_bytes())?;
    write_rows_from(sink, rows, first)
}

// A request that waited.
fn write_request<K: Sink>(sink: &mut K, request: &[u8]) -> Result<(), Failed>
    requires { IsRequest request.now }
    ensures { Writes (request_text request.now) K.tells (K.taken sink.old) (K.taken sink.new)
        (K.faults sink.old) (K.faults sink.new) result (IsErr result) }
{
    write_all(sink, &(request.len() as u16).to_be_bytes())?;
    write_all(sink, request)
}

// Requests, one after the other.
fn write_requests<K: Sink>(sink: &mut K, waiting: &[Bytes]) -> Result<(), Failed>
    requires { AllByRecursion IsRequest waiting.now }
    ensures { Writes (requests_text waiting.now) K.tells (K.taken sink.old) (K.taken sink.new)
        (K.faults sink.old) (K.faults sink.new) result (IsErr result) }
{
    for request in waiting {
        write_request(sink, request.as_slice())?;
    }
    Ok(())
}

// How many requests waited, and these.
fn write_waiting<K: Sink>(sink: &mut K, waiting: &[Bytes]) -> Result<(), Failed>
    requires few { length waiting.now < 2 ^ 16 }
    requires each { AllByRecursion IsRequest waiting.now }
    ensures { Writes (waiting_text waiting.now) K.tells (K.taken sink.old) (K.taken sink.new)
        (K.faults sink.old) (K.faults sink.new) result (IsErr result) }
{
    write_all(sink, &(waiting.len() as u16).to_be_bytes())?;
    write_requests(sink, waiting)
}

/// Writes the text of an epoch: of its rows, which are those from position `first` on, and of the
/// requests that waited as it was closed. `epoch_len` tells whether there is one, and how long it is.
/// It takes no memory.
///
/// `Failed` is answered only where the sink's count of faults rose, or stands at its last value. The
/// sink then took a front of the text.
pub fn write_epoch<K: Sink>(
    sink: &mut K,
    rows: &Rows,
    first: u32,
    waiting: &[Bytes],
) -> Result<(), Failed>
    requires { IsEpoch (epoch_from rows.now first waiting.now) }
    ensures { Writes (epoch_text (epoch_from rows.now first waiting.now)) K.tells
        (K.taken sink.old) (K.taken sink.new) (K.faults sink.old) (K.faults sink.new)
        result (IsErr result) }
{
    write_rows(sink, rows, first)?;
    write_waiting(sink, waiting)
}
