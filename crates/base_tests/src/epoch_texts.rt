//! Tests of `chain_file`: the text of an epoch, written and read, as a record of a file too. Texts that are none are refused.

use chain_file::{
    EpochFault, EpochParts, chain_form, epoch_len, epochs_are_read, read_epoch, write_epoch,
};
use command_log::{Log, LogRow, Rows};
use outside::{Buffer, Failed, write_all};
use record_file::{record_in, write_front};
use ritas_base::{Bytes, Id, Mem};
use std::alloc::Global;

// Two rows, "hi" of request 1 and nothing of request 258, and one request that waited.
const TEXT: &[u8] = b"\0\0\0\x02\
\x02\0\0\0\x05\0\0\0\x07\0\0\0\x01\0\x02hi\
\0\0\0\0\x06\0\0\0\x07\0\0\x01\x02\0\0\
\0\x01\
\0\x09\0\0\0\x07\0\0\x01\x03!";

// The text is named by one function alone: a proof unfolds a constant wherever it is named.
fn text() -> &'static [u8] {
    TEXT
}

// Large calls, each in a function that promises nothing, so that what makes several has a short proof.

fn read(alloc: Global, text: &[u8]) -> Result<EpochParts, EpochFault> {
    read_epoch(alloc, text)
}

fn is_refused(alloc: Global, text: &[u8]) -> bool {
    match read_epoch(alloc, text) {
        Ok(_) => false,
        Err(fault) => fault == EpochFault::Format,
    }
}

// How many rows and requests are read of a text, and how many bytes all payloads and requests have.
fn counts(alloc: Global, text: &[u8]) -> Option<(usize, usize, usize)> {
    let parts = read(alloc, text).ok()?;
    let mut bytes: usize = 0;
    for row in &parts.rows {
        bytes = bytes.saturating_add(row.payload.as_slice().len());
    }
    for request in &parts.waiting {
        bytes = bytes.saturating_add(request.as_slice().len());
    }
    Some((parts.rows.len(), parts.waiting.len(), bytes))
}

fn append(alloc: Global, log: &mut Log, id: Id, command: &[u8]) {
    if command.len() >= 8 && log.len() < u32::MAX {
        let _ = log.append(alloc, id, command);
    }
}

// The rows of the text.
fn rows(alloc: Global) -> Rows {
    let mut log = Log::new(alloc, 0);
    append(
        alloc,
        &mut log,
        Id { origin: 2, num: 5 },
        b"\0\0\0\x07\0\0\0\x01hi",
    );
    append(
        alloc,
        &mut log,
        Id { origin: 0, num: 6 },
        b"\0\0\0\x07\0\0\x01\x02",
    );
    log.into_rows()
}

// The request that waited.
fn waiting(alloc: Global) -> Result<Bytes, Mem> {
    Bytes::from_slice(alloc, b"\0\0\0\x07\0\0\x01\x03!")
}

// Writes an epoch, where it has a text.
fn write(text: &mut Buffer, rows: &Rows, first: u32, waiting: &[Bytes]) -> Result<(), Failed> {
    match epoch_len(rows, first, waiting) {
        Some(_) => write_epoch(text, rows, first, waiting),
        None => Ok(()),
    }
}

// Writes its record.
fn write_record(text: &mut Buffer, rows: &Rows, waiting: &[Bytes]) -> Result<(), Failed> {
    match epoch_len(rows, 0, waiting) {
        Some(len) => {
            write_front(text, &chain_form(), len)?;
            write_epoch(text, rows, 0, waiting)
        }
        None => Ok(()),
    }
}

// The first record of a file.
fn first_record(file: &[u8]) -> Option<&[u8]> {
    let form = chain_form();
    let (record, _) = record_in(&form, file, form.first_gate())?;
    Some(record)
}

fn is_row(row: &LogRow, id: Id, request: u32, payload: &[u8]) -> bool {
    row.id == id && row.client == 7 && row.request == request && row.payload.as_slice() == payload
}

// Whether these are the rows and the request of the text.
fn are_parts(parts: &EpochParts) -> bool {
    let ([older, newer], [request]) = (parts.rows.as_slice(), parts.waiting.as_slice()) else {
        return false;
    };
    is_row(older, Id { origin: 2, num: 5 }, 1, b"hi")
        && is_row(newer, Id { origin: 0, num: 6 }, 258, b"")
        && request.as_slice() == b"\0\0\0\x07\0\0\x01\x03!".as_slice()
}

#[test]
fn text_is_read(rt: HostRuntime) {
    assert!(rt; read(rt.alloc(), text()).is_ok_and(|parts| are_parts(&parts)));
    assert!(rt; counts(rt.alloc(), b"\0\0\0\0\0\0") == Some((0, 0, 0)));
}

#[test]
fn text_is_written(rt: HostRuntime) {
    let rows = rows(rt.alloc());
    let waiting = [waiting(rt.alloc()).expect(&rt, "memory")];
    assert_eq!(rt; epoch_len(&rows, 0, &waiting), Some(49));
    let mut all = Buffer::new(rt.alloc());
    assert!(rt; write(&mut all, &rows, 0, &waiting).is_ok());
    assert!(rt; all.taken() == text());
    // the second row alone
    let mut one = Buffer::new(rt.alloc());
    assert!(rt; write(&mut one, &rows, 1, &[]).is_ok());
    assert!(rt; counts(rt.alloc(), one.taken()) == Some((1, 0, 0)));
}

#[test]
fn record_is_read(rt: HostRuntime) {
    let waiting = [waiting(rt.alloc()).expect(&rt, "memory")];
    let mut file = Buffer::new(rt.alloc());
    assert!(rt; write_all(&mut file, &[1; 52]).is_ok());
    assert!(rt; write_record(&mut file, &rows(rt.alloc()), &waiting).is_ok());
    assert!(rt; write_all(&mut file, &[0]).is_ok());
    assert!(rt; first_record(file.taken()) == Some(text()));
}

#[test]
fn text_that_is_cut_is_refused(rt: HostRuntime) {
    let whole = text();
    for len in 0..whole.len() {
        assert!(rt; is_refused(rt.alloc(), &whole[..len]), "{len}");
    }
}

// The text with another byte at an offset, or with one byte more.
fn with_byte(alloc: Global, at: usize, byte: u8) -> Result<Vec<u8>, Mem> {
    let mut bytes = Vec::from_slice(alloc, text())?;
    match bytes.get_mut(at) {
        Some(place) => *place = byte,
        None => bytes.push(byte)?,
    }
    Ok(bytes)
}

fn is_changed_refused(alloc: Global, at: usize, byte: u8) -> bool {
    match with_byte(alloc, at, byte) {
        Ok(bytes) => is_refused(alloc, &bytes),
        Err(_) => false,
    }
}

#[test]
fn other_texts_are_refused(rt: HostRuntime) {
    // a byte more
    assert!(rt; is_changed_refused(rt.alloc(), text().len(), 0));
    // a row or a request more or fewer
    for (at, byte) in [(3, 3), (3, 1), (0, 255), (37, 2), (37, 0), (36, 255)] {
        assert!(rt; is_changed_refused(rt.alloc(), at, byte), "{at}");
    }
    // a payload or a request that is longer or shorter
    for (at, byte) in [
        (18, 3),
        (18, 1),
        (17, 255),
        (39, 10),
        (39, 8),
        (39, 7),
        (38, 16),
    ] {
        assert!(rt; is_changed_refused(rt.alloc(), at, byte), "{at}");
    }
}

// The text of so many rows with payloads, and so many requests, of these lengths.
fn text_of(
    alloc: Global,
    rows: u32,
    payload: u16,
    requests: u16,
    request: u16,
) -> Result<Vec<u8>, Mem> {
    let mut text = Vec::from_slice(alloc, &rows.to_be_bytes())?;
    for _ in 0..rows {
        text.extend_from_slice(b"\x01\0\0\0\x02\0\0\0\x03\0\0\0\x04")?;
        text.extend_from_slice(&payload.to_be_bytes())?;
        text.extend_from_slice(&vec![in alloc; b'p'; usize::from(payload)]?)?;
    }
    text.extend_from_slice(&requests.to_be_bytes())?;
    for _ in 0..requests {
        text.extend_from_slice(&request.to_be_bytes())?;
        text.extend_from_slice(&vec![in alloc; b'r'; usize::from(request)]?)?;
    }
    Ok(text)
}

fn counts_of(
    alloc: Global,
    rows: u32,
    payload: u16,
    requests: u16,
    request: u16,
) -> Option<(usize, usize, usize)> {
    let text = text_of(alloc, rows, payload, requests, request).ok()?;
    counts(alloc, &text)
}

// Where memory is ample, an epoch of any size is read.
#[test]
fn long_texts_are_read(rt: HostRuntime) {
    assert!(rt; counts_of(rt.alloc(), 3, 65_535, 2, 4_096) == Some((3, 2, 204_797)));
    assert!(rt; counts_of(rt.alloc(), 1_000, 10, 65_535, 8) == Some((1_000, 65_535, 534_280)));
    // a request has 8 to 4,096 bytes
    assert!(rt; counts_of(rt.alloc(), 0, 0, 1, 4_097).is_none());
    assert!(rt; counts_of(rt.alloc(), 0, 0, 1, 7).is_none());
}

// The law is a function that does nothing.
#[test]
fn law_can_be_called(_rt: HostRuntime) {
    epochs_are_read();
}
