//! Reading the text of an epoch.

ghost use Rattle.std.specs.Prelude.{◌≡◌, Err, IfOk, MatchResult};
ghost use Rattle.std.specs.Int.{w16, w32, to_be_bytes};
ghost use Rattle.command_log.specs.Pieces.{row_bytes, rows_bytes};
ghost use Rattle.chain_file.specs.declared.fault.EpochFault.TheVariants as faults;
ghost use Rattle.chain_file.specs.Epochs.{ClosedEpoch, EpochIs, FitsRow, IsEpoch, IsNoEpoch, IsRequest, epoch_text, request_text, requests_text};
ghost use Rattle.chain_file.specs.Reading.{AreRequests, AreRows, HasFourBytes, HasLength, HasTwoBytes, ReadsFront, epoch_read};

use crate::fault::EpochFault;
use command_log::LogRow;
use ritas_base::{Bytes, Id, LEAST_REQUEST, LONGEST_INPUT};
use std::alloc::Global;

/// The rows and the requests of an epoch, the oldest first.
#[derive(Drop)]
pub struct EpochParts {
    /// The rows that the chain got.
    pub rows: Vec<LogRow>,
    /// The requests that waited.
    pub waiting: Vec<Bytes>,
}

// The number in the first two bytes, and what follows it.
fn two_bytes(bytes: &[u8]) -> Result<(u16, &[u8]), EpochFault>
    ensures { ReadsFront HasTwoBytes (to_be_bytes w16) bytes.now (λ x. (x.0, x.1.now)) result }
{
    let [b1, b0, rest @ ..] = bytes else {
        return Err(EpochFault::Format);
    };
    Ok((u16::from_be_bytes([*b1, *b0]), rest))
}

// The number in the first four bytes, and what follows it.
fn four_bytes(bytes: &[u8]) -> Result<(u32, &[u8]), EpochFault>
    ensures { ReadsFront HasFourBytes (to_be_bytes w32) bytes.now (λ x. (x.0, x.1.now)) result }
{
    let [b3, b2, b1, b0, rest @ ..] = bytes else {
        return Err(EpochFault::Format);
    };
    Ok((u32::from_be_bytes([*b3, *b2, *b1, *b0]), rest))
}

// So many bytes, and what follows them.
fn block(len: u16, bytes: &[u8]) -> Result<(&[u8], &[u8]), EpochFault>
    ensures { ReadsFront (HasLength len) (λ l. l) bytes.now (λ x. (x.0.now, x.1.now)) result }
{
    let len = usize::from(len);
    if bytes.len() < len {
        return Err(EpochFault::Format);
    }
    Ok(bytes.split_at(len))
}

// A row, and what follows it.
fn read_row(alloc: Global, bytes: &[u8]) -> Result<(LogRow, &[u8]), EpochFault>
    ensures { ReadsFront FitsRow row_bytes bytes.now (λ x. (x.0, x.1.now)) result }
{
    let Some((origin, rest)) = bytes.split_first() else {
        return Err(EpochFault::Format);
    };
    let (num, rest) = four_bytes(rest)?;
    let (client, rest) = four_bytes(rest)?;
    let (request, rest) = four_bytes(rest)?;
    let (size, rest) = two_bytes(rest)?;
    let (payload, rest) = block(size, rest)?;
    let row = LogRow {
        id: Id {
            origin: *origin,
            num,
        },
        client,
        request,
        payload: Bytes::from_slice(alloc, payload)?,
    };
    Ok((row, rest))
}

// A request, and what follows it.
fn read_request(alloc: Global, bytes: &[u8]) -> Result<(Bytes, &[u8]), EpochFault>
    ensures { ReadsFront IsRequest request_text bytes.now (λ x. (x.0, x.1.now)) result }
{
    let (len, rest) = two_bytes(bytes)?;
    if usize::from(len) < LEAST_REQUEST || usize::from(len) > LONGEST_INPUT {
        return Err(EpochFault::Format);
    }
    let (request, rest) = block(len, rest)?;
    Ok((Bytes::from_slice(alloc, request)?, rest))
}

// So many rows, the oldest first, and what follows them.
fn read_rows(alloc: Global, count: u32, bytes: &[u8]) -> Result<(Vec<LogRow>, &[u8]), EpochFault>
    ensures { ReadsFront (AreRows count) rows_bytes bytes.now (λ x. (x.0.items, x.1.now)) result }
{
    let mut rows = Vec::new(alloc);
    let mut rest = bytes;
    for _ in 0..count {
        let (row, more) = read_row(alloc, rest)?;
        rows.push(row)?;
        rest = more;
    }
    Ok((rows, rest))
}

// So many requests, the oldest first, and what follows them.
fn read_requests(alloc: Global, count: u16, bytes: &[u8]) -> Result<(Vec<Bytes>, &[u8]), EpochFault>
    ensures { ReadsFront (AreRequests count) requests_text bytes.now
        (λ x. (x.0.items, x.1.now)) result }
{
    let mut requests = Vec::new(alloc);
    let mut rest = bytes;
    for _ in 0..count {
        let (request, more) = read_request(alloc, rest)?;
        requests.push(request)?;
        rest = more;
    }
    Ok((requests, rest))
}

// The text of an epoch, and what follows it.
fn read_parts(alloc: Global, bytes: &[u8]) -> Result<(EpochParts, &[u8]), EpochFault>
    ensures { ReadsFront IsEpoch epoch_text bytes.now
        (λ x. (epoch_read x.0.rows.items x.0.waiting.items, x.1.now)) result }
{
    let (count, rest) = four_bytes(bytes)?;
    let (rows, rest) = read_rows(alloc, count, rest)?;
    let (count, rest) = two_bytes(rest)?;
    let (waiting, rest) = read_requests(alloc, count, rest)?;
    Ok((EpochParts { rows, waiting }, rest))
}

/// Reads the text of an epoch, once, from the left. Nothing may follow it.
///
/// `Ok` is answered only where the text is that of an epoch, and gives this epoch. `Format` is
/// answered only where it is the text of none. `Mem` may come with any text, since memory is taken
/// for each row and each request as it is read. So no more is taken than the text has rows and
/// requests, whatever its counts say.
pub fn read_epoch(alloc: Global, text: &[u8]) -> Result<EpochParts, EpochFault>
    ensures ok { IfOk result (λ e. EpochIs text.now (epoch_read e.rows.items e.waiting.items)) }
    ensures format { result ≡ Err faults.Format → IsNoEpoch text.now }
    ensures only { (e : ClosedEpoch) → EpochIs text.now e → MatchResult result
        (λ x. epoch_read x.rows.items x.waiting.items ≡ e) (λ fault. fault ≡ faults.Mem) }
{
    let (epoch, rest) = read_parts(alloc, text)?;
    if !rest.is_empty() {
        return Err(EpochFault::Format);
    }
    Ok(epoch)
}
