//! Reading the bytes of a file of records.
ghost use Rattle.std.specs.Prelude.{◌≡◌, ◌≢◌, ◌<◌, ◌≤◌, ◌+◌, ◌^◌, ◌∷◌, ◌↔◌, ℕ, List, None, Some, true, length, take, slice_index, Err, IfNone, IfOk, IfSome, OnOk, IsTrue, MatchOption};
ghost use Rattle.outside.specs.Faults.{CountsFault, HasCause};
ghost use Rattle.record_file.specs.Form.{first_gate, length_in, width_of};
ghost use Rattle.record_file.specs.Records.{IsRecord, IsUnmade};
ghost use Rattle.record_file.specs.Reading.{AtGate, HasFront, file_seen, gate_behind, record_at, record_behind, records_read};

use crate::fault::RecordFault;
use crate::form::{LengthWidth, RecordForm};
use outside::Disk;
use std::alloc::Global;

// So many bytes are read at once.
const PIECE: usize = 16_384;

/// All bytes of a disk's file, if it has at most `limit`.
pub(crate) fn read_file<D: Disk>(
    alloc: Global,
    disk: &mut D,
    limit: u64,
) -> Result<Vec<u8>, RecordFault>
    requires { limit < 2 ^ 33 }
    ensures whole { D.tells ≡ true → IfOk result (λ v. v.items ≡ file_seen (D.told disk.old)) }
    ensures short { IfOk result (λ v. length v.items ≤ limit) }
    ensures full { (x : ℕ) → result ≡ Err (RecordFault.Full x) → (x ≡ limit + 1)
        × (D.tells ≡ true → limit < length (file_seen (D.told disk.old))) }
    ensures others { (p : ℕ) → (result ≢ Err (RecordFault.Foreign p))
        × (result ≢ Err (RecordFault.Broken p)) }
    ensures same { D.tells ≡ true → D.told disk.new ≡ D.told disk.old }
    // An empty file takes no memory.
    ensures memory { D.tells ≡ true → result ≡ Err RecordFault.Mem
        → 0 < length (file_seen (D.told disk.old)) }
    ensures cause { HasCause (D.faults disk.old) (D.faults disk.new)
        (result ≡ Err RecordFault.Disk) }
    ensures counts { CountsFault (D.faults disk.old) (D.faults disk.new) result
        (result ≡ Err RecordFault.Disk) }
{
    let mut file = Vec::new(alloc);
    let mut piece = [0; PIECE];
    while file.len() as u64 <= limit {
        let came = disk.read(file.len() as u64, &mut piece)?;
        if came == 0 {
            return Ok(file);
        }
        file.extend_from_slice(&piece[..came])?;
    }
    Err(RecordFault::Full(limit + 1))
}

/// Whether a file isn't made.
pub(crate) fn is_unmade(form: &RecordForm, file: &[u8]) -> bool
    ensures { IsTrue result ↔ IsUnmade form.now file.now }
{
    file.len() < form.first_gate() + 1 || file[0] != 1
}

// The length that the first bytes say.
fn length_in(width: LengthWidth, bytes: &[u8]) -> usize
    requires { width_of width ≤ length bytes.now }
    ensures { result ≡ length_in width bytes.now }
{
    match width {
        LengthWidth::Two => u16::from_be_bytes([bytes[0], bytes[1]]) as usize,
        LengthWidth::Four => {
            u32::from_be_bytes([bytes[0], bytes[1], bytes[2], bytes[3]]) as usize
        }
    }
}

// The record behind an open gate.
fn record_behind<'a>(form: &RecordForm, bytes: &'a [u8]) -> Option<&'a [u8]>
    ensures { MatchOption result (record_behind form.now bytes.now ≡ None)
        (λ r. record_behind form.now bytes.now ≡ Some r.now) }
{
    let width = form.width();
    if bytes.len() < width.bytes() {
        return None;
    }
    let rest = &bytes[width.bytes()..];
    let size = length_in(width, bytes);
    if size < rest.len() {
        Some(&rest[..size])
    } else {
        None
    }
}

// The record of a file at the gate at an offset.
fn found_at<'a>(form: &RecordForm, file: &'a [u8], at: usize) -> Option<&'a [u8]>
    ensures { MatchOption result (record_at form.now file.now at ≡ None)
        (λ r. record_at form.now file.now at ≡ Some r.now) }
{
    if file.len() <= at || file[0] != 1 || file[at] != 1 {
        return None;
    }
    record_behind(form, &file[at + 1..])
}

/// The record of a file at the gate at an offset, and the offset of the gate behind it. There is none at a closed gate,
/// and none in a file that isn't made. Nor is there one where an open gate isn't followed by a record and a gate.
///
/// So a file is read by calls from `first_gate` on, each at the offset that the last one gave, until there is none. What
/// these gave are all records of the file, the oldest first (`last`).
pub fn record_in<'a>(form: &RecordForm, file: &'a [u8], at: usize) -> Option<(&'a [u8], usize)>
    ensures exact { MatchOption result (record_at form.now file.now at ≡ None)
        (λ x. (record_at form.now file.now at ≡ Some x.0.now)
        × (x.1 ≡ gate_behind form.now at x.0.now)) }
    ensures fits { IfSome result
        (λ x. IsRecord form.now x.0.now × (at < x.1) × (x.1 < length file.now)) }
    ensures next { (rs : List (List ℕ)) → AtGate form.now file.now at rs
        → IfSome result (λ x. AtGate form.now file.now x.1 (x.0.now ∷ rs)) }
    ensures last { (rs : List (List ℕ)) → AtGate form.now file.now at rs
        → IfNone result (records_read form.now file.now ≡ rs) }

    // What was read of a made file stands in front of the gate.
    ensures front { (head : List ℕ) (rs : List (List ℕ))
        → take (first_gate form.now) file.now ≡ 1 ∷ head → first_gate form.now < length file.now
        → AtGate form.now file.now at rs → HasFront form.now head file.now at rs }
{
    match found_at(form, file, at) {
        Some(found) => Some((found, at + (form.width().bytes() + found.len() + 1))),
        None => None,
    }
}

/// The offset of the closed gate of a made file.
pub(crate) fn closed_gate(form: &RecordForm, file: &[u8]) -> Result<usize, RecordFault>
    requires long { first_gate form.now < length file.now }
    requires made { slice_index file.now 0 ≡ 1 }
    requires short { length file.now ≤ form.now.limit }
    ensures found { IfOk result
        (λ at. AtGate form.now file.now at (records_read form.now file.now)
        × (at < length file.now) × (slice_index file.now at ≢ 1)) }
    ensures broken { (p : ℕ) → result ≡ Err (RecordFault.Broken p)
        → AtGate form.now file.now p (records_read form.now file.now)
        × (slice_index file.now p ≡ 1) × (record_at form.now file.now p ≡ None) }
    ensures others { (p : ℕ) → (result ≢ Err (RecordFault.Foreign p))
        × (result ≢ Err (RecordFault.Full p)) × (result ≢ Err RecordFault.Disk)
        × (result ≢ Err RecordFault.Mem) }
{
    let mut at = form.first_gate();
    while let Some((_, next)) = record_in(form, file, at) {
        at = next;
    }
    if file[at] == 1 {
        return Err(RecordFault::Broken(at as u32));
    }
    Ok(at)
}

/// Whether a made file has this head.
pub(crate) fn check_head(file: &[u8], head: &[u8]) -> Result<(), RecordFault>
    requires short { length head.now < 256 }
    requires long { length head.now + 1 < length file.now }
    requires made { slice_index file.now 0 ≡ 1 }
    ensures same { OnOk result (take (length head.now + 1) file.now ≡ 1 ∷ head.now) }
    ensures foreign { (p : ℕ) → result ≡ Err (RecordFault.Foreign p)
        → (1 ≤ p) × (p < length head.now + 1) × (take p file.now ≡ take p (1 ∷ head.now))
        × (slice_index file.now p ≢ slice_index (1 ∷ head.now) p) }
    ensures others { (p : ℕ) → (result ≢ Err (RecordFault.Broken p))
        × (result ≢ Err (RecordFault.Full p)) × (result ≢ Err RecordFault.Disk)
        × (result ≢ Err RecordFault.Mem) }
{
    for (i, byte) in head.iter().enumerate() {
        if file[i + 1] != *byte {
            return Err(RecordFault::Foreign(i as u32 + 1));
        }
    }
    Ok(())
}
