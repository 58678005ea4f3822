//! Opening a file of records.
ghost use Rattle.std.specs.Prelude.{◌≡◌, ◌≢◌, ◌<◌, ◌≤◌, ◌+◌, ℕ, true, length, slice_index, Err, IfOk, OnOk};
ghost use Rattle.std.specs.List.{AllByRecursion};
ghost use Rattle.outside.specs.Faults.{CountsFault, HasCause};
ghost use Rattle.outside.specs.Disks.{LeavesOnly, MayLeave, at_rest, disk_state_of};
ghost use Rattle.record_file.specs.Form.{IsForm, first_gate};
ghost use Rattle.record_file.specs.Records.{IsRecord, IsUnmade, Opens, OpensAs, closed_front};
ghost use Rattle.record_file.specs.Reading.{IsBroken, IsForeign, file_seen, records_read};
ghost use Rattle.record_file.specs.Making.{OpensAsKept, OpensFile, OpensLike};

use crate::fault::RecordFault;
use crate::file::RecordFile;
use crate::form::RecordForm;
use crate::making::make;
use crate::reading::{check_head, closed_gate, is_unmade, read_file};
use outside::{Disk, Failed};
use std::alloc::Global;

/// Syncs a disk, and gives all bytes of its file.
///
/// `Full` comes where the file has more bytes than its form allows. `Disk` comes only where the disk failed. At its first
/// call that fails this one ends, and the disk's count of faults rises by one. At any other answer the count stands. An
/// empty file takes no memory, and so never `Mem`.
pub fn read_records<D: Disk>(
    alloc: Global,
    disk: &mut D,
    form: &RecordForm,
) -> Result<Vec<u8>, RecordFault>
    ensures whole { D.tells ≡ true → IfOk result (λ v. v.items ≡ file_seen (D.told disk.old)) }
    ensures rests { D.tells ≡ true
        → IfOk result (λ v. disk_state_of (D.told disk.new) ≡ at_rest v.items) }
    ensures short { IfOk result (λ v. length v.items ≤ form.now.limit) }

    // At each moment every image is one from before.
    ensures since { D.tells ≡ true
        → LeavesOnly (MayLeave (disk_state_of (D.told disk.old)))
        (D.told disk.old) (D.told disk.new) }

    ensures full { (x : ℕ) → result ≡ Err (RecordFault.Full x) → (x ≡ form.now.limit + 1)
        × (D.tells ≡ true → form.now.limit < length (file_seen (D.told disk.old))) }
    ensures memory { D.tells ≡ true → result ≡ Err RecordFault.Mem
        → 0 < length (file_seen (D.told disk.old)) }
    ensures others { (p : ℕ) → (result ≢ Err (RecordFault.Foreign p))
        × (result ≢ Err (RecordFault.Broken p)) }
    ensures cause { HasCause (D.faults disk.old) (D.faults disk.new)
        (result ≡ Err RecordFault.Disk) }
    ensures counts { CountsFault (D.faults disk.old) (D.faults disk.new) result
        (result ≡ Err RecordFault.Disk) }
{
    match disk.sync() {
        Ok(()) => {}
        Err(Failed) => return Err(RecordFault::Disk),
    }
    read_file(alloc, disk, form.limit())
}

// The offset of the closed gate of a made file with this head.
fn decode(form: &RecordForm, head: &[u8], file: &[u8]) -> Result<usize, RecordFault>
    requires form { IsForm form.now }
    requires head { length head.now ≡ form.now.head_length }
    requires long { first_gate form.now < length file.now }
    requires made { slice_index file.now 0 ≡ 1 }
    requires short { length file.now ≤ form.now.limit }
    ensures opens { IfOk result
        (λ at. Opens form.now head.now file.now (records_read form.now file.now)
        × (at ≡ length (closed_front form.now head.now (records_read form.now file.now)))
        × (at < form.now.limit)) }
    ensures foreign { (p : ℕ) → result ≡ Err (RecordFault.Foreign p)
        → IsForeign form.now head.now file.now p }
    ensures broken { (p : ℕ) → result ≡ Err (RecordFault.Broken p)
        → IsBroken form.now head.now file.now p }
    ensures others { (p : ℕ) → (result ≢ Err (RecordFault.Full p))
        × (result ≢ Err RecordFault.Disk) × (result ≢ Err RecordFault.Mem) }
{
    match check_head(file, head) {
        Ok(()) => closed_gate(form, file),
        Err(fault) => Err(fault),
    }
}

/// Opens a file whose bytes `read_records` gave, and makes one that isn't made. It takes no memory. `open_records` is both
/// calls. Who looks at the records before the file is opened makes them one by one.
///
/// `Foreign` comes exactly where the file is made and has another head. `Broken` comes exactly where its head is this one,
/// and an open gate isn't followed by a record and a gate. `Disk` comes only where the disk failed, and only for a file that
/// isn't made.
pub fn open_read<D: Disk>(
    disk: &mut D,
    form: &RecordForm,
    head: &[u8],
    file: &[u8],
) -> Result<RecordFile, RecordFault>
    requires head { length head.now ≡ form.now.head_length }
    requires short { length file.now ≤ form.now.limit }
    ensures opened { D.tells ≡ true → disk_state_of (D.told disk.old) ≡ at_rest file.now
        → IfOk result (λ x. OpensFile form.now head.now (D.told disk.new) x
        (records_read form.now file.now)) }
    ensures live { IfOk result (λ x. (x.form ≡ form.now) × (x.live ≡ true)) }
    ensures gives { OnOk result
        (OpensAs form.now head.now file.now (records_read form.now file.now)) }
    ensures since { D.tells ≡ true → disk_state_of (D.told disk.old) ≡ at_rest file.now
        → LeavesOnly (OpensLike form.now head.now file.now) (D.told disk.old) (D.told disk.new) }
    ensures foreign { (p : ℕ) → result ≡ Err (RecordFault.Foreign p)
        → IsForeign form.now head.now file.now p }
    ensures broken { (p : ℕ) → result ≡ Err (RecordFault.Broken p)
        → IsBroken form.now head.now file.now p }
    ensures others { (p : ℕ) → (result ≢ Err (RecordFault.Full p))
        × (result ≢ Err RecordFault.Mem) }
    ensures made { ¬ IsUnmade form.now file.now → disk.new ≡ disk.old }
    ensures cause { HasCause (D.faults disk.old) (D.faults disk.new)
        (result ≡ Err RecordFault.Disk) }
    ensures counts { CountsFault (D.faults disk.old) (D.faults disk.new) result
        (result ≡ Err RecordFault.Disk) }
{
    let first = form.first_gate();
    if is_unmade(form, file) {
        return match make(disk, file, head) {
            Ok(()) => Ok(RecordFile::at(form, first as u64)),
            Err(Failed) => Err(RecordFault::Disk),
        };
    }
    match decode(form, head, file) {
        Ok(end) => Ok(RecordFile::at(form, end as u64)),
        Err(fault) => Err(fault),
    }
}

/// Opens the file of a disk with this head, and gives its bytes, of which `record_in` gives the records. A file that isn't
/// made is made; of its bytes no record is read.
///
/// `Full` comes where the file has more bytes than its form allows. Else `Foreign` comes where it is made and has another
/// head. Else `Broken` comes where an open gate isn't followed by a record and a gate. By `record_laws` no file is two of
/// these, or one and opens. So each comes exactly there where the disk and the memory don't fail.
///
/// `Disk` comes only where the disk failed. At its first call that fails this one ends, and the disk's count of faults rises
/// by one. At any other answer the count stands. An empty file takes no memory, and so never `Mem`.
pub fn open_records<D: Disk>(
    alloc: Global,
    disk: &mut D,
    form: &RecordForm,
    head: &[u8],
) -> Result<(RecordFile, Vec<u8>), RecordFault>
    requires { length head.now ≡ form.now.head_length }

    // From Ok on, every image is a made file and opens as the records that are read of the bytes.
    ensures opened { D.tells ≡ true
        → IfOk result (λ x. OpensFile form.now head.now (D.told disk.new) x.0
        (records_read form.now x.1.items)) }
    ensures live { IfOk result (λ x. (x.0.form ≡ form.now) × (x.0.live ≡ true)) }
    ensures own { IfOk result
        (λ x. AllByRecursion (IsRecord form.now) (records_read form.now x.1.items)) }

    // The bytes are those of the file that was there, which opened as these records.
    ensures bytes { D.tells ≡ true
        → IfOk result (λ x. x.1.items ≡ file_seen (D.told disk.old)) }
    ensures gives { D.tells ≡ true
        → IfOk result (λ x. OpensAs form.now head.now (file_seen (D.told disk.old))
        (records_read form.now x.1.items)) }

    // At each moment every image is one from before, or opens as one does.
    ensures since { D.tells ≡ true
        → LeavesOnly (OpensAsKept form.now head.now (disk_state_of (D.told disk.old)))
        (D.told disk.old) (D.told disk.new) }

    ensures foreign { D.tells ≡ true → (p : ℕ) → result ≡ Err (RecordFault.Foreign p)
        → IsForeign form.now head.now (file_seen (D.told disk.old)) p }
    ensures broken { D.tells ≡ true → (p : ℕ) → result ≡ Err (RecordFault.Broken p)
        → IsBroken form.now head.now (file_seen (D.told disk.old)) p }
    ensures full { (x : ℕ) → result ≡ Err (RecordFault.Full x) → (x ≡ form.now.limit + 1)
        × (D.tells ≡ true → form.now.limit < length (file_seen (D.told disk.old))) }
    ensures memory { D.tells ≡ true → result ≡ Err RecordFault.Mem
        → 0 < length (file_seen (D.told disk.old)) }
    ensures cause { HasCause (D.faults disk.old) (D.faults disk.new)
        (result ≡ Err RecordFault.Disk) }
    ensures counts { CountsFault (D.faults disk.old) (D.faults disk.new) result
        (result ≡ Err RecordFault.Disk) }
{
    match read_records(alloc, disk, form) {
        Ok(file) => match open_read(disk, form, head, &file) {
            Ok(opened) => Ok((opened, file)),
            Err(fault) => Err(fault),
        },
        Err(fault) => Err(fault),
    }
}
