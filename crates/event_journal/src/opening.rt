//! Opening a journal.
ghost use Rattle.std.specs.Prelude.{◌≡◌, ◌<◌, ◌≤◌, ◌+◌, ◌↔◌, ℕ, true, length, reverse, slice_index, Err, IfOk, ◌≢◌};
ghost use Rattle.outside.specs.Faults.{CountsFault, HasCause};
ghost use Rattle.outside.specs.Disks.{LeavesOnly, at_rest, disk_state_of};
ghost use Rattle.schedule_file.specs.FileBytes.{limit};
ghost use Rattle.std.specs.List.{AllByRecursion};
ghost use Rattle.record_file.specs.Making.{OpensLike};
ghost use Rattle.record_file.specs.Reading as reading;
ghost use Rattle.event_journal.specs.Journal.{IsRecord, OpensAs};
ghost use Rattle.event_journal.specs.EventRecords.{journal_form};
ghost use Rattle.event_journal.specs.Reading.{IsBroken, IsForeign, OpensAsKept, OpensJournal, file_seen};

use crate::fault::JournalFault;
use crate::journal::Journal;
use crate::reading::{journal_form, read_events};
use outside::Disk;
use record_file::{RecordFault, open_read, read_records};
use ritas_base::Event;
use std::alloc::Global;

// The first fault of a file in which this one of its records was found: a record before may be no event.
fn first_fault(
    alloc: Global,
    me: u8,
    head: &[u8; 51],
    file: &[u8],
    fault: RecordFault,
) -> JournalFault
    requires me_below { me < slice_index head.now 13 }
    requires short { length file.now ≤ limit }
    requires foreign { (p : ℕ) → fault ≡ RecordFault.Foreign p
        → reading.IsForeign journal_form head.now file.now p }
    requires broken { (p : ℕ) → fault ≡ RecordFault.Broken p
        → reading.IsBroken journal_form head.now file.now p }
    requires others { (p : ℕ) → (fault ≢ RecordFault.Full p) × (fault ≢ RecordFault.Mem) }
    ensures foreign { (p : ℕ) → result ≡ JournalFault.Foreign p → IsForeign head.now file.now p }
    ensures broken { (p : ℕ) → result ≡ JournalFault.Broken p → IsBroken me head.now file.now p }
    ensures full { (p : ℕ) → result ≢ JournalFault.Full p }
    ensures memory { result ≡ JournalFault.Mem → 0 < length file.now }
    ensures disk { (result ≡ JournalFault.Disk) ↔ (fault ≡ RecordFault.Disk) }
{
    let RecordFault::Broken(at) = fault else {
        return JournalFault::from(fault);
    };
    match read_events(alloc, head[13], me, file) {
        Ok(_events) => JournalFault::Broken(at),
        Err(first) => first,
    }
}

// Opens a file that is all on the disk.
fn open_file<D: Disk>(
    alloc: Global,
    disk: &mut D,
    me: u8,
    head: &[u8; 51],
    file: &[u8],
) -> Result<(Journal, Vec<Event>), JournalFault>
    requires me_below { me < slice_index head.now 13 }
    requires short { length file.now ≤ limit }
    ensures opened { D.tells ≡ true → disk_state_of (D.told disk.old) ≡ at_rest file.now
        → IfOk result (λ x. OpensJournal me head.now (D.told disk.new) x.0 (reverse x.1.items)) }
    ensures gives { IfOk result (λ x. OpensAs me head.now file.now (reverse x.1.items)) }
    ensures live { IfOk result (λ x. (x.0.me ≡ me) × (x.0.live ≡ true)) }
    ensures own { IfOk result (λ x. AllByRecursion (IsRecord me) (reverse x.1.items)) }
    ensures since { D.tells ≡ true → disk_state_of (D.told disk.old) ≡ at_rest file.now
        → LeavesOnly (OpensLike journal_form head.now file.now)
        (D.told disk.old) (D.told disk.new) }
    ensures foreign { (p : ℕ) → result ≡ Err (JournalFault.Foreign p) → IsForeign head.now file.now p }
    ensures broken { (p : ℕ) → result ≡ Err (JournalFault.Broken p) → IsBroken me head.now file.now p }
    ensures full { (p : ℕ) → result ≢ Err (JournalFault.Full p) }
    ensures memory { result ≡ Err JournalFault.Mem → 0 < length file.now }
    ensures cause { HasCause (D.faults disk.old) (D.faults disk.new)
        (result ≡ Err JournalFault.Disk) }
    ensures counts { CountsFault (D.faults disk.old) (D.faults disk.new) result
        (result ≡ Err JournalFault.Disk) }
{
    match open_read(disk, &journal_form(), head, file) {
        Ok(opened) => match read_events(alloc, head[13], me, file) {
            Ok(events) => Ok((Journal::at(alloc, opened, me), events)),
            Err(fault) => Err(fault),
        },
        Err(fault) => Err(first_fault(alloc, me, head, file, fault)),
    }
}

/// Opens the journal of replica `me` with this head, whose byte 13 is the number of replicas, and gives its events, the oldest
/// first. A file that isn't made is made.
///
/// `Full` comes where the file has more than 67,108,864 bytes, and else `Foreign` where it is made and has another head, and else
/// `Broken` where an open gate isn't followed by a record and a gate. By `journal_laws` no file is two of these, or one and opens,
/// so each comes exactly there where the disk and the memory don't fail. `Disk` comes only where the disk failed: at its first call
/// that fails this one ends, so the disk's count of faults rises by one, and at any other answer it stands. An empty file takes no
/// memory, and so never `Mem`.
pub fn open_journal<D: Disk>(
    alloc: Global,
    disk: &mut D,
    me: u8,
    head: &[u8; 51],
) -> Result<(Journal, Vec<Event>), JournalFault>
    requires me_below { me < slice_index head.now 13 }

    // From Ok on, every image is a made file and opens as the events that were given.
    ensures opened { D.tells ≡ true
        → IfOk result (λ x. OpensJournal me head.now (D.told disk.new) x.0 (reverse x.1.items)) }
    ensures live { IfOk result (λ x. (x.0.me ≡ me) × (x.0.live ≡ true)) }
    ensures own { IfOk result (λ x. AllByRecursion (IsRecord me) x.1.items) }

    // The file that was there opened as these events.
    ensures gives { D.tells ≡ true
        → IfOk result (λ x. OpensAs me head.now (file_seen (D.told disk.old)) (reverse x.1.items)) }

    // At each moment every image is one from before, or opens as one does.
    ensures since { D.tells ≡ true
        → LeavesOnly (OpensAsKept me head.now (disk_state_of (D.told disk.old)))
        (D.told disk.old) (D.told disk.new) }

    ensures foreign { D.tells ≡ true → (p : ℕ) → result ≡ Err (JournalFault.Foreign p)
        → IsForeign head.now (file_seen (D.told disk.old)) p }
    ensures broken { D.tells ≡ true → (p : ℕ) → result ≡ Err (JournalFault.Broken p)
        → IsBroken me head.now (file_seen (D.told disk.old)) p }
    ensures full { (x : ℕ) → result ≡ Err (JournalFault.Full x) → (x ≡ limit + 1)
        × (D.tells ≡ true → limit < length (file_seen (D.told disk.old))) }
    ensures memory { D.tells ≡ true → result ≡ Err JournalFault.Mem
        → 0 < length (file_seen (D.told disk.old)) }
    ensures cause { HasCause (D.faults disk.old) (D.faults disk.new)
        (result ≡ Err JournalFault.Disk) }
    ensures counts { CountsFault (D.faults disk.old) (D.faults disk.new) result
        (result ≡ Err JournalFault.Disk) }
{
    match read_records(alloc, disk, &journal_form()) {
        Ok(file) => open_file(alloc, disk, me, head, &file),
        Err(fault) => Err(JournalFault::from(fault)),
    }
}
