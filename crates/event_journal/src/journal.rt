//! Appending to a journal: events are written behind a closed gate, and kept once it is open.

ghost use Rattle.std.specs.Prelude.{◌≡◌, ◌≢◌, ◌<◌, ◌≤◌, ◌+◌, ◌-◌, ◌++◌, ◌∷◌, ◌^◌, ◌↔◌, ◌⊎◌, [], ℕ, List, true, false, length, min, reverse, Err, OnOk, IsOk, IsTrue};
ghost use Rattle.std.specs.List.{flat_map, AllByRecursion};
ghost use Rattle.outside.specs.Faults.{CountsFault, HasCause};
ghost use Rattle.outside.specs.Disks.{disk_state_of};
ghost use Rattle.ritas_base.specs.declared.event.Event.{Event};
ghost use Rattle.schedule_file.specs.FileBytes.{limit};
ghost use Rattle.event_journal.specs.Journal.{IsRecord, record_text};
ghost use Rattle.event_journal.specs.Appending.{AllOpen, AppendsEvents, JournalStandsFor, RenewsJournal, length_with};
ghost use Rattle.event_journal.specs.EventRecords.{journal_form};

use crate::fault::JournalFault;
use crate::reading::journal_form;
use outside::{Buffer, Disk, Failed, write_all};
use record_file::{RecordFile, write_front};
use ritas_base::{Event, Mem};
use schedule_file::{FILE_LIMIT, Writer, event_size};
use std::alloc::Global;
use std::marker::Model;
use std::slice;

// A buffer gives its memory back where a group filled more of it than 1 MiB.
const MOST_KEPT: usize = 1_048_576;

/// A journal that was opened. Contracts see the offset of its closed gate, its replica, and whether it's live; not the buffer in
/// which the records of a group are put together, whose memory stays for the next one.
#[derive(Drop)]
pub struct Journal {
    file: RecordFile,
    me: u8,
    live: bool,
    text: Buffer,
}

impl Model for Journal {
    ghost use Rattle.std.specs.Prelude.{◌≡◌, true};
    ghost use Rattle.event_journal.specs.Appending.{JournalState};
    ghost use Rattle.event_journal.specs.EventRecords.{journal_form};

    ghost Value = { JournalState };

    ghost view = { λ j. record { end = j.file.end; me = j.me; live = j.live } };

    ghost invariant = { λ j. (j.file.form ≡ journal_form) × (j.live ≡ true → j.file.live ≡ true) };
}

// Adds an event's record, with an open gate.
fn add_record(text: &mut Buffer, me: u8, ev: &Event) -> Result<(), Failed>
    requires { IsRecord me ev.now }
    ensures { OnOk result (text.new.taken ≡ text.old.taken ++ record_text ev.now) }
{
    write_front(text, &journal_form(), event_size(ev) as u32)?;
    Writer::event(text, ev)
}

// Fills a buffer anew, with the records of events and a closed gate.
fn fill(text: &mut Buffer, me: u8, events: &[Event]) -> Result<(), Mem>
    requires { AllByRecursion (IsRecord me) events.now }
    ensures { OnOk result (text.new.taken ≡ flat_map record_text events.now ++ 0 ∷ []) }
{
    text.clear();
    for ev in events {
        if add_record(text, me, ev).is_err() {
            return Err(Mem);
        }
    }
    if write_all(text, &[0]).is_err() {
        return Err(Mem);
    }
    Ok(())
}

// Gives the memory of a buffer back, where much of it is filled.
fn give_back(text: &mut Buffer, alloc: Global) {
    if text.len() > MOST_KEPT {
        *text = Buffer::new(alloc);
    }
}

// How long a file is with these records behind so many bytes, up to 2^64 - 1.
fn size_with(front: u64, me: u8, events: &[Event]) -> u64
    requires own { AllByRecursion (IsRecord me) events.now }
    requires low { front ≤ limit }
    ensures { result ≡ min (front + length (flat_map record_text events.now)) (2 ^ 64 - 1) }
{
    let mut size = front;
    for ev in events {
        size = size.saturating_add(3 + event_size(ev) as u64);
    }
    size
}

impl Journal {
    // The journal of a replica in this file. It takes no memory.
    pub(crate) fn at(alloc: Global, file: RecordFile, me: u8) -> Journal
        requires form { file.form ≡ journal_form }
        requires live { file.live ≡ true }
        ensures { result ≡ record { end = file.end; me = me; live = true } }
    {
        Journal {
            file,
            me,
            live: true,
            text: Buffer::new(alloc),
        }
    }

    /// Whether the journal is live: no call on it answered `Disk` or `Mem`.
    pub fn live(&self) -> bool
        ensures { result ≡ self.now.live }
    {
        self.live
    }

    /// Whether the journal is live, and an event may be appended: a frame, an input or a turn at its replica that isn't too long.
    pub fn takes(&self, ev: &Event) -> bool
        ensures { IsTrue result ↔ ((self.now.live ≡ true) × IsRecord self.now.me ev.now) }
    {
        let (at, size) = match ev {
            Event::Frame { to, bytes } => (*to, bytes.as_slice().len()),
            Event::Input { at, bytes } => (*at, bytes.as_slice().len()),
            Event::Turn { at } => (*at, 0),
            // A frame that another made isn't one.
            _ => return false,
        };
        // Its text is longer by 4.
        self.live && at == self.me && size < 65_532
    }

    /// Appends events at the journal's replica, each a frame, an input or a turn, the oldest first: whenever a stop comes, all of
    /// them or none. Behind the closed gate their records are written, with all gates but the first open, and a closed gate, and
    /// synced; then the first gate is opened and synced. From Ok on, every image that a stop may leave opens with the events. These
    /// are two syncs, however many events there are; where there is none, nothing is done.
    ///
    /// `Full` comes exactly where the file would become longer than 67,108,864 bytes, with its length then, up to 2^64 - 1, and
    /// leaves all as before. `Disk` comes only where the disk failed: at its first call that fails this one ends, so the disk's count of faults rises
    /// by one, and at any other answer it stands. After `Disk` and `Mem` the journal isn't live.
    pub fn append_all<D: Disk>(
        &mut self,
        alloc: Global,
        disk: &mut D,
        events: &[Event],
    ) -> Result<(), JournalFault>
        requires live { self.old.live ≡ true }
        requires own { AllByRecursion (IsRecord self.old.me) events.now }
        ensures kept { D.tells ≡ true → (head : List ℕ) (es : List Event) → JournalStandsFor self.old head es → AllOpen self.old.me head es (disk_state_of (D.told disk.old))
            → AppendsEvents self.old.me head es (reverse events.now) (D.told disk.old) (D.told disk.new) self.new result }
        ensures full { (x : ℕ) → (result ≡ Err (JournalFault.Full x)) ↔ ((x ≡ min (length_with self.old (reverse events.now)) (2 ^ 64 - 1)) × (limit < x)) }
        ensures same { (x : ℕ) → result ≡ Err (JournalFault.Full x) → (self.new ≡ self.old) × (disk.new ≡ disk.old) }
        ensures none { events.now ≡ [] → IsOk result × (self.new ≡ self.old) × (disk.new ≡ disk.old) }
        ensures live { OnOk result (self.new.live ≡ true) }
        ensures over { (result ≡ Err JournalFault.Disk) ⊎ (result ≡ Err JournalFault.Mem) → self.new.live ≡ false }
        ensures me { self.new.me ≡ self.old.me }
        ensures cause { HasCause (D.faults disk.old) (D.faults disk.new) (result ≡ Err JournalFault.Disk) }
        ensures counts { CountsFault (D.faults disk.old) (D.faults disk.new) result (result ≡ Err JournalFault.Disk) }
    {
        let size = size_with(self.file.end() + 1, self.me, events);
        if size > FILE_LIMIT as u64 {
            return Err(JournalFault::Full(size));
        }
        if events.is_empty() {
            return Ok(());
        }
        self.live = false;
        fill(&mut self.text, self.me, events)?;
        self.file.append(disk, self.text.taken())?;
        give_back(&mut self.text, alloc);
        self.live = true;
        Ok(())
    }

    /// Appends an event at the journal's replica, as `append_all` does one.
    pub fn append<D: Disk>(
        &mut self,
        alloc: Global,
        disk: &mut D,
        ev: &Event,
    ) -> Result<(), JournalFault>
        requires live { self.old.live ≡ true }
        requires own { IsRecord self.old.me ev.now }
        ensures kept { D.tells ≡ true → (head : List ℕ) (es : List Event) → JournalStandsFor self.old head es → AllOpen self.old.me head es (disk_state_of (D.told disk.old))
            → AppendsEvents self.old.me head es (ev.now ∷ []) (D.told disk.old) (D.told disk.new) self.new result }
        ensures full { (x : ℕ) → (result ≡ Err (JournalFault.Full x)) ↔ ((x ≡ length_with self.old (ev.now ∷ [])) × (limit < x)) }
        ensures same { (x : ℕ) → result ≡ Err (JournalFault.Full x) → (self.new ≡ self.old) × (disk.new ≡ disk.old) }
        ensures live { OnOk result (self.new.live ≡ true) }
        ensures over { (result ≡ Err JournalFault.Disk) ⊎ (result ≡ Err JournalFault.Mem) → self.new.live ≡ false }
        ensures me { self.new.me ≡ self.old.me }
        ensures cause { HasCause (D.faults disk.old) (D.faults disk.new) (result ≡ Err JournalFault.Disk) }
        ensures counts { CountsFault (D.faults disk.old) (D.faults disk.new) result (result ≡ Err JournalFault.Disk) }
    {
        // It is below the limit.
        let _end = self.file.end();
        self.append_all(alloc, disk, slice::from_ref(ev))
    }
    /// Begins the journal's file anew, under another head: it has no events then. Whenever a stop comes, the file that it leaves
    /// opens under the old head as before, or isn't made, or opens as no events under the new one. From Ok on it opens as no
    /// events under the new one. It takes no memory, and the file becomes no shorter.
    ///
    /// `Disk` is the one fault, and comes only if the disk failed. This call ends at the disk's first call that fails, so the
    /// disk's count of faults rises by one; at Ok it stands. After `Disk` the journal isn't live.
    pub fn renew<D: Disk>(&mut self, disk: &mut D, head: &[u8; 51]) -> Result<(), JournalFault>
        requires live { self.old.live ≡ true }
        ensures renewed { D.tells ≡ true → (old : List ℕ) (es : List Event)
            → AllOpen self.old.me old es (disk_state_of (D.told disk.old))
            → RenewsJournal self.old.me old head.now es (D.told disk.old) (D.told disk.new) result }
        ensures stands { OnOk result (JournalStandsFor self.new head.now []) }
        ensures live { OnOk result (self.new.live ≡ true) }
        ensures over { result ≡ Err JournalFault.Disk → self.new.live ≡ false }
        ensures others { (p : ℕ) → (result ≢ Err (JournalFault.Foreign p))
            × (result ≢ Err (JournalFault.Broken p)) × (result ≢ Err (JournalFault.Full p))
            × (result ≢ Err JournalFault.Mem) }
        ensures me { self.new.me ≡ self.old.me }
        ensures cause { HasCause (D.faults disk.old) (D.faults disk.new)
            (result ≡ Err JournalFault.Disk) }
        ensures counts { CountsFault (D.faults disk.old) (D.faults disk.new) result
            (result ≡ Err JournalFault.Disk) }
    {
        self.live = false;
        self.file.renew(disk, head)?;
        self.live = true;
        Ok(())
    }
}
