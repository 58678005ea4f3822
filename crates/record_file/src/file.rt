//! An open file of records: records are written behind a closed gate, and kept once it is open.

ghost use Rattle.std.specs.Prelude.{◌≡◌, ◌≢◌, ◌<◌, ◌≤◌, ◌+◌, ◌-◌, ◌^◌, ◌∷◌, ◌↔◌, [], ℕ, List, true, false, length, Err, OnOk, IsOk, IsErr};
ghost use Rattle.std.specs.List.{AllByRecursion};
ghost use Rattle.outside.specs.Faults.{CountsFault, HasCause, counted};
ghost use Rattle.outside.specs.Disks.{disk_state_of};
ghost use Rattle.record_file.specs.Form.{Form, first_gate};
ghost use Rattle.record_file.specs.Records.{IsGroup, IsRecord, behind_text, closed_front, group_text};
ghost use Rattle.record_file.specs.Appending.{AllOpen, AppendsRecords, KeepsRecords, StandsFor, length_with};
ghost use Rattle.record_file.specs.Making.{Renews};

use crate::fault::RecordFault;
use crate::form::RecordForm;
use crate::making::make_anew;
use outside::{Disk, Failed, put};
use std::marker::Model;

/// A file of records that was opened. Contracts see its form, the offset of its closed gate, and whether it's live.
#[derive(Drop)]
pub struct RecordFile {
    form: RecordForm,
    end: u64,
    live: bool,
}

impl Model for RecordFile {
    ghost use Rattle.std.specs.Prelude.{◌<◌};
    ghost use Rattle.record_file.specs.Appending.{FileState};

    ghost Value = { FileState };

    ghost view = { λ f. record { form = f.form; end = f.end; live = f.live } };

    ghost invariant = { λ f. f.end < f.form.limit };
}

// Writes bytes behind the closed gate and syncs, and then opens the gate and syncs.
fn keep<D: Disk>(disk: &mut D, gate: u64, text: &[u8]) -> Result<(), Failed>
    requires { gate < 2 ^ 32 }
    ensures kept { D.tells ≡ true → (form : Form) (head : List ℕ) (rs more : List (List ℕ))
        → 0 < length more → AllByRecursion (IsRecord form) more
        → gate ≡ length (closed_front form head rs) → text.now ≡ behind_text form more
        → gate + 1 + length text.now ≤ form.limit
        → AllOpen form head rs (disk_state_of (D.told disk.old))
        → KeepsRecords form head rs more (D.told disk.old) (D.told disk.new) result }
    ensures cause { HasCause (D.faults disk.old) (D.faults disk.new) (IsErr result) }
    ensures counts { D.faults disk.new ≡ counted (D.faults disk.old) result }
{
    put(disk, gate + 1, text)?;
    put(disk, gate, &[1])
}

impl RecordFile {
    // A file whose closed gate stands at this offset. It takes no memory.
    pub(crate) fn at(form: &RecordForm, end: u64) -> RecordFile
        requires { end < form.now.limit }
        ensures { result ≡ record { form = form.now; end = end; live = true } }
    {
        RecordFile {
            form: *form,
            end,
            live: true,
        }
    }

    /// Whether the file is live: no call on it answered `Disk`.
    pub fn live(&self) -> bool
        ensures { result ≡ self.now.live }
    {
        self.live
    }

    /// The offset of the closed gate. A text of records that is appended begins there.
    pub fn end(&self) -> u64
        ensures value { result ≡ self.now.end }
        ensures low { self.now.end < self.now.form.limit }
    {
        self.end
    }

    /// Appends records: whenever a stop comes, all of them or none. The text has them one behind the other, with all gates
    /// open, and a closed gate, as `write_record` and a byte 0 write it. Behind the closed gate it is written but for its
    /// first byte, and synced. Then the first gate is opened, and synced. From Ok on, every image that a stop may leave opens
    /// with the records. These are two syncs, however many records there are. Where there is none, nothing is done. It takes
    /// no memory.
    ///
    /// `Full` comes exactly where the file would become longer than its form allows, with its length then. It leaves all as
    /// before. `Disk` comes only where the disk failed. At its first call that fails this one ends, and the disk's count of
    /// faults rises by one. At any other answer the count stands. After `Disk` the file isn't live. No other fault comes.
    pub fn append<D: Disk>(&mut self, disk: &mut D, text: &[u8]) -> Result<(), RecordFault>
        requires live { self.old.live ≡ true }
        requires group { IsGroup self.old.form text.now }
        ensures kept { D.tells ≡ true → (head : List ℕ) (rs more : List (List ℕ))
            → StandsFor self.old head rs → AllByRecursion (IsRecord self.old.form) more
            → text.now ≡ group_text self.old.form more
            → AllOpen self.old.form head rs (disk_state_of (D.told disk.old))
            → AppendsRecords self.old.form head rs more (D.told disk.old) (D.told disk.new)
            self.new result }
        ensures full { (x : ℕ) → (result ≡ Err (RecordFault.Full x))
            ↔ ((x ≡ length_with self.old text.now) × (self.old.form.limit < x)) }
        ensures same { (x : ℕ) → result ≡ Err (RecordFault.Full x)
            → (self.new ≡ self.old) × (disk.new ≡ disk.old) }
        ensures none { text.now ≡ 0 ∷ []
            → IsOk result × (self.new ≡ self.old) × (disk.new ≡ disk.old) }
        ensures ok { OnOk result
            (self.new ≡ record self.old { end = self.old.end + (length text.now - 1) }) }
        ensures over { result ≡ Err RecordFault.Disk → self.new.live ≡ false }
        ensures others { (p : ℕ) → (result ≢ Err (RecordFault.Foreign p))
            × (result ≢ Err (RecordFault.Broken p)) × (result ≢ Err RecordFault.Mem) }
        ensures form { self.new.form ≡ self.old.form }
        ensures cause { HasCause (D.faults disk.old) (D.faults disk.new)
            (result ≡ Err RecordFault.Disk) }
        ensures counts { CountsFault (D.faults disk.old) (D.faults disk.new) result
            (result ≡ Err RecordFault.Disk) }
    {
        let size = self.end + text.len() as u64;
        if size > self.form.limit() {
            return Err(RecordFault::Full(size));
        }
        if text.len() == 1 {
            return Ok(());
        }
        self.live = false;
        keep(disk, self.end, &text[1..])?;
        self.end = size - 1;
        self.live = true;
        Ok(())
    }

    /// Begins the file anew, under another head of the same length: it has no records then. Byte 0 is cleared. Then the head
    /// and a closed gate are written. Then 1 is written to byte 0. Behind each there is a sync. Whenever a stop comes, the file
    /// that it leaves opens under the old head as before, or isn't made, or opens as no records under the new one. From Ok on
    /// it opens as no records under the new one. It takes no memory, and the file becomes no shorter.
    ///
    /// `Disk` is the one fault, and comes only where the disk failed. At its first call that fails this one ends, and the
    /// disk's count of faults rises by one. At Ok the count stands. After `Disk` the file isn't live.
    pub fn renew<D: Disk>(&mut self, disk: &mut D, head: &[u8]) -> Result<(), RecordFault>
        requires live { self.old.live ≡ true }
        requires head { length head.now ≡ self.old.form.head_length }
        ensures renewed { D.tells ≡ true → (old : List ℕ) (rs : List (List ℕ))
            → AllOpen self.old.form old rs (disk_state_of (D.told disk.old))
            → Renews self.old.form old head.now rs (D.told disk.old) (D.told disk.new) result }
        ensures stands { OnOk result (StandsFor self.new head.now []) }
        ensures ok { OnOk result
            (self.new ≡ record self.old { end = first_gate self.old.form }) }
        ensures over { result ≡ Err RecordFault.Disk → self.new.live ≡ false }
        ensures others { (p : ℕ) → (result ≢ Err (RecordFault.Foreign p))
            × (result ≢ Err (RecordFault.Broken p)) × (result ≢ Err (RecordFault.Full p))
            × (result ≢ Err RecordFault.Mem) }
        ensures form { self.new.form ≡ self.old.form }
        ensures cause { HasCause (D.faults disk.old) (D.faults disk.new)
            (result ≡ Err RecordFault.Disk) }
        ensures counts { CountsFault (D.faults disk.old) (D.faults disk.new) result
            (result ≡ Err RecordFault.Disk) }
    {
        self.live = false;
        make_anew(disk, head)?;
        self.end = self.form.first_gate() as u64;
        self.live = true;
        Ok(())
    }
}
