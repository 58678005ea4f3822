//! Reading the events of a journal's file.
ghost use Rattle.std.specs.Prelude.{◌≡◌, ◌≢◌, ◌<◌, ◌≤◌, ◌^◌, ℕ, length, reverse, Err, IfOk};
ghost use Rattle.std.specs.List.{AllByRecursion};
ghost use Rattle.schedule_file.specs.FileBytes.{limit};
ghost use Rattle.record_file.specs.Reading.{records_read};
ghost use Rattle.event_journal.specs.Journal.{IsRecord};
ghost use Rattle.event_journal.specs.EventRecords.{HasNoEventAt, IsReadAs, event_texts, journal_form};

use crate::fault::JournalFault;
use record_file::{LengthWidth, RecordForm, record_in};
use ritas_base::{Event, Mem};
use schedule_file::{FILE_LIMIT, read_event};
use std::alloc::Global;

/// The form of a journal's file.
pub(crate) fn journal_form() -> RecordForm
    ensures { result ≡ journal_form }
{
    RecordForm::new(LengthWidth::Two, 51, FILE_LIMIT as u64)
}

// The event whose text a record is.
fn whole_event(alloc: Global, n: u8, me: u8, text: &[u8]) -> Result<Option<Event>, Mem>
    requires me_below { me < n }
    requires short { length text.now < 2 ^ 16 }
    ensures { IfOk result (IsReadAs me text.now) }
{
    match read_event(alloc, n, me, text)? {
        Some((event, size)) => {
            if size as usize == text.len() {
                Ok(Some(event))
            } else {
                Ok(None)
            }
        }
        None => Ok(None),
    }
}

/// The events of the records of a file, or where the first record is that is none of this replica.
pub(crate) fn read_events(
    alloc: Global,
    n: u8,
    me: u8,
    file: &[u8],
) -> Result<Vec<Event>, JournalFault>
    requires me_below { me < n }
    requires short { length file.now ≤ limit }
    ensures own { IfOk result (λ v. AllByRecursion (IsRecord me) (reverse v.items)) }
    ensures all { IfOk result
        (λ v. records_read journal_form file.now ≡ event_texts (reverse v.items)) }
    ensures broken { (p : ℕ) → result ≡ Err (JournalFault.Broken p) → HasNoEventAt me file.now p }
    ensures others { (p : ℕ) → (result ≢ Err (JournalFault.Foreign p))
        × (result ≢ Err (JournalFault.Full p)) × (result ≢ Err JournalFault.Disk) }
    // Where there is no record, no memory is taken.
    ensures memory { result ≡ Err JournalFault.Mem → 0 < length file.now }
{
    let form = journal_form();
    let mut events = Vec::new(alloc);
    let mut at = form.first_gate();
    while let Some((text, next)) = record_in(&form, file, at) {
        match whole_event(alloc, n, me, text)? {
            Some(event) => events.push(event)?,
            None => return Err(JournalFault::Broken(at as u32)),
        }
        at = next;
    }
    Ok(events)
}
