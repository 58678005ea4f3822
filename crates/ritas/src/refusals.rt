//! The lines that are written of what is refused.
ghost use Rattle.std.specs.Prelude.{◌≡◌, ◌≢◌, ◌↔◌, codes};
ghost use Rattle.ritas.specs.Run.{Ends, Replies};
ghost use Rattle.ritas.specs.Configs.{RefusesConfig, RefusesJournal, RefusesText};
ghost use Rattle.ritas.specs.Statuses.{limit_text, line_text, input_line};

use crate::configs::TEXT_LIMIT;
use crate::lines::{journal_text, limit_text, line_text};
use crate::run::finish;
use cluster_config::ConfigFault;
use event_journal::JournalFault;
use outside::{ReadFault, Sink};
use schedule_file::FILE_LIMIT;
use std::alloc::Global;

/// Writes the line that names a limit.
pub(crate) fn refuse_limit<K: Sink>(alloc: Global, output: &mut K, limit: u32) -> u8
    ensures ends { Ends K.faults output.old output.new result }
    ensures replies { Replies K.tells K.taken output.old output.new result 7 (limit_text limit) }
    ensures others { (result ≢ 0) × (result ≢ 1) × (result ≢ 2) × (result ≢ 4) × (result ≢ 6) × (result ≢ 9) }
    ensures wanting { result ≡ 8 → output.new ≡ output.old }
{
    match limit_text(alloc, limit) {
        Ok(text) => finish(output, text.as_bytes(), 7),
        Err(_) => 8,
    }
}

// Writes the line that names a wrong or missing line of a configuration.
fn refuse_line<K: Sink>(alloc: Global, output: &mut K, line: u32) -> u8
    ensures ends { Ends K.faults output.old output.new result }
    ensures replies { Replies K.tells K.taken output.old output.new result 3 (line_text line) }
    ensures others { (result ≢ 0) × (result ≢ 1) × (result ≢ 2) × (result ≢ 4) × (result ≢ 6) }
    ensures nine { result ≢ 9 }
    ensures wanting { result ≡ 8 → output.new ≡ output.old }
{
    match line_text(alloc, line) {
        Ok(text) => finish(output, text.as_bytes(), 3),
        Err(_) => 8,
    }
}

/// Writes the line of a configuration's fault.
pub(crate) fn refuse_config<K: Sink>(alloc: Global, output: &mut K, fault: ConfigFault) -> u8
    ensures ends { Ends K.faults output.old output.new result }
    ensures refuses { RefusesConfig K.tells K.taken output.old output.new result fault }
    ensures others { (result ≢ 2) × (result ≢ 4) × (result ≢ 6) }
    ensures nine { result ≢ 9 }
    ensures wanting { result ≡ 8 → output.new ≡ output.old }
{
    match fault {
        ConfigFault::Line(line) => refuse_line(alloc, output, line),
        ConfigFault::Mem => 8,
    }
}

// Writes the line that names the place of a journal's fault.
fn refuse_place<K: Sink>(alloc: Global, output: &mut K, place: u32) -> u8
    ensures ends { Ends K.faults output.old output.new result }
    ensures replies { Replies K.tells K.taken output.old output.new result 3 (input_line (codes "journal") place) }
    ensures others { (result ≢ 0) × (result ≢ 2) × (result ≢ 4) × (result ≢ 6) × (result ≢ 9) }
{
    match journal_text(alloc, place) {
        Ok(text) => finish(output, text.as_bytes(), 3),
        Err(_) => 8,
    }
}

/// Writes the line of a journal that couldn't be opened, or nothing where the disk failed or memory ran out.
pub(crate) fn refuse_journal<K: Sink>(alloc: Global, output: &mut K, fault: JournalFault) -> u8
    ensures ends { Ends K.faults output.old output.new result }
    ensures refuses { RefusesJournal K.tells K.taken output.old output.new result fault }
    ensures disk { (result ≡ 9) ↔ (fault ≡ JournalFault.Disk) }
    ensures others { (result ≢ 0) × (result ≢ 2) × (result ≢ 4) × (result ≢ 6) }
{
    match fault {
        JournalFault::Foreign(place) | JournalFault::Broken(place) => {
            refuse_place(alloc, output, place)
        }
        JournalFault::Full(_) => refuse_limit(alloc, output, FILE_LIMIT),
        JournalFault::Disk => 9,
        JournalFault::Mem => 8,
    }
}

/// Writes the line of a text's fault, where it is too long.
#[tactic(auto, unfolding(crate::specs::Statuses::text_limit))]
pub(crate) fn refuse_text<K: Sink>(alloc: Global, output: &mut K, fault: ReadFault) -> u8
    ensures ends { Ends K.faults output.old output.new result }
    ensures refuses { RefusesText K.tells K.taken output.old output.new result fault }
    ensures input { (result ≡ 4) ↔ (fault ≡ ReadFault.Failed) }
    ensures others { (result ≢ 2) × (result ≢ 6) }
    ensures nine { result ≢ 9 }
    ensures wanting { result ≡ 8 → output.new ≡ output.old }
{
    match fault {
        ReadFault::TooLong => refuse_limit(alloc, output, TEXT_LIMIT as u32),
        ReadFault::Failed => 4,
        ReadFault::Mem => 8,
    }
}
