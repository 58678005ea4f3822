//! The statuses of the program, and the lines that it writes where there is no text of a world.
ghost use Rattle.std.specs.Prelude.{◌≡◌, ◌++◌, IfOk, string_bytes, codes};
ghost use Rattle.ritas.specs.Statuses.{input_line, fault_text, fault_status, audit_status, limit_text, line_text, submit_text, submit_status, end_status};

use schedule_file::{FILE_LIMIT, FileFault};
use std::alloc::{AllocError, Global};
use world_model::Audit;

/// The status that an audit gives: 0 where it holds, and else 1.
pub(crate) fn audit_status(audit: Audit) -> u8
    ensures status { result ≡ audit_status audit }
{
    match audit {
        Audit::Holds => 0,
        _ => 1,
    }
}

/// The line that names a fault of a file and its place.
pub(crate) fn fault_text(alloc: Global, fault: FileFault) -> Result<String, AllocError>
    ensures text { IfOk result (λ s. string_bytes s ≡ fault_text fault) }
{
    match fault {
        FileFault::Magic => placed(alloc, "magic", 0),
        FileFault::Version => placed(alloc, "version", 4),
        FileFault::Header(place) => placed(alloc, "header", place),
        FileFault::Event(place) => placed(alloc, "event", place),
        FileFault::Truncated(place) => placed(alloc, "truncated", place),
        FileFault::Trailing(place) => placed(alloc, "trailing", place),
        FileFault::TooLong => limit_text(alloc, FILE_LIMIT),
        FileFault::Read | FileFault::Mem => Ok(String::new(alloc)),
    }
}

/// The status that a fault of a file gives.
pub(crate) fn fault_status(fault: FileFault) -> u8
    ensures status { result ≡ fault_status fault }
{
    match fault {
        FileFault::TooLong => 7,
        FileFault::Read => 4,
        FileFault::Mem => 8,
        _ => 3,
    }
}

// The line that names a fault and a place.
fn placed(alloc: Global, name: &str, place: u32) -> Result<String, AllocError>
    ensures text { IfOk result (λ s. string_bytes s ≡ input_line name.now place) }
{
    format!(in alloc; "input {name} at {place}\n")
}

/// The line that names the place of a journal's fault.
pub(crate) fn journal_text(alloc: Global, place: u32) -> Result<String, AllocError>
    ensures text { IfOk result (λ s. string_bytes s ≡ input_line (codes "journal") place) }
{
    placed(alloc, "journal", place)
}

/// The line that names a limit.
pub(crate) fn limit_text(alloc: Global, limit: u32) -> Result<String, AllocError>
    ensures text { IfOk result (λ s. string_bytes s ≡ limit_text limit) }
{
    format!(in alloc; "limit {limit}\n")
}

/// The line that names a line of a configuration.
pub(crate) fn line_text(alloc: Global, line: u32) -> Result<String, AllocError>
    ensures text { IfOk result (λ s. string_bytes s ≡ line_text line) }
{
    format!(in alloc; "input line {line}\n")
}
