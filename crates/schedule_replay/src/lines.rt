//! The lines of the texts.
ghost use Rattle.std.specs.Prelude.{◌≡◌, ◌++◌, ◌%◌, ◌^◌, IfOk, string_bytes, codes, Some, None, option_map};
ghost use Rattle.layer_api.specs.Service.{LastVector, Decided, Value};
ghost use Rattle.layer_api.specs.ServiceCalls.{ending_of};
ghost use Rattle.schedule_replay.specs.Report.{head_line, answered_part, refused_part, count_line, vect_name, out_line, hex_or_dash, id_part, command_part, row_line, rounds_line, ending_line, audit_line, numbers_line};
ghost use Rattle.schedule_replay.specs.Vectors.{SaysVector, last_says, line_says, vector_line};

use command_log::LogRow;
use layer_api::Outcome;
use ritas_base::{Id, Vect};
use schedule_file::Header;
use std::alloc::{AllocError, Global};
use world_model::{Audit, Counts};

fn vect_name(vect: Vect) -> &'static str
    ensures { result.now ≡ vect_name vect }
{
    match vect {
        Vect::Echo => "echo",
        Vect::Reliable => "reliable",
    }
}

/// The line that says which session it is.
pub(crate) fn head_line(alloc: Global, header: &Header) -> Result<String, AllocError>
    ensures { IfOk result (λ s. string_bytes s ≡ head_line header.now) }
{
    let n = header.p.n();
    let f = header.p.f();
    let root = header.mode.root;
    let vect = vect_name(header.mode.vect);
    let session = header.session;
    format!(in alloc; "ritas n={n} f={f} root={root} vect={vect} session={session}\n")
}

fn answered_part(alloc: Global, events: u64, counts: &Counts) -> Result<String, AllocError>
    ensures { IfOk result (λ s. string_bytes s ≡ answered_part events counts.now) }
{
    let took = counts.took;
    let held = counts.held;
    let repeat = counts.repeat;
    let idle = counts.idle;
    let missed = counts.missed;
    format!(in alloc;
        "events {events} took {took} held {held} repeat {repeat} idle {idle} missed {missed}"
    )
}

fn refused_part(alloc: Global, counts: &Counts) -> Result<String, AllocError>
    ensures { IfOk result (λ s. string_bytes s ≡ refused_part counts.now) }
{
    let open = counts.open_faults;
    let body = counts.body_faults;
    let core = counts.core_faults;
    format!(in alloc; " open {open} body {body} core {core}\n")
}

/// The line that counts the events and their answers.
pub(crate) fn count_line(alloc: Global, events: u64, counts: &Counts) -> Result<String, AllocError>
    ensures { IfOk result (λ s. string_bytes s ≡ count_line events counts.now) }
{
    let mut line = answered_part(alloc, events, counts)?;
    let rest = refused_part(alloc, counts)?;
    line.push_str(rest.as_str())?;
    Ok(line)
}

/// The line that says how a replica stands.
pub(crate) fn replica_line(
    alloc: Global,
    i: u8,
    sent: u64,
    inbox: usize,
    held: u64,
) -> Result<String, AllocError>
    ensures { IfOk result (λ s. string_bytes s ≡ numbers_line i sent inbox held) }
{
    format!(in alloc; "replica {i} sent {sent} inbox {inbox} held {held}\n")
}

/// The line of a command that was delivered.
pub(crate) fn out_line(
    alloc: Global,
    origin: u8,
    num: u32,
    value: &[u8],
) -> Result<String, AllocError>
    ensures { IfOk result (λ s. string_bytes s ≡ out_line origin num (Some value.now)) }
{
    let text = hex::encode(alloc, value)?;
    format!(in alloc; "out {origin}.{num} {text}\n")
}

// Bytes in hexadecimal, and a dash where there are none.
fn hex_or_dash(alloc: Global, bytes: &[u8]) -> Result<String, AllocError>
    ensures { IfOk result (λ s. string_bytes s ≡ hex_or_dash bytes.now) }
{
    if bytes.is_empty() {
        return String::from_str(alloc, "-");
    }
    let text = hex::encode(alloc, bytes)?;
    Ok(text)
}

fn id_part(alloc: Global, position: u32, id: Id) -> Result<String, AllocError>
    ensures { IfOk result (λ s. string_bytes s ≡ id_part position id) }
{
    let origin = id.origin;
    let num = id.num;
    format!(in alloc; "row {position} {origin}.{num}")
}

fn command_part(
    alloc: Global,
    client: u32,
    request: u32,
    payload: &[u8],
) -> Result<String, AllocError>
    ensures { IfOk result (λ s. string_bytes s ≡ command_part client request payload.now) }
{
    let text = hex_or_dash(alloc, payload)?;
    format!(in alloc; " {client} {request} {text}\n")
}

/// The line of a row of the command log, at its position.
pub(crate) fn row_line(alloc: Global, position: u32, row: &LogRow) -> Result<String, AllocError>
    ensures { IfOk result (λ s. string_bytes s ≡ row_line position (Some row.now)) }
{
    let mut line = id_part(alloc, position, row.id)?;
    let rest = command_part(alloc, row.client, row.request, row.payload.as_slice())?;
    line.push_str(rest.as_str())?;
    Ok(line)
}

/// The line that says how many rounds are complete, and how many rows the command log has.
pub(crate) fn rounds_line(alloc: Global, completed: u32, rows: u32) -> Result<String, AllocError>
    ensures { IfOk result (λ s. string_bytes s ≡ rounds_line completed rows) }
{
    format!(in alloc; "rounds {completed} rows {rows}\n")
}

/// The line that says what became of the one instance of a root service.
pub(crate) fn ending_line(alloc: Global, outcome: Outcome<'_>) -> Result<String, AllocError>
    ensures { IfOk result (λ s. string_bytes s ≡ ending_line (ending_of outcome.entry)) }
{
    match outcome {
        Outcome::Undecided => String::from_str(alloc, "undecided\n"),
        Outcome::Over => String::from_str(alloc, "over\n"),
        Outcome::Bit(false) => String::from_str(alloc, "decision 0\n"),
        Outcome::Bit(true) => String::from_str(alloc, "decision 1\n"),
        Outcome::Nothing => String::from_str(alloc, "none\n"),
        Outcome::Value(value) => decision_line(alloc, value),
        Outcome::Spent => String::from_str(alloc, "spent\n"),
    }
}

fn decision_line(alloc: Global, value: &[u8]) -> Result<String, AllocError>
    ensures { IfOk result (λ s. string_bytes s ≡ ending_line (Decided (Value value.now))) }
{
    let text = hex::encode(alloc, value)?;
    format!(in alloc; "decision {text}\n")
}

/// The line that says what a replica decided last: a vector, in its round and attempt, or that its attempts are spent, or that it
/// decided none.
pub(crate) fn vector_line(
    alloc: Global,
    i: u8,
    outcome: Outcome<'_>,
    last: Option<(u32, u8, &[u8])>,
) -> Result<String, AllocError>
    ensures { let vector = option_map (λ x. record { round = x.0; attempt = x.1; value = x.2.now }) last.entry in
        IfOk result (λ s. string_bytes s ≡ vector_line i (line_says (ending_of outcome.entry) vector)) }
{
    match outcome {
        Outcome::Spent => format!(in alloc; "vector {i} spent\n"),
        _ => last_line(alloc, i, last),
    }
}

fn last_line(alloc: Global, i: u8, last: Option<(u32, u8, &[u8])>) -> Result<String, AllocError>
    ensures { let vector = option_map (λ x. record { round = x.0; attempt = x.1; value = x.2.now }) last.entry in
        IfOk result (λ s. string_bytes s ≡ vector_line i (last_says vector)) }
{
    match last {
        Some((round, attempt, value)) => decided_line(alloc, i, round, attempt, value),
        None => format!(in alloc; "vector {i} undecided\n"),
    }
}

fn decided_line(
    alloc: Global,
    i: u8,
    round: u32,
    attempt: u8,
    value: &[u8],
) -> Result<String, AllocError>
    ensures { IfOk result (λ s. string_bytes s ≡ vector_line i (SaysVector (record { round = round; attempt = attempt; value = value.now }))) }
{
    let text = hex::encode(alloc, value)?;
    format!(in alloc; "vector {i} {round} {attempt} {text}\n")
}

/// The line that says what the audit found.
pub(crate) fn audit_line(alloc: Global, audit: Audit) -> Result<String, AllocError>
    ensures { IfOk result (λ s. string_bytes s ≡ audit_line audit) }
{
    match audit {
        Audit::Holds => String::from_str(alloc, "audit holds\n"),
        Audit::TooManyFaulty => String::from_str(alloc, "audit too many faulty\n"),
        Audit::Forged(k) => format!(in alloc; "audit forged at {k}\n"),
        Audit::Collision(k) => format!(in alloc; "audit collision at {k}\n"),
    }
}
