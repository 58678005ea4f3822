//! The text of a report.
ghost use Rattle.std.specs.Prelude.{◌≡◌, ◌≢◌, ℕ, ◌+◌, ◌<◌, ◌≤◌, ◌++◌, List, true, Some, None, OnOk, OnErr, IfOk, option_copied, string_bytes};
ghost use Rattle.ritas_base.specs.declared.event.Event.{Event};
ghost use Rattle.keyed_channel.specs.Keyed.{tags_of};
ghost use Rattle.keyed_channel.specs.KeyRow.{KeyRow};
ghost use Rattle.ritas_base.specs.Slots.{command_slot};
ghost use Rattle.command_log.specs.Rows.{Start, row_at};
ghost use Rattle.replica.specs.Replica.{ReplicaStands};
ghost use Rattle.ritas_core.specs.CoreOf.{IsCoreOf};
ghost use Rattle.ritas_core.specs.Machine.{CoreState};
ghost use Rattle.ritas_core.specs.Parts.{parts};
ghost use Rattle.ritas_core.specs.Rules.{Rules, seat_of, other_form};
ghost use Rattle.ritas_core.specs.Shown.{delivered_at};
ghost use Rattle.ritas_core.specs.Stands.{meaning, CoreStands};
ghost use Rattle.world_model.specs.Audit.{audit_of};
ghost use Rattle.schedule_replay.specs.Layers.{setting_by, layers_by};
ghost use Rattle.schedule_replay.specs.Played.{PlayedStandsFor};
ghost use Rattle.schedule_replay.specs.Report.{out_line, origin_lines, commands_delivered, out_lines, ending_line, row_line, row_lines_below, row_lines, log_lines, service_lines, standing_lines, report_on};

use crate::lines::{
    count_line, ending_line, head_line, out_line, replica_line, rounds_line, row_line,
};
use crate::played::Played;
use crate::replicas::{Lines, add_rest};
use command_log::{Log, LogRow};
use keyed_channel::Channel;
use layer_api::{Broadcast, COMMAND_WINDOW, Service};
use replica::Replica;
use ritas_base::{Coin, NUMBER_LIMIT, RootService, Slot};
use ritas_core::{Core, delivered_within};
use std::alloc::{AllocError, Global};
use world_model::Audit;

// Appends the line of a command that was delivered.
fn add_out(
    alloc: Global,
    text: &mut String,
    origin: u8,
    num: u32,
    value: &[u8],
) -> Result<(), AllocError>
    ensures { OnOk result (string_bytes text.new ≡ string_bytes text.old ++ out_line origin num (Some value.now)) }
{
    let line = out_line(alloc, origin, num, value)?;
    text.push_str(line.as_str())?;
    Ok(())
}

// Appends the line of a command, where a core has delivered it. In root services 1 and 2 every command that was delivered is
// shown.
fn add_delivered<S: Service, E: Broadcast, C: Coin + Drop>(
    alloc: Global,
    text: &mut String,
    core: &Core<S, E, C, Channel>,
    origin: u8,
    num: u32,
) -> Result<(), AllocError>
    ensures { let m = meaning S.stands S.rules S.shown E.stands E.rules E.shown C.bits (λ k. k.me) tags_of in
        (r : Rules) (st : CoreState) → CoreStands m core.now r st → st.live ≡ true → r.mode.root ≤ 2
        → OnOk result (string_bytes text.new ≡ string_bytes text.old ++ out_line origin num (delivered_at r st.history (command_slot origin num))) }
{
    match core.delivered(&Slot::command(origin, num)) {
        Some(value) => add_out(alloc, text, origin, num, value),
        None => Ok(()),
    }
}

// Appends the lines of an origin's commands that a core has delivered. None has a number beyond the origin's window.
fn add_origin<S: Service, E: Broadcast, C: Coin + Drop>(
    alloc: Global,
    text: &mut String,
    core: &Core<S, E, C, Channel>,
    origin: u8,
) -> Result<(), AllocError>
    ensures { let m = meaning S.stands S.rules S.shown E.stands E.rules E.shown C.bits (λ k. k.me) tags_of in
        (r : Rules) (st : CoreState) → CoreStands m core.now r st → st.live ≡ true → IsCoreOf S.rules E.rules r → r.mode.root ≤ 2 → origin < r.casts.numbers.n
        → OnOk result (string_bytes text.new ≡ string_bytes text.old ++ origin_lines (commands_delivered r st.history origin) origin) }
{
    delivered_within::<S, E>();
    let end = core
        .service()
        .base(origin)
        .saturating_add(COMMAND_WINDOW)
        .min(NUMBER_LIMIT);
    for num in 0..end {
        add_delivered(alloc, text, core, origin, num)?;
    }
    Ok(())
}

// Appends the lines of all commands that a core has delivered, by origin and number.
fn add_outs<S: Service, E: Broadcast, C: Coin + Drop>(
    alloc: Global,
    text: &mut String,
    core: &Core<S, E, C, Channel>,
) -> Result<(), AllocError>
    ensures { let m = meaning S.stands S.rules S.shown E.stands E.rules E.shown C.bits (λ k. k.me) tags_of in
        (r : Rules) (st : CoreState) → CoreStands m core.now r st → st.live ≡ true → IsCoreOf S.rules E.rules r → r.mode.root ≤ 2
        → OnOk result (string_bytes text.new ≡ string_bytes text.old ++ out_lines r st.history) }
{
    for origin in 0..core.params().n() {
        add_origin(alloc, text, core, origin)?;
    }
    Ok(())
}

// Appends what became of the one instance of a core's service.
fn add_ending<S: Service, E: Broadcast, C: Coin + Drop>(
    alloc: Global,
    text: &mut String,
    core: &Core<S, E, C, Channel>,
) -> Result<(), AllocError>
    ensures { let m = meaning S.stands S.rules S.shown E.stands E.rules E.shown C.bits (λ k. k.me) tags_of in
        (r : Rules) (st : CoreState) → CoreStands m core.now r st → st.live ≡ true → IsCoreOf S.rules E.rules r
        → OnOk result (string_bytes text.new ≡ string_bytes text.old
        ++ ending_line (r.service.outcome (seat_of r) (parts r st.history).words)) }
{
    let line = ending_line(alloc, core.service().outcome())?;
    text.push_str(line.as_str())?;
    Ok(())
}

/// Appends the line of the row at a position, if there is one: behind the lines of a log's rows below
/// that position it is the next.
#[tactic(auto, using(crate::proofs::Written::written_next))]
pub fn add_row(
    alloc: Global,
    text: &mut String,
    position: u32,
    row: Option<&LogRow>,
) -> Result<(), AllocError>
    ensures row { OnOk result (string_bytes text.new
        ≡ string_bytes text.old ++ row_line position (option_copied row.entry)) }
    ensures next { (old : List ℕ) (rows : _) → option_copied row.entry ≡ row_at rows position
        → string_bytes text.old ≡ old ++ row_lines_below rows position
        → OnOk result (string_bytes text.new ≡ old ++ row_lines_below rows (position + 1)) }
    ensures memory { OnErr result (row.entry ≢ None) }
{
    match row {
        Some(row) => {
            let line = row_line(alloc, position, row)?;
            text.push_str(line.as_str())?;
            Ok(())
        }
        None => Ok(()),
    }
}

// Appends the lines of a command log.
fn add_rows(alloc: Global, text: &mut String, log: &Log) -> Result<(), AllocError>
    ensures { OnOk result (string_bytes text.new ≡ string_bytes text.old ++ row_lines log.now.rows) }
{
    for position in 0..log.len() {
        add_row(alloc, text, position, log.row(position))?;
    }
    Ok(())
}

// Appends how many rounds are complete, and the command log.
fn add_log<S: Service, E: Broadcast, C: Coin + Drop>(
    alloc: Global,
    text: &mut String,
    replica: &Replica<S, E, C>,
) -> Result<(), AllocError>
    ensures { let m = meaning S.stands S.rules S.shown E.stands E.rules E.shown C.bits (λ k. k.me) tags_of in
        (s : Start) (r : Rules) (k : KeyRow) (st : CoreState) → ReplicaStands s m replica.now r k st → st.live ≡ true → IsCoreOf S.rules E.rules r
        → OnOk result (string_bytes text.new ≡ string_bytes text.old ++ log_lines s r st.history) }
{
    let log = replica.log();
    let completed = replica.core().service().completed();
    let line = rounds_line(alloc, completed, log.len())?;
    text.push_str(line.as_str())?;
    add_rows(alloc, text, log)
}

// Appends what a replica's service shows.
fn add_service<S: Service, E: Broadcast, C: Coin + Drop>(
    alloc: Global,
    text: &mut String,
    replica: &Replica<S, E, C>,
) -> Result<(), AllocError>
    ensures { let m = meaning S.stands S.rules S.shown E.stands E.rules E.shown C.bits (λ k. k.me) tags_of in
        (s : Start) (r : Rules) (k : KeyRow) (st : CoreState) → ReplicaStands s m replica.now r k st → st.live ≡ true → IsCoreOf S.rules E.rules r
        → OnOk result (string_bytes text.new ≡ string_bytes text.old ++ service_lines s r st.history) }
{
    let core = replica.core();
    match core.mode().service() {
        RootService::Reliable | RootService::Echo => add_outs(alloc, text, core),
        RootService::Atomic | RootService::Direct => add_log(alloc, text, replica),
        RootService::Binary | RootService::MultiValued | RootService::Vector => {
            add_ending(alloc, text, core)
        }
    }
}

/// Appends the lines of a replica: how it stands, and what its service shows.
pub(crate) fn add_replica<S: Service, E: Broadcast, C: Coin + Drop>(
    alloc: Global,
    text: &mut String,
    i: u8,
    replica: &Replica<S, E, C>,
) -> Result<(), AllocError>
    ensures { let m = meaning S.stands S.rules S.shown E.stands E.rules E.shown C.bits (λ k. k.me) tags_of in
        (s : Start) (r : Rules) (k : KeyRow) (st : CoreState) → ReplicaStands s m replica.now r k st → st.live ≡ true → IsCoreOf S.rules E.rules r
        → OnOk result (string_bytes text.new ≡ string_bytes text.old ++ standing_lines s i r k st) }
{
    let core = replica.core();
    let line = replica_line(alloc, i, replica.sent(), core.inbox_len(), core.held())?;
    text.push_str(line.as_str())?;
    add_service(alloc, text, replica)?;
    Ok(())
}

/// The report of a schedule, whose audit is this. The one error is want of memory.
pub(crate) fn report_text<S: Service, E: Broadcast>(
    alloc: Global,
    x: &Played<S, E>,
    audit: Audit,
) -> Result<String, AllocError>
    requires serves { S.rules.serves x.now.header.mode.root ≡ true }
    requires form { E.FORM ≡ other_form x.now.header.mode }
    ensures { let m = layers_by S.stands S.rules S.shown E.stands E.rules E.shown in
        (es : List Event) → PlayedStandsFor m x.now es → audit ≡ audit_of (setting_by S.rules E.rules x.now.header) es
        → IfOk result (λ s. string_bytes s ≡ report_on x.now.header (setting_by S.rules E.rules x.now.header) es) }
{
    let mut text = head_line(alloc, &x.header)?;
    let counts = count_line(alloc, x.world.events(), &x.counts)?;
    text.push_str(counts.as_str())?;
    add_rest(alloc, &mut text, Lines::Report, x, audit)?;
    Ok(text)
}
