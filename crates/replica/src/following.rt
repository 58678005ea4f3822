//! How the log of commands follows the identifier log.

ghost use Rattle.std.specs.Prelude.{◌≡◌, ◌≢◌, ◌+◌, ◌<◌, true, false, List, [], ◌∷◌, ◌++◌, length, reverse, OnOk, OnErr};
ghost use Rattle.std.specs.List.{AllByRecursion};
ghost use Rattle.layer_api.specs.Service.{IsPart};
ghost use Rattle.ritas_core.specs.Rules.{Rules};
ghost use Rattle.ritas_core.specs.Machine.{CoreState};
ghost use Rattle.ritas_core.specs.Stands.{CoreStands};
ghost use Rattle.ritas_base.specs.declared.id.Id.{Id};
ghost use Rattle.command_log.specs.Rows.{CommandEntry, entry_of_id, entries_of_log, chain_rows, client_of, request_of, has_row};
ghost use Rattle.command_log.specs.Standing.{StandsFor};
ghost use Rattle.replica.specs.Replica.{with_keys};
ghost use Rattle.replica.specs.CommandRows.{command_of, HasCommand};

use command_log::Log;
use keyed_channel::Channel;
use layer_api::{Broadcast, Service};
use ritas_base::{Coin, Id, LEAST_REQUEST, Mem, Slot};
use ritas_core::Core;
use std::alloc::Global;

// Gives the log a command that was delivered.
fn follow_one<S: Service, E: Broadcast, C: Coin + Drop>(
    alloc: Global,
    core: &Core<S, E, C, Channel>,
    log: &mut Log,
    id: Id,
) -> Result<(), Mem>
    ensures ok { let m = with_keys S.stands S.rules S.shown E.stands E.rules E.shown C.bits in
        OnOk result ((r : Rules) (st : CoreState) → CoreStands m core.now r st → st.live ≡ true
        → HasCommand r st.history id → length log.old.rows < 4294967295
        → (es : List CommandEntry) → StandsFor log.old es → StandsFor log.new (entry_of_id (command_of r st.history) id ∷ es)) }
    ensures err { OnErr result (log.new.rows ≡ log.old.rows) }
    // Memory is wanted only for a command whose client and request have no row.
    ensures memory { let m = with_keys S.stands S.rules S.shown E.stands E.rules E.shown C.bits in
        OnErr result ((r : Rules) (st : CoreState) → CoreStands m core.now r st → st.live ≡ true
        → (has : HasCommand r st.history id)
        → has_row log.old.rows (client_of has.command) (request_of has.command) ≡ false) }
    ensures f { log.new.f ≡ log.old.f }
    ensures start { log.new.start ≡ log.old.start }
{
    let Some(command) = core.delivered(&Slot::command(id.origin, id.num)) else {
        return Ok(());
    };
    // No shorter command comes, and the log has room.
    if command.len() >= LEAST_REQUEST && log.len() < 4_294_967_295 {
        log.append(alloc, id, command)?;
    }
    Ok(())
}

/// Gives the log the commands of these identifiers, which were appended to the service's log in this order. For want of
/// memory it has the rows of some of them, the first of all.
pub(crate) fn follow<S: Service, E: Broadcast, C: Coin + Drop>(
    alloc: Global,
    core: &Core<S, E, C, Channel>,
    log: &mut Log,
    ids: &[Id],
) -> Result<(), Mem>
    ensures ok { let m = with_keys S.stands S.rules S.shown E.stands E.rules E.shown C.bits in
        OnOk result ((r : Rules) (st : CoreState) → CoreStands m core.now r st → st.live ≡ true
        → AllByRecursion (HasCommand r st.history) ids.now → (xs : List Id)
        → length log.old.start.base + length xs + length ids.now < 4294967295
        → StandsFor log.old (entries_of_log (command_of r st.history) xs)
        → StandsFor log.new (entries_of_log (command_of r st.history) (reverse ids.now ++ xs))) }
    ensures err { let m = with_keys S.stands S.rules S.shown E.stands E.rules E.shown C.bits in
        OnErr result ((r : Rules) (st : CoreState) → CoreStands m core.now r st → st.live ≡ true
        → AllByRecursion (HasCommand r st.history) ids.now → (xs : List Id)
        → length log.old.start.base + length xs + length ids.now < 4294967295
        → StandsFor log.old (entries_of_log (command_of r st.history) xs)
        → IsPart (chain_rows log.old.start log.old.f (command_of r st.history) xs) log.new.rows
        × IsPart log.new.rows (chain_rows log.old.start log.old.f (command_of r st.history) (reverse ids.now ++ xs))) }
    ensures memory { OnErr result (ids.now ≢ []) }
    ensures f { log.new.f ≡ log.old.f }
    ensures start { log.new.start ≡ log.old.start }
{
    for id in ids {
        follow_one(alloc, core, log, *id)?;
    }
    Ok(())
}
