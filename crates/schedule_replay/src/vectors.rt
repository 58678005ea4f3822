//! The text of the last vectors that were decided.
ghost use Rattle.std.specs.Prelude.{◌≡◌, ◌++◌, List, true, OnOk, IfOk, string_bytes};
ghost use Rattle.ritas_base.specs.declared.event.Event.{Event};
ghost use Rattle.keyed_channel.specs.Keyed.{tags_of};
ghost use Rattle.keyed_channel.specs.KeyRow.{KeyRow};
ghost use Rattle.command_log.specs.Rows.{Start};
ghost use Rattle.replica.specs.Replica.{ReplicaStands};
ghost use Rattle.ritas_core.specs.CoreOf.{IsCoreOf};
ghost use Rattle.ritas_core.specs.Machine.{CoreState};
ghost use Rattle.ritas_core.specs.Rules.{Rules, other_form};
ghost use Rattle.ritas_core.specs.Stands.{meaning};
ghost use Rattle.world_model.specs.Audit.{audit_of};
ghost use Rattle.schedule_replay.specs.Layers.{setting_by, layers_by};
ghost use Rattle.schedule_replay.specs.Played.{PlayedStandsFor};
ghost use Rattle.schedule_replay.specs.Vectors.{vector_line_of, vectors_on};

use crate::lines::vector_line;
use crate::played::Played;
use crate::replicas::{Lines, add_rest};
use layer_api::{Broadcast, Service};
use replica::Replica;
use ritas_base::Coin;
use std::alloc::{AllocError, Global};
use world_model::Audit;

/// Appends the line of a replica: what it decided last.
pub(crate) fn add_vector<S: Service, E: Broadcast, C: Coin + Drop>(
    alloc: Global,
    text: &mut String,
    i: u8,
    replica: &Replica<S, E, C>,
) -> Result<(), AllocError>
    ensures { let m = meaning S.stands S.rules S.shown E.stands E.rules E.shown C.bits (λ k. k.me) tags_of in
        (s : Start) (r : Rules) (k : KeyRow) (st : CoreState) → ReplicaStands s m replica.now r k st → st.live ≡ true → IsCoreOf S.rules E.rules r
        → OnOk result (string_bytes text.new ≡ string_bytes text.old ++ vector_line_of i r st.history) }
{
    let service = replica.core().service();
    let line = vector_line(alloc, i, service.outcome(), service.last_vector())?;
    text.push_str(line.as_str())?;
    Ok(())
}

/// The vectors text of a schedule, whose audit is this. The one error is want of memory.
pub(crate) fn vectors_text<S: Service, E: Broadcast>(
    alloc: Global,
    x: &Played<S, E>,
    audit: Audit,
) -> Result<String, AllocError>
    requires serves { S.rules.serves x.now.header.mode.root ≡ true }
    requires form { E.FORM ≡ other_form x.now.header.mode }
    ensures { let m = layers_by S.stands S.rules S.shown E.stands E.rules E.shown in
        (es : List Event) → PlayedStandsFor m x.now es → audit ≡ audit_of (setting_by S.rules E.rules x.now.header) es
        → IfOk result (λ s. string_bytes s ≡ vectors_on (setting_by S.rules E.rules x.now.header) es) }
{
    let mut text = String::new(alloc);
    add_rest(alloc, &mut text, Lines::Vectors, x, audit)?;
    Ok(text)
}
