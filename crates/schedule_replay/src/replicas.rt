//! What a text says of the correct replicas, one after the other, and its end.
ghost use Rattle.std.specs.Prelude.{◌≡◌, ◌++◌, List, true, OnOk, string_bytes, filter};
ghost use Rattle.std.specs.List.{flat_map, range_with_len};
ghost use Rattle.ritas_base.specs.declared.event.Event.{Event};
ghost use Rattle.keyed_channel.specs.Keyed.{tags_of};
ghost use Rattle.keyed_channel.specs.KeyRow.{KeyRow};
ghost use Rattle.command_log.specs.Rows.{Start};
ghost use Rattle.replica.specs.Replica.{ReplicaStands};
ghost use Rattle.ritas_core.specs.CoreOf.{IsCoreOf};
ghost use Rattle.ritas_core.specs.Machine.{CoreState};
ghost use Rattle.ritas_core.specs.Rules.{Rules, other_form};
ghost use Rattle.ritas_core.specs.Stands.{meaning};
ghost use Rattle.world_model.specs.Audit.{audit_of};
ghost use Rattle.world_model.specs.Stands.{WorldStands};
ghost use Rattle.world_model.specs.World.{Setting};
ghost use Rattle.schedule_replay.specs.Layers.{setting_by, layers_by, AreCoresOf};
ghost use Rattle.schedule_replay.specs.Played.{PlayedStandsFor};
ghost use Rattle.schedule_replay.specs.Replicas.{lines_by, lines_at, rest_on};

use crate::lines::audit_line;
use crate::played::Played;
use crate::report::add_replica;
use crate::vectors::add_vector;
use layer_api::{Broadcast, Service};
use replica::Replica;
use ritas_base::Coin;
use std::alloc::{AllocError, Global};
use world_model::{Audit, World};

/// What a text says of a replica.
#[derive(Clone, Copy, PartialEq, Eq)]
pub(crate) enum Lines {
    /// How it stands, and what its service shows.
    Report,
    /// What it decided last.
    Vectors,
}

// Appends the lines of a replica.
fn add_lines<S: Service, E: Broadcast, C: Coin + Drop>(
    alloc: Global,
    text: &mut String,
    lines: Lines,
    i: u8,
    replica: &Replica<S, E, C>,
) -> Result<(), AllocError>
    ensures { let m = meaning S.stands S.rules S.shown E.stands E.rules E.shown C.bits (λ k. k.me) tags_of in
        (s : Start) (r : Rules) (k : KeyRow) (st : CoreState) → ReplicaStands s m replica.now r k st → st.live ≡ true → IsCoreOf S.rules E.rules r
        → OnOk result (string_bytes text.new ≡ string_bytes text.old ++ lines_by lines s i r k st) }
{
    match lines {
        Lines::Report => add_replica(alloc, text, i, replica),
        Lines::Vectors => add_vector(alloc, text, i, replica),
    }
}

// Appends the lines of the correct replicas of a world, of n.
fn add_replicas<S: Service, E: Broadcast, C: Coin + Drop>(
    alloc: Global,
    text: &mut String,
    lines: Lines,
    world: &World<S, E, C>,
    n: u8,
) -> Result<(), AllocError>
    ensures { let m = meaning S.stands S.rules S.shown E.stands E.rules E.shown C.bits (λ k. k.me) tags_of in
        (w : Setting) (es : List Event) → WorldStands m world.now w es → n ≡ w.numbers.n → AreCoresOf S.rules E.rules w
        → OnOk result (string_bytes text.new ≡ string_bytes text.old
        ++ flat_map (lines_at lines w es) (filter w.is_correct (range_with_len 0 w.numbers.n))) }
{
    for i in 0..n {
        match world.replica(i) {
            Some(replica) => add_lines(alloc, text, lines, i, replica)?,
            None => {}
        }
    }
    Ok(())
}

/// Appends what a text says of the correct replicas, and its audit, which ends it.
pub(crate) fn add_rest<S: Service, E: Broadcast>(
    alloc: Global,
    text: &mut String,
    lines: Lines,
    x: &Played<S, E>,
    audit: Audit,
) -> Result<(), AllocError>
    requires serves { S.rules.serves x.now.header.mode.root ≡ true }
    requires form { E.FORM ≡ other_form x.now.header.mode }
    ensures { let m = layers_by S.stands S.rules S.shown E.stands E.rules E.shown in let w = setting_by S.rules E.rules x.now.header in
        (es : List Event) → PlayedStandsFor m x.now es → audit ≡ audit_of w es
        → OnOk result (string_bytes text.new ≡ string_bytes text.old ++ rest_on lines w es) }
{
    add_replicas(alloc, text, lines, &x.world, x.header.p.n())?;
    let last = audit_line(alloc, audit)?;
    text.push_str(last.as_str())?;
    Ok(())
}
