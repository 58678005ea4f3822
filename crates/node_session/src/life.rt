//! Serving the session of a header after the events that a journal kept.
ghost use Rattle.std.specs.Prelude.{◌≡◌, true, [], List, ℕ, reverse, IfOk, OnErr};
ghost use Rattle.std.specs.List.{AllByRecursion};
ghost use Rattle.ritas_base.specs.Members.{has_member};
ghost use Rattle.ritas_core.specs.Rules.{other_form};
ghost use Rattle.event_journal.specs.Journal.{IsRecord};
ghost use Rattle.schedule_replay.specs.Layers.{other_of, setting_by, setting_of};
ghost use Rattle.node_loop.specs.Journals.{journal_moment, OpenedAs};
ghost use Rattle.node_loop.specs.Outs.{outs_of, tells_of};
ghost use Rattle.node_session.specs.Lives.{ServesLife};
ghost use Rattle.node_session.specs.Session.{IsServable};

use crate::closing::close;
use crate::opening::open;
use crate::session::{Session, first_replicas};
use atomic_bcast::Abc;
use binary_consensus::Bin;
use direct_atomic::Direct;
use echo_bcast::Eb;
use event_journal::Journal;
use layer_api::{Broadcast, Service};
use multivalued::Mvc;
use node_loop::{
    ServeEnd, acks_are_earned, acts_are_deeds, events_fit, frames_are_made, pieces_are_of_logs,
    recalled_are_sent, replies_are_true, resends_are_open, serve_recovered,
};
use outside::{Disk, Link, Sink};
use reliable_bcast::{DigestRb, Rb};
use ritas_base::{Event, Mem, RootService};
use schedule_replay::other_form;
use std::alloc::Global;
use std::net::Net;
use std::sync::Wait;
use vector_consensus::Vc;
use world_model::agreement;

/// A life of a replica that has a journal.
#[derive(Drop)]
pub(crate) struct Life {
    /// What it is served with.
    pub(crate) session: Session,
    /// The journal, which keeps the events of this one too.
    pub(crate) journal: Journal,
}

// Serves a life in these layers.
fn live_as<R: Net + Wait, S: Service, E: Broadcast, L: Link, K: Sink, D: Disk>(
    rt: &R,
    alloc: Global,
    life: &mut Life,
    recovered: Vec<Event>,
    link: &mut L,
    output: &mut K,
    disk: &mut D,
) -> Result<ServeEnd, Mem>
    requires servable { IsServable life.old.session [] }
    requires serves { S.rules.serves life.old.session.header.mode.root ≡ true }
    requires form { E.FORM ≡ other_form life.old.session.header.mode }
    requires live { life.old.journal.live ≡ true }
    requires own { AllByRecursion (IsRecord life.old.journal.me) recovered.items }
    requires member { has_member life.old.session.header.correct life.old.journal.me ≡ true }
    ensures served { (head : List ℕ)
        → OpenedAs D.Disk head (reverse recovered.items) life.old.journal disk.old
        → IfOk result (λ end. ServesLife life.old.session (reverse recovered.items)
        (setting_by S.rules E.rules life.old.session.header) (tells_of K.Sink L.Link)
        (outs_of K.Sink L.Link output.old link.old)
        (journal_moment D.Disk head (reverse recovered.items) life.old.journal.me disk.old
        (outs_of K.Sink L.Link output.new link.new) life.new.journal disk.new) end) }
    ensures unserved { OnErr result ((output.new ≡ output.old) × (link.new ≡ link.old)
        × (disk.new ≡ disk.old)) }
{
    events_fit();
    acts_are_deeds();
    frames_are_made();
    resends_are_open();
    recalled_are_sent();
    acks_are_earned();
    replies_are_true::<S, E>();
    pieces_are_of_logs::<S, E>();
    agreement::<S, E>();
    let mut replicas = first_replicas::<S, E>(alloc, &life.session.header)?;
    match open(
        rt,
        alloc,
        &life.session.header,
        &life.session.plan,
        link,
        output,
    ) {
        Ok(()) => {}
        Err(end) => return Ok(end),
    }
    let end = serve_recovered(
        rt,
        alloc,
        &mut replicas,
        recovered,
        &mut life.journal,
        disk,
        link,
        output,
        life.session.limits,
    );
    Ok(close(output, end))
}

// Serves a life with this service, and the broadcasts of its mode.
fn live_by<R: Net + Wait, S: Service, L: Link, K: Sink, D: Disk>(
    rt: &R,
    alloc: Global,
    life: &mut Life,
    recovered: Vec<Event>,
    link: &mut L,
    output: &mut K,
    disk: &mut D,
) -> Result<ServeEnd, Mem>
    requires servable { IsServable life.old.session [] }
    requires serves { S.rules.serves life.old.session.header.mode.root ≡ true }
    requires live { life.old.journal.live ≡ true }
    requires own { AllByRecursion (IsRecord life.old.journal.me) recovered.items }
    requires member { has_member life.old.session.header.correct life.old.journal.me ≡ true }
    ensures served { let h = life.old.session.header in
        (head : List ℕ) → OpenedAs D.Disk head (reverse recovered.items) life.old.journal disk.old
        → IfOk result (λ end. ServesLife life.old.session (reverse recovered.items) (setting_by S.rules (other_of h.mode) h) (tells_of K.Sink L.Link)
        (outs_of K.Sink L.Link output.old link.old)
        (journal_moment D.Disk head (reverse recovered.items) life.old.journal.me disk.old (outs_of K.Sink L.Link output.new link.new) life.new.journal disk.new) end) }
    ensures unserved { OnErr result ((output.new ≡ output.old) × (link.new ≡ link.old) × (disk.new ≡ disk.old)) }
{
    let form = other_form(&life.session.header.mode);
    if form == 2 {
        live_as::<R, S, Eb, L, K, D>(rt, alloc, life, recovered, link, output, disk)
    } else if form == 3 {
        live_as::<R, S, DigestRb, L, K, D>(rt, alloc, life, recovered, link, output, disk)
    } else {
        live_as::<R, S, Rb, L, K, D>(rt, alloc, life, recovered, link, output, disk)
    }
}

/// Serves a life of a replica, after the events that its journal kept of the lives before, the
/// oldest first, as `serve_session` does one without a journal.
///
/// The output takes the header, the events that were kept, and then each event before the frames
/// that it makes are sent (`node_loop::serve_kept`). The one error is want of memory for the
/// replica: then nothing is written, and neither the link nor the disk is touched.
pub(crate) fn serve_life<R: Net + Wait, L: Link, K: Sink, D: Disk>(
    rt: &R,
    alloc: Global,
    life: &mut Life,
    recovered: Vec<Event>,
    link: &mut L,
    output: &mut K,
    disk: &mut D,
) -> Result<ServeEnd, Mem>
    requires servable { IsServable life.old.session [] }
    requires live { life.old.journal.live ≡ true }
    requires own { AllByRecursion (IsRecord life.old.journal.me) recovered.items }
    requires member { has_member life.old.session.header.correct life.old.journal.me ≡ true }
    ensures served { (head : List ℕ)
        → OpenedAs D.Disk head (reverse recovered.items) life.old.journal disk.old
        → IfOk result (λ end. ServesLife life.old.session (reverse recovered.items)
        (setting_of life.old.session.header) (tells_of K.Sink L.Link)
        (outs_of K.Sink L.Link output.old link.old)
        (journal_moment D.Disk head (reverse recovered.items) life.old.journal.me disk.old
        (outs_of K.Sink L.Link output.new link.new) life.new.journal disk.new) end) }
    ensures unserved { OnErr result ((output.new ≡ output.old) × (link.new ≡ link.old)
        × (disk.new ≡ disk.old)) }
{
    match life.session.header.mode.service() {
        RootService::Atomic => live_by::<R, Abc<Vc<Mvc<Bin>>>, L, K, D>(
            rt, alloc, life, recovered, link, output, disk,
        ),
        RootService::Direct => live_by::<R, Direct<Mvc<Bin>>, L, K, D>(
            rt, alloc, life, recovered, link, output, disk,
        ),
        RootService::Reliable
        | RootService::Echo
        | RootService::Binary
        | RootService::MultiValued
        | RootService::Vector => unreachable!(),
    }
}
