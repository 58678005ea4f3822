//! Serving the session of a header.
ghost use Rattle.std.specs.Prelude.{◌≡◌, true, [], IfOk, OnErr};
ghost use Rattle.ritas_base.specs.Slots.{is_atomic};
ghost use Rattle.ritas_core.specs.Rules.{other_form};
ghost use Rattle.schedule_file.specs.ReadHeader.{heading};
ghost use Rattle.schedule_file.specs.Spelling.{IsHeading};
ghost use Rattle.schedule_replay.specs.Layers.{layers_by, other_of, setting_by, setting_of};
ghost use Rattle.world_model.specs.Stands.{members};
ghost use Rattle.node_loop.specs.Outs.{outs_of, tells_of};
ghost use Rattle.node_loop.specs.Served.{AreHere};
ghost use Rattle.node_session.specs.Session.{IsServable, ServesSession};

use crate::closing::close;
use crate::opening::open;
use atomic_bcast::Abc;
use binary_consensus::Bin;
use direct_atomic::Direct;
use echo_bcast::Eb;
use keyed_channel::SeedCoin;
use layer_api::{Broadcast, Service};
use multivalued::Mvc;
use node_loop::{
    Limits, ServeEnd, acks_are_earned, acts_are_deeds, events_fit, frames_are_made,
    pieces_are_of_logs, replies_are_true, resends_are_open, serve,
};
use outside::{Link, LinkItem, LinkPlan, Sink};
use reliable_bcast::{DigestRb, Rb};
use replica::Replica;
use ritas_base::{Mem, RootService};
use schedule_file::Header;
use schedule_replay::{first_world, other_form};
use std::alloc::Global;
use std::net::Net;
use std::sync::Wait;
use vector_consensus::Vc;
use world_model::agreement;

/// What a session is served with.
#[derive(Drop)]
pub struct Session {
    /// The header of its file: the replicas that it names as correct are served.
    pub header: Header,
    /// What the link is started with.
    pub plan: LinkPlan,
    /// For how long it is served.
    pub limits: Limits,
}

/// The correct replicas of a header, in order, before any event. The one error is want of memory.
pub(crate) fn first_replicas<S: Service, E: Broadcast>(
    alloc: Global,
    header: &Header,
) -> Result<Vec<Replica<S, E, SeedCoin>>, Mem>
    requires heading { IsHeading (heading header.now) }
    requires atomic { is_atomic header.now.mode.root ≡ true }
    requires serves { S.rules.serves header.now.mode.root ≡ true }
    requires form { E.FORM ≡ other_form header.now.mode }
    ensures here { let m = layers_by S.stands S.rules S.shown E.stands E.rules E.shown in
        let w = setting_by S.rules E.rules header.now in
        IfOk result (λ replicas. AreHere m w [] (members w) replicas.items) }
{
    let world = first_world::<S, E>(alloc, header)?;
    world.into_replicas(alloc)
}

// Serves a session in these layers.
fn serve_as<R: Net + Wait, S: Service, E: Broadcast, L: Link, K: Sink>(
    rt: &R,
    alloc: Global,
    session: &Session,
    first: &Vec<LinkItem>,
    link: &mut L,
    output: &mut K,
) -> Result<ServeEnd, Mem>
    requires servable { IsServable session.now first.now.items }
    requires serves { S.rules.serves session.now.header.mode.root ≡ true }
    requires form { E.FORM ≡ other_form session.now.header.mode }
    ensures served { IfOk result (λ end. ServesSession session.now first.now.items (setting_by S.rules E.rules session.now.header) (tells_of K.Sink L.Link)
        (outs_of K.Sink L.Link output.old link.old) (outs_of K.Sink L.Link output.new link.new) end) }
    ensures unserved { OnErr result ((output.new ≡ output.old) × (link.new ≡ link.old)) }
{
    events_fit();
    acts_are_deeds();
    frames_are_made();
    resends_are_open();
    acks_are_earned();
    replies_are_true::<S, E>();
    pieces_are_of_logs::<S, E>();
    agreement::<S, E>();
    let mut replicas = first_replicas::<S, E>(alloc, &session.header)?;
    match open(rt, alloc, &session.header, &session.plan, link, output) {
        Ok(()) => {}
        Err(end) => return Ok(end),
    }
    let end = serve(
        rt,
        alloc,
        &mut replicas,
        link,
        output,
        session.limits,
        first,
    );
    Ok(close(output, end))
}

// Serves a session with this service, and the broadcasts of its mode.
fn serve_by<R: Net + Wait, S: Service, L: Link, K: Sink>(
    rt: &R,
    alloc: Global,
    session: &Session,
    first: &Vec<LinkItem>,
    link: &mut L,
    output: &mut K,
) -> Result<ServeEnd, Mem>
    requires servable { IsServable session.now first.now.items }
    requires serves { S.rules.serves session.now.header.mode.root ≡ true }
    ensures served { let h = session.now.header in
        IfOk result (λ end. ServesSession session.now first.now.items (setting_by S.rules (other_of h.mode) h) (tells_of K.Sink L.Link)
        (outs_of K.Sink L.Link output.old link.old) (outs_of K.Sink L.Link output.new link.new) end) }
    ensures unserved { OnErr result ((output.new ≡ output.old) × (link.new ≡ link.old)) }
{
    let form = other_form(&session.header.mode);
    if form == 2 {
        serve_as::<R, S, Eb, L, K>(rt, alloc, session, first, link, output)
    } else if form == 3 {
        serve_as::<R, S, DigestRb, L, K>(rt, alloc, session, first, link, output)
    } else {
        serve_as::<R, S, Rb, L, K>(rt, alloc, session, first, link, output)
    }
}

/// Serves a session, over a link that is started once with its plan: the replicas that are correct by the header take the items of `first`,
/// in order, and then those that the link gives (`node_loop::serve`).
///
/// The output takes the header, each event before the frames that it makes are sent, and, where serving ends by its rules, the end
/// mark: a schedule file, which can be replayed where it has at most 67,108,864 bytes. It ends as `serve` does; at a fault the output
/// took a front of a file. The one error is want of memory for the replicas: then nothing is written, and the link isn't started.
///
/// Where the audit of the events holds, the replicas agree: their logs of commands are prefixes of one list, with each command once, each
/// command there was submitted at a correct replica, and no two decide differently in any instance.
///
/// It waits nowhere but in the link's calls. The header's root service is 6 or 7, which order commands.
pub fn serve_session<R: Net + Wait, L: Link, K: Sink>(
    rt: &R,
    alloc: Global,
    session: &Session,
    first: &Vec<LinkItem>,
    link: &mut L,
    output: &mut K,
) -> Result<ServeEnd, Mem>
    requires servable { IsServable session.now first.now.items }
    ensures served { IfOk result (λ end. ServesSession session.now first.now.items (setting_of session.now.header) (tells_of K.Sink L.Link)
        (outs_of K.Sink L.Link output.old link.old) (outs_of K.Sink L.Link output.new link.new) end) }
    ensures unserved { OnErr result ((output.new ≡ output.old) × (link.new ≡ link.old)) }
{
    match session.header.mode.service() {
        RootService::Atomic => {
            serve_by::<R, Abc<Vc<Mvc<Bin>>>, L, K>(rt, alloc, session, first, link, output)
        }
        RootService::Direct => {
            serve_by::<R, Direct<Mvc<Bin>>, L, K>(rt, alloc, session, first, link, output)
        }
        RootService::Reliable
        | RootService::Echo
        | RootService::Binary
        | RootService::MultiValued
        | RootService::Vector => unreachable!(),
    }
}
