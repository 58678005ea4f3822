//! Handing a request to the nodes.
ghost use Rattle.std.specs.Prelude.{◌≡◌, ◌∷◌, ◌++◌, [], IfOk};
ghost use Rattle.outside.specs.LinkCalls.{LinkDid};
ghost use Rattle.outside.specs.Links.{Starts};
ghost use Rattle.client_port.specs.Messages.{request_bytes};
ghost use Rattle.request_submit.specs.Submitting.{plan_of, sent_to_each, Submits};

use crate::awaiting::await_position;
use crate::end::SubmitEnd;
use client_port::{Votes, write_request};
use outside::{Link, LinkFault, LinkPlan};
use ritas_base::{Bytes, Mem, Params, Texts};
use std::alloc::Global;
use std::net::Net;
use std::sync::Wait;

// Sends a message to each of so many nodes, in ascending order.
fn send_to_each<R: Net + Wait, L: Link>(
    rt: &R,
    alloc: Global,
    link: &mut L,
    count: u8,
    message: &[u8],
) -> Result<(), LinkFault>
    ensures sent { LinkDid L.tells (sent_to_each count message.now) (L.told link.old) (L.told link.new) (L.faults link.old) (L.faults link.new) result }
{
    for node in 0..count {
        link.send(rt, alloc, 0, node, message)?;
    }
    Ok(())
}

// What the link is started with, and the request's message.
fn prepared(
    alloc: Global,
    nodes: &Texts,
    client: u32,
    request: u32,
    payload: &[u8],
) -> Result<(LinkPlan, Bytes), Mem>
    ensures plan { IfOk result (λ x. x.0 ≡ plan_of nodes.now) }
    ensures message { IfOk result (λ x. x.1 ≡ request_bytes (record { client = client; request = request; payload = payload.now })) }
{
    let nodes = nodes.copy(alloc)?;
    let message = write_request(alloc, client, request, payload)?;
    Ok((LinkPlan::Client { nodes }, message))
}

/// Starts a link by its plan, and sends a message to each of so many nodes, in ascending order and with 0 as the replica
/// that sends. No call follows one that fails or is without memory.
pub fn hand_in<R: Net + Wait, L: Link>(
    rt: &R,
    alloc: Global,
    count: u8,
    plan: &LinkPlan,
    message: &[u8],
    link: &mut L,
) -> Result<(), LinkFault>
    ensures handed { LinkDid L.tells (sent_to_each count message.now ++ Starts plan.now ∷ []) (L.told link.old) (L.told link.new) (L.faults link.old) (L.faults link.new) result }
{
    link.start(rt, alloc, plan)?;
    send_to_each(rt, alloc, link, count, message)
}

/// Hands a client's request to all nodes, and waits for a position that f + 1 of them reply: as up to f nodes may be faulty,
/// one of these is correct. This is the client's rule of Castro and Liskov, "Practical Byzantine Fault Tolerance" (OSDI 1999).
///
/// The link is started once, for a client of these nodes. The request's message is sent to each node from 0 to n - 1, in
/// ascending order and with 0 as the replica that sends. Then the link's items are taken: each reply is counted by
/// `Votes::reply`, of each node its first position. A reply that is refused there changes nothing, and neither does any other
/// item.
///
/// It ends with `Position` at the first reply whose position f + 1 nodes have given with it, with `NoPosition` at the link's
/// end, with `LinkFault` at the first call of the link that fails, and with `Mem` where there is not enough memory, also at the
/// first call of the link that is without it: no call follows one that fails or is without memory. It waits nowhere but in the
/// link's calls.
pub fn submit<R: Net + Wait, L: Link>(
    rt: &R,
    alloc: Global,
    p: &Params,
    nodes: &Texts,
    client: u32,
    request: u32,
    payload: &[u8],
    link: &mut L,
) -> SubmitEnd
    ensures submits { Submits (record { numbers = p.now; client = client; request = request }) nodes.now payload.now L.tells (L.told link.old) (L.told link.new) (L.faults link.old) (L.faults link.new) result }
{
    let (plan, message) = match prepared(alloc, nodes, client, request, payload) {
        Ok(prepared) => prepared,
        Err(Mem) => return SubmitEnd::Mem,
    };
    match hand_in(rt, alloc, p.n(), &plan, message.as_slice(), link) {
        Ok(()) => await_position(rt, alloc, Votes::new(p, client, request), link),
        Err(fault) => SubmitEnd::from(fault),
    }
}
