//! How the links of the three plans begin.

use crate::dials::Dial;
use crate::doors::{address_of, open};
use crate::entry::Entry;
use crate::running::Running;
use crate::stage::Stage;
use crate::tokens::{count_of, ends_of_all};
use crate::trouble::Trouble;
use crate::whom::Whom;
use outside::LinkPlan;
use ritas_base::{Mem, Texts};
use std::alloc::Global;
use std::net::Net;
use std::rt::Clock;
use std::sync::Wait;

impl Running {
    // Opens a door of a replica.
    fn open<R: Net>(&mut self, rt: &R, text: Option<&[u8]>, entry: Entry) -> Result<(), Trouble> {
        let Some(address) = text.and_then(address_of) else {
            return Err(Trouble::System);
        };
        let token = self.sockets.doors.len();
        let door = open(rt, self.poll.registry(), address, entry, token)?;
        self.sockets.doors.push(door)?;
        Ok(())
    }

    // Begins to connect with a peer or a node, and does so again and again where it has to be. A text that is no address is never
    // reached.
    fn reach<R: Net>(&mut self, rt: &R, alloc: Global, text: &[u8], whom: Whom) -> Result<(), Mem> {
        let Some(address) = address_of(text) else {
            return self.sockets.closed(whom.ended(Stage::Refused, false), None);
        };
        let registry = self.poll.registry();
        self.sockets
            .dial(rt, alloc, registry, Dial { address, whom })
    }

    // Connects a replica with those of lesser numbers, each of which has to have an address.
    fn reach_lesser<R: Net>(
        &mut self,
        rt: &R,
        alloc: Global,
        at: u8,
        peers: &Texts,
    ) -> Result<(), Trouble> {
        for peer in 0..at {
            let Some(text) = peers.get(usize::from(peer)) else {
                return Err(Trouble::System);
            };
            self.reach(rt, alloc, text, Whom::Peer { at, peer })?;
        }
        Ok(())
    }

    // Goes on until every two replicas are connected, as both of them know.
    fn join<R: Net + Wait, C: Clock>(
        &mut self,
        rt: &R,
        alloc: Global,
        clock: &C,
    ) -> Result<(), Trouble> {
        let wanted = ends_of_all(self.sockets.n);
        for _ in rt.forever() {
            if self.sockets.conns.peers_up() >= wanted {
                return Ok(());
            }
            self.turn(rt, alloc, clock)?;
        }
        unreachable!()
    }
}

// One replica of a session, if its number is one of that.
fn start_node<R: Net>(
    rt: &R,
    alloc: Global,
    at: u8,
    peers: &Texts,
    client: &[u8],
) -> Result<Running, Trouble> {
    let n = count_of(peers.len());
    if at >= n {
        return Err(Trouble::System);
    }
    let mut running = Running::new(rt, alloc, n, false)?;
    running.open(rt, peers.get(usize::from(at)), Entry::Replicas { at })?;
    running.open(rt, Some(client), Entry::Clients { at })?;
    running.reach_lesser(rt, alloc, at, peers)?;
    Ok(running)
}

// All replicas of a session.
fn start_cluster<R: Net + Wait, C: Clock>(
    rt: &R,
    alloc: Global,
    peers: &Texts,
    clock: &C,
) -> Result<Running, Trouble> {
    let n = count_of(peers.len());
    let mut running = Running::new(rt, alloc, n, false)?;
    for at in 0..n {
        running.open(rt, peers.get(usize::from(at)), Entry::Replicas { at })?;
    }
    for at in 0..n {
        running.reach_lesser(rt, alloc, at, peers)?;
    }
    running.join(rt, alloc, clock)?;
    Ok(running)
}

// A client of these nodes.
fn start_client<R: Net>(rt: &R, alloc: Global, nodes: &Texts) -> Result<Running, Trouble> {
    let n = count_of(nodes.len());
    let mut running = Running::new(rt, alloc, n, true)?;
    for from in 0..n {
        let Some(text) = nodes.get(usize::from(from)) else {
            return Err(Trouble::System);
        };
        running.reach(rt, alloc, text, Whom::Node { from })?;
    }
    Ok(running)
}

/// The link of a plan.
pub(crate) fn started<R: Net + Wait, C: Clock>(
    rt: &R,
    alloc: Global,
    plan: &LinkPlan,
    clock: &C,
) -> Result<Running, Trouble> {
    match plan {
        LinkPlan::Node { me, peers, client } => {
            start_node(rt, alloc, *me, peers, client.as_slice())
        }
        LinkPlan::Cluster { peers } => start_cluster(rt, alloc, peers, clock),
        LinkPlan::Client { nodes } => start_client(rt, alloc, nodes),
    }
}
