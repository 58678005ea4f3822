//! Sessions that configurations describe.
ghost use Rattle.std.specs.Prelude.{◌≡◌, ◌≢◌, ◌<◌, [], true, false, map, IfOk, IfErr, OnErr};
ghost use Rattle.schedule_replay.specs.Layers.{setting_of};
ghost use Rattle.schedule_replay.specs.Replay.{CountsIf};
ghost use Rattle.cluster_config.specs.Cluster.{cluster_text};
ghost use Rattle.cluster_config.specs.Node.{node_text};
ghost use Rattle.cluster_config.specs.Ranges.{FitsNode, FitsCluster};
ghost use Rattle.node_loop.specs.Outs.{outs_of, tells_of};
ghost use Rattle.node_session.specs.Configs.{node_header, node_session, cluster_header, cluster_session, first_item};
ghost use Rattle.node_session.specs.Lives.{HasDiskFailed, ServesNode, Unopened, disk_seen};
ghost use Rattle.node_session.specs.Session.{ServesSession};

use crate::life::{Life, serve_life};
use crate::session::{Session, serve_session};
use client_port::write_request;
use cluster_config::{ClusterConfig, NodeConfig, Request, Requests};
use event_journal::{JournalFault, journal_head, open_journal};
use node_loop::{Limits, ServeEnd};
use outside::{Disk, Link, LinkItem, LinkPlan, Sink};
use ritas_base::{Mem, SenderSet};
use schedule_file::{Header, HeaderKeys};
use std::alloc::Global;
use std::net::Net;
use std::sync::Wait;

// The header of a node's file: the node alone is correct, and the keys are its own.
fn node_header(config: &NodeConfig) -> Header
    requires below { config.now.me < 32 }
    ensures header { result ≡ node_header config.now }
{
    Header {
        session: config.session,
        p: config.p,
        mode: config.mode,
        correct: SenderSet::from_mask(1u32 << config.me),
        keys: HeaderKeys::Row {
            me: config.me,
            row: config.key_row,
            coin: config.coin_key,
        },
    }
}

// The header of a cluster's file: all are correct.
fn cluster_header(config: &ClusterConfig) -> Header
    ensures header { result ≡ cluster_header config.now }
{
    let correct = (1u32 << config.p.n()) - 1;
    Header {
        session: config.session,
        p: config.p,
        mode: config.mode,
        correct: SenderSet::from_mask(correct),
        keys: HeaderKeys::Master(config.master),
    }
}

// A request as an item with which serving begins. The one error is want of memory: where memory is
// ample it doesn't come, as `serves_a_cluster` of `stack_tests` shows.
fn first_item(alloc: Global, request: &Request) -> Result<LinkItem, Mem>
    ensures item { IfOk result (λ item. item ≡ first_item request.now) }
{
    let bytes = write_request(
        alloc,
        request.client,
        request.request,
        request.payload.as_slice(),
    )?;
    Ok(LinkItem::Client {
        at: request.at,
        conn: 0,
        bytes,
    })
}

// The items with which serving begins. The one error is want of memory, which comes only where
// there is a request.
fn first_items(alloc: Global, requests: &Requests) -> Result<Vec<LinkItem>, Mem>
    ensures items { IfOk result (λ items. items.items ≡ map first_item requests.now) }
    ensures memory { OnErr result (requests.now ≢ []) }
{
    let mut items = Vec::new(alloc);
    for at in 0..requests.len() {
        if let Some(request) = requests.get(at) {
            items.push(first_item(alloc, request)?)?;
        }
    }
    Ok(items)
}

// The session of a configuration's replica.
fn session_of(config: NodeConfig) -> Session
    requires below { config.me < 32 }
    ensures session { result ≡ node_session config }
{
    Session {
        header: node_header(&config),
        plan: LinkPlan::Node {
            me: config.me,
            peers: config.peers,
            client: config.client,
        },
        limits: Limits {
            items: config.limit,
            rows: config.until,
            closing: None,
        },
    }
}

// Serves the replica of a configuration with its journal.
fn serve_journal<R: Net + Wait, L: Link, K: Sink, D: Disk>(
    rt: &R,
    alloc: Global,
    config: NodeConfig,
    link: &mut L,
    output: &mut K,
    disk: &mut D,
) -> Result<ServeEnd, JournalFault>
    requires fits { FitsNode (node_text config) }
    ensures served { IfOk result (λ end. ServesNode config (tells_of K.Sink L.Link)
        (outs_of K.Sink L.Link output.old link.old) (outs_of K.Sink L.Link output.new link.new)
        (disk_seen D.Disk disk.old disk.new) end) }
    ensures unserved { IfErr result (λ fault. Unopened config (disk_seen D.Disk disk.old disk.new) fault
        × (output.new ≡ output.old) × (link.new ≡ link.old)) }
    ensures disk_counts { CountsIf (D.faults disk.old) (D.faults disk.new) (HasDiskFailed result) }
{
    let head = journal_head(
        config.session,
        config.p,
        config.mode,
        config.me,
        &config.key_row,
        &config.coin_key,
    );
    let (journal, recovered) = open_journal(alloc, disk, config.me, &head)?;
    let mut life = Life {
        session: session_of(config),
        journal,
    };
    Ok(serve_life(rt, alloc, &mut life, recovered, link, output, disk)?)
}

/// Serves the replica of a configuration, as `serve_session` does: its file names that one alone as correct, and has its keys.
///
/// Where the configuration says so, the replica has a journal on the disk: it is opened before anything is written, or made where there is none,
/// and what it kept happens again before the link's items are taken (`node_loop::serve_kept`). Where it can't be opened, its fault is the error.
/// Otherwise the disk isn't touched, and the one error is want of memory. At an error nothing is written, and the link isn't started. One call of the
/// disk failed where it ends with `DiskFault`, or where that is the journal's fault, and else none.
pub fn serve_node<R: Net + Wait, L: Link, K: Sink, D: Disk>(
    rt: &R,
    alloc: Global,
    config: NodeConfig,
    link: &mut L,
    output: &mut K,
    disk: &mut D,
) -> Result<ServeEnd, JournalFault>
    requires fits { FitsNode (node_text config) }
    ensures served { config.journal ≡ false → IfOk result (λ end. ServesSession (node_session config) [] (setting_of (node_header config)) (tells_of K.Sink L.Link)
        (outs_of K.Sink L.Link output.old link.old) (outs_of K.Sink L.Link output.new link.new) end) }
    ensures undisked { config.journal ≡ false → (disk.new ≡ disk.old) × IfErr result (λ fault. fault ≡ JournalFault.Mem) }
    ensures kept { config.journal ≡ true → IfOk result (λ end. ServesNode config (tells_of K.Sink L.Link)
        (outs_of K.Sink L.Link output.old link.old) (outs_of K.Sink L.Link output.new link.new)
        (disk_seen D.Disk disk.old disk.new) end) }
    ensures unopened { config.journal ≡ true → IfErr result (λ fault. Unopened config (disk_seen D.Disk disk.old disk.new) fault) }
    ensures unserved { OnErr result ((output.new ≡ output.old) × (link.new ≡ link.old)) }
    ensures disk_counts { CountsIf (D.faults disk.old) (D.faults disk.new) (HasDiskFailed result) }
{
    if config.journal {
        return serve_journal(rt, alloc, config, link, output, disk);
    }
    let session = session_of(config);
    Ok(serve_session(rt, alloc, &session, &Vec::new(alloc), link, output)?)
}

/// Serves all replicas of a configuration, as `serve_session` does, and begins with its requests: each is handed to the replica that it
/// names, and gets no reply.
pub fn serve_cluster<R: Net + Wait, L: Link, K: Sink>(
    rt: &R,
    alloc: Global,
    config: ClusterConfig,
    link: &mut L,
    output: &mut K,
) -> Result<ServeEnd, Mem>
    requires fits { FitsCluster (cluster_text config) }
    ensures served { IfOk result (λ end. ServesSession (cluster_session config) (map first_item config.requests) (setting_of (cluster_header config)) (tells_of K.Sink L.Link)
        (outs_of K.Sink L.Link output.old link.old) (outs_of K.Sink L.Link output.new link.new) end) }
    ensures unserved { OnErr result ((output.new ≡ output.old) × (link.new ≡ link.old)) }
{
    let first = first_items(alloc, &config.requests)?;
    let session = Session {
        header: cluster_header(&config),
        plan: LinkPlan::Cluster {
            peers: config.peers,
        },
        limits: Limits {
            items: config.limit,
            rows: config.until,
            closing: None,
        },
    };
    serve_session(rt, alloc, &session, &first, link, output)
}
