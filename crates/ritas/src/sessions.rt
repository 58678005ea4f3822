//! Serving the sessions of nodes and of clusters.
ghost use Rattle.std.specs.Prelude.{◌≡◌, ◌≢◌, [], map};
ghost use Rattle.cluster_config.specs.Cluster.{cluster_text};
ghost use Rattle.cluster_config.specs.Node.{node_text};
ghost use Rattle.cluster_config.specs.Ranges.{FitsNode, FitsCluster};
ghost use Rattle.node_loop.specs.Outs.{outs_of, tells_of};
ghost use Rattle.node_session.specs.Configs.{cluster_session, first_item};
ghost use Rattle.node_session.specs.Lives.{disk_seen};
ghost use Rattle.schedule_replay.specs.Replay.{CountsIf};
ghost use Rattle.ritas.specs.Configs.{AnswersBoth, AnswersSession};
ghost use Rattle.ritas.specs.Run.{LeavesLink, Runs};
ghost use Rattle.ritas.specs.Statuses.{end_status};

use crate::refusals::refuse_journal;
use cluster_config::{ClusterConfig, NodeConfig};
use node_loop::ServeEnd;
use node_session::{serve_cluster, serve_node};
use outside::{Disk, Link, Sink};
use ritas_base::Mem;
use std::alloc::Global;
use std::net::Net;
use std::sync::Wait;

// The status of serving that ended so.
fn end_status(end: ServeEnd) -> u8
    ensures status { result ≡ end_status end }
{
    match end {
        ServeEnd::Over | ServeEnd::Done | ServeEnd::Limit | ServeEnd::End => 0,
        ServeEnd::LinkFault => 6,
        ServeEnd::TapeFault => 5,
        ServeEnd::Mem => 8,
        ServeEnd::DiskFault => 9,
        ServeEnd::JournalFull(_) | ServeEnd::KeptFull(_) => 7,
    }
}

/// Serves the replica of a configuration, with its journal if it says so, and writes its file; or the line of the journal's fault.
pub(crate) fn run_node<R: Net + Wait, K: Sink, L: Link, D: Disk>(
    rt: &R,
    alloc: Global,
    config: NodeConfig,
    output: &mut K,
    link: &mut L,
    disk: &mut D,
) -> u8
    requires fits { FitsNode (node_text config) }
    ensures runs { Runs K.faults output.old output.new (L.faults link.old) (L.faults link.new) result }
    ensures others { result ≢ 4 }
    ensures disk_counts { CountsIf (D.faults disk.old) (D.faults disk.new) (result ≡ 9) }
    ensures answers { AnswersBoth config (tells_of K.Sink L.Link) K.taken output.old output.new
        (outs_of K.Sink L.Link output.old link.old)
        (outs_of K.Sink L.Link output.new link.new)
        (disk_seen D.Disk disk.old disk.new)
        (LeavesLink link.old link.new result) (disk.new ≡ disk.old) result config.journal }
{
    match serve_node(rt, alloc, config, link, output, disk) {
        Ok(end) => end_status(end),
        Err(fault) => refuse_journal(alloc, output, fault),
    }
}

/// Serves all replicas of a configuration, beginning with its requests, and writes their file.
pub(crate) fn run_cluster<R: Net + Wait, K: Sink, L: Link>(
    rt: &R,
    alloc: Global,
    config: ClusterConfig,
    output: &mut K,
    link: &mut L,
) -> u8
    requires fits { FitsCluster (cluster_text config) }
    ensures runs { Runs K.faults output.old output.new (L.faults link.old) (L.faults link.new) result }
    ensures others { result ≢ 4 }
    ensures nine { result ≢ 9 }
    ensures answers { AnswersSession (cluster_session config) (map first_item config.requests) (tells_of K.Sink L.Link)
        (outs_of K.Sink L.Link output.old link.old)
        (outs_of K.Sink L.Link output.new link.new)
        ((output.new ≡ output.old) × LeavesLink link.old link.new result) result }
{
    match serve_cluster(rt, alloc, config, link, output) {
        Ok(end) => end_status(end),
        Err(Mem) => 8,
    }
}
