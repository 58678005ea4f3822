//! The configuration of all replicas of a session.
ghost use Rattle.std.specs.Prelude.{◌≡◌, ◌<◌, Ok, Err, IfOk, MatchResult};
ghost use Rattle.cluster_config.specs.Lines.{GivesLine};
ghost use Rattle.cluster_config.specs.Columns.{read_by, read_text};
ghost use Rattle.cluster_config.specs.Config.{ReadsConfig};
ghost use Rattle.cluster_config.specs.Cluster.{cluster_column, cluster_text};
ghost use Rattle.cluster_config.specs.Seen.{cluster_seen};

use crate::config::ConfigFault;
use crate::lines::{Lines, WrongLine};
use crate::requests::Requests;
use crate::views::{Addresses, RequestViews};
use ritas_base::{Mem, Mode, Params, Texts};
use std::alloc::Global;

/// All replicas of a session, which are to be run.
#[derive(Debug, Drop)]
pub struct ClusterConfig {
    /// The session's number.
    pub session: u64,
    /// How many replicas there are, and how many of them may be faulty.
    pub p: Params,
    /// The root service, which is 6 or 7, and the broadcast of VECTs.
    pub mode: Mode,
    /// The key from which all others are dealt.
    pub master: [u8; 32],
    /// The addresses of the n replicas, replica 0 first.
    pub peers: Texts,
    /// What `limit` says, from 1 on.
    pub limit: u64,
    /// What `until` says.
    pub until: u32,
    /// The requests that are handed in, at most 64.
    pub requests: Requests,
}

// What a text says of all replicas, before memory is taken for it.
#[derive(Drop)]
struct ClusterView<'a> {
    session: u64,
    p: Params,
    mode: Mode,
    master: [u8; 32],
    peers: Addresses<'a>,
    limit: u64,
    until: u32,
    requests: RequestViews<'a>,
}

// The lines of all replicas, to the end of the text.
#[tactic(auto, using(crate::proofs::Parts::read_session, crate::proofs::Parts::read_numbers, crate::proofs::Parts::read_lines, crate::proofs::Parts::read_up_to), unfolding(crate::specs::Columns::read_by, crate::specs::Cluster::cluster_column))]
fn cluster_lines<'a>(lines: &mut Lines<'a>) -> Result<ClusterView<'a>, WrongLine>
    requires { lines.old.number < 4294967000 }
    ensures { GivesLine cluster_seen result lines.new (read_by cluster_column lines.old) }
{
    let (version, session) = lines.session()?;
    let p = lines.numbers()?;
    let root = lines.number("root", 6, 7)? as u8;
    let vect = lines.vect("vect")?;
    let master = lines.key("master")?;
    let peers = lines.addresses("peer", p.n())?;
    let limit = lines.number("limit", 1, u64::MAX)?;
    let until = lines.number("until", 0, u64::from(u32::MAX))? as u32;
    let requests = lines.requests("request", p.n())?;
    Ok(ClusterView {
        session,
        p,
        mode: Mode {
            root,
            vect,
            version,
        },
        master,
        peers,
        limit,
        until,
        requests,
    })
}

// A copy. The one error is want of memory.
fn cluster_of(alloc: Global, view: &ClusterView<'_>) -> Result<ClusterConfig, Mem>
    ensures { IfOk result (λ config. cluster_text config ≡ cluster_seen view.now) }
{
    Ok(ClusterConfig {
        session: view.session,
        p: view.p,
        mode: view.mode,
        master: view.master,
        peers: view.peers.copy(alloc)?,
        limit: view.limit,
        until: view.until,
        requests: view.requests.copy(alloc)?,
    })
}

// What a text says of all replicas, or its first line that is wrong or missing.
#[tactic(auto, unfolding(crate::specs::Columns::read_text))]
fn seen(text: &[u8]) -> Result<ClusterView<'_>, WrongLine>
    ensures { MatchResult result (λ view. read_text cluster_column text.now ≡ Ok (cluster_seen view)) (λ wrong. read_text cluster_column text.now ≡ Err wrong.line) }
{
    cluster_lines(&mut Lines::new(text))
}

/// The replicas that a text says, or its first line that is wrong or missing. `Mem` comes only where the text is right.
pub(crate) fn read_cluster(alloc: Global, text: &[u8]) -> Result<ClusterConfig, ConfigFault>
    ensures { ReadsConfig cluster_column cluster_text text.now result }
{
    let view = seen(text)?;
    Ok(cluster_of(alloc, &view)?)
}
