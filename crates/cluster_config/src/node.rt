//! The configuration of a replica.
ghost use Rattle.std.specs.Prelude.{◌≡◌, ◌<◌, Ok, Err, IfOk, MatchResult};
ghost use Rattle.cluster_config.specs.Lines.{GivesLine};
ghost use Rattle.cluster_config.specs.Columns.{read_by, read_text};
ghost use Rattle.cluster_config.specs.Config.{ReadsConfig};
ghost use Rattle.cluster_config.specs.Node.{node_column, node_text};
ghost use Rattle.cluster_config.specs.Seen.{node_seen};

use crate::config::ConfigFault;
use crate::lines::{Lines, WrongLine};
use crate::views::Addresses;
use ritas_base::{Bytes, Mem, Mode, Params, Texts};
use std::alloc::Global;

/// A replica that is to be run.
#[derive(Debug, Drop)]
pub struct NodeConfig {
    /// The session's number.
    pub session: u64,
    /// How many replicas there are, and how many of them may be faulty.
    pub p: Params,
    /// The root service, which is 6 or 7, and the broadcast of VECTs.
    pub mode: Mode,
    /// Which replica it is, below n.
    pub me: u8,
    /// The keys that it shares with each replica, and zeros in the places from n on.
    pub key_row: [[u8; 32]; 31],
    /// The key of its coins.
    pub coin_key: [u8; 32],
    /// The addresses of the n replicas, replica 0 first.
    pub peers: Texts,
    /// The address at which it serves clients.
    pub client: Bytes,
    /// What `limit` says, from 1 on.
    pub limit: u64,
    /// What `until` says.
    pub until: u32,
    /// Whether it keeps a journal.
    pub journal: bool,
}

// What a text says of a replica, before memory is taken for it.
#[derive(Drop)]
struct NodeView<'a> {
    session: u64,
    p: Params,
    mode: Mode,
    me: u8,
    key_row: [[u8; 32]; 31],
    coin_key: [u8; 32],
    peers: Addresses<'a>,
    client: &'a [u8],
    limit: u64,
    until: u32,
    journal: bool,
}

// The lines of a replica, to the end of the text.
#[tactic(auto, using(crate::proofs::Parts::read_session, crate::proofs::Parts::read_numbers, crate::proofs::Parts::read_lines, crate::proofs::Parts::read_journal), unfolding(crate::specs::Columns::read_by, crate::specs::Node::node_column))]
fn node_lines<'a>(lines: &mut Lines<'a>) -> Result<NodeView<'a>, WrongLine>
    requires { lines.old.number < 4294967000 }
    ensures { GivesLine node_seen result lines.new (read_by node_column lines.old) }
{
    let (version, session) = lines.session()?;
    let p = lines.numbers()?;
    let root = lines.number("root", 6, 7)? as u8;
    let vect = lines.vect("vect")?;
    let me = lines.number("me", 0, u64::from(p.n()) - 1)? as u8;
    let key_row = lines.row("row", p.n())?;
    let coin_key = lines.key("coin")?;
    let peers = lines.addresses("peer", p.n())?;
    let client = lines.address("client")?;
    let limit = lines.number("limit", 1, u64::MAX)?;
    let until = lines.number("until", 0, u64::from(u32::MAX))? as u32;
    let journal = lines.journal()?;
    Ok(NodeView {
        session,
        p,
        mode: Mode {
            root,
            vect,
            version,
        },
        me,
        key_row,
        coin_key,
        peers,
        client,
        limit,
        until,
        journal,
    })
}

// A copy. The one error is want of memory.
fn node_of(alloc: Global, view: &NodeView<'_>) -> Result<NodeConfig, Mem>
    ensures { IfOk result (λ config. node_text config ≡ node_seen view.now) }
{
    Ok(NodeConfig {
        session: view.session,
        p: view.p,
        mode: view.mode,
        me: view.me,
        key_row: view.key_row,
        coin_key: view.coin_key,
        peers: view.peers.copy(alloc)?,
        client: Bytes::from_slice(alloc, view.client)?,
        limit: view.limit,
        until: view.until,
        journal: view.journal,
    })
}

// What a text says of a replica, or its first line that is wrong or missing.
#[tactic(auto, unfolding(crate::specs::Columns::read_text))]
fn seen(text: &[u8]) -> Result<NodeView<'_>, WrongLine>
    ensures { MatchResult result (λ view. read_text node_column text.now ≡ Ok (node_seen view)) (λ wrong. read_text node_column text.now ≡ Err wrong.line) }
{
    node_lines(&mut Lines::new(text))
}

/// The replica that a text says, or its first line that is wrong or missing. `Mem` comes only where the text is right.
pub(crate) fn read_node(alloc: Global, text: &[u8]) -> Result<NodeConfig, ConfigFault>
    ensures { ReadsConfig node_column node_text text.now result }
{
    let view = seen(text)?;
    Ok(node_of(alloc, &view)?)
}
