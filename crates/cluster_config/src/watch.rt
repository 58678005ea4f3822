//! The configuration of whoever watches a session's log.
ghost use Rattle.std.specs.Prelude.{◌≡◌, ◌<◌, Ok, Err, IfOk, MatchResult};
ghost use Rattle.cluster_config.specs.Lines.{GivesLine};
ghost use Rattle.cluster_config.specs.Columns.{read_by, read_text};
ghost use Rattle.cluster_config.specs.Config.{ReadsConfig};
ghost use Rattle.cluster_config.specs.Watch.{watch_column};
ghost use Rattle.cluster_config.specs.Seen.{watch_seen};

use crate::config::ConfigFault;
use crate::lines::{Lines, WrongLine};
use crate::views::Addresses;
use ritas_base::{Mem, Params, Texts};
use std::alloc::Global;

/// A log that is to be watched.
#[derive(Debug, Drop)]
pub struct WatchConfig {
    /// How many replicas there are, and how many of them may be faulty.
    pub p: Params,
    /// The addresses of the n replicas, replica 0 first.
    pub peers: Texts,
    /// How many rows are waited for, from 1 on.
    pub until: u32,
}

// What a text says of a log that is to be watched, before memory is taken for it.
#[derive(Drop)]
struct WatchView<'a> {
    p: Params,
    peers: Addresses<'a>,
    until: u32,
}

// The lines of a log that is to be watched, to the end of the text.
#[tactic(auto, using(crate::proofs::Parts::read_numbers, crate::proofs::Parts::read_lines), unfolding(crate::specs::Columns::read_by, crate::specs::Watch::watch_column))]
fn watch_lines<'a>(lines: &mut Lines<'a>) -> Result<WatchView<'a>, WrongLine>
    requires { lines.old.number < 4294967000 }
    ensures { GivesLine watch_seen result lines.new (read_by watch_column lines.old) }
{
    lines.version("ritas")?;
    let p = lines.numbers()?;
    let peers = lines.addresses("peer", p.n())?;
    let until = lines.number("until", 1, u64::from(u32::MAX))? as u32;
    lines.end()?;
    Ok(WatchView { p, peers, until })
}

// A copy. The one error is want of memory.
fn watch_of(alloc: Global, view: &WatchView<'_>) -> Result<WatchConfig, Mem>
    ensures { IfOk result (λ config. config ≡ watch_seen view.now) }
{
    Ok(WatchConfig {
        p: view.p,
        peers: view.peers.copy(alloc)?,
        until: view.until,
    })
}

// What a text says of a log that is to be watched, or its first line that is wrong or missing.
#[tactic(auto, unfolding(crate::specs::Columns::read_text))]
fn seen(text: &[u8]) -> Result<WatchView<'_>, WrongLine>
    ensures { MatchResult result (λ view. read_text watch_column text.now ≡ Ok (watch_seen view))
        (λ wrong. read_text watch_column text.now ≡ Err wrong.line) }
{
    watch_lines(&mut Lines::new(text))
}

/// The log that a text says is to be watched, or its first line that is wrong or missing. `Mem` comes only where the
/// text is right.
pub(crate) fn read_watch(alloc: Global, text: &[u8]) -> Result<WatchConfig, ConfigFault>
    ensures { ReadsConfig watch_column (λ config. config) text.now result }
{
    let view = seen(text)?;
    Ok(watch_of(alloc, &view)?)
}
