//! The configuration of a request that is to be handed in.
ghost use Rattle.std.specs.Prelude.{◌≡◌, ◌<◌, Ok, Err, IfOk, MatchResult};
ghost use Rattle.cluster_config.specs.Lines.{GivesLine};
ghost use Rattle.cluster_config.specs.Columns.{read_by, read_text};
ghost use Rattle.cluster_config.specs.Config.{ReadsConfig};
ghost use Rattle.cluster_config.specs.Submit.{submit_column};
ghost use Rattle.cluster_config.specs.Seen.{submit_seen};

use crate::config::ConfigFault;
use crate::lines::{Lines, WrongLine};
use crate::requests::Request;
use crate::views::{Addresses, RequestView};
use ritas_base::{Mem, Params, Texts};
use std::alloc::Global;

/// A request that is to be handed in.
#[derive(Debug, Drop)]
pub struct SubmitConfig {
    /// How many replicas there are, and how many of them may be faulty.
    pub p: Params,
    /// The addresses of the n replicas, replica 0 first.
    pub peers: Texts,
    /// The request.
    pub request: Request,
}

// What a text says of a request, before memory is taken for it.
#[derive(Drop)]
struct SubmitView<'a> {
    p: Params,
    peers: Addresses<'a>,
    request: RequestView<'a>,
}

// The lines of a request, to the end of the text.
#[tactic(auto, using(crate::proofs::Parts::read_numbers, crate::proofs::Parts::read_lines), unfolding(crate::specs::Columns::read_by, crate::specs::Submit::submit_column))]
fn submit_lines<'a>(lines: &mut Lines<'a>) -> Result<SubmitView<'a>, WrongLine>
    requires { lines.old.number < 4294967000 }
    ensures { GivesLine submit_seen result lines.new (read_by submit_column lines.old) }
{
    lines.version("ritas")?;
    let p = lines.numbers()?;
    let peers = lines.addresses("peer", p.n())?;
    let request = lines.request("request", p.n())?;
    lines.end()?;
    Ok(SubmitView { p, peers, request })
}

// A copy. The one error is want of memory.
fn submit_of(alloc: Global, view: &SubmitView<'_>) -> Result<SubmitConfig, Mem>
    ensures { IfOk result (λ config. config ≡ submit_seen view.now) }
{
    Ok(SubmitConfig {
        p: view.p,
        peers: view.peers.copy(alloc)?,
        request: view.request.copy(alloc)?,
    })
}

// What a text says of a request, or its first line that is wrong or missing.
#[tactic(auto, unfolding(crate::specs::Columns::read_text))]
fn seen(text: &[u8]) -> Result<SubmitView<'_>, WrongLine>
    ensures { MatchResult result (λ view. read_text submit_column text.now ≡ Ok (submit_seen view)) (λ wrong. read_text submit_column text.now ≡ Err wrong.line) }
{
    submit_lines(&mut Lines::new(text))
}

/// The request that a text says, or its first line that is wrong or missing. `Mem` comes only where the text is right.
pub(crate) fn read_submit(alloc: Global, text: &[u8]) -> Result<SubmitConfig, ConfigFault>
    ensures { ReadsConfig submit_column (λ config. config) text.now result }
{
    let view = seen(text)?;
    Ok(submit_of(alloc, &view)?)
}
