//! Handing in a request.
ghost use Rattle.std.specs.Prelude.{◌≡◌, ◌≢◌, ◌↔◌, IfOk, string_bytes};
ghost use Rattle.node_loop.specs.Outs.{outs_of, tells_of};
ghost use Rattle.ritas.specs.Configs.{RunsSubmit};
ghost use Rattle.ritas.specs.Run.{Ends, LeavesLink, Replies, Runs};
ghost use Rattle.ritas.specs.Statuses.{submit_status, submit_text};

use crate::run::finish;
use cluster_config::SubmitConfig;
use outside::{Link, Sink};
use request_submit::{SubmitEnd, submit};
use std::alloc::{AllocError, Global};
use std::net::Net;
use std::sync::Wait;

// The line that names a position.
fn position_text(alloc: Global, position: u32) -> Result<String, AllocError>
    ensures text { IfOk result (λ s. string_bytes s ≡ submit_text (SubmitEnd.Position position)) }
{
    format!(in alloc; "position {position}\n")
}

// Writes the line that names a position.
fn write_position<K: Sink>(alloc: Global, output: &mut K, position: u32) -> u8
    ensures ends { Ends K.faults output.old output.new result }
    ensures replies { Replies K.tells K.taken output.old output.new result 0 (submit_text (SubmitEnd.Position position)) }
    ensures others { (result ≢ 2) × (result ≢ 4) × (result ≢ 6) }
    ensures nine { result ≢ 9 }
{
    match position_text(alloc, position) {
        Ok(text) => finish(output, text.as_bytes(), 0),
        Err(_) => 8,
    }
}

// Writes the line of a request that was handed in and ended so.
fn write_end<K: Sink>(alloc: Global, output: &mut K, end: SubmitEnd) -> u8
    ensures ends { Ends K.faults output.old output.new result }
    ensures replies { Replies K.tells K.taken output.old output.new result (submit_status end) (submit_text end) }
    ensures link { (result ≡ 6) ↔ (end ≡ SubmitEnd.LinkFault) }
    ensures memory { end ≡ SubmitEnd.Mem → result ≡ 8 }
    ensures others { (result ≢ 2) × (result ≢ 4) }
    ensures nine { result ≢ 9 }
{
    match end {
        SubmitEnd::Position(position) => write_position(alloc, output, position),
        SubmitEnd::NoPosition => finish(output, b"no position\n", 1),
        SubmitEnd::LinkFault => 6,
        SubmitEnd::Mem => 8,
    }
}

/// Hands a request to the nodes of a configuration, and writes the position that f + 1 of them reply, or that there was none.
pub(crate) fn run_submit<R: Net + Wait, K: Sink, L: Link>(
    rt: &R,
    alloc: Global,
    config: &SubmitConfig,
    output: &mut K,
    link: &mut L,
) -> u8
    ensures runs { Runs K.faults output.old output.new (L.faults link.old) (L.faults link.new) result }
    ensures others { result ≢ 4 }
    ensures nine { result ≢ 9 }
    ensures answers { RunsSubmit config.now (tells_of K.Sink L.Link) K.taken output.old output.new
        (outs_of K.Sink L.Link output.old link.old)
        (outs_of K.Sink L.Link output.new link.new)
        ((output.new ≡ output.old) × LeavesLink link.old link.new result) result }
{
    let request = &config.request;
    let end = submit(
        rt,
        alloc,
        &config.p,
        &config.peers,
        request.client,
        request.request,
        request.payload.as_slice(),
        link,
    );
    write_end(alloc, output, end)
}
