//! Watching a log.
ghost use Rattle.std.specs.Prelude.{◌≡◌, ◌≢◌, ◌≤◌, ◌↔◌, ◌++◌, OnOk, IfOk, string_bytes};
ghost use Rattle.node_loop.specs.Outs.{outs_of, tells_of};
ghost use Rattle.schedule_replay.specs.Report.{row_lines};
ghost use Rattle.ritas.specs.Configs.{RunsWatch};
ghost use Rattle.ritas.specs.Run.{Ends, LeavesLink, Replies, Runs};
ghost use Rattle.ritas.specs.Statuses.{watch_status, watch_text};

use crate::run::finish;
use cluster_config::WatchConfig;
use log_watch::{WatchEnd, watch};
use observer::Observer;
use outside::{Link, Sink};
use schedule_replay::add_row;
use std::alloc::{AllocError, Global};
use std::net::Net;
use std::sync::Wait;

// Appends the lines of a log.
fn add_rows(alloc: Global, text: &mut String, observer: &Observer) -> Result<(), AllocError>
    ensures { OnOk result (string_bytes text.new ≡ string_bytes text.old ++ row_lines observer.now.rows) }
{
    for position in 0..observer.len() {
        add_row(alloc, text, position, observer.row(position))?;
    }
    Ok(())
}

// The lines of a log.
fn rows_text(alloc: Global, observer: &Observer) -> Result<String, AllocError>
    ensures text { IfOk result (λ s. string_bytes s ≡ row_lines observer.now.rows) }
{
    let mut text = String::new(alloc);
    add_rows(alloc, &mut text, observer)?;
    Ok(text)
}

// Writes the lines of a log, with 0 or 1.
fn write_rows<K: Sink>(alloc: Global, output: &mut K, observer: &Observer, status: u8) -> u8
    requires low { status ≤ 1 }
    ensures ends { Ends K.faults output.old output.new result }
    ensures replies { Replies K.tells K.taken output.old output.new result status (row_lines observer.now.rows) }
    ensures others { (result ≢ 2) × (result ≢ 4) × (result ≢ 6) }
    ensures nine { result ≢ 9 }
{
    match rows_text(alloc, observer) {
        Ok(text) => finish(output, text.as_bytes(), status),
        Err(_) => 8,
    }
}

// Writes the lines of a log that was watched, where watching ended so.
fn write_watched<K: Sink>(alloc: Global, output: &mut K, observer: &Observer, end: WatchEnd) -> u8
    ensures ends { Ends K.faults output.old output.new result }
    ensures replies { Replies K.tells K.taken output.old output.new result (watch_status end)
        (watch_text observer.now.rows end) }
    ensures link { (result ≡ 6) ↔ (end ≡ WatchEnd.LinkFault) }
    ensures memory { end ≡ WatchEnd.Mem → result ≡ 8 }
    ensures others { (result ≢ 2) × (result ≢ 4) }
    ensures nine { result ≢ 9 }
{
    match end {
        WatchEnd::Rows => write_rows(alloc, output, observer, 0),
        WatchEnd::End => write_rows(alloc, output, observer, 1),
        WatchEnd::LinkFault => 6,
        WatchEnd::Mem => 8,
    }
}

/// Watches the log of the nodes of a configuration, until it has as many rows as are wanted or the link ends, and
/// writes the lines of its rows.
pub(crate) fn run_watch<R: Net + Wait, K: Sink, L: Link>(
    rt: &R,
    alloc: Global,
    config: &WatchConfig,
    output: &mut K,
    link: &mut L,
) -> u8
    ensures runs { Runs K.faults output.old output.new (L.faults link.old) (L.faults link.new) result }
    ensures others { result ≢ 4 }
    ensures nine { result ≢ 9 }
    ensures answers { RunsWatch config.now (tells_of K.Sink L.Link) K.taken output.old output.new
        (outs_of K.Sink L.Link output.old link.old)
        (outs_of K.Sink L.Link output.new link.new)
        ((output.new ≡ output.old) × LeavesLink link.old link.new result) result }
{
    let mut observer = match Observer::new(alloc, &config.p) {
        Ok(observer) => observer,
        Err(_) => return 8,
    };
    let end = watch(
        rt,
        alloc,
        &config.p,
        &config.peers,
        config.until,
        &mut observer,
        link,
    );
    write_watched(alloc, output, &observer, end)
}
