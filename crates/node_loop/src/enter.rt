//! The rows that come into a replica's log, and those who waited for them.
ghost use Rattle.std.specs.Prelude.{◌≡◌, ◌≢◌, ◌++◌, ◌<◌, [], map, OnOk, OnErr, Some};
ghost use Rattle.client_port.specs.Messages.{position_reply};
ghost use Rattle.node_loop.specs.Waiting.{Waiting, without_asked};
ghost use Rattle.node_loop.specs.Calls.{asked_by, waiting_left_by, replies_by, reply_each};
ghost use Rattle.node_loop.specs.Standing.{reply_by};
ghost use Rattle.node_loop.specs.WaitersStanding.{IsWaiting};

use crate::output::{Reply, ReplyBytes};
use crate::waiting::{Asked, Waiters};
use client_port::{REPLY_LEN, write_reply};
use command_log::{Log, LogRow};
use ritas_base::Mem;
use std::alloc::Global;

// Replies so to each of these connections.
fn reply_each(
    conns: &[Option<u32>],
    bytes: [u8; REPLY_LEN],
    replies: &mut Vec<Reply>,
) -> Result<(), Mem>
    ensures replies { (at : _) → OnOk result (map (reply_by at) replies.new.items
        ≡ map (reply_by at) replies.old.items ++ reply_each at bytes conns.now) }
    ensures memory { (at : _) → OnErr result (reply_each at bytes conns.now ≢ []) }
{
    for conn in conns {
        if let Some(conn) = *conn {
            let bytes = ReplyBytes::Short { bytes };
            replies.push(Reply { conn, bytes })?;
        }
    }
    Ok(())
}

// The row at a position comes in at a replica: all that waited for it are replied to.
fn enter_row(
    alloc: Global,
    waiting: &mut Waiters,
    at: u8,
    row: &LogRow,
    position: u32,
    replies: &mut Vec<Reply>,
) -> Result<(), Mem>
    ensures enters { (ws : Waiting) → IsWaiting waiting.old ws → OnOk result
        (IsWaiting waiting.new (without_asked (asked_by at row.now) ws)
        × (map (reply_by at) replies.new.items ≡ map (reply_by at) replies.old.items
        ++ reply_each at (position_reply row.now.client row.now.request position) (ws (asked_by at row.now)))) }
    ensures memory { (ws : Waiting) → IsWaiting waiting.old ws
        → OnErr result (reply_each at (position_reply row.now.client row.now.request position) (ws (asked_by at row.now)) ≢ []) }
{
    let asked = Asked {
        at,
        client: row.client,
        request: row.request,
    };
    let conns = waiting.take(alloc, asked);
    reply_each(
        conns.as_slice(),
        write_reply(row.client, row.request, position),
        replies,
    )
}

/// The rows of a replica's log behind the first so many come in: all that waited for them are replied their positions, and don't wait
/// any more. The one error is want of memory, which comes only where somebody is replied to.
pub(crate) fn enter_rows(
    alloc: Global,
    waiting: &mut Waiters,
    at: u8,
    log: &Log,
    count: u32,
    replies: &mut Vec<Reply>,
) -> Result<(), Mem>
    ensures enters { (ws : Waiting) → IsWaiting waiting.old ws → OnOk result
        (IsWaiting waiting.new (waiting_left_by at count log.now.rows ws)
        × (map (reply_by at) replies.new.items ≡ map (reply_by at) replies.old.items ++ replies_by at count log.now.rows ws)) }
    ensures memory { (ws : Waiting) → IsWaiting waiting.old ws → OnErr result (replies_by at count log.now.rows ws ≢ []) }
{
    for position in count..log.len() {
        if let Some(row) = log.row(position) {
            enter_row(alloc, waiting, at, row, position, replies)?;
        }
    }
    Ok(())
}
