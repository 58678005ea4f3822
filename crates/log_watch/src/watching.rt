//! Asking nodes for the rows of their logs, and taking what they reply.
ghost use Rattle.std.specs.Prelude.{◌≡◌, ◌≢◌, ◌∷◌, [], ℕ, List, None, IfOk, OnOk, OnErr, MatchResult};
ghost use Rattle.ritas_base.specs.Numbers.{Numbers};
ghost use Rattle.outside.specs.Links.{LinkAct};
ghost use Rattle.outside.specs.declared.link.FaultCounts.{FaultCounts};
ghost use Rattle.outside.specs.declared.link.LinkItem.{LinkItem};
ghost use Rattle.observer.specs.Standing.{StandsForGifts};
ghost use Rattle.request_submit.specs.Submitting.{plan_of};
ghost use Rattle.log_watch.specs.Watching.{gifts_of, asked_next, Watches};
ghost use Rattle.log_watch.specs.Waiting.{AwaitsRows, AwaitsRowsOrEnds};

use crate::end::WatchEnd;
use client_port::write_query;
use observer::{Observer, PieceFault};
use outside::{Link, LinkItem, LinkPlan};
use request_submit::hand_in;
use ritas_base::{Mem, Params, Texts};
use std::alloc::Global;
use std::net::Net;
use std::sync::Wait;

// Want of memory, where that is why a piece isn't taken.
fn unless_mem(fault: PieceFault) -> Result<(), Mem>
    ensures { MatchResult result (λ _. fault ≢ PieceFault.Mem) (λ _. fault ≡ PieceFault.Mem) }
{
    if fault == PieceFault::Mem {
        Err(Mem)
    } else {
        Ok(())
    }
}

// Gives an item to the observer, where it is a reply, and answers the node that is to be asked next.
fn observe(alloc: Global, observer: &mut Observer, item: &LinkItem) -> Result<Option<u8>, Mem>
    ensures asked { (p : Numbers) (items : List LinkItem) → StandsForGifts p (gifts_of p items) observer.old
        → IfOk result (λ node. node ≡ asked_next p items item.now) }
    ensures stands { (p : Numbers) (items : List LinkItem) → StandsForGifts p (gifts_of p items) observer.old
        → OnOk result (StandsForGifts p (gifts_of p (item.now ∷ items)) observer.new) }
    ensures kept { OnErr result (observer.new ≡ observer.old) }
    // Memory is wanted only for a piece that is taken.
    ensures memory { (p : Numbers) (items : List LinkItem)
        → StandsForGifts p (gifts_of p items) observer.old
        → OnErr result (asked_next p items item.now ≢ None) }
{
    match item {
        LinkItem::Reply { from, bytes } => match observer.piece(alloc, *from, bytes.as_slice()) {
            Ok(_) => Ok(Some(*from)),
            Err(fault) => {
                unless_mem(fault)?;
                Ok(None)
            }
        },
        LinkItem::Frame { .. } => Ok(None),
        LinkItem::Client { .. } => Ok(None),
        LinkItem::Up { .. } => Ok(None),
        LinkItem::Down { .. } => Ok(None),
        LinkItem::Left { .. } => Ok(None),
        LinkItem::End => Ok(None),
    }
}

// Takes the link's next item and asks the node whose piece it was, unless watching ends with it.
fn take<R: Net + Wait, L: Link>(
    rt: &R,
    alloc: Global,
    until: u32,
    observer: &mut Observer,
    link: &mut L,
) -> Result<(), WatchEnd>
    ensures waits { (p : Numbers) (nodes : List (List ℕ)) (base : List LinkAct) (before : FaultCounts)
        → AwaitsRows p nodes until L.tells base (L.told link.old) before (L.faults link.old) observer.old
        → AwaitsRowsOrEnds p nodes until L.tells base (L.told link.new) before (L.faults link.new) observer.new
        result }
{
    let item = link.next(rt, alloc)?;
    if item.is_end() {
        return Err(WatchEnd::End);
    }
    let Some(node) = observe(alloc, observer, &item)? else {
        return Ok(());
    };
    if observer.len() >= until {
        return Err(WatchEnd::Rows);
    }
    link.send(rt, alloc, 0, node, &write_query(observer.len()))?;
    Ok(())
}

// Takes the link's items until the log is long enough, or the link ends. It waits in the calls of the link alone.
fn await_rows<R: Net + Wait, L: Link>(
    rt: &R,
    alloc: Global,
    until: u32,
    observer: &mut Observer,
    link: &mut L,
) -> WatchEnd
    ensures watches { (p : Numbers) (nodes : List (List ℕ)) (base : List LinkAct) (before : FaultCounts)
        → AwaitsRows p nodes until L.tells base (L.told link.old) before (L.faults link.old) observer.old
        → Watches p nodes until observer.new.rows L.tells base (L.told link.new) before (L.faults link.new) result }
{
    for _ in rt.forever() {
        match take(rt, alloc, until, observer, link) {
            Ok(()) => {}
            Err(end) => return end,
        }
    }
    unreachable!()
}

// What the link is started with.
fn plan_for(alloc: Global, nodes: &Texts) -> Result<LinkPlan, Mem>
    ensures plan { IfOk result (λ plan. plan ≡ plan_of nodes.now) }
{
    let nodes = nodes.copy(alloc)?;
    Ok(LinkPlan::Client { nodes })
}

/// Puts a session's log together from the pieces that its nodes give, until it has as many rows as are wanted.
///
/// The link is started once, for a client of these nodes. Each node from 0 to n - 1 is asked for position 0, in
/// ascending order and with 0 as the replica that sends. Then the link's items are taken, and each reply goes to
/// `Observer::piece`. The node that gave a piece which is taken is asked next, for the length of the log. A reply
/// that is refused there changes nothing, and no query follows it; neither does any other item change anything.
///
/// It ends with `Rows` at the first piece with which the log has at least `until` rows, and no query follows that
/// one; with `End` at the link's end, with `LinkFault` at the first call of the link that fails, and with `Mem` where
/// there is not enough memory, also at the first call of the link that is without it. No call follows one that fails
/// or is without memory. It waits nowhere but in the link's calls.
pub fn watch<R: Net + Wait, L: Link>(
    rt: &R,
    alloc: Global,
    p: &Params,
    nodes: &Texts,
    until: u32,
    observer: &mut Observer,
    link: &mut L,
) -> WatchEnd
    requires new { StandsForGifts p.now [] observer.old }
    ensures watches { Watches p.now nodes.now until observer.new.rows L.tells (L.told link.old) (L.told link.new)
        (L.faults link.old) (L.faults link.new) result }
{
    let plan = match plan_for(alloc, nodes) {
        Ok(plan) => plan,
        Err(Mem) => return WatchEnd::Mem,
    };
    match hand_in(rt, alloc, p.n(), &plan, &write_query(0), link) {
        Ok(()) => await_rows(rt, alloc, until, observer, link),
        Err(fault) => WatchEnd::from(fault),
    }
}
