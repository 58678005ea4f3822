//! Waiting for a position.
ghost use Rattle.std.specs.Prelude.{◌≡◌, ◌∷◌, ℕ, List};
ghost use Rattle.outside.specs.Links.{LinkAct};
ghost use Rattle.outside.specs.declared.link.FaultCounts.{FaultCounts};
ghost use Rattle.outside.specs.declared.link.LinkItem.{LinkItem};
ghost use Rattle.client_port.specs.Votes.{Wanted, VotesStand};
ghost use Rattle.request_submit.specs.Submitting.{reply_calls, settles, Submits};
ghost use Rattle.request_submit.specs.Waiting.{Waits, WaitsOrEnds};

use crate::end::SubmitEnd;
use client_port::Votes;
use outside::{Link, LinkItem};
use std::alloc::Global;
use std::net::Net;
use std::sync::Wait;

// Counts an item, where it is a reply, and answers the position that it settles.
fn count(votes: &mut Votes, item: &LinkItem) -> Option<u32>
    ensures settled { (w : Wanted) (items : List LinkItem) → VotesStand w (reply_calls items) votes.old → result ≡ settles w items item.now }
    ensures stands { (w : Wanted) (items : List LinkItem) → VotesStand w (reply_calls items) votes.old → VotesStand w (reply_calls (item.now ∷ items)) votes.new }
{
    match item {
        LinkItem::Reply { from, bytes } => match votes.reply(*from, bytes.as_slice()) {
            Ok(position) => position,
            Err(_) => None,
        },
        LinkItem::Frame { .. } => None,
        LinkItem::Client { .. } => None,
        LinkItem::Up { .. } => None,
        LinkItem::Down { .. } => None,
        LinkItem::Left { .. } => None,
        LinkItem::End => None,
    }
}

// Takes the link's next item, unless waiting ends with it.
fn take<R: Net + Wait, L: Link>(
    rt: &R,
    alloc: Global,
    votes: &mut Votes,
    link: &mut L,
) -> Result<(), SubmitEnd>
    ensures waits { (w : Wanted) (nodes : List (List ℕ)) (payload : List ℕ) (base : List LinkAct) (before : FaultCounts)
        → Waits w nodes payload L.tells base (L.told link.old) before (L.faults link.old) votes.old
        → WaitsOrEnds w nodes payload L.tells base (L.told link.new) before (L.faults link.new) votes.new result }
{
    let item = link.next(rt, alloc)?;
    if item.is_end() {
        return Err(SubmitEnd::NoPosition);
    }
    match count(votes, &item) {
        Some(position) => Err(SubmitEnd::Position(position)),
        None => Ok(()),
    }
}

/// Takes the link's items until f + 1 nodes replied one position, or the link ends. It waits in the calls of the link alone.
pub(crate) fn await_position<R: Net + Wait, L: Link>(
    rt: &R,
    alloc: Global,
    votes: Votes,
    link: &mut L,
) -> SubmitEnd
    ensures submits { (w : Wanted) (nodes : List (List ℕ)) (payload : List ℕ) (base : List LinkAct) (before : FaultCounts)
        → Waits w nodes payload L.tells base (L.told link.old) before (L.faults link.old) votes
        → Submits w nodes payload L.tells base (L.told link.new) before (L.faults link.new) result }
{
    let mut votes = votes;
    for _ in rt.forever() {
        match take(rt, alloc, &mut votes, link) {
            Ok(()) => {}
            Err(end) => return end,
        }
    }
    unreachable!()
}
