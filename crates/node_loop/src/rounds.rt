//! Serving, round by round.
ghost use Rattle.std.specs.Prelude.{◌≡◌, ℕ, List, All};
ghost use Rattle.ritas_base.specs.declared.event.Event.{Event};
ghost use Rattle.world_model.specs.World.{Setting};
ghost use Rattle.node_loop.specs.Meanings.{meaning_of};
ghost use Rattle.node_loop.specs.Outs.{outs_of, tells_of};
ghost use Rattle.node_loop.specs.Served.{AreHere, MayBegin, Serves};

use crate::archive::{NoArchive, NoDisk};
use crate::deliver::gather;
use crate::end::ServeEnd;
use crate::group::Group;
use crate::house::House;
use crate::limits::Limits;
use crate::peers::Pair;
use crate::server::{Pace, Server};
use layer_api::{Broadcast, Service};
use outside::{Link, LinkItem, Sink};
use replica::Replica;
use ritas_base::{Coin, Mem};
use std::alloc::Global;
use std::net::Net;
use std::sync::Wait;

/// What is done next.
#[derive(Clone, Copy)]
pub(crate) enum Next {
    End,
    Finish,
    Overflow(u128),
    Turn(u8),
    Close { at: u8, epoch: u32 },
    Halt,
    Remind(Pair),
    Ask,
}

/// Serves these replicas: first the items of `first`, in order, which get no reply and don't count, and then those that the link
/// gives. Again and again, the first of these that applies is done:
///
/// 1. It ends with `Over` where the session is an epoch of a chain, and the log of each replica has ended: it has the row that closes the epoch.
/// 2. It ends with `Done` where `limits.rows` isn't 0 and every log has at least that many rows.
/// 3. It ends with `KeptFull` where in version 3 more than 536,870,912 bytes of frames are kept for the peers of a replica, the least if there are
///    several.
/// 4. A turn is taken at the least replica whose inbox isn't empty, if there is one.
/// 5. Where `limits.closing` says so, the least replica closes its epoch of a chain that wishes to. It is then given the closing request: that of
///    the client 4,294,967,295, with the epoch's number and no payload. It wishes to once it completed as many rounds as are named there. It
///    doesn't where its log has ended, nor where it has no place for a command. Nor does it where it was given the closing request in this call,
///    or by a recovered event.
/// 6. It ends with `Limit` where `limits.items` items of the link were taken.
/// 7. The least peer, of the least replica that has one, which is to be asked to send again, is asked: an AGAIN goes to it.
/// 8. The link's next item is taken; it ends with `End` where that is the link's end.
///
/// A frame for a replica that is here is a call of its `on_frame`; a client's query is given a piece of the log at once, and any other message
/// of a client is answered or submitted (`specs/Calls.antt`). In an epoch of a chain a request of the client 4,294,967,295 is refused with 8, unless
/// it has a row. Any other is refused with 7 where it would leave no place for the closing request. So a replica has at most 63 commands of clients
/// in its window, and none numbered from 999,936 on.
/// Each call is an event, which goes to the tape before the call's frames go to the link, and these go before its replies. What comes of
/// several rounds is delivered as one group: all events of it go to the tape, by one call, and then, round after round, its frames and replies to the
/// link. To a first round of any kind join turns, and the link's items that are there by then, for which it never waits: at most 256 rounds are a
/// group, and none joins one whose events have 65,536 bytes of text, or of which frames go out again. So what could go out never waits while the
/// link does.
///
/// Each frame of a call is kept for its peer, and then goes out for the first time. In versions 1 and 2 of a
/// session at most 8,388,608 bytes are kept for one peer; where it would be more, the frame goes out and
/// isn't kept. What is kept for a peer goes out again, the oldest first, where the peer has a connection
/// again or asks for it, until it is acknowledged; in version 3 it does so in batches, as the crate's page
/// says. A frame of a peer that opens is acknowledged right behind the frames of its call, unless it is to
/// come again, being ahead of the replica or finding its peer's room full: then the peer is marked, and asked
/// to send again once the replica has come further or holds fewer bytes for it (`specs/Resending.antt`). A
/// note of a peer is no call.
///
/// It ends with `LinkFault` or `TapeFault` at the first call that fails, and with `Mem` where memory runs out, be it at a call of the link or
/// of a replica, or for what is kept: no further call of the link or the tape is made then. Unless memory ran out, the replicas then
/// stand where all events leave them, also those that the tape didn't take. Where the link fails, the tape took all events, unless the link was asked
/// for an item that was to join a group: then the tape took exactly the events before the group, and nothing of it went out. So it is where memory
/// runs out. It waits nowhere but in the link's calls; nothing says that turns ever end.
///
/// What the contract says holds where the replicas are of one world (`AreHere`): they are its correct ones, all of them, each once and
/// in any order, as they stand after the events of that world before serving began, in which none is stopped, and its root service
/// orders commands. Nothing is said where that isn't so, as of replicas of two sessions or where one of them was left out or had
/// other calls. The tape is taken as it is: for a schedule file it has its header already.
pub fn serve<R: Net + Wait, S: Service, E: Broadcast, C: Coin + Drop, L: Link, K: Sink>(
    rt: &R,
    alloc: Global,
    replicas: &mut Vec<Replica<S, E, C>>,
    link: &mut L,
    tape: &mut K,
    limits: Limits,
    first: &Vec<LinkItem>,
) -> ServeEnd
    requires first { All MayBegin first.now.items }
    ensures serves { let m = meaning_of S.Service E.Broadcast C.Coin in
        (w : Setting) (past : List Event) (numbers : List ℕ) → AreHere m w past numbers replicas.old.items
        → Serves m w past numbers replicas.new.items (tells_of K.Sink L.Link)
        (outs_of K.Sink L.Link tape.old link.old)
        (outs_of K.Sink L.Link tape.new link.new)
        result limits first.now.items }
{
    let mut house = match House::new(alloc, replicas) {
        Ok(house) => house,
        Err(Mem) => return ServeEnd::Mem,
    };
    let mut none = NoArchive;
    let mut disk = NoDisk;
    let mut group = Group::new(alloc);
    let mut server = Server {
        alloc,
        link,
        tape,
        archive: &mut none,
        disk: &mut disk,
        pace: Pace { limits, taken: 0 },
        group: &mut group,
    };
    let end = server.serve(rt, &mut house, first.as_slice());
    *replicas = house.replicas;
    end
}

impl<S: Service, E: Broadcast, C: Coin + Drop> House<S, E, C> {
    ghost use Rattle.std.specs.Prelude.{◌≡◌, ℕ, ◌<◌, ◌^◌, List, ◌∷◌, length, true, OnOk};
    ghost use Rattle.ritas_base.specs.declared.event.Event.{Event};
    ghost use Rattle.outside.specs.Links.{bytes_of};
    ghost use Rattle.world_model.specs.World.{Setting};
    ghost use Rattle.node_loop.specs.Groups.{JoinsGroup, Under};
    ghost use Rattle.node_loop.specs.Meanings.{meaning_of};
    ghost use Rattle.node_loop.specs.Peers.{Peers};
    ghost use Rattle.node_loop.specs.Queries.{ItemFits};
    ghost use Rattle.node_loop.specs.Running.{IsNext};
    ghost use Rattle.node_loop.specs.Served.{MayBegin};
    ghost use Rattle.node_loop.specs.Serving.{Serving, Round, Began, Turned, Closed, Reminded, Took, wants_of, so_far, after_from};
    ghost use Rattle.node_loop.specs.Standing.{HouseStands};
    ghost use Rattle.node_loop.specs.Waiting.{Waiting};

    /// What the rules say, at this pace.
    pub(crate) fn what_next(&self, pace: Pace) -> Next
        ensures room { result ≡ Next.Ask → pace.taken < pace.limits.items }
        ensures next { let m = meaning_of S.Service E.Broadcast C.Coin in
            (w : Setting) (es : List Event) (numbers : List ℕ) (ws : Waiting) (p : Peers) → HouseStands m w es numbers self.now ws p
            → IsNext (wants_of w pace.limits es pace.taken ws p) result }
    {
        if self.is_over() {
            Next::End
        } else if self.is_done(pace.limits.rows) {
            Next::Finish
        } else if let Some(bytes) = self.overflow() {
            Next::Overflow(bytes)
        } else if let Some(at) = self.least_busy() {
            Next::Turn(at)
        } else if let Some((at, epoch)) = self.due_to_close(pace.limits.closing) {
            Next::Close { at, epoch }
        } else if pace.taken >= pace.limits.items {
            Next::Halt
        } else if let Some(pair) = self.least_due() {
            Next::Remind(pair)
        } else {
            Next::Ask
        }
    }

    /// Takes up one of the first items, and it joins the group. The one error is want of memory.
    pub(crate) fn join_first(
        &mut self,
        alloc: Global,
        item: &LinkItem,
        group: &mut Group,
    ) -> Result<(), Mem>
        requires first { MayBegin item.now }
        ensures joins { let m = meaning_of S.Service E.Broadcast C.Coin in
            (w : Setting) (past : List Event) (numbers : List ℕ) (start : Serving) (newest : List Round)
            → Under m w past numbers start newest self.old group.old → JoinsGroup newest (Began item.now) group.old
            → OnOk result (Under m w past numbers start (Began item.now ∷ newest) self.new group.new) }
    {
        let mut output = group.output(alloc);
        self.begin(alloc, item, &mut output)?;
        gather(self, group, output)
    }

    /// A peer of a replica is asked to send again, and that joins the group. The one error is want of memory.
    pub(crate) fn join_reminder(
        &mut self,
        alloc: Global,
        pair: Pair,
        group: &mut Group,
    ) -> Result<(), Mem>
        ensures joins { let m = meaning_of S.Service E.Broadcast C.Coin in
            (w : Setting) (past : List Event) (numbers : List ℕ) (start : Serving) (newest : List Round)
            → Under m w past numbers start newest self.old group.old → JoinsGroup newest (Reminded pair.at pair.peer) group.old
            → w.is_correct pair.at ≡ true → pair.peer < w.numbers.n
            → OnOk result (Under m w past numbers start (Reminded pair.at pair.peer ∷ newest) self.new group.new) }
    {
        let mut output = group.output(alloc);
        self.remind(pair, &mut output);
        gather(self, group, output)
    }

    /// Takes a turn at a replica, and it joins the group. The one error is want of memory.
    pub(crate) fn join_turn(&mut self, alloc: Global, at: u8, group: &mut Group) -> Result<(), Mem>
        ensures joins { let m = meaning_of S.Service E.Broadcast C.Coin in
            (w : Setting) (past : List Event) (numbers : List ℕ) (start : Serving) (newest : List Round)
            → Under m w past numbers start newest self.old group.old → JoinsGroup newest (Turned at) group.old
            → w.is_correct at ≡ true
            → OnOk result (Under m w past numbers start (Turned at ∷ newest) self.new group.new) }
    {
        let mut output = group.output(alloc);
        self.turn(alloc, at, &mut output)?;
        gather(self, group, output)
    }

    /// A replica closes its epoch, and that joins the group. The one error is want of memory.
    pub(crate) fn join_closing(
        &mut self,
        alloc: Global,
        at: u8,
        epoch: u32,
        group: &mut Group,
    ) -> Result<(), Mem>
        ensures joins { let m = meaning_of S.Service E.Broadcast C.Coin in
            (w : Setting) (past : List Event) (numbers : List ℕ) (start : Serving) (newest : List Round)
            → Under m w past numbers start newest self.old group.old → JoinsGroup newest (Closed at epoch) group.old
            → w.is_correct at ≡ true
            → OnOk result (Under m w past numbers start (Closed at epoch ∷ newest) self.new group.new) }
    {
        let mut output = group.output(alloc);
        self.close(alloc, at, epoch, &mut output)?;
        gather(self, group, output)
    }

    /// Takes an item of the link, and it joins the group. The one error is want of memory.
    pub(crate) fn join_item(
        &mut self,
        alloc: Global,
        item: LinkItem,
        group: &mut Group,
    ) -> Result<(), Mem>
        requires short { length (bytes_of item) < 2 ^ 16 }
        ensures joins { let m = meaning_of S.Service E.Broadcast C.Coin in
            (w : Setting) (past : List Event) (numbers : List ℕ) (start : Serving) (newest : List Round)
            → Under m w past numbers start newest self.old group.old → JoinsGroup newest (Took item) group.old
            → OnOk result (Under m w past numbers start (Took item ∷ newest) self.new group.new) }
        ensures fits { let m = meaning_of S.Service E.Broadcast C.Coin in
            (w : Setting) (past : List Event) (numbers : List ℕ) (start : Serving) (newest : List Round)
            → Under m w past numbers start newest self.old group.old
            → ItemFits w (so_far past (after_from w past start newest)) item }
    {
        let mut output = group.output(alloc);
        self.take(alloc, item, &mut output)?;
        gather(self, group, output)
    }
}
