//! Serving again, after events that a journal kept.
ghost use Rattle.std.specs.Prelude.{◌≡◌, true};
ghost use Rattle.std.specs.List.{AllByRecursion};
ghost use Rattle.event_journal.specs.Journal.{IsRecord};
ghost use Rattle.node_loop.specs.Meanings.{meaning_of};
ghost use Rattle.node_loop.specs.Again.{ServesAfter, life};
ghost use Rattle.node_loop.specs.Outs.{outs_of, tells_of};

use crate::archive::Archive;
use crate::end::ServeEnd;
use crate::group::Group;
use crate::house::House;
use crate::limits::Limits;
use crate::output::Output;
use crate::past::write_events;
use crate::server::{Pace, Server};
use event_journal::Journal;
use layer_api::{Broadcast, Service};
use outside::{Disk, Link, Sink};
use replica::Replica;
use ritas_base::{Coin, Event, Mem};
use std::alloc::Global;
use std::convert::AsSlice;
use std::net::Net;
use std::sync::Wait;

/// Serves one replica again, after the events that its journal kept, or for the first time, where
/// there are none (`event_journal::open_journal` gives both). These events happen to it first, with
/// no reply, and the tape takes them. The frames of their calls are kept for their peers, and none
/// goes to the link by that. In versions 1 and 2 of a session the oldest make room for the newest;
/// in version 3 all are kept. A request that was taken and isn't in the log waits, with no
/// connection. Then it serves as `serve` does, with no items to begin with.
///
/// Each call that was answered `Took` or `Held`, and each turn, is appended to the journal, after
/// its event went to the tape and before its frames, its acknowledgement and its replies go out:
/// those of one group all at once, with two syncs. Other calls change nothing, and aren't appended.
/// So whenever a stop comes, what it leaves on the disk opens as the recovered events and the first
/// of those that were appended: with each of which a frame, an acknowledgement or a reply went out.
///
/// It ends as `serve` does, and with `DiskFault` where the disk failed, or with `JournalFull` where
/// the journal would become too long, with its length then, up to 2^64 - 1: of the events that
/// weren't appended nothing goes out. At these ends, as at a fault of the tape or the link, the
/// replica stands where all events leave it. Where the link fails, the tape has all events, and the
/// journal those of them that it keeps, unless the link was asked for an item that was to join a
/// group: then both have exactly those before the group, and nothing of it went out. By the disk's
/// count of faults one call of it failed just where it ends with `DiskFault`, and none at any other
/// end.
///
/// The vector has one replica, as it was made, with the journal's number. `serve_recovered` does
/// the same with events that it may let go.
pub fn serve_kept<
    R: Net + Wait,
    S: Service,
    E: Broadcast,
    C: Coin + Drop,
    L: Link,
    K: Sink,
    D: Disk,
>(
    rt: &R,
    alloc: Global,
    replicas: &mut Vec<Replica<S, E, C>>,
    recovered: &Vec<Event>,
    journal: &mut Journal,
    disk: &mut D,
    link: &mut L,
    tape: &mut K,
    limits: Limits,
) -> ServeEnd
    requires live { journal.old.live ≡ true }
    requires own { AllByRecursion (IsRecord journal.old.me) recovered.now.items }
    ensures serves { ServesAfter (meaning_of S.Service E.Broadcast C.Coin) D.Disk (tells_of K.Sink L.Link)
        recovered.now.items
        (life replicas.old.items journal.old disk.old (outs_of K.Sink L.Link tape.old link.old))
        (life replicas.new.items journal.new disk.new (outs_of K.Sink L.Link tape.new link.new))
        result limits }
{
    serve_after(
        rt, alloc, replicas, recovered, journal, disk, link, tape, limits,
    )
}

/// Serves one replica again, as `serve_kept` does, and lets the recovered events go once they
/// happened again and are on the tape.
pub fn serve_recovered<
    R: Net + Wait,
    S: Service,
    E: Broadcast,
    C: Coin + Drop,
    L: Link,
    K: Sink,
    D: Disk,
>(
    rt: &R,
    alloc: Global,
    replicas: &mut Vec<Replica<S, E, C>>,
    recovered: Vec<Event>,
    journal: &mut Journal,
    disk: &mut D,
    link: &mut L,
    tape: &mut K,
    limits: Limits,
) -> ServeEnd
    requires live { journal.old.live ≡ true }
    requires own { AllByRecursion (IsRecord journal.old.me) recovered.items }
    ensures serves { ServesAfter (meaning_of S.Service E.Broadcast C.Coin) D.Disk (tells_of K.Sink L.Link)
        recovered.items
        (life replicas.old.items journal.old disk.old (outs_of K.Sink L.Link tape.old link.old))
        (life replicas.new.items journal.new disk.new (outs_of K.Sink L.Link tape.new link.new))
        result limits }
{
    serve_after(
        rt, alloc, replicas, recovered, journal, disk, link, tape, limits,
    )
}

// Serves after these events, which are let go once they happened again and are on the tape.
fn serve_after<
    R: Net + Wait,
    S: Service,
    E: Broadcast,
    C: Coin + Drop,
    L: Link,
    K: Sink,
    D: Disk,
    P: AsSlice<Event> + Drop,
>(
    rt: &R,
    alloc: Global,
    replicas: &mut Vec<Replica<S, E, C>>,
    recovered: P,
    journal: &mut Journal,
    disk: &mut D,
    link: &mut L,
    tape: &mut K,
    limits: Limits,
) -> ServeEnd
    requires live { journal.old.live ≡ true }
    requires own { AllByRecursion (IsRecord journal.old.me) (P.items recovered) }
    ensures serves { ServesAfter (meaning_of S.Service E.Broadcast C.Coin) D.Disk (tells_of K.Sink L.Link)
        (P.items recovered)
        (life replicas.old.items journal.old disk.old (outs_of K.Sink L.Link tape.old link.old))
        (life replicas.new.items journal.new disk.new (outs_of K.Sink L.Link tape.new link.new))
        result limits }
{
    let mut house = match House::new(alloc, replicas) {
        Ok(house) => house,
        Err(Mem) => return ServeEnd::Mem,
    };
    let mut group = Group::new(alloc);
    let mut server = Server {
        alloc,
        link,
        tape,
        archive: journal,
        disk,
        pace: Pace { limits, taken: 0 },
        group: &mut group,
    };
    let end = server.serve_again(rt, &mut house, recovered);
    *replicas = house.replicas;
    end
}

impl<L: Link, K: Sink, A: Archive<D>, D> Server<'_, '_, '_, '_, '_, L, K, A, D> {
    ghost use Rattle.std.specs.Prelude.{◌≡◌, ℕ, [], List, reverse};
    ghost use Rattle.std.specs.List.{AllByRecursion};
    ghost use Rattle.schedule_file.specs.Spelling.{IsSized};
    ghost use Rattle.world_model.specs.World.{Setting};
    ghost use Rattle.node_loop.specs.Again.{ServesAgain};
    ghost use Rattle.node_loop.specs.Groups.{IsEmpty};
    ghost use Rattle.node_loop.specs.Laws.{IsServed};
    ghost use Rattle.node_loop.specs.Meanings.{senses_of};
    ghost use Rattle.node_loop.specs.Outs.{outs_of};
    ghost use Rattle.node_loop.specs.Peers.{no_peers};
    ghost use Rattle.node_loop.specs.Servers.{IsSameServer};
    ghost use Rattle.node_loop.specs.Standing.{HouseStands};
    ghost use Rattle.node_loop.specs.Waiting.{nobody};

    // These events happen again, and the tape takes them; then they are let go, and it serves.
    fn serve_again<
        R: Net + Wait,
        S: Service,
        E: Broadcast,
        C: Coin + Drop,
        P: AsSlice<Event> + Drop,
    >(&mut self, rt: &R, house: &mut House<S, E, C>, recovered: P) -> ServeEnd
        requires sized { AllByRecursion IsSized (P.items recovered) }
        requires empty { IsEmpty self.old.group.now }
        ensures same { IsSameServer self.old self.new }
        ensures serves { let t = senses_of S.Service E.Broadcast C.Coin L.Link K.Sink A.Archive in
            (head : List ℕ) (before : D) (w : Setting) (numbers : List ℕ)
            → HouseStands t.layers w [] numbers house.old nobody no_peers
            → AllByRecursion (IsServed w) (P.items recovered)
            → A.stands head before (reverse
            (P.items recovered)) self.old.archive.now self.old.disk.now []
            → self.old.pace.taken ≡ 0
            → ServesAgain t.layers w (reverse
            (P.items recovered)) numbers house.new.replicas.items t.tells
            (outs_of K.Sink L.Link self.old.tape.now self.old.link.now)
            (t.moment head before (reverse (P.items recovered)) self.new)
            result self.new.pace.limits }
    {
        let mut output = Output::new(self.alloc);
        let events = recovered.as_slice();
        match house.recall_all(self.alloc, events, &mut output) {
            Ok(()) => {}
            Err(Mem) => return ServeEnd::Mem,
        }
        match write_events(self.alloc, self.tape, events) {
            Ok(()) => {}
            Err(_) => return ServeEnd::TapeFault,
        }
        drop(recovered);
        self.go_on(rt, house)
    }
}
