//! A node at work.

use crate::archive::Archive;
use crate::end::{Fault, ServeEnd};
use crate::group::Group;
use crate::house::House;
use crate::limits::Limits;
use crate::rounds::Next;
use layer_api::{Broadcast, Service};
use outside::{Link, LinkItem, Sink};
use ritas_base::Coin;
use std::alloc::Global;
use std::net::Net;
use std::sync::Wait;

// A group has at most so many rounds.
const MOST_ROUNDS: u32 = 256;

/// For how long it is served, and how many items of the link were taken.
#[derive(Clone, Copy)]
pub(crate) struct Pace {
    pub limits: Limits,
    pub taken: u64,
}

/// What serves the replicas of a house: the link, the tape, and what keeps events on which disk; for how long it serves; and the rounds of which
/// nothing was delivered yet. The house stands beside it: a reference to what has three parameters can't be kept in a struct that is lent.
#[derive(Drop)]
pub(crate) struct Server<'l, 't, 'a, 'd, 'g, L: Link, K: Sink, A: Archive<D>, D> {
    pub alloc: Global,
    pub link: &'l mut L,
    pub tape: &'t mut K,
    pub archive: &'a mut A,
    pub disk: &'d mut D,
    pub pace: Pace,
    pub group: &'g mut Group,
}

impl<L: Link, K: Sink, A: Archive<D>, D> Server<'_, '_, '_, '_, '_, L, K, A, D> {
    ghost use Rattle.std.specs.Prelude.{ℕ, ◌+◌, ◌<◌, [], All, OnOk};
    ghost use Rattle.node_loop.specs.Groups.{IsEmpty, MayGrow};
    ghost use Rattle.node_loop.specs.Meanings.{senses_of};
    ghost use Rattle.node_loop.specs.Served.{MayBegin};
    ghost use Rattle.node_loop.specs.Servers.{Outset, IsSameServer, IsAtWork, IsNextIn, HasGathered, HasFirst, HasMore, HasGroup, HasDelivered, HasEnded, HasGoneOn};
    ghost use Rattle.node_loop.specs.Serving.{after_from};
    ghost use Rattle.node_loop.specs.Told.{most_rounds, after_groups};

    /// Serves: first these items, and then those of the link.
    pub(crate) fn serve<R: Net + Wait, S: Service, E: Broadcast, C: Coin + Drop>(
        &mut self,
        rt: &R,
        house: &mut House<S, E, C>,
        first: &[LinkItem],
    ) -> ServeEnd
        requires first { All MayBegin first.now }
        requires empty { IsEmpty self.old.group.now }
        ensures same { IsSameServer self.old self.new }
        ensures serves { let t = senses_of S.Service E.Broadcast C.Coin L.Link K.Sink A.Archive in
            (o : Outset D) → IsAtWork t o house.old self.old first.now → HasEnded t o house.new self.new result }
    {
        match self.begin(rt, house, first) {
            Ok(()) => self.go_on(rt, house),
            Err(fault) => ServeEnd::from(fault),
        }
    }

    // The items with which serving begins, in their order, each a group by itself.
    fn begin<R: Net + Wait, S: Service, E: Broadcast, C: Coin + Drop>(
        &mut self,
        rt: &R,
        house: &mut House<S, E, C>,
        first: &[LinkItem],
    ) -> Result<(), Fault>
        requires first { All MayBegin first.now }
        requires empty { IsEmpty self.old.group.now }
        ensures same { IsSameServer self.old self.new }
        ensures empty { OnOk result (IsEmpty self.new.group.now) }
        ensures begins { let t = senses_of S.Service E.Broadcast C.Coin L.Link K.Sink A.Archive in
            (o : Outset D) → IsAtWork t o house.old self.old first.now → HasDelivered t o house.new self.new [] result }
    {
        for item in first {
            house.join_first(self.alloc, item, self.group)?;
            self.deliver(rt, house)?;
        }
        Ok(())
    }

    /// Groups of rounds, until serving ends. It waits in the calls of the link alone; but nothing says that turns ever end.
    pub(crate) fn go_on<R: Net + Wait, S: Service, E: Broadcast, C: Coin + Drop>(
        &mut self,
        rt: &R,
        house: &mut House<S, E, C>,
    ) -> ServeEnd
        requires empty { IsEmpty self.old.group.now }
        ensures same { IsSameServer self.old self.new }
        ensures serves { let t = senses_of S.Service E.Broadcast C.Coin L.Link K.Sink A.Archive in
            (o : Outset D) → IsAtWork t o house.old self.old [] → HasEnded t o house.new self.new result }
    {
        for _ in rt.forever() {
            match self.run_group(rt, house) {
                Ok(()) => {}
                Err(end) => return end,
            }
        }
        unreachable!()
    }

    // One group of rounds, unless serving ends.
    fn run_group<R: Net + Wait, S: Service, E: Broadcast, C: Coin + Drop>(
        &mut self,
        rt: &R,
        house: &mut House<S, E, C>,
    ) -> Result<(), ServeEnd>
        requires empty { IsEmpty self.old.group.now }
        ensures same { IsSameServer self.old self.new }
        ensures empty { OnOk result (IsEmpty self.new.group.now) }
        ensures goes { let t = senses_of S.Service E.Broadcast C.Coin L.Link K.Sink A.Archive in
            (o : Outset D) → IsAtWork t o house.old self.old [] → HasGoneOn t o house.new self.new result }
    {
        self.begin_group(rt, house)?;
        self.gather_more(house)?;
        self.deliver(rt, house)?;
        Ok(())
    }

    // The first round of a group, unless serving ends.
    fn begin_group<R: Net + Wait, S: Service, E: Broadcast, C: Coin + Drop>(
        &mut self,
        rt: &R,
        house: &mut House<S, E, C>,
    ) -> Result<(), ServeEnd>
        requires empty { IsEmpty self.old.group.now }
        ensures same { IsSameServer self.old self.new }
        ensures begins { let t = senses_of S.Service E.Broadcast C.Coin L.Link K.Sink A.Archive in
            (o : Outset D) → IsAtWork t o house.old self.old [] → HasFirst t o house.new self.new result }
    {
        match house.what_next(self.pace) {
            Next::End => Err(ServeEnd::Over),
            Next::Finish => Err(ServeEnd::Done),
            Next::Overflow(bytes) => Err(ServeEnd::KeptFull(bytes)),
            Next::Turn(at) => {
                house.join_turn(self.alloc, at, self.group)?;
                Ok(())
            }
            Next::Close { at, epoch } => {
                house.join_closing(self.alloc, at, epoch, self.group)?;
                Ok(())
            }
            Next::Halt => Err(ServeEnd::Limit),
            Next::Remind(pair) => {
                house.join_reminder(self.alloc, pair, self.group)?;
                Ok(())
            }
            Next::Ask => self.take_first(rt, house),
        }
    }

    // The link's next item is the first round of a group, unless it is its end.
    fn take_first<R: Net + Wait, S: Service, E: Broadcast, C: Coin + Drop>(
        &mut self,
        rt: &R,
        house: &mut House<S, E, C>,
    ) -> Result<(), ServeEnd>
        requires room { self.old.pace.taken < self.old.pace.limits.items }
        requires empty { IsEmpty self.old.group.now }
        ensures same { IsSameServer self.old self.new }
        ensures begins { let t = senses_of S.Service E.Broadcast C.Coin L.Link K.Sink A.Archive in
            (o : Outset D) (run : IsAtWork t o house.old self.old []) → IsNextIn o self.old.pace (after_groups o.world o.past o.start run.groups) Next.Ask
            → HasFirst t o house.new self.new result }
    {
        let item = self.link.next(rt, self.alloc)?;
        if item.is_end() {
            return Err(ServeEnd::End);
        }
        let pace = self.pace;
        self.pace.taken = pace.taken + 1;
        house.join_item(self.alloc, item, self.group)?;
        Ok(())
    }

    // The rounds that join a group: turns, and the link's items that are there.
    fn gather_more<S: Service, E: Broadcast, C: Coin + Drop>(
        &mut self,
        house: &mut House<S, E, C>,
    ) -> Result<(), Fault>
        ensures same { IsSameServer self.old self.new }
        ensures gathers { let t = senses_of S.Service E.Broadcast C.Coin L.Link K.Sink A.Archive in
            (o : Outset D) → HasGathered t o house.old self.old [] 1 → HasGroup t o house.new self.new result }
    {
        for _ in 1..MOST_ROUNDS {
            if !self.group.goes_on() {
                return Ok(());
            }
            if !self.join_more(house)? {
                return Ok(());
            }
        }
        Ok(())
    }

    // One round more, and whether there was one.
    fn join_more<S: Service, E: Broadcast, C: Coin + Drop>(
        &mut self,
        house: &mut House<S, E, C>,
    ) -> Result<bool, Fault>
        ensures same { IsSameServer self.old self.new }
        ensures gathers { let t = senses_of S.Service E.Broadcast C.Coin L.Link K.Sink A.Archive in
            (o : Outset D) (many : ℕ) → MayGrow self.old.group.now → many < most_rounds → HasGathered t o house.old self.old [] many
            → HasMore t o house.new self.new (many + 1) result }
    {
        match house.what_next(self.pace) {
            Next::Turn(at) => {
                house.join_turn(self.alloc, at, self.group)?;
                Ok(true)
            }
            Next::Ask => self.take_more(house),
            Next::End => Ok(false),
            Next::Finish => Ok(false),
            Next::Overflow(_) => Ok(false),
            Next::Close { .. } => Ok(false),
            Next::Halt => Ok(false),
            Next::Remind(_) => Ok(false),
        }
    }

    // The link's next item joins a group, if there is one by now; and whether there was.
    fn take_more<S: Service, E: Broadcast, C: Coin + Drop>(
        &mut self,
        house: &mut House<S, E, C>,
    ) -> Result<bool, Fault>
        requires room { self.old.pace.taken < self.old.pace.limits.items }
        ensures same { IsSameServer self.old self.new }
        ensures gathers { let t = senses_of S.Service E.Broadcast C.Coin L.Link K.Sink A.Archive in
            (o : Outset D) (many : ℕ) (run : HasGathered t o house.old self.old [] many) → MayGrow self.old.group.now → many < most_rounds
            → IsNextIn o self.old.pace (after_from o.world o.past (after_groups o.world o.past o.start run.older) run.newest) Next.Ask
            → HasMore t o house.new self.new (many + 1) result }
    {
        let pace = self.pace;
        match self.link.next_now(self.alloc)? {
            None => Ok(false),
            Some(item) => {
                self.pace.taken = pace.taken + 1;
                house.join_item(self.alloc, item, self.group)?;
                Ok(true)
            }
        }
    }
}
