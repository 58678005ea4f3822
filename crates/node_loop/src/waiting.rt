//! Who waits for which request.
ghost use Rattle.std.specs.Prelude.{◌≡◌, ◌∷◌, ◌++◌, [], not, false, Some, OnOk, OnErr, if◌then◌else◌};
ghost use Rattle.std.specs.BTreeMap.{get};
ghost use Rattle.std.specs.List.{list_any};
ghost use Rattle.node_loop.specs.declared.waiting.Asked.{Asked};
ghost use Rattle.node_loop.specs.Waiting.{Waiting as waiting, nobody, is_conn, is_same_request, with_waiter, without_conn, left_off, without_asked};
ghost use Rattle.node_loop.specs.Calls.{is_waited_for};
ghost use Rattle.node_loop.specs.WaitersStanding.{asked_cmp, conns_in, IsWaiting};

use crate::index::{Caller, Index};
use ritas_base::Mem;
use std::alloc::Global;
use std::collections::BTreeMap;

/// A request at a replica.
#[derive(Clone, Copy, PartialEq, Eq, PartialOrd, Ord)]
pub(crate) struct Asked {
    /// The replica's number.
    pub at: u8,
    /// The client's number.
    pub client: u32,
    /// The client's number for this request.
    pub request: u32,
}

/// For each request that waits for its row, the connections that asked for it, in the order in which they asked.
#[derive(Drop)]
pub(crate) struct Waiters {
    by_request: BTreeMap<Asked, Vec<Option<u32>>>,
    // The requests of each connection.
    index: Index,
}

// Whether one that waits is another than this connection.
fn is_other(one: Option<u32>, conn: u32) -> bool
    ensures other { result ≡ not (is_conn (Some conn) one) }
{
    match one {
        Some(other) => other != conn,
        None => true,
    }
}

// A connection doesn't wait with these any more; but where it was the only one, nobody in particular waits on.
fn leave(conns: &mut Vec<Option<u32>>, conn: u32)
    ensures leaves { conns.new.items ≡ without_conn conn conns.old.items }
{
    if conns.len() == 1 {
        if conns[0] == Some(conn) {
            conns[0] = None;
        }
    } else {
        conns.retain(move |other| is_other(*other, conn));
    }
}

impl Waiters {
    /// Nobody waits. It takes no memory.
    pub(crate) fn new(alloc: Global) -> Waiters
        ensures nobody { IsWaiting result nobody }
    {
        Waiters {
            by_request: BTreeMap::new(alloc),
            index: Index::new(alloc),
        }
    }

    /// Whether somebody waits for this request.
    pub(crate) fn has(&self, asked: Asked) -> bool
        ensures waits { (ws : waiting) → IsWaiting self.now ws → result ≡ is_waited_for (ws asked) }
    {
        match self.by_request.get(&asked) {
            Some(conns) => !conns.is_empty(),
            None => false,
        }
    }

    // Whether a connection waits for this request. One of none does only where it was the first to ask.
    fn has_conn(&self, asked: Asked, conn: Option<u32>) -> bool
        ensures waits { (ws : waiting) → IsWaiting self.now ws → result ≡ list_any (is_conn conn) (ws asked) }
    {
        let Some(conn) = conn else {
            return match self.by_request.get(&asked) {
                Some(conns) => conns.contains(&None),
                None => false,
            };
        };
        self.index.has(Caller { at: asked.at, conn }, asked)
    }

    // One more waits for a request, behind the others. The one error is want of memory.
    fn put(&mut self, alloc: Global, asked: Asked, conn: Option<u32>) -> Result<(), Mem>
        ensures puts { OnOk result ((a : Asked) → conns_in (get asked_cmp self.new.by_request a)
            ≡ (if is_same_request asked a then conns_in (get asked_cmp self.old.by_request a) ++ conn ∷ [] else conns_in (get asked_cmp self.old.by_request a))) }
        ensures index { self.new.index ≡ self.old.index }
    {
        match self.by_request.get_mut(&asked) {
            Some(conns) => conns.push(conn)?,
            None => {
                let mut conns = Vec::new(alloc);
                conns.push(conn)?;
                self.by_request.insert(asked, conns)?;
            }
        }
        Ok(())
    }

    /// One more waits, unless it waits already. The one error is want of memory, which comes only where it doesn't.
    pub(crate) fn push(&mut self, alloc: Global, asked: Asked, conn: Option<u32>) -> Result<(), Mem>
        ensures waits { (ws : waiting) → IsWaiting self.old ws → OnOk result (IsWaiting self.new (with_waiter asked conn ws)) }
        ensures memory { (ws : waiting) → IsWaiting self.old ws → OnErr result (list_any (is_conn conn) (ws asked) ≡ false) }
    {
        if self.has_conn(asked, conn) {
            return Ok(());
        }
        self.put(alloc, asked, conn)?;
        match conn {
            Some(conn) => self.index.add(alloc, Caller { at: asked.at, conn }, asked),
            None => Ok(()),
        }
    }

    /// Those that wait for this request, who then don't wait any more.
    pub(crate) fn take(&mut self, alloc: Global, asked: Asked) -> Vec<Option<u32>>
        ensures those { (ws : waiting) → IsWaiting self.old ws → result.items ≡ ws asked }
        ensures rest { (ws : waiting) → IsWaiting self.old ws → IsWaiting self.new (without_asked asked ws) }
    {
        let conns = match self.by_request.remove(&asked) {
            Some(conns) => conns,
            None => Vec::new(alloc),
        };
        self.index.remove_all(asked, conns.as_slice());
        conns
    }

    // A connection doesn't wait for this request any more; what it asked for waits on.
    fn leave_one(&mut self, asked: Asked, conn: u32)
        ensures leaves { (a : Asked) → conns_in (get asked_cmp self.new.by_request a)
            ≡ (if is_same_request asked a then without_conn conn (conns_in (get asked_cmp self.old.by_request a)) else conns_in (get asked_cmp self.old.by_request a)) }
        ensures index { self.new.index ≡ self.old.index }
    {
        if let Some(conns) = self.by_request.get_mut(&asked) {
            leave(conns, conn);
        }
    }

    /// A connection of a replica is gone, and doesn't wait any more; what it asked for waits on. It takes no memory.
    pub(crate) fn leave(&mut self, at: u8, conn: u32)
        ensures leaves { (ws : waiting) → IsWaiting self.old ws → IsWaiting self.new (left_off at conn ws) }
    {
        let caller = Caller { at, conn };
        while let Some(asked) = self.index.pop(caller) {
            self.leave_one(asked, conn);
        }
        self.index.forget(caller);
    }
}
