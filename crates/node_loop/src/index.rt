//! Which requests a connection waits for.
ghost use Rattle.std.specs.Prelude.{◌≡◌, ◌<◌, ◌==◌, ◌&&◌, ◌||◌, not, Some, false, true, OnOk, MatchOption};
ghost use Rattle.std.specs.List.{list_any};
ghost use Rattle.node_loop.specs.Waiting.{is_conn, is_same_request};
ghost use Rattle.node_loop.specs.WaitersStanding.{is_same_caller, is_listed, listed_count};

use crate::waiting::Asked;
use ritas_base::Mem;
use std::alloc::Global;
use std::collections::{BTreeMap, BTreeSet};

/// A connection of a replica.
#[derive(Clone, Copy, PartialEq, Eq, PartialOrd, Ord)]
pub(crate) struct Caller {
    /// The replica's number.
    pub at: u8,
    /// The connection's.
    pub conn: u32,
}

/// For each connection of a replica, the requests that are listed for it. A connection with none may stay, until it is gone.
#[derive(Drop)]
pub(crate) struct Index {
    by_caller: BTreeMap<Caller, BTreeSet<Asked>>,
}

impl Index {
    ghost use Rattle.node_loop.specs.declared.index.Caller.{Caller};
    ghost use Rattle.node_loop.specs.declared.waiting.Asked.{Asked};

    /// Nothing is listed. It takes no memory.
    pub(crate) fn new(alloc: Global) -> Index
        ensures { (c : Caller) (a : Asked) → is_listed result c a ≡ false }
    {
        Index {
            by_caller: BTreeMap::new(alloc),
        }
    }

    /// Whether a request is listed for a connection.
    pub(crate) fn has(&self, caller: Caller, asked: Asked) -> bool
        ensures { result ≡ is_listed self.now caller asked }
    {
        match self.by_caller.get(&caller) {
            Some(listed) => listed.contains(&asked),
            None => false,
        }
    }

    /// A request is listed for a connection. The one error is want of memory.
    pub(crate) fn add(&mut self, alloc: Global, caller: Caller, asked: Asked) -> Result<(), Mem>
        ensures adds { OnOk result ((c : Caller) (a : Asked)
            → is_listed self.new c a ≡ (is_same_caller caller c && is_same_request asked a || is_listed self.old c a)) }
    {
        match self.by_caller.get_mut(&caller) {
            Some(listed) => {
                listed.insert(asked)?;
            }
            None => {
                let mut listed = BTreeSet::new(alloc);
                listed.insert(asked)?;
                self.by_caller.insert(caller, listed)?;
            }
        }
        Ok(())
    }

    /// A request isn't listed for a connection any more. It takes no memory.
    pub(crate) fn remove(&mut self, caller: Caller, asked: Asked)
        ensures removes { (c : Caller) (a : Asked)
            → is_listed self.new c a ≡ (not (is_same_caller caller c && is_same_request asked a) && is_listed self.old c a) }
    {
        if let Some(listed) = self.by_caller.get_mut(&caller) {
            listed.remove(&asked);
        }
    }

    /// A request isn't listed for these connections of its replica any more. It takes no memory.
    pub(crate) fn remove_all(&mut self, asked: Asked, conns: &[Option<u32>])
        ensures removes { (c : Caller) (a : Asked) → is_listed self.new c a
            ≡ (not (is_same_request asked a && (c.at == a.at && list_any (is_conn (Some c.conn)) conns.now)) && is_listed self.old c a) }
    {
        for conn in conns {
            if let Some(conn) = *conn {
                self.remove(Caller { at: asked.at, conn }, asked);
            }
        }
    }

    /// A request that is listed for a connection, which then isn't any more, or `None`, where none is. It takes no memory.
    pub(crate) fn pop(&mut self, caller: Caller) -> Option<Asked>
        ensures first { MatchOption result ((a : Asked) → is_listed self.old caller a ≡ false) (λ asked. is_listed self.old caller asked ≡ true) }
        ensures removes { MatchOption result ((c : Caller) (a : Asked) → is_listed self.new c a ≡ is_listed self.old c a)
            (λ asked. (c : Caller) (a : Asked)
            → is_listed self.new c a ≡ (not (is_same_caller caller c && is_same_request asked a) && is_listed self.old c a)) }
        ensures fewer { MatchOption result (listed_count self.new caller ≡ 0) (λ asked. listed_count self.new caller < listed_count self.old caller) }
    {
        match self.by_caller.get_mut(&caller) {
            Some(listed) => listed.pop_first(),
            None => None,
        }
    }

    /// Nothing is listed for a connection any more. It takes no memory.
    pub(crate) fn forget(&mut self, caller: Caller)
        ensures forgets { (c : Caller) (a : Asked) → is_listed self.new c a ≡ (not (is_same_caller caller c) && is_listed self.old c a) }
    {
        self.by_caller.remove(&caller);
    }
}
