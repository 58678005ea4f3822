//! The trait of a link, with the items that it gives, the plans that it starts and its counts of faults.

ghost use Rattle.std.specs.Prelude.{◌≡◌, ◌≢◌, ◌↔◌, ◌<◌, ◌∷◌, ◌++◌, ◌^◌, List, ℕ, Bool, true, IsTrue, IfOk, IfSome, OnOk, OnErr, Err, None, Contains, length};
ghost use Rattle.outside.specs.Faults.{HasCause, count_after};
ghost use Rattle.outside.specs.declared.link.FaultCounts.{FaultCounts};
ghost use Rattle.outside.specs.Links.{LinkAct, Starts, Gives, Sends, Replies, bytes_of, items_in, now_given, faults_after};

use crate::source::Failed;
use ritas_base::{Bytes, Mem, Texts};
use std::alloc::{AllocError, AllocFailed, Global};
use std::net::Net;
use std::sync::Wait;

/// Why a call of a link failed.
#[derive(Clone, Copy, Debug, PartialEq, Eq)]
pub enum LinkFault {
    /// The link failed.
    Failed,
    /// There was not enough memory.
    Mem,
}

impl From<Failed> for LinkFault {
    ghost use Rattle.std.specs.Prelude.{◌≡◌};
    ghost use Rattle.outside.specs.declared.link.LinkFault.TheVariants as faults;

    ghost from_gives = { λ _ e. e ≡ faults.Failed };

    fn from(_: Failed) -> LinkFault {
        LinkFault::Failed
    }
}

impl From<Mem> for LinkFault {
    ghost use Rattle.std.specs.Prelude.{◌≡◌};
    ghost use Rattle.outside.specs.declared.link.LinkFault.TheVariants as faults;

    ghost from_gives = { λ _ e. e ≡ faults.Mem };

    fn from(_: Mem) -> LinkFault {
        LinkFault::Mem
    }
}

impl From<AllocError> for LinkFault {
    ghost use Rattle.std.specs.Prelude.{◌≡◌};
    ghost use Rattle.outside.specs.declared.link.LinkFault.TheVariants as faults;

    ghost from_gives = { λ _ e. e ≡ faults.Mem };

    fn from(_: AllocError) -> LinkFault {
        LinkFault::Mem
    }
}

impl<T: Drop> From<AllocFailed<T>> for LinkFault {
    ghost use Rattle.std.specs.Prelude.{◌≡◌};
    ghost use Rattle.outside.specs.declared.link.LinkFault.TheVariants as faults;

    ghost from_gives = { λ _ e. e ≡ faults.Mem };

    fn from(_: AllocFailed<T>) -> LinkFault {
        LinkFault::Mem
    }
}

/// How many calls of a link answered each of its faults. Each count goes up to its last value, 2^64 - 1, and then stands.
#[derive(Clone, Copy, Debug, PartialEq, Eq)]
pub struct FaultCounts {
    /// How many failed.
    pub failed: u64,
    /// How many were without memory.
    pub short: u64,
}

impl FaultCounts {
    /// No call answered a fault yet.
    pub fn new() -> FaultCounts
        ensures { result ≡ record { failed = 0; short = 0 } }
    {
        FaultCounts {
            failed: 0,
            short: 0,
        }
    }

    /// What a call that failed answers. One more is counted.
    pub fn fail(&mut self) -> LinkFault
        ensures fault { result ≡ LinkFault.Failed }
        ensures counts { self.new ≡ record self.old { failed = count_after self.old.failed } }
    {
        let failed = self.failed;
        self.failed = failed.saturating_add(1);
        LinkFault::Failed
    }

    /// What a call that is without memory answers. One more is counted.
    pub fn fall_short(&mut self) -> LinkFault
        ensures fault { result ≡ LinkFault.Mem }
        ensures counts { self.new ≡ record self.old { short = count_after self.old.short } }
    {
        let short = self.short;
        self.short = short.saturating_add(1);
        LinkFault::Mem
    }
}

/// What a link gives. Replicas and peers have the numbers 0 to 30.
#[derive(Debug, Drop)]
pub enum LinkItem {
    /// A frame for a replica.
    Frame { to: u8, bytes: Bytes },
    /// A message of a client, by this connection to a replica.
    Client { at: u8, conn: u32, bytes: Bytes },
    /// A reply of a replica, to a client.
    Reply { from: u8, bytes: Bytes },
    /// A peer of a replica has a connection.
    Up { at: u8, peer: u8 },
    /// A peer of a replica has no connection any more.
    Down { at: u8, peer: u8 },
    /// A client's connection to a replica is gone, and nobody is there to be replied to any more.
    Left { at: u8, conn: u32 },
    /// No item follows.
    End,
}

impl LinkItem {
    /// Whether it says that no item follows.
    pub fn is_end(&self) -> bool
        ensures { IsTrue result ↔ (self.now ≡ LinkItem.End) }
    {
        match self {
            LinkItem::End => true,
            LinkItem::Frame { .. } => false,
            LinkItem::Client { .. } => false,
            LinkItem::Reply { .. } => false,
            LinkItem::Up { .. } => false,
            LinkItem::Down { .. } => false,
            LinkItem::Left { .. } => false,
        }
    }

    /// A copy. The one error is want of memory.
    pub fn copy(&self, alloc: Global) -> Result<LinkItem, Mem>
        ensures { IfOk result (λ item. item ≡ self.now) }
    {
        match self {
            LinkItem::Frame { to, bytes } => Ok(LinkItem::Frame {
                to: *to,
                bytes: bytes.copy(alloc)?,
            }),
            LinkItem::Client { at, conn, bytes } => Ok(LinkItem::Client {
                at: *at,
                conn: *conn,
                bytes: bytes.copy(alloc)?,
            }),
            LinkItem::Reply { from, bytes } => Ok(LinkItem::Reply {
                from: *from,
                bytes: bytes.copy(alloc)?,
            }),
            LinkItem::Up { at, peer } => Ok(LinkItem::Up {
                at: *at,
                peer: *peer,
            }),
            LinkItem::Down { at, peer } => Ok(LinkItem::Down {
                at: *at,
                peer: *peer,
            }),
            LinkItem::Left { at, conn } => Ok(LinkItem::Left {
                at: *at,
                conn: *conn,
            }),
            LinkItem::End => Ok(LinkItem::End),
        }
    }
}

/// What a link is started with. The peers and the nodes are the addresses of replicas 0, 1 and so on.
#[derive(Debug, Drop)]
pub enum LinkPlan {
    /// For one replica, which takes clients at the address `client`.
    Node { me: u8, peers: Texts, client: Bytes },
    /// For all replicas of a session.
    Cluster { peers: Texts },
    /// For a client of these nodes.
    Client { nodes: Texts },
}

impl LinkPlan {
    /// A copy. The one error is want of memory.
    pub fn copy(&self, alloc: Global) -> Result<LinkPlan, Mem>
        ensures { IfOk result (λ plan. plan ≡ self.now) }
    {
        match self {
            LinkPlan::Node { me, peers, client } => Ok(LinkPlan::Node {
                me: *me,
                peers: peers.copy(alloc)?,
                client: client.copy(alloc)?,
            }),
            LinkPlan::Cluster { peers } => Ok(LinkPlan::Cluster {
                peers: peers.copy(alloc)?,
            }),
            LinkPlan::Client { nodes } => Ok(LinkPlan::Client {
                nodes: nodes.copy(alloc)?,
            }),
        }
    }
}

/// Bytes that went out at a replica, to a peer or to the connection of a client.
#[derive(Debug, Drop)]
pub struct Sent {
    /// The replica.
    pub at: u8,
    /// The peer or the connection.
    pub to: u32,
    /// The frame or the reply.
    pub bytes: Bytes,
}

/// What a replica or a client has to do with others: frames and messages come, and frames and replies go.
///
/// A call that answers Ok joins what is told, and one that answers an error leaves it as it was. `Failed` raises the count of
/// calls that failed, and `Mem` the count of those without memory, each by one up to its last value; nothing else changes
/// these counts.
pub trait Link {
    /// Whether it is told what was started, given, sent and replied. It isn't of sockets.
    ghost tells: { Bool };

    /// The calls that answered Ok, the newest first, where they are told.
    ghost told: { Self → List LinkAct };

    /// How many of its calls failed, and how many were without memory.
    ghost faults: { Self → FaultCounts };

    /// Starts a plan.
    fn start<R: Net + Wait>(
        &mut self,
        rt: &R,
        alloc: Global,
        plan: &LinkPlan,
    ) -> Result<(), LinkFault>
        ensures ok { tells ≡ true → OnOk result (told self.new ≡ Starts plan.now ∷ told self.old) }
        ensures err { tells ≡ true → OnErr result (told self.new ≡ told self.old) }
        ensures cause { HasCause (faults self.old).failed (faults self.new).failed (result ≡ Err LinkFault.Failed) }
        ensures count { faults self.new ≡ faults_after (faults self.old) result };

    /// Gives the next item, of at most 65,535 bytes, for which it may wait. A link that tells gives nothing else once it gave `End`.
    fn next<R: Net + Wait>(&mut self, rt: &R, alloc: Global) -> Result<LinkItem, LinkFault>
        ensures size { IfOk result (λ item. length (bytes_of item) < 2 ^ 16) }
        ensures end { tells ≡ true → Contains (items_in (told self.old)) LinkItem.End → IfOk result (λ item. item ≡ LinkItem.End) }
        ensures ok { tells ≡ true → IfOk result (λ item. told self.new ≡ Gives item ∷ told self.old) }
        ensures err { tells ≡ true → OnErr result (told self.new ≡ told self.old) }
        ensures cause { HasCause (faults self.old).failed (faults self.new).failed (result ≡ Err LinkFault.Failed) }
        ensures count { faults self.new ≡ faults_after (faults self.old) result };

    /// Gives the next item, of at most 65,535 bytes, if one is there by now, and else `None`. It never waits, and never gives `End`, which
    /// `next` does.
    fn next_now(&mut self, alloc: Global) -> Result<Option<LinkItem>, LinkFault>
        ensures size { IfOk result (λ given. IfSome given (λ item. length (bytes_of item) < 2 ^ 16)) }
        ensures open { IfOk result (λ given. IfSome given (λ item. item ≢ LinkItem.End)) }
        ensures end { tells ≡ true → Contains (items_in (told self.old)) LinkItem.End → IfOk result (λ given. given ≡ None) }
        ensures ok { tells ≡ true → IfOk result (λ given. told self.new ≡ now_given given ++ told self.old) }
        ensures err { tells ≡ true → OnErr result (told self.new ≡ told self.old) }
        ensures cause { HasCause (faults self.old).failed (faults self.new).failed (result ≡ Err LinkFault.Failed) }
        ensures count { faults self.new ≡ faults_after (faults self.old) result };

    /// Sends a frame of replica `at` to a peer.
    fn send<R: Net + Wait>(
        &mut self,
        rt: &R,
        alloc: Global,
        at: u8,
        peer: u8,
        frame: &[u8],
    ) -> Result<(), LinkFault>
        ensures ok { tells ≡ true → OnOk result (told self.new ≡ Sends (record { at = at; to = peer; bytes = frame.now }) ∷ told self.old) }
        ensures err { tells ≡ true → OnErr result (told self.new ≡ told self.old) }
        ensures cause { HasCause (faults self.old).failed (faults self.new).failed (result ≡ Err LinkFault.Failed) }
        ensures count { faults self.new ≡ faults_after (faults self.old) result };

    /// Sends a reply of replica `at` to the connection of a client.
    fn reply<R: Net + Wait>(
        &mut self,
        rt: &R,
        alloc: Global,
        at: u8,
        conn: u32,
        bytes: &[u8],
    ) -> Result<(), LinkFault>
        ensures ok { tells ≡ true → OnOk result (told self.new ≡ Replies (record { at = at; to = conn; bytes = bytes.now }) ∷ told self.old) }
        ensures err { tells ≡ true → OnErr result (told self.new ≡ told self.old) }
        ensures cause { HasCause (faults self.old).failed (faults self.new).failed (result ≡ Err LinkFault.Failed) }
        ensures count { faults self.new ≡ faults_after (faults self.old) result };
}
