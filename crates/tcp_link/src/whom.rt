//! Whom a connection is with, and what follows from it.

ghost use Rattle.std.specs.Prelude.{◌≡◌, ◌≢◌, ◌<◌, ◌^◌, IfSome, length};
ghost use Rattle.std.specs.Option.{SomeIff};
ghost use Rattle.outside.specs.Links.{bytes_of};
ghost use Rattle.tcp_link.specs.Names.{IsName, most_of, link_item_of, is_client, is_client_of, is_node, is_with_peer, most_kept, sent_through, dial_again, told_first};

use crate::dials::Dial;
use crate::limits::{LONGEST_PIECE, MOST_UNWRITTEN_BYTES, MOST_UNWRITTEN_BYTES_OF_CLIENT};
use outside::LinkItem;
use ritas_base::{Bytes, LONGEST_FRAME};

/// Whom a connection is with.
#[derive(Clone, Copy)]
pub(crate) enum Whom {
    /// Of replica `at`, with one that hasn't told its number yet.
    Unnamed { at: u8 },
    /// Of replica `at`, with another.
    Peer { at: u8, peer: u8 },
    /// Of replica `at`, with a client.
    Client { at: u8, conn: u32 },
    /// Of a client, with a node.
    Node { from: u8 },
}

/// What is done at the first byte of a connection.
#[derive(Clone, Copy)]
pub(crate) enum Naming {
    /// Nothing: it didn't come yet, or the connection has its name.
    Waits,
    /// It names a peer of replica `at`.
    Names { at: u8, peer: u8 },
    /// The connection is closed.
    Closes,
}

/// The peer that the first byte of a connection names, at replica `at` of n.
pub(crate) fn named(n: u8, at: u8, byte: u8) -> Option<u8>
    ensures { SomeIff result (IsName n at byte) byte }
{
    if at < byte && byte < n {
        Some(byte)
    } else {
        None
    }
}

/// The replica through which a link sends bytes; a client's link has but one. A frame over `LONGEST_FRAME` (16,384) bytes isn't sent.
pub(crate) fn sent_through(is_client: bool, at: u8, len: usize) -> Option<u8>
    ensures { result ≡ sent_through is_client at len }
{
    if is_client {
        Some(0)
    } else if len <= LONGEST_FRAME {
        Some(at)
    } else {
        None
    }
}

/// The dial that comes again for a connection that is closed, of a link that is a client's or isn't.
pub(crate) fn dial_again(is_client: bool, dial: Option<Dial>) -> Option<Dial>
    ensures { result ≡ dial_again is_client dial }
{
    if is_client { None } else { dial }
}

impl Whom {
    /// The most bytes of its pieces.
    pub(crate) fn most(self) -> Option<usize>
        ensures is { result ≡ most_of self }
        ensures fits { IfSome result (λ most. most < 2 ^ 16) }
    {
        match self {
            Whom::Unnamed { at: _ } => None,
            Whom::Peer { at: _, peer: _ } => Some(LONGEST_FRAME),
            Whom::Client { at: _, conn: _ } | Whom::Node { from: _ } => Some(LONGEST_PIECE),
        }
    }

    /// The item that a piece is.
    pub(crate) fn item(self, bytes: Bytes) -> Option<LinkItem>
        requires { length bytes < 2 ^ 16 }
        ensures is { result ≡ link_item_of self bytes }
        ensures size { IfSome result (λ item. length (bytes_of item) < 2 ^ 16) }
        ensures open { IfSome result (λ item. item ≢ LinkItem.End) }
    {
        match self {
            Whom::Unnamed { at: _ } => None,
            Whom::Peer { at, peer: _ } => Some(LinkItem::Frame { to: at, bytes }),
            Whom::Client { at, conn } => Some(LinkItem::Client { at, conn, bytes }),
            Whom::Node { from } => Some(LinkItem::Reply { from, bytes }),
        }
    }

    /// Whether it is a client.
    pub(crate) fn is_client(self) -> bool
        ensures { result ≡ is_client self }
    {
        match self {
            Whom::Client { at: _, conn: _ } => true,
            Whom::Unnamed { at: _ } | Whom::Peer { at: _, peer: _ } | Whom::Node { from: _ } => {
                false
            }
        }
    }

    /// Whether it hasn't told its number yet.
    pub(crate) fn is_unnamed(self) -> bool {
        match self {
            Whom::Unnamed { at: _ } => true,
            _ => false,
        }
    }

    /// Whether it is a node.
    pub(crate) fn is_node(self) -> bool
        ensures { result ≡ is_node self }
    {
        match self {
            Whom::Node { from: _ } => true,
            _ => false,
        }
    }

    /// Whether it is a peer.
    pub(crate) fn is_peer(self) -> bool
        ensures { result ≡ is_with_peer self }
    {
        match self {
            Whom::Peer { at: _, peer: _ } => true,
            _ => false,
        }
    }

    /// The most bytes that are kept for it to go out.
    pub(crate) fn most_kept(self) -> usize
        ensures { result ≡ most_kept self }
    {
        match self {
            Whom::Client { at: _, conn: _ } => MOST_UNWRITTEN_BYTES_OF_CLIENT,
            _ => MOST_UNWRITTEN_BYTES,
        }
    }

    /// Whether it is a client of this replica.
    pub(crate) fn is_client_of(self, own: u8) -> bool
        ensures { result ≡ is_client_of own self }
    {
        match self {
            Whom::Client { at, conn: _ } => at == own,
            Whom::Unnamed { at: _ } | Whom::Peer { at: _, peer: _ } | Whom::Node { from: _ } => {
                false
            }
        }
    }

    /// The number that a connection tells first which was begun here.
    pub(crate) fn told_first(self) -> Option<u8>
        ensures { result ≡ told_first self }
    {
        match self {
            Whom::Peer { at, peer: _ } => Some(at),
            Whom::Unnamed { at: _ } | Whom::Client { at: _, conn: _ } | Whom::Node { from: _ } => {
                None
            }
        }
    }
}
