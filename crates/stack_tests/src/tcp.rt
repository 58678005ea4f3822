//! Tests of links over loopback: a cluster of two, with what is there by now, and a node with its client.

use outside::{Link, LinkFault, LinkItem, LinkPlan};
use ritas_base::{Bytes, Mem, Texts};
use std::alloc::Global;
use std::net::Net;
use std::sync::Wait;
use std::test::*;
use tcp_link::TcpLink;

// These two addresses.
fn addresses(alloc: Global, first: &[u8], second: &[u8]) -> Result<Texts, Mem> {
    let mut texts = Texts::new(alloc);
    texts.push(Bytes::from_slice(alloc, first)?)?;
    texts.push(Bytes::from_slice(alloc, second)?)?;
    Ok(texts)
}

fn started<R: Net + Wait>(rt: &R, alloc: Global, plan: &LinkPlan) -> Result<TcpLink, LinkFault> {
    let mut link = TcpLink::new(alloc);
    link.start(rt, alloc, plan)?;
    Ok(link)
}

// Whether the next item is a frame of these bytes for replica 0.
fn gives_frame<R: Net + Wait>(
    rt: &R,
    alloc: Global,
    link: &mut TcpLink,
    wanted: &[u8],
) -> Result<bool, LinkFault> {
    match link.next(rt, alloc)? {
        LinkItem::Frame { to: 0, bytes } => Ok(bytes.as_slice() == wanted),
        _ => Ok(false),
    }
}

// Whether the next item is a message of these bytes of client 0.
fn gives_message<R: Net + Wait>(
    rt: &R,
    alloc: Global,
    link: &mut TcpLink,
    wanted: &[u8],
) -> Result<bool, LinkFault> {
    match link.next(rt, alloc)? {
        LinkItem::Client {
            at: 0,
            conn: 0,
            bytes,
        } => Ok(bytes.as_slice() == wanted),
        _ => Ok(false),
    }
}

// Whether the next item is a reply of node 0.
fn gives_reply<R: Net + Wait>(
    rt: &R,
    alloc: Global,
    link: &mut TcpLink,
    wanted: &[u8],
) -> Result<bool, LinkFault> {
    match link.next(rt, alloc)? {
        LinkItem::Reply { from: 0, bytes } => Ok(bytes.as_slice() == wanted),
        _ => Ok(false),
    }
}

// Whether the next item is that this node is down.
fn gives_down<R: Net + Wait>(
    rt: &R,
    alloc: Global,
    link: &mut TcpLink,
    node: u8,
) -> Result<bool, LinkFault> {
    match link.next(rt, alloc)? {
        LinkItem::Down { at: 0, peer } => Ok(peer == node),
        _ => Ok(false),
    }
}

// Whether the next item is that a replica has a connection with its peer.
fn gives_up<R: Net + Wait>(
    rt: &R,
    alloc: Global,
    link: &mut TcpLink,
    own: u8,
    other: u8,
) -> Result<bool, LinkFault> {
    match link.next(rt, alloc)? {
        LinkItem::Up { at, peer } => Ok(at == own && peer == other),
        _ => Ok(false),
    }
}

// Whether what is there by now is a frame of these bytes for replica 0.
fn has_frame(alloc: Global, link: &mut TcpLink, wanted: &[u8]) -> Result<bool, LinkFault> {
    match link.next_now(alloc)? {
        Some(LinkItem::Frame { to: 0, bytes }) => Ok(bytes.as_slice() == wanted),
        _ => Ok(false),
    }
}

// Whether two frames that go out together come together: the first is waited for, the second is there then, and no third.
fn both_come<R: Net + Wait>(rt: &R, alloc: Global, link: &mut TcpLink) -> Result<bool, LinkFault> {
    let are_up = gives_up(rt, alloc, link, 1, 0)? && gives_up(rt, alloc, link, 0, 1)?;
    link.send(rt, alloc, 1, 0, b"one")?;
    link.send(rt, alloc, 1, 0, b"other")?;
    let come = gives_frame(rt, alloc, link, b"one")? && has_frame(alloc, link, b"other")?;
    Ok(are_up && come && link.next_now(alloc)?.is_none())
}

#[test]
fn a_cluster(rt: HostRuntime) -> Result<(), Fail> {
    let peers = addresses(rt.alloc(), b"127.0.0.1:21030", b"127.0.0.1:21031")?;
    let mut link = started(&rt, rt.alloc(), &LinkPlan::Cluster { peers })?;
    assert!(rt; both_come(&rt, rt.alloc(), &mut link)?);
    Ok(())
}

// Replica 0 of two.
fn node<R: Net + Wait>(rt: &R, alloc: Global) -> Result<TcpLink, LinkFault> {
    let peers = addresses(alloc, b"127.0.0.1:21020", b"127.0.0.1:21023")?;
    let client = Bytes::from_slice(alloc, b"127.0.0.1:21021")?;
    started(
        rt,
        alloc,
        &LinkPlan::Node {
            me: 0,
            peers,
            client,
        },
    )
}

// Starts its client, which asks node 1 too.
fn start_client<R: Net + Wait>(
    rt: &R,
    alloc: Global,
    client: &mut TcpLink,
) -> Result<(), LinkFault> {
    let nodes = addresses(alloc, b"127.0.0.1:21021", b"127.0.0.1:21022")?;
    client.start(rt, alloc, &LinkPlan::Client { nodes })
}

// Whether a client learns that node 1 isn't there, and what it asks comes to node 0, which replies.
fn asks<R: Net + Wait>(
    rt: &R,
    alloc: Global,
    node: &mut TcpLink,
    client: &mut TcpLink,
) -> Result<bool, LinkFault> {
    client.send(rt, alloc, 0, 0, b"asks")?;
    let is_told = gives_down(rt, alloc, client, 1)?;
    let is_asked = gives_message(rt, alloc, node, b"asks")?;
    node.reply(rt, alloc, 0, 0, b"answer")?;
    node.flush();
    Ok(is_told && is_asked)
}

// Whether a client gets a reply, and learns that its last node ended.
fn hears<R: Net + Wait>(rt: &R, alloc: Global, client: &mut TcpLink) -> Result<bool, LinkFault> {
    let is_told = gives_reply(rt, alloc, client, b"answer")? && gives_down(rt, alloc, client, 0)?;
    Ok(is_told && client.next(rt, alloc)?.is_end())
}

// Whether a node answers a client, and then ends.
fn answers<R: Net + Wait>(rt: &R, alloc: Global, client: &mut TcpLink) -> Result<bool, LinkFault> {
    let mut node = node(rt, alloc)?;
    start_client(rt, alloc, client)?;
    asks(rt, alloc, &mut node, client)
}

#[test]
fn a_client(rt: HostRuntime) -> Result<(), Fail> {
    let mut client = TcpLink::new(rt.alloc());
    assert!(rt; answers(&rt, rt.alloc(), &mut client)?);
    assert!(rt; hears(&rt, rt.alloc(), &mut client)?);
    Ok(())
}
