//! Tests of `request_submit`: replies that settle a position, and a link that fails.

ghost use Rattle.std.specs.Prelude.{◌<◌, ◌^◌, length, All, IfOk, OnOk};
ghost use Rattle.outside.specs.Links.{bytes_of};
ghost use Rattle.outside.specs.MemoryLink.{IsShort};

use client_port::write_reply;
use outside::{LinkItem, LinkPlan, MemLink};
use request_submit::{SubmitEnd, position_is_one_of_logs, submit};
use ritas_base::{Bytes, Mem, Params, Texts};
use std::alloc::Global;
use std::net::Net;
use std::process::Abort;
use std::sync::Wait;
use std::test::*;

fn short(alloc: Global, bytes: &[u8]) -> Result<Bytes, Mem>
    requires fits { length bytes.now < 2 ^ 16 }
    ensures short { IfOk result (λ b. length b < 2 ^ 16) }
{
    Bytes::from_slice(alloc, bytes)
}

fn add(items: &mut Vec<LinkItem>, item: LinkItem) -> Result<(), Mem>
    requires short { length (bytes_of item) < 2 ^ 16 }
    requires all { All IsShort items.old.items }
    ensures all { OnOk result (All IsShort items.new.items) }
{
    items.push(item)?;
    Ok(())
}

// A reply of a node more, to request 1 of client 7.
fn replies(items: &mut Vec<LinkItem>, alloc: Global, from: u8, bytes: &[u8; 13]) -> Result<(), Mem>
    requires all { All IsShort items.old.items }
    ensures all { OnOk result (All IsShort items.new.items) }
{
    let bytes = short(alloc, bytes)?;
    add(items, LinkItem::Reply { from, bytes })
}

// The first reply of position 5, and then the second.
fn two(alloc: Global) -> Result<Vec<LinkItem>, Mem>
    ensures all { IfOk result (λ v. All IsShort v.items) }
{
    let mut items = Vec::new(alloc);
    replies(&mut items, alloc, 0, &write_reply(7, 1, 5))?;
    replies(&mut items, alloc, 2, &write_reply(7, 1, 5))?;
    Ok(items)
}

// Four nodes, with one address.
fn nodes(alloc: Global) -> Result<Texts, Mem> {
    let mut nodes = Texts::new(alloc);
    for _ in 0..4u8 {
        nodes.push(Bytes::from_slice(alloc, b"address")?)?;
    }
    Ok(nodes)
}

// How request 1 of client 7, "hi", ends at four nodes of which one may be faulty.
fn ended<R: Net + Wait + Abort>(
    rt: &R,
    alloc: Global,
    link: &mut MemLink,
) -> Result<SubmitEnd, Mem> {
    let p = Params::new(4, 1).expect(rt, "numbers");
    let nodes = nodes(alloc)?;
    Ok(submit(rt, alloc, &p, &nodes, 7, 1, b"hi", link))
}

// The request goes to each node in order, and two replies of one position settle it.
#[test]
fn two_replies_settle(rt: HostRuntime) -> Result<(), Fail> {
    let mut link = MemLink::new(rt.alloc(), &two(rt.alloc())?, &[])?;
    assert!(rt; ended(&rt, rt.alloc(), &mut link)? == SubmitEnd::Position(5));
    let plan = link.plans().get(0).ok_or("no plan")?;
    assert!(rt; link.plans().len() == 1 && is_for_nodes(plan));
    assert!(rt; link.frames().len() == 4 && link.replies().is_empty());
    for node in 0..4u8 {
        let frame = link.frames().get(usize::from(node)).ok_or("no frame")?;
        assert!(rt; frame.at == 0 && frame.to == u32::from(node));
        assert!(rt; frame.bytes.as_slice() == b"\0\0\0\x07\0\0\0\x01hi".as_slice());
    }
    Ok(())
}

// Whether it is the plan of a client of four nodes.
fn is_for_nodes(plan: &LinkPlan) -> bool {
    match plan {
        LinkPlan::Client { nodes } => {
            nodes.len() == 4 && nodes.get(3) == Some(b"address".as_slice())
        }
        LinkPlan::Node { .. } => false,
        LinkPlan::Cluster { .. } => false,
    }
}

// The same where two replies come and the call of this number fails.
fn ended_at<R: Net + Wait + Abort>(rt: &R, alloc: Global, number: u64) -> Result<SubmitEnd, Mem> {
    let mut link = MemLink::new(alloc, &two(alloc)?, &[number])?;
    ended(rt, alloc, &mut link)
}

// Each of its calls may fail: the start, four that send, and two that ask for an item. It makes no more.
#[test]
fn faults_end(rt: HostRuntime) -> Result<(), Fail> {
    for number in 0..7u64 {
        assert!(rt; ended_at(&rt, rt.alloc(), number)? == SubmitEnd::LinkFault);
    }
    assert!(rt; ended_at(&rt, rt.alloc(), 7)? == SubmitEnd::Position(5));
    Ok(())
}

// The law is a function that does nothing.
#[test]
fn law_can_be_called(_rt: HostRuntime) {
    position_is_one_of_logs();
}
