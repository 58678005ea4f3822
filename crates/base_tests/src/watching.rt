//! Tests of `log_watch`: two nodes of four give a row, one gives another, and a link that fails.

ghost use Rattle.std.specs.Prelude.{◌<◌, ◌^◌, length, All, IfOk, OnOk};
ghost use Rattle.outside.specs.Links.{bytes_of};
ghost use Rattle.outside.specs.MemoryLink.{IsShort};

use client_port::write_query;
use log_watch::{WatchEnd, watch, watched_is_true};
use observer::Observer;
use outside::{LinkItem, MemLink};
use ritas_base::{Bytes, Mem, Params, Texts};
use std::alloc::Global;
use std::net::Net;
use std::process::Abort;
use std::sync::Wait;
use std::test::*;

// Row 0 of a log: command 0 of replica 0, request 1 of client 7, "hi".
const HI: &[u8] = b"\x03\0\0\0\0\x01\0\0\0\0\0\0\0\0\x07\0\0\0\x01\0\x02hi";

// Another row there.
const HJ: &[u8] = b"\x03\0\0\0\0\x01\0\0\0\0\0\0\0\0\x07\0\0\0\x01\0\x02hj";

// A reply of a node more.
fn replies(items: &mut Vec<LinkItem>, alloc: Global, from: u8, bytes: &[u8]) -> Result<(), Mem>
    requires short { length bytes.now < 2 ^ 16 }
    requires all { All IsShort items.old.items }
    ensures all { OnOk result (All IsShort items.new.items) }
{
    let bytes = Bytes::from_slice(alloc, bytes)?;
    items.push(LinkItem::Reply { from, bytes })?;
    Ok(())
}

// Node 3 gives another row than nodes 0 and 2, and then what is no piece.
fn items(alloc: Global) -> Result<Vec<LinkItem>, Mem>
    ensures all { IfOk result (λ v. All IsShort v.items) }
{
    let mut items = Vec::new(alloc);
    replies(&mut items, alloc, 3, HJ)?;
    replies(&mut items, alloc, 0, HI)?;
    replies(&mut items, alloc, 3, b"x")?;
    replies(&mut items, alloc, 2, HI)?;
    Ok(items)
}

// How watching for so many rows of four nodes ends, of which one may be faulty, and how many rows there are then.
fn ended<R: Net + Wait + Abort>(
    rt: &R,
    alloc: Global,
    until: u32,
    link: &mut MemLink,
) -> Result<(WatchEnd, u32), Mem> {
    let p = Params::new(4, 1).expect(rt, "numbers");
    let mut nodes = Texts::new(alloc);
    for _ in 0..4u8 {
        nodes.push(Bytes::from_slice(alloc, b"address")?)?;
    }
    let mut observer = Observer::new(alloc, &p)?;
    let end = watch(rt, alloc, &p, &nodes, until, &mut observer, link);
    Ok((end, observer.len()))
}

// Each node is asked for position 0, and those whose first two pieces are taken again. The row that
// is wanted is there then.
#[test]
fn two_nodes_give_a_row(rt: HostRuntime) -> Result<(), Fail> {
    let mut link = MemLink::new(rt.alloc(), &items(rt.alloc())?, &[])?;
    assert!(rt; ended(&rt, rt.alloc(), 1, &mut link)? == (WatchEnd::Rows, 1));
    assert!(rt; link.plans().len() == 1 && link.frames().len() == 6);
    for (number, node) in [0, 1, 2, 3, 3, 0].iter().enumerate() {
        let frame = link.frames().get(number).ok_or("no frame")?;
        assert!(rt; frame.at == 0 && frame.to == *node);
        assert!(rt; frame.bytes.as_slice() == write_query(0).as_slice());
    }
    Ok(())
}

// Where another row is wanted the node is asked for it, and the link's end comes first.
#[test]
fn the_next_row_is_asked_for(rt: HostRuntime) -> Result<(), Fail> {
    let mut link = MemLink::new(rt.alloc(), &items(rt.alloc())?, &[])?;
    assert!(rt; ended(&rt, rt.alloc(), 2, &mut link)? == (WatchEnd::End, 1));
    let frame = link.frames().get(6).ok_or("no frame")?;
    assert!(rt; frame.to == 2 && frame.bytes.as_slice() == write_query(1).as_slice());
    Ok(())
}

// Each of its calls may fail: the start, six that send, and four that ask for an item. It makes no more.
#[test]
fn faults_end_watching(rt: HostRuntime) -> Result<(), Fail> {
    let items = items(rt.alloc())?;
    for number in 0..11u64 {
        let mut link = MemLink::new(rt.alloc(), &items, &[number])?;
        assert!(rt; ended(&rt, rt.alloc(), 1, &mut link)?.0 == WatchEnd::LinkFault);
    }
    Ok(())
}

// The law is a function that does nothing.
#[test]
fn law_can_be_called(_rt: HostRuntime) {
    watched_is_true();
}
