//! Tests of `node_loop`: serving one replica, its events, its replies, where it ends, and the faults of the tape and the link.

ghost use Rattle.std.specs.Prelude.{◌<◌, ◌^◌, length, All, IfOk, OnOk};
ghost use Rattle.outside.specs.MemoryLink.{IsShort};
ghost use Rattle.node_loop.specs.Served.{MayBegin};

use atomic_bcast::Abc;
use binary_consensus::Bin;
use keyed_channel::{Keys, SeedCoin};
use multivalued::Mvc;
use node_loop::{Limits, ServeEnd, serve};
use outside::{LinkItem, MemLink, MemSink};
use reliable_bcast::Rb;
use replica::Replica;
use ritas_base::{Bytes, FrameVersion, Mem, Mode, Params, Vect};
use std::alloc::Global;
use std::net::Net;
use std::process::Abort;
use std::sync::Wait;
use std::test::*;
use vector_consensus::Vc;

type Alone = Replica<Abc<Vc<Mvc<Bin>>>, Rb, SeedCoin>;

// The one replica of a session of one, in root service 6.
fn alone(rt: &impl Abort, alloc: Global) -> Result<Vec<Alone>, Mem> {
    let p = Params::new(1, 0).expect(rt, "numbers");
    let mode = Mode {
        root: 6,
        vect: Vect::Reliable,
        version: FrameVersion::One,
    };
    let keys = Keys::deal(&[0; 32], 0, &p, 0);
    let mut replicas = Vec::new(alloc);
    replicas.push(Replica::new(alloc, p, mode, keys, SeedCoin::new(0, [0; 32]))?)?;
    Ok(replicas)
}

// A message of a client more.
fn add(items: &mut Vec<LinkItem>, alloc: Global, at: u8, conn: u32, bytes: &[u8]) -> Result<(), Mem>
    requires short { length bytes.now < 2 ^ 16 }
    requires firsts { All MayBegin items.old.items }
    requires shorts { All IsShort items.old.items }
    ensures firsts { OnOk result (All MayBegin items.new.items) }
    ensures shorts { OnOk result (All IsShort items.new.items) }
{
    let bytes = Bytes::from_slice(alloc, bytes)?;
    items.push(LinkItem::Client { at, conn, bytes })?;
    Ok(())
}

// One message to the replica.
fn one(alloc: Global, bytes: &[u8]) -> Result<Vec<LinkItem>, Mem>
    requires { length bytes.now < 2 ^ 16 }
    ensures firsts { IfOk result (λ v. All MayBegin v.items) }
    ensures shorts { IfOk result (λ v. All IsShort v.items) }
{
    let mut items = Vec::new(alloc);
    add(&mut items, alloc, 0, 1, bytes)?;
    Ok(items)
}

// Client 7's request 1, one that is refused, the request at a replica that isn't here, and the request again.
fn four(alloc: Global) -> Result<Vec<LinkItem>, Mem>
    ensures { IfOk result (λ v. All IsShort v.items) }
{
    let request = b"\x00\x00\x00\x07\x00\x00\x00\x01hi";
    let mut items = Vec::new(alloc);
    add(&mut items, alloc, 0, 3, request)?;
    add(&mut items, alloc, 0, 4, b"")?;
    add(&mut items, alloc, 1, 5, request)?;
    add(&mut items, alloc, 0, 6, request)?;
    Ok(items)
}

// Whether the reply of this number went to this connection.
fn replied(link: &MemLink, number: usize, conn: u32, bytes: &[u8]) -> bool {
    match link.replies().get(number) {
        Some(reply) => reply.at == 0 && reply.to == conn && reply.bytes.as_slice() == bytes,
        None => false,
    }
}

// Serves the one replica of a session, beginning with these items. It promises nothing, so that what calls it has a
// short proof.
fn serve_alone<R: Net + Wait + Abort>(
    rt: &R,
    alloc: Global,
    link: &mut MemLink,
    tape: &mut MemSink,
    items: u64,
    rows: u32,
    first: &Vec<LinkItem>,
) -> Result<ServeEnd, Mem>
    requires { All MayBegin first.now.items }
{
    let mut replicas = alone(rt, alloc)?;
    let limits = Limits {
        items,
        rows,
        closing: None,
    };
    Ok(serve(rt, alloc, &mut replicas, link, tape, limits, first))
}

// A link that gives these items, and whose calls of these numbers fail.
fn link_of(alloc: Global, items: &Vec<LinkItem>, fails: &[u64]) -> Result<MemLink, Mem>
    requires { All IsShort items.now.items }
{
    MemLink::new(alloc, items, fails)
}

// A tape with room for what is written, whose calls of these numbers fail.
fn tape_of(alloc: Global, fails: &[u64]) -> Result<MemSink, Mem> {
    MemSink::new(alloc, 100, fails)
}

// How it ends where four items are there and calls of these numbers fail, how many bytes of events the tape took, and
// how many replies went out.
fn served_four<R: Net + Wait + Abort>(
    rt: &R,
    alloc: Global,
    tape_fails: &[u64],
    link_fails: &[u64],
) -> Result<(ServeEnd, usize, usize), Mem> {
    let mut link = link_of(alloc, &four(alloc)?, link_fails)?;
    let mut tape = tape_of(alloc, tape_fails)?;
    let end = serve_alone(rt, alloc, &mut link, &mut tape, 10, 0, &Vec::new(alloc))?;
    Ok((end, tape.taken().len(), link.replies().len()))
}

// The request makes 30 turns, and its position is replied once its row is in the log, and at once where it is asked for again.
#[test]
fn serves_one(rt: HostRuntime) -> Result<(), Fail> {
    let mut link = link_of(rt.alloc(), &four(rt.alloc())?, &[])?;
    let mut tape = tape_of(rt.alloc(), &[])?;
    let first = Vec::new(rt.alloc());
    let end = serve_alone(&rt, rt.alloc(), &mut link, &mut tape, 10, 0, &first)?;
    assert!(rt; end == ServeEnd::End);
    assert!(rt; link.replies().len() == 3);
    let position = b"\x01\x00\x00\x00\x07\x00\x00\x00\x01\x00\x00\x00\x00";
    let refusal = b"\x02\x00\x00\x00\x00\x00\x00\x00\x00\x00\x00\x00\x08";
    assert!(rt; replied(&link, 0, 3, position));
    assert!(rt; replied(&link, 1, 4, refusal));
    assert!(rt; replied(&link, 2, 6, position));
    Ok(())
}

// The events of all four items go to the tape by one call: a second one would fail. And where the link fails as it is asked for the second item, nothing
// was written of the first.
#[test]
fn writes_once_for_all(rt: HostRuntime) -> Result<(), Fail> {
    assert!(rt; served_four(&rt, rt.alloc(), &[1], &[])? == (ServeEnd::End, 14 + 30 * 2 + 4, 3));
    assert!(rt; served_four(&rt, rt.alloc(), &[], &[1])? == (ServeEnd::LinkFault, 0, 0));
    Ok(())
}

// How it ends, and how many bytes of events the tape took, where it begins with a message and takes at most one item of the link, which
// is refused.
fn ended<R: Net + Wait + Abort>(
    rt: &R,
    alloc: Global,
    message: &[u8],
    until: u32,
    tape_fails: &[u64],
    link_fails: &[u64],
) -> Result<(ServeEnd, usize), Mem>
    requires { length message.now < 2 ^ 16 }
{
    let first = one(alloc, message)?;
    let mut link = link_of(alloc, &one(alloc, b"")?, link_fails)?;
    let mut tape = tape_of(alloc, tape_fails)?;
    let end = serve_alone(rt, alloc, &mut link, &mut tape, 1, until, &first)?;
    Ok((end, tape.taken().len()))
}

// What it begins with isn't counted, and a row that is wanted is there after 21 turns. Then the tape's second call fails, and the link's
// first.
#[test]
fn ends(rt: HostRuntime) -> Result<(), Fail> {
    let request = b"\x00\x00\x00\x07\x00\x00\x00\x01hi";
    assert!(rt; ended(&rt, rt.alloc(), b"", 0, &[], &[])? == (ServeEnd::Limit, 8));
    assert!(rt; ended(&rt, rt.alloc(), request, 1, &[], &[])? == (ServeEnd::Done, 14 + 21 * 2));
    assert!(rt; ended(&rt, rt.alloc(), b"", 0, &[1], &[])? == (ServeEnd::TapeFault, 4));
    assert!(rt; ended(&rt, rt.alloc(), b"", 0, &[], &[0])? == (ServeEnd::LinkFault, 4));
    Ok(())
}

// So many connections, each with this message.
fn crowd(alloc: Global, many: u32, bytes: &[u8]) -> Result<Vec<LinkItem>, Mem>
    requires { length bytes.now < 2 ^ 16 }
    ensures { IfOk result (λ v. All IsShort v.items) }
{
    let mut items = Vec::new(alloc);
    for conn in 0..many {
        add(&mut items, alloc, 0, conn, bytes)?;
    }
    Ok(items)
}

// How it ends, and how many get a reply, where so many connections ask for one request.
fn replied_of<R: Net + Wait + Abort>(
    rt: &R,
    alloc: Global,
    many: u32,
) -> Result<(ServeEnd, usize), Mem> {
    let items = crowd(alloc, many, b"\x00\x00\x00\x07\x00\x00\x00\x01hi")?;
    let mut link = link_of(alloc, &items, &[])?;
    let mut tape = tape_of(alloc, &[])?;
    let first = Vec::new(alloc);
    let end = serve_alone(rt, alloc, &mut link, &mut tape, u64::from(many), 0, &first)?;
    Ok((end, link.replies().len()))
}

// Ten and a thousand connections ask for one request, and each gets a reply.
#[test]
fn each_is_replied(rt: HostRuntime) -> Result<(), Fail> {
    assert!(rt; replied_of(&rt, rt.alloc(), 10)? == (ServeEnd::Limit, 10));
    assert!(rt; replied_of(&rt, rt.alloc(), 1_000)? == (ServeEnd::Limit, 1_000));
    Ok(())
}
