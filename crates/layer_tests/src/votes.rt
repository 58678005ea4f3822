//! Tests of reliable broadcast with values: its answers and messages at an origin and at another replica.

use crate::zeros::ZeroTagger;
use layer_api::{Broadcast, Heard};
use reliable_bcast::Rb;
use ritas_base::{Bytes, Item, Kind, Mem, Msg, Params, Slot};
use std::alloc::Global;

pub(crate) const SLOT: Slot = Slot {
    class: 1,
    a: 0,
    attempt: 0,
    bround: 0,
    step: 0,
    origin: 0,
};

pub(crate) fn item(alloc: Global, from: u8, kind: Kind, value: &[u8]) -> Result<Item, Mem> {
    Ok(Item {
        from,
        kind,
        slot: SLOT,
        value: Bytes::from_slice(alloc, value)?,
    })
}

// Whether replica 1 takes an item, says a message of this kind alone or none at all, and then
// delivers or doesn't.
pub(crate) fn follows<B: Broadcast>(
    alloc: Global,
    broadcast: &mut B,
    item: &Item,
    said: Option<Kind>,
    delivers: bool,
) -> Result<bool, Mem> {
    let mut out: Vec<Msg> = Vec::new(alloc);
    let answer = broadcast.take(alloc, &ZeroTagger { me: 1 }, item, &mut out)?;
    let is_said = out.pop().map(|m| m.kind) == said && out.is_empty();
    Ok(answer == Heard::Took && is_said && broadcast.delivered().is_some() == delivers)
}

// Replica 1 of 4, one of which may be faulty: each item with the answer, what is said, and whether it delivers.
#[test]
fn follows_the_rules(rt: HostRuntime) {
    let alloc = rt.alloc();
    let p = Params::new(4, 1).expect(&rt, "numbers");
    let table = [
        (0, Kind::Init, Some(Kind::Echo), false),
        (0, Kind::Echo, None, false),
        (3, Kind::Echo, None, false),
        (1, Kind::Echo, Some(Kind::Ready), false),
        (2, Kind::Ready, None, false),
        (0, Kind::Ready, None, false),
        (3, Kind::Ready, None, true),
    ];
    let mut rb = Rb::new(alloc, &p, 1, SLOT).expect(&rt, "new");
    for (from, kind, said, delivers) in table {
        let item = item(alloc, from, kind, b"a").expect(&rt, "item");
        let follows = follows(alloc, &mut rb, &item, said, delivers).expect(&rt, "take");
        assert!(rt; follows, "item of {from}");
    }
    assert!(rt; rb.delivered() == Some(b"a".as_slice()), "the value");
}

// The origin starts, and says READY at two READYs, before any ECHO.
#[test]
fn starts_and_joins(rt: HostRuntime) {
    let alloc = rt.alloc();
    let p = Params::new(4, 1).expect(&rt, "numbers");
    let mut rb = Rb::new(alloc, &p, 0, SLOT).expect(&rt, "new");
    let mut out: Vec<Msg> = Vec::new(alloc);
    rb.start(alloc, &ZeroTagger { me: 0 }, b"a", &mut out)
        .expect(&rt, "start");
    assert!(rt; out.pop().map(|m| m.kind) == Some(Kind::Init), "start");
    for (from, said) in [(1, None), (2, Some(Kind::Ready))] {
        let item = item(alloc, from, Kind::Ready, b"a").expect(&rt, "item");
        assert!(rt; rb.ready_for(&item), "ready");
        rb.take(alloc, &ZeroTagger { me: 0 }, &item, &mut out)
            .expect(&rt, "take");
        assert!(rt; out.pop().map(|m| m.kind) == said, "at {from}");
    }
    assert!(rt; rb.live(), "live");
}
