//! Tests of `ooc_buffers`: the limit of a peer's bytes, and the order in which items leave.

ghost use Rattle.std.specs.Prelude.{◌≡◌, length, IfOk};

use ooc_buffers::{Held, HoldFault};
use ritas_base::{Bytes, Item, Kind, Mem, Slot};
use std::alloc::Global;
use std::collections::VecDeque;

// How many bytes are held for one peer.
const MOST_BYTES: u32 = 1_048_576;

fn item(alloc: Global, from: u8, kind: Kind, a: u32, value: &[u8]) -> Result<Item, Mem>
    ensures { IfOk result (λ i. i.from ≡ from) }
{
    let slot = Slot {
        class: 2,
        a,
        attempt: 0,
        bround: 0,
        step: 0,
        origin: 0,
    };
    let value = Bytes::from_slice(alloc, value)?;
    Ok(Item {
        from,
        kind,
        slot,
        value,
    })
}

// Holds such an item for one of three peers, where it isn't held yet.
fn put(
    alloc: Global,
    held: &mut Held,
    from: u8,
    kind: Kind,
    a: u32,
    value: &[u8],
    len: u32,
) -> Result<(), HoldFault>
    requires { length held.old ≡ 3 }
    ensures { length held.new ≡ 3 }
{
    let item = item(alloc, from % 3, kind, a, value)?;
    if held.has(&item) {
        return Err(HoldFault::Mem);
    }
    held.hold(alloc, item, len)
}

// The limit is one for each peer.
#[test]
fn a_list_takes_so_many_bytes(rt: HostRuntime) {
    let mut held = Held::new(rt.alloc(), 3).expect(&rt, "memory");
    let most = MOST_BYTES;
    for (from, a, len, full) in [
        (1, 0, most - 576, None),
        (1, 1, 576, None),
        (1, 2, 1, Some(most)),
        (2, 2, 1, None),
    ] {
        let fault = put(rt.alloc(), &mut held, from, Kind::Init, a, b"x", len).err();
        assert!(rt; fault == full.map(HoldFault::HeldFull), "at {a}");
    }
    assert!(rt; held.bytes(1) == most && held.bytes(2) == 1 && held.bytes(0) == 0);
}

// The next ones promise nothing, so that what calls them has a short proof.

// Releases the items whose number is below 8.
fn release(alloc: Global, held: &mut Held, inbox: &mut VecDeque<Item>) -> bool {
    held.release(alloc, |item: &Item| item.slot.a < 8, inbox)
        .is_ok()
}

// Forgets those of number 9.
fn forget(held: &mut Held) {
    held.forget(|item: &Item| item.slot.a == 9);
}

// Whether this value comes next.
fn pops(inbox: &mut VecDeque<Item>, wanted: &[u8]) -> bool {
    match inbox.pop_front() {
        Some(item) => item.value.as_slice() == wanted,
        None => false,
    }
}

// Items leave by peer, and for each peer in the order in which they came.
#[test]
fn items_leave_in_order(rt: HostRuntime) {
    let mut held = Held::new(rt.alloc(), 3).expect(&rt, "memory");
    for (from, kind, a, value) in [
        (2, Kind::Init, 7, b"p"),
        (1, Kind::Column, 5, b"q"),
        (1, Kind::Init, 9, b"r"),
        (1, Kind::Init, 5, b"t"),
    ] {
        assert!(rt; put(rt.alloc(), &mut held, from, kind, a, value, 10).is_ok());
    }
    let mut inbox: VecDeque<Item> = VecDeque::new(rt.alloc());
    assert!(rt; release(rt.alloc(), &mut held, &mut inbox));
    assert!(rt; held.bytes(1) == 10 && held.bytes(2) == 0);
    for wanted in [b"q", b"t", b"p"] {
        assert!(rt; pops(&mut inbox, wanted));
    }
    assert!(rt; inbox.is_empty());
    forget(&mut held);
    assert!(rt; held.bytes(1) == 0);
}
