//! Tests of columns at a receiver, and of the columns that an origin sends.

use crate::zeros::ZeroTagger;
use echo_bcast::Eb;
use layer_api::{Broadcast, Heard};
use ritas_base::{Bytes, Item, Kind, Mem, Msg, Params, Slot, To};
use std::alloc::Global;
use std::process::Abort;

const SLOT: Slot = Slot {
    class: 1,
    a: 0,
    attempt: 0,
    bround: 0,
    step: 0,
    origin: 3,
};

// So many rows of zeros behind the front.
fn rows(alloc: Global, front: &[u8], many: usize) -> Result<Bytes, Mem> {
    let mut out = Vec::from_slice(alloc, front)?;
    for _ in 0..many {
        out.extend_from_slice(&[0; 32])?;
    }
    Ok(Bytes::from_vec(out))
}

// A replica of 4, one of which may be faulty, takes an item, and answers that it took it.
fn take(
    rt: &impl Abort,
    alloc: Global,
    eb: &mut Eb,
    me: u8,
    from: u8,
    kind: Kind,
    value: Bytes,
    out: &mut Vec<Msg>,
) {
    let item = Item {
        from,
        kind,
        slot: SLOT,
        value,
    };
    assert!(rt; eb.ready_for(&item), "ready");
    let answer = eb
        .take(alloc, &ZeroTagger { me }, &item, out)
        .expect(rt, "memory");
    assert!(rt; answer == Heard::Took, "answer to {from}");
}

// A SEND is answered with HASHES to the origin, and a column of three entries delivers.
#[test]
fn receives_a_column(rt: HostRuntime) {
    let alloc = rt.alloc();
    let p = Params::new(4, 1).expect(&rt, "numbers");
    let mut eb = Eb::new(alloc, &p, 0, SLOT).expect(&rt, "new");
    let mut out: Vec<Msg> = Vec::new(alloc);
    let value = Bytes::from_slice(alloc, b"a").expect(&rt, "value");
    take(&rt, alloc, &mut eb, 0, 3, Kind::Send, value, &mut out);
    assert!(rt; out.pop().map(|m| m.to) == Some(To::One(3)), "HASHES");
    let column = rows(alloc, &[0, 0, 0, 0b1011], 3).expect(&rt, "rows");
    take(&rt, alloc, &mut eb, 0, 3, Kind::Column, column, &mut out);
    assert!(rt;
        out.is_empty() && eb.delivered() == Some(b"a".as_slice()),
        "the value"
    );
}

// The origin starts, and says a column to each at three HASHES.
#[test]
fn sends_columns(rt: HostRuntime) {
    let alloc = rt.alloc();
    let p = Params::new(4, 1).expect(&rt, "numbers");
    let mut eb = Eb::new(alloc, &p, 3, SLOT).expect(&rt, "new");
    let mut out: Vec<Msg> = Vec::new(alloc);
    eb.start(alloc, &ZeroTagger { me: 3 }, b"a", &mut out)
        .expect(&rt, "start");
    assert!(rt; out.pop().map(|m| m.kind) == Some(Kind::Send), "start");
    for (from, said) in [(0, 0), (2, 0), (1, 4)] {
        let value = rows(alloc, &[], 4).expect(&rt, "rows");
        take(&rt, alloc, &mut eb, 3, from, Kind::Hashes, value, &mut out);
        assert!(rt; out.len() == said, "columns at {from}");
    }
    assert!(rt;
        out.pop().map(|m| m.to) == Some(To::One(3)) && eb.live(),
        "to the last"
    );
}
