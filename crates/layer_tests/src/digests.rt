//! A test of reliable broadcast with digests: its answers and messages where the value comes first.

use crate::votes::{SLOT, follows, item};
use layer_api::Broadcast;
use reliable_bcast::DigestRb;
use ritas_base::{Kind, Params};

// The digest of each value.
const DIGEST: [u8; 32] = [0; 32];

// Replica 1 of 4, one of which may be faulty: each item, what is said, and whether it delivers.
#[test]
fn follows_the_rules(rt: HostRuntime) {
    let alloc = rt.alloc();
    let p = Params::new(4, 1).expect(&rt, "numbers");
    let table: [(u8, Kind, &[u8], Option<Kind>, bool); 8] = [
        (0, Kind::Init, b"a", Some(Kind::Echo), false),
        (0, Kind::Echo, &DIGEST, None, false),
        (3, Kind::Echo, &DIGEST, None, false),
        (1, Kind::Echo, &DIGEST, Some(Kind::Ready), false),
        (2, Kind::Ready, &DIGEST, None, false),
        (3, Kind::Want, &DIGEST, Some(Kind::Value), false),
        (0, Kind::Ready, &DIGEST, None, false),
        (3, Kind::Ready, &DIGEST, None, true),
    ];
    let mut rb = DigestRb::new(alloc, &p, 1, SLOT).expect(&rt, "new");
    for (from, kind, value, said, delivers) in table {
        let item = item(alloc, from, kind, value).expect(&rt, "item");
        let follows = follows(alloc, &mut rb, &item, said, delivers).expect(&rt, "take");
        assert!(rt; follows, "item of {from}");
    }
    assert!(rt;
        rb.delivered() == Some(b"a".as_slice()) && rb.live(),
        "the value"
    );
}
