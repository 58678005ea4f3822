//! Tests of `key_rows`: the texts of one replica and of four, against those that another program made.

use key_rows::write_key_rows;
use ritas_base::Params;

// Python's hmac made the texts.

const ZEROS: &str =
    "row 0 091dcc96c4a606391570a5dc7535ee4665a61e800a85817552a6519b11ab5f36 096c86cae800b4214693087ab3c4f13e6c04bc9\
1e090d9300d5a1915302c6cfe\n";

const MASTER: &[u8; 32] =
    b"\x00\x01\x02\x03\x04\x05\x06\x07\x08\x09\x0a\x0b\x0c\x0d\x0e\x0f\x10\x11\x12\x13\x14\x15\x16\x17\x18\x19\x1a\x1b\x1c\x1d\x1e\x1f";

// The line of replica 2 of 4, in session 258.
const ROW: &str =
    "row 2 64ce63ce18b981dd20933784f2274700a0508f49fb8ce17cb684aaef2bd936cbefc6a42cb16291ea1a4145c610781d9063c14f03\
6fc97c76a6bd5952721ebb98476b8a3a27feefde373336cdf676c173ae0a8e3f8606df533dcf8712f500001dd58b90d8216b490b1c39ec\
6def544ed097df47a1c9f2ef18c1589cac99124772 dbb0471ec26f55ade613522ff67fb5fbfa97ce0c0b94e7fac021013d36bc519c";

// Each text is named by one function alone: a proof unfolds a constant wherever it is named.

fn zeros() -> &'static str {
    ZEROS
}

fn master() -> &'static [u8; 32] {
    MASTER
}

fn row() -> &'static str {
    ROW
}

#[test]
fn one_replica(rt: HostRuntime) {
    let p = Params::new(1, 0).expect(&rt, "numbers");
    let text = write_key_rows(rt.alloc(), 0, &p, &[0; 32]).expect(&rt, "memory");
    assert!(rt; text.as_slice() == zeros().as_bytes());
}

#[test]
fn third_of_four(rt: HostRuntime) {
    let p = Params::new(4, 1).expect(&rt, "numbers");
    let text = write_key_rows(rt.alloc(), 258, &p, master()).expect(&rt, "memory");
    let text = std::str::from_utf8(text.as_slice()).expect(&rt, "text");
    assert!(rt; text.lines().count() == 4);
    assert!(rt; text.lines().nth(2) == Some(row()));
}
