//! Tests of `keyed_channel`: tags and coins, against public values and those that another program made.

use crate::dealt::{SLOT, dealt, digest_of_abc, known_entry, master_key};
use keyed_channel::{SeedCoin, coin_key, digest, hmac};
use ritas_base::{Coin, Slot, Tagger};

// The coin key of replica 2, by Python's hmac.
const COIN_KEY: &[u8; 32] =
    b"\xe9\x1e\x0f\xbf\x20\x46\xf3\xe3\x9f\x39\x1a\x95\x29\x77\x95\xb3\x89\x0a\x7d\x7c\x19\x99\xd4\xad\x92\x61\x68\x5e\xd0\x0e\xef\x5c";

// Test cases 1 to 4 of RFC 4231.
const CASES: [(&[u8], &[u8], &[u8]); 4] = [
    (
        &[0x0b; 20],
        b"Hi There",
        b"\xb0\x34\x4c\x61\xd8\xdb\x38\x53\x5c\xa8\xaf\xce\xaf\x0b\xf1\x2b\x88\x1d\xc2\x00\xc9\x83\x3d\xa7\x26\xe9\x37\x6c\x2e\x32\xcf\xf7",
    ),
    (
        b"Jefe",
        b"what do ya want for nothing?",
        b"\x5b\xdc\xc1\x46\xbf\x60\x75\x4e\x6a\x04\x24\x26\x08\x95\x75\xc7\x5a\x00\x3f\x08\x9d\x27\x39\x83\x9d\xec\x58\xb9\x64\xec\x38\x43",
    ),
    (
        &[0xaa; 20],
        &[0xdd; 50],
        b"\x77\x3e\xa9\x1e\x36\x80\x0e\x46\x85\x4d\xb8\xeb\xd0\x91\x81\xa7\x29\x59\x09\x8b\x3e\xf8\xc1\x22\xd9\x63\x55\x14\xce\xd5\x65\xfe",
    ),
    (
        b"\x01\x02\x03\x04\x05\x06\x07\x08\x09\x0a\x0b\x0c\x0d\x0e\x0f\x10\x11\x12\x13\x14\x15\x16\x17\x18\x19",
        &[0xcd; 50],
        b"\x82\x55\x8a\x38\x9a\x44\x3c\x0e\xa4\xcc\x81\x98\x99\xf2\x08\x3a\x85\xf0\xfa\xa3\xe5\x78\xf8\x07\x7a\x2e\x3f\xf4\x67\x29\x66\x5b",
    ),
];

// The constants are named by one function alone: a proof unfolds a constant wherever it is named.

fn cases() -> [(&'static [u8], &'static [u8], &'static [u8]); 4] {
    CASES
}

fn known_coin_key() -> &'static [u8; 32] {
    COIN_KEY
}

#[test]
fn hmac_of_the_standard(rt: HostRuntime) {
    for (key, text, tag) in cases() {
        assert!(rt; key.len() <= 64);
        assert!(rt; hmac(key, text).as_slice() == tag);
    }
}

#[test]
fn tags_of_dealt_keys(rt: HostRuntime) {
    let keys = dealt(&rt, 1);
    assert!(rt; keys.me() == 1);
    assert!(rt; keys.n() == 4);
    assert!(rt; keys.session() == 7);
    assert!(rt; digest(b"abc").as_slice() == digest_of_abc().as_slice());
    assert!(rt; keys.entry(&SLOT, 3, 1, digest_of_abc()).as_slice() == known_entry().as_slice());
}

#[test]
fn coins(rt: HostRuntime) {
    let key = coin_key(master_key(), 7, 2);
    assert!(rt; key.as_slice() == known_coin_key().as_slice());
    let coin = SeedCoin::new(7, key);
    for (step, origin, bit) in [(1, 0, false), (1, 1, true), (1, 2, false), (2, 2, true)] {
        let slot = Slot {
            step,
            origin,
            ..SLOT
        };
        assert!(rt; coin.toss(&slot) == bit);
    }
}
