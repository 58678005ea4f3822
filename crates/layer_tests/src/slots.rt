//! Tests of the slots of an instance, of votes, and of what is said.

use layer_api::{is_slot_in, put_out, vote_of};
use ritas_base::{Bytes, Mem, Say, Slot};
use std::alloc::Global;

// A slot of class 5, of number 7 and replica 3.
const STEP: Slot = Slot {
    class: 5,
    a: 7,
    attempt: 2,
    bround: 200,
    step: 3,
    origin: 3,
};

#[test]
fn a_slot_and_a_vote(rt: HostRuntime) {
    assert!(rt; is_slot_in(2, 7, &STEP) && !is_slot_in(2, 8, &STEP));
    assert!(rt; vote_of(&[2]) == 2);
}

// A list with one saying of this value.
fn say(alloc: Global, value: &[u8]) -> Result<Vec<Say>, Mem> {
    let value = Bytes::from_slice(alloc, value)?;
    let mut says = Vec::new(alloc);
    says.push(Say { slot: STEP, value })?;
    Ok(says)
}

// What is said stands after what was said before.
#[test]
fn sayings(rt: HostRuntime) {
    let mut says = say(rt.alloc(), b"first").expect(&rt, "memory");
    let mut made = say(rt.alloc(), b"next").expect(&rt, "memory");
    assert!(rt; put_out(Ok(5u8), &mut made, &mut says) == Ok(5));
    assert!(rt; made.is_empty() && says.len() == 2);
    assert!(rt; says[1].value.as_slice() == b"next".as_slice());
}
