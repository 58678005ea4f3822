//! Tests of each service over the boxes of this repository: one replica alone hears what it says, and decides.

use crate::zeros::ZeroCoin;
use atomic_bcast::{Abc, CmdRoot};
use binary_consensus::{Bin, BinRoot};
use direct_atomic::Direct;
use layer_api::{Outcome, Service};
use multivalued::{Mvc, MvcRoot};
use ritas_base::{Id, Mem, Mode, Params, Say, Vect};
use std::alloc::Global;
use std::process::Abort;
use vector_consensus::{Vc, VcRoot};

// The service of a session's one replica and of this root service, which is handed a value and hears what it
// says. It promises nothing, so that what calls it has a short proof.
fn alone<S: Service>(rt: &impl Abort, alloc: Global, root: u8, value: &[u8]) -> Result<S, Mem> {
    let p = Params::new(1, 0).expect(rt, "numbers");
    let mode = Mode::new(root, Vect::Reliable).expect(rt, "mode");
    let mut service = S::new(alloc, &p, &mode, 0)?;
    let mut says: Vec<Say> = Vec::new(alloc);
    service.input(alloc, value, &mut says)?;
    for _ in 0..100 {
        if let Some(said) = says.pop() {
            hear(alloc, &mut service, &said, &mut says)?;
        }
    }
    Ok(service)
}

fn hear<S: Service>(
    alloc: Global,
    service: &mut S,
    said: &Say,
    says: &mut Vec<Say>,
) -> Result<(), Mem> {
    let value = said.value.as_slice();
    service.heard(alloc, &ZeroCoin, &said.slot, value, says)
}

// The outcome of a service, for whoever needs to know nothing of it.
fn is_decided<S: Service>(service: &S, wanted: Outcome) -> bool {
    service.outcome() == wanted && service.given() && service.live()
}

#[test]
fn a_bit(rt: HostRuntime) {
    let root: BinRoot<Bin> = alone(&rt, rt.alloc(), 3, &[1]).expect(&rt, "memory");
    assert!(rt; is_decided(&root, Outcome::Bit(true)));
}

#[test]
fn a_value(rt: HostRuntime) {
    let root: MvcRoot<Mvc<Bin>> = alone(&rt, rt.alloc(), 4, b"a").expect(&rt, "memory");
    assert!(rt; is_decided(&root, Outcome::Value(b"a")));
}

// The vector has the place of replica 0, a length, and its value.
#[test]
fn a_vector(rt: HostRuntime) {
    let root: VcRoot<Vc<Mvc<Bin>>> = alone(&rt, rt.alloc(), 5, b"a").expect(&rt, "memory");
    assert!(rt; is_decided(&root, Outcome::Value(b"\0\0\0\x01\0\x01a")));
}

// How many rounds a service completed, whether its log has the first command of replica 0 alone, and its next number.
fn counts<S: Service>(service: &S) -> (u32, bool, u32) {
    let is_logged = service.done() == [Id { origin: 0, num: 0 }].as_slice();
    (service.completed(), is_logged, service.next_number())
}

#[test]
fn a_command_in_a_log(rt: HostRuntime) {
    let root: Abc<Vc<Mvc<Bin>>> = alone(&rt, rt.alloc(), 6, b"client_1").expect(&rt, "memory");
    assert!(rt; counts(&root) == (1, true, 1));
}

#[test]
fn a_command_in_a_log_of_lists(rt: HostRuntime) {
    let root: Direct<Mvc<Bin>> = alone(&rt, rt.alloc(), 7, b"client_1").expect(&rt, "memory");
    assert!(rt; counts(&root) == (1, true, 1));
}

#[test]
fn a_command_alone(rt: HostRuntime) {
    let root: CmdRoot = alone(&rt, rt.alloc(), 1, b"a").expect(&rt, "memory");
    assert!(rt; counts(&root) == (0, false, 1) && root.base(0) == 1);
}
