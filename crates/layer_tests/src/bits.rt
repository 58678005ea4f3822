//! A test of rounds whose votes are split to the end.

use crate::zeros::ZeroCoin;
use binary_consensus::Bin;
use layer_api::BinaryBox;
use ritas_base::{Params, Say, Slot};
use std::alloc::Global;
use std::process::Abort;

fn slot(bround: u8, step: u8, origin: u8) -> Slot {
    Slot {
        class: 5,
        a: 7,
        attempt: 1,
        bround,
        step,
        origin,
    }
}

// The votes of a round: the bits are split, so that the third step is unmarked and the coin gives the next bit.
fn hear_round(rt: &impl Abort, alloc: Global, bin: &mut Bin, round: u8, says: &mut Vec<Say>) {
    for (step, votes) in [(1, [0, 0, 1, 1]), (2, [0, 0, 1, 1]), (3, [2, 2, 2, 2])] {
        for (origin, vote) in votes.iter().enumerate() {
            let heard = slot(round, step, origin as u8);
            assert!(rt; bin.heard(alloc, &ZeroCoin, &heard, *vote, says).is_ok());
        }
    }
}

// Each step of 200 rounds is said: 0, 0, and then unmarked.
fn are_said(rt: &impl Abort, says: &[Say]) {
    assert!(rt; says.len() == 600);
    for (k, said) in says.iter().enumerate() {
        let step = (k % 3) as u8 + 1;
        let vote = if step == 3 { 2 } else { 0 };
        assert!(rt; said.slot == slot((k / 3) as u8 + 1, step, 0));
        assert!(rt; said.value.as_slice() == [vote].as_slice());
    }
}

// Four replicas, of which one may be faulty. In each round the votes are split, and no round decides.
#[test]
fn rounds_of_unmarked_votes_end(rt: HostRuntime) {
    let p = Params::new(4, 1).unwrap();
    let mut bin = Bin::new(rt.alloc(), &p, 0, 7, 1).expect(&rt, "memory");
    assert!(rt; bin.round() == 0 && bin.live());
    let mut says: Vec<Say> = Vec::new(rt.alloc());
    assert!(rt; bin.propose(rt.alloc(), false, &mut says).is_ok());
    assert!(rt; bin.round() == 1);
    for round in 1..201u8 {
        hear_round(&rt, rt.alloc(), &mut bin, round, &mut says);
        assert!(rt; bin.rounds_over() == (round == 200));
    }
    assert!(rt; bin.decision().is_none() && bin.round() == 200 && bin.live());
    are_said(&rt, &says);
}
