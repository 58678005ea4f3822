//! A test that a core drops the broadcasts of past slots, and keeps what they delivered in root service 1.

use crate::zeros::{ZeroCoin, ZeroTagger, new_core};
use atomic_bcast::CmdRoot;
use reliable_bcast::Rb;
use ritas_base::{Msg, Params, Slot};
use ritas_core::{Answer, Core};
use std::alloc::Global;
use std::process::Abort;

/// A replica of a session of one, which serves commands alone.
type LoneCore = Core<CmdRoot, Rb, ZeroCoin, ZeroTagger>;

// An input is delivered once its INIT, ECHO and READY came to the replica itself.
fn deliver_one(rt: &impl Abort, alloc: Global, core: &mut LoneCore, out: &mut Vec<Msg>) {
    assert!(rt; core.input(alloc, b"a", out) == Ok(Answer::Took));
    for _ in 0..3 {
        assert!(rt; core.turn(alloc, out) == Ok(Answer::Took));
    }
}

// 70 commands are delivered, so the least that isn't is 70, and those below 6 are past.
#[test]
fn past_commands_are_dropped(rt: HostRuntime) {
    let alloc = rt.alloc();
    let p = Params::new(1, 0).expect(&rt, "one replica");
    let mut core: LoneCore = new_core(alloc, p, 1).expect(&rt, "memory");
    let mut out = Vec::new(alloc);
    for _ in 0..70 {
        deliver_one(&rt, alloc, &mut core, &mut out);
    }
    for number in 0..70 {
        let slot = Slot::command(0, number);
        assert!(rt; core.broadcasts().find(&slot).is_some() == (number >= 6));
        assert!(rt; core.delivered(&slot) == Some(b"a".as_slice()));
    }
}
