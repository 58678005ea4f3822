//! Tests of the configuration of a request that is to be handed in: each field.

use crate::configs::lines::text_of;
use cluster_config::{Config, Job, Request, SubmitConfig, read_config};
use std::test::*;

const LINES: [&str; 6] = [
    "ritas 1",
    "n 2",
    "f 0",
    "peer 10.0.0.1:4000",
    "peer 10.0.0.2:4000",
    "request 1 2 3 0aFF",
];

// Whether it is the request of the last line.
fn is_last(request: &Request) -> bool {
    request.at == 1
        && request.client == 2
        && request.request == 3
        && request.payload.as_slice() == b"\x0a\xff".as_slice()
}

// Whether it has the numbers and the addresses of the lines before.
fn has_peers(submit: &SubmitConfig) -> bool {
    submit.p.n() == 2
        && submit.p.f() == 0
        && submit.peers.len() == 2
        && submit.peers.get(1) == Some(b"10.0.0.2:4000".as_slice())
}

#[test]
fn every_field(rt: HostRuntime) -> Result<(), Fail> {
    let text = text_of(rt.alloc(), &LINES)?;
    match &read_config(rt.alloc(), Job::Submit, text.as_bytes()) {
        Ok(Config::Submit(submit)) => {
            assert!(rt; has_peers(submit));
            assert!(rt; is_last(&submit.request));
        }
        _ => assert!(rt; false),
    }
    Ok(())
}
