//! Tests of lists of requests.

use cluster_config::{Request, Requests};
use ritas_base::Bytes;
use std::test::*;

#[test]
fn one_request(rt: HostRuntime) -> Result<(), Fail> {
    let mut requests = Requests::new(rt.alloc());
    assert!(rt; requests.len() == 0 && requests.get(0).is_none());
    let request = Request {
        at: 4,
        client: 5,
        request: 6,
        payload: Bytes::from_slice(rt.alloc(), b"hi")?,
    };
    requests.push(request)?;
    assert!(rt; requests.len() == 1 && requests.get(1).is_none());
    let first = requests.get(0).expect(&rt, "a request");
    assert!(rt; first.at == 4 && first.payload.as_slice() == b"hi".as_slice());
    Ok(())
}
