//! Tests of `client_port`: the bytes of requests and replies, and two replies of four that settle a position.

use client_port::{
    ReplyFault, RequestFront, Votes, position_is_true, read_front, read_request, replies_are_read,
    write_refusal, write_reply, write_request,
};
use ritas_base::{LONGEST_INPUT, Params};

const HI: &[u8] = b"\0\0\0\x07\0\0\0\x01hi";

#[test]
fn requests_are_read(rt: HostRuntime) {
    let request = read_request(HI).expect(&rt, "a request");
    assert!(rt; request.client == 7 && request.request == 1);
    assert!(rt; request.payload == b"hi".as_slice());
    assert!(rt; read_request(&[0; LONGEST_INPUT]).is_some());
    let front = RequestFront {
        client: 7,
        request: 1,
    };
    assert!(rt; read_front(HI) == Some(front));
}

#[test]
fn requests_are_written(rt: HostRuntime) {
    let message = write_request(rt.alloc(), 7, 1, b"hi").expect(&rt, "memory");
    assert!(rt; message.as_slice() == HI);
}

#[test]
fn replies_of_both_forms(rt: HostRuntime) {
    assert!(rt;
        write_reply(7, 1, 258).as_slice() == b"\x01\0\0\0\x07\0\0\0\x01\0\0\x01\x02".as_slice()
    );
    assert!(rt;
        write_refusal(16_909_060, 1, 8).as_slice()
            == b"\x02\x01\x02\x03\x04\0\0\0\x01\0\0\0\x08".as_slice()
    );
}

// Each call stands in a function of its own that promises nothing, so that what makes several has a short proof.

fn position_of(position: u32) -> [u8; 13] {
    write_reply(7, 1, position)
}

fn answer(votes: &mut Votes, from: u8, message: &[u8]) -> Result<Option<u32>, ReplyFault> {
    votes.reply(from, message)
}

// Of four replicas one may be faulty, so two have to give one position.
#[test]
fn two_of_four_settle(rt: HostRuntime) {
    let p = Params::new(4, 1).expect(&rt, "numbers");
    let mut votes = Votes::new(&p, 7, 1);
    for (from, position, wanted) in [(0, 5, None), (1, 6, None), (2, 5, Some(5))] {
        assert!(rt; answer(&mut votes, from, &position_of(position)) == Ok(wanted));
    }
}

// The laws are functions that do nothing.
#[test]
fn laws_can_be_called(_rt: HostRuntime) {
    position_is_true();
    client_port::requests_are_read();
    replies_are_read();
}
