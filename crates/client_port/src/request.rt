//! Requests, read and written: a client's number, its number for the request, and what is asked.

ghost use Rattle.std.specs.Prelude.{◌≡◌, ◌<◌, ◌⊎◌, ◌↔◌, length, Some, None, MatchOption, IfOk};
ghost use Rattle.ritas_base.specs.Limits.{least_request, longest_input};
ghost use Rattle.client_port.specs.Messages.{request_in, request_bytes};

use crate::front::{RequestFront, front};
use ritas_base::{Bytes, LEAST_REQUEST, LONGEST_INPUT, Mem, REQUEST_FRONT};
use std::alloc::Global;

/// A request, as the bytes of a message have it.
#[derive(Clone, Copy, Debug)]
pub struct RequestView<'a> {
    /// The client's number.
    pub client: u32,
    /// The client's number for this request.
    pub request: u32,
    /// What is asked, borrowed from the message; it may be empty.
    pub payload: &'a [u8],
}

/// The request that a message is: two numbers of four bytes, the most significant first, and the payload behind them.
///
/// `None` is answered exactly where the message has under `LEAST_REQUEST` (8) bytes or over `LONGEST_INPUT` (4,096).
#[tactic(auto, unfolding(crate::specs::Messages::request_in))]
pub fn read_request(bytes: &[u8]) -> Option<RequestView<'_>>
    ensures none { (result ≡ None) ↔ ((length bytes.now < least_request) ⊎ (longest_input < length bytes.now)) }
    ensures parts { MatchOption result
        (request_in bytes.now ≡ None)
        (λ r. request_in bytes.now ≡ Some (record { client = r.client; request = r.request; payload = r.payload.now })) }
{
    if bytes.len() < LEAST_REQUEST || bytes.len() > LONGEST_INPUT {
        return None;
    }
    let RequestFront { client, request } = front(bytes);
    Some(RequestView {
        client,
        request,
        payload: &bytes[REQUEST_FRONT..],
    })
}

/// The message of a request: the two numbers, of four bytes each, the most significant first, and the payload behind them. The one
/// error is want of memory.
pub fn write_request(alloc: Global, client: u32, request: u32, payload: &[u8]) -> Result<Bytes, Mem>
    ensures { IfOk result (λ message. message ≡ request_bytes (record { client = client; request = request; payload = payload.now })) }
{
    let mut message = Vec::new(alloc);
    message.extend_from_slice(&client.to_be_bytes())?;
    message.extend_from_slice(&request.to_be_bytes())?;
    message.extend_from_slice(payload)?;
    Ok(Bytes::from_vec(message))
}
