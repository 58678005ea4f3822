//! The two numbers that a request begins with.

ghost use Rattle.std.specs.Prelude.{◌≡◌, ◌<◌, ◌≤◌, length, MatchOption};
ghost use Rattle.ritas_base.specs.Limits.{request_front};
ghost use Rattle.client_port.specs.Messages.{four_bytes_at};

use crate::number::number_at;
use ritas_base::REQUEST_FRONT;

/// Whose request a message is.
#[derive(Clone, Copy, Debug, PartialEq, Eq)]
pub struct RequestFront {
    /// The client's number.
    pub client: u32,
    /// The client's number for this request.
    pub request: u32,
}

// The two numbers, where they are there.
pub(crate) fn front(bytes: &[u8]) -> RequestFront
    requires { request_front ≤ length bytes.now }
    ensures { (result.client ≡ four_bytes_at 0 bytes.now) × (result.request ≡ four_bytes_at 4 bytes.now) }
{
    RequestFront {
        client: number_at(bytes, 0),
        request: number_at(bytes, 4),
    }
}

/// The two numbers that a message begins with, of four bytes each, the most significant first. It may be too long for a
/// request: `read_request` tells.
///
/// `None` is answered exactly where the message has under `REQUEST_FRONT` (8) bytes.
pub fn read_front(bytes: &[u8]) -> Option<RequestFront>
    ensures { MatchOption result
        (length bytes.now < request_front)
        (λ front. (request_front ≤ length bytes.now) × (front.client ≡ four_bytes_at 0 bytes.now) × (front.request ≡ four_bytes_at 4 bytes.now)) }
{
    if bytes.len() < REQUEST_FRONT {
        return None;
    }
    Some(front(bytes))
}
