//! Replies, written: a position in the log, or the number of a fault.

ghost use Rattle.std.specs.Prelude.{◌≡◌};
ghost use Rattle.client_port.specs.Messages.{position_reply, refusal_reply, reply_bytes};

/// The bytes of a reply.
pub const REPLY_LEN: usize = 13;

/// The form of a reply that gives a position, its first byte.
pub(crate) const POSITION: u8 = 1;

/// The form of a refusal.
pub(crate) const REFUSAL: u8 = 2;

// The reply of this form, with this number at its end.
fn reply(form: u8, client: u32, request: u32, number: u32) -> [u8; REPLY_LEN]
    ensures { result ≡ reply_bytes form client request number }
{
    let [c3, c2, c1, c0] = client.to_be_bytes();
    let [r3, r2, r1, r0] = request.to_be_bytes();
    let [n3, n2, n1, n0] = number.to_be_bytes();
    [form, c3, c2, c1, c0, r3, r2, r1, r0, n3, n2, n1, n0]
}

/// The reply that a client's request stands at this position of the log.
pub fn write_reply(client: u32, request: u32, pos: u32) -> [u8; REPLY_LEN]
    ensures { result ≡ position_reply client request pos }
{
    reply(POSITION, client, request, pos)
}

/// The reply that a client's request is refused, with the number of the fault.
pub fn write_refusal(client: u32, request: u32, code: u32) -> [u8; REPLY_LEN]
    ensures { result ≡ refusal_reply client request code }
{
    reply(REFUSAL, client, request, code)
}
