//! Queries: a client asks for a log's rows from a position on.

ghost use Rattle.std.specs.Prelude.{◌≡◌};
ghost use Rattle.client_port.specs.Messages.{query_bytes, query_in};

use crate::number::number_at;

/// The bytes of a query.
pub const QUERY_LEN: usize = 5;

// The first byte of a query.
const QUERY: u8 = 0x4c;

/// The query for the rows from this position on.
pub fn write_query(position: u32) -> [u8; QUERY_LEN]
    ensures { result ≡ query_bytes position }
{
    let [p3, p2, p1, p0] = position.to_be_bytes();
    [QUERY, p3, p2, p1, p0]
}

/// The position that a message asks for, where it is a query: it has five bytes, and the first is that of a query. No
/// query is a request, which has at least 8.
#[tactic(auto, unfolding(crate::specs::Messages::query_in))]
pub fn read_query(bytes: &[u8]) -> Option<u32>
    ensures { result ≡ query_in bytes.now }
{
    if bytes.len() != QUERY_LEN || bytes[0] != QUERY {
        return None;
    }
    Some(number_at(bytes, 1))
}
