//! Pieces of a stream: a length of two bytes, the greater first, and so many bytes.

ghost use Rattle.std.specs.Prelude.{◌<◌, ◌^◌};
ghost use Rattle.tcp_link.specs.Pieces.{IsPieceFront, FitsIn};

/// What stands at the front of bytes that came.
#[derive(Clone, Copy)]
pub(crate) enum Front<'a> {
    /// A whole piece, of these bytes.
    Piece(&'a [u8]),
    /// A part of a piece, or nothing.
    Part,
    /// A length over the most that is allowed.
    TooLong,
}

/// What stands at the front of these bytes, where pieces have at most so many.
pub(crate) fn front_of(bytes: &[u8], most: usize) -> Front<'_>
    requires { most < 2 ^ 16 }
    ensures exact { IsPieceFront bytes.now most result }
    ensures fits { FitsIn bytes.now most result }
{
    let [high, low, rest @ ..] = bytes else {
        return Front::Part;
    };
    let len = usize::from(u16::from_be_bytes([*high, *low]));
    if len > most {
        return Front::TooLong;
    }
    if len > rest.len() {
        return Front::Part;
    }
    Front::Piece(&rest[..len])
}
