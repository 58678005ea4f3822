//! The limits that several crates speak of, each defined once in `specs/Limits.antt`.
ghost use Rattle.std.specs.Prelude.{◌≡◌};
ghost use Rattle.ritas_base.specs.Limits.{number_limit, request_front, least_request, longest_input, longest_payload, longest_frame};

/// Commands and rounds are numbered below this.
pub const NUMBER_LIMIT: u32 = 1_000_000;

/// A request begins with so many bytes: the client's number and the request's.
pub const REQUEST_FRONT: usize = 8;

/// A request has at least so many bytes.
pub const LEAST_REQUEST: usize = REQUEST_FRONT;

/// An input has at most so many bytes: a command, a request or a value that is proposed.
pub const LONGEST_INPUT: usize = 4_096;

/// And so what a request asks has at most so many.
pub const LONGEST_PAYLOAD: usize = LONGEST_INPUT - REQUEST_FRONT;

/// A frame has at most so many bytes.
pub const LONGEST_FRAME: usize = 16_384;

/// A law: these constants are what the definitions say.
///
/// It does nothing: its contract is the law.
pub fn limits_are()
    ensures number { NUMBER_LIMIT ≡ number_limit }
    ensures front { REQUEST_FRONT ≡ request_front }
    ensures least { LEAST_REQUEST ≡ least_request }
    ensures input { LONGEST_INPUT ≡ longest_input }
    ensures payload { LONGEST_PAYLOAD ≡ longest_payload }
    ensures frame { LONGEST_FRAME ≡ longest_frame }
{}
