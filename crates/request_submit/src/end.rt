//! How handing in a request ends.

use outside::LinkFault;

/// How handing in a request ended.
#[derive(Clone, Copy, Debug, PartialEq, Eq)]
pub enum SubmitEnd {
    /// f + 1 nodes replied this position.
    Position(u32),
    /// The link gave its end before that.
    NoPosition,
    /// The link failed.
    LinkFault,
    /// There was not enough memory.
    Mem,
}

impl From<LinkFault> for SubmitEnd {
    ghost use Rattle.request_submit.specs.Waiting.{IsSubmitEndOf};

    ghost from_gives = { IsSubmitEndOf };

    fn from(fault: LinkFault) -> SubmitEnd {
        match fault {
            LinkFault::Failed => SubmitEnd::LinkFault,
            LinkFault::Mem => SubmitEnd::Mem,
        }
    }
}
