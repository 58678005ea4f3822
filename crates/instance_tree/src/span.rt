//! Which slots have places of their own in the tables of a tree.

ghost use Rattle.std.specs.Prelude.{◌<◌};

use ritas_base::NUMBER_LIMIT;

/// How far apart the numbers of slots may be that a tree has at a time, so that a look-up is a few steps.
///
/// A tree of either span is the same map. Where more slots share a place than the span is made for, each call takes
/// longer.
#[derive(Clone, Copy, Debug, PartialEq, Eq)]
pub enum Span {
    /// Of an origin's commands 128 in a row have places of their own, and so have 16 rounds in a row, with four tries and
    /// four binary rounds of each. It is for a tree from which what lies behind is dropped.
    Window,
    /// Each command number and each round has places of its own. It is for a tree from which nothing is dropped.
    Session,
}

impl Span {
    /// So many commands of an origin have a bucket of their own each.
    pub(crate) fn commands(self) -> u32
        ensures { 0 < result }
    {
        match self {
            Span::Window => 128,
            Span::Session => NUMBER_LIMIT,
        }
    }

    /// So many rounds have a bucket of their own each.
    pub(crate) fn rounds(self) -> u32
        ensures { 0 < result }
    {
        match self {
            Span::Window => 16,
            Span::Session => NUMBER_LIMIT,
        }
    }
}
