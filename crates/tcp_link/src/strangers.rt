//! Connections that came in last at doors for replicas, and may be yet to tell their numbers.

ghost use Rattle.std.specs.Prelude.{◌≡◌, ◌++◌, ◌∷◌, [], IfOk, OnOk};
ghost use Rattle.tcp_link.specs.Connections.{stranger_too_many, strangers_left};

use crate::limits::MOST_STRANGERS;
use ritas_base::Mem;
use std::alloc::Global;
use std::collections::VecDeque;

/// The tokens of the last that came in, the oldest first.
#[derive(Drop)]
pub(crate) struct Strangers {
    tokens: VecDeque<usize>,
}

impl Strangers {
    /// None came in.
    pub(crate) fn new(alloc: Global) -> Strangers
        ensures { result.tokens.items ≡ [] }
    {
        Strangers {
            tokens: VecDeque::new(alloc),
        }
    }

    /// One more came in. With it they may be too many: the oldest is answered then, and is none of them any more. The one error is
    /// want of memory.
    pub(crate) fn add(&mut self, token: usize) -> Result<Option<usize>, Mem>
        ensures oldest { IfOk result (λ oldest. oldest ≡ stranger_too_many (self.old.tokens.items ++ token ∷ [])) }
        ensures others { OnOk result (self.new.tokens.items ≡ strangers_left (self.old.tokens.items ++ token ∷ [])) }
    {
        self.tokens.push_back(token)?;
        if self.tokens.len() > MOST_STRANGERS {
            Ok(self.tokens.pop_front())
        } else {
            Ok(None)
        }
    }
}
