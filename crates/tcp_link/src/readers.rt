//! Connections that may have bytes to be read.

ghost use Rattle.std.specs.Prelude.{◌≡◌, [], false, OnOk, OnErr};
ghost use Rattle.tcp_link.specs.Sides.{on_readers};

use crate::side::Side;
use crate::sockets::list;
use ritas_base::Mem;
use std::alloc::Global;
use std::collections::VecDeque;

/// Connections that may have bytes to be read, by their tokens, each at most once.
#[derive(Drop)]
pub(crate) struct Readers {
    /// Those of clients.
    pub(crate) clients: VecDeque<usize>,
    /// The others.
    pub(crate) others: VecDeque<usize>,
}

impl Readers {
    /// None.
    pub(crate) fn new(alloc: Global) -> Readers
        ensures clients { result.clients.items ≡ [] }
        ensures others { result.others.items ≡ [] }
    {
        Readers {
            clients: VecDeque::new(alloc),
            others: VecDeque::new(alloc),
        }
    }

    /// Whether there is none.
    pub(crate) fn is_empty(&self) -> bool {
        self.clients.is_empty() && self.others.is_empty()
    }

    /// Puts a connection among them, if it isn't there. The one error is want of memory.
    pub(crate) fn add(&mut self, side: &mut Side, token: usize) -> Result<(), Mem>
        ensures side { OnOk result (side.new ≡ on_readers side.old) }
        ensures memory { OnErr result (side.old.listed.reads ≡ false) }
    {
        if side.whom.is_client() {
            list(&mut side.listed.reads, token, &mut self.clients)
        } else {
            list(&mut side.listed.reads, token, &mut self.others)
        }
    }
}
