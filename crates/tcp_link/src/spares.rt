//! Descriptors that are held for peers.

ghost use Rattle.std.specs.Prelude.{◌<◌, OnErr, vec_len};

use mio::Poll;
use ritas_base::Mem;
use std::alloc::Global;
use std::net::Net;

/// Descriptors that are held, so that one is there where a peer needs it. Each is that of a poll in which nothing is watched.
#[derive(Drop)]
pub(crate) struct Spares {
    polls: Vec<Poll>,
    wanted: usize,
}

impl Spares {
    /// None yet, of so many that are wanted.
    pub(crate) fn new(alloc: Global, wanted: usize) -> Spares {
        Spares {
            polls: Vec::new(alloc),
            wanted,
        }
    }

    /// Whether all are there that are wanted.
    pub(crate) fn are_all(&self) -> bool {
        self.polls.len() >= self.wanted
    }

    /// Takes as many as are missing and to be had. The one error is want of memory.
    pub(crate) fn fill<R: Net>(&mut self, rt: &R) -> Result<(), Mem>
        ensures memory { OnErr result (vec_len self.old.polls < self.old.wanted) }
    {
        for _ in self.polls.len()..self.wanted {
            match Poll::new(rt) {
                Ok(poll) => self.polls.push(poll)?,
                Err(_) => return Ok(()),
            }
        }
        Ok(())
    }

    /// Lets go of one, and says whether there was one.
    pub(crate) fn spend(&mut self) -> bool {
        self.polls.pop().is_some()
    }
}
