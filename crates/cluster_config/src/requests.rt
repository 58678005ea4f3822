//! Requests that are to be handed in.
ghost use Rattle.std.specs.Prelude.{◌≡◌, ◌∷◌, ◌++◌, [], OnOk, OnErr, length, option_map};
ghost use Rattle.std.specs.List.{slice_get};

use ritas_base::{Bytes, Mem};
use std::alloc::Global;
use std::marker::Model;

/// A client's request, and the replica that it is handed to.
#[derive(Debug, Drop)]
pub struct Request {
    /// The replica, below n.
    pub at: u8,
    /// The client's number.
    pub client: u32,
    /// The request's number at its client.
    pub request: u32,
    /// The bytes of the command, at most `LONGEST_PAYLOAD` (4,088).
    pub payload: Bytes,
}

/// A list of requests. Contracts see it as one.
#[derive(Debug, Drop)]
pub struct Requests {
    requests: Vec<Request>,
}

impl Model for Requests {
    ghost use Rattle.std.specs.Prelude.{List};
    ghost use Rattle.cluster_config.specs.declared.requests.Request.{Request};

    ghost Value = { List Request };

    ghost view = { λ r. r.requests.items };
}

impl Requests {
    /// No request.
    pub fn new(alloc: Global) -> Requests
        ensures { result ≡ [] }
    {
        Requests {
            requests: Vec::new(alloc),
        }
    }

    /// Appends a request. The one error is want of memory, which leaves the list as before.
    pub fn push(&mut self, request: Request) -> Result<(), Mem>
        ensures ok { OnOk result (self.new ≡ self.old ++ request ∷ []) }
        ensures err { OnErr result (self.new ≡ self.old) }
    {
        self.requests.push(request)?;
        Ok(())
    }

    /// How many there are.
    pub fn len(&self) -> usize
        ensures { result ≡ length self.now }
    {
        self.requests.len()
    }

    /// The request at a place, from 0; `None` exactly where there is none.
    pub fn get(&self, at: usize) -> Option<&Request>
        ensures { option_map (λ r. r.now) result ≡ slice_get self.now at }
    {
        self.requests.get(at)
    }
}
