//! At which replicas the events of a file may be.

ghost use Rattle.std.specs.Prelude.{◌≡◌};
ghost use Rattle.schedule_file.specs.ReadHeader.{heading};
ghost use Rattle.schedule_file.specs.Scopes.{scope_of, has_replica};

use crate::header::{Header, HeaderKeys};

/// How many replicas there are, and the one at which all events are, where the file has its keys alone.
#[derive(Clone, Copy, Debug)]
pub struct Scope {
    pub n: u8,
    pub only: Option<u8>,
}

impl Scope {
    /// The scope of the events behind a header.
    pub fn of(header: &Header) -> Scope
        ensures { result ≡ scope_of (heading header.now) }
    {
        let only = match header.keys {
            HeaderKeys::Master(_) => None,
            HeaderKeys::Row { me, .. } => Some(me),
        };
        Scope {
            n: header.p.n(),
            only,
        }
    }

    /// Whether an event may be at this replica.
    pub fn has(self, at: u8) -> bool
        ensures { result ≡ has_replica self at }
    {
        at < self.n
            && match self.only {
                None => true,
                Some(me) => at == me,
            }
    }
}
