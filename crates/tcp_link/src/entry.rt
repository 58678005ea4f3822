//! Who comes in by a door.

ghost use Rattle.std.specs.Prelude.{◌≡◌, true};
ghost use Rattle.tcp_link.specs.Names.{is_of_replicas, admits_one_more, has_client_room, whom_at, numbered_after, whom_let_in, numbered_let_in};

use crate::limits::{CLIENTS_A_TURN, MOST_AT_ONCE, MOST_CLIENTS, REPLICAS_A_TURN};
use crate::whom::Whom;

/// Who comes in by a door.
#[derive(Clone, Copy)]
pub(crate) enum Entry {
    /// Replicas, to replica `at`.
    Replicas { at: u8 },
    /// Clients, to replica `at`.
    Clients { at: u8 },
}

impl Entry {
    /// Whether one more may come in, where so many clients were numbered.
    pub(crate) fn admits(self, numbered: u32) -> bool
        ensures { result ≡ admits_one_more self numbered }
    {
        match self {
            Entry::Replicas { at: _ } => true,
            Entry::Clients { at: _ } => numbered < MOST_CLIENTS,
        }
    }

    /// How many connections are accepted in one turn at most.
    pub(crate) fn most_a_turn(self) -> usize {
        match self {
            Entry::Replicas { at: _ } => REPLICAS_A_TURN,
            Entry::Clients { at: _ } => CLIENTS_A_TURN,
        }
    }

    // Whether there is room for one that came in, where so many clients are there, and all spare descriptors or not.
    fn has_room(self, there: usize, has_spares: bool) -> bool
        ensures { result ≡ has_client_room self there has_spares }
    {
        match self {
            Entry::Replicas { at: _ } => true,
            Entry::Clients { at: _ } => there < MOST_AT_ONCE && has_spares,
        }
    }

    /// Whether replicas come in by it.
    pub(crate) fn is_of_replicas(self) -> bool
        ensures { result ≡ is_of_replicas self }
    {
        match self {
            Entry::Replicas { at: _ } => true,
            Entry::Clients { at: _ } => false,
        }
    }

    // Whom the connection is with that came in, where so many clients were numbered.
    fn whom(self, numbered: u32) -> Whom
        ensures { result ≡ whom_at self numbered }
    {
        match self {
            Entry::Replicas { at } => Whom::Unnamed { at },
            Entry::Clients { at } => Whom::Client { at, conn: numbered },
        }
    }

    // How many clients are numbered then.
    fn numbered_after(self, numbered: u32) -> u32
        requires { admits_one_more self numbered ≡ true }
        ensures { result ≡ numbered_after self numbered }
    {
        match self {
            Entry::Replicas { at: _ } => numbered,
            Entry::Clients { at: _ } => numbered + 1,
        }
    }

    /// Lets one in that came, if one more may come in and there is room for it: then it is told whom the connection is with, and a
    /// client is numbered.
    pub(crate) fn let_in(self, numbered: &mut u32, there: usize, has_spares: bool) -> Option<Whom>
        ensures whom { result ≡ whom_let_in self numbered.old there has_spares }
        ensures numbered { numbered.new ≡ numbered_let_in self numbered.old there has_spares }
    {
        if !self.admits(*numbered) || !self.has_room(there, has_spares) {
            return None;
        }
        let whom = self.whom(*numbered);
        *numbered = self.numbered_after(*numbered);
        Some(whom)
    }
}
