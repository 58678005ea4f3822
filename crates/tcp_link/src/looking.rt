//! Connections are looked at every five seconds.

ghost use Rattle.std.specs.Prelude.{◌≡◌, ◌≢◌, ◌≤◌, ◌++◌, true, false, None, IfSome, OnOk, OnErr, if◌then◌else◌};
ghost use Rattle.tcp_link.specs.Connections.{conn_at};
ghost use Rattle.tcp_link.specs.Limits.{looks_of_peer};
ghost use Rattle.tcp_link.specs.Stages.{is_half};
ghost use Rattle.tcp_link.specs.Sides.{most_looks, looked, on_looks, is_at_rest, is_read_due, unread_taken};
ghost use Rattle.tcp_link.specs.Waits.{look_again};

use crate::limits::{
    LOOKS_OF_DIAL, LOOKS_OF_HALF_CLOSED, LOOKS_OF_NODE, LOOKS_OF_PEER, LOOKS_OF_STRANGER,
};
use crate::retries::Retries;
use crate::side::Side;
use crate::sockets::Sockets;
use crate::stage::{Change, Stage};
use crate::whom::Whom;
use ritas_base::Mem;

// After how many looks in a row, between which nothing came, a connection ends.
fn most_looks(stage: Stage, whom: Whom) -> Option<u8>
    ensures is { result ≡ most_looks stage whom }
    ensures few { IfSome result (λ most. most ≤ looks_of_peer) }
{
    match (stage, whom) {
        (Stage::Begun, Whom::Node { from: _ }) => Some(LOOKS_OF_NODE),
        (Stage::Begun, _) => Some(LOOKS_OF_DIAL),
        (Stage::Up, Whom::Unnamed { at: _ }) => Some(LOOKS_OF_STRANGER),
        (Stage::Up, Whom::Peer { at: _, peer: _ }) => Some(LOOKS_OF_PEER),
        (Stage::Half, _) => Some(LOOKS_OF_HALF_CLOSED),
        _ => None,
    }
}

impl Side {
    // Whether it is a peer's that stands, and no answer is due: nothing was sent since the last look, and no look was counted yet.
    fn is_at_rest(&self) -> bool
        ensures { result ≡ is_at_rest self.now }
    {
        self.stage.is_up() && self.whom.is_peer() && !self.has_sent && self.looks == 0
    }

    /// It is looked at in five seconds, if it isn't to be looked at already. The one error is want of memory.
    pub(crate) fn look_later(&mut self, retries: &mut Retries, token: usize) -> Result<(), Mem>
        ensures side { OnOk result (self.new ≡ on_looks self.old) }
        ensures memory { OnErr result (self.old.listed.looks ≡ false) }
    {
        if !self.listed.looks {
            retries.look_at(token)?;
            self.listed.looks = true;
        }
        Ok(())
    }

    /// A client that sends no more is looked at from then on. The one error is want of memory.
    pub(crate) fn look_at_half(&mut self, retries: &mut Retries, token: usize) -> Result<(), Mem>
        ensures side { OnOk result (self.new
            ≡ (if is_half self.old.stage then on_looks self.old else self.old)) }
        ensures memory { OnErr result ((is_half self.old.stage ≡ true)
            × (self.old.listed.looks ≡ false)) }
    {
        if self.stage.is_half() {
            self.look_later(retries, token)?;
        }
        Ok(())
    }

    // It is looked at, and ends if nothing came for long. Looks at a peer are counted from the first before which something was sent
    // to it.
    fn look(&mut self)
        ensures { self.new ≡ looked self.old }
    {
        let Some(most) = most_looks(self.stage, self.whom) else {
            self.listed.looks = false;
            return;
        };
        let quiet = if self.has_come || self.is_at_rest() {
            0
        } else {
            self.looks.saturating_add(1)
        };
        if quiet >= most {
            self.listed.looks = false;
            self.change(Change::Ends);
        } else {
            self.looks = quiet;
            self.has_come = false;
            self.has_sent = false;
        }
    }

    /// It is looked at, and in five seconds again, unless it ended or isn't to be looked at any more. The one error is want of memory.
    pub(crate) fn look_once(&mut self, retries: &mut Retries, token: usize) -> Result<(), Mem>
        ensures side { self.new ≡ looked self.old }
        ensures again { OnOk result (retries.new.looks.items ≡ retries.old.looks.items ++ look_again retries.old.clock token (looked self.old).listed.looks) }
        ensures memory { OnErr result ((looked self.old).listed.looks ≡ true) }
        ensures waiting { retries.new.waiting ≡ retries.old.waiting }
        ensures clock { retries.new.clock ≡ retries.old.clock }
    {
        self.look();
        if self.listed.looks {
            retries.look_at(token)?;
        }
        Ok(())
    }

    /// Whether more is read of one that was fed, which is noted.
    pub(crate) fn take_unread(&mut self) -> bool
        ensures is { result ≡ is_read_due self.old }
        ensures new { self.new ≡ unread_taken self.old }
    {
        let is_due = self.is_unread && !self.is_fed();
        self.is_unread = self.is_unread && !is_due;
        is_due
    }
}

impl Sockets {
    /// Looks at a connection, which is closed if it ended by that. What is decided of it is what `Side::look_once` says; that the
    /// connection of the token is the one that is looked at is shown by `strangers_are_closed`, `a_stranger_in_a_crowd` and
    /// `asked_and_silent` of `cases/link`.
    pub(crate) fn look(&mut self, token: usize) -> Result<(), Mem>
        ensures memory { OnErr result (conn_at self.old.conns.places token ≢ None) }
    {
        let Some(conn) = self.conns.get_mut(token) else {
            // It is gone.
            return Ok(());
        };
        conn.side.look_once(&mut self.retries, token)?;
        self.settle(token)
    }
}
