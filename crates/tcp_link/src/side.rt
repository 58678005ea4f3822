//! What is known of a connection without its stream: how far it is, whom it is with, and the bytes that came and that go.

ghost use Rattle.std.specs.Prelude.{◌≡◌, ◌≢◌, ◌<◌, ◌^◌, ◌++◌, ◌∷◌, [], IfOk, IfSome, OnOk, OnErr, length, is_some, nat_lt, true, false};
ghost use Rattle.outside.specs.Links.{bytes_of};
ghost use Rattle.tcp_link.specs.Limits.{longest_piece};
ghost use Rattle.tcp_link.specs.Names.{naming, most_of};
ghost use Rattle.tcp_link.specs.Outcomes.{IsWithin};
ghost use Rattle.tcp_link.specs.Pieces.{FitsIn};
ghost use Rattle.tcp_link.specs.Stages.{first_stage, is_begun};
ghost use Rattle.tcp_link.specs.Sides.{changed, ended, is_side_done, is_replied, is_drain_due, draining, ticked, is_side_ready, is_reading, takes, piece_kept, has_much, capped, IsCapped, side_written, is_fed, side_read, named, is_whole, IsFrontAt, gives_of, side_item_taken, side_taken, side_noted, is_write_due, off_readers, off_writers};

use crate::dials::Dial;
use crate::input::Input;
use crate::limits::{
    LENGTH_BYTES, LITTLE_BYTES, MANY_CAME, MANY_KEPT, MOST_IDLE_TICKS, MOST_TICKS,
};
use crate::outcome::{Moved, Seen};
use crate::output::Output;
use crate::pieces::{Front, front_of};
use crate::stage::{Change, Stage};
use crate::whom::{self, Naming, Whom};
use outside::LinkItem;
use ritas_base::{Bytes, Mem};
use std::alloc::Global;

/// Which lists a connection is on.
#[derive(Clone, Copy, Default)]
pub(crate) struct Listed {
    /// Of those that may have bytes to be read.
    pub(crate) reads: bool,
    /// Of those that may take bytes.
    pub(crate) writes: bool,
    /// Of those from which a piece is to be given.
    pub(crate) gives: bool,
    /// Of those that are read to their end.
    drains: bool,
    /// Of those that are looked at every five seconds.
    pub(crate) looks: bool,
    /// Of nodes that aren't written to before a pause is over.
    pub(crate) rests: bool,
}

/// What a connection has to give.
#[derive(Clone, Copy)]
pub(crate) enum Gives {
    /// A piece of a peer or a node.
    Frame,
    /// A piece of a client.
    Message,
    /// No whole piece.
    Nothing,
    /// A length over the most that is allowed.
    TooLong,
}

/// What is known of a connection.
#[derive(Drop)]
pub(crate) struct Side {
    pub(crate) whom: Whom,
    pub(crate) stage: Stage,
    /// Its dial, if it was begun here.
    pub(crate) dial: Option<Dial>,
    /// The other side sends no more, or it failed: the next reads tell.
    pub(crate) is_hung_up: bool,
    /// Something of it was given.
    pub(crate) has_given: bool,
    /// It is a node, and its last piece told nothing new.
    pub(crate) gave_little: bool,
    /// The socket takes no byte until an event says so.
    is_blocked: bool,
    /// The older connection of the same peer that is read to its end first.
    pub(crate) behind: Option<usize>,
    /// The newer one, which waits for that.
    pub(crate) newer: Option<usize>,
    /// How many messages of a client were given that weren't replied.
    owed: usize,
    /// It was fed when it was to be read.
    pub(crate) is_unread: bool,
    /// At how many looks in a row nothing had come, as they are counted.
    pub(crate) looks: u8,
    /// Whether bytes came since the last look.
    pub(crate) has_come: bool,
    /// Whether a piece was kept to go out since the last look.
    pub(crate) has_sent: bool,
    /// How many tenths of a second it is read to its end.
    ticks: u8,
    /// And in how many of these nothing came.
    idle_ticks: u8,
    pub(crate) listed: Listed,
    input: Input,
    output: Output,
}

impl Side {
    /// Of a new connection.
    pub(crate) fn new(alloc: Global, whom: Whom, dial: Option<Dial>) -> Side
        ensures whom { result.whom ≡ whom }
        ensures stage { result.stage ≡ first_stage (is_some dial) }
        ensures dial { result.dial ≡ dial }
        ensures given { result.has_given ≡ false }
        ensures input { result.input ≡ [] }
        ensures output { result.output ≡ [] }
    {
        Side {
            whom,
            stage: Stage::first(dial.is_some()),
            dial,
            is_hung_up: false,
            has_given: false,
            gave_little: false,
            is_blocked: false,
            behind: None,
            newer: None,
            owed: 0,
            is_unread: false,
            looks: 0,
            has_come: false,
            has_sent: false,
            ticks: 0,
            idle_ticks: 0,
            listed: Listed::default(),
            input: Input::new(alloc),
            output: Output::new(alloc),
        }
    }

    /// Something happens to it.
    pub(crate) fn change(&mut self, change: Change)
        ensures { self.new ≡ changed self.old change }
    {
        self.stage = self.stage.after(change);
    }

    // Whether a client that sends no more was replied all that it asked, as far as is known, and took it.
    fn is_replied(&self) -> bool
        ensures { result ≡ is_replied self.now }
    {
        self.stage.is_half() && self.owed == 0 && self.output.rest().is_empty()
    }

    /// Whether it is over or was replied all, and no piece is to be given from it.
    pub(crate) fn is_done(&self) -> bool
        ensures { result ≡ is_side_done self.now }
    {
        (self.stage.is_over() || self.is_replied()) && !self.listed.gives
    }

    /// Begins to read it to its end, if it takes no bytes and wasn't begun with, and says so. What was to go out is let go of.
    pub(crate) fn begin_to_drain(&mut self) -> bool
        ensures is { result ≡ is_drain_due self.old }
        ensures new { self.new ≡ draining self.old }
    {
        if !self.stage.is_draining() || self.listed.drains {
            return false;
        }
        self.listed.drains = true;
        self.output.let_go();
        self.ticks = 0;
        self.idle_ticks = 0;
        true
    }

    /// A tenth of a second passed in which it was read to its end.
    pub(crate) fn tick(&mut self)
        ensures { self.new ≡ ticked self.old }
    {
        if self.behind.is_some() {
            return;
        }
        if self.idle_ticks >= MOST_IDLE_TICKS - 1 || self.ticks >= MOST_TICKS - 1 {
            self.change(Change::Ends);
        } else {
            self.ticks += 1;
            self.idle_ticks += 1;
        }
    }

    /// Whether it takes bytes as far as is known, and no pause is made before it is written to.
    pub(crate) fn is_ready(&self) -> bool
        ensures { result ≡ is_side_ready self.now }
    {
        self.stage.is_written() && !self.is_blocked && !self.listed.rests
    }

    /// Whether a piece may be kept for it.
    pub(crate) fn takes(&self) -> bool
        ensures { result ≡ takes self.now }
    {
        self.stage.is_written() || (self.stage.is_begun() && self.whom.is_node())
    }

    /// The bytes that are to go out.
    pub(crate) fn to_go_out(&self) -> &[u8]
        ensures { result.now ≡ self.now.output }
    {
        self.output.rest()
    }

    /// Whether bytes are to go out.
    pub(crate) fn has_output(&self) -> bool
        ensures { result ≡ nat_lt 0 (length self.now.output) }
    {
        !self.output.rest().is_empty()
    }

    /// Takes it off the list of those that may have bytes to be read, and says whether it is read.
    pub(crate) fn off_readers(&mut self) -> bool
        ensures is { result ≡ is_reading self.old }
        ensures new { self.new ≡ off_readers self.old }
    {
        self.listed.reads = false;
        self.stage.is_read() && self.behind.is_none()
    }

    /// Takes it off the list of those that may take bytes, and says whether it is yet to be seen that it stands.
    pub(crate) fn off_writers(&mut self) -> bool
        ensures is { result ≡ is_begun self.old.stage }
        ensures new { self.new ≡ off_writers self.old }
    {
        self.listed.writes = false;
        self.stage.is_begun()
    }

    /// Takes note of an event.
    pub(crate) fn note(&mut self, seen: Seen)
        ensures { self.new ≡ side_noted self.old seen }
    {
        self.is_hung_up = self.is_hung_up || seen.is_closed;
        self.is_blocked = self.is_blocked && !seen.may_write();
        if self.stage.is_half() && seen.is_broken {
            self.change(Change::Ends);
        }
    }

    /// Whether it is to be written to after an event.
    pub(crate) fn is_write_due(&self, seen: Seen) -> bool
        ensures { result ≡ is_write_due self.now seen }
    {
        seen.may_write() && (self.stage.is_begun() || self.has_output())
    }

    /// Whether so many bytes came that no more are read.
    pub(crate) fn is_fed(&self) -> bool
        ensures { result ≡ is_fed self.now }
    {
        self.input.rest().len() >= MANY_CAME
    }

    /// One read came out so, into a buffer. The one error is want of memory.
    pub(crate) fn read(&mut self, moved: Moved, buffer: &[u8]) -> Result<(), Mem>
        requires { IsWithin (length buffer.now) moved }
        ensures side { OnOk result (self.new ≡ side_read self.old moved buffer.now) }
        ensures memory { OnErr result ((count : _) × (moved ≡ Moved.Bytes count)) }
    {
        match moved {
            Moved::Bytes(count) => {
                self.input.append(&buffer[..count])?;
                self.idle_ticks = 0;
                self.has_come = true;
            }
            Moved::Later | Moved::Again => {}
            Moved::Closed if self.whom.is_client() => self.change(Change::Closes),
            Moved::Closed | Moved::Failed => self.change(Change::Ends),
        }
        Ok(())
    }

    /// One write of what is kept came out so.
    pub(crate) fn wrote(&mut self, moved: Moved)
        requires { IsWithin (length self.old.output) moved }
        ensures { self.new ≡ side_written self.old moved }
    {
        match moved {
            Moved::Bytes(count) => self.output.wrote(count),
            Moved::Later => self.is_blocked = true,
            Moved::Again => {}
            Moved::Closed | Moved::Failed => self.change(Change::Breaks),
        }
    }

    /// Keeps the byte that names the replica which began this connection. The one error is want of memory.
    pub(crate) fn tell(&mut self, number: u8) -> Result<(), Mem>
        ensures { OnOk result (self.new ≡ record self.old { output = self.old.output ++ number ∷ [] }) }
    {
        self.output.push(number)
    }

    /// Keeps a piece to go out. The one error is want of memory.
    pub(crate) fn keep(&mut self, bytes: &[u8]) -> Result<(), Mem>
        requires { length bytes.now < 2 ^ 16 }
        ensures { OnOk result (self.new ≡ piece_kept self.old bytes.now) }
    {
        self.output.append(bytes)?;
        self.owed = self.owed.saturating_sub(1);
        self.has_sent = true;
        Ok(())
    }

    /// Whether so many bytes are kept that they are written at once.
    pub(crate) fn has_much(&self) -> bool
        ensures { result ≡ has_much self.now }
    {
        self.is_ready() && self.output.rest().len() >= MANY_KEPT
    }

    /// It takes no more if too many bytes are kept.
    pub(crate) fn cap(&mut self)
        ensures new { self.new ≡ capped self.old }
        ensures capped { IsCapped self.new }
    {
        if self.output.rest().len() > self.whom.most_kept() {
            self.change(Change::Breaks);
        }
    }

    // What the first byte is answered, at a replica of n.
    fn naming(&self, n: u8) -> Naming
        ensures { result ≡ naming n self.now.whom self.now.input }
    {
        let Whom::Unnamed { at } = self.whom else {
            return Naming::Waits;
        };
        match self.input.rest() {
            [] => Naming::Waits,
            [byte, ..] => match whom::named(n, at, *byte) {
                Some(peer) => Naming::Names { at, peer },
                None => Naming::Closes,
            },
        }
    }

    /// Takes the number that the other side told, if it is asked for and came, at a replica of n. It ends with one that isn't a
    /// peer's.
    pub(crate) fn take_name(&mut self, n: u8) -> Naming
        ensures is { result ≡ naming n self.old.whom self.old.input }
        ensures new { self.new ≡ named self.old result }
    {
        let naming = self.naming(n);
        match naming {
            Naming::Waits => {}
            Naming::Names { at, peer } => {
                self.whom = Whom::Peer { at, peer };
                self.input.take(1);
            }
            Naming::Closes => {
                self.input.take(1);
                self.change(Change::Ends);
            }
        }
        naming
    }

    // What stands at the front of what came.
    fn front(&self) -> Front<'_>
        ensures is { IsFrontAt (most_of self.now.whom) self.now.input result }
        ensures fits { FitsIn self.now.input longest_piece result }
    {
        match self.whom.most() {
            Some(most) => front_of(self.input.rest(), most),
            None => Front::Part,
        }
    }

    /// What it has to give.
    pub(crate) fn gives(&self) -> Gives
        ensures { result ≡ gives_of self.now }
    {
        if self.behind.is_some() {
            return Gives::Nothing;
        }
        match self.front() {
            Front::Piece(_) if self.whom.is_client() => Gives::Message,
            Front::Piece(_) => Gives::Frame,
            Front::Part => Gives::Nothing,
            Front::TooLong => Gives::TooLong,
        }
    }

    /// Takes the piece at the front, if it is whole. The one error is want of memory.
    pub(crate) fn take(&mut self, alloc: Global) -> Result<Option<LinkItem>, Mem>
        ensures size { IfOk result (λ item. IfSome item (λ x. length (bytes_of x) < 2 ^ 16)) }
        ensures open { IfOk result (λ item. IfSome item (λ x. x ≢ LinkItem.End)) }
        ensures item { IfOk result (λ item. item ≡ side_item_taken self.old) }
        ensures rest { OnOk result (self.new ≡ side_taken self.old) }
        ensures memory { OnErr result (is_whole self.old ≡ true) }
    {
        let bytes = match self.front() {
            Front::Piece(bytes) => Bytes::from_slice(alloc, bytes)?,
            Front::Part | Front::TooLong => return Ok(None),
        };
        self.input.take(LENGTH_BYTES + bytes.as_slice().len());
        self.has_given = true;
        self.gave_little = self.whom.is_node() && bytes.as_slice().len() <= LITTLE_BYTES;
        self.owed = self.owed.saturating_add(1);
        Ok(self.whom.item(bytes))
    }
}
