//! The pieces of a connection that are given, and their place in the order in which a link gives.

ghost use Rattle.std.specs.Prelude.{◌≡◌, ◌≢◌, ◌<◌, ◌^◌, true, false, IfOk, IfSome, OnOk, OnErr, length};
ghost use Rattle.outside.specs.Links.{bytes_of};
ghost use Rattle.tcp_link.specs.Sides.{gives_of, has_piece, is_whole, side_item_taken, with_gives, off_given, side_listed, queue_listed, side_given, queue_given};

use crate::agenda::Agenda;
use crate::side::{Gives, Side};
use crate::stage::Change;
use outside::LinkItem;
use ritas_base::Mem;
use std::alloc::Global;

impl Side {
    // It is put among those that have pieces, or ends, by what it has to give.
    fn set_gives(&mut self, gives: Gives)
        ensures { self.new ≡ side_listed self.old gives }
    {
        match gives {
            Gives::Frame | Gives::Message => self.listed.gives = true,
            Gives::Nothing => {}
            Gives::TooLong => self.change(Change::Ends),
        }
    }

    /// Puts a connection among those that have pieces, if it has one and isn't there. With a length that isn't allowed it ends.
    /// The one error is want of memory.
    pub(crate) fn list_piece(&mut self, agenda: &mut Agenda, token: usize) -> Result<(), Mem>
        ensures side { OnOk result (self.new ≡ side_listed self.old (gives_of self.old)) }
        ensures agenda { OnOk result (agenda.new ≡ queue_listed agenda.old self.old.listed.gives token (gives_of self.old)) }
        ensures memory { OnErr result ((self.old.listed.gives ≡ false)
            × (has_piece (gives_of self.old) ≡ true)) }
    {
        let gives = self.gives();
        if !self.listed.gives {
            match gives {
                Gives::Frame => agenda.add_frame(token)?,
                Gives::Message => agenda.add_message(token)?,
                Gives::Nothing | Gives::TooLong => {}
            }
        }
        self.set_gives(gives);
        Ok(())
    }

    // Takes the piece of a connection that came next.
    fn take_listed(&mut self, alloc: Global) -> Result<Option<LinkItem>, Mem>
        ensures size { IfOk result (λ item. IfSome item (λ x. length (bytes_of x) < 2 ^ 16)) }
        ensures open { IfOk result (λ item. IfSome item (λ x. x ≢ LinkItem.End)) }
        ensures item { IfOk result (λ item. item ≡ side_item_taken self.old) }
        ensures side { OnOk result (self.new ≡ off_given self.old) }
        ensures memory { OnErr result (is_whole self.old ≡ true) }
    {
        self.listed.gives = false;
        self.take(alloc)
    }

    /// Gives the piece of a connection that came next. With one more it is listed again: of a peer or a node as the first, of a client
    /// for a later turn. The one error is want of memory.
    pub(crate) fn give(
        &mut self,
        alloc: Global,
        agenda: &mut Agenda,
        token: usize,
    ) -> Result<Option<LinkItem>, Mem>
        ensures size { IfOk result (λ item. IfSome item (λ x. length (bytes_of x) < 2 ^ 16)) }
        ensures open { IfOk result (λ item. IfSome item (λ x. x ≢ LinkItem.End)) }
        ensures item { IfOk result (λ item. item ≡ side_item_taken self.old) }
        ensures side { OnOk result (self.new ≡ side_given self.old) }
        ensures memory { OnErr result (is_whole self.old ≡ true) }
        ensures agenda { OnOk result (agenda.new ≡ queue_given agenda.old token (gives_of (off_given self.old))) }
    {
        let item = self.take_listed(alloc)?;
        let gives = self.gives();
        match gives {
            Gives::Frame => agenda.add_frame_first(token)?,
            Gives::Message => agenda.add_message(token)?,
            Gives::Nothing | Gives::TooLong => {}
        }
        self.set_gives(gives);
        Ok(item)
    }
}
