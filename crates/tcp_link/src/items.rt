//! The items that a link gives.

ghost use Rattle.std.specs.Prelude.{◌≡◌, ◌≢◌, ◌<◌, ◌^◌, ◌&&◌, ◌==◌, not, nat_lt, IfOk, IfSome, OnErr, Ok, Some, None, length};
ghost use Rattle.tcp_link.specs.Connections.{conn_at};
ghost use Rattle.slab.specs.Slab.{slab_len};
ghost use Rattle.outside.specs.Links.{bytes_of};
ghost use Rattle.tcp_link.specs.Names.{item_told};
ghost use Rattle.tcp_link.specs.Queues.{next_of};

use crate::agenda::Next;
use crate::sockets::Sockets;
use outside::LinkItem;
use ritas_base::Mem;
use std::alloc::Global;

impl Sockets {
    // The piece of a connection that came next. It is closed if it is over and has no more.
    fn take_from(&mut self, alloc: Global, token: usize) -> Result<Option<LinkItem>, Mem>
        ensures memory { OnErr result (conn_at self.old.conns.places token ≢ None) }
        ensures size { IfOk result (λ item. IfSome item (λ x. length (bytes_of x) < 2 ^ 16)) }
        ensures open { IfOk result (λ item. IfSome item (λ x. x ≢ LinkItem.End)) }
    {
        let Some(conn) = self.conns.get_mut(token) else {
            // It is gone.
            return Ok(None);
        };
        let item = conn.side.give(alloc, &mut self.agenda, token)?;
        conn.side.rest(&mut self.retries, token)?;
        if conn.side.take_unread() {
            self.readers.add(&mut conn.side, token)?;
        }
        self.retries.worked();
        self.settle(token)?;
        Ok(item)
    }

    // The item that comes next, if its connection still has it.
    fn take_next(&mut self, alloc: Global, next: Next) -> Result<Option<LinkItem>, Mem>
        ensures told { (news : _) → next ≡ Next.Told news → result ≡ Ok (Some (item_told news)) }
        ensures size { IfOk result (λ item. IfSome item (λ x. length (bytes_of x) < 2 ^ 16)) }
        ensures open { IfOk result (λ item. IfSome item (λ x. x ≢ LinkItem.End)) }
    {
        match next {
            Next::Told(news) => Ok(Some(news.item())),
            Next::Frame(token) | Next::Message(token) => self.take_from(alloc, token),
        }
    }

    /// Whether no item follows: a client's link ends once it has no connection left, and that was told of each.
    pub(crate) fn is_at_end(&self) -> bool
        ensures { result ≡ (self.now.is_client && (slab_len self.now.conns.places == 0) && not (nat_lt 0 (length self.now.agenda.news))) }
    {
        self.is_client && self.conns.is_empty() && !self.agenda.has_news()
    }

    /// The next item that came, if there is one. The one error is want of memory.
    pub(crate) fn take_item(&mut self, alloc: Global) -> Result<Option<LinkItem>, Mem>
        ensures none { next_of self.old.agenda ≡ None → result ≡ Ok None }
        ensures size { IfOk result (λ item. IfSome item (λ x. length (bytes_of x) < 2 ^ 16)) }
        ensures open { IfOk result (λ item. IfSome item (λ x. x ≢ LinkItem.End)) }
    {
        for _ in 0..self.agenda.len() {
            let Some(next) = self.agenda.next() else {
                break;
            };
            let item = self.take_next(alloc, next)?;
            if item.is_some() {
                return Ok(item);
            }
        }
        Ok(None)
    }
}
