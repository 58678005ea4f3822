//! What a link is to give, in the order in which it is given.

ghost use Rattle.std.specs.Prelude.{◌≡◌, ◌≢◌, ◌++◌, ◌∷◌, [], None, OnOk, OnErr, length, drop, nat_lt, slice_get};
ghost use Rattle.tcp_link.specs.Queues.{Queue, empty_queue, next_of, without_next, with_news, with_told, with_frame_last, with_frame_first, with_message, in_turn};

use crate::limits::MESSAGES_A_TURN;
use crate::news::News;
use ritas_base::Mem;
use std::alloc::Global;
use std::collections::VecDeque;
use std::marker::Model;

/// What is given next.
#[derive(Clone, Copy)]
pub(crate) enum Next {
    /// News of a connection.
    Told(News),
    /// A piece of a peer or a node, by the connection of this token.
    Frame(usize),
    /// A piece of a client.
    Message(usize),
}

/// What is to be given: news, then frames, then one message of each client that has one in this turn. Connections
/// stand here by their tokens.
#[derive(Drop)]
pub(crate) struct Agenda {
    news: VecDeque<News>,
    frames: VecDeque<usize>,
    messages: VecDeque<usize>,
    /// How many messages are still given in this turn.
    messages_due: usize,
}

impl Model for Agenda {
    ghost use Rattle.std.specs.Prelude.{◌≤◌, take, drop, length};
    ghost use Rattle.tcp_link.specs.Queues.{Queue};

    ghost Value = { Queue };

    ghost view = { λ a. record {
      news = a.news.items;
      frames = a.frames.items;
      due = take a.messages_due a.messages.items;
      later = drop a.messages_due a.messages.items;
    } };

    ghost invariant = { λ a. a.messages_due ≤ length a.messages.items };
}

impl Agenda {
    /// Nothing is to be given.
    pub(crate) fn new(alloc: Global) -> Agenda
        ensures { result ≡ empty_queue }
    {
        Agenda {
            news: VecDeque::new(alloc),
            frames: VecDeque::new(alloc),
            messages: VecDeque::new(alloc),
            messages_due: 0,
        }
    }

    /// Whether news is to be given.
    pub(crate) fn has_news(&self) -> bool
        ensures { result ≡ nat_lt 0 (length self.now.news) }
    {
        !self.news.is_empty()
    }

    /// How often something may come next at most, before something is put here.
    pub(crate) fn len(&self) -> usize {
        let pieces = self.frames.len().saturating_add(self.messages.len());
        pieces.saturating_add(self.news.len())
    }

    /// There is news. The one error is want of memory.
    pub(crate) fn add_news(&mut self, news: News) -> Result<(), Mem>
        ensures { OnOk result (self.new ≡ with_news self.old news) }
    {
        self.news.push_back(news)?;
        Ok(())
    }

    /// There is this news, if any. The one error is want of memory.
    pub(crate) fn add_told(&mut self, told: Option<News>) -> Result<(), Mem>
        ensures told { OnOk result (self.new ≡ with_told self.old told) }
        ensures memory { OnErr result (told ≢ None) }
    {
        match told {
            Some(news) => self.add_news(news),
            None => Ok(()),
        }
    }

    /// A connection of a peer or a node has a piece. The one error is want of memory.
    pub(crate) fn add_frame(&mut self, token: usize) -> Result<(), Mem>
        ensures { OnOk result (self.new ≡ with_frame_last self.old token) }
    {
        self.frames.push_back(token)?;
        Ok(())
    }

    /// It has one more, which comes next. The one error is want of memory.
    pub(crate) fn add_frame_first(&mut self, token: usize) -> Result<(), Mem>
        ensures { OnOk result (self.new ≡ with_frame_first self.old token) }
    {
        self.frames.push_front(token)?;
        Ok(())
    }

    /// A client's connection has a piece, or one more: for a later turn. The one error is want of memory.
    pub(crate) fn add_message(&mut self, token: usize) -> Result<(), Mem>
        ensures { OnOk result (self.new ≡ with_message self.old token) }
    {
        self.messages.push_back(token)?;
        Ok(())
    }

    /// A turn begins.
    pub(crate) fn begin_turn(&mut self)
        ensures { self.new ≡ in_turn self.old }
    {
        self.messages_due = self.messages.len().min(MESSAGES_A_TURN);
    }

    // The next message of this turn.
    fn next_message(&mut self) -> Option<usize>
        ensures next { result ≡ slice_get self.old.due 0 }
        ensures rest { self.new ≡ record self.old { due = drop 1 self.old.due } }
    {
        if self.messages_due == 0 {
            return None;
        }
        let token = self.messages.pop_front()?;
        self.messages_due -= 1;
        Some(token)
    }

    /// Takes what comes next.
    pub(crate) fn next(&mut self) -> Option<Next>
        ensures next { result ≡ next_of self.old }
        ensures rest { self.new ≡ without_next self.old result }
    {
        if let Some(news) = self.news.pop_front() {
            return Some(Next::Told(news));
        }
        if let Some(token) = self.frames.pop_front() {
            return Some(Next::Frame(token));
        }
        match self.next_message() {
            Some(token) => Some(Next::Message(token)),
            None => None,
        }
    }
}
