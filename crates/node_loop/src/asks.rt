//! The messages of clients, and the items of a link.
ghost use Rattle.std.specs.Prelude.{◌≡◌, ◌≢◌, ◌++◌, map, None, OnOk, OnErr, MatchOption};
ghost use Rattle.client_port.specs.Messages.{refusal_reply, request_in};
ghost use Rattle.node_loop.specs.Calls.{asked_in, reply};
ghost use Rattle.node_loop.specs.Standing.{bytes_said, reply_by};

use crate::house::House;
use crate::output::{More, Output, Reply, ReplyBytes};
use crate::peers::mark_of;
use crate::refusals::{is_deferred, is_kept, is_opened, refusal_in};
use crate::waiting::Asked;
use client_port::{
    RequestFront, read_front, read_query, read_request, write_piece, write_refusal, write_reply,
};
use keyed_channel::{
    FrameHeader, Note, frame_header, is_note, noted_from_peer, opened_from_peer, opened_parts,
};
use layer_api::{Broadcast, Service};
use outside::LinkItem;
use replica::Refusal;
use ritas_base::{Bytes, Coin, Event, Mem};
use ritas_core::Answer;
use std::alloc::Global;

// The fault of what is no input.
const NO_INPUT: u32 = 8;

// The fault of a request that has no place.
const NO_PLACE: u32 = 7;

/// The request that a message is at a replica; of one that is too short for a request's front the
/// numbers are 0.
pub(crate) fn asked_in(at: u8, bytes: &[u8]) -> Asked
    ensures asked { result ≡ asked_in at bytes.now }
{
    match read_front(bytes) {
        Some(RequestFront { client, request }) => Asked {
            at,
            client,
            request,
        },
        None => Asked {
            at,
            client: 0,
            request: 0,
        },
    }
}

// The request that a message is at a replica, if it is one.
fn request_of(at: u8, bytes: &[u8]) -> Option<Asked>
    ensures asked { MatchOption result
        (request_in bytes.now ≡ None)
        (λ asked. (request_in bytes.now ≢ None) × (asked ≡ asked_in at bytes.now)) }
{
    let request = read_request(bytes)?;
    Some(Asked {
        at,
        client: request.client,
        request: request.request,
    })
}

/// A message of a client to a replica: the request that it is there, the connection by which it
/// came, if there is one, and its bytes.
#[derive(Drop)]
pub(crate) struct Message {
    pub asked: Asked,
    pub conn: Option<u32>,
    pub bytes: Bytes,
}

// Replies so to a connection, if there is one.
fn reply(output: &mut Output, conn: Option<u32>, bytes: ReplyBytes) -> Result<(), Mem>
    ensures replies { (at : _) → OnOk result (map (reply_by at) output.new.replies.items
        ≡ map (reply_by at) output.old.replies.items ++ reply at (bytes_said bytes) conn) }
    ensures memory { OnErr result (conn ≢ None) }
    ensures same { (output.new.at ≡ output.old.at) × (output.new.event ≡ output.old.event)
        × (output.new.frames ≡ output.old.frames)
        × (output.new.more ≡ output.old.more) × (output.new.kept ≡ output.old.kept) }
{
    if let Some(conn) = conn {
        output.replies.push(Reply { conn, bytes })?;
    }
    Ok(())
}

// Replies to a connection, if there is one, that a request is refused for this fault.
fn refuse(output: &mut Output, conn: Option<u32>, asked: Asked, code: u32) -> Result<(), Mem>
    ensures replies { (at : _) → OnOk result (map (reply_by at) output.new.replies.items
        ≡ map (reply_by at) output.old.replies.items
        ++ reply at (refusal_reply asked.client asked.request code) conn) }
    ensures memory { OnErr result (conn ≢ None) }
    ensures same { (output.new.at ≡ output.old.at) × (output.new.event ≡ output.old.event)
        × (output.new.frames ≡ output.old.frames)
        × (output.new.more ≡ output.old.more) × (output.new.kept ≡ output.old.kept) }
{
    let bytes = write_refusal(asked.client, asked.request, code);
    reply(output, conn, ReplyBytes::Short { bytes })
}

impl<S: Service, E: Broadcast, C: Coin + Drop> House<S, E, C> {
    ghost use Rattle.std.specs.Prelude.{◌≡◌, ℕ, ◌<◌, ◌^◌, true, false, List, [], length, None, Some, IfSome, OnOk, OnErr};
    ghost use Rattle.std.specs.List.{slice_get};
    ghost use Rattle.ritas_base.specs.declared.event.Event.{Event};
    ghost use Rattle.ritas_base.specs.declared.event.Event.TheVariants.{Frame};
    ghost use Rattle.outside.specs.Links.{bytes_of};
    ghost use Rattle.command_log.specs.Index.{HaveFourBytes};
    ghost use Rattle.command_log.specs.Rows.{position_of};
    ghost use Rattle.schedule_file.specs.Spelling.{IsSized};
    ghost use Rattle.world_model.specs.World.{Setting, seen_answer};
    ghost use Rattle.world_model.specs.Agree.{rows_at};
    ghost use Rattle.node_loop.specs.Meanings.{meaning_of};
    ghost use Rattle.node_loop.specs.Waiting.{Waiting};
    ghost use Rattle.keyed_channel.specs.Frames.{opening};
    ghost use Rattle.keyed_channel.specs.Notes.{ack_note, is_note, noted};
    ghost use Rattle.outside.specs.declared.link.LinkItem.TheVariants as items;
    ghost use Rattle.node_loop.specs.declared.output.More.TheVariants as mores;
    ghost use Rattle.client_port.specs.Messages.{request_in};
    ghost use Rattle.node_loop.specs.Calls.{event_called, silent, submitted, asked_so, asks_so, queried, asks, if_here, item_does, first_does};
    ghost use Rattle.node_loop.specs.Peers.{Peers, keep_all, marked_early};
    ghost use Rattle.node_loop.specs.Queries.{FitsPiece, ItemFits};
    ghost use Rattle.node_loop.specs.Resending.{nothing_more, mark_at, is_deferred, noted_so, opened_so, item_brings};
    ghost use Rattle.node_loop.specs.Serving.{frames_made_by};
    ghost use Rattle.node_loop.specs.Served.{AreHere, MayBegin};
    ghost use Rattle.node_loop.specs.Standing.{HouseStands, ComesOut, IsEmptyOutput, is_answer_opened};
    ghost use Rattle.node_loop.specs.Wanting.{WaitMayWant, RequestMayWant, MessageMayWant, ItemMayWant};

    /// A message is an input of the replica at a place: what is refused is replied to, and what is
    /// taken waits for its row. The replica may want memory anyhow; that it wants none where memory
    /// is ample is tested (`each_is_replied` of `stack_tests`, `cases/floods`).
    pub(crate) fn submit(
        &mut self,
        alloc: Global,
        place: usize,
        message: Message,
        output: &mut Output,
    ) -> Result<(), Mem>
        ensures comes { let m = meaning_of S.Service E.Broadcast C.Coin in
            (w : Setting) (es : List Event) (numbers : List ℕ) (ws : Waiting) (p : Peers)
            → HouseStands m w es numbers self.old ws p
            → slice_get numbers place ≡ Some output.old.at → IsEmptyOutput output.old
            → message.asked ≡ asked_in output.old.at message.bytes
            → let did = submitted w es output.old.at message.conn message.bytes ws in
            OnOk result (ComesOut m w es numbers self.new output.new did
            (nothing_more (keep_all w.mode.version (frames_made_by w es did.event) p))) }
        ensures sized { length message.bytes < 2 ^ 16
            → OnOk result (IfSome output.new.event IsSized) }
    {
        let Message { asked, conn, bytes } = message;
        let count = self.rows_at(place);
        let event = Event::Input {
            at: output.at,
            bytes,
        };
        let answer = self.give(alloc, place, &event, &mut output.frames)?;
        output.kept = is_kept(&event, answer);
        output.event = Some(event);
        match refusal_in(answer) {
            Some(code) => {
                self.enter(alloc, place, count, output)?;
                let refusal = write_refusal(asked.client, asked.request, code);
                reply(output, conn, ReplyBytes::Short { bytes: refusal })
            }
            None => {
                self.waiting.push(alloc, asked, conn)?;
                self.enter(alloc, place, count, output)
            }
        }
    }

    // The position of a request in the log of the replica at a place.
    fn position_at(&self, place: usize, asked: Asked) -> Option<u32>
        ensures position { let m = meaning_of S.Service E.Broadcast C.Coin in
            (w : Setting) (es : List Event) (numbers : List ℕ) (at : ℕ)
            → AreHere m w es numbers self.now.replicas.items
            → slice_get numbers place ≡ Some at
            → result ≡ position_of (rows_at w es at) asked.client asked.request }
    {
        self.replicas
            .get(place)?
            .log()
            .find(asked.client, asked.request)
    }

    // A request comes to the replica at a place.
    fn ask_for(
        &mut self,
        alloc: Global,
        place: usize,
        message: Message,
        output: &mut Output,
    ) -> Result<(), Mem>
        ensures comes { let m = meaning_of S.Service E.Broadcast C.Coin in
            (w : Setting) (es : List Event) (numbers : List ℕ) (ws : Waiting) (p : Peers)
            → HouseStands m w es numbers self.old ws p
            → slice_get numbers place ≡ Some output.old.at → IsEmptyOutput output.old
            → message.asked ≡ asked_in output.old.at message.bytes
            → let did = asked_so w es output.old.at message.conn message.bytes ws
            (position_of (rows_at w es output.old.at) (asked_in output.old.at message.bytes).client
            (asked_in output.old.at message.bytes).request) in
            OnOk result (ComesOut m w es numbers self.new output.new did
            (nothing_more (keep_all w.mode.version (frames_made_by w es did.event) p))) }
        ensures memory { let m = meaning_of S.Service E.Broadcast C.Coin in
            (w : Setting) (es : List Event) (numbers : List ℕ) (ws : Waiting) (p : Peers)
            → HouseStands m w es numbers self.old ws p
            → slice_get numbers place ≡ Some output.old.at
            → OnErr result (WaitMayWant w es output.old.at message.conn ws message.asked) }
        ensures sized { length message.bytes < 2 ^ 16 → IfSome output.old.event IsSized
            → OnOk result (IfSome output.new.event IsSized) }
    {
        let asked = message.asked;
        if let Some(position) = self.position_at(place, asked) {
            let bytes = write_reply(asked.client, asked.request, position);
            return reply(output, message.conn, ReplyBytes::Short { bytes });
        }
        if self.is_reserved(place, asked.client) {
            return refuse(output, message.conn, asked, NO_INPUT);
        }
        if self.waiting.has(asked) {
            return self.waiting.push(alloc, asked, message.conn);
        }
        if self.is_crowded(place) {
            return refuse(output, message.conn, asked, NO_PLACE);
        }
        self.submit(alloc, place, message, output)
    }

    // A query comes to the replica at a place: a connection is given the piece of its log from a
    // position on. The one error is want of memory, for which a piece may ask anyhow; that it asks
    // for none where memory is ample is tested (`observing` of `base_tests`, `cases/watch`).
    fn query(
        &self,
        alloc: Global,
        place: usize,
        conn: Option<u32>,
        position: u32,
        output: &mut Output,
    ) -> Result<(), Mem>
        ensures comes { let m = meaning_of S.Service E.Broadcast C.Coin in
            (w : Setting) (es : List Event) (numbers : List ℕ) (ws : Waiting) (p : Peers)
            → HouseStands m w es numbers self.now ws p
            → slice_get numbers place ≡ Some output.old.at → IsEmptyOutput output.old
            → OnOk result (ComesOut m w es numbers self.now output.new
            (queried w es output.old.at conn position ws) (nothing_more p)) }
        ensures fits { let m = meaning_of S.Service E.Broadcast C.Coin in
            (w : Setting) (es : List Event) (numbers : List ℕ)
            → AreHere m w es numbers self.now.replicas.items
            → slice_get numbers place ≡ Some output.old.at
            → (position < 4294967296) × HaveFourBytes (rows_at w es output.old.at) }
        ensures memory { OnErr result (place < length self.now.replicas.items) }
        ensures none { OnOk result (output.new.event ≡ output.old.event) }
    {
        let Some(replica) = self.replicas.get(place) else {
            // There is no such place.
            return Ok(());
        };
        let log = replica.log();
        log.numbers_fit();
        let piece = write_piece(alloc, log, position)?;
        reply(output, conn, ReplyBytes::Piece { bytes: piece })
    }

    // A message that is no query comes to the replica at a place. The one error is want of memory.
    fn request(
        &mut self,
        alloc: Global,
        place: usize,
        conn: Option<u32>,
        bytes: Bytes,
        output: &mut Output,
    ) -> Result<(), Mem>
        ensures comes { let m = meaning_of S.Service E.Broadcast C.Coin in
            (w : Setting) (es : List Event) (numbers : List ℕ) (ws : Waiting) (p : Peers)
            → HouseStands m w es numbers self.old ws p
            → slice_get numbers place ≡ Some output.old.at → IsEmptyOutput output.old
            → let did = asks_so w es output.old.at conn bytes ws (request_in bytes) in
            OnOk result (ComesOut m w es numbers self.new output.new did
            (nothing_more (keep_all w.mode.version (frames_made_by w es did.event) p))) }
        ensures memory { let m = meaning_of S.Service E.Broadcast C.Coin in
            (w : Setting) (es : List Event) (numbers : List ℕ) (ws : Waiting) (p : Peers)
            → HouseStands m w es numbers self.old ws p
            → slice_get numbers place ≡ Some output.old.at
            → OnErr result (RequestMayWant w es output.old.at conn bytes ws (request_in bytes)) }
        ensures sized { length bytes < 2 ^ 16 → IfSome output.old.event IsSized
            → OnOk result (IfSome output.new.event IsSized) }
    {
        let at = output.at;
        match request_of(at, bytes.as_slice()) {
            Some(asked) => self.ask_for(alloc, place, Message { asked, conn, bytes }, output),
            None => {
                let asked = asked_in(at, bytes.as_slice());
                self.submit(alloc, place, Message { asked, conn, bytes }, output)
            }
        }
    }

    // A client's message comes to a replica, if that is here. The one error is want of memory.
    fn ask(
        &mut self,
        alloc: Global,
        at: u8,
        conn: Option<u32>,
        bytes: Bytes,
        output: &mut Output,
    ) -> Result<(), Mem>
        ensures comes { let m = meaning_of S.Service E.Broadcast C.Coin in
            (w : Setting) (es : List Event) (numbers : List ℕ) (ws : Waiting) (p : Peers)
            → HouseStands m w es numbers self.old ws p
            → let did = if_here w at (asks w es at conn bytes ws) ws in
            OnOk result (ComesOut m w es numbers self.new output.new did
            (nothing_more (keep_all w.mode.version (frames_made_by w es did.event) p))) }
        ensures memory { let m = meaning_of S.Service E.Broadcast C.Coin in
            (w : Setting) (es : List Event) (numbers : List ℕ) (ws : Waiting) (p : Peers)
            → HouseStands m w es numbers self.old ws p
            → OnErr result (MessageMayWant w es at conn bytes ws) }
        ensures fits { let m = meaning_of S.Service E.Broadcast C.Coin in
            (w : Setting) (es : List Event) (numbers : List ℕ)
            → AreHere m w es numbers self.old.replicas.items
            → FitsPiece w es at bytes }
        ensures sized { length bytes < 2 ^ 16 → OnOk result (IfSome output.new.event IsSized) }
    {
        output.clear(at);
        let Some(place) = self.place_of(at) else {
            return Ok(());
        };
        match read_query(bytes.as_slice()) {
            Some(position) => self.query(alloc, place, conn, position, output),
            None => self.request(alloc, place, conn, bytes, output),
        }
    }

    // A note comes to the replica at a place: what is acknowledged isn't kept any more, and where it
    // was the last of a batch the next one is to go out; or what is kept is to go out again.
    fn note(&mut self, place: usize, bytes: &[u8], output: &mut Output)
        ensures comes { let m = meaning_of S.Service E.Broadcast C.Coin in
            (w : Setting) (es : List Event) (numbers : List ℕ) (ws : Waiting) (p : Peers)
            → HouseStands m w es numbers self.old ws p
            → slice_get numbers place ≡ Some output.old.at → IsEmptyOutput output.old
            → ComesOut m w es numbers self.new output.new (silent [] ws)
            (noted_so w.mode.version output.old.at p (noted (w.keys output.old.at) bytes.now)) }
        ensures none { output.new.event ≡ output.old.event }
    {
        noted_from_peer();
        let Some(replica) = self.replicas.get(place) else {
            return;
        };
        match replica.channel().open_note(bytes) {
            Some(Note::Ack { from, seq }) => {
                if let Some(keeper) = self.keepers.get_mut(place) {
                    output.more = keeper.acked(from, seq);
                }
            }
            Some(Note::Again { from, seq }) => {
                if let Some(keeper) = self.keepers.get_mut(place) {
                    output.more = keeper.asked(from, seq);
                }
            }
            None => {}
        }
    }

    // The sender of a frame that came too early is marked at the replica at a place, as that
    // stands now.
    fn mark(&mut self, place: usize, frame: FrameHeader)
        ensures marks { let m = meaning_of S.Service E.Broadcast C.Coin in
            (w : Setting) (es : List Event) (numbers : List ℕ) (ws : Waiting) (p : Peers) (at : ℕ)
            → HouseStands m w es numbers self.old ws p
            → slice_get numbers place ≡ Some at
            → HouseStands m w es numbers self.new ws
            (marked_early at frame.from frame.seq (mark_at w es at frame.from) p) }
    {
        if let Some(replica) = self.replicas.get(place) {
            let mark = mark_of(replica, frame.from);
            if let Some(keeper) = self.keepers.get_mut(place) {
                keeper.mark(frame.from, mark, frame.seq);
            }
        }
    }

    // The note that the replica at a place took the frame of this number is to go to its sender.
    fn acknowledge(&self, place: usize, frame: FrameHeader, output: &mut Output)
        ensures note { let m = meaning_of S.Service E.Broadcast C.Coin in
            (w : Setting) (es : List Event) (numbers : List ℕ) (at : ℕ)
            → AreHere m w es numbers self.now.replicas.items
            → slice_get numbers place ≡ Some at
            → frame.from < w.numbers.n
            → output.new.more ≡ mores.Note frame.from (ack_note (w.keys at) frame.from frame.seq) }
        ensures same { (output.new.at ≡ output.old.at) × (output.new.event ≡ output.old.event)
            × (output.new.frames ≡ output.old.frames)
            × (output.new.replies ≡ output.old.replies) × (output.new.kept ≡ output.old.kept) }
    {
        if let Some(replica) = self.replicas.get(place) {
            let channel = replica.channel();
            if frame.from < channel.keys().n() {
                output.more = More::Note {
                    peer: frame.from,
                    bytes: channel.seal_ack(frame.from, frame.seq),
                };
            }
        }
    }

    // What a frame was answered is for its sender: where it opened, that it was taken, or a mark
    // where it is to come again.
    fn respond(
        &mut self,
        place: usize,
        carried: Option<FrameHeader>,
        answer: Result<Answer, Refusal>,
        output: &mut Output,
    )
        ensures none { is_answer_opened answer ≡ false → (self.new ≡ self.old)
            × (output.new.more ≡ output.old.more) }
        ensures marks { let m = meaning_of S.Service E.Broadcast C.Coin in
            (w : Setting) (es : List Event) (numbers : List ℕ) (ws : Waiting) (p : Peers) (at : ℕ)
            → HouseStands m w es numbers self.old ws p
            → slice_get numbers place ≡ Some at → is_answer_opened answer ≡ true
            → is_deferred (seen_answer answer) ≡ true
            → IfSome carried (λ frame. HouseStands m w es numbers self.new ws
            (marked_early at frame.from frame.seq (mark_at w es at frame.from) p)
            × (output.new.more ≡ output.old.more)) }
        ensures takes { let m = meaning_of S.Service E.Broadcast C.Coin in
            (w : Setting) (es : List Event) (numbers : List ℕ) (at : ℕ)
            → AreHere m w es numbers self.old.replicas.items
            → slice_get numbers place ≡ Some at → is_answer_opened answer ≡ true
            → is_deferred (seen_answer answer) ≡ false
            → IfSome carried (λ frame. frame.from < w.numbers.n
            → (self.new ≡ self.old)
            × (output.new.more ≡ mores.Note frame.from
            (ack_note (w.keys at) frame.from frame.seq))) }
        ensures same { (output.new.at ≡ output.old.at) × (output.new.event ≡ output.old.event)
            × (output.new.frames ≡ output.old.frames)
            × (output.new.replies ≡ output.old.replies) × (output.new.kept ≡ output.old.kept) }
    {
        match carried {
            Some(frame) if is_opened(answer) => {
                if is_deferred(answer) {
                    self.mark(place, frame);
                } else {
                    self.acknowledge(place, frame, output);
                }
            }
            _ => {}
        }
    }

    // A frame comes to the replica at a place. Where it opens its sender is told that it was taken,
    // or is marked where it is to come again.
    fn frame(
        &mut self,
        alloc: Global,
        place: usize,
        bytes: Bytes,
        output: &mut Output,
    ) -> Result<(), Mem>
        ensures comes { let m = meaning_of S.Service E.Broadcast C.Coin in
            (w : Setting) (es : List Event) (numbers : List ℕ) (ws : Waiting) (p : Peers) (at : ℕ)
            → HouseStands m w es numbers self.old ws p
            → at ≡ output.old.at → slice_get numbers place ≡ Some at → IsEmptyOutput output.old
            → OnOk result (ComesOut m w es numbers self.new output.new
            (event_called w es at (Frame at bytes) ws)
            (opened_so w es at bytes (keep_all w.mode.version (frames_made_by w es (Some (Frame at bytes))) p)
            (opening (w.keys at) bytes))) }
        ensures sized { length bytes < 2 ^ 16 → OnOk result (IfSome output.new.event IsSized) }
    {
        opened_parts();
        opened_from_peer();
        let count = self.rows_at(place);
        let carried = frame_header(bytes.as_slice());
        let event = Event::Frame {
            to: output.at,
            bytes,
        };
        let answer = self.give(alloc, place, &event, &mut output.frames)?;
        output.kept = is_kept(&event, answer);
        output.event = Some(event);
        self.respond(place, carried, answer, output);
        self.enter(alloc, place, count, output)
    }

    // A frame or a note comes to a replica, if that is here. The one error is want of memory.
    fn hear(&mut self, alloc: Global, to: u8, bytes: Bytes, output: &mut Output) -> Result<(), Mem>
        ensures comes { let m = meaning_of S.Service E.Broadcast C.Coin in
            (w : Setting) (es : List Event) (numbers : List ℕ) (ws : Waiting) (p : Peers)
            → HouseStands m w es numbers self.old ws p
            → let did = item_does w es (items.Frame to bytes) ws in
            OnOk result (ComesOut m w es numbers self.new output.new did
            (item_brings w es (items.Frame to bytes)
            (keep_all w.mode.version (frames_made_by w es did.event) p))) }
        ensures memory { let m = meaning_of S.Service E.Broadcast C.Coin in
            (w : Setting) (es : List Event) (numbers : List ℕ)
            → AreHere m w es numbers self.old.replicas.items
            → OnErr result ((w.is_correct to ≡ true) × (is_note bytes ≡ false)) }
        ensures sized { length bytes < 2 ^ 16 → OnOk result (IfSome output.new.event IsSized) }
    {
        output.clear(to);
        let Some(place) = self.place_of(to) else {
            return Ok(());
        };
        if is_note(bytes.as_slice()) {
            self.note(place, bytes.as_slice(), output);
            return Ok(());
        }
        self.frame(alloc, place, bytes, output)
    }

    // A peer of a replica has a connection: what is kept for it is to go out again, all of it or a
    // first batch.
    fn up(&mut self, at: u8, peer: u8, output: &mut Output)
        ensures comes { let m = meaning_of S.Service E.Broadcast C.Coin in
            (w : Setting) (es : List Event) (numbers : List ℕ) (ws : Waiting) (p : Peers)
            → HouseStands m w es numbers self.old ws p
            → ComesOut m w es numbers self.new output.new (silent [] ws)
            (item_brings w es (items.Up at peer) p) }
        ensures none { output.new.event ≡ None }
    {
        output.clear(at);
        let Some(place) = self.place_of(at) else {
            return;
        };
        if let Some(keeper) = self.keepers.get_mut(place) {
            output.more = keeper.connected(peer);
        }
    }

    /// An item that the link gave. The one error is want of memory.
    pub(crate) fn take(
        &mut self,
        alloc: Global,
        item: LinkItem,
        output: &mut Output,
    ) -> Result<(), Mem>
        requires short { length (bytes_of item) < 2 ^ 16 }
        ensures comes { let m = meaning_of S.Service E.Broadcast C.Coin in
            (w : Setting) (es : List Event) (numbers : List ℕ) (ws : Waiting) (p : Peers)
            → HouseStands m w es numbers self.old ws p
            → let did = item_does w es item ws in
            OnOk result (ComesOut m w es numbers self.new output.new did
            (item_brings w es item (keep_all w.mode.version (frames_made_by w es did.event) p))) }
        ensures memory { let m = meaning_of S.Service E.Broadcast C.Coin in
            (w : Setting) (es : List Event) (numbers : List ℕ) (ws : Waiting) (p : Peers)
            → HouseStands m w es numbers self.old ws p
            → OnErr result (ItemMayWant w es item ws) }
        ensures fits { let m = meaning_of S.Service E.Broadcast C.Coin in
            (w : Setting) (es : List Event) (numbers : List ℕ)
            → AreHere m w es numbers self.old.replicas.items
            → ItemFits w es item }
        ensures sized { OnOk result (IfSome output.new.event IsSized) }
    {
        match item {
            LinkItem::Frame { to, bytes } => self.hear(alloc, to, bytes, output),
            LinkItem::Client { at, conn, bytes } => self.ask(alloc, at, Some(conn), bytes, output),
            LinkItem::Up { at, peer } => {
                self.up(at, peer, output);
                Ok(())
            }
            LinkItem::Left { at, conn } => {
                output.clear(at);
                self.waiting.leave(at, conn);
                Ok(())
            }
            _ => {
                output.clear(0);
                Ok(())
            }
        }
    }

    /// One of the items with which serving begins, which gets no reply. The one error is want of
    /// memory.
    pub(crate) fn begin(
        &mut self,
        alloc: Global,
        item: &LinkItem,
        output: &mut Output,
    ) -> Result<(), Mem>
        requires first { MayBegin item.now }
        ensures comes { let m = meaning_of S.Service E.Broadcast C.Coin in
            (w : Setting) (es : List Event) (numbers : List ℕ) (ws : Waiting) (p : Peers)
            → HouseStands m w es numbers self.old ws p
            → let did = first_does w es item.now ws in
            OnOk result (ComesOut m w es numbers self.new output.new did
            (nothing_more (keep_all w.mode.version (frames_made_by w es did.event) p))) }
        ensures sized { OnOk result (IfSome output.new.event IsSized) }
    {
        match item {
            LinkItem::Client { at, bytes, .. } => {
                let copy = bytes.copy(alloc)?;
                self.ask(alloc, *at, None, copy, output)
            }
            _ => {
                output.clear(0);
                Ok(())
            }
        }
    }
}
