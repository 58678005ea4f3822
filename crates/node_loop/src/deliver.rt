//! What a tape and a link are given.
ghost use Rattle.std.specs.Prelude.{◌≡◌, ℕ, ◌<◌, ◌==◌, ◌++◌, ◌∷◌, List, length, map, [], true, IfSome, IfErr, OnOk, OnErr, MatchOption};
ghost use Rattle.std.specs.List.{AllByRecursion, Any};
ghost use Rattle.ritas_base.specs.declared.event.Event.{Event};
ghost use Rattle.outside.specs.LinkCalls.{each_act};
ghost use Rattle.outside.specs.Links.{LinkAct, Replies};
ghost use Rattle.ritas_base.specs.declared.mode.FrameVersion.{FrameVersion};
ghost use Rattle.link_resume.specs.Lists.{kept_for};
ghost use Rattle.schedule_file.specs.Spelling.{IsSized};
ghost use Rattle.world_model.specs.World.{Setting};
ghost use Rattle.node_loop.specs.Meanings.{meaning_of};
ghost use Rattle.node_loop.specs.Calls.{Outcome};
ghost use Rattle.node_loop.specs.Waiting.{Waiting};
ghost use Rattle.node_loop.specs.Peers.{Peers, keep_all};
ghost use Rattle.node_loop.specs.PeersStanding.{AreKept, kept_by, made_as};
ghost use Rattle.node_loop.specs.declared.output.Part.{Part as APart};
ghost use Rattle.node_loop.specs.Deeds.{sends};
ghost use Rattle.node_loop.specs.Resending.{Brought, part_of};
ghost use Rattle.node_loop.specs.Outs.{Outs, Tells, Agrees, StepsInOrder, events_text, LinkTook};
ghost use Rattle.node_loop.specs.Serving.{Serving, Round, so_far, onto, at_call, outcome, brought, after_from};
ghost use Rattle.node_loop.specs.Standing.{HouseStands, ComesOut, IsMore, IsMoreNow, frame_by, reply_by};
ghost use Rattle.node_loop.specs.Groups.{FitsPeers, GroupHolds, JoinsGroup, Under, more_by, acts_by, acts_each};
ghost use Rattle.node_loop.specs.Running.{IsOfTape};

use crate::archive::Archive;
use crate::end::Fault;
use crate::group::Group;
use crate::house::House;
use crate::output::{More, Output, Part, Reply};
use crate::peers::keep;
use crate::server::Server;
use keyed_channel::LazyFrame;
use layer_api::{Broadcast, Service};
use link_resume::{Batch, Resume};
use outside::{Link, LinkFault, Sink, write_all};
use replica::OutFrame;
use ritas_base::{Coin, Event, Mem};
use std::alloc::Global;
use std::net::Net;
use std::sync::Wait;

// Keeps these frames of a replica for their peers, in order. The one error is want of memory.
fn keep_each(resume: &mut Resume, frames: &[OutFrame<LazyFrame>]) -> Result<(), Mem>
    ensures keeps { (v : FrameVersion) (n i k : ℕ) (p : Peers) → AreKept v n i resume.old p.keeping
        → OnOk result (AreKept v n i resume.new (keep_all v (map (made_as k i) frames.now) p).keeping) }
    // Memory may run out only over a frame of a peer.
    ensures memory { (v : FrameVersion) (n i k : ℕ) (p : Peers) → AreKept v n i resume.old p.keeping
        → OnErr result (Any (λ f. f.to < n) frames.now) }
{
    for frame in frames {
        keep(resume, frame.to, &frame.bytes)?;
    }
    Ok(())
}

// Keeps the frames that came for their peers. The one error is want of memory.
fn keep_frames<S: Service, E: Broadcast, C: Coin + Drop>(
    house: &mut House<S, E, C>,
    output: &Output,
) -> Result<(), Mem>
    ensures keeps { let m = meaning_of S.Service E.Broadcast C.Coin in
        (w : Setting) (es : List Event) (numbers : List ℕ) (did : Outcome) (more : Brought)
        → ComesOut m w es numbers house.old output.now did more
        → OnOk result (HouseStands m w (onto did.event es) numbers house.new did.waiting more.peers) }
    // Memory may run out only where a replica that is here has a frame for a peer.
    ensures memory { let m = meaning_of S.Service E.Broadcast C.Coin in
        (w : Setting) (es : List Event) (numbers : List ℕ) (did : Outcome) (more : Brought)
        → ComesOut m w es numbers house.old output.now did more
        → OnErr result ((w.is_correct output.now.at ≡ true)
        × Any (λ f. f.to < w.numbers.n) output.now.frames.items) }
{
    let Some(place) = house.place_of(output.at) else {
        // Nothing comes of what is for a replica that isn't here.
        return Ok(());
    };
    match house.keepers.get_mut(place) {
        Some(keeper) => keep_each(&mut keeper.resume, output.frames.as_slice()),
        None => Ok(()),
    }
}

// Sends a frame of a replica, whose tag is computed now.
fn send_frame<R: Net + Wait, L: Link>(
    rt: &R,
    alloc: Global,
    link: &mut L,
    at: u8,
    to: u8,
    frame: &LazyFrame,
) -> Result<(), LinkFault>
    ensures sends { LinkTook L.Link (sends at to frame.now ∷ []) link.old link.new result }
{
    let bytes = frame.to_bytes(alloc)?;
    link.send(rt, alloc, at, to, bytes.as_slice())
}

// Sends the frames of a replica, in order.
fn send_all<R: Net + Wait, L: Link>(
    rt: &R,
    alloc: Global,
    link: &mut L,
    at: u8,
    frames: &[OutFrame<LazyFrame>],
) -> Result<(), LinkFault>
    ensures sends { LinkTook L.Link (each_act (frame_by at) frames.now) link.old link.new result }
{
    for frame in frames {
        send_frame(rt, alloc, link, at, frame.to, &frame.bytes)?;
    }
    Ok(())
}

// Sends all that is kept for a peer again, the oldest first.
fn send_kept<R: Net + Wait, L: Link>(
    rt: &R,
    alloc: Global,
    link: &mut L,
    at: u8,
    resume: &Resume,
    peer: u8,
) -> Result<(), LinkFault>
    requires peer { peer < length resume.now.lists }
    ensures sends { LinkTook L.Link (each_act (kept_by at peer) (kept_for resume.now.lists peer)) link.old link.new result }
{
    for kept in resume.frames(peer) {
        send_frame(rt, alloc, link, at, peer, &kept.frame)?;
    }
    Ok(())
}

// Sends a batch again, the oldest frame first.
fn send_batch<R: Net + Wait, L: Link>(
    rt: &R,
    alloc: Global,
    link: &mut L,
    at: u8,
    peer: u8,
    mut batch: Batch<'_>,
) -> Result<(), LinkFault>
    ensures sends { LinkTook L.Link (each_act (kept_by at peer) batch.entry) link.old link.new result }
{
    while let Some(kept) = batch.next_frame() {
        send_frame(rt, alloc, link, at, peer, &kept.frame)?;
    }
    Ok(())
}

// Sends a part of what is kept for a peer again.
fn send_part<R: Net + Wait, L: Link>(
    rt: &R,
    alloc: Global,
    link: &mut L,
    at: u8,
    resume: &Resume,
    peer: u8,
    part: Part,
) -> Result<(), LinkFault>
    requires peer { peer < length resume.now.lists }
    ensures sends { LinkTook L.Link (each_act (kept_by at peer) (part_of part (kept_for resume.now.lists peer))) link.old link.new result }
{
    match part {
        Part::All => send_kept(rt, alloc, link, at, resume, peer),
        Part::Batch { after, last, most } => {
            let batch = resume.batch(peer, after, last, most);
            send_batch(rt, alloc, link, at, peer, batch)
        }
    }
}

// What is kept for the peers of a replica, if something may be for this one.
fn resume_of<S: Service, E: Broadcast, C: Coin + Drop>(
    house: &House<S, E, C>,
    at: u8,
    peer: u8,
) -> Option<&Resume>
    ensures peer { IfSome result (λ resume. peer < length resume.now.lists) }
    ensures kept { let m = meaning_of S.Service E.Broadcast C.Coin in
        (w : Setting) (es : List Event) (numbers : List ℕ) (ws : Waiting) (p : Peers) (part : APart) → HouseStands m w es numbers house.now ws p
        → FitsPeers w p.keeping at (More.Kept peer part)
        → MatchOption result (part_of part (p.keeping at peer) ≡ []) (λ resume. kept_for resume.now.lists peer ≡ p.keeping at peer) }
{
    let Some(place) = house.place_of(at) else {
        // Nothing is kept at what isn't here.
        return None;
    };
    let Some(keeper) = house.keepers.get(place) else {
        // There is no such place.
        return None;
    };
    if usize::from(peer) >= keeper.resume.peers() {
        // There is no such peer.
        return None;
    }
    Some(&keeper.resume)
}

// Sends a part of what is kept for a peer of a replica again.
fn send_again<R: Net + Wait, S: Service, E: Broadcast, C: Coin + Drop, L: Link>(
    rt: &R,
    alloc: Global,
    house: &House<S, E, C>,
    link: &mut L,
    at: u8,
    peer: u8,
    part: Part,
) -> Result<(), LinkFault>
    ensures sends { let m = meaning_of S.Service E.Broadcast C.Coin in
        (w : Setting) (es : List Event) (numbers : List ℕ) (ws : Waiting) (p : Peers) → HouseStands m w es numbers house.now ws p
        → FitsPeers w p.keeping at (More.Kept peer part)
        → LinkTook L.Link (each_act (kept_by at peer) (part_of part (p.keeping at peer))) link.old link.new result }
{
    match resume_of(house, at, peer) {
        Some(resume) => send_part(rt, alloc, link, at, resume, peer, part),
        None => Ok(()),
    }
}

// Sends what goes to a peer besides.
fn send_more<R: Net + Wait, S: Service, E: Broadcast, C: Coin + Drop, L: Link>(
    rt: &R,
    alloc: Global,
    house: &House<S, E, C>,
    link: &mut L,
    at: u8,
    more: More,
) -> Result<(), LinkFault>
    ensures sends { let m = meaning_of S.Service E.Broadcast C.Coin in
        (w : Setting) (es : List Event) (numbers : List ℕ) (ws : Waiting) (p : Peers) → HouseStands m w es numbers house.now ws p
        → FitsPeers w p.keeping at more
        → LinkTook L.Link (more_by p.keeping at more) link.old link.new result }
{
    match more {
        More::Nothing => Ok(()),
        More::Note { peer, bytes } => link.send(rt, alloc, at, peer, &bytes),
        More::Kept { peer, part } => send_again(rt, alloc, house, link, at, peer, part),
    }
}

// Sends what came of a round: the frames, what goes to a peer besides, and the replies.
fn send_out<R: Net + Wait, S: Service, E: Broadcast, C: Coin + Drop, L: Link>(
    rt: &R,
    alloc: Global,
    house: &House<S, E, C>,
    link: &mut L,
    output: &Output,
) -> Result<(), LinkFault>
    ensures sends { let m = meaning_of S.Service E.Broadcast C.Coin in
        (w : Setting) (es : List Event) (numbers : List ℕ) (ws : Waiting) (p : Peers) → HouseStands m w es numbers house.now ws p
        → FitsPeers w p.keeping output.now.at output.now.more
        → LinkTook L.Link (acts_by p.keeping output.now) link.old link.new result }
{
    let at = output.at;
    send_all(rt, alloc, link, at, output.frames.as_slice())?;
    send_more(rt, alloc, house, link, at, output.more)?;
    reply_all(rt, alloc, link, at, output.replies.as_slice())
}

// Sends what came of each round, the oldest first.
fn send_each<R: Net + Wait, S: Service, E: Broadcast, C: Coin + Drop, L: Link>(
    rt: &R,
    alloc: Global,
    house: &House<S, E, C>,
    link: &mut L,
    outputs: &[Output],
) -> Result<(), LinkFault>
    ensures sends { let m = meaning_of S.Service E.Broadcast C.Coin in
        (w : Setting) (es : List Event) (numbers : List ℕ) (ws : Waiting) (p : Peers) → HouseStands m w es numbers house.now ws p
        → AllByRecursion (λ o. FitsPeers w p.keeping o.at o.more) outputs.now
        → LinkTook L.Link (acts_each (acts_by p.keeping) outputs.now) link.old link.new result }
{
    for output in outputs {
        send_out(rt, alloc, house, link, output)?;
    }
    Ok(())
}

// Sends its replies, in order.
fn reply_all<R: Net + Wait, L: Link>(
    rt: &R,
    alloc: Global,
    link: &mut L,
    at: u8,
    replies: &[Reply],
) -> Result<(), LinkFault>
    ensures replies { LinkTook L.Link (each_act Replies (map (reply_by at) replies.now)) link.old link.new result }
{
    for given in replies {
        link.reply(rt, alloc, at, given.conn, given.bytes.as_slice())?;
    }
    Ok(())
}

// Writes the text of a group's events to the tape, in one piece.
fn write<K: Sink>(tape: &mut K, text: &[u8]) -> Result<(), Fault>
    ensures own { IfErr result IsOfTape }
    ensures steps { (tells : Tells) (base : Outs) (told : List LinkAct) (link_faults : _) (news older : List Event) (acts outs : List LinkAct)
        → tells.tape ≡ K.tells → text.now ≡ events_text news
        → Agrees tells base (record { taken = K.taken tape.old; tape_faults = K.faults tape.old; told = told; link_faults = link_faults })
        older acts
        → StepsInOrder tells base (record { taken = K.taken tape.new; tape_faults = K.faults tape.new; told = told; link_faults = link_faults })
        result
        older (news ++ older) acts acts outs }
{
    match write_all(tape, text) {
        Ok(()) => Ok(()),
        Err(_) => Err(Fault::Tape),
    }
}

// Whether a part of what is kept for a peer has no frame.
fn is_nothing(resume: &Resume, peer: u8, part: Part) -> bool
    requires peer { peer < length resume.now.lists }
    ensures nothing { result ≡ (length (part_of part (kept_for resume.now.lists peer)) == 0) }
{
    match part {
        Part::All => resume.count(peer) == 0,
        Part::Batch { after, last, most } => {
            let mut batch = resume.batch(peer, after, last, most);
            batch.next_frame().is_none()
        }
    }
}

// Whether a part of what is kept for a peer of a replica has no frame.
fn is_empty<S: Service, E: Broadcast, C: Coin + Drop>(
    house: &House<S, E, C>,
    at: u8,
    peer: u8,
    part: Part,
) -> bool
    ensures nothing { let m = meaning_of S.Service E.Broadcast C.Coin in
        (w : Setting) (es : List Event) (numbers : List ℕ) (ws : Waiting) (p : Peers) → HouseStands m w es numbers house.now ws p
        → FitsPeers w p.keeping at (More.Kept peer part) → result ≡ (length (part_of part (p.keeping at peer)) == 0) }
{
    match resume_of(house, at, peer) {
        Some(resume) => is_nothing(resume, peer, part),
        None => true,
    }
}

// What goes to a peer besides, as nothing goes out again where nothing is kept.
fn more_now<S: Service, E: Broadcast, C: Coin + Drop>(
    house: &House<S, E, C>,
    at: u8,
    more: More,
) -> More
    ensures goes { let m = meaning_of S.Service E.Broadcast C.Coin in
        (w : Setting) (es : List Event) (numbers : List ℕ) (ws : Waiting) (brings : Brought) → HouseStands m w es numbers house.now ws brings.peers
        → FitsPeers w brings.peers.keeping at more → IsMore w at more brings → IsMoreNow w at result brings }
{
    let More::Kept { peer, part } = more else {
        return more;
    };
    if is_empty(house, at, peer, part) {
        return More::Nothing;
    }
    more
}

/// What came of a round joins the group, and its frames are kept for their peers. The one error is want of memory, which a
/// group may have anyhow; that it has none where memory is ample is tested (`stack_tests`, `cases/floods`).
pub(crate) fn gather<S: Service, E: Broadcast, C: Coin + Drop>(
    house: &mut House<S, E, C>,
    group: &mut Group,
    mut output: Output,
) -> Result<(), Mem>
    requires event { IfSome output.event IsSized }
    ensures joins { let m = meaning_of S.Service E.Broadcast C.Coin in
        (w : Setting) (past : List Event) (numbers : List ℕ) (start : Serving) (x : Round) (newest : List Round)
        → let s = after_from w past start newest in
        ComesOut m w (so_far past (at_call x s)) numbers house.old output (outcome w past x s) (brought w past x s)
        → GroupHolds w past start newest group.old → JoinsGroup newest x group.old
        → OnOk result (Under m w past numbers start (x ∷ newest) house.new group.new) }
{
    keep_frames(house, &output)?;
    output.more = more_now(house, output.at, output.more);
    group.add(output)
}

impl<L: Link, K: Sink, A: Archive<D>, D> Server<'_, '_, '_, '_, '_, L, K, A, D> {
    ghost use Rattle.std.specs.Prelude.{List, OnOk};
    ghost use Rattle.outside.specs.declared.link.LinkItem.{LinkItem};
    ghost use Rattle.node_loop.specs.Groups.{IsEmpty};
    ghost use Rattle.node_loop.specs.Meanings.{senses_of};
    ghost use Rattle.node_loop.specs.Servers.{Outset, IsSameServer, IsGroupReady, HasDelivered};

    /// Writes the text of the group's events to the tape, hands those that are kept to the archive, and then gives the link, round after round, the
    /// frames, what goes to a peer besides, and the replies.
    pub(crate) fn deliver<R: Net + Wait, S: Service, E: Broadcast, C: Coin + Drop>(
        &mut self,
        rt: &R,
        house: &House<S, E, C>,
    ) -> Result<(), Fault>
        ensures same { IsSameServer self.old self.new }
        ensures empty { OnOk result (IsEmpty self.new.group.now) }
        ensures goes { let t = senses_of S.Service E.Broadcast C.Coin L.Link K.Sink A.Archive in
            (o : Outset D) (left : List LinkItem) → IsGroupReady t o house.now self.old left → HasDelivered t o house.now self.new left result }
    {
        let text = self.group.text.taken();
        write(self.tape, text)?;
        let kept = self.group.kept.as_slice();
        self.archive.keep(self.alloc, self.disk, kept)?;
        let outputs = self.group.outputs.as_slice();
        send_each(rt, self.alloc, house, self.link, outputs)?;
        self.group.clear();
        Ok(())
    }
}
