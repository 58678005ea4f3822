//! How messages become frames.

ghost use Rattle.std.specs.Prelude.{◌≡◌, ◌≢◌, ℕ, not, ◌==◌, ◌&&◌, ◌≤◌, ◌++◌, [], EachIndex, map, slice_index, OnOk, OnErr};
ghost use Rattle.ritas_base.specs.Messages.{reaches};
ghost use Rattle.replica.specs.Frames.{frame_for, receivers, frames_of};
ghost use Rattle.replica.specs.Sending.{AreCounts, Sends, raised_at};

use crate::frame::OutFrame;
use frame_codec::write_body;
use keyed_channel::{Channel, LazyFrame};
use ritas_base::{Item, Mem, Msg, To};
use std::alloc::Global;
use std::rc::Rc;

// Whether a message for these receivers comes to replica j.
fn reaches(to: To, j: usize) -> bool
    ensures { result ≡ reaches to j }
{
    match to {
        To::All => true,
        To::One(k) => usize::from(k) == j,
    }
}

// Whether a message of replica me for these receivers is sealed for j.
fn is_receiver(to: To, me: u8, j: u8) -> bool
    ensures { result ≡ (reaches to j && not (j == me)) }
{
    reaches(to, usize::from(j)) && j != me
}

// Seals a message for each replica that it reaches but this one. The frames share the body.
//
// That memory isn't said to be short where it is ample is shown by `drives_with_ample_memory` of
// `stack_tests`, and at the sizes that a node reaches by `cases/floods`.
fn seal_each(
    alloc: Global,
    channel: &Channel,
    counts: &[u64; 31],
    msg: Msg,
    made: &mut Vec<OutFrame<LazyFrame>>,
) -> Result<(), Mem>
    ensures few { OnOk result (channel.now.n ≤ 31) }
    ensures made { OnOk result ((count : ℕ → ℕ) → AreCounts channel.now.n counts.now count
        → made.new.items ≡ made.old.items ++ map (λ j. frame_for channel.now j (count j) msg) (receivers channel.now msg)) }
{
    let keys = channel.keys();
    let me = keys.me();
    let to = msg.to;
    let item = Item {
        from: me,
        kind: msg.kind,
        slot: msg.slot,
        value: msg.value,
    };
    let text = write_body(alloc, &item)?;
    let body = Rc::new(alloc, text)?;
    made.reserve(usize::from(keys.n()))?;
    for j in 0..keys.n() {
        if is_receiver(to, me, j) {
            let bytes = channel.seal_lazily(j, counts[usize::from(j)], &body)?;
            made.push(OutFrame { to: j, bytes })?;
        }
    }
    Ok(())
}

// Counts a message for each replica that it reaches.
fn raise(counts: &mut [u64], to: To)
    ensures { EachIndex counts.new (λ j. slice_index counts.new j ≡ raised_at to j (slice_index counts.old j)) }
{
    for (j, count) in counts.iter_mut().enumerate() {
        if reaches(to, j) {
            *count = count.wrapping_add(1);
        }
    }
}

// Appends the frames of these messages, and counts them for each receiver.
pub(crate) fn send(
    alloc: Global,
    channel: &Channel,
    counts: &mut [u64; 31],
    msgs: Vec<Msg>,
    made: &mut Vec<OutFrame<LazyFrame>>,
) -> Result<(), Mem>
    ensures sends { OnOk result ((count : ℕ → ℕ) → AreCounts channel.now.n counts.old count
        → Sends channel.now count msgs.items counts.new made.old.items made.new.items) }
    ensures memory { OnErr result (msgs.items ≢ []) }
{
    for msg in msgs {
        let to = msg.to;
        seal_each(alloc, channel, counts, msg, made)?;
        raise(counts, to);
    }
    Ok(())
}

// Appends the frames as bytes: their tags are computed. For want of memory none is appended, and where there are no frames none is
// needed.
pub(crate) fn append_bytes(
    alloc: Global,
    made: &[OutFrame<LazyFrame>],
    out: &mut Vec<OutFrame>,
) -> Result<(), Mem>
    ensures ok { OnOk result (out.new.items ≡ out.old.items ++ made.now) }
    ensures err { OnErr result (out.new.items ≡ out.old.items) }
    ensures only { OnErr result (made.now ≢ []) }
{
    if made.is_empty() {
        return Ok(());
    }
    let mut frames = Vec::new(alloc);
    for frame in made {
        let bytes = frame.bytes.to_bytes(alloc)?;
        frames.push(OutFrame {
            to: frame.to,
            bytes,
        })?;
    }
    out.append(&mut frames)?;
    Ok(())
}
