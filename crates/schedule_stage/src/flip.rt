//! The frames of a face that exchanges bits.
ghost use Rattle.std.specs.Prelude.{◌≡◌, ◌<◌, ◌==◌, ◌&&◌, ℕ, List, slice_index, IfOk};
ghost use Rattle.keyed_channel.specs.Frames.{sealed};
ghost use Rattle.schedule_plan.specs.Flips.{flip_body};

use keyed_channel::{Keys, frame_parts, seal, sealed_length};
use ritas_base::{Bytes, Mem};
use std::alloc::Global;

// Whether a body is INIT, which is kind 1, of a step of binary consensus, which is class 5.
fn is_step_init(body: &[u8]) -> bool
    ensures { result ≡ (slice_index body.now 0 == 1 && slice_index body.now 1 == 5) }
{
    body.len() > 1 && body[0] == 1 && body[1] == 5
}

// A body with the other bit, where it is INIT of a step of binary consensus.
fn flip_body(alloc: Global, body: &[u8]) -> Result<Vec<u8>, Mem>
    ensures { IfOk result (λ flipped. flipped.items ≡ flip_body body.now) }
{
    let mut flipped = Vec::from_slice(alloc, body)?;
    if let [1, 5, _, _, _, _, _, _, _, _, bit] = body {
        if *bit <= 1 {
            flipped[10] = 1 - *bit;
        }
    }
    Ok(flipped)
}

/// The frame that these keys seal for a replica under this number, but with the other bit, where it is INIT of a step of binary
/// consensus. The one error is want of memory.
pub(crate) fn flip_frame(
    alloc: Global,
    keys: &Keys,
    to: u8,
    seq: u64,
    bytes: &[u8],
) -> Result<Bytes, Mem>
    requires { to < keys.now.n }
    ensures { (body : List ℕ) → bytes.now ≡ sealed keys.now to seq body
        → IfOk result (λ frame. frame ≡ sealed keys.now to seq (flip_body body)) }
{
    sealed_length();
    let Some(parts) = frame_parts(bytes) else {
        return Bytes::from_slice(alloc, bytes);
    };
    if !is_step_init(parts.body) {
        return Bytes::from_slice(alloc, bytes);
    }
    let flipped = flip_body(alloc, parts.body)?;
    seal(alloc, keys, to, seq, flipped.as_slice())
}
