//! What a call answered: whether it was without memory, why it is refused as a client is told it, whether a journal keeps it, and whether
//! a frame is to come again.
ghost use Rattle.std.specs.Prelude.{◌≡◌};
ghost use Rattle.world_model.specs.World.{seen_answer};
ghost use Rattle.node_loop.specs.Calls.{fault_number, refusal_in};
ghost use Rattle.node_loop.specs.Keeping.{is_kept_so};
ghost use Rattle.node_loop.specs.Resending.{is_deferred};
ghost use Rattle.node_loop.specs.Standing.{is_answer_opened, TellsWant};

use frame_codec::BodyFault;
use replica::Refusal;
use ritas_base::{Event, Mem};
use ritas_core::{Answer, CoreFault};

/// The number of a fault.
fn fault_number(fault: CoreFault) -> u32
    ensures number { result ≡ fault_number fault }
{
    match fault {
        CoreFault::NotOrigin => 1,
        CoreFault::NotForMe => 2,
        CoreFault::Past(_) => 3,
        CoreFault::Ahead(_) => 4,
        CoreFault::HeldFull(_) => 5,
        CoreFault::InputTaken => 6,
        CoreFault::WindowFull(_) => 7,
        CoreFault::Input(_) => 8,
        CoreFault::Mem => 9,
        CoreFault::Stopped => 10,
    }
}

/// The answer of a call. The one error is want of memory, as the call answered it.
pub(crate) fn told(answer: Result<Answer, Refusal>) -> Result<Result<Answer, Refusal>, Mem>
    ensures tells { TellsWant answer result }
{
    match answer {
        Err(Refusal::Core(CoreFault::Mem)) | Err(Refusal::Body(BodyFault::Mem)) => Err(Mem),
        told => Ok(told),
    }
}

/// The number of the fault with which the core refused an input, if it did.
pub(crate) fn refusal_in(answer: Result<Answer, Refusal>) -> Option<u32>
    ensures number { result ≡ refusal_in (seen_answer answer) }
{
    match answer {
        Err(Refusal::Core(fault)) => Some(fault_number(fault)),
        _ => None,
    }
}

/// Whether a frame that was answered so opened.
pub(crate) fn is_opened(answer: Result<Answer, Refusal>) -> bool
    ensures opened { result ≡ is_answer_opened answer }
{
    !matches!(answer, Err(Refusal::Open(_)))
}

/// Whether a journal keeps an event that was answered so: each turn, and what was taken or is held.
pub(crate) fn is_kept(event: &Event, answer: Result<Answer, Refusal>) -> bool
    ensures kept { result ≡ is_kept_so event.now (seen_answer answer) }
{
    match event {
        Event::Turn { .. } => true,
        Event::Frame { .. } | Event::Input { .. } => {
            matches!(answer, Ok(Answer::Took) | Ok(Answer::Held))
        }
        _ => false,
    }
}

/// Whether a frame that was answered so is to come again.
pub(crate) fn is_deferred(answer: Result<Answer, Refusal>) -> bool
    ensures deferred { result ≡ is_deferred (seen_answer answer) }
{
    match answer {
        Err(Refusal::Core(fault)) => match fault {
            CoreFault::Ahead(_) | CoreFault::HeldFull(_) | CoreFault::Mem | CoreFault::Stopped =>
                true,
            _ => false,
        },
        _ => false,
    }
}
