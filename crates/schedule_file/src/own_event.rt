//! The event of one replica with which some bytes begin.
ghost use Rattle.std.specs.Prelude.{◌≡◌, ◌<◌, ◌^◌, length, true, IfOk, IfSome, OnErr};
ghost use Rattle.std.specs.Option.{option_copied};
ghost use Rattle.schedule_file.specs.OwnEvents.{own_event, sized_in, kind_in, has_own_text};

use ritas_base::{Bytes, Event, Mem};
use std::alloc::Global;

// The text that stands behind its length.
fn sized_in(bytes: &[u8]) -> Option<&[u8]>
    ensures value { option_copied result ≡ sized_in bytes.now }
    ensures short { IfSome result (λ t. length t.now < 2 ^ 16) }
{
    match bytes {
        [high, low, rest @ ..] => {
            let len = u16::from_be_bytes([*high, *low]) as usize;
            if len <= rest.len() {
                Some(&rest[..len])
            } else {
                None
            }
        }
        _ => None,
    }
}

// What follows the first byte and the replica of an event.
fn kind_in(alloc: Global, me: u8, kind: u8, rest: &[u8]) -> Result<Option<(Event, u32)>, Mem>
    ensures event { IfOk result (λ o. o ≡ kind_in me kind rest.now) }
    ensures memory { OnErr result (has_own_text (kind_in me kind rest.now) ≡ true) }
{
    if kind == 3 {
        return Ok(Some((Event::Turn { at: me }, 2)));
    }
    if kind != 1 && kind != 2 {
        return Ok(None);
    }
    let Some(text) = sized_in(rest) else {
        return Ok(None);
    };
    let bytes = Bytes::from_slice(alloc, text)?;
    let size = text.len() as u32 + 4;
    if kind == 1 {
        Ok(Some((Event::Frame { to: me, bytes }, size)))
    } else {
        Ok(Some((Event::Input { at: me, bytes }, size)))
    }
}

/// The event of replica `me`, a frame, an input or a turn, with which the bytes begin, and how many bytes it has; `None` where
/// they begin with no such event (`own_event_laws`). The one error is want of memory, which comes
/// only where the event holds a text.
pub fn read_event(alloc: Global, _n: u8, me: u8, bytes: &[u8]) -> Result<Option<(Event, u32)>, Mem>
    requires { me < _n }
    ensures event { IfOk result (λ o. o ≡ own_event me bytes.now) }
    ensures memory { OnErr result (has_own_text (own_event me bytes.now) ≡ true) }
{
    match bytes {
        [kind, at, rest @ ..] if *at == me => kind_in(alloc, me, *kind, rest),
        _ => Ok(None),
    }
}
