//! Inputs of the root services.

ghost use Rattle.std.specs.Prelude.{◌≡◌, ◌↔◌, length, IsNone};
ghost use Rattle.frame_codec.specs.Format.{read};
ghost use Rattle.frame_codec.specs.Inputs.{IsInput, fault_offset, input_format, input_fault};

use crate::fault::Wrong;
use crate::payload::input;
use ritas_base::{Mode, Params};

// Where the input is wrong, if it is.
fn first_fault(p: &Params, mode: &Mode, bytes: &[u8]) -> Option<u32>
    ensures { result ≡ fault_offset (length bytes.now) (read (input_format p.now mode.now.root) bytes.now) }
{
    match input(p, mode.service(), bytes) {
        Err(Wrong { left }) => Some((bytes.len() - left) as u32),
        Ok([]) => None,
        Ok(rest) => Some((bytes.len() - rest.len()) as u32),
    }
}

/// The offset, from 0, of the first byte that is wrong, missing or too much in an input of the root service;
/// `None` exactly where the bytes are such an input.
///
/// Root services 1 and 2 take a command of 1 to `LONGEST_INPUT` (4,096) bytes, and 6 and 7 take one of `LEAST_REQUEST` (8) to
/// as many; 3 takes one byte, 0 or 1; 4 takes a proposal of 1 to `LONGEST_INPUT` bytes, and 5 takes one of 1 to
/// `LONGEST_ENTRY` (512). An input that is too short is wrong at its
/// length, and one that is too long at the limit.
pub fn input_fault(p: &Params, mode: &Mode, bytes: &[u8]) -> Option<u32>
    ensures none { IsNone result ↔ IsInput p.now mode.now bytes.now }
    ensures exact { result ≡ input_fault p.now mode.now bytes.now }
{
    first_fault(p, mode, bytes)
}
