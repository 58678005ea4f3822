//! Single fields, read from the left: each reader gives what it read and the bytes after it.

ghost use Rattle.std.specs.Prelude.{◌≡◌, ◌≤◌, ◌<◌, ◌*◌, ℕ, suc, true, nat_lt};
ghost use Rattle.std.specs.Int.{w8, w16, w32};
ghost use Rattle.ritas_base.specs.RootServices.{root_number};
ghost use Rattle.frame_codec.specs.Format.{Gives, read, number_at, block_at, plain_at};
ghost use Rattle.frame_codec.specs.Grammar.{any, is_places, is_entry_len};

use crate::fault::Wrong;
use crate::limits::{LONGEST_ENTRY, LONGEST_IDS};
use ritas_base::RootService;

/// All bytes, of which there are at least and at most so many.
pub(crate) fn plain(low: usize, high: usize, bytes: &[u8]) -> Result<&[u8], Wrong>
    ensures { Gives (λ rest. rest.now) result (plain_at low high bytes.now) }
{
    if bytes.len() < low {
        return Err(Wrong { left: 0 });
    }
    if bytes.len() > high {
        return Err(Wrong {
            left: bytes.len() - high,
        });
    }
    Ok(&[])
}

/// So many bytes.
pub(crate) fn block(len: usize, bytes: &[u8]) -> Result<(&[u8], &[u8]), Wrong>
    ensures { Gives (λ x. (x.0.now, x.1.now)) result (block_at len any bytes.now) }
{
    if bytes.len() < len {
        return Err(Wrong { left: 0 });
    }
    Ok(bytes.split_at(len))
}

/// A mask of at least so many replicas, all below n.
pub(crate) fn places(n: u8, least: u8, bytes: &[u8]) -> Result<(u32, &[u8]), Wrong>
    requires { n < 32 }
    ensures { Gives (λ x. (x.0, x.1.now)) result (number_at w32 (is_places n least) bytes.now) }
{
    let (front, rest) = block(4, bytes)?;
    let mask = u32::from_be_bytes([front[0], front[1], front[2], front[3]]);
    if mask >> n != 0 || mask.count_ones() < u32::from(least) {
        return Err(Wrong { left: bytes.len() });
    }
    Ok((mask, rest))
}

/// The length of a vector's entry.
pub(crate) fn entry_len(service: RootService, bytes: &[u8]) -> Result<(usize, &[u8]), Wrong>
    ensures { Gives (λ x. (x.0, x.1.now)) result (number_at w16 (is_entry_len (root_number service)) bytes.now) }
{
    let (front, rest) = block(2, bytes)?;
    let len = usize::from(u16::from_be_bytes([front[0], front[1]]));
    let is_good = if service.orders_commands() {
        len >= 5 && len <= LONGEST_IDS && len % 5 == 0
    } else {
        len >= 1 && len <= LONGEST_ENTRY
    };
    if !is_good {
        return Err(Wrong { left: bytes.len() });
    }
    Ok((len, rest))
}

/// A byte below the limit.
pub(crate) fn byte_below(limit: u8, bytes: &[u8]) -> Result<(u8, &[u8]), Wrong>
    ensures { Gives (λ x. (x.0, x.1.now)) result (number_at w8 (λ b. nat_lt b limit) bytes.now) }
{
    match bytes {
        [] => Err(Wrong { left: 0 }),
        [b, rest @ ..] if *b < limit => Ok((*b, rest)),
        _ => Err(Wrong { left: bytes.len() }),
    }
}
