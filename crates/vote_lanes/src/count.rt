//! How many bytes of a row have a value.

ghost use Rattle.std.specs.Prelude.{◌≡◌, ◌<◌, ◌≤◌, length};
ghost use Rattle.vote_lanes.specs.Plain.{equal_places};

use std::simd::prelude::*;

/// How many bytes a lane has.
pub(crate) const LANE: usize = 16;

// How many bytes of a whole lane have the value.
fn count_in_lane(lane: &[u8], v: u8) -> u32
    requires { length lane.now ≡ LANE }
    ensures { result ≡ equal_places lane.now v }
{
    u8x16::from_slice(lane)
        .simd_eq(u8x16::splat(v))
        .to_bitmask()
        .count_ones()
}

// How many bytes of what is less than a lane have the value.
fn count_in_rest(rest: &[u8], v: u8) -> u32
    requires { length rest.now < LANE }
    ensures { result ≡ equal_places rest.now v }
{
    rest.iter().filter(|byte| **byte == v).count() as u32
}

/// How many places of the row have the value.
pub fn count_equal(row: &[u8], v: u8) -> u32
    requires { length row.now ≤ 31 }
    ensures { result ≡ equal_places row.now v }
{
    if row.len() < LANE {
        return count_in_rest(row, v);
    }
    let (lane, rest) = row.split_at(LANE);
    count_in_lane(lane, v) + count_in_rest(rest, v)
}
