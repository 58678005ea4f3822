//! Which rows of 32 bytes equal one.

ghost use Rattle.std.specs.Prelude.{◌≡◌, ℕ, ◌<◌, ◌≤◌, ◌^◌, ◌==◌, ◌&&◌, length};
ghost use Rattle.std.specs.Int.{bit_at};
ghost use Rattle.std.specs.Str.{bytes_eq};
ghost use Rattle.vote_lanes.specs.Plain.{is_equal_row};

use crate::count::LANE;
use std::simd::prelude::*;

// Whether two lanes are the same: no byte of one differs from that of the other.
fn is_same_lane(lane: &[u8], other: &[u8]) -> bool
    requires lane { length lane.now ≡ LANE }
    requires other { length other.now ≡ LANE }
    ensures { result ≡ bytes_eq lane.now other.now }
{
    u8x16::from_slice(lane)
        .simd_ne(u8x16::from_slice(other))
        .to_bitmask()
        == 0
}

// Whether two rows are the same: they have two lanes each.
fn is_same_row(row: &[u8; 32], other: &[u8; 32]) -> bool
    ensures { result ≡ bytes_eq row.now other.now }
{
    let (front, back) = row.split_at(LANE);
    let (other_front, other_back) = other.split_at(LANE);
    is_same_lane(front, other_front) && is_same_lane(back, other_back)
}

// Whether the mask names the place of this row, and it is the same as `d`.
#[tactic(auto, using(std::proofs::lemmas::Nat::Bits::shr_and_one))]
fn is_named_and_same(mask: u32, at: usize, row: &[u8; 32], d: &[u8; 32]) -> bool
    requires { at < 32 }
    ensures { result ≡ ((bit_at mask at == 1) && bytes_eq row.now d.now) }
{
    mask >> at & 1 == 1 && is_same_row(row, d)
}

/// The mask of those rows that the mask names and that equal `d`: bit i stands for the row at place i.
pub fn rows_equal(rows: &[[u8; 32]], mask: u32, d: &[u8; 32]) -> u32
    requires few { length rows.now ≤ 31 }
    requires named { mask < 2 ^ length rows.now }
    ensures { (i : ℕ) → (bit_at result i == 1) ≡ is_equal_row rows.now mask d.now i }
{
    let mut equal = 0;
    for (i, row) in rows.iter().enumerate() {
        if is_named_and_same(mask, i, row, d) {
            equal |= 1 << i;
        }
    }
    equal
}
