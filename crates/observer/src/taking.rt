//! The row that f + 1 replicas gave at the next position, taken out of its place.

ghost use Rattle.std.specs.Prelude.{◌≡◌, ℕ, ◌+◌, ◌<◌, ◌≤◌, ◌==◌, length, take, drop, slice_index_or, None, IfNone, OnSome, if◌then◌else◌};
ghost use Rattle.std.specs.List.{position};
ghost use Rattle.observer.specs.Giving.{is_backed_gift, backed};
ghost use Rattle.observer.specs.Places.{first_place, gifts_in, each, all_places, IsCleared};

use crate::keeping::{EACH, first_place};
use crate::same::first_backed;
use command_log::LogRow;

/// Empties the places of a position.
pub(crate) fn clear(places: &mut [Option<LogRow>], first: usize)
    requires { first + each ≤ length places.old }
    ensures { IsCleared first places.old places.new }
{
    for k in 0..EACH {
        places[first + k] = None;
    }
}

// The place of the row that is taken next, behind the first of its position.
fn next_place(n: u8, f: u8, first: usize, places: &[Option<LogRow>]) -> Option<usize>
    requires { first + n ≤ length places.now }
    ensures { result ≡ position (is_backed_gift f (take n (drop first places.now)))
        (take n (drop first places.now)) }
{
    first_backed(f, &places[first..first + usize::from(n)])
}

// Takes what is in a place.
fn take_place(places: &mut [Option<LogRow>], place: usize) -> Option<LogRow>
    requires { place < length places.old }
    ensures value { result ≡ slice_index_or places.old place None }
    ensures others { (i : ℕ) → slice_index_or places.new i None ≡
        (if place == i then None else slice_index_or places.old i None) }
{
    places[place].take()
}

/// Takes the row that f + 1 replicas gave at a position out of its place, if there is one, and empties the places of
/// the position.
pub(crate) fn take_next(n: u8, f: u8, len: u32, places: &mut [Option<LogRow>]) -> Option<LogRow>
    requires sized { length places.old ≡ all_places }
    requires few { n ≤ each }
    ensures row { result ≡ backed f (gifts_in n len places.old) }
    ensures none { IfNone result (places.new ≡ places.old) }
    ensures some { OnSome result (IsCleared (first_place len) places.old places.new) }
{
    let first = first_place(len);
    let Some(k) = next_place(n, f, first, places) else {
        return None;
    };
    let row = take_place(places, first + k);
    clear(places, first);
    row
}
