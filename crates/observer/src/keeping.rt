//! The places of the rows that replicas gave at the next positions.

ghost use Rattle.std.specs.Prelude.{◌≡◌, ℕ, ◌+◌, ◌*◌, ◌%◌, ◌<◌, ◌≤◌, ◌==◌, true, length, slice_index_or, Some, None, if◌then◌else◌};
ghost use Rattle.std.specs.Option.{option_or};
ghost use Rattle.observer.specs.Giving.{row_from, is_near, window};
ghost use Rattle.observer.specs.Places.{first_place, placed, each, all_places, Keeps};

use command_log::LogRow;

/// Rows are kept at so many positions from the next one on.
pub(crate) const WINDOW: u32 = 64;

/// Each of these positions has so many places.
pub(crate) const EACH: usize = 31;

/// So many places are there.
pub(crate) const PLACES: usize = 1_984;

/// The first place of a position.
pub(crate) fn first_place(at: u32) -> usize
    ensures value { result ≡ first_place at }
    ensures within { result + each ≤ all_places }
{
    (at % WINDOW) as usize * EACH
}

// Keeps a row in a place, where there is none.
fn keep_row(places: &mut [Option<LogRow>], place: usize, row: LogRow)
    requires { place < length places.old }
    ensures { (i : ℕ) → slice_index_or places.new i None ≡
        (if place == i then option_or (slice_index_or places.old i None) (Some row)
        else slice_index_or places.old i None) }
{
    if places[place].is_none() {
        places[place] = Some(row);
    }
}

/// Keeps those of these rows, which a replica gave from a position on, that have a position from `len` on, where it
/// gave none before.
pub(crate) fn keep_rows(
    places: &mut [Option<LogRow>],
    from: u8,
    len: u32,
    first: u32,
    rows: &mut Vec<LogRow>,
)
    requires sized { length places.old ≡ all_places }
    requires within { from < each }
    requires below { first + length rows.old.items ≤ 4294967295 }
    requires near { 0 < length rows.old.items → first + length rows.old.items ≤ len + window }
    ensures { Keeps len places.old places.new from first rows.old.items }
{
    let Some(row) = rows.pop() else {
        return;
    };
    let at = first + rows.len() as u32;
    if at >= len {
        keep_row(places, first_place(at) + usize::from(from), row);
    }
    keep_rows(places, from, len, first, rows);
}
