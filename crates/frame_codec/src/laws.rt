//! What the formats of values mean on whole values: how they are written, that all are written so, and that what is
//! written is read again.

ghost use Rattle.std.specs.Prelude.{◌≡◌, ℕ, ◌<◌, ◌≤◌, ◌^◌, Bool, List, [], length, drop, count_by, true, Some};
ghost use Rattle.std.specs.List.{slice_get, AllByRecursion};
ghost use Rattle.std.specs.Int.RustNames.{count_ones};
ghost use Rattle.ritas_base.specs.Numbers.{Numbers, wait_of, support_of};
ghost use Rattle.ritas_base.specs.History.{replicas};
ghost use Rattle.ritas_base.specs.Members.{has_member};
ghost use Rattle.ritas_base.specs.declared.id.Id.{Id};
ghost use Rattle.frame_codec.specs.Limits.{most_ids, longest_entry};
ghost use Rattle.frame_codec.specs.Format.{Is};
ghost use Rattle.frame_codec.specs.Grammar.{ids, any_ids, vector, vect, column, class2, class3, is_places};
ghost use Rattle.frame_codec.specs.Ids.{AreIds, AreAnyIds};
ghost use Rattle.ritas_base.specs.Bytes.{IsBytes};
ghost use Rattle.frame_codec.specs.Values.{ids_bytes, ids_of, mask_of, places, at_place};
ghost use Rattle.frame_codec.specs.Values.{IsVector, entries_in, vector_entries, entry_at_place, is_passed, vector_bytes};
ghost use Rattle.frame_codec.specs.Values.{IsColumn, rows_in, column_row, column_bytes, IsVect, vect_bytes};

/// A value is an identifier list exactly where it spells some identifiers that are one in words: at most `most_ids` (64), ascending,
/// of replicas, of numbers below `number_limit` (1,000,000), and at most `share_of` n of one origin.
///
/// It does nothing: its contract is the law.
pub fn list_law()
    ensures written { (n : ℕ) (xs : List Id) → 0 < length xs → AreIds n xs → Is (ids n) (ids_bytes xs) }
    ensures read { (n : ℕ) (value : List ℕ) → 1 ≤ n → n ≤ most_ids → IsBytes value → Is (ids n) value
        → (0 < length (ids_of value)) × (value ≡ ids_bytes (ids_of value)) × AreIds n (ids_of value) }
    ensures again { (xs : List Id) → AllByRecursion (λ x. x.num < 2 ^ 32) xs → ids_of (ids_bytes xs) ≡ xs }
{}

/// A value of class 3 of root service 7 spells identifiers, or none: at most `most_ids` (64), ascending, of replicas, and
/// of numbers below `number_limit` (1,000,000), whatever their origins.
///
/// It does nothing: its contract is the law.
pub fn any_list_law()
    ensures written { (n : ℕ) (xs : List Id) → AreAnyIds n xs → Is (any_ids n) (ids_bytes xs) }
    ensures read { (n : ℕ) (value : List ℕ) → IsBytes value → Is (any_ids n) value → (value ≡ ids_bytes (ids_of value)) × AreAnyIds n (ids_of value) }
{}

/// A value is a vector exactly where it is a mask and one entry of class 2 for each of its places. As many entries pass a
/// test as replicas have a place with one that does.
///
/// It does nothing: its contract is the law.
pub fn vector_law()
    ensures written { (p : Numbers) (root mask : ℕ) (es : List (List ℕ)) → mask < 2 ^ 32
        → is_places p.n (wait_of p) mask ≡ true → length es ≡ count_ones mask → AllByRecursion (Is (class2 p root)) es
        → Is (vector p root) (vector_bytes mask es) }
    ensures read { (p : Numbers) (root : ℕ) (value : List ℕ) → IsBytes value → Is (vector p root) value
        → IsVector p root (mask_of value) (vector_entries value) value }
    ensures again { (mask : ℕ) (es : List (List ℕ)) → mask < 2 ^ 32 → length es ≡ count_ones mask
        → AllByRecursion (λ e. length e < 2 ^ 16) es
        → (mask_of (vector_bytes mask es) ≡ mask) × (entries_in (count_ones mask) (drop 4 (vector_bytes mask es)) ≡ es) }
    ensures counted { (p : Numbers) (root : ℕ) (value : List ℕ) (test : List ℕ → Bool) → Is (vector p root) value
        → count_by test (vector_entries value) ≡ count_by (λ k. is_passed test (entry_at_place value k)) (replicas p.n) }
{}

/// A value of class 2 has 1 to `longest_entry` (512) bytes.
///
/// It does nothing: its contract is the law.
pub fn class2_is_short()
    ensures { (p : Numbers) (root : ℕ) (value : List ℕ) → Is (class2 p root) value
        → (1 ≤ length value) × (length value ≤ longest_entry) }
{}

/// A value is a VECT exactly where it is none, which has no bytes, or a mask and a value of class 3.
///
/// It does nothing: its contract is the law.
pub fn vect_law()
    ensures none { (p : Numbers) (root : ℕ) → Is (vect p root) [] }
    ensures written { (p : Numbers) (root mask : ℕ) (inner : List ℕ) → mask < 2 ^ 32
        → is_places p.n (support_of p) mask ≡ true → Is (class3 p root) inner → Is (vect p root) (vect_bytes mask inner) }
    ensures read { (p : Numbers) (root : ℕ) (value : List ℕ) → IsBytes value → 0 < length value → Is (vect p root) value
        → IsVect p root (mask_of value) (drop 4 value) value }
    ensures again { (mask : ℕ) (inner : List ℕ) → mask < 2 ^ 32
        → (mask_of (vect_bytes mask inner) ≡ mask) × (drop 4 (vect_bytes mask inner) ≡ inner) }
{}

/// A value is a column exactly where it is a mask and one row of 32 bytes for each of its places. Each of its rows is
/// whole.
///
/// It does nothing: its contract is the law.
pub fn column_law()
    ensures written { (n mask : ℕ) (rows : List (List ℕ)) → mask < 2 ^ 32 → is_places n 1 mask ≡ true
        → length rows ≡ count_ones mask → AllByRecursion (λ row. length row ≡ 32) rows
        → Is (column n) (column_bytes mask rows) }
    ensures read { (n : ℕ) (value : List ℕ) → IsBytes value → Is (column n) value
        → IsColumn n (mask_of value) (rows_in (count_ones (mask_of value)) (drop 4 value)) value }
    ensures again { (mask : ℕ) (rows : List (List ℕ)) → mask < 2 ^ 32 → length rows ≡ count_ones mask
        → AllByRecursion (λ row. length row ≡ 32) rows
        → (mask_of (column_bytes mask rows) ≡ mask) × (rows_in (count_ones mask) (drop 4 (column_bytes mask rows)) ≡ rows) }
    ensures rows { (n : ℕ) (value : List ℕ) (k : ℕ) → Is (column n) value
        → column_row value k ≡ at_place (mask_of value) (rows_in (count_ones (mask_of value)) (drop 4 value)) k }
{}

/// A mask below a power of two has members below its exponent alone, and what stands for a place is found by its number
/// among them.
///
/// It does nothing: its contract is the law.
pub fn place_law()
    ensures below { (mask n k : ℕ) → mask < 2 ^ n → has_member mask k ≡ true → k < n }
    ensures above { (mask n : ℕ) → ((k : ℕ) → has_member mask k ≡ true → k < n) → mask < 2 ^ n }
    ensures at { (mask j k : ℕ) (xs : List (List ℕ)) → slice_get (places mask) j ≡ Some k
        → at_place mask xs k ≡ slice_get xs j }
{}
