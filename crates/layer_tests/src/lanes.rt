//! Tests of the lanes as they are built: a row of zeros, and each length of a row.

use vote_lanes::{count_equal, rows_equal};

#[test]
fn rows_are_compared(rt: HostRuntime) {
    let mut rows = [[0; 32]; 3];
    assert!(rt; rows_equal(&rows, 5, &[0; 32]) == 5);
    rows[2][31] = 1;
    assert!(rt; rows_equal(&rows, 5, &[0; 32]) == 1);
}

// For each length from 0 to 31, against a plain count: every third byte is a one.
#[test]
fn every_length_is_counted(rt: HostRuntime) {
    let mut row = [0; 31];
    let mut ones = 0;
    for len in 0..31 {
        assert!(rt; count_equal(&row[..len], 1) == ones);
        assert!(rt; count_equal(&row[..len], 7) == 0);
        if len % 3 == 0 {
            row[len] = 1;
            ones += 1;
        }
    }
    assert!(rt; count_equal(&row, 1) == ones);
}
