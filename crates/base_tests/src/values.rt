//! Tests of `frame_codec`: the values in bodies, which are read and written.

use frame_codec::{
    column_entry, id_at, ids_have, vect_parts, vector_entry, write_column, write_ids, write_vect,
    write_vector,
};
use ritas_base::{Bytes, Id, Mem, SenderSet};
use std::alloc::Global;
use std::test::*;

// Whether the vector of replicas 0, 1 and 3 has this entry.
fn has_entry(k: u8, want: &[u8]) -> bool {
    let vector = [0, 0, 0, 11, 0, 1, b'a', 0, 2, b'b', b'c', 0, 1, b'd'];
    vector_entry(&vector, k) == Some(want)
}

// Whether the column of replica 1 has this row.
fn has_row(k: u8, want: &[u8]) -> bool {
    let column = [
        0, 0, 0, 2, 1, 2, 3, 4, 5, 6, 7, 8, 9, 10, 11, 12, 13, 14, 15, 16, 17, 18, 19, 20, 21, 22,
        23, 24, 25, 26, 27, 28, 29, 30, 31, 32,
    ];
    column_entry(&column, k) == Some(want)
}

// Whether the VECT of replicas 0 and 1 has these parts.
fn has_parts(places: SenderSet, want: &[u8]) -> bool {
    let vect = [0, 0, 0, 3, b'x', b'y'];
    vect_parts(&vect) == Some((places, want))
}

#[test]
fn values_that_are_read(rt: HostRuntime) {
    assert!(rt; has_entry(0, b"a") && has_entry(1, b"bc") && has_entry(3, b"d"));
    assert!(rt; !has_entry(2, b""));
    assert!(rt; has_parts(SenderSet::from_mask(3), b"xy"));
}

#[test]
fn rows_of_a_column(rt: HostRuntime) {
    let mut row = [0; 32];
    for i in 0..32 {
        row[i] = i as u8 + 1;
    }
    assert!(rt; has_row(1, &row) && !has_row(0, &row));
    assert!(rt; column_entry(&[0, 0, 0, 2, 7], 1).is_none() && column_entry(&[0, 0], 1).is_none());
}

#[test]
fn lists_of_identifiers(rt: HostRuntime) -> Result<(), Fail> {
    let ids = [
        Id { origin: 0, num: 7 },
        Id {
            origin: 3,
            num: 256,
        },
    ];
    let list = write_ids(rt.alloc(), &ids)?;
    assert!(rt; list.as_slice() == b"\0\0\0\0\x07\x03\0\0\x01\0".as_slice());
    assert!(rt; id_at(list.as_slice(), 1) == Some(ids[1]));
    assert!(rt; ids_have(list.as_slice(), ids[0]));
    Ok(())
}

// The column of replicas 0 and 1 with two rows.
fn column(alloc: Global) -> Result<Bytes, Mem> {
    let places = SenderSet::from_mask(3);
    let rows = [[b'a'; 32], [b'b'; 32]];
    write_column(alloc, places, &rows)
}

// The vector of replicas 0 and 1 with two entries.
fn vector(alloc: Global) -> Result<Bytes, Mem> {
    let places = SenderSet::from_mask(3);
    let entries = [
        Bytes::from_slice(alloc, b"a")?,
        Bytes::from_slice(alloc, b"bc")?,
    ];
    write_vector(alloc, places, &entries)
}

#[test]
fn values_that_are_written(rt: HostRuntime) -> Result<(), Fail> {
    let vect = write_vect(rt.alloc(), SenderSet::from_mask(3), b"xy")?;
    assert!(rt; vect.as_slice() == b"\0\0\0\x03xy".as_slice());
    assert!(rt;
        column(rt.alloc())?.as_slice()
            == b"\0\0\0\x03aaaaaaaaaaaaaaaaaaaaaaaaaaaaaaaabbbbbbbbbbbbbbbbbbbbbbbbbbbbbbbb".as_slice()
    );
    assert!(rt; vector(rt.alloc())?.as_slice() == b"\0\0\0\x03\0\x01a\0\x02bc".as_slice());
    Ok(())
}
