//! Tests of `outside`: a disk in memory, what a stop leaves of it, and a disk over a file.

use outside::{Disk, Failed, FileDisk, MemDisk, put};
use ritas_base::Mem;
use std::alloc::Global;
use std::fs;
use std::test::*;

// The calls stand in functions of their own that promise nothing, so that what makes several has a short proof.

fn write<D: Disk>(disk: &mut D, at: u64, bytes: &[u8]) -> Result<(), Failed> {
    disk.write_at(at, bytes)
}

fn put_in<D: Disk>(disk: &mut D, at: u64, bytes: &[u8]) -> Result<(), Failed> {
    put(disk, at, bytes)
}

fn read<D: Disk>(disk: &mut D, buf: &mut [u8]) -> Result<usize, Failed> {
    disk.read(0, buf)
}

// A disk in memory after two writes, of which the second had no room.
fn written(alloc: Global) -> Result<MemDisk, Mem> {
    let mut disk = MemDisk::new(alloc, b"abc", 8, 6, &[])?;
    if write(&mut disk, 2, b"xy").is_err() || write(&mut disk, 8, b"z").is_ok() {
        return Err(Mem);
    }
    Ok(disk)
}

// Whether a stop leaves these bytes of a disk, by this pick.
fn leaves(alloc: Global, disk: &MemDisk, pick: u32, left: &[u8]) -> Result<bool, Mem> {
    let mut stopped = disk.after_stop(alloc, pick)?;
    let mut buf = [0; 8];
    match read(&mut stopped, &mut buf) {
        Ok(count) => Ok(count == left.len() && buf.starts_with(left)),
        Err(Failed) => Ok(false),
    }
}

// What a stop leaves by each pick: the write that had no room is in none.
#[test]
fn stops_a_disk(rt: HostRuntime) -> Result<(), Fail> {
    let disk = written(rt.alloc())?;
    for (pick, left) in [
        (0, b"abc".as_slice()),
        (1, b"abxy".as_slice()),
        (2, b"ab\x02\x02".as_slice()),
        (3, b"ab\x03".as_slice()),
        (4, b"ab\x04".as_slice()),
    ] {
        assert!(rt; leaves(rt.alloc(), &disk, pick, left)?, "by pick {pick}");
    }
    Ok(())
}

// The file of the system: what was put is read, and no second disk opens it meanwhile.
#[test]
fn keeps_a_file(rt: HostRuntime) -> Result<(), Fail> {
    let mut disk = FileDisk::new(rt);
    let mut other = FileDisk::new(rt);
    let mut buf = [0; 4];
    assert!(rt; put_in(&mut disk, 1, b"abc").is_ok());
    assert!(rt; read(&mut other, &mut buf).is_err());
    assert!(rt; read(&mut disk, &mut buf) == Ok(4) && &buf == b"\0abc");
    assert!(rt; fs::remove_file(&rt, "ritas.journal").is_ok());
    Ok(())
}
