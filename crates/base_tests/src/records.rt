//! Tests of `record_file`: a file that is opened again, after any call of its disk was the last, one that is begun anew, and
//! its faults.

ghost use Rattle.std.specs.Prelude.{◌≡◌, ◌≤◌, length, true, IfOk, OnOk};
ghost use Rattle.record_file.specs.declared.form.LengthWidth.TheVariants as widths;

use outside::{Buffer, Disk, Failed, MemDisk, write_all};
use record_file::{
    LengthWidth, RecordFault, RecordFile, RecordForm, open_records, record_in, write_record,
};
use ritas_base::Mem;
use std::alloc::Global;
use std::process::Abort;
use std::test::*;

// Two records of 2 and 0 bytes behind their lengths of 2, and a closed gate.
const TWO: [u8; 9] = [1, 0, 2, b'h', b'i', 1, 0, 0, 0];

// Lengths of 2 bytes, a head of 4, and at most 64 bytes.
fn form() -> RecordForm
    ensures { result ≡ record { width = widths.Two; head_length = 4; limit = 64 } }
{
    RecordForm::new(LengthWidth::Two, 4, 64)
}

// The calls of a file stand in functions of their own, which promise of it what the next one asks for and no more.

fn open(
    alloc: Global,
    disk: &mut MemDisk,
    head: &[u8; 4],
) -> Result<(RecordFile, Vec<u8>), RecordFault>
    ensures live { IfOk result (λ x. x.0.live ≡ true) }
    ensures form { IfOk result
        (λ x. x.0.form ≡ record { width = widths.Two; head_length = 4; limit = 64 }) }
{
    open_records(alloc, disk, &form(), head)
}

fn append(file: &mut RecordFile, disk: &mut MemDisk) -> Result<(), RecordFault>
    requires live { file.old.live ≡ true }
    requires form { file.old.form ≡ record { width = widths.Two; head_length = 4; limit = 64 } }
    ensures live { OnOk result (file.new.live ≡ true) }
    ensures form { file.new.form ≡ file.old.form }
{
    file.append(disk, &TWO)
}

fn renew(file: &mut RecordFile, disk: &mut MemDisk) -> Result<(), RecordFault>
    requires live { file.old.live ≡ true }
    requires form { file.old.form ≡ record { width = widths.Two; head_length = 4; limit = 64 } }
{
    file.renew(disk, b"NEXT")
}

// How many records these bytes have, up to 9.
fn count_in(bytes: &[u8]) -> usize {
    let form = form();
    let mut at = form.first_gate();
    for count in 0..9 {
        match record_in(&form, bytes, at) {
            Some((_, next)) => at = next,
            None => return count,
        }
    }
    9
}

fn disk_of(alloc: Global, bytes: &[u8], fails: &[u64]) -> Result<MemDisk, Mem>
    requires { length bytes.now ≤ 100 }
{
    MemDisk::new(alloc, bytes, 100, 100, fails)
}

fn after_stop(alloc: Global, disk: &MemDisk, pick: u32) -> Result<MemDisk, Mem> {
    disk.after_stop(alloc, pick)
}

// Whether a disk's file has these bytes, at most 99.
fn has(disk: &mut MemDisk, wanted: &[u8]) -> bool {
    let mut buf = [0; 100];
    match disk.read(0, &mut buf) {
        Ok(count) => count == wanted.len() && buf.starts_with(wanted),
        Err(Failed) => false,
    }
}

// How many records a disk's file has under a head, or the fault.
fn opened(alloc: Global, disk: &mut MemDisk, head: &[u8; 4]) -> Result<usize, RecordFault> {
    match open(alloc, disk, head) {
        Ok((_file, bytes)) => Ok(count_in(&bytes)),
        Err(fault) => Err(fault),
    }
}

// Opens a file, and appends the two records twice. Says how many were kept.
fn append_all(alloc: Global, disk: &mut MemDisk) -> usize {
    match open(alloc, disk, b"LOGS") {
        Ok((mut file, _bytes)) => {
            if append(&mut file, disk).is_err() {
                return 0;
            }
            if append(&mut file, disk).is_err() {
                return 2;
            }
            4
        }
        Err(_) => 0,
    }
}

// Opens a file, appends the two records, and begins it anew. Says how many of these calls were Ok.
fn append_and_renew(alloc: Global, disk: &mut MemDisk) -> usize {
    match open(alloc, disk, b"LOGS") {
        Ok((mut file, _bytes)) => {
            if append(&mut file, disk).is_err() {
                return 1;
            }
            if renew(&mut file, disk).is_err() {
                return 2;
            }
            3
        }
        Err(_) => 0,
    }
}

// What is appended stands in the file, and is given when it is opened again: 5 + 8 + 8 + 1 bytes.
#[test]
fn keeps_records(rt: HostRuntime) -> Result<(), Fail> {
    let mut disk = disk_of(rt.alloc(), &[], &[])?;
    assert!(rt; append_all(rt.alloc(), &mut disk) == 4);
    let wanted = b"\x01LOGS\x01\0\x02hi\x01\0\0\x01\0\x02hi\x01\0\0\0";
    assert!(rt; has(&mut disk, wanted));
    assert!(rt; opened(rt.alloc(), &mut disk, b"LOGS") == Ok(4));
    Ok(())
}

// Whatever call of the disk fails, what is left opens as the records that were kept, or those and the next two.
#[test]
fn stops_while_it_appends(rt: HostRuntime) -> Result<(), Fail> {
    let alloc = rt.alloc();
    for stop in 0..17 {
        let mut disk = disk_of(alloc, &[], &[stop])?;
        let kept = append_all(alloc, &mut disk);
        let next = if kept == 0 { 2 } else { 4 };
        for pick in 0..5 {
            let mut left = after_stop(alloc, &disk, pick)?;
            let count = opened(alloc, &mut left, b"LOGS");
            assert!(rt; count == Ok(kept) || count == Ok(next));
        }
    }
    Ok(())
}

// Whatever call fails while it is begun anew, what is left opens as both records under the old head, or as none under the
// next one.
#[test]
fn stops_while_it_is_begun_anew(rt: HostRuntime) -> Result<(), Fail> {
    let alloc = rt.alloc();
    for stop in 12..19 {
        let mut disk = disk_of(alloc, &[], &[stop])?;
        let done = append_and_renew(alloc, &mut disk);
        assert!(rt; done == if stop < 18 { 2 } else { 3 });
        for pick in 0..5 {
            let mut left = after_stop(alloc, &disk, pick)?;
            let next = opened(alloc, &mut left, b"NEXT");
            if done == 3 || next.is_ok() {
                assert!(rt; next == Ok(0));
            } else {
                assert!(rt; next == Err(RecordFault::Foreign(1)));
                assert!(rt; opened(alloc, &mut left, b"LOGS") == Ok(2));
            }
        }
    }
    Ok(())
}

// How a file of these bytes opens.
fn opens(alloc: Global, bytes: &[u8]) -> Result<Result<usize, RecordFault>, Mem>
    requires { length bytes.now ≤ 100 }
{
    let mut disk = disk_of(alloc, bytes, &[])?;
    Ok(opened(alloc, &mut disk, b"LOGS"))
}

// A file of a byte too many, of another head, and with no gate behind its record.
#[test]
fn faults_of_a_file(rt: HostRuntime) -> Result<(), Fail> {
    let alloc = rt.alloc();
    assert!(rt; opens(alloc, &[0; 64])? == Ok(0));
    assert!(rt; opens(alloc, &[0; 65])? == Err(RecordFault::Full(65)));
    assert!(rt; opens(alloc, b"\x01LOGO\0")? == Err(RecordFault::Foreign(4)));
    assert!(rt; opens(alloc, b"\x01LOGS\x01\0\0\x01\0\x02hi")? == Err(RecordFault::Broken(8)));
    assert!(rt; opens(alloc, b"\x01LOGS\x01\0\0\x01\0\x02hi\x09")? == Ok(2));
    Ok(())
}

// A record behind a length of 4 bytes.
#[test]
fn writes_a_long_length(rt: HostRuntime) -> Result<(), Fail> {
    let form = RecordForm::new(LengthWidth::Four, 4, 64);
    let mut text = Buffer::new(rt.alloc());
    assert!(rt; write_record(&mut text, &form, b"hi") == Ok(()));
    assert!(rt; write_all(&mut text, &[0]) == Ok(()));
    assert!(rt; text.taken() == b"\x01\0\0\0\x02hi\0".as_slice());
    Ok(())
}
