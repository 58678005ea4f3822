//! Tests of `event_journal`: a journal that is opened again, after any call of its disk was the last, and its head.

ghost use Rattle.std.specs.Prelude.{◌≡◌, ◌<◌, length, true, IfOk, OnOk};
ghost use Rattle.event_journal.specs.Journal.{IsRecord};

use event_journal::{Journal, JournalFault, journal_head, open_journal};
use outside::{Disk, Failed, MemDisk};
use ritas_base::{Bytes, Event, Mem, Mode, Params, Vect};
use std::alloc::Global;
use std::process::Abort;
use std::test::*;

// RITJ, version 1, session 7, n 4, f 1, root service 6, echo, frame version 1, me 0, and no keys.
const HEAD: [u8; 51] = [
    b'R', b'I', b'T', b'J', 1, 0, 0, 0, 0, 0, 0, 0, 7, 4, 1, 6, 1, 1, 0, 0, 0, 0, 0, 0, 0, 0, 0, 0,
    0, 0, 0, 0, 0, 0, 0, 0, 0, 0, 0, 0, 0, 0, 0, 0, 0, 0, 0, 0, 0, 0, 0,
];

fn input(alloc: Global, text: &[u8]) -> Result<Event, Mem>
    requires { length text.now < 100 }
    ensures { IfOk result (IsRecord 0) }
{
    let bytes = Bytes::from_slice(alloc, text)?;
    Ok(Event::Input { at: 0, bytes })
}

// The calls of a journal stand in functions of their own, which promise of it what the next one asks for and no
// more: so what makes several has a
// short proof.

fn open(alloc: Global, disk: &mut MemDisk) -> Result<(Journal, Vec<Event>), JournalFault>
    ensures { IfOk result (λ x. (x.0.me ≡ 0) × (x.0.live ≡ true)) }
{
    open_journal(alloc, disk, 0, &HEAD)
}

fn append(
    alloc: Global,
    journal: &mut Journal,
    disk: &mut MemDisk,
    event: &Event,
) -> Result<(), JournalFault>
    requires live { journal.old.live ≡ true }
    requires own { IsRecord journal.old.me event.now }
    ensures live { OnOk result (journal.new.live ≡ true) }
    ensures me { journal.new.me ≡ journal.old.me }
{
    journal.append(alloc, disk, event)
}

// Two turns together.
fn append_turns(
    alloc: Global,
    journal: &mut Journal,
    disk: &mut MemDisk,
) -> Result<(), JournalFault>
    requires live { journal.old.live ≡ true }
    requires own { journal.old.me ≡ 0 }
{
    let group = [Event::Turn { at: 0 }, Event::Turn { at: 0 }];
    journal.append_all(alloc, disk, &group)
}

// How many events a disk's journal has.
fn count_in(rt: &impl Abort, alloc: Global, disk: &mut MemDisk) -> usize {
    let (_, events) = open(alloc, disk).expect(rt, "opens");
    events.len()
}

// The head, for whoever needs to know nothing of it.
fn head() -> [u8; 51] {
    HEAD
}

fn disk_of(alloc: Global, fails: &[u64]) -> Result<MemDisk, Mem> {
    MemDisk::new(alloc, &[], 4_096, 100, fails)
}

fn read(disk: &mut MemDisk, buf: &mut [u8; 100]) -> Result<usize, Failed> {
    disk.read(0, buf)
}

fn after_stop(alloc: Global, disk: &MemDisk, pick: u32) -> Result<MemDisk, Mem> {
    disk.after_stop(alloc, pick)
}

// Opens a journal that has no event, and appends an input and a turn.
fn append_two(rt: &impl Abort, alloc: Global, disk: &mut MemDisk) -> Result<(), Mem> {
    let (mut journal, events) = open(alloc, disk).expect(rt, "opens");
    assert!(rt; events.len() == 0);
    let first = input(alloc, b"\0\0\0\x07\0\0\0\x01hi")?;
    assert!(rt; append(alloc, &mut journal, disk, &first) == Ok(()));
    assert!(rt; append(alloc, &mut journal, disk, &Event::Turn { at: 0 }) == Ok(()));
    Ok(())
}

// Whether a file begins with the made byte and the head.
fn has_head(file: &[u8; 100]) -> bool {
    file[0] == 1 && &file[1..52] == head().as_slice()
}

// Whether the records of both events and a closed gate come behind it.
fn has_records(file: &[u8; 100]) -> bool {
    let records = b"\x01\0\x0e\x02\0\0\x0a\0\0\0\x07\0\0\0\x01hi\x01\0\x02\x03\0\0";
    &file[52..75] == records.as_slice()
}

// What is appended stands in the file, and is given when it is opened again: 52 + 17 + 5 + 1 bytes.
#[test]
fn keeps_events(rt: HostRuntime) -> Result<(), Fail> {
    let mut disk = disk_of(rt.alloc(), &[])?;
    append_two(&rt, rt.alloc(), &mut disk)?;
    let mut file = [9; 100];
    assert!(rt; read(&mut disk, &mut file) == Ok(75));
    assert!(rt; has_head(&file) && has_records(&file));
    assert!(rt; count_in(&rt, rt.alloc(), &mut disk) == 2);
    Ok(())
}

// Appends a turn, and then two together, and says how many were kept.
fn run(alloc: Global, disk: &mut MemDisk) -> usize {
    match open(alloc, disk) {
        Ok((mut journal, _events)) => {
            if append(alloc, &mut journal, disk, &Event::Turn { at: 0 }).is_err() {
                return 0;
            }
            if append_turns(alloc, &mut journal, disk).is_err() {
                return 1;
            }
            3
        }
        Err(_) => 0,
    }
}

// Whatever call of the disk is the last one, what is left opens as the events that were kept, or those and the next ones.
#[test]
fn stops_anywhere(rt: HostRuntime) -> Result<(), Fail> {
    let alloc = rt.alloc();
    for stop in 0..17 {
        let mut disk = disk_of(alloc, &[stop])?;
        let kept = run(alloc, &mut disk);
        for pick in 0..5 {
            let mut left = after_stop(alloc, &disk, pick)?;
            let count = count_in(&rt, alloc, &mut left);
            let next = if kept == 0 { 1 } else { 3 };
            assert!(rt; count == kept || count == next);
        }
    }
    Ok(())
}

// The head of one replica of one, all whose keys are zeros, in session 2^56 + 7: of the row the first key alone counts.
#[test]
fn head_of_one(rt: HostRuntime) {
    let p = Params::new(1, 0).expect(&rt, "numbers");
    let mode = Mode::new(6, Vect::Reliable).expect(&rt, "mode");
    let mut row = [[0; 32]; 31];
    row[1] = [1; 32];
    let head = journal_head(0x0100_0000_0000_0007, p, mode, 0, &row, &[0; 32]);
    let front = b"RITJ\x01\x01\0\0\0\0\0\0\x07\x01\0\x06\x02\x01\0";
    let digest =
        b"\xf5\xa5\xfd\x42\xd1\x6a\x20\x30\x27\x98\xef\x6e\xd3\x09\x97\x9b\x43\x00\x3d\x23\x20\xd9\xf0\xe8\xea\x98\x31\xa9\x27\x59\xfb\x4b";
    assert!(rt; &head[..19] == front.as_slice());
    assert!(rt; &head[19..] == digest.as_slice());
}
