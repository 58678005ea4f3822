//! Tests of `schedule_file`: reading and writing events of each kind and keys of both forms, files in pieces, and
//! sources that fail.

ghost use Rattle.schedule_file.specs.Spelling.{IsSized};

// What is answered of files that are cut or changed is a table of the program, in `cases/hostile-input`.

use crate::dealt::front;
use outside::{Buffer, Failed, MemSource, Source};
use ritas_base::{Bytes, Event, Mem, Mode, Params, SenderSet, Vect};
use schedule_file::{FileFault, Header, HeaderKeys, Reader, Writer, event_size};
use std::alloc::Global;
use std::process::Abort;
use std::test::*;

// Two replicas, and one event of each kind.
const FIVE: [u8; 80] = [
    82, 73, 84, 83, 1, 0, 0, 0, 0, 0, 0, 0, 7, 2, 0, 1, 2, 0, 0, 0, 2, 0, 9, 0, 0, 0, 0, 0, 0, 0,
    0, 0, 0, 0, 0, 0, 0, 0, 0, 0, 0, 0, 0, 0, 0, 0, 0, 0, 0, 0, 0, 0, 0, 0, 1, 0, 0, 2, 97, 98, 2,
    1, 0, 1, 99, 3, 1, 4, 0, 1, 0, 0, 1, 4, 5, 1, 0, 0, 0, 0,
];

// A file with the keys of replica 1 of two alone, those that it shares with replicas 0 and 1, and its coin key; and one frame.
const ALONE: [u8; 126] = [
    82, 73, 84, 83, 1, 0, 0, 0, 0, 0, 0, 0, 7, 2, 0, 1, 2, 0, 0, 0, 2, 1, 1, 11, 11, 11, 11, 11,
    11, 11, 11, 11, 11, 11, 11, 11, 11, 11, 11, 11, 11, 11, 11, 11, 11, 11, 11, 11, 11, 11, 11, 11,
    11, 11, 11, 12, 12, 12, 12, 12, 12, 12, 12, 12, 12, 12, 12, 12, 12, 12, 12, 12, 12, 12, 12, 12,
    12, 12, 12, 12, 12, 12, 12, 12, 12, 12, 12, 13, 13, 13, 13, 13, 13, 13, 13, 13, 13, 13, 13, 13,
    13, 13, 13, 13, 13, 13, 13, 13, 13, 13, 13, 13, 13, 13, 13, 13, 13, 13, 13, 1, 1, 0, 2, 97, 98,
    0,
];

// The calls of a reader and of a writer stand in functions of their own that promise nothing, so that what makes
// several has a short proof.

fn start<S: Source>(alloc: Global, source: &mut S) -> Result<(Header, Reader), FileFault> {
    Reader::start(alloc, source)
}

fn next<S: Source>(
    alloc: Global,
    reader: &mut Reader,
    source: &mut S,
) -> Result<Option<Event>, FileFault> {
    reader.next(alloc, source)
}

fn write_header(sink: &mut Buffer, header: &Header) -> Result<(), Failed> {
    Writer::start(sink, header)
}

fn write_end(sink: &mut Buffer) -> Result<(), Failed> {
    Writer::end(sink)
}

// Each file is named by one function alone: a proof unfolds a constant wherever it is named, and that takes seconds.

fn five() -> [u8; 80] {
    FIVE
}

fn alone() -> [u8; 126] {
    ALONE
}

// What a file comes to: how many events, and then its fault, if it has one. What follows is to be answered again.
fn outcome<S: Source>(alloc: Global, source: &mut S) -> (u32, Option<FileFault>) {
    let mut reader = match start(alloc, source) {
        Ok((_, reader)) => reader,
        Err(fault) => return (0, Some(fault)),
    };
    for count in 0..1_000 {
        match next(alloc, &mut reader, source) {
            Ok(Some(_)) => {}
            Ok(None) => {
                let stays = matches!(next(alloc, &mut reader, source), Ok(None));
                return (if stays { count } else { 7_777 }, None);
            }
            Err(fault) => {
                let stays = next(alloc, &mut reader, source).err() == Some(fault);
                return (if stays { count } else { 7_777 }, Some(fault));
            }
        }
    }
    (9_999, None)
}

// The header of two replicas, and four frames of 32,768 bytes each, which a reader takes in five pieces, since it
// holds 65,536 bytes at most.
fn long_file(alloc: Global) -> Result<Vec<u8>, Mem> {
    let mut bytes = Vec::from_slice(alloc, front(&five(), 54))?;
    let text = vec![in alloc; b'x'; 32_768]?;
    for _ in 0..4 {
        bytes.extend_from_slice(&[1, 0, 0x80, 0])?;
        bytes.extend_from_slice(&text)?;
    }
    bytes.push(0)?;
    Ok(bytes)
}

// What a source gives comes to whose calls of these numbers fail.
fn outcome_of(alloc: Global, file: &[u8], fails: &[u64]) -> Result<(u32, Option<FileFault>), Mem> {
    let mut source = MemSource::new(alloc, file, fails)?;
    Ok(outcome(alloc, &mut source))
}

// A file that comes in pieces, and a source that fails before one of them.
#[test]
fn pieces(rt: HostRuntime) -> Result<(), Fail> {
    let bytes = long_file(rt.alloc())?;
    assert!(rt; outcome_of(rt.alloc(), &bytes, &[])? == (4, None));
    for (call, count) in [(0, 0), (1, 1), (2, 2), (4, 4)] {
        let wanted = (count, Some(FileFault::Read));
        assert!(rt; outcome_of(rt.alloc(), &bytes, &[call])? == wanted);
    }
    Ok(())
}

// The keys of replica 1 of two.
fn row() -> [[u8; 32]; 31] {
    let mut row = [[0; 32]; 31];
    row[0] = [11; 32];
    row[1] = [12; 32];
    row
}

// A header with the keys of one replica alone.
fn header_alone(rt: &impl Abort) -> Header {
    Header {
        session: 7,
        p: Params::new(2, 0).expect(rt, "numbers"),
        mode: Mode::new(1, Vect::Reliable).expect(rt, "mode"),
        correct: SenderSet::from_mask(2),
        keys: HeaderKeys::Row {
            me: 1,
            row: row(),
            coin: [13; 32],
        },
    }
}

// Writes a frame of two bytes for replica 1.
fn write_frame(alloc: Global, sink: &mut Buffer) -> Result<(), FileFault> {
    let bytes = Bytes::from_slice(alloc, b"ab")?;
    Writer::event(sink, &Event::Frame { to: 1, bytes })?;
    Ok(())
}

#[test]
fn writes_alone(rt: HostRuntime) -> Result<(), Fail> {
    let mut sink = Buffer::new(rt.alloc());
    write_header(&mut sink, &header_alone(&rt))?;
    write_frame(rt.alloc(), &mut sink)?;
    write_end(&mut sink)?;
    assert!(rt; sink.taken() == alone().as_slice());
    Ok(())
}

// Whether a header has the keys of one replica alone.
fn has_keys(header: &Header) -> bool {
    match &header.keys {
        HeaderKeys::Row {
            me,
            row: keys,
            coin,
        } => { *me == 1 && keys.as_slice() == row().as_slice() && *coin == [13; 32] }
        HeaderKeys::Master(_) => false,
    }
}

// Whether an event is that frame.
fn is_frame(event: &Option<Event>) -> bool {
    match event {
        Some(Event::Frame { to: 1, bytes }) => bytes.as_slice() == b"ab".as_slice(),
        _ => false,
    }
}

#[test]
fn reads_alone(rt: HostRuntime) -> Result<(), Fail> {
    let mut source = MemSource::new(rt.alloc(), &alone(), &[])?;
    let (header, mut reader) = start(rt.alloc(), &mut source)?;
    assert!(rt; has_keys(&header));
    assert!(rt; is_frame(&next(rt.alloc(), &mut reader, &mut source)?));
    assert!(rt; next(rt.alloc(), &mut reader, &mut source)?.is_none());
    Ok(())
}

// Writes an event, and answers whether it takes as many bytes as is said.
fn write_event(sink: &mut Buffer, event: &Event) -> Result<bool, FileFault>
    requires { IsSized event.now }
{
    let before = sink.len();
    Writer::event(sink, event)?;
    Ok(before.checked_add(event_size(event)) == Some(sink.len()))
}

// Writes a file again, which has five events, event by event.
fn write_again(alloc: Global, sink: &mut Buffer) -> Result<bool, FileFault> {
    let mut source = MemSource::new(alloc, &five(), &[])?;
    let (header, mut reader) = Reader::start(alloc, &mut source)?;
    write_header(sink, &header)?;
    for _ in 0..5 {
        if let Some(event) = reader.next(alloc, &mut source)? {
            if !write_event(sink, &event)? {
                return Ok(false);
            }
        }
    }
    write_end(sink)?;
    Ok(true)
}

// A file with an event of each kind that is read and written again, and what was written read back.
#[test]
fn writes_what_was_read(rt: HostRuntime) -> Result<(), Fail> {
    let mut sink = Buffer::new(rt.alloc());
    assert!(rt; write_again(rt.alloc(), &mut sink)?);
    assert!(rt; sink.taken() == five().as_slice());
    assert!(rt; outcome_of(rt.alloc(), sink.taken(), &[])? == (5, None));
    Ok(())
}
