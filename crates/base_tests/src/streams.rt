//! Tests of `outside`: a text through each form in memory, and readers and writers that fail.

use outside::{
    Buffer, Failed, FromRead, MemSink, MemSource, Sink, Source, ToWrite, read_whole, write_all,
};
use ritas_base::Mem;
use std::alloc::Global;
use std::io;
use std::io::{ErrorKind, Read, Write};
use std::test::*;

// The next ones promise nothing, so that what calls them has a short proof.

fn write<K: Sink>(sink: &mut K, text: &[u8]) -> bool {
    write_all(sink, text).is_ok()
}

// What a source gives that has this text.
fn given(alloc: Global, text: &[u8]) -> Result<Vec<u8>, Fail> {
    let mut source = MemSource::new(alloc, text, &[])?;
    Ok(read_whole(alloc, &mut source, 5)?)
}

fn sink_of(alloc: Global) -> Result<MemSink, Mem> {
    MemSink::new(alloc, 5, &[])
}

// A text through each form in memory.
#[test]
fn goes_through_memory(rt: HostRuntime) -> Result<(), Fail> {
    let text = given(rt.alloc(), b"abcde")?;
    let mut sink = sink_of(rt.alloc())?;
    assert!(rt; write(&mut sink, &text) && sink.taken() == b"abcde".as_slice());
    assert!(rt; !write(&mut sink, b"f"));
    Ok(())
}

// A buffer that is emptied takes again.
#[test]
fn a_buffer_takes_again(rt: HostRuntime) {
    let mut buffer = Buffer::new(rt.alloc());
    assert!(rt; write(&mut buffer, b"abcde") && buffer.len() == 5);
    buffer.clear();
    assert!(rt; buffer.len() == 0 && write(&mut buffer, b"fg"));
    assert!(rt; buffer.taken() == b"fg".as_slice());
}

// A reader and a writer of which the second call fails, and each other takes at most two bytes.
#[derive(Drop)]
struct Flaky {
    calls: usize,
}

impl Flaky {
    fn answer(&mut self) -> io::Result<usize> {
        self.calls = self.calls.saturating_add(1);
        if self.calls == 2 {
            return Err(io::Error::from(ErrorKind::Other));
        }
        Ok(2)
    }
}

impl Read for Flaky {
    fn read(&mut self, buf: &mut [u8]) -> io::Result<usize> {
        Ok(self.answer()?.min(buf.len()))
    }
}

impl Write for Flaky {
    fn write(&mut self, buf: &[u8]) -> io::Result<usize> {
        Ok(self.answer()?.min(buf.len()))
    }

    fn flush(&mut self) -> io::Result<()> {
        Ok(())
    }
}

// Each call is one of the reader: a call that fails in mid-stream is answered, and the next one goes on.
#[test]
fn reads_over_the_system(rt: HostRuntime) {
    let mut source = FromRead::new(Flaky { calls: 0 });
    let mut buf = [b'.'; 3];
    for answer in [Ok(2), Err(Failed), Ok(2)] {
        assert!(rt; source.read(&mut buf) == answer);
    }
}

// So is each call of a writer, and a write of nothing is refused.
#[test]
fn goes_over_the_system(rt: HostRuntime) {
    let mut sink = ToWrite::new(Flaky { calls: 0 });
    for answer in [Ok(2), Err(Failed), Ok(2)] {
        assert!(rt; sink.write(b"abc") == answer);
    }
    assert!(rt; sink.write(b"") == Err(Failed));
}
