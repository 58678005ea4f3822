//! Writing schedule files: the header, the events one by one, and the end mark.

ghost use Rattle.std.specs.Prelude.{◌≡◌, ◌<◌, ◌≤◌, ◌+◌, ◌^◌, ◌++◌, ◌∷◌, [], length, take, IsErr};
ghost use Rattle.std.specs.List.{concat};
ghost use Rattle.std.specs.Int.{w32, to_be_bytes};
ghost use Rattle.outside.specs.Writing.{Writes};
ghost use Rattle.schedule_file.specs.ReadHeader.{heading};
ghost use Rattle.schedule_file.specs.Spelling.{event_text, header_text, keys_text, sized, start_text, vect_byte, IsSized};

use crate::header::{Header, HeaderKeys};
use outside::{Failed, Sink, write_all};
use ritas_base::{Event, FrameVersion, Vect};

// Two texts of together at most so many bytes are written in one piece.
const PIECE: usize = 512;

// A text comes into a piece, at a place.
fn put(piece: &mut [u8; PIECE], at: usize, text: &[u8])
    requires { at + length text.now ≤ 512 }
    ensures { take (at + length text.now) piece.new ≡ take at piece.old ++ text.now }
{
    piece[at..at + text.len()].copy_from_slice(text);
}

// Two short texts, one after the other, and zeros behind them.
fn joined(first: &[u8], second: &[u8]) -> [u8; PIECE]
    requires { length first.now + length second.now ≤ 512 }
    ensures { take (length first.now + length second.now) result ≡ first.now ++ second.now }
{
    let mut piece = [0; PIECE];
    put(&mut piece, 0, first);
    put(&mut piece, first.len(), second);
    piece
}

// One text, and then another.
fn write_both<K: Sink>(sink: &mut K, first: &[u8], second: &[u8]) -> Result<(), Failed>
    ensures { Writes (first.now ++ second.now) K.tells (K.taken sink.old) (K.taken sink.new) (K.faults sink.old) (K.faults sink.new)
        result (IsErr result) }
{
    if first.len() <= PIECE && second.len() <= PIECE - first.len() {
        let piece = joined(first, second);
        return write_all(sink, &piece[..first.len() + second.len()]);
    }
    write_all(sink, first)?;
    write_all(sink, second)
}

// The magic word, the version and the session.
fn start_bytes(version: FrameVersion, session: u64) -> [u8; 13]
    ensures { result ≡ start_text version session }
{
    let [s7, s6, s5, s4, s3, s2, s1, s0] = session.to_be_bytes();
    let version = version.byte();
    [
        b'R', b'I', b'T', b'S', version, s7, s6, s5, s4, s3, s2, s1, s0,
    ]
}

fn vect_byte(vect: Vect) -> u8
    ensures { result ≡ vect_byte vect }
{
    match vect {
        Vect::Echo => 1,
        Vect::Reliable => 2,
    }
}

// n and f, the root service, the broadcast of VECT, and the mask of the correct replicas.
fn setting_bytes(header: &Header) -> [u8; 8]
    ensures { result ≡ header.now.p.n ∷ header.now.p.f ∷ header.now.mode.root ∷ vect_byte header.now.mode.vect ∷ to_be_bytes w32 header.now.correct }
{
    let [m3, m2, m1, m0] = header.correct.mask().to_be_bytes();
    [
        header.p.n(),
        header.p.f(),
        header.mode.root,
        vect_byte(header.mode.vect),
        m3,
        m2,
        m1,
        m0,
    ]
}

// Keys, one after the other.
fn write_each<K: Sink>(sink: &mut K, keys: &[[u8; 32]]) -> Result<(), Failed>
    ensures { Writes (concat keys.now) K.tells (K.taken sink.old) (K.taken sink.new) (K.faults sink.old) (K.faults sink.new)
        result (IsErr result) }
{
    for key in keys {
        write_all(sink, key)?;
    }
    Ok(())
}

// The keys of one replica alone.
fn write_alone<K: Sink>(
    sink: &mut K,
    me: u8,
    row: &[[u8; 32]],
    coin: &[u8; 32],
) -> Result<(), Failed>
    ensures { Writes (1 ∷ me ∷ [] ++ (concat row.now ++ coin.now)) K.tells (K.taken sink.old) (K.taken sink.new) (K.faults sink.old) (K.faults sink.new)
        result (IsErr result) }
{
    write_all(sink, &[1, me])?;
    write_each(sink, row)?;
    write_all(sink, coin)
}

fn write_keys<K: Sink>(sink: &mut K, n: u8, keys: &HeaderKeys) -> Result<(), Failed>
    requires { n < 32 }
    ensures { Writes (keys_text n keys.now) K.tells (K.taken sink.old) (K.taken sink.new) (K.faults sink.old) (K.faults sink.new)
        result (IsErr result) }
{
    match keys {
        HeaderKeys::Master(master) => write_both(sink, &[0], master),
        HeaderKeys::Row { me, row, coin } => write_alone(sink, *me, &row[..n as usize], coin),
    }
}

// An event of this kind at one replica, which has a text.
fn write_at<K: Sink>(sink: &mut K, kind: u8, at: u8, text: &[u8]) -> Result<(), Failed>
    requires { length text.now < 2 ^ 16 }
    ensures { Writes (kind ∷ at ∷ [] ++ sized text.now) K.tells (K.taken sink.old) (K.taken sink.new) (K.faults sink.old) (K.faults sink.new)
        result (IsErr result) }
{
    let [high, low] = (text.len() as u16).to_be_bytes();
    write_both(sink, &[kind, at, high, low], text)
}

// A sealed event.
fn write_sealed<K: Sink>(sink: &mut K, from: u8, to: u8, body: &[u8]) -> Result<(), Failed>
    requires { length body.now < 2 ^ 16 }
    ensures { Writes (5 ∷ from ∷ to ∷ [] ++ sized body.now) K.tells (K.taken sink.old) (K.taken sink.new) (K.faults sink.old) (K.faults sink.new)
        result (IsErr result) }
{
    let [high, low] = (body.len() as u16).to_be_bytes();
    write_both(sink, &[5, from, to, high, low], body)
}

// The event that passes on a frame.
fn write_pass<K: Sink>(sink: &mut K, from: u8, to: u8, m: u32) -> Result<(), Failed>
    ensures { Writes (4 ∷ from ∷ to ∷ [] ++ to_be_bytes w32 m) K.tells (K.taken sink.old) (K.taken sink.new) (K.faults sink.old) (K.faults sink.new)
        result (IsErr result) }
{
    let [m3, m2, m1, m0] = m.to_be_bytes();
    write_all(sink, &[4, from, to, m3, m2, m1, m0])
}

/// Writes a schedule file to a sink: the header, each event in the order of the file, and the end mark. It takes no
/// memory. What the three calls write one after the other is the file (`writer_laws`).
///
/// `Failed` is answered only where the sink's count of faults rose, or stands at its last value. The sink then took a
/// front of what the call writes.
#[derive(Clone, Copy, Debug)]
pub struct Writer;

impl Writer {
    /// Writes the header.
    pub fn start<K: Sink>(sink: &mut K, header: &Header) -> Result<(), Failed>
        ensures { Writes (header_text (heading header.now)) K.tells (K.taken sink.old) (K.taken sink.new) (K.faults sink.old) (K.faults sink.new)
            result (IsErr result) }
    {
        let start = start_bytes(header.mode.version, header.session);
        write_both(sink, &start, &setting_bytes(header))?;
        write_keys(sink, header.p.n(), &header.keys)
    }

    /// Writes an event: in one piece where it has at most 512 bytes, and else in two.
    pub fn event<K: Sink>(sink: &mut K, ev: &Event) -> Result<(), Failed>
        requires { IsSized ev.now }
        ensures { Writes (event_text ev.now) K.tells (K.taken sink.old) (K.taken sink.new) (K.faults sink.old) (K.faults sink.new)
            result (IsErr result) }
    {
        match ev {
            Event::Frame { to, bytes } => write_at(sink, 1, *to, bytes.as_slice()),
            Event::Input { at, bytes } => write_at(sink, 2, *at, bytes.as_slice()),
            Event::Turn { at } => write_all(sink, &[3, *at]),
            Event::Pass { from, to, m } => write_pass(sink, *from, *to, *m),
            Event::Sealed { from, to, body } => write_sealed(sink, *from, *to, body.as_slice()),
        }
    }

    /// Writes the end mark.
    pub fn end<K: Sink>(sink: &mut K) -> Result<(), Failed>
        ensures { Writes (0 ∷ []) K.tells (K.taken sink.old) (K.taken sink.new) (K.faults sink.old) (K.faults sink.new)
            result (IsErr result) }
    {
        write_all(sink, &[0])
    }
}

/// How many bytes an event has in a file.
pub fn event_size(ev: &Event) -> usize
    requires { IsSized ev.now }
    ensures { result ≡ length (event_text ev.now) }
{
    match ev {
        Event::Frame { bytes, .. } | Event::Input { bytes, .. } => 4 + bytes.as_slice().len(),
        Event::Turn { .. } => 2,
        Event::Pass { .. } => 7,
        Event::Sealed { body, .. } => 5 + body.as_slice().len(),
    }
}
