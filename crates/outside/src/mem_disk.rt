//! A disk in memory.
ghost use Rattle.std.specs.Prelude.{◌≡◌, ◌<◌, ◌≤◌, ◌+◌, ◌↔◌, ◌⊎◌, [], true, length, take, drop, vec_capacity, IsTrue, IfOk, OnOk, OnErr, IsErr};
ghost use Rattle.outside.specs.Faults.{HasCause, counted};
ghost use Rattle.outside.specs.Memory.{no_calls, calls_after};
ghost use Rattle.ritas_base.specs.Bytes.{IsBytes};
ghost use Rattle.outside.specs.Disks.{FailsToWrite, MayLeave, after_sync, after_write, disk_state_of, bytes_written};
ghost use Rattle.outside.specs.MemoryDisk.{DiskReads, DiskSyncs, DiskWrites, IsRefused, IsWriteTooLong, IsSpanWithin, ranges_of, disk_states_of};
ghost use Rattle.outside.specs.Stops.{end_left, filled_by, fills, image_left_by};
ghost use Rattle.std.specs.List.{AllByRecursion};

use crate::disk::Disk;
use crate::memory::CallList;
use crate::source::Failed;
use ritas_base::Mem;
use std::alloc::Global;
use std::marker::Model;

// What a call did: it wrote a part of the text, so many bytes from a place on, or it synced.
#[derive(Clone, Copy)]
pub(crate) enum DiskDid {
    Wrote { at: u64, from: usize, count: usize },
    Synced,
}

// So many bytes from an offset on, which were written since the last sync.
#[derive(Clone, Copy)]
pub(crate) struct Span {
    at: u64,
    count: usize,
}

/// A disk in memory, which takes its memory when it is made: its file has room for so many bytes, all its writes together have
/// as much, and so many calls may be made. Contracts see the bytes at first, what was done since, the room, how many calls may be
/// made, and its calls.
#[derive(Drop)]
pub struct MemDisk {
    first: Vec<u8>,
    bytes: Vec<u8>,
    synced: Vec<u8>,
    text: Vec<u8>,
    dids: Vec<DiskDid>,
    spans: Vec<Span>,
    room: u64,
    most: u32,
    calls: CallList,
}

impl Model for MemDisk {
    ghost use Rattle.std.specs.Prelude.{◌≤◌};
    ghost use Rattle.std.specs.Vec.{vec_len, vec_capacity};
    ghost use Rattle.outside.specs.MemoryDisk.{MemDiskState, FitsDisk, KeepsSynced, acts_of};

    ghost Value = { MemDiskState };

    ghost view = { λ s. record {
      first = s.first.items;
      acts = acts_of s.text.items s.dids.items;
      room = s.room;
      most = s.most;
      calls = s.calls;
    } };

    ghost invariant = { λ s. FitsDisk s.first.items s.bytes.items s.text.items s.dids.items s.room s.calls.number
        × KeepsSynced s.first.items s.text.items s.dids.items s.synced.items s.spans.items s.room
        × (s.room ≤ vec_capacity s.bytes) × (s.room ≤ vec_capacity s.text) × (s.room ≤ vec_capacity s.synced)
        × (s.most ≤ vec_capacity s.dids) × (s.most ≤ vec_capacity s.spans) };
}

// Writes bytes at an offset of a file, for which there is room.
fn overwrite(file: &mut Vec<u8>, at: usize, bytes: &[u8])
    requires { at + length bytes.now ≤ vec_capacity file.old }
    ensures value { file.new.items ≡ bytes_written at bytes.now file.old.items }
    ensures room { vec_capacity file.old ≤ vec_capacity file.new }
{
    if at + bytes.len() < file.len() {
        file[at..at + bytes.len()].copy_from_slice(bytes);
        return;
    }
    file.resize(at, 0).unwrap();
    file.extend_from_slice(bytes).unwrap();
}

// A copy of these bytes that has room for so many.
fn copied(alloc: Global, room: usize, bytes: &[u8]) -> Result<Vec<u8>, Mem>
    ensures items { IfOk result (λ file. file.items ≡ bytes.now) }
    ensures room { IfOk result (λ file. room ≤ vec_capacity file) }
{
    let mut file = Vec::with_capacity(alloc, room)?;
    file.extend_from_slice(bytes)?;
    Ok(file)
}

// A file of which these ranges, the oldest first, are filled with a byte.
fn filled(alloc: Global, room: u64, synced: &[u8], spans: &[Span], byte: u8) -> Result<Vec<u8>, Mem>
    requires within { AllByRecursion (IsSpanWithin room) spans.now }
    requires short { length synced.now ≤ room }
    ensures value { IfOk result (λ file. file.items ≡ fills byte (ranges_of spans.now) synced.now) }
    ensures short { IfOk result (λ file. length file.items ≤ room) }
{
    let mut file = copied(alloc, room as usize, synced)?;
    for span in spans {
        let mut bytes = Vec::new(alloc);
        bytes.resize(span.count, byte)?;
        overwrite(&mut file, span.at as usize, &bytes);
    }
    Ok(file)
}

// What is in a slice of bytes is bytes. It does nothing: its contract is the law.
fn are_bytes(_bytes: &[u8])
    ensures { IsBytes _bytes.now }
{}

// Where a file ends that a stop leaves: at the old end, halfway to the new end, or at the new end.
fn ended(way: u32, old: usize, new: usize) -> usize
    requires { old ≤ new }
    ensures { result ≡ end_left way old new }
{
    match way {
        0 => old,
        1 => old + (new - old) / 2,
        _ => new,
    }
}

// What a stop leaves of a file, of which these ranges were written since it was synced.
fn cut_off(
    alloc: Global,
    room: u64,
    synced: &[u8],
    spans: &[Span],
    pick: u32,
) -> Result<Vec<u8>, Mem>
    requires within { AllByRecursion (IsSpanWithin room) spans.now }
    requires short { length synced.now ≤ room }
    ensures value { IfOk result (λ file. file.items ≡ filled_by pick synced.now (ranges_of spans.now)) }
    ensures short { IfOk result (λ file. length file.items ≤ room) }
{
    let mut file = filled(alloc, room, synced, spans, (pick % 256) as u8)?;
    let end = ended(pick % 3, synced.len(), file.len());
    file.truncate(end);
    Ok(file)
}

impl MemDisk {
    /// A disk with a file of a copy of these bytes, all of it on the disk. `fails` lists the numbers of the calls that fail. Calls
    /// are numbered from 0, and each call after number 2^64 - 1 has that number too. The one error is want of memory.
    pub fn new(
        alloc: Global,
        bytes: &[u8],
        room: u64,
        calls: u32,
        fails: &[u64],
    ) -> Result<MemDisk, Mem>
        requires { length bytes.now ≤ room }
        ensures { IfOk result (λ s. s ≡ record { first = bytes.now; acts = []; room = room; most = calls; calls = no_calls fails.now }) }
    {
        Ok(MemDisk {
            first: Vec::from_slice(alloc, bytes)?,
            bytes: copied(alloc, room as usize, bytes)?,
            synced: copied(alloc, room as usize, bytes)?,
            text: Vec::with_capacity(alloc, room as usize)?,
            dids: Vec::with_capacity(alloc, calls as usize)?,
            spans: Vec::with_capacity(alloc, calls as usize)?,
            room,
            most: calls,
            calls: CallList::new(alloc, fails)?,
        })
    }

    /// A disk that holds one of the images that a stop now may leave. Pick 0 leaves no write since the last sync, and pick 1
    /// leaves all. A greater pick fills every range that was written since with one byte, the pick's remainder by 256, and ends
    /// the file at the old end, halfway to the new end (rounded down) or at the new end, as its remainder by 3 is 0, 1 or 2.
    /// Nothing is pending on the new disk; it has the same room, as many calls, counted anew, and none that is listed to fail.
    /// The one error is want of memory.
    pub fn after_stop(&self, alloc: Global, pick: u32) -> Result<MemDisk, Mem>
        ensures disk { IfOk result (λ s. s ≡ record {
          first = image_left_by pick (disk_state_of (disk_states_of self.now));
          acts = [];
          room = self.now.room;
          most = self.now.most;
          calls = no_calls [];
        }) }
        ensures image { MayLeave (disk_state_of (disk_states_of self.now)) (image_left_by pick (disk_state_of (disk_states_of self.now))) }
    {
        are_bytes(&self.synced);
        match pick {
            0 => MemDisk::new(alloc, &self.synced, self.room, self.most, &[]),
            1 => MemDisk::new(alloc, &self.bytes, self.room, self.most, &[]),
            _ => {
                let file = cut_off(alloc, self.room, &self.synced, &self.spans, pick)?;
                MemDisk::new(alloc, &file, self.room, self.most, &[])
            }
        }
    }

    // Whether the next call is one that fails.
    fn is_refused(&self) -> bool
        ensures { IsTrue result ↔ IsRefused self.now }
    {
        self.calls.is_fault() || self.calls.number() >= u64::from(self.most)
    }

    // Whether a write of so many bytes at an offset passes the room.
    fn is_too_long(&self, at: u64, count: usize) -> bool
        ensures { IsTrue result ↔ IsWriteTooLong self.now at count }
    {
        let count = count as u64;
        at > self.room || count > self.room - at || count > self.room - self.text.len() as u64
    }
}

impl Disk for MemDisk {
    ghost tells = { true };

    ghost told = { λ s. disk_states_of s };

    ghost faults = { λ s. s.calls.faults };

    /// Fails exactly where the call's number is listed, or so many calls were made. Else it reads all that the buffer holds of what
    /// is there.
    fn read(&mut self, at: u64, buf: &mut [u8]) -> Result<usize, Failed>
        ensures exact { DiskReads at self.old self.new buf.old buf.new result }
        ensures count { IfOk result (λ k. k ≤ length buf.old) }
        ensures bytes { IfOk result (λ k. take k buf.new ≡ take k (drop at (disk_state_of (disk_states_of self.old)).seen)) }
        ensures end { IfOk result (λ k. k ≡ 0 → 0 < length buf.old → length (disk_state_of (disk_states_of self.old)).seen ≤ at) }
        ensures same { disk_states_of self.new ≡ disk_states_of self.old }
        ensures cause { HasCause self.old.calls.faults self.new.calls.faults (IsErr result) }
        ensures counts { self.new.calls.faults ≡ counted self.old.calls.faults result }
    {
        if self.is_refused() {
            self.calls.fail();
            return Err(Failed);
        }
        self.calls.pass();
        let at = at.min(self.bytes.len() as u64) as usize;
        let left = &self.bytes[at..];
        let count = buf.len().min(left.len());
        buf[..count].copy_from_slice(&left[..count]);
        Ok(count)
    }

    /// Fails, and does nothing, exactly where a read would, or where the file or the sum of all writes would pass the room.
    fn write_at(&mut self, at: u64, bytes: &[u8]) -> Result<(), Failed>
        ensures exact { DiskWrites at bytes.now self.old self.new result }
        ensures written { OnOk result (disk_states_of self.new ≡ after_write at bytes.now (disk_states_of self.old)) }
        ensures err { OnErr result (FailsToWrite (record { at = at; count = length bytes.now }) (disk_states_of self.old) (disk_states_of self.new)) }
        ensures cause { HasCause self.old.calls.faults self.new.calls.faults (IsErr result) }
        ensures counts { self.new.calls.faults ≡ counted self.old.calls.faults result }
    {
        if self.is_refused() || self.is_too_long(at, bytes.len()) {
            self.calls.fail();
            return Err(Failed);
        }
        self.calls.pass();
        let did = DiskDid::Wrote {
            at,
            from: self.text.len(),
            count: bytes.len(),
        };
        let span = Span {
            at,
            count: bytes.len(),
        };
        self.text.extend_from_slice(bytes).unwrap();
        overwrite(&mut self.bytes, at as usize, bytes);
        self.dids.push(did).unwrap();
        self.spans.push(span).unwrap();
        Ok(())
    }

    /// Fails, and does nothing, exactly where a read would.
    fn sync(&mut self) -> Result<(), Failed>
        ensures exact { DiskSyncs self.old self.new result }
        ensures synced { OnOk result (disk_states_of self.new ≡ after_sync (disk_states_of self.old)) }
        ensures err { OnErr result (disk_states_of self.new ≡ disk_states_of self.old) }
        ensures cause { HasCause self.old.calls.faults self.new.calls.faults (IsErr result) }
        ensures counts { self.new.calls.faults ≡ counted self.old.calls.faults result }
    {
        if self.is_refused() {
            self.calls.fail();
            return Err(Failed);
        }
        self.calls.pass();
        self.synced.clear();
        self.synced.extend_from_slice(&self.bytes).unwrap();
        self.spans.clear();
        self.dids.push(DiskDid::Synced).unwrap();
        Ok(())
    }
}
