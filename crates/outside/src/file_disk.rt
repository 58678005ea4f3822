//! The disk of a node: the file `ritas.journal`, which one program has open at a time.

ghost use Rattle.std.specs.Prelude.{◌≡◌, ◌≤◌, [], ℕ, true, false, length, Ok, IfOk, IsErr};
ghost use Rattle.outside.specs.Faults.{HasCause, counted};

use crate::disk::Disk;
use crate::source::Failed;
use std::fs::{File, OpenOptions};
use std::io;
use std::os::unix::fs::{FileExt, OpenOptionsExt};
use std::rt::Files;

/// A disk over the file `ritas.journal` of the working folder. What it holds isn't told.
///
/// The first call opens the file, or makes it, readable and writable by its owner alone. It locks it, so that it fails where
/// another has the file open as a disk, and syncs the folder, so that a file that was made stays. A sync is one of the file's
/// data and length (`fdatasync`).
///
/// After a sync that failed, what a read gives needn't be on the disk, though a later sync answers Ok. On Linux the pages that
/// couldn't be written are then marked as written: they stay in the system's cache, so also a program that is started anew reads
/// them, and its sync has nothing to do. So the cache has to go before the file is opened again: the machine is restarted, or the file
/// system is unmounted and mounted again. Then a read gives what the device has, which is an image of the file.
///
/// That the system's calls do what they say is trusted: no contract can name what the file holds.
#[derive(Drop)]
pub struct FileDisk<R: Files<File = File>> {
    rt: R,
    file: Option<File>,
    faults: u64,
}

// An error is a fault, and raises the count by one up to its last value.
fn judged<T: Drop>(faults: &mut u64, answer: io::Result<T>) -> Result<T, Failed>
    ensures only { IfOk result (λ x. answer ≡ Ok x) }
    ensures counts { faults.new ≡ counted faults.old result }
    ensures cause { HasCause faults.old faults.new (IsErr result) }
{
    match answer {
        Ok(x) => Ok(x),
        Err(_) => {
            *faults = faults.saturating_add(1);
            Err(Failed)
        }
    }
}

// Opens the file, or makes it, and locks it.
fn open_file<R: Files<File = File>>(rt: &R) -> io::Result<File> {
    let file = OpenOptions::new()
        .read(true)
        .write(true)
        .create(true)
        .mode(0o600)
        .open(rt, "ritas.journal")?;
    if file.try_lock().is_err() {
        return Err(io::Error::from(io::ErrorKind::WouldBlock));
    }
    File::open(rt, ".")?.sync_all()?;
    Ok(file)
}

// Opens the file where it isn't open yet.
fn open_once<R: Files<File = File>>(rt: &R, file: &mut Option<File>) -> io::Result<()> {
    if file.is_none() {
        *file = Some(open_file(rt)?);
    }
    Ok(())
}

fn read_in<R: Files<File = File>>(
    rt: &R,
    file: &mut Option<File>,
    at: u64,
    buf: &mut [u8],
) -> io::Result<usize>
    ensures { IfOk result (λ k. k ≤ length buf.old) }
{
    open_once(rt, file)?;
    match file {
        Some(file) => file.read_at(buf, at),
        None => Err(io::Error::from(io::ErrorKind::Other)),
    }
}

fn write_in<R: Files<File = File>>(
    rt: &R,
    file: &mut Option<File>,
    at: u64,
    bytes: &[u8],
) -> io::Result<()> {
    open_once(rt, file)?;
    match file {
        Some(file) => file.write_all_at(bytes, at),
        None => Err(io::Error::from(io::ErrorKind::Other)),
    }
}

fn sync_in<R: Files<File = File>>(rt: &R, file: &mut Option<File>) -> io::Result<()> {
    open_once(rt, file)?;
    match file {
        Some(file) => file.sync_data(),
        None => Err(io::Error::from(io::ErrorKind::Other)),
    }
}

impl<R: Files<File = File> + Drop> FileDisk<R> {
    /// A disk of which no call failed yet. Nothing is opened.
    pub fn new(rt: R) -> FileDisk<R>
        ensures { result.faults ≡ 0 }
    {
        FileDisk {
            rt,
            file: None,
            faults: 0,
        }
    }
}

impl<R: Files<File = File> + Drop> Disk for FileDisk<R> {
    ghost tells = { false };

    ghost told = { λ _. [] };

    ghost faults = { λ s. s.faults };

    fn read(&mut self, at: u64, buf: &mut [u8]) -> Result<usize, Failed>
        ensures count { IfOk result (λ k. k ≤ length buf.old) }
        ensures cause { HasCause self.old.faults self.new.faults (IsErr result) }
        ensures counts { self.new.faults ≡ counted self.old.faults result }
    {
        let answer = read_in(&self.rt, &mut self.file, at, buf);
        judged(&mut self.faults, answer)
    }

    fn write_at(&mut self, at: u64, bytes: &[u8]) -> Result<(), Failed>
        ensures cause { HasCause self.old.faults self.new.faults (IsErr result) }
        ensures counts { self.new.faults ≡ counted self.old.faults result }
    {
        let answer = write_in(&self.rt, &mut self.file, at, bytes);
        judged(&mut self.faults, answer)
    }

    fn sync(&mut self) -> Result<(), Failed>
        ensures cause { HasCause self.old.faults self.new.faults (IsErr result) }
        ensures counts { self.new.faults ≡ counted self.old.faults result }
    {
        let answer = sync_in(&self.rt, &mut self.file);
        judged(&mut self.faults, answer)
    }
}
