//! What keeps events on a disk.
ghost use Rattle.std.specs.Prelude.{◌≡◌, ℕ, ◌++◌, List, MatchResult, reverse, true, IsTrue};
ghost use Rattle.std.specs.List.{AllByRecursion};
ghost use Rattle.event_journal.specs.Journal.{IsRecord};
ghost use Rattle.ritas_base.specs.declared.event.Event.{Event};
ghost use Rattle.node_loop.specs.declared.archive.ArchiveFault.{ArchiveFault};

use event_journal::{Journal, JournalFault};
use outside::Disk;
use ritas_base::Event;
use std::alloc::Global;

/// Why an archive can't keep events.
#[derive(Clone, Copy, Debug)]
pub enum ArchiveFault {
    /// The disk failed.
    Disk,
    /// With the events it would be so long, up to 2^64 - 1, which is too long. All is as before.
    Full(u64),
    /// There was not enough memory.
    Mem,
}

/// An archive keeps events on a disk, group after group.
pub(crate) trait Archive<D> {
    /// It stands for given events behind past ones, the newest first. It is of this name, and the disk was so before the first of the
    /// given ones.
    ghost stands: { List ℕ → D → List Event → Self → D → List Event → Type 0 };

    /// It failed so over the newest group of the given events, behind older ones.
    ghost fails: { List ℕ → D → List Event → Self → D → ArchiveFault → List Event → List Event → Type 0 };

    /// Keeps a group of events, the oldest first.
    fn keep(&mut self, alloc: Global, disk: &mut D, events: &[Event]) -> Result<(), ArchiveFault>
        ensures keeps { (head : List ℕ) (before : D) (past given : List Event) → stands head before past self.old disk.old given
            → MatchResult result (λ _. stands head before past self.new disk.new (reverse events.now ++ given))
            (λ fault. fails head before past self.new disk.new fault (reverse events.now) given) };
}

/// What serving has that keeps nothing.
#[derive(Drop)]
pub(crate) struct NoArchive;

/// The disk of that.
#[derive(Drop)]
pub(crate) struct NoDisk;

impl Archive<NoDisk> for NoArchive {
    ghost stands = { λ head before past archive disk given. Unit {0} };

    ghost fails = { λ head before past archive disk fault group older. ⊥ };

    fn keep(&mut self, _: Global, _: &mut NoDisk, _: &[Event]) -> Result<(), ArchiveFault> {
        Ok(())
    }
}

// Whether a journal is live, and takes each of these events.
fn takes_all(journal: &Journal, events: &[Event]) -> bool
    ensures takes { IsTrue result → (journal.now.live ≡ true) × AllByRecursion (IsRecord journal.now.me) events.now }
{
    for event in events {
        if !journal.takes(event) {
            return false;
        }
    }
    journal.live()
}

impl<D: Disk> Archive<D> for Journal {
    ghost use Rattle.node_loop.specs.Journals.{NamedStands, NamedFails};

    ghost stands = { λ name before past journal disk given.
        NamedStands name past given journal D.tells (D.told before) (D.told disk) (D.faults before) (D.faults disk) };

    ghost fails = { λ name before past journal disk fault group older.
        NamedFails name past group older journal D.tells (D.told before) (D.told disk) (D.faults before) (D.faults disk) fault };

    fn keep(&mut self, alloc: Global, disk: &mut D, events: &[Event]) -> Result<(), ArchiveFault> {
        if !takes_all(self, events) {
            // Each event of serving is one that it takes.
            return Err(ArchiveFault::Mem);
        }
        match self.append_all(alloc, disk, events) {
            Ok(()) => Ok(()),
            Err(JournalFault::Disk) => Err(ArchiveFault::Disk),
            Err(JournalFault::Full(size)) => Err(ArchiveFault::Full(size)),
            Err(JournalFault::Mem) => Err(ArchiveFault::Mem),
            // It answers no other.
            Err(JournalFault::Foreign(_)) => Err(ArchiveFault::Mem),
            Err(JournalFault::Broken(_)) => Err(ArchiveFault::Mem),
        }
    }
}
