//! The trait of a disk: what a read gives, and what a stop may leave.

ghost use Rattle.std.specs.Prelude.{◌≡◌, ◌<◌, ◌≤◌, List, ℕ, Bool, true, length, take, drop, IfOk, OnOk, OnErr, IsErr};
ghost use Rattle.outside.specs.Faults.{HasCause, counted};
ghost use Rattle.outside.specs.Disks.{DiskState, FailsToWrite, Puts, after_sync, after_write, disk_state_of};

use crate::source::Failed;

/// What bytes are kept on, of which a stop may leave others than those that a read gives.
///
/// `Failed` is answered only where the count of faults rose, or stands at its last value.
pub trait Disk {
    /// Whether it is told what it holds. It isn't of a file of the system.
    ghost tells: { Bool };

    /// The states that it had, the newest first, where they are told.
    ghost told: { Self → List DiskState };

    /// How many of its calls failed, 0 to 2^64 - 1.
    ghost faults: { Self → ℕ };

    /// Reads from an offset on, and says how many bytes: none only at the end or behind it.
    fn read(&mut self, at: u64, buf: &mut [u8]) -> Result<usize, Failed>
        ensures count { IfOk result (λ k. k ≤ length buf.old) }
        ensures bytes { tells ≡ true → IfOk result (λ k. take k buf.new ≡ take k (drop at (disk_state_of (told self.old)).seen)) }
        ensures end { tells ≡ true → IfOk result (λ k. k ≡ 0 → 0 < length buf.old → length (disk_state_of (told self.old)).seen ≤ at) }
        ensures same { tells ≡ true → told self.new ≡ told self.old }
        ensures cause { HasCause (faults self.old) (faults self.new) (IsErr result) }
        ensures counts { faults self.new ≡ counted (faults self.old) result };

    /// Writes bytes at an offset. Until a sync, a stop may leave any bytes there and behind the old end, also where it failed.
    fn write_at(&mut self, at: u64, bytes: &[u8]) -> Result<(), Failed>
        ensures written { tells ≡ true → OnOk result (told self.new ≡ after_write at bytes.now (told self.old)) }
        ensures err { tells ≡ true → OnErr result (FailsToWrite (record { at = at; count = length bytes.now }) (told self.old) (told self.new)) }
        ensures cause { HasCause (faults self.old) (faults self.new) (IsErr result) }
        ensures counts { faults self.new ≡ counted (faults self.old) result };

    /// After it, a stop leaves what a read gives.
    fn sync(&mut self) -> Result<(), Failed>
        ensures synced { tells ≡ true → OnOk result (told self.new ≡ after_sync (told self.old)) }
        ensures err { tells ≡ true → OnErr result (told self.new ≡ told self.old) }
        ensures cause { HasCause (faults self.old) (faults self.new) (IsErr result) }
        ensures counts { faults self.new ≡ counted (faults self.old) result };
}

/// Writes bytes at an offset, and syncs, and stops at the first call of the disk that fails: then the count of faults rises by one, and else it
/// stands. At `Failed` a stop may leave the write in part.
pub fn put<D: Disk>(disk: &mut D, at: u64, bytes: &[u8]) -> Result<(), Failed>
    ensures { Puts at bytes.now D.tells (D.told disk.old) (D.told disk.new) (D.faults disk.old) (D.faults disk.new) result (IsErr result) }
{
    disk.write_at(at, bytes)?;
    disk.sync()
}
