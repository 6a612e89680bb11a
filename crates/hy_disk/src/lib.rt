//! A disk: bytes that are written in place or past the end, and that are sure only once they are synced.
//! Until then each range that was written since, that of a failed write too, may hold any bytes after a
//! crash, as may the part past the old end.
#![tactic(auto)]

ghost use Rattle.std.specs.Prelude.{◌≡◌, ℕ, ◌+◌, ◌^◌, ◌<◌, ◌≤◌, List, Option, Some, length, option_map, IfOk, OnOk, OnErr, IsErrOf};
ghost use Rattle.hy_outside.specs.Faults.{Rose};
ghost use Rattle.hy_disk.specs.declared.DiskError.TheVariants.{OutOfMemory};
ghost use Rattle.hy_disk.specs.Bytes.{overwritten, HasLength, ReachesTo, ReadsAt, TouchedWhereTold};
ghost use Rattle.hy_disk.specs.Calls.{Stays, Writes, Syncs, IsDurable};

mod absent;
mod bytes;
mod file;
mod handle;
mod memory;
mod replay;

pub use absent::NoDisk;
pub use file::FileDisk;
pub use handle::FileFault;
use hy_outside::Failed;
pub use memory::MemDisk;
use std::alloc::AllocError;

/// Why a write was not done.
#[derive(Clone, Copy, Debug, PartialEq, Eq)]
pub enum DiskError {
    /// The disk failed. The range may hold any bytes.
    Failed,
    /// Memory ran out. Nothing was written.
    OutOfMemory,
}

impl From<AllocError> for DiskError {
    ghost from_gives = { λ _ e. e ≡ OutOfMemory };

    fn from(_error: AllocError) -> DiskError {
        DiskError::OutOfMemory
    }
}

/// Bytes that outlive a crash. Offsets and counts are in bytes.
pub trait Disk: Drop {
    // What a read gives, where the disk tells it. Where it does not, nothing is claimed of the bytes.
    ghost held: { Self → Option (List ℕ) };

    // A crash now may leave these bytes. A disk that tells none claims nothing of crashes.
    ghost image: { Self → List ℕ → Type 0 };

    // The time of the disk, which never falls.
    ghost clock: { Self → ℕ };

    // A crash at some moment since a time, within a call or between two, may have left these bytes.
    ghost image_since: { Self → ℕ → List ℕ → Type 0 };

    // How many calls failed, up to the end of a `u64`.
    ghost faults: { Self → ℕ };

    /// How many bytes there are.
    fn len(&mut self) -> Result<u64, Failed>
        ensures count { IfOk result (λ n. HasLength (held self.old) n) }
        ensures held { held self.new ≡ held self.old }
        ensures stays { Stays clock image image_since self.old self.new }
        ensures steady { OnOk result (faults self.new ≡ faults self.old) }
        ensures fault { OnErr result (Rose (faults self.old) (faults self.new)) }
        ensures never_fell { faults self.old ≤ faults self.new }
        ensures in_range { faults self.new < 2 ^ 64 };

    /// Fills `into` with the bytes from the offset `at` on. After a failure `into` may hold any bytes.
    fn read(&mut self, at: u64, into: &mut [u8]) -> Result<(), Failed>
        requires within { ReachesTo (held self.old) (at + length into.old) }
        ensures bytes { OnOk result (ReadsAt (held self.old) at into.new) }
        ensures held { held self.new ≡ held self.old }
        ensures stays { Stays clock image image_since self.old self.new }
        ensures steady { OnOk result (faults self.new ≡ faults self.old) }
        ensures fault { OnErr result (Rose (faults self.old) (faults self.new)) }
        ensures never_fell { faults self.old ≤ faults self.new }
        ensures in_range { faults self.new < 2 ^ 64 };

    /// Writes `from` over the bytes from the offset `at` on, and past the end.
    fn write_at(&mut self, at: u64, from: &[u8]) -> Result<(), DiskError>
        requires within { ReachesTo (held self.old) at }
        requires in_range { at + length from.now < 2 ^ 64 }
        ensures written { OnOk result (held self.new ≡ option_map (λ bytes. overwritten bytes at from.now) (held self.old)) }
        ensures torn { IsErrOf result DiskError.Failed → TouchedWhereTold at (length from.now) (held self.old) (held self.new) }
        ensures kept { IsErrOf result DiskError.OutOfMemory → held self.new ≡ held self.old }
        ensures stays { IsErrOf result DiskError.OutOfMemory → Stays clock image image_since self.old self.new }
        ensures writes { Writes clock image image_since at (length from.now) self.old self.new }
        ensures steady { ¬ IsErrOf result DiskError.Failed → faults self.new ≡ faults self.old }
        ensures fault { IsErrOf result DiskError.Failed → Rose (faults self.old) (faults self.new) }
        ensures never_fell { faults self.old ≤ faults self.new }
        ensures in_range { faults self.new < 2 ^ 64 };

    /// Makes sure what a read gives: from then on a crash leaves it, until the next write.
    fn sync(&mut self) -> Result<(), Failed>
        ensures durable { OnOk result (IsDurable (held self.new) (image self.new)) }
        ensures held { held self.new ≡ held self.old }
        ensures syncs { Syncs held clock image image_since self.old self.new }
        ensures steady { OnOk result (faults self.new ≡ faults self.old) }
        ensures fault { OnErr result (Rose (faults self.old) (faults self.new)) }
        ensures never_fell { faults self.old ≤ faults self.new }
        ensures in_range { faults self.new < 2 ^ 64 };

    /// Takes the disk out of its place, as `mem::take` does. What is left there is a disk of which nothing is known.
    fn take(&mut self) -> Self
        ensures { result ≡ self.old };

    // What a read gives is an image.
    ghost held_is_image: { (disk : Self) (bytes : List ℕ) → held disk ≡ Some bytes → image disk bytes };

    // This moment is one of those since a time before.
    ghost image_counts: { (disk : Self) (time : ℕ) (bytes : List ℕ) → time ≤ clock disk → image disk bytes → image_since disk time bytes };

    // The moments since a time are among those since an earlier one.
    ghost later_counts: { (disk : Self) (time later : ℕ) (bytes : List ℕ) → time ≤ later → image_since disk later bytes → image_since disk time bytes };

    // Since now there is no moment but this.
    ghost now_alone: { (disk : Self) (bytes : List ℕ) → image_since disk (clock disk) bytes → image disk bytes };
}
