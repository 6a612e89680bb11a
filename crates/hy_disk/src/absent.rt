//! A disk that is not there.
ghost use Rattle.std.specs.Prelude.{◌-◌, ◌^◌, None};
ghost use Rattle.std.proofs.lemmas.Option.{none-some};

use crate::{Disk, DiskError};
use hy_outside::Failed;

/// No disk, for those who keep nothing: each call fails, and nothing is told of it.
#[derive(Clone, Copy, Debug, PartialEq, Eq)]
pub struct NoDisk;

impl Disk for NoDisk {
    ghost held = { λ _. None };

    ghost image = { λ _ _. ⊥ };

    ghost clock = { λ _. 0 };

    ghost image_since = { λ _ _ _. ⊥ };

    // Of its failures no count is kept: it stands at its end.
    ghost faults = { λ _. 2 ^ 64 - 1 };

    fn len(&mut self) -> Result<u64, Failed> {
        Err(Failed)
    }

    fn read(&mut self, _at: u64, _into: &mut [u8]) -> Result<(), Failed> {
        Err(Failed)
    }

    fn write_at(&mut self, _at: u64, _from: &[u8]) -> Result<(), DiskError> {
        Err(DiskError::Failed)
    }

    fn sync(&mut self) -> Result<(), Failed> {
        Err(Failed)
    }

    fn take(&mut self) -> NoDisk {
        NoDisk
    }

    ghost held_is_image = { λ s bytes is. absurd (none-some bytes is) };

    ghost image_counts = { λ s time image le left. left };

    ghost later_counts = { λ s time later image le left. left };

    ghost now_alone = { λ s image left. left };
}
