//! Why a call on a log was not done.

ghost use Rattle.std.specs.Prelude.{◌≡◌};
ghost use Rattle.hy_redo.specs.Errors.{as_append, as_create};
ghost use Rattle.hy_redo.specs.declared.errors.AppendError.TheVariants as appending;
ghost use Rattle.hy_redo.specs.declared.errors.CreateError.TheVariants as creating;
ghost use Rattle.hy_redo.specs.declared.errors.RecoverError.TheVariants as recovering;

use hy_disk::DiskError;
use hy_outside::Failed;
use std::alloc::AllocError;

/// Why no log was made.
#[derive(Clone, Copy, Debug, PartialEq, Eq)]
pub enum CreateError {
    /// The disk has bytes already.
    NotEmpty,
    /// A call of the disk failed.
    DiskFault,
    /// Memory ran out.
    OutOfMemory,
}

/// Why an entry was not appended.
#[derive(Clone, Copy, Debug, PartialEq, Eq)]
pub enum AppendError {
    /// A call of the disk failed. The entry may be in the log or not; no other may be appended.
    DiskFault,
    /// Memory ran out; where the log would grow past 2^63 bytes too. The entry is not in the log.
    OutOfMemory,
}

/// Why no tables were recovered.
#[derive(Clone, Copy, Debug, PartialEq, Eq)]
pub enum RecoverError {
    /// The bytes are no log of entries that stand on the tables.
    Damaged {
        /// 0 where the header is missing, else the offset of the first gate that is missing, or whose record is missing or
        /// is of no entry that stands there.
        at: u64,
    },
    /// A call of the disk failed.
    DiskFault,
    /// Memory ran out.
    OutOfMemory,
}

impl From<DiskError> for CreateError {
    ghost from_gives = { λ from e. e ≡ as_create from };

    fn from(error: DiskError) -> CreateError {
        match error {
            DiskError::Failed => CreateError::DiskFault,
            DiskError::OutOfMemory => CreateError::OutOfMemory,
        }
    }
}

impl From<AllocError> for CreateError {
    ghost from_gives = { λ _ e. e ≡ creating.OutOfMemory };

    fn from(_error: AllocError) -> CreateError {
        CreateError::OutOfMemory
    }
}

impl From<Failed> for CreateError {
    ghost from_gives = { λ _ e. e ≡ creating.DiskFault };

    fn from(_error: Failed) -> CreateError {
        CreateError::DiskFault
    }
}

impl From<DiskError> for AppendError {
    ghost from_gives = { λ from e. e ≡ as_append from };

    fn from(error: DiskError) -> AppendError {
        match error {
            DiskError::Failed => AppendError::DiskFault,
            DiskError::OutOfMemory => AppendError::OutOfMemory,
        }
    }
}

impl From<AllocError> for AppendError {
    ghost from_gives = { λ _ e. e ≡ appending.OutOfMemory };

    fn from(_error: AllocError) -> AppendError {
        AppendError::OutOfMemory
    }
}

impl From<AllocError> for RecoverError {
    ghost from_gives = { λ _ e. e ≡ recovering.OutOfMemory };

    fn from(_error: AllocError) -> RecoverError {
        RecoverError::OutOfMemory
    }
}

impl From<Failed> for RecoverError {
    ghost from_gives = { λ _ e. e ≡ recovering.DiskFault };

    fn from(_error: Failed) -> RecoverError {
        RecoverError::DiskFault
    }
}
