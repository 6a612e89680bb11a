//! A disk over a file of the system: the edge, where what std and the system do is trusted.
ghost use Rattle.std.specs.Prelude.{◌≡◌, None};
ghost use Rattle.std.proofs.lemmas.Option.{none-some};
ghost use Rattle.hy_outside.specs.Faults.{one_more};

use crate::handle::{FileFault, Handle};
use crate::{Disk, DiskError};
use hy_outside::Failed;
use std::marker::Model;
use std::mem;

/// The name of a log's file where none is given, in the folder that the process runs in.
const NAME: &str = "hy.log";

/// The disk over a file of the system. It is opened for reading by the first call, and made by
/// the first write, where there is none: until then it has no bytes. While it is open no other program writes to it that
/// asks for its lock too. It tells neither its bytes nor what a crash may leave.
#[derive(Drop)]
pub struct FileDisk<'a> {
    rt: &'a HostRuntime,
    handle: Handle<'a>,
    is_lost: bool,
    /// Why the first call failed that did.
    cause: Option<FileFault>,
    faults: u64,
}

impl<'a> Model for FileDisk<'a> {
    ghost use Rattle.std.specs.Prelude.{ℕ, ◌^◌, ◌<◌};

    ghost Value = { ℕ };

    ghost view = { λ s. s.faults };

    ghost invariant = { λ s. s.faults < 2 ^ 64 };
}

impl<'a> FileDisk<'a> {
    /// The disk over the file `hy.log`, which is not open yet. There was no fault.
    pub fn new(rt: &'a HostRuntime) -> FileDisk<'a>
        ensures { result ≡ 0 }
    {
        FileDisk::named(rt, NAME)
    }

    /// The same over the file of this name. Where the name is empty each call fails.
    pub fn named(rt: &'a HostRuntime, name: &'a str) -> FileDisk<'a>
        ensures { result ≡ 0 }
    {
        FileDisk {
            rt,
            handle: Handle::new(name),
            is_lost: false,
            cause: None,
            faults: 0,
        }
    }

    /// The file's name, as it was given.
    pub fn name(&self) -> &'a str {
        self.handle.name()
    }

    /// Whether there was a file when a call asked for it last.
    pub fn is_open(&self) -> bool {
        self.handle.is_open()
    }

    /// Why the first call failed that did, where one did: what fails later may follow from that.
    pub fn cause(&self) -> Option<FileFault> {
        self.cause
    }

    /// Counts a call that failed, and keeps why where it is the first.
    fn count_fault(&mut self, cause: FileFault)
        ensures { self.new ≡ one_more self.old }
    {
        self.cause = self.cause.or(Some(cause));
        self.faults = self.faults.saturating_add(1);
    }
}

impl Disk for FileDisk<'_> {
    ghost held = { λ _. None };

    ghost image = { λ _ _. ⊥ };

    ghost clock = { λ _. 0 };

    ghost image_since = { λ _ _ _. ⊥ };

    ghost faults = { λ s. s };

    fn len(&mut self) -> Result<u64, Failed> {
        match self.handle.len(self.rt) {
            Ok(count) => Ok(count),
            Err(cause) => {
                self.count_fault(cause);
                Err(Failed)
            }
        }
    }

    fn read(&mut self, at: u64, into: &mut [u8]) -> Result<(), Failed> {
        if let Err(cause) = self.handle.read(self.rt, at, into) {
            self.count_fault(cause);
            return Err(Failed);
        }
        Ok(())
    }

    fn write_at(&mut self, at: u64, from: &[u8]) -> Result<(), DiskError> {
        if let Err(cause) = self.handle.write(self.rt, at, from) {
            self.count_fault(cause);
            return Err(DiskError::Failed);
        }
        Ok(())
    }

    // After a sync that failed the system may have dropped what was written, and a later one may succeed
    // all the same. So once one has failed, each fails.
    fn sync(&mut self) -> Result<(), Failed> {
        if self.is_lost {
            self.count_fault(FileFault::Lost);
            return Err(Failed);
        }
        if let Err(cause) = self.handle.sync(self.rt) {
            self.is_lost = true;
            self.count_fault(cause);
            return Err(Failed);
        }
        Ok(())
    }

    // The file stays open in the disk that is taken: what is left holds none.
    fn take(&mut self) -> Self {
        let left = FileDisk::named(self.rt, self.name());
        mem::replace(self, left)
    }

    ghost held_is_image = { λ s bytes is. absurd (none-some bytes is) };

    ghost image_counts = { λ s time image le left. left };

    ghost later_counts = { λ s time later image le left. left };

    ghost now_alone = { λ s image left. left };
}
