//! A file of the system, opened as far as it is asked for.

use hy_outside::SystemError;
use std::fmt::{self, Display, Formatter};
use std::fs::{File, OpenOptions, TryLockError};
use std::io;
use std::io::ErrorKind;
use std::os::fd::AsRawFd;
use std::os::unix::fs::FileExt;

/// The last of the descriptors of the standard streams.
const LAST_STANDARD: i32 = 2;

/// Why a call on a file failed.
#[derive(Clone, Copy, Debug, PartialEq, Eq)]
pub enum FileFault {
    /// It has no name.
    Unnamed,
    /// Another program holds it.
    InUse,
    /// It is not as it was found: it is longer or shorter, or was made or removed since.
    Changed,
    /// What was written before could not be made sure.
    Lost,
    /// The system refused the call.
    Refused(SystemError),
}

impl Display for FileFault {
    fn fmt<W: fmt::Write>(&self, f: &mut Formatter<W>) -> fmt::Result {
        match self {
            FileFault::Unnamed => f.write_str("no name of a file"),
            FileFault::InUse => f.write_str("in use by another program"),
            FileFault::Changed => f.write_str("changed by another program"),
            FileFault::Lost => f.write_str("could not be synced before"),
            FileFault::Refused(error) => Display::fmt(error, f),
        }
    }
}

impl From<io::Error> for FileFault {
    fn from(error: io::Error) -> FileFault {
        FileFault::Refused(SystemError::from(error))
    }
}

impl From<ErrorKind> for FileFault {
    fn from(kind: ErrorKind) -> FileFault {
        FileFault::Refused(SystemError::from(kind))
    }
}

/// A file, and what is known of it.
#[derive(Drop)]
pub(crate) struct Handle<'a> {
    name: &'a str,
    /// The open file, where it was found or made.
    file: Option<File>,
    /// Whether it is open for writing too.
    is_writer: bool,
    /// How many bytes it had when they were last counted. Where there was no file it had none.
    counted: Option<u64>,
}

impl<'a> Handle<'a> {
    /// A file that is not open.
    pub(crate) fn new(name: &'a str) -> Handle<'a> {
        Handle {
            name,
            file: None,
            is_writer: false,
            counted: None,
        }
    }

    /// The name that it was given.
    pub(crate) fn name(&self) -> &'a str {
        self.name
    }

    /// Whether there was a file when it was asked for last.
    pub(crate) fn is_open(&self) -> bool {
        self.file.is_some()
    }

    /// How many bytes there are.
    pub(crate) fn len(&mut self, rt: &HostRuntime) -> Result<u64, FileFault> {
        let len = match self.found(rt)? {
            Some(file) => file.metadata()?.len(),
            None => 0,
        };
        self.counted = Some(len);
        Ok(len)
    }

    /// Fills `into` from the offset on. It is an error where the bytes end before.
    pub(crate) fn read(
        &mut self,
        rt: &HostRuntime,
        at: u64,
        into: &mut [u8],
    ) -> Result<(), FileFault> {
        match self.found(rt)? {
            Some(file) => file.read_exact_at(into, at)?,
            None if into.is_empty() => {}
            None => return Err(FileFault::from(ErrorKind::UnexpectedEof)),
        }
        Ok(())
    }

    /// Writes all of `from` at the offset.
    pub(crate) fn write(
        &mut self,
        rt: &HostRuntime,
        at: u64,
        from: &[u8],
    ) -> Result<(), FileFault> {
        self.held_to_write(rt)?.write_all_at(from, at)?;
        Ok(())
    }

    /// Makes sure what the file has.
    pub(crate) fn sync(&mut self, rt: &HostRuntime) -> Result<(), FileFault> {
        let is_writer = self.is_writer;
        let Some(file) = self.found(rt)? else {
            return Ok(());
        };
        match file.sync_all() {
            Err(error) if is_writer || !is_unsynced(error.kind()) => Err(FileFault::from(error)),
            _ => Ok(()),
        }
    }

    /// The open file, which is opened for reading where it isn't open yet. None where there is none.
    fn found(&mut self, rt: &HostRuntime) -> Result<Option<&File>, FileFault> {
        if self.name.is_empty() {
            return Err(FileFault::Unnamed);
        }
        if self.file.is_none() {
            self.file = open_to_read(rt, self.name)?;
        }
        Ok(self.file.as_ref())
    }

    /// The file open for writing. Where it isn't yet it is opened, or made where there was none, and it must have as many bytes
    /// as were counted.
    fn held_to_write(&mut self, rt: &HostRuntime) -> Result<&File, FileFault> {
        let file = match self.file.take() {
            Some(file) if self.is_writer => file,
            there => {
                self.file = there;
                self.open_to_write(rt)?
            }
        };
        self.is_writer = true;
        Ok(self.file.insert(file))
    }

    /// Opens the file for writing, as it was found.
    fn open_to_write(&mut self, rt: &HostRuntime) -> Result<File, FileFault> {
        let counted = match self.counted {
            Some(count) => count,
            None => self.len(rt)?,
        };
        // The lock of a reader would keep this program itself from writing: it is let go here.
        let is_there = self.file.take().is_some();
        let file = if is_there {
            open_again(rt, self.name)?
        } else {
            make(rt, self.name)?
        };
        if file.metadata()?.len() != counted {
            return Err(FileFault::Changed);
        }
        Ok(file)
    }
}

/// Opens a file for reading, and holds it against those who write. None where there is none.
fn open_to_read(rt: &HostRuntime, name: &str) -> Result<Option<File>, FileFault> {
    match File::open(rt, name) {
        Ok(file) => {
            let file = above_standard(file)?;
            // A folder can be opened and has a length, which isn't that of any log.
            if file.metadata()?.is_dir() {
                return Err(FileFault::from(ErrorKind::IsADirectory));
            }
            held(file.try_lock_shared())?;
            Ok(Some(file))
        }
        Err(error) if error.kind() == ErrorKind::NotFound => Ok(None),
        Err(error) => Err(FileFault::from(error)),
    }
}

/// Opens a file that is there for writing, and holds it against all others.
fn open_again(rt: &HostRuntime, name: &str) -> Result<File, FileFault> {
    match OpenOptions::new().read(true).write(true).open(rt, name) {
        Ok(file) => {
            let file = above_standard(file)?;
            held(file.try_lock())?;
            Ok(file)
        }
        Err(error) if error.kind() == ErrorKind::NotFound => Err(FileFault::Changed),
        Err(error) => Err(FileFault::from(error)),
    }
}

/// Makes a file that isn't there, holds it against all others, and sees to it that its name is sure.
fn make(rt: &HostRuntime, name: &str) -> Result<File, FileFault> {
    match File::create_new(rt, name) {
        Ok(file) => {
            let file = above_standard(file)?;
            held(file.try_lock())?;
            File::open(rt, folder_of(name))?.sync_all()?;
            Ok(file)
        }
        Err(error) if error.kind() == ErrorKind::AlreadyExists => Err(FileFault::Changed),
        Err(error) => Err(FileFault::from(error)),
    }
}

/// The folder that has the file of this name.
fn folder_of(name: &str) -> &str {
    match name.rsplit_once('/') {
        Some(("", _)) => "/",
        Some((folder, _)) => folder,
        None => ".",
    }
}

/// The file, under no descriptor of a standard stream: where one of those is closed the system gives it to the next file,
/// and what is meant for the stream would be written to that. A clone has another.
fn above_standard(file: File) -> Result<File, FileFault> {
    if file.as_raw_fd() > LAST_STANDARD {
        return Ok(file);
    }
    Ok(file.try_clone()?)
}

/// Whether a lock was taken. A system that has none for this file can hold it against nobody.
fn held(taken: Result<(), TryLockError>) -> Result<(), FileFault> {
    match taken {
        Ok(()) => Ok(()),
        Err(TryLockError::WouldBlock) => Err(FileFault::InUse),
        Err(TryLockError::Error(error)) if error.kind() == ErrorKind::Unsupported => Ok(()),
        Err(TryLockError::Error(error)) => Err(FileFault::from(error)),
    }
}

/// Whether a sync failed so since the file lies where nothing is written, as on a medium for reading alone.
fn is_unsynced(kind: ErrorKind) -> bool {
    matches!(
        kind,
        ErrorKind::InvalidInput | ErrorKind::ReadOnlyFilesystem | ErrorKind::Unsupported
    )
}
