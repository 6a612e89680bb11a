//! The disk over a file, in the folder that the test runs in: no clause says what the system does.

use crate::logs::{LOG, has_number, tables};
use hy_disk::{Disk, FileDisk, FileFault};
use hy_redo::{CreateError, RecoverError, create, recover};
use std::fs;
use std::fs::OpenOptions;
use std::test::*;

#[test]
fn keeps_what_is_written(rt: HostRuntime) -> Result<(), Fail> {
    let name = "kept.log";
    let _ = fs::remove_file(&rt, name);
    let mut disk = FileDisk::named(&rt, name);
    assert_eq!(rt; disk.len()?, 0);
    disk.write_at(0, b"abcdef")?;
    disk.sync()?;
    disk.write_at(2, b"CD")?;
    assert_eq!(rt; disk.len()?, 6);
    let mut other = FileDisk::named(&rt, name);
    assert!(rt; other.len().is_err());
    assert_eq!(rt; other.cause(), Some(FileFault::InUse));
    drop(disk);
    let mut middle = [0; 3];
    other.read(1, &mut middle)?;
    assert_eq!(rt; middle, *b"bCD");
    other.write_at(6, b"g")?;
    assert_eq!(rt; fs::read(&rt, name)?.as_slice(), b"abCDefg".as_slice());
    fs::remove_file(&rt, name)?;
    Ok(())
}

#[test]
fn leaves_a_log_that_is_found(rt: HostRuntime) -> Result<(), Fail> {
    let name = "found.log";
    fs::write(&rt, name, LOG.as_slice())?;
    let mut disk = FileDisk::named(&rt, name);
    assert!(rt; matches!(create(&mut disk), Err(CreateError::NotEmpty)));
    let found = recover(rt.alloc(), &mut disk, tables(rt.alloc(), 1)?)?;
    assert!(rt; has_number(&found, 5));
    assert_eq!(rt; fs::read(&rt, name)?.as_slice(), LOG.as_slice());
    // What follows the closed gate is more than memory has room for.
    let file = OpenOptions::new().write(true).open(&rt, name)?;
    file.set_len(1 << 40)?;
    let found = recover(rt.alloc(), &mut disk, tables(rt.alloc(), 1)?)?;
    assert!(rt; has_number(&found, 5));
    fs::remove_file(&rt, name)?;
    Ok(())
}

#[test]
fn makes_no_file_before_it_writes(rt: HostRuntime) -> Result<(), Fail> {
    let name = "missing.log";
    let _ = fs::remove_file(&rt, name);
    let mut disk = FileDisk::named(&rt, name);
    let found = recover(rt.alloc(), &mut disk, tables(rt.alloc(), 1)?);
    assert!(rt; matches!(found, Err(RecoverError::Damaged { at: 0 })));
    assert!(rt; !fs::exists(&rt, name)?);
    fs::write(&rt, name, b"another".as_slice())?;
    assert!(rt; disk.write_at(0, b"log").is_err());
    assert_eq!(rt; disk.cause(), Some(FileFault::Changed));
    assert_eq!(rt; fs::read(&rt, name)?.as_slice(), b"another".as_slice());
    fs::remove_file(&rt, name)?;
    Ok(())
}

// The system syncs no file that is a view of a process.
#[test]
fn fails_where_a_sync_does(rt: HostRuntime) -> Result<(), Fail> {
    let mut disk = FileDisk::named(&rt, "/proc/self/comm");
    disk.write_at(0, b"")?;
    assert!(rt; disk.sync().is_err());
    let cause = disk.cause();
    assert!(rt; matches!(cause, Some(FileFault::Refused(_))));
    assert!(rt; disk.sync().is_err());
    assert_eq!(rt; disk.cause(), cause);
    Ok(())
}
