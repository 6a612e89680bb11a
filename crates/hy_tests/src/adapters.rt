//! The adapters over std's readers and writers.

use hy_outside::{ReadAllError, Sink, StdSink, StdSource, read_all, write_all};
use std::io;
use std::io::{ErrorKind, Read, Write};
use std::test::Fail;

/// A reader of one byte that fails behind it, once.
#[derive(Drop)]
struct BrokenReader {
    calls: u64,
}

impl Read for BrokenReader {
    fn read(&mut self, buf: &mut [u8]) -> io::Result<usize> {
        self.calls = self.calls.saturating_add(1);
        if self.calls == 2 {
            return Err(io::Error::from(ErrorKind::Other));
        }
        match buf.first_mut() {
            Some(first) if self.calls == 1 => {
                *first = b'a';
                Ok(1)
            }
            _ => Ok(0),
        }
    }
}

/// A writer that keeps back what it takes until it is flushed.
#[derive(Drop)]
struct HoldingWriter<'a> {
    held: Vec<u8>,
    passed_on: &'a mut Vec<u8>,
}

impl Write for HoldingWriter<'_> {
    fn write(&mut self, buf: &[u8]) -> io::Result<usize> {
        self.held.extend_from_slice(buf)?;
        Ok(buf.len())
    }

    fn flush(&mut self) -> io::Result<()> {
        self.passed_on.extend_from_slice(self.held.as_slice())?;
        self.held.clear();
        Ok(())
    }
}

/// A writer that takes bytes and cannot pass them on.
#[derive(Drop)]
struct StuckWriter<'a> {
    taken: &'a mut Vec<u8>,
}

impl Write for StuckWriter<'_> {
    fn write(&mut self, buf: &[u8]) -> io::Result<usize> {
        self.taken.extend_from_slice(buf)?;
        Ok(buf.len())
    }

    fn flush(&mut self) -> io::Result<()> {
        Err(io::Error::from(ErrorKind::Other))
    }
}

#[test]
fn the_adapters_pass_bytes_on(rt: HostRuntime) -> Result<(), Fail> {
    let mut source = StdSource::new(b"abc".as_slice());
    assert!(rt;
        matches!(read_all(rt.alloc(), &mut source, 9), Ok(read) if read.as_slice() == b"abc".as_slice())
    );
    let mut room = [0u8; 2];
    let mut sink = StdSink::new(room.as_mut_slice());
    assert!(rt; write_all(&mut sink, b"abc").is_err());
    assert_eq!(rt; room, *b"ab");
    Ok(())
}

#[test]
fn a_reader_that_fails_is_a_read_fault(rt: HostRuntime) {
    let mut source = StdSource::new(BrokenReader { calls: 0 });
    assert!(rt;
        matches!(
            read_all(rt.alloc(), &mut source, 9),
            Err(ReadAllError::ReadFault)
        )
    );
}

#[test]
fn what_a_writer_holds_is_passed_on(rt: HostRuntime) -> Result<(), Fail> {
    let mut passed_on = Vec::new(rt.alloc());
    let mut sink = StdSink::new(HoldingWriter {
        held: Vec::new(rt.alloc()),
        passed_on: &mut passed_on,
    });
    assert!(rt; write_all(&mut sink, b"abc").is_ok());
    drop(sink);
    assert_eq!(rt; passed_on.as_slice(), b"abc".as_slice());
    Ok(())
}

#[test]
fn a_writer_that_cannot_pass_bytes_on_is_written_to_once(rt: HostRuntime) -> Result<(), Fail> {
    let mut taken = Vec::new(rt.alloc());
    let mut sink = StdSink::new(StuckWriter { taken: &mut taken });
    assert!(rt; write_all(&mut sink, b"abc").is_err());
    assert!(rt; sink.write(b"d").is_err());
    assert_eq!(rt; taken.as_slice(), b"abc".as_slice());
    Ok(())
}
