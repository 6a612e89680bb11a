//! Sources that are read line by line.

use hy_lines::{Heard, Lines, NextError};
use hy_outside::{MemSource, Source};
use std::alloc::{AllocError, Global};
use std::test::Fail;

/// What so many calls answer: each line and a bar, a full stop at the end, and an exclamation mark at a fault.
fn told<R: Source>(alloc: Global, source: &mut R, calls: usize) -> Result<Vec<u8>, AllocError> {
    let mut lines = Lines::new(alloc);
    let mut told = Vec::new(alloc);
    for _ in 0..calls {
        match lines.next_line(alloc, source) {
            Ok(Heard::Line(line)) => {
                told.extend_from_slice(line.as_slice())?;
                told.push(b'|')?;
            }
            Ok(Heard::End) => told.push(b'.')?,
            Err(NextError::ReadFault) => told.push(b'!')?,
            Ok(Heard::TooLong) | Err(NextError::OutOfMemory) => return Err(AllocError),
        }
    }
    Ok(told)
}

/// The same of these bytes, given in pieces, where one call fails.
fn told_of(
    alloc: Global,
    bytes: &[u8],
    piece: usize,
    fails: u64,
    calls: usize,
) -> Result<Vec<u8>, AllocError> {
    if piece == 0 {
        return Err(AllocError);
    }
    let mut source = MemSource::new(bytes.to_vec(alloc)?, piece, [fails].to_vec(alloc)?);
    told(alloc, &mut source, calls)
}

#[test]
fn lines_come_whole_in_pieces_of_any_size(rt: HostRuntime) -> Result<(), Fail> {
    let alloc = rt.alloc();
    for piece in [1, 2, 7] {
        let told = told_of(alloc, b"ab\n\ncd\r\nlast", piece, 0, 6)?;
        assert_eq!(rt; told.as_slice(), b"ab||cd\r|last|..".as_slice());
    }
    Ok(())
}

#[test]
fn nothing_behind_the_last_line_feed_is_no_line(rt: HostRuntime) -> Result<(), Fail> {
    let alloc = rt.alloc();
    for piece in [1, 2, 7] {
        let told = told_of(alloc, b"a\n\n", piece, 0, 3)?;
        assert_eq!(rt; told.as_slice(), b"a||.".as_slice());
        let none = told_of(alloc, b"", piece, 0, 2)?;
        assert_eq!(rt; none.as_slice(), b"..".as_slice());
    }
    Ok(())
}

// The first call gives two lines, so the second is made only after both; the third tells the end.
#[test]
fn no_call_is_made_while_a_line_is_kept(rt: HostRuntime) -> Result<(), Fail> {
    let alloc = rt.alloc();
    let expected = [b"!a|b|cd|.", b"a|b|!cd|.", b"a|b|!cd|.", b"a|b|cd|.."];
    for (fails, expected) in (1..).zip(expected) {
        let told = told_of(alloc, b"a\nb\ncd", 4, fails, 5)?;
        assert_eq!(rt; told.as_slice(), expected.as_slice());
    }
    Ok(())
}

#[test]
fn what_came_before_a_fault_is_kept(rt: HostRuntime) -> Result<(), Fail> {
    let alloc = rt.alloc();
    let expected = [
        b"!ab|c|.", b"!ab|c|.", b"!ab|c|.", b"ab|!c|.", b"ab|!c|.", b"ab|c|..",
    ];
    for (fails, expected) in (1..).zip(expected) {
        let told = told_of(alloc, b"ab\nc", 1, fails, 4)?;
        assert_eq!(rt; told.as_slice(), expected.as_slice());
    }
    Ok(())
}
