//! Sources and sinks, and texts of a value.

use hy_outside::{CleanSource, MemSink, MemSource, ReadAllError, Sink, read_all, write_all};
use hy_value::{Text, TextFault};
use std::test::Fail;

#[test]
fn texts_keep_their_bytes(rt: HostRuntime) {
    let alloc = rt.alloc();
    assert!(rt; matches!(Text::new(alloc, "ab"), Ok(text) if text.as_bytes() == b"ab".as_slice()));
    assert!(rt; matches!(Text::new(alloc, "a\nb"), Err(TextFault::Control)));
    assert!(rt; matches!(Text::new(alloc, ""), Ok(text) if text.as_bytes().is_empty()));
    assert!(rt; Text::empty(alloc).as_bytes().is_empty());
}

#[test]
fn a_text_has_at_most_255_bytes(rt: HostRuntime) -> Result<(), Fail> {
    let alloc = rt.alloc();
    let mut letters = String::new(alloc);
    for _ in 0..255 {
        letters.push('a')?;
    }
    assert!(rt; Text::new(alloc, letters.as_str()).is_ok());
    for last in ['a', '\n'] {
        let mut longer = letters.clone()?;
        longer.push(last)?;
        assert!(rt; matches!(Text::new(alloc, longer.as_str()), Err(TextFault::TooLong)));
    }
    Ok(())
}

#[test]
fn a_whole_source_is_read(rt: HostRuntime) -> Result<(), Fail> {
    let bytes = b"abc".to_vec(rt.alloc())?;
    let mut source = MemSource::new(bytes, 2, Vec::new(rt.alloc()));
    assert!(rt;
        matches!(read_all(rt.alloc(), &mut source, 3), Ok(read) if read.as_slice() == b"abc".as_slice())
    );
    Ok(())
}

#[test]
fn a_read_fault_ends_the_reading(rt: HostRuntime) -> Result<(), Fail> {
    let fails = [2].to_vec(rt.alloc())?;
    let mut source = MemSource::new(b"abc".to_vec(rt.alloc())?, 2, fails);
    assert!(rt;
        matches!(
            read_all(rt.alloc(), &mut source, 3),
            Err(ReadAllError::ReadFault)
        )
    );
    Ok(())
}

#[test]
fn one_byte_past_the_limit_is_too_long(rt: HostRuntime) -> Result<(), Fail> {
    let mut source = MemSource::new(b"abc".to_vec(rt.alloc())?, 2, Vec::new(rt.alloc()));
    assert!(rt;
        matches!(
            read_all(rt.alloc(), &mut source, 2),
            Err(ReadAllError::TooLong)
        )
    );
    let mut clean = CleanSource::new(b"abcd".to_vec(rt.alloc())?);
    assert!(rt;
        matches!(
            read_all(rt.alloc(), &mut clean, 2),
            Err(ReadAllError::TooLong)
        )
    );
    assert!(rt;
        matches!(read_all(rt.alloc(), &mut clean, 2), Ok(left) if left.as_slice() == b"d".as_slice())
    );
    Ok(())
}

#[test]
fn a_sink_takes_what_it_has_room_for(rt: HostRuntime) -> Result<(), Fail> {
    let mut whole = MemSink::new(rt.alloc(), 3, Vec::new(rt.alloc()))?;
    assert!(rt; write_all(&mut whole, b"abc").is_ok());
    assert_eq!(rt; whole.bytes(), b"abc".as_slice());
    let mut small = MemSink::new(rt.alloc(), 2, Vec::new(rt.alloc()))?;
    assert!(rt; write_all(&mut small, b"abc").is_err());
    assert_eq!(rt; small.bytes(), b"ab".as_slice());
    assert!(rt; small.write(b"").is_err());
    let mut broken = MemSink::new(rt.alloc(), 3, [1].to_vec(rt.alloc())?)?;
    assert!(rt; write_all(&mut broken, b"abc").is_err());
    assert!(rt; broken.bytes().is_empty());
    Ok(())
}
