//! Sources and sinks in memory, and the standard streams.
ghost use Rattle.std.specs.Prelude.{◌<◌};

use outer_io::{
    Failed, MemSink, MemSource, QuietSink, QuietSource, ReadRefusal, Source, StdSink, StdSource,
    read_all, write_all,
};
use std::alloc::{AllocError, Global};
use std::test::Fail;

// A source of a text in memory, so many bytes at most in one call. The second call fails.
fn faulty_source(alloc: Global, text: &[u8], most: usize) -> Result<MemSource, AllocError>
    requires { 0 < most }
{
    let text = Vec::from_slice(alloc, text)?;
    Ok(MemSource::new(text, most, vec![in alloc; 2]?))
}

// Eleven bytes by at most four, the second call failing.
#[test]
fn a_source_gives_pieces_and_fails_at_its_numbers(rt: HostRuntime) -> Result<(), Fail> {
    let mut source = faulty_source(rt.alloc(), b"hello world", 4)?;
    let mut piece = [0u8; 8];
    for want in [Ok(4), Err(Failed), Ok(4), Ok(3), Ok(0)] {
        assert_eq!(rt; source.read(&mut piece), want);
    }
    assert_eq!(rt; piece.as_slice(), b"rldo\0\0\0\0".as_slice());
    Ok(())
}

// Five bytes at most of a text, so many at most in one call.
fn read_quietly(alloc: Global, text: &[u8], most: usize) -> Result<Vec<u8>, ReadRefusal>
    requires { 0 < most }
{
    read_all(
        alloc,
        &mut QuietSource::new(Vec::from_slice(alloc, text)?, most),
        5,
    )
}

// The same by at most two, the second call failing.
fn read_faultily(alloc: Global, text: &[u8]) -> Result<Vec<u8>, ReadRefusal> {
    read_all(alloc, &mut faulty_source(alloc, text, 2)?, 5)
}

#[test]
fn texts_are_read_whole_or_refused(rt: HostRuntime) -> Result<(), Fail> {
    assert_eq!(rt;
        read_quietly(rt.alloc(), b"hello", 2)?.as_slice(),
        b"hello".as_slice()
    );
    assert_eq!(rt;
        read_quietly(rt.alloc(), b"hello!", 9).err(),
        Some(ReadRefusal::TooLong { limit: 5 })
    );
    assert_eq!(rt;
        read_faultily(rt.alloc(), b"hello").err(),
        Some(ReadRefusal::Fault)
    );
    Ok(())
}

// The third call fails, so a prefix is held.
#[test]
fn a_faulty_sink_holds_a_prefix(rt: HostRuntime) -> Result<(), Fail> {
    let mut sink = MemSink::new(rt.alloc(), 16, 4, vec![in rt.alloc(); 3]?)?;
    assert_eq!(rt; write_all(&mut sink, b"hello world"), Err(Failed));
    assert_eq!(rt; sink.held(), Some(b"hello wo".as_slice()));
    Ok(())
}

// A sink with too little room tells nothing.
#[test]
fn a_sink_holds_what_it_has_room_for(rt: HostRuntime) -> Result<(), Fail> {
    let mut sink = QuietSink::new(rt.alloc(), 11, 4)?;
    write_all(&mut sink, b"hello world")?;
    assert_eq!(rt; sink.held(), Some(b"hello world".as_slice()));
    write_all(&mut sink, b"!")?;
    assert_eq!(rt; sink.held(), None);
    Ok(())
}

// The test's own standard input is empty.
#[test]
fn standard_streams(rt: HostRuntime) -> Result<(), Fail> {
    write_all(&mut StdSink::new(rt.stdout()), b"standard output\n")?;
    let mut source = StdSource::new(rt.stdin());
    assert!(rt; read_all(rt.alloc(), &mut source, 16)?.is_empty());
    Ok(())
}
