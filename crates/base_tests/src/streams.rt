//! Tests of sources and sinks, in memory and of the process.
use hopf_io::{
    Bytes, Calls, Failed, MemorySink, MemorySource, Sink, Source, StdSink, StdSource, send_all,
};
use std::test::Fail;

/// What each call that can want memory answers with ample memory.
#[test]
fn calls_with_ample_memory(rt: HostRuntime) -> Result<(), Fail> {
    let mut bytes = Bytes::new(rt.alloc());
    bytes.push_all(b"ab")?;
    bytes.push_all(b"c")?;
    assert_eq!(rt; bytes.as_slice(), b"abc".as_slice());

    let mut calls = Calls::none(rt.alloc());
    calls.push(2)?;
    calls.push(5)?;
    assert!(rt; calls.contains(5) && !calls.contains(1));

    let mut sink = MemorySink::new(rt.alloc(), 4, Calls::none(rt.alloc()))?;
    assert!(rt; send_all(&mut sink, b"abcd").is_ok());
    assert_eq!(rt; sink.taken(), b"abcd".as_slice());
    Ok(())
}

/// A source gives its input, a failing call costs nothing of it, and a full sink fails.
#[test]
fn faults_are_counted(rt: HostRuntime) -> Result<(), Fail> {
    let mut input = Bytes::new(rt.alloc());
    input.push_all(b"hopf")?;
    let mut failing = Calls::none(rt.alloc());
    failing.push(2)?;
    let mut source = MemorySource::new(rt.alloc(), input, failing);
    let mut buffer = [0; 3];
    assert_eq!(rt; source.read(&mut buffer), Ok(3));
    assert_eq!(rt; source.read(&mut buffer), Err(Failed));
    assert_eq!(rt; source.faults(), 1);
    assert_eq!(rt; source.read(&mut buffer), Ok(1));
    assert_eq!(rt; buffer[0], b'f');
    assert_eq!(rt; source.read(&mut buffer), Ok(0));
    assert_eq!(rt; source.given(), 4);

    let mut sink = MemorySink::new(rt.alloc(), 2, Calls::none(rt.alloc()))?;
    assert_eq!(rt; send_all(&mut sink, b"abc"), Err(Failed));
    assert_eq!(rt; sink.taken(), b"ab".as_slice());
    assert_eq!(rt; sink.faults(), 1);
    assert_eq!(rt; sink.flush(), Ok(()));
    Ok(())
}

/// The real streams: standard input is read, and standard output and error are written.
#[test]
fn real_streams(rt: HostRuntime) {
    let mut source = StdSource::new(&rt);
    let mut buffer = [0; 16];
    let answer = source.read(&mut buffer);
    assert!(rt; answer.is_ok() || source.faults() == 1);
    let mut out = StdSink::new(rt.stdout());
    assert!(rt; send_all(&mut out, b"to standard output\n").is_ok());
    assert!(rt; out.flush().is_ok());
    let mut err = StdSink::new(rt.stderr());
    assert!(rt; send_all(&mut err, b"to standard error\n").is_ok());
    assert_eq!(rt; err.faults(), 0);
}
