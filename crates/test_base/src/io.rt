// Each version through its bound, as the machine uses it.
mod memory;
mod pouring;
mod standard;

use dv_io::{
    Failed, Gate, MemSink, MemSource, NoGate, PlainSink, PlainSource, Sink, Source, StdSink,
    StdSource,
};
use std::test::Fail;

// Tells the gate, reads once, and writes what was read.
fn pass_on<S: Source, K: Sink, G: Gate + Sync>(
    source: &mut S,
    sink: &mut K,
    gate: &G,
) -> Result<usize, Failed> {
    gate.verifying(1);
    gate.arrive(2, 3);
    let mut room = [0; 4];
    let n = source.read(&mut room)?;
    if n == 0 {
        return Ok(0);
    }
    sink.write(&room[..n])
}

#[test]
fn memory_to_memory(rt: HostRuntime) -> Result<(), Fail> {
    let mut source = MemSource {
        bytes: Vec::from_slice(rt.alloc(), b"hello")?,
        at: 0,
        piece: 9,
        fails: Vec::new(rt.alloc()),
        calls: 0,
        faults: 0,
    };
    let mut sink = MemSink {
        taken: Vec::with_capacity(rt.alloc(), 9)?,
        room: 9,
        piece: 9,
        fails: Vec::from_slice(rt.alloc(), &[1])?,
        calls: 0,
        faults: 0,
    };
    assert_eq!(rt; pass_on(&mut source, &mut sink, &NoGate), Ok(4));
    assert_eq!(rt; pass_on(&mut source, &mut sink, &NoGate), Err(Failed));
    assert_eq!(rt; pass_on(&mut source, &mut sink, &NoGate), Ok(0));
    assert_eq!(rt; sink.taken.as_slice(), b"hell".as_slice());
    Ok(())
}

#[test]
fn a_text_to_a_room(rt: HostRuntime) -> Result<(), Fail> {
    let mut source = PlainSource::of(Vec::from_slice(rt.alloc(), b"hello")?);
    let mut sink = MemSink::of(rt.alloc(), 5)?;
    assert_eq!(rt; pass_on(&mut source, &mut sink, &NoGate), Ok(4));
    assert_eq!(rt; pass_on(&mut source, &mut sink, &NoGate), Ok(1));
    assert_eq!(rt; pass_on(&mut source, &mut sink, &NoGate), Ok(0));
    assert_eq!(rt; sink.taken.as_slice(), b"hello".as_slice());
    assert_eq!(rt; sink.write(b"!"), Err(Failed));
    assert_eq!(rt; sink.faults, 1);
    Ok(())
}

#[test]
fn plain_to_plain(rt: HostRuntime) -> Result<(), Fail> {
    let mut source = PlainSource {
        bytes: Vec::from_slice(rt.alloc(), b"hello")?,
        at: 0,
        piece: 3,
    };
    for want in [3, 2, 0] {
        assert_eq!(rt; pass_on(&mut source, &mut PlainSink, &NoGate), Ok(want));
    }
    Ok(())
}

#[test]
fn reader_to_writer(rt: HostRuntime) -> Result<(), Fail> {
    let mut source = StdSource {
        inner: b"hello".as_slice(),
        faults: 0,
    };
    let mut sink = StdSink {
        inner: Vec::with_capacity(rt.alloc(), 5)?,
        faults: 0,
    };
    for want in [4, 1, 0] {
        assert_eq!(rt; pass_on(&mut source, &mut sink, &NoGate), Ok(want));
    }
    assert_eq!(rt; sink.inner.as_slice(), b"hello".as_slice());
    assert_eq!(rt; (source.faults, sink.faults), (0, 0));
    Ok(())
}
