use dv_io::{MemSink, Poured, pour};
use std::test::Fail;

// Two bytes a call, and the second call fails; what is left goes in with the next pour.
#[test]
fn a_write_that_fails_stops_the_pouring(rt: HostRuntime) -> Result<(), Fail> {
    let mut sink = MemSink {
        taken: Vec::with_capacity(rt.alloc(), 8)?,
        room: 8,
        piece: 2,
        fails: Vec::from_slice(rt.alloc(), &[1])?,
        calls: 0,
        faults: 0,
    };
    let stopped = Poured {
        taken: 2,
        fault: true,
    };
    let rest = Poured {
        taken: 3,
        fault: false,
    };
    assert_eq!(rt; pour(&mut sink, b"hello"), stopped);
    assert_eq!(rt; sink.taken.as_slice(), b"he".as_slice());
    assert_eq!(rt; pour(&mut sink, b"llo"), rest);
    assert_eq!(rt; sink.taken.as_slice(), b"hello".as_slice());
    assert_eq!(rt; (sink.calls, sink.faults), (4, 1));
    Ok(())
}
