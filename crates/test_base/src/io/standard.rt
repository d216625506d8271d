ghost use Rattle.std.specs.Prelude.{◌≤◌, IfOk};

use dv_io::{Failed, Sink, Source, StdSink, StdSource};
use std::io;
use std::io::{Read, Write};

// Gives or takes two bytes at its first call, fails at the second, and does nothing from then on.
#[derive(Drop)]
struct Flaky {
    calls: u8,
}

impl Flaky {
    fn next(&mut self) -> io::Result<usize>
        ensures { IfOk result (λ n. n ≤ 2) }
    {
        self.calls = self.calls.saturating_add(1);
        match self.calls {
            1 => Ok(2),
            2 => Err(io::Error::from(io::ErrorKind::BrokenPipe)),
            _ => Ok(0),
        }
    }
}

impl Read for Flaky {
    fn read(&mut self, buf: &mut [u8]) -> io::Result<usize> {
        let n = self.next()?.min(buf.len());
        buf[..n].fill(b'a');
        Ok(n)
    }
}

impl Write for Flaky {
    fn write(&mut self, buf: &[u8]) -> io::Result<usize> {
        Ok(self.next()?.min(buf.len()))
    }

    fn flush(&mut self) -> io::Result<()> {
        Ok(())
    }
}

#[test]
fn counts_a_readers_errors(rt: HostRuntime) {
    let mut source = StdSource {
        inner: Flaky { calls: 0 },
        faults: 7,
    };
    let mut room = [0; 4];
    assert_eq!(rt; source.read(&mut room), Ok(2));
    assert_eq!(rt; room, *b"aa\0\0");
    assert_eq!(rt; source.read(&mut room), Err(Failed));
    assert_eq!(rt; source.faults, 8);
    assert_eq!(rt; source.read(&mut room), Ok(0));
    assert_eq!(rt; source.faults, 8);
}

#[test]
fn counts_a_writers_errors_and_empty_writes(rt: HostRuntime) {
    let mut sink = StdSink {
        inner: Flaky { calls: 0 },
        faults: u64::MAX - 2,
    };
    assert_eq!(rt; sink.write(b"hello"), Ok(2));
    assert_eq!(rt; sink.faults, u64::MAX - 2);
    for want in [u64::MAX - 1, u64::MAX, u64::MAX] {
        assert_eq!(rt; sink.write(b"llo"), Err(Failed));
        assert_eq!(rt; sink.faults, want);
    }
}
