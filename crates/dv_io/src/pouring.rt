// Bytes that go to a sink until all are taken or a write fails.
ghost use Rattle.std.specs.Prelude.{◌≡◌, ◌≤◌, true, false, length, take};
ghost use Rattle.dv_io.specs.Io.{HasRisen, after_write};

use crate::Sink;

/// How many bytes a sink took, and whether the write behind them failed.
#[derive(Clone, Copy, PartialEq, Eq, Debug)]
pub struct Poured {
    pub taken: usize,
    pub fault: bool,
}

/// Writes bytes to a sink, until it took all of them or a write failed. It takes no memory.
pub fn pour<K: Sink>(sink: &mut K, bytes: &[u8]) -> Poured
    ensures within { result.taken ≤ length bytes.now }
    ensures took { K.taken sink.new ≡ after_write (take result.taken bytes.now) (K.taken sink.old) }
    ensures all { result.fault ≡ false → result.taken ≡ length bytes.now }
    ensures count { K.faults sink.old ≤ K.faults sink.new }
    ensures fault { result.fault ≡ true → HasRisen (K.faults sink.old) (K.faults sink.new) }
{
    let mut taken = 0;
    'write: while taken < bytes.len() {
        match sink.write(&bytes[taken..]) {
            Ok(n) => taken += n,
            Err(_) => return Poured { taken, fault: true },
        }
    }
    Poured {
        taken,
        fault: false,
    }
}
