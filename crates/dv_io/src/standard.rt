// Adapters over std's readers and writers.
ghost use Rattle.std.specs.Prelude.{◌≡◌, ◌<◌, ◌≤◌, None, length, IfOk, OnOk, OnErr};
ghost use Rattle.std.specs.Io.KnownBytes.{ReadConsumes, WriteAppends};
ghost use Rattle.dv_io.specs.Io.{HasRisen, next_count};

use crate::{Failed, Sink, Source};
use std::io::{Read, Write};

/// Reads from a reader of std. It tells no bytes. Each error of the reader is a fault, also one
/// that std would try again. The count of faults stays at the last value of its type.
#[derive(Drop)]
pub struct StdSource<R: Read> {
    pub inner: R,
    pub faults: u64,
}

impl<R: Read> Source for StdSource<R> {
    ghost left = { λ _. None };

    ghost faults = { λ s. s.faults };

    fn read(&mut self, room: &mut [u8]) -> Result<usize, Failed>
        requires { 0 < length room.old }

        // What every source ensures.
        ensures fits { IfOk result (λ n. n ≤ length room.old) }
        ensures count { self.old.faults ≤ self.new.faults }
        ensures failed { OnErr result (HasRisen self.old.faults self.new.faults) }

        // The reader gave these bytes, if it says what it gives, and none on a fault.
        ensures passed_on { ReadConsumes (R.remaining self.old.inner) (R.remaining self.new.inner)
            result room.new }
        ensures no_fault { OnOk result (self.new.faults ≡ self.old.faults) }
        ensures fault { OnErr result (self.new.faults ≡ next_count self.old.faults) }
    {
        match self.inner.read(room) {
            Ok(n) => Ok(n),
            Err(_) => {
                self.faults = self.faults.saturating_add(1);
                Err(Failed)
            }
        }
    }
}

/// Writes to a writer of std, and doesn't flush it. It tells no bytes. Each error of the writer
/// is a fault, also one that std would try again, and so is a write that took no byte. The count
/// of faults stays at the last value of its type.
#[derive(Drop)]
pub struct StdSink<W: Write> {
    pub inner: W,
    pub faults: u64,
}

impl<W: Write> Sink for StdSink<W> {
    ghost taken = { λ _. None };

    ghost faults = { λ s. s.faults };

    fn write(&mut self, bytes: &[u8]) -> Result<usize, Failed>
        requires { 0 < length bytes.now }

        // What every sink ensures.
        ensures some { IfOk result (λ n. (0 < n) × (n ≤ length bytes.now)) }
        ensures count { self.old.faults ≤ self.new.faults }
        ensures failed { OnErr result (HasRisen self.old.faults self.new.faults) }

        // The writer took these bytes, if it says what it took, and none on a fault.
        ensures passed_on { WriteAppends (W.contents self.old.inner) (W.contents self.new.inner)
            result bytes.now }
        ensures no_fault { OnOk result (self.new.faults ≡ self.old.faults) }
        ensures fault { OnErr result (self.new.faults ≡ next_count self.old.faults) }
    {
        match self.inner.write(bytes) {
            Ok(n) if n > 0 => Ok(n),
            _ => {
                self.faults = self.faults.saturating_add(1);
                Err(Failed)
            }
        }
    }
}
