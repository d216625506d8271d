// Versions that never fail.
ghost use Rattle.std.specs.Prelude.{◌≡◌, ◌<◌, ◌≤◌, ◌+◌, ◌-◌, ◌++◌, ◌^◌, [], Some, None, length, take, drop, min, vec_len, IsOk, IfOk};
ghost use Rattle.dv_io.specs.Io.{Copies};

use crate::memory::copy_piece;
use crate::{Failed, Gate, Sink, Source};

/// Gives its bytes, at most `piece` of them a call, and never fails.
#[derive(Drop)]
pub struct PlainSource {
    pub bytes: Vec<u8>,
    /// How many of the bytes were given already.
    pub at: usize,
    pub piece: usize,
    pub ghost has_piece: { 0 < piece },
    pub ghost within: { at ≤ vec_len bytes },
}

impl PlainSource {
    /// A source of a text, from its start, as much of it a call as there is room for.
    pub fn of(text: Vec<u8>) -> PlainSource
        ensures bytes { result.bytes ≡ text }
        ensures start { result.at ≡ 0 }
        ensures piece { result.piece ≡ 2 ^ 64 - 1 }
    {
        PlainSource {
            bytes: text,
            at: 0,
            piece: usize::MAX,
        }
    }
}

impl Source for PlainSource {
    ghost left = { λ s. Some (drop s.at s.bytes.items) };

    ghost faults = { λ _. 0 };

    fn read(&mut self, room: &mut [u8]) -> Result<usize, Failed>
        requires { 0 < length room.old }

        // What every source ensures. This one has no faults.
        ensures fits { IfOk result (λ n. n ≤ length room.old) }
        ensures after { IfOk result (λ n.
            drop self.new.at self.new.bytes.items
            ≡ drop n (drop self.old.at self.old.bytes.items)) }
        ensures copied { IfOk result (λ n.
            Copies n (Some (drop self.old.at self.old.bytes.items)) room.new) }
        ensures end { result ≡ Ok 0 → drop self.old.at self.old.bytes.items ≡ [] }
        ensures ended { drop self.old.at self.old.bytes.items ≡ [] → IfOk result (λ n. n ≡ 0) }

        // Each call gives the least of the piece, the room and what is left.
        ensures ok { IsOk result }
        ensures given { IfOk result (λ n.
            n ≡ min (min self.old.piece (length room.old)) (vec_len self.old.bytes - self.old.at)) }
        ensures room { IfOk result (λ n.
            room.new ≡ take n (drop self.old.at self.old.bytes.items) ++ drop n room.old) }
        ensures moves { IfOk result (λ n. self.new.at ≡ self.old.at + n) }

        ensures bytes { self.new.bytes ≡ self.old.bytes }
        ensures piece { self.new.piece ≡ self.old.piece }
    {
        let n = copy_piece(&self.bytes[self.at..], self.piece, room);
        self.at += n;
        Ok(n)
    }
}

/// Takes every byte of each write, keeps none and tells none.
#[derive(Clone, Copy)]
pub struct PlainSink;

impl Sink for PlainSink {
    ghost taken = { λ _. None };

    ghost faults = { λ _. 0 };

    fn write(&mut self, bytes: &[u8]) -> Result<usize, Failed>
        requires { 0 < length bytes.now }
        ensures { result ≡ Ok (length bytes.now) }
    {
        Ok(bytes.len())
    }
}

/// A gate that does nothing.
#[derive(Clone, Copy)]
pub struct NoGate;

impl Gate for NoGate {
    fn arrive(&self, _worker: u32, _thread: u32) {}

    fn verifying(&self, _method: u32) {}
}
