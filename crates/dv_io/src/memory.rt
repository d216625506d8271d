// A source and a sink over memory that fail at chosen calls, for tests.
ghost use Rattle.std.specs.Prelude.{◌≡◌, ◌<◌, ◌≤◌, ◌+◌, ◌-◌, ◌++◌, ◌^◌, ◌↔◌, ◌⊎◌, [], Some, length, take, drop, min, vec_len, vec_capacity, Contains, IsTrue, IsErr, IfOk, OnErr, OnOk};
ghost use Rattle.dv_io.specs.Io.{HasRisen, Copies, next_count};

use crate::{Failed, Sink, Source};
use std::alloc::{AllocError, Global};

/// Gives its bytes, at most `piece` of them a call, and fails at the calls whose numbers are in
/// `fails`. The first call has the number 0. Both counts stay at the last value of their type.
#[derive(Drop)]
pub struct MemSource {
    pub bytes: Vec<u8>,
    /// How many of the bytes were given already.
    pub at: usize,
    pub piece: usize,
    pub fails: Vec<u64>,
    pub calls: u64,
    pub faults: u64,
    pub ghost has_piece: { 0 < piece },
    pub ghost within: { at ≤ vec_len bytes },
}

impl Source for MemSource {
    ghost left = { λ s. Some (drop s.at s.bytes.items) };

    ghost faults = { λ s. s.faults };

    fn read(&mut self, room: &mut [u8]) -> Result<usize, Failed>
        requires { 0 < length room.old }

        // What every source ensures.
        ensures fits { IfOk result (λ n. n ≤ length room.old) }
        ensures after { IfOk result (λ n.
            drop self.new.at self.new.bytes.items
            ≡ drop n (drop self.old.at self.old.bytes.items)) }
        ensures copied { IfOk result (λ n.
            Copies n (Some (drop self.old.at self.old.bytes.items)) room.new) }
        ensures end { result ≡ Ok 0 → drop self.old.at self.old.bytes.items ≡ [] }
        ensures ended { drop self.old.at self.old.bytes.items ≡ [] → IfOk result (λ n. n ≡ 0) }
        ensures count { self.old.faults ≤ self.new.faults }
        ensures failed { OnErr result (HasRisen self.old.faults self.new.faults) }

        // The calls in the list fail. They change only the counts.
        ensures fails_at { IsErr result ↔ Contains self.old.fails.items self.old.calls }
        ensures err { OnErr result (self.new ≡ record self.old {
          calls = next_count self.old.calls;
          faults = next_count self.old.faults;
        }) }
        ensures room_kept { OnErr result (room.new ≡ room.old) }

        // Each other call gives the least of the piece, the room and what is left.
        ensures given { IfOk result (λ n.
            n ≡ min (min self.old.piece (length room.old)) (vec_len self.old.bytes - self.old.at)) }
        ensures room { IfOk result (λ n.
            room.new ≡ take n (drop self.old.at self.old.bytes.items) ++ drop n room.old) }
        ensures moves { IfOk result (λ n. self.new.at ≡ self.old.at + n) }
        ensures no_fault { OnOk result (self.new.faults ≡ self.old.faults) }

        ensures calls { self.new.calls ≡ next_count self.old.calls }
        ensures bytes { self.new.bytes ≡ self.old.bytes }
        ensures piece { self.new.piece ≡ self.old.piece }
        ensures fails { self.new.fails ≡ self.old.fails }
    {
        if count_call(&mut self.calls, &self.fails) {
            self.faults = self.faults.saturating_add(1);
            return Err(Failed);
        }
        let n = copy_piece(&self.bytes[self.at..], self.piece, room);
        self.at += n;
        Ok(n)
    }
}

/// Takes at most `piece` bytes a call and `room` bytes in all, and fails at the calls whose
/// numbers are in `fails` and once the room is used up. The first call has the number 0. Both
/// counts stay at the last value of their type. The room is capacity that was made beforehand,
/// so no write fails for want of memory.
#[derive(Drop)]
pub struct MemSink {
    pub taken: Vec<u8>,
    pub room: usize,
    pub piece: usize,
    pub fails: Vec<u64>,
    pub calls: u64,
    pub faults: u64,
    pub ghost has_piece: { 0 < piece },
    pub ghost has_room: { room ≤ vec_capacity taken },
}

impl MemSink {
    /// A sink that has taken nothing, takes so many bytes in all, and fails at no call before. The room is made here.
    ///
    /// # Errors
    ///
    /// Want of memory.
    pub fn of(alloc: Global, room: usize) -> Result<MemSink, AllocError>
        ensures empty { IfOk result (λ s. s.taken.items ≡ []) }
        ensures room { IfOk result (λ s. s.room ≡ room) }
        ensures piece { IfOk result (λ s. s.piece ≡ 2 ^ 64 - 1) }
        ensures fails { IfOk result (λ s. s.fails.items ≡ []) }
        ensures counts { IfOk result (λ s. (s.calls ≡ 0) × (s.faults ≡ 0)) }
    {
        Ok(MemSink {
            taken: Vec::with_capacity(alloc, room)?,
            room,
            piece: usize::MAX,
            fails: Vec::new(alloc),
            calls: 0,
            faults: 0,
        })
    }
}

impl Sink for MemSink {
    ghost taken = { λ s. Some s.taken.items };

    ghost faults = { λ s. s.faults };

    fn write(&mut self, bytes: &[u8]) -> Result<usize, Failed>
        requires { 0 < length bytes.now }

        // What every sink ensures. This one always tells its bytes.
        ensures some { IfOk result (λ n. (0 < n) × (n ≤ length bytes.now)) }
        ensures after { IfOk result (λ n.
            self.new.taken.items ≡ self.old.taken.items ++ take n bytes.now) }
        ensures nothing { OnErr result (self.new.taken.items ≡ self.old.taken.items) }
        ensures count { self.old.faults ≤ self.new.faults }
        ensures failed { OnErr result (HasRisen self.old.faults self.new.faults) }

        // The calls in the list fail, and those with no room left. They change only the counts.
        ensures fails_at { IsErr result ↔ (Contains self.old.fails.items self.old.calls
            ⊎ (self.old.room ≤ vec_len self.old.taken)) }
        ensures err { OnErr result (self.new ≡ record self.old {
          calls = next_count self.old.calls;
          faults = next_count self.old.faults;
        }) }

        // Each other call takes the least of the piece, the bytes and the room left.
        ensures takes { IfOk result (λ n.
            n ≡ min (min self.old.piece (length bytes.now))
            (self.old.room - vec_len self.old.taken)) }
        ensures no_fault { OnOk result (self.new.faults ≡ self.old.faults) }

        ensures calls { self.new.calls ≡ next_count self.old.calls }
        ensures room { self.new.room ≡ self.old.room }
        ensures piece { self.new.piece ≡ self.old.piece }
        ensures fails { self.new.fails ≡ self.old.fails }
    {
        let is_full = self.room <= self.taken.len();
        if count_call(&mut self.calls, &self.fails) || is_full {
            self.faults = self.faults.saturating_add(1);
            return Err(Failed);
        }
        let room_left = self.room - self.taken.len();
        let n = self.piece.min(bytes.len()).min(room_left);
        self.taken.extend_from_slice(&bytes[..n]).unwrap();
        Ok(n)
    }
}

// Counts a call, and says whether it is one of those that fail.
fn count_call(calls: &mut u64, fails: &[u64]) -> bool
    ensures fails_at { IsTrue result ↔ Contains fails.now calls.old }
    ensures calls { calls.new ≡ next_count calls.old }
{
    let is_listed = fails.contains(calls);
    *calls = calls.saturating_add(1);
    is_listed
}

// Copies the first bytes to the start of the room, at most `piece` of them, and says how many.
pub(crate) fn copy_piece(bytes: &[u8], piece: usize, room: &mut [u8]) -> usize
    ensures given { result ≡ min (min piece (length room.old)) (length bytes.now) }
    ensures room { room.new ≡ take result bytes.now ++ drop result room.old }
{
    let n = piece.min(room.len()).min(bytes.len());
    room[..n].copy_from_slice(&bytes[..n]);
    n
}
