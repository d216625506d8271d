// What a source, a sink and a gate are.
ghost use Rattle.std.specs.Prelude.{◌≡◌, ◌<◌, ◌≤◌, [], ℕ, List, Option, length, take, IfOk, IfSome, OnErr, is_some};
ghost use Rattle.dv_io.specs.Io.{HasRisen, after_taking, Copies, after_write};

/// A read or a write failed. The count of faults of the source or the sink shows it too.
#[derive(Clone, Copy, PartialEq, Eq, Debug)]
pub struct Failed;

/// Gives bytes, one piece after another.
pub trait Source {
    /// The bytes that are left, where the source tells them.
    ghost left: { Self → Option (List ℕ) };

    /// How many faults the source has counted.
    ghost faults: { Self → ℕ };

    /// Takes the first of the bytes that are left, and puts them at the start of `room`.
    /// `Ok(0)` is the end. What a failed read does to the bytes that are left is open.
    fn read(&mut self, room: &mut [u8]) -> Result<usize, Failed>
        requires { 0 < length room.old }

        ensures fits { IfOk result (λ n. n ≤ length room.old) }
        ensures after { IfOk result (λ n. left self.new ≡ after_taking n (left self.old)) }
        ensures copied { IfOk result (λ n. Copies n (left self.old) room.new) }

        // Ok(0) is the end, and at the end Ok is Ok(0).
        ensures end { result ≡ Ok 0 → IfSome (left self.old) (λ bytes. bytes ≡ []) }
        ensures ended { left self.old ≡ Some [] → IfOk result (λ n. n ≡ 0) }

        ensures count { faults self.old ≤ faults self.new }
        ensures failed { OnErr result (HasRisen (faults self.old) (faults self.new)) };
}

/// Takes bytes, one piece after another.
pub trait Sink {
    /// The bytes that it took so far, where it tells them.
    ghost taken: { Self → Option (List ℕ) };

    /// How many faults the sink has counted.
    ghost faults: { Self → ℕ };

    /// Takes the first of the bytes, one at least. A write that fails takes none.
    fn write(&mut self, bytes: &[u8]) -> Result<usize, Failed>
        requires { 0 < length bytes.now }

        ensures some { IfOk result (λ n. (0 < n) × (n ≤ length bytes.now)) }
        ensures after { IfOk result (λ n.
            taken self.new ≡ after_write (take n bytes.now) (taken self.old)) }
        ensures nothing { OnErr result (taken self.new ≡ taken self.old) }
        ensures tells { is_some (taken self.new) ≡ is_some (taken self.old) }

        ensures count { faults self.old ≤ faults self.new }
        ensures failed { OnErr result (HasRisen (faults self.old) (faults self.new)) };
}

/// Is told where the workers are. It answers nothing and changes nothing of the machine.
/// The workers share one gate, so a gate that is handed to them is also `Sync`.
pub trait Gate {
    /// This worker runs a slice of this thread of the machine, and holds no lock.
    fn arrive(&self, worker: u32, thread: u32);

    /// The verifier begins with this method.
    fn verifying(&self, method: u32);
}
