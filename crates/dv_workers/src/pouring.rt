// What is printed goes out.
ghost use Rattle.std.specs.Prelude.{◌≡◌, ◌≤◌, ◌⊎◌, ℕ, List, Option, true, false, length};
ghost use Rattle.dv_io.specs.Io.{HasRisen};
ghost use Rattle.dv_sound.specs.Runs.{AtItsState};
ghost use Rattle.dv_workers.specs.Desks.{FewWait, IsWritten, printed};

use dv_io::{Sink, pour};
use dv_sound::SafeVm;

/// How many bytes may wait.
const MOST: usize = 4095;

/// What a machine has printed, which is what the tagged machine has.
pub fn printed<'a>(vm: &'a SafeVm) -> &'a [u8]
    ensures output { result.now ≡ printed vm.now }
    ensures tagged { AtItsState vm.now (λ main m. result.now ≡ m.shared.output) }
{
    vm.output()
}

/// Writes what isn't written of what a machine has printed, until a write fails.
pub fn pour_all<K: Sink>(sink: &mut K, vm: &SafeVm, written: &mut usize, fault: &mut bool)
    requires within { written.old ≤ length (printed vm.now) }
    ensures written { (began : Option (List ℕ)) → IsWritten began (K.taken sink.old) (printed vm.now) written.old → IsWritten began (K.taken sink.new) (printed vm.now) written.new }
    ensures all { fault.new ≡ false → written.new ≡ length (printed vm.now) }
    ensures count { K.faults sink.old ≤ K.faults sink.new }
    ensures fault { fault.new ≡ true → (fault.old ≡ true) ⊎ HasRisen (K.faults sink.old) (K.faults sink.new) }
    ensures kept { fault.old ≡ true → fault.new ≡ true }
{
    if *fault {
        return;
    }
    let bytes = printed(vm);
    let poured = pour(sink, &bytes[*written..]);
    *written += poured.taken;
    *fault = poured.fault;
}

/// The same where too many bytes wait.
pub fn pour_some<K: Sink>(sink: &mut K, vm: &SafeVm, written: &mut usize, fault: &mut bool)
    requires within { written.old ≤ length (printed vm.now) }
    ensures written { (began : Option (List ℕ)) → IsWritten began (K.taken sink.old) (printed vm.now) written.old → IsWritten began (K.taken sink.new) (printed vm.now) written.new }
    ensures few { FewWait fault.new (printed vm.now) written.new }
    ensures count { K.faults sink.old ≤ K.faults sink.new }
    ensures fault { fault.new ≡ true → (fault.old ≡ true) ⊎ HasRisen (K.faults sink.old) (K.faults sink.new) }
{
    if printed(vm).len() - *written > MOST {
        pour_all(sink, vm, written, fault);
    }
}
