// Writing to a sink.
ghost use Rattle.std.specs.Prelude.{◌≡◌, ◌≤◌, OnOk, OnErr};
ghost use Rattle.dv_io.specs.Io.{HasRisen, TookPart, after_write};

use dv_io::{Failed, Sink, pour};

/// Writes all of a text to a sink.
pub fn write_all<K: Sink>(sink: &mut K, text: &[u8]) -> Result<(), Failed>
    ensures ok { OnOk result (K.taken sink.new ≡ after_write text.now (K.taken sink.old)) }
    ensures part { TookPart (K.taken sink.old) (K.taken sink.new) text.now }
    ensures count { K.faults sink.old ≤ K.faults sink.new }
    ensures failed { OnErr result (HasRisen (K.faults sink.old) (K.faults sink.new)) }
{
    if pour(sink, text).fault {
        Err(Failed)
    } else {
        Ok(())
    }
}
