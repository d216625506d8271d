// What a call comes to.
ghost use Rattle.std.specs.Prelude.{◌≡◌, []};
ghost use Rattle.dv_top.specs.Said.{usage};
ghost use Rattle.dv_top.specs.Status.{code_of, status_of_error};
ghost use Rattle.dv_top.specs.Written.{IsReported};

use crate::printing::USAGE;
use crate::reading::ReadError;
use crate::reply::{Reply, write_reply};
use crate::status::Status;
use crate::writing::write_all;
use dv_defs::Entry;
use dv_io::{Failed, Sink};
use std::alloc::Global;

/// What a call came to.
#[derive(Drop)]
pub struct Report<K> {
    /// The number of the outcome, which the program exits with.
    pub status: u8,
    /// How the call ended.
    pub outcome: Status,
    /// The schedule that was run: its turns, in order.
    pub log: Vec<Entry>,
    /// The sink that was handed in.
    pub sink: K,
    pub ghost numbered: { status ≡ code_of outcome },
}

/// Nothing ran, and nothing is written.
pub fn report_of_status<K>(alloc: Global, status: Status, sink: K) -> Report<K>
    ensures status { result.status ≡ code_of status }
    ensures log { result.log.items ≡ [] }
    ensures sink { result.sink ≡ sink }
{
    Report {
        status: status.code(),
        outcome: status,
        log: Vec::new(alloc),
        sink,
    }
}

/// The source wasn't read.
pub fn report_of_error<K>(alloc: Global, error: ReadError, sink: K) -> Report<K>
    ensures status { result.status ≡ code_of (status_of_error error) }
    ensures log { result.log.items ≡ [] }
    ensures sink { result.sink ≡ sink }
{
    report_of_status(alloc, error.status(), sink)
}

/// Nothing ran, and a reply is written.
pub fn report_of_reply<K: Sink>(alloc: Global, reply: &Reply, sink: K) -> Report<K>
    ensures written { IsReported K.taken K.faults reply.now.status reply.now.text.items sink result.sink result.status }
    ensures log { result.log.items ≡ [] }
{
    let mut sink = sink;
    let status = write_reply(reply, &mut sink);
    report_of_status(alloc, status, sink)
}

/// The words aren't read.
pub fn report_of_usage<K: Sink>(alloc: Global, sink: K) -> Report<K>
    ensures written { IsReported K.taken K.faults Status.Usage usage sink result.sink result.status }
    ensures log { result.log.items ≡ [] }
{
    let mut sink = sink;
    let status = match write_all(&mut sink, USAGE) {
        Ok(()) => Status::Usage,
        Err(Failed) => Status::WriteFault,
    };
    report_of_status(alloc, status, sink)
}
