// The whole machine over memory.
use dv_io::{MemSink, NoGate, PlainSource};
use dv_top::dvm;
use std::alloc::{AllocError, Global};
use std::sync::Wait;
use std::thread::Threads;

/// What the class `Main` of a text prints, in the sink's `taken`.
pub fn run_main<R: Threads + Wait + Sync>(
    rt: &R,
    alloc: Global,
    text: Vec<u8>,
) -> Result<MemSink, AllocError> {
    let words = vec![in alloc;
        String::from_str(alloc, "run")?,
        String::from_str(alloc, "Main")?,
    ]?;
    let sink = MemSink::of(alloc, 65_536)?;
    let mut source = PlainSource::of(text);
    let report = dvm(rt, alloc, &words, &mut source, sink, &NoGate);
    Ok(report.sink)
}
