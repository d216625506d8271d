// The top call over sources and sinks that fail. What words and texts come to is told by the cases of `cases/top` and `cases/listing`.
use dv_defs::Entry;
use dv_io::{MemSink, MemSource, NoGate};
use dv_top::{Report, dvm};
use std::alloc::{AllocError, Global};
use std::process::Abort;
use std::sync::Wait;
use std::test::Fail;
use std::thread::Threads;

/// So many bytes come with a read, where the text isn't read byte by byte.
pub const PIECE: usize = 64;

/// A call, and what it comes to.
#[derive(Clone, Copy)]
pub struct Row<'a> {
    words: &'a [&'a str],
    pub text: &'a str,
    failing_reads: &'a [u64],
    failing_writes: &'a [u64],
    status: u8,
    taken: &'a str,
    /// The schedule of the report.
    log: &'a [Entry],
}

/// A main method that adds the greatest int and one, run with a seed whose first two turns may have 231 and 239 steps.
pub const WRAP: Row<'static> = Row {
    words: &["run", "Main", "seed=1"],
    text: ".class LMain;
.super Ljava/lang/Object;
.method static main()V
.registers 2
const v0, 0x7fffffff
const/4 v1, 0x1
add-int v0, v0, v1
invoke-static {v0}, Ldvm/Console;->println(I)V
return-void
.end method
",
    failing_reads: &[],
    failing_writes: &[],
    status: 0,
    taken: "-2147483648\n#end done\n",
    log: &[
        Entry {
            worker: 0,
            thread: 0,
            steps: 4,
        },
        Entry {
            worker: 0,
            thread: 0,
            steps: 1,
        },
    ],
};

/// A read fails.
const UNREAD: Row<'static> = Row {
    status: 3,
    taken: "",
    log: &[],
    ..WRAP
};

/// A write fails where nothing ran.
const UNWRITTEN: Row<'static> = Row {
    status: 4,
    log: &[],
    ..WRAP
};

/// The report is what the row says.
fn assert_report<R: Abort>(rt: &R, row: &Row, report: &Report<MemSink>) {
    assert_eq!(rt; report.sink.taken.as_slice(), row.taken.as_bytes());
    assert_eq!(rt; report.status, row.status);
    assert_eq!(rt; report.outcome.code(), row.status);
    assert_eq!(rt; report.log.as_slice(), row.log);
}

/// The words over the source come to what the row says.
fn assert_call<R: Abort + Threads + Wait + Sync>(
    rt: &R,
    alloc: Global,
    row: &Row,
    words: &[String],
    source: &mut MemSource,
) -> Result<(), AllocError> {
    let sink = sink_of(alloc, row.failing_writes)?;
    let report = dvm(rt, alloc, words, source, sink, &NoGate);
    assert_report(rt, row, &report);
    drop(report);
    Ok(())
}

/// The same over the row's text, which is read in pieces.
fn assert_words<R: Abort + Threads + Wait + Sync>(
    rt: &R,
    alloc: Global,
    row: &Row,
    piece: usize,
    words: &[String],
) -> Result<(), AllocError> {
    let mut source = source_of(rt, alloc, row.text.as_bytes(), row.failing_reads, piece)?;
    let done = assert_call(rt, alloc, row, words, &mut source);
    drop(source);
    done
}

/// The row's words over its text, which is read in pieces, come to what the row says.
fn assert_row<R: Abort + Threads + Wait + Sync>(
    rt: &R,
    alloc: Global,
    row: &Row,
    piece: usize,
) -> Result<(), AllocError> {
    let words = words_of(alloc, row.words)?;
    let done = assert_words(rt, alloc, row, piece, &words);
    drop(words);
    done
}

fn add_words(alloc: Global, list: &mut Vec<String>, words: &[&str]) -> Result<(), AllocError> {
    for word in words {
        list.push(String::from_str(alloc, word)?)?;
    }
    Ok(())
}

pub fn words_of(alloc: Global, words: &[&str]) -> Result<Vec<String>, AllocError> {
    let mut list = Vec::new(alloc);
    match add_words(alloc, &mut list, words) {
        Ok(()) => Ok(list),
        Err(error) => {
            drop(list);
            Err(error)
        }
    }
}

/// The text, in pieces of so many bytes.
fn source_of<R: Abort>(
    rt: &R,
    alloc: Global,
    text: &[u8],
    fails: &[u64],
    piece: usize,
) -> Result<MemSource, AllocError> {
    assert!(rt; piece > 0);
    let bytes = Vec::from_slice(alloc, text)?;
    match Vec::from_slice(alloc, fails) {
        Ok(fails) => Ok(MemSource {
            bytes,
            at: 0,
            piece,
            fails,
            calls: 0,
            faults: 0,
        }),
        Err(error) => {
            drop(bytes);
            Err(error)
        }
    }
}

/// Room for 10000 bytes, one by one.
fn sink_of(alloc: Global, fails: &[u64]) -> Result<MemSink, AllocError> {
    let taken = Vec::with_capacity(alloc, 10_000)?;
    match Vec::from_slice(alloc, fails) {
        Ok(fails) => Ok(MemSink {
            taken,
            room: 10_000,
            piece: 1,
            fails,
            calls: 0,
            faults: 0,
        }),
        Err(error) => {
            drop(taken);
            Err(error)
        }
    }
}

/// Each read of a text fails in turn, 64 bytes a read; the one behind the last, which finds the end, too.
#[test]
fn reads_fail(rt: HostRuntime) -> Result<(), Fail> {
    for read in 0..=WRAP.text.len() / PIECE + 1 {
        let fails = [read as u64];
        assert_row(&rt, rt.alloc(), &unread(&fails), PIECE)?;
    }
    Ok(())
}

/// Each read of a byte fails in turn, and the one that finds the end.
#[test]
fn reads_of_bytes_fail(rt: HostRuntime) -> Result<(), Fail> {
    for read in 0..=WRAP.text.len() {
        let fails = [read as u64];
        assert_row(&rt, rt.alloc(), &unread(&fails), 1)?;
    }
    Ok(())
}

/// These reads fail.
fn unread(fails: &[u64]) -> Row<'_> {
    Row {
        failing_reads: fails,
        ..UNREAD
    }
}

/// There is no read behind that one.
#[test]
fn the_end_is_read_once(rt: HostRuntime) -> Result<(), Fail> {
    let fails = [WRAP.text.len().saturating_add(1) as u64];
    let row = Row {
        failing_reads: &fails,
        ..WRAP
    };
    assert_row(&rt, rt.alloc(), &row, 1)?;
    Ok(())
}

/// Each write of a byte fails in turn; the run is the same. Behind the last byte there is no write.
#[test]
fn writes_fail(rt: HostRuntime) -> Result<(), Fail> {
    for write in 0..=WRAP.taken.len() {
        let fails = [write as u64];
        assert_row(&rt, rt.alloc(), &unwritten(&fails, write), PIECE)?;
    }
    Ok(())
}

/// A write fails after so many bytes, and the sink has taken these. That of a byte past the last isn't made.
fn unwritten(fails: &[u64], written: usize) -> Row<'_> {
    Row {
        failing_writes: fails,
        status: if written < WRAP.taken.len() { 4 } else { 0 },
        taken: WRAP.taken.get(..written).unwrap_or(""),
        ..WRAP
    }
}

/// Reads and writes that fail where a program is to be listed or verified, and those of a refusal. Nothing ran, so the schedule is empty. Where the
/// words are no command the source isn't read, for its first read would fail.
const OTHERS: &[Row<'static>] = &[
    Row {
        words: &["list"],
        failing_reads: &[0],
        ..UNREAD
    },
    Row {
        words: &["list"],
        failing_writes: &[7],
        taken: ".class ",
        ..UNWRITTEN
    },
    Row {
        words: &["verify"],
        failing_writes: &[9],
        taken: "#accepted",
        ..UNWRITTEN
    },
    Row {
        words: &["replay", "Main"],
        failing_writes: &[9],
        taken: "#schedule",
        ..UNWRITTEN
    },
    Row {
        words: &["run", "Other"],
        failing_writes: &[8],
        taken: "#refused",
        ..UNWRITTEN
    },
    Row {
        words: &["run"],
        failing_reads: &[0],
        failing_writes: &[6],
        taken: "#usage",
        ..UNWRITTEN
    },
];

#[test]
fn other_calls_fail(rt: HostRuntime) -> Result<(), Fail> {
    for row in OTHERS {
        assert_row(&rt, rt.alloc(), row, PIECE)?;
    }
    Ok(())
}

/// A loop that prints without an end.
const PRINTS: Row<'static> = Row {
    words: &["run", "Main", "workers=2"],
    text: ".class LMain;
.super Ljava/lang/Object;
.method static main()V
.registers 1
const/4 v0, 0x1
:a
invoke-static {v0}, Ldvm/Console;->println(I)V
goto :a
.end method
",
    failing_writes: &[0],
    taken: "",
    ..UNWRITTEN
};

/// How many steps a schedule has.
fn steps_of(log: &[Entry]) -> u64 {
    let mut steps = 0u64;
    for entry in log {
        steps = steps.saturating_add(u64::from(entry.steps));
    }
    steps
}

/// The report is what the row says, and its schedule, whatever it is, has fewer steps than these.
fn assert_short<R: Abort>(rt: &R, row: &Row, report: &Report<MemSink>, steps: u64) {
    assert_eq!(rt; report.sink.taken.as_slice(), row.taken.as_bytes());
    assert_eq!(rt; report.status, row.status);
    assert!(rt; steps_of(&report.log) < steps);
}

/// The words over the row's text come to what the row says, in fewer steps than these.
fn assert_run<R: Abort + Threads + Wait + Sync>(
    rt: &R,
    alloc: Global,
    row: &Row,
    words: &[String],
    steps: u64,
) -> Result<(), AllocError> {
    let mut source = source_of(rt, alloc, row.text.as_bytes(), row.failing_reads, PIECE)?;
    let report = match sink_of(alloc, row.failing_writes) {
        Ok(sink) => dvm(rt, alloc, words, &mut source, sink, &NoGate),
        Err(error) => {
            drop(source);
            return Err(error);
        }
    };
    drop(source);
    assert_short(rt, row, &report, steps);
    drop(report);
    Ok(())
}

/// The row's words do.
fn assert_run_of<R: Abort + Threads + Wait + Sync>(
    rt: &R,
    alloc: Global,
    row: &Row,
    steps: u64,
) -> Result<(), AllocError> {
    let words = words_of(alloc, row.words)?;
    let done = assert_run(rt, alloc, row, &words, steps);
    drop(words);
    done
}

/// What a run prints is written while it runs: it stops at the first write, which fails, and nothing was taken.
#[test]
fn a_write_stops_workers(rt: HostRuntime) -> Result<(), Fail> {
    assert_run_of(&rt, rt.alloc(), &PRINTS, 5_000)?;
    Ok(())
}

/// Demos. None reads its source, whose first read would fail; of the second the write of its first line feed fails.
const DEMOS: &[Row<'static>] = &[
    Row {
        words: &["demo", "number=5", "classes=1000", "threads=60"],
        status: 0,
        taken: "-1506821782\n#end done\n#demo classes 1000 threads 60 methods 1003\n",
        ..UNREAD_DEMO
    },
    Row {
        failing_writes: &[8],
        status: 4,
        taken: "62004187",
        ..UNREAD_DEMO
    },
];

const UNREAD_DEMO: Row<'static> = Row {
    words: &["demo", "number=5", "classes=2", "threads=2", "workers=2"],
    failing_reads: &[0],
    ..UNREAD
};

/// A demo of a thousand classes and sixty threads has fewer than half a million steps.
#[test]
fn demos_read_no_source(rt: HostRuntime) -> Result<(), Fail> {
    for row in DEMOS {
        assert_run_of(&rt, rt.alloc(), row, 500_000)?;
    }
    Ok(())
}
