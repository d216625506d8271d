// Limits that the program never sets: a host's own.
use crate::playing::{Player, assert_end, opened, verified};
use crate::texts::{AMPLE, BOTH, MAIN_FIRST, SPENT};
use dv_defs::{Ending, Limits};
use std::alloc::Global;
use std::process::Abort;

/// Limits, how a run ends within them, and the final text.
type Row = (Limits, Ending, &'static str);

/// Six bytes, two threads, and an object of three words, which is made on four levels.
static LIMITS: [Row; 10] = [
    (Limits { output: 6, ..AMPLE }, Ending::Done, MAIN_FIRST),
    (
        Limits { output: 5, ..AMPLE },
        Ending::Output,
        "42\n#end output\n",
    ),
    (
        Limits { output: 0, ..AMPLE },
        Ending::Output,
        "#end output\n",
    ),
    (
        Limits {
            threads: 2,
            ..AMPLE
        },
        Ending::Done,
        MAIN_FIRST,
    ),
    (
        Limits {
            threads: 1,
            ..AMPLE
        },
        Ending::Done,
        "#uncaught 0 java.lang.OutOfMemoryError\n#end done\n",
    ),
    (Limits { levels: 4, ..AMPLE }, Ending::Done, MAIN_FIRST),
    (
        Limits { levels: 3, ..AMPLE },
        Ending::Done,
        "#uncaught 0 java.lang.StackOverflowError\n#end done\n",
    ),
    (Limits { heap: 3, ..AMPLE }, Ending::Done, MAIN_FIRST),
    (
        Limits { heap: 2, ..AMPLE },
        Ending::Done,
        "#uncaught 0 java.lang.OutOfMemoryError\n#end done\n",
    ),
    // as the run begins, its budget of no steps is spent
    (Limits { budget: 0, ..AMPLE }, Ending::Steps, SPENT),
];

/// Main has 200 registers, and calls a method with 57.
const WIDE: &str = "
.class LMain;
.super Ljava/lang/Object;
.method static wide()V
.registers 57
return-void
.end method
.method static main()V
.registers 200
invoke-static {}, LMain;->wide()V
return-void
.end method
";

static WIDE_LIMITS: [Row; 2] = [
    (
        Limits {
            words: 257,
            ..AMPLE
        },
        Ending::Done,
        "#end done\n",
    ),
    (
        Limits {
            words: 256,
            ..AMPLE
        },
        Ending::Done,
        "#uncaught 0 java.lang.StackOverflowError\n#end done\n",
    ),
];

fn assert_limit<R: Abort>(rt: &R, alloc: Global, player: Player<'_>, ending: Ending, text: &str) {
    let run = opened(rt, alloc, player);
    assert_end(rt, alloc, player, run, ending, text);
}

fn assert_limits<R: Abort>(rt: &R, alloc: Global, text: &str, rows: &[Row]) {
    let verified = verified(rt, alloc, text);
    for (limits, ending, text) in rows {
        let player = Player {
            verified: &verified,
            limits: *limits,
        };
        assert_limit(rt, alloc, player, *ending, text);
    }
    drop(verified);
}

#[test]
fn limits_are_the_hosts(rt: HostRuntime) {
    let alloc = rt.alloc();
    assert_limits(&rt, alloc, BOTH, LIMITS.as_slice());
    assert_limits(&rt, alloc, WIDE, WIDE_LIMITS.as_slice());
}
