// Limits that no word sets, and how threads stand as a run ends: at the step that wasn't done, with an exception in flight, or dead of one.
use crate::run::{AMPLE, RUN, Run, Stands};
use crate::running::assert_runs;
use dv_defs::{Ending, Limits};

static ENDED: [Run; 5] = [
    // without steps the run has ended as it begins
    Run {
        limits: Limits { budget: 0, ..AMPLE },
        ending: Ending::Steps,
        threads: &[Stands::Runnable],
        steps: Some(0),
        ..RUN
    },
    // a print that doesn't fit isn't done
    Run {
        registers: "1",
        body: r#"
            const-string v0, "a\u00e9"
            invoke-static {v0}, Ldvm/Console;->print(Ljava/lang/String;)V
            return-void"#,
        limits: Limits { output: 2, ..AMPLE },
        ending: Ending::Output,
        threads: &[Stands::Runnable],
        steps: Some(2),
        ..RUN
    },
    // an OutOfMemoryError flies where an exception can't be wrapped
    Run {
        registers: "0",
        body: "
            invoke-static {}, LX;->t()V
            return-void",
        classes: FAILING,
        limits: Limits {
            heap: 7,
            budget: 6,
            ..AMPLE
        },
        ending: Ending::Steps,
        threads: &[Stands::Flying("Ljava/lang/OutOfMemoryError;")],
        // the record, the initialiser begins, const, the throw, and its frame and the record are dropped
        steps: Some(6),
        ..RUN
    },
    // a StackOverflowError flies where a call has no level
    Run {
        registers: "0",
        body: "
            invoke-static {}, LMain;->f()V
            return-void",
        members: "
            .method static f()V
            .registers 0
            invoke-static {}, LMain;->f()V
            return-void
            .end method",
        limits: Limits {
            levels: 2,
            budget: 2,
            ..AMPLE
        },
        ending: Ending::Steps,
        threads: &[Stands::Flying("Ljava/lang/StackOverflowError;")],
        steps: Some(2),
        ..RUN
    },
    // a monitor-exit that lacks words for its exception is gone past
    Run {
        registers: "1",
        body: "
            const-class v0, LMain;
            :from
            monitor-exit v0
            :to
            return-void
            .catchall {:from .. :to} :to",
        limits: Limits { heap: 5, ..AMPLE },
        threads: &[Stands::Died("Ljava/lang/OutOfMemoryError;")],
        // const-class, the throw, and main's frame is dropped
        steps: Some(3),
        ..RUN
    },
];

/// A class whose initialiser throws: the exception costs four words, and what wraps it four.
const FAILING: &str = "
    .class LX;
    .super Ljava/lang/Object;
    .method static t()V
    .registers 0
    return-void
    .end method
    .method static <clinit>()V
    .registers 1
    const/4 v0, 0
    array-length v0, v0
    return-void
    .end method";

#[test]
fn runs_stand_as_they_end(rt: HostRuntime) {
    assert_runs(&rt, rt.alloc(), ENDED.as_slice());
}
