// Threads that wait for each other's classes (JLS 12.4.2), and how they stand: a step of one that is held up is counted and changes nothing else,
// and one of a thread that has ended isn't counted.
use crate::run::{AMPLE, Hold, RUN, Run, Stands};
use crate::running::assert_runs;
use dv_defs::{Ending, Limits};

/// Main starts a thread, in eight steps, uses the class, and prints 0.
const USES_CLASS: &str = "
    new-instance v0, LT;
    invoke-direct {v0}, LT;-><init>()V
    invoke-virtual {v0}, LT;->start()V
    invoke-static {}, LX;->f()V
    const/4 v0, 0
    invoke-static {v0}, Ldvm/Console;->println(I)V
    return-void";

/// The thread uses it, and prints 1.
const THREAD_USES: Option<(&str, &str)> = Some((
    "2",
    "
    invoke-static {}, LX;->f()V
    const/4 v0, 1
    invoke-static {v0}, Ldvm/Console;->println(I)V
    return-void",
));

/// A class whose initialiser fails.
const FAILING: &str = "
    .class LX;
    .super Ljava/lang/Object;
    .method static f()V
    .registers 0
    return-void
    .end method
    .method static <clinit>()V
    .registers 1
    const/4 v0, 0
    array-length v0, v0
    return-void
    .end method";

static ONE_CLASS: [Run; 2] = [
    // where the initialiser fails, who waited is told that there is no such class
    Run {
        registers: "1",
        body: USES_CLASS,
        thread: THREAD_USES,
        classes: FAILING,
        turns: &[(0, 8), (1, 1)],
        threads: &[
            Stands::Died("Ljava/lang/NoClassDefFoundError;"),
            Stands::Died("Ljava/lang/ExceptionInInitializerError;"),
        ],
        // 8; the record, the initialiser begins, const, the throw, two levels are dropped; two of main's; and the thread's last level
        steps: Some(17),
        ..RUN
    },
    // a thread that flies through an initialiser has it in progress still
    Run {
        registers: "1",
        body: USES_CLASS,
        thread: THREAD_USES,
        classes: FAILING,
        turns: &[(0, 8), (1, 5)],
        limits: Limits {
            budget: 13,
            ..AMPLE
        },
        ending: Ending::Steps,
        threads: &[
            Stands::Held(Hold::Class("LX;")),
            Stands::Flying("Ljava/lang/NullPointerException;"),
        ],
        steps: Some(13),
        ..RUN
    },
];

/// Two classes whose initialisers call each other's method.
const CIRCLE: &str = "
    .class LA;
    .super Ljava/lang/Object;
    .method static touch()V
    .registers 0
    return-void
    .end method
    .method static <clinit>()V
    .registers 0
    invoke-static {}, LB;->touch()V
    return-void
    .end method
    .class LB;
    .super Ljava/lang/Object;
    .method static touch()V
    .registers 0
    return-void
    .end method
    .method static <clinit>()V
    .registers 0
    invoke-static {}, LA;->touch()V
    return-void
    .end method";

/// Main starts a thread, in eight steps, and uses B.
const USES_B: &str = "
    new-instance v0, LT;
    invoke-direct {v0}, LT;-><init>()V
    invoke-virtual {v0}, LT;->start()V
    invoke-static {}, LB;->touch()V
    return-void";

/// The thread uses A.
const USES_A: Option<(&str, &str)> = Some((
    "1",
    "
    invoke-static {}, LA;->touch()V
    return-void",
));

static TWO_CLASSES: [Run; 1] = [
    // each thread waits for the other's class
    Run {
        registers: "1",
        body: USES_B,
        thread: USES_A,
        classes: CIRCLE,
        turns: &[(0, 10), (1, 2)],
        ending: Ending::NoRunnable,
        threads: &[
            Stands::Held(Hold::Class("LA;")),
            Stands::Held(Hold::Class("LB;")),
        ],
        steps: Some(12),
        ..RUN
    },
];

#[test]
fn threads_that_wait_for_classes_stand_still(rt: HostRuntime) {
    assert_runs(&rt, rt.alloc(), ONE_CLASS.as_slice());
    assert_runs(&rt, rt.alloc(), TWO_CLASSES.as_slice());
}
