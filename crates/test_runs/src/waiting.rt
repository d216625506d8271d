// Threads that are held up, by a monitor, a wait and a join, stand still: a step of one is counted and changes nothing else.
use crate::run::{Hold, RUN, Run, Stands};
use crate::running::assert_runs;
use dv_defs::Ending;

static HELD: [Run; 3] = [
    // each holds what the other waits for
    Run {
        registers: "3",
        body: r#"
            const-class v0, LMain;
            sput-object v0, LMain;->lock:Ljava/lang/Object;
            const-string v1, "other"
            sput-object v1, LMain;->other:Ljava/lang/Object;
            new-instance v2, LT;
            invoke-direct {v2}, LT;-><init>()V
            invoke-virtual {v2}, LT;->start()V
            monitor-enter v0
            monitor-enter v1
            return-void"#,
        members: "
            .field static lock:Ljava/lang/Object;
            .field static other:Ljava/lang/Object;",
        thread: Some((
            "3",
            "
            sget-object v0, LMain;->other:Ljava/lang/Object;
            sget-object v1, LMain;->lock:Ljava/lang/Object;
            monitor-enter v0
            monitor-enter v1
            return-void",
        )),
        turns: &[(0, 13), (1, 3)],
        ending: Ending::NoRunnable,
        threads: &[Stands::Held(Hold::Monitor), Stands::Held(Hold::Monitor)],
        steps: Some(16),
        ..RUN
    },
    // nobody notifies
    Run {
        registers: "1",
        body: "
            const-class v0, LMain;
            monitor-enter v0
            invoke-virtual {v0}, Ljava/lang/Object;->wait()V
            return-void",
        ending: Ending::NoRunnable,
        threads: &[Stands::Held(Hold::Wait)],
        steps: Some(3),
        ..RUN
    },
    // it joins itself
    Run {
        registers: "1",
        body: "
            invoke-static {}, Ljava/lang/Thread;->currentThread()Ljava/lang/Thread;
            move-result-object v0
            invoke-virtual {v0}, Ljava/lang/Thread;->join()V
            return-void",
        ending: Ending::NoRunnable,
        threads: &[Stands::Held(Hold::Join(0))],
        steps: Some(2),
        ..RUN
    },
];

#[test]
fn threads_that_are_held_up_stand_still(rt: HostRuntime) {
    assert_runs(&rt, rt.alloc(), HELD.as_slice());
}
