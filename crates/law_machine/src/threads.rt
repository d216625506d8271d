// The laws of monitors and threads.
ghost use Rattle.law_machine.specs.StepLaws.{LeftIsWellTyped, MonitorStepsAreFine, NeedsAreFine, RecordsAreFine, NewThreadIsFine, BlockedStepsWait, EndedStepsStay};
ghost use Rattle.law_machine.specs.MonitorLaws.{EnteringKeeps, ExitingKeeps, WaitingKeeps, NotifyingKeeps, ResumingKeeps};

/// Monitors stay in order when one is entered or exited, when a thread waits, is notified, or takes its monitor back.
pub fn monitors_stay_fine()
    ensures entering { EnteringKeeps }
    ensures exiting { ExitingKeeps }
    ensures waiting { WaitingKeeps }
    ensures notifying { NotifyingKeeps }
    ensures resuming { ResumingKeeps }
{}

/// What a step of one thread leaves in order leaves the state well typed, also where a thread was started.
pub fn left_states_are_well_typed()
    ensures law { LeftIsWellTyped }
{}

/// An instruction that enters or exits a monitor is fine.
pub fn monitor_steps_are_fine()
    ensures law { MonitorStepsAreFine }
{}

/// An instruction whose class isn't ready begins its initialisation, waits for it or throws, which is fine.
pub fn needs_are_fine()
    ensures law { NeedsAreFine }
{}

/// A step of a class's record is fine.
pub fn records_are_fine()
    ensures law { RecordsAreFine }
{}

/// A thread that is started, on an object whose class has a run method, is in order.
pub fn new_threads_are_fine()
    ensures law { NewThreadIsFine }
{}

/// What a thread is blocked by is what its step waits for: a step of one that is held up changes the count of steps alone,
/// and a step of one that has ended, or isn't there, changes nothing. This holds in every state.
#[tactic(auto, using(crate::proofs::lemmas::Steps::HeldUp::blocked_steps_wait, crate::proofs::lemmas::Steps::HeldUp::ended_steps_stay))]
pub fn held_up_threads_wait()
    ensures blocked { BlockedStepsWait }
    ensures ended { EndedStepsStay }
{}
