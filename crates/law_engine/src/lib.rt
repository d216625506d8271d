//! On accepted images the steps on words simulate the tagged machine's: a runnable thread's step is never stuck there, so the words after it stand
//! for the state after it. So do those after many local steps in one go. Turns of the tagged machine are entries of schedules, and make the seeded
//! one. Each law is the contract of a function that does nothing.
#![tactic(auto)]

ghost use Rattle.law_engine.specs.Laws.{AcceptedImagesFit, AcceptedKeysRise, AcceptedStepsFollow, OpeningsAreSimulated, TypedStatesFit};
ghost use Rattle.law_engine.specs.RunningLaws.{RunningFollows};
ghost use Rattle.law_engine.specs.ImageLaws.{StaticsAreWholeOfLinked};
ghost use Rattle.law_engine.specs.KeepLaws.{LocalsStay, NextIsAlike, StepsLeaveOthers};
ghost use Rattle.law_engine.specs.TurnLaws.{LastStepsFollow, LocalsFollow, ReplayAppends, ReplaysGoOn, SeedBegins, SeedEnds, SeedGoesOn, SeedPicksRunnable, TurnsAdvance, TurnsReplay};

/// An image that the verifier accepts is what the laws of steps on words take.
pub fn accepted_images_fit()
    ensures law { AcceptedImagesFit }
{}

/// In an image that the verifier accepts the keys of each switch rise.
pub fn accepted_keys_rise()
    ensures law { AcceptedKeysRise }
{}

/// A well-typed state of such an image, with a heap that is counted and short strings and arrays, is what they take.
pub fn typed_states_fit()
    ensures law { TypedStatesFit }
{}

/// From words that stand for a well-typed state, a step of a runnable thread on words leads to words that stand for the state after the tagged
/// step; that one isn't stuck, and is well typed again.
pub fn accepted_steps_follow()
    ensures law { AcceptedStepsFollow }
{}

/// The words in which a run of a main method begins stand for the tagged machine's opening state, which is well typed and whose heap is bounded.
pub fn openings_are_simulated()
    ensures law { OpeningsAreSimulated }
{}

/// What holds a thread up, which threads are runnable, and how a run stands are told by words that stand for a well-typed state: these are the
/// tagged machine's.
pub fn running_follows()
    ensures law { RunningFollows }
{}

/// A step of a thread on words leaves the other threads as they are and starts at most one, where the limit has room for it. It counts at most one
/// step.
pub fn steps_leave_others()
    ensures law { StepsLeaveOthers }
{}

/// A thread whose next step is local keeps that while another thread steps.
pub fn locals_stay()
    ensures law { LocalsStay }
{}

/// Whether a thread's next step is local is told by words that stand for the state.
pub fn next_is_alike()
    ensures law { NextIsAlike }
{}

/// Numbers with which the static fields of a linked image are declared have 32 bits, or are a long's.
pub fn statics_are_whole_of_linked()
    ensures law { StaticsAreWholeOfLinked }
{}

/// So many local instructions of the frame on top, done on words, are as many steps of the tagged machine: of a turn and of a schedule.
pub fn locals_follow()
    ensures law { LocalsFollow }
{}

/// The last step of a turn is told by words that stand for a well-typed state: whether one is done, and the state after it.
pub fn last_steps_follow()
    ensures law { LastStepsFollow }
{}

/// The steps of a turn of the tagged machine are steps of a schedule's entry, where nothing stopped the run before.
pub fn turns_replay()
    ensures law { TurnsReplay }
{}

/// A turn of a thread that may step, from a well-typed state with no ending, does some steps and no more than it may; each is counted.
pub fn turns_advance()
    ensures law { TurnsAdvance }
{}

/// A schedule goes on from the state to which its first entries lead, unless one of those is refused; so one entry more leads where its steps lead.
pub fn replays_go_on()
    ensures goes_on { ReplaysGoOn }
    ensures appends { ReplayAppends }
{}

/// Turns of the threads that the words pick make the seeded schedule: it begins with no turn, each turn from a well-typed state with no ending is an
/// entry more, of a thread that may step, and where an ending stands it is whole.
pub fn seeded_runs()
    ensures begins { SeedBegins }
    ensures picks { SeedPicksRunnable }
    ensures goes_on { SeedGoesOn }
    ensures ends { SeedEnds }
{}
