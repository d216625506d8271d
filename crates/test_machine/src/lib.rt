//! Programs over all boot classes, and what the definitions of acceptance and of the tagged machine compute of them.
#![tactic(auto)]

ghost use Rattle.test_machine.specs.Formats.{Formats};
ghost use Rattle.test_machine.specs.Numbers.{Numbers};
ghost use Rattle.test_machine.specs.Verifying.{Verifying};
ghost use Rattle.test_machine.specs.Typing.{TypingRules};
ghost use Rattle.test_machine.specs.Statics.{StaticRules};
ghost use Rattle.test_machine.specs.Objects.{Objects};
ghost use Rattle.test_machine.specs.Selecting.{Selecting};
ghost use Rattle.test_machine.specs.Exceptions.{Exceptions};
ghost use Rattle.test_machine.specs.Classes.{Initialising};
ghost use Rattle.test_machine.specs.Threads.{Threads};
ghost use Rattle.test_machine.specs.Limits.{Stops};
ghost use Rattle.test_machine.specs.Stuck.{StuckReasons};
ghost use Rattle.test_machine.specs.Seeded.{SeededRuns};
ghost use Rattle.test_machine.specs.Linked.{ExamplesAreLinked, ExamplesAreAccepted};

/// That units and instructions belong together, format by format; it does nothing.
#[tactic(auto, using(crate::proofs::Computed::Formats::formats))]
pub fn formats()
    ensures examples { Formats }
{}

/// That numbers and branches are computed as they should be; it does nothing.
#[tactic(auto, using(crate::proofs::Computed::Numbers::numbers))]
pub fn numbers()
    ensures examples { Numbers }
{}

/// That methods are accepted and refused as they should be; it does nothing.
#[tactic(auto, using(crate::proofs::Computed::Verifying::verifying))]
pub fn verifying()
    ensures examples { Verifying }
{}

/// That each typing rule is told where it is broken; it does nothing.
#[tactic(auto, using(crate::proofs::Computed::Typing::typing_rules))]
pub fn typing_rules()
    ensures examples { TypingRules }
{}

/// That each static rule is told where it is broken; it does nothing.
#[tactic(auto, using(crate::proofs::Computed::Statics::static_rules))]
pub fn static_rules()
    ensures examples { StaticRules }
{}

/// That objects, calls and strings behave as they should; it does nothing.
#[tactic(auto, using(crate::proofs::Computed::Objects::objects))]
pub fn objects()
    ensures examples { Objects }
{}

/// That calls select the methods that they should, default methods of interfaces among them; it does nothing.
#[tactic(auto, using(crate::proofs::Computed::Selecting::selecting))]
pub fn selecting()
    ensures examples { Selecting }
{}

/// That exceptions and handlers behave as they should; it does nothing.
#[tactic(auto, using(crate::proofs::Computed::Exceptions::exceptions))]
pub fn exceptions()
    ensures examples { Exceptions }
{}

/// That classes are initialised as they should be; it does nothing.
#[tactic(auto, using(crate::proofs::Computed::Classes::initialising))]
pub fn initialising()
    ensures examples { Initialising }
{}

/// That threads and monitors behave as they should; it does nothing.
#[tactic(auto, using(crate::proofs::Computed::Threads::threads))]
pub fn threads()
    ensures examples { Threads }
{}

/// That runs come up to their limits, and not past them; it does nothing.
#[tactic(auto, using(crate::proofs::Computed::Limits::stops))]
pub fn stops()
    ensures examples { Stops }
{}

/// That the machine is stuck where it should be, on code that the verifier refuses; it does nothing.
#[tactic(auto, using(crate::proofs::Computed::Stuck::stuck_reasons))]
pub fn stuck_reasons()
    ensures examples { StuckReasons }
{}

/// That a seeded run has the log that its words pick; it does nothing.
#[tactic(auto, using(crate::proofs::Computed::Seeded::seeded_runs))]
pub fn seeded_runs()
    ensures examples { SeededRuns }
{}

/// Each image of the machine's computed examples is what linking gives of the definitions in it.
pub fn examples_are_linked()
    ensures law { ExamplesAreLinked }
{}

/// So those among them that the verifier accepts are what the laws take: no law speaks of nothing.
pub fn examples_are_accepted()
    ensures law { ExamplesAreAccepted }
{}
