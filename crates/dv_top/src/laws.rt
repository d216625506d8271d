// The laws of what is said. Each law is the contract of a function that does nothing.
ghost use Rattle.dv_top.specs.Laws.{DemosAreSmall, IsSaidOnce, ReplaysAreJudged, RunsAreJudged, VerdictsAreExact};

/// One status and one text are said of the words, the bytes and the log.
pub fn said_once()
    ensures { IsSaidOnce }
{}

/// A text that is to be verified is refused where it has no image, or where its image isn't accepted, and nowhere else.
pub fn verdicts_exact()
    ensures { VerdictsAreExact }
{}

/// So is a text that is to be run, also where the class of it isn't there or has no main method.
pub fn runs_judged()
    ensures { RunsAreJudged }
{}

/// So is one that is to be run on its schedule, and such a schedule where an entry of it is refused or it stops early.
pub fn replays_judged()
    ensures { ReplaysAreJudged }
{}

/// The text of a demo that the words can ask for isn't too large: no demo is told so.
pub fn demos_small()
    ensures { DemosAreSmall }
{}
