// The laws of the steps on words.
ghost use Rattle.dv_words.specs.Fetching.{FetchedIsDecoded, FetchedIsThere, PayloadsAreThere, TilesAreOfUnits};
ghost use Rattle.law_words.specs.Laws.{LocalStepsFollow, MemStepsFollow};
ghost use Rattle.law_words.specs.StepLaws.{FetchedOperandsFit, LocalsAreSteps, OpeningStands, StepsFollow};

/// A local instruction on words that stand for a tagged frame goes where the tagged one goes, wherever that isn't stuck.
pub fn local_steps_follow()
    ensures law { LocalStepsFollow }
{}

/// An instruction on objects, a division or a cast on words that stand for a thread's frame and the heap does what the tagged one does: it goes
/// on to words that stand again, throws the same, or lacks words alike; wherever that isn't stuck.
pub fn mem_steps_follow()
    ensures law { MemStepsFollow }
{}

/// A step of a thread on words that stand for a state leads to words that stand for the state after the tagged step, wherever that isn't stuck:
/// every instruction, native, record of class initialisation and exception in flight.
pub fn steps_follow()
    ensures law { StepsFollow }
{}

/// Where an operation is fetched, the units spell an instruction, and the next one stands behind it.
pub fn fetched_is_there()
    ensures law { FetchedIsThere }
{}

/// The operation that is fetched is that of the instruction that the units spell there.
pub fn fetched_is_decoded()
    ensures law { FetchedIsDecoded }
{}

/// The items of a method are those of its units.
pub fn tiles_are_of_units()
    ensures law { TilesAreOfUnits }
{}

/// A payload that the items of units have is spelled where it stands.
pub fn payloads_are_there()
    ensures law { PayloadsAreThere }
{}

/// What stands at an address has operands that fit, in an image whose look-ups find what they say and whose pools have UTF-16 strings: constants
/// have 32 bits, invokes name as many registers as there are argument words, and a field isn't a string's.
pub fn fetched_operands_fit()
    ensures law { FetchedOperandsFit }
{}

/// The words in which a run begins stand for the tagged machine's opening state.
pub fn opening_stands()
    ensures law { OpeningStands }
{}

/// So many local instructions of a living thread's frame are as many steps of the thread.
pub fn locals_are_steps()
    ensures law { LocalsAreSteps }
{}
