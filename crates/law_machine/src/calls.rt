// The laws of calls and returns.
ghost use Rattle.law_machine.specs.StepLaws.{EntryConforms, InvokesPush, ReturnsPop};
ghost use Rattle.law_machine.specs.Reading.{ReadsValue, ReadsArguments, ReadsReceiver, WordsPend};
ghost use Rattle.law_machine.specs.Returning.{ReturnedConforms};

/// A caller's frame conforms to the state after its invoke once the call has returned.
pub fn returned_conforms()
    ensures law { ReturnedConforms }
{}

/// A value of a declared type is read, with the words of that type, where the verifier demanded one.
pub fn reads_value()
    ensures law { ReadsValue }
{}

/// The arguments of a call are read by the method's parameters where the verifier demanded such.
pub fn reads_arguments()
    ensures law { ReadsArguments }
{}

/// The receiver of a constructor is read, of a class under the constructor's, where the verifier demanded one.
pub fn reads_receiver()
    ensures law { ReadsReceiver }
{}

/// The words of a result are pending as the result type says.
pub fn words_pend()
    ensures law { WordsPend }
{}

/// Arguments that conform to a method's types make a frame that conforms to its entry state.
pub fn entry_conforms()
    ensures law { EntryConforms }
{}

/// A return is fine: it isn't stuck, and the caller's frame is in order after it.
pub fn returns_pop()
    ensures law { ReturnsPop }
{}

/// An invoke is fine: it isn't stuck, it pushes a frame in order or does what a native does, and leaves all else in order.
pub fn invokes_push()
    ensures law { InvokesPush }
{}
