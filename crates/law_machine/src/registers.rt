// The laws of writes to registers.
ghost use Rattle.law_machine.specs.StepLaws.{WriteKeeps, LongWriteKeeps, NewInstanceKeeps, ConstructorKeeps, OwnConstructorKeeps};

/// A write keeps registers conforming, and breaks the pair that it cuts.
pub fn write_keeps()
    ensures law { WriteKeeps }
{}

/// A long's two halves, written at once, keep registers conforming.
pub fn long_write_keeps()
    ensures law { LongWriteKeeps }
{}

/// Registers conform after a new object is written to one, where those that held the last object of its place are given up.
pub fn new_instance_keeps()
    ensures law { NewInstanceKeeps }
{}

/// Registers conform after the constructor of an object returned, all of them that hold it initialised.
pub fn constructor_keeps()
    ensures law { ConstructorKeeps }
{}

/// The same where the object is the frame's own receiver.
pub fn own_constructor_keeps()
    ensures law { OwnConstructorKeeps }
{}
