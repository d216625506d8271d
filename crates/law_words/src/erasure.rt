// The laws of erasure. Each law is the contract of a function that does nothing.
ghost use Rattle.law_words.specs.ErasureLaws.{ErasureIsExact, FramesAreErased, HeapsAreErased, LevelsAreErased, MachinesAreErased};

/// A word of 32 bits stands for just the values that it is the erasure of.
pub fn erasure_is_exact()
    ensures law { ErasureIsExact }
{}

/// A frame on words stands for a tagged frame exactly where it is its erasure.
pub fn frames_are_erased()
    ensures law { FramesAreErased }
{}

/// The same of levels.
pub fn levels_are_erased()
    ensures law { LevelsAreErased }
{}

/// The same of heaps.
pub fn heaps_are_erased()
    ensures law { HeapsAreErased }
{}

/// The same of machines.
pub fn machines_are_erased()
    ensures law { MachinesAreErased }
{}
