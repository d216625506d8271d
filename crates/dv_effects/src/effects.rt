// Effects of instructions.

use dv_bases::PendingWord;

/// What an instruction does to the words of registers.
#[derive(Clone, Copy)]
pub enum Effect {
    Nothing,
    /// A register takes a word.
    Put(u16, u32),
    /// A register and the next take a long.
    PutLong(u16),
    /// A register takes the int of another.
    CopyInt(u16, u16),
    /// A register takes the object of another.
    CopyObject(u16, u16),
    /// A register takes the int that is pending.
    ResultInt(u16),
    /// A register and the next take the long that is pending.
    ResultLong(u16),
    /// A register takes the object that is pending.
    ResultObject(u16),
    /// A register takes what was caught.
    Caught(u16),
    /// A register takes an element of the array of another.
    Element(u16, u16),
    /// A register takes the object that the new-instance at an address makes; older objects of it aren't known any more.
    New(u16, u32),
    /// A constructor initialises the object of a register.
    Construct(u16),
}

/// An instruction's effect, the pending result that it leaves, and the word of the class whose objects it makes.
#[derive(Clone, Copy)]
pub struct Step {
    pub effect: Effect,
    pub pending: PendingWord,
    pub makes: Option<u32>,
}
