// What the state on words is made of.
ghost use Rattle.std.specs.Prelude.{◌≡◌};

use dv_defs::{ClassId, MethodId, Seq, Ty};
use std::alloc::AllocError;

/// The result of a call that is still to be moved to a register: none, one word, or the two words of a long, low first.
#[derive(Clone, Copy, PartialEq, Eq, Debug)]
pub enum Kept {
    None,
    One(u32),
    Two(u32, u32),
}

/// A method that runs: the address of its next instruction, the words of its registers, the result of a call that is kept for it, and
/// the number of the exception object that a handler was entered with.
#[derive(PartialEq, Eq, Debug, Drop)]
pub struct Frame {
    pub method: MethodId,
    pub at: u32,
    pub regs: Seq<u32>,
    pub result: Kept,
    pub caught: Option<u32>,
}

impl Clone for Frame {
    ghost is_clone = { λ x y. y ≡ x };

    fn clone(&self) -> Result<Frame, AllocError> {
        Ok(Frame {
            method: self.method,
            at: self.at,
            regs: self.regs.clone()?,
            result: self.result,
            caught: self.caught,
        })
    }
}

/// A level of a thread's stack: a frame of code, or the record of a class that is being initialised,
/// which is running once its initialiser was called.
#[derive(PartialEq, Eq, Debug, Drop)]
pub enum Level {
    Code(Frame),
    Init { class: ClassId, running: bool },
}

/// What an object is: of a class, an array of this type, a string, whose units are its words, or the Class object of a type.
#[derive(PartialEq, Eq, Hash, Debug, Drop)]
pub enum Kind {
    Object(ClassId),
    Array(Ty),
    Str,
    ClassOf(Ty),
}

impl Clone for Kind {
    ghost is_clone = { λ x y. y ≡ x };

    fn clone(&self) -> Result<Kind, AllocError> {
        match self {
            Kind::Object(class) => Ok(Kind::Object(*class)),
            Kind::Array(ty) => Ok(Kind::Array(ty.clone()?)),
            Kind::Str => Ok(Kind::Str),
            Kind::ClassOf(ty) => Ok(Kind::ClassOf(ty.clone()?)),
        }
    }
}
