// What a new object is, with a type that is borrowed.
ghost use Rattle.std.specs.Prelude.{◌≡◌, IfOk};
ghost use Rattle.dv_heap.specs.Placing.{as_kind};

use dv_defs::{ClassId, Ty};
use dv_words::Kind;
use std::alloc::AllocError;

/// What a new object is, as `Kind` says it. A type is borrowed, since most objects are of a kind that was seen before.
#[derive(Clone, Copy)]
pub enum BorrowedKind<'a> {
    Object(ClassId),
    Array(&'a Ty),
    Str,
    ClassOf(&'a Ty),
}

impl BorrowedKind<'_> {
    /// The same with a type of its own.
    ///
    /// # Errors
    ///
    /// Want of memory.
    pub fn cloned(self) -> Result<Kind, AllocError>
        ensures { IfOk result (λ kind. kind ≡ as_kind self.entry) }
    {
        match self {
            BorrowedKind::Object(class) => Ok(Kind::Object(class)),
            BorrowedKind::Array(ty) => Ok(Kind::Array(ty.clone()?)),
            BorrowedKind::Str => Ok(Kind::Str),
            BorrowedKind::ClassOf(ty) => Ok(Kind::ClassOf(ty.clone()?)),
        }
    }
}
