// What the verifier knows of registers.
ghost use Rattle.std.specs.Prelude.{◌≡◌};

use dv_defs::{Seq, Ty};
use std::alloc::AllocError;

/// The type of a register. `Zero` is the constant 0, which is an int and the null reference;
/// `Uninit` is an object that the new-instance at this address made and no constructor has initialised;
/// `UninitThis` is the receiver of a constructor before the superclass's constructor was called.
#[derive(PartialEq, Eq, Drop)]
pub enum RegType {
    Conflict,
    Zero,
    Int,
    LongLo,
    LongHi,
    Class(Ty),
    Uninit(u32),
    UninitThis,
}

impl Clone for RegType {
    ghost is_clone = { λ x y. y ≡ x };

    fn clone(&self) -> Result<RegType, AllocError> {
        match self {
            RegType::Conflict => Ok(RegType::Conflict),
            RegType::Zero => Ok(RegType::Zero),
            RegType::Int => Ok(RegType::Int),
            RegType::LongLo => Ok(RegType::LongLo),
            RegType::LongHi => Ok(RegType::LongHi),
            RegType::Class(ty) => Ok(RegType::Class(ty.clone()?)),
            RegType::Uninit(at) => Ok(RegType::Uninit(*at)),
            RegType::UninitThis => Ok(RegType::UninitThis),
        }
    }
}

/// The type of a call's result that is still to be moved to a register.
#[derive(PartialEq, Eq, Drop)]
pub enum PendingType {
    None,
    One(RegType),
    Long,
}

impl Clone for PendingType {
    ghost is_clone = { λ x y. y ≡ x };

    fn clone(&self) -> Result<PendingType, AllocError> {
        match self {
            PendingType::None => Ok(PendingType::None),
            PendingType::One(ty) => Ok(PendingType::One(ty.clone()?)),
            PendingType::Long => Ok(PendingType::Long),
        }
    }
}

/// What the verifier knows at an address: the registers' types, the pending result, the type of the exception
/// that a handler was entered with, and whether a constructor has still to call its superclass's.
#[derive(PartialEq, Eq, Drop)]
pub struct RegState {
    pub regs: Seq<RegType>,
    pub result: PendingType,
    pub caught: Option<Ty>,
    pub this_pending: bool,
}

impl Clone for RegState {
    ghost is_clone = { λ x y. y ≡ x };

    fn clone(&self) -> Result<RegState, AllocError> {
        Ok(RegState {
            regs: self.regs.clone()?,
            result: self.result.clone()?,
            caught: self.caught.clone()?,
            this_pending: self.this_pending,
        })
    }
}
