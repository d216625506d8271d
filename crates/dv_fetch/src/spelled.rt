// Instructions that are met often, read off their units at once.
ghost use Rattle.std.specs.Prelude.{◌≡◌, ◌∷◌, ℕ, IfSome, List, Some as Just, slice_get};
ghost use Rattle.dv_defs.specs.Images.{Image as Linked};
ghost use Rattle.dv_ops.specs.Meaning.{code_of};
ghost use Rattle.dv_fetch.specs.Spelled.{IsRead, Spells};

use crate::accesses::access_op;
use crate::instruction::Instruction;
use crate::invokes::invoke_op;
use crate::plain::plain_op;
use crate::pooled::pooled_op;
use dv_defs::Image;
use dv_ops::{Coded, Op, units_of};

/// An instruction of one unit.
fn in_one<'a>(code: &Coded<'a>, at: u32, first: u16) -> Option<Instruction<'a>>
    requires { slice_get code.now.body.now.units at ≡ Just first }
    ensures { (image : Linked) → IfSome result (IsRead image (code_of code.now) code.now.body.now.units at) }
{
    Some(Instruction {
        units: units_of(code),
        op: plain_op(first)?,
        next: at + 1,
    })
}

/// The operation of an instruction of two units.
fn pair_op<'a>(image: &'a Image, code: &Coded<'a>, first: u16, second: u16) -> Option<Op<'a>>
    ensures { IfSome result (λ op. (at : ℕ) (us : List ℕ) → Spells image.now (code_of code.now) at (first ∷ second ∷ us) op 2) }
{
    if first % 256 < 0x44 {
        pooled_op(image, code, first, second)
    } else {
        access_op(image, code, first, second)
    }
}

/// An instruction of two units.
fn in_two<'a>(image: &'a Image, code: &Coded<'a>, at: u32, first: u16) -> Option<Instruction<'a>>
    requires { slice_get code.now.body.now.units at ≡ Just first }
    ensures { IfSome result (IsRead image.now (code_of code.now) code.now.body.now.units at) }
{
    let units = units_of(code);
    let second = *units.get(at as usize + 1)?;
    let op = pair_op(image, code, first, second)?;
    Some(Instruction {
        units,
        op,
        next: at + 2,
    })
}

/// An instruction of three units.
fn in_three<'a>(image: &'a Image, code: &Coded<'a>, at: u32, first: u16) -> Option<Instruction<'a>>
    requires { slice_get code.now.body.now.units at ≡ Just first }
    ensures { IfSome result (IsRead image.now (code_of code.now) code.now.body.now.units at) }
{
    let units = units_of(code);
    let second = *units.get(at as usize + 1)?;
    let third = *units.get(at as usize + 2)?;
    let op = invoke_op(image, code, first, second, third)?;
    Some(Instruction {
        units,
        op,
        next: at + 3,
    })
}

/// The instruction at an address of a method, where it is one that is met often; none of another.
pub fn spelled_in<'a>(image: &'a Image, code: &Coded<'a>, at: u32) -> Option<Instruction<'a>>
    ensures { IfSome result (IsRead image.now (code_of code.now) code.now.body.now.units at) }
{
    let first = *units_of(code).get(at as usize)?;
    let opcode = first % 256;
    if opcode >= 0x6e {
        return in_three(image, code, at, first);
    }
    if opcode < 0x44 {
        let found = in_one(code, at, first);
        if found.is_some() {
            return found;
        }
    }
    in_two(image, code, at, first)
}
