// Receivers of constructor calls that aren't initialised.
ghost use Rattle.std.specs.Prelude.{◌≡◌, ℕ, true, option_map};
ghost use Rattle.dv_typing.specs.Demands.{made_at, made_by as made_by_operation};
ghost use Rattle.dv_defs.specs.Op.{Code, named_registers};
ghost use Rattle.dv_typing.specs.RegTypes.{type_at};
ghost use Rattle.dv_defs.specs.Tiling.{begins_insn};
ghost use Rattle.dv_typing.specs.Transfer.{first_of};
ghost use Rattle.law_flow.specs.Clean.{IsClean};
ghost use Rattle.dv_ops.specs.Meaning.{code_of, meant, method_of};
ghost use Rattle.dv_demands.specs.Made.{made_for, place_of, receiver_place};

use dv_defs::{ClassId, Image, Regs};
use dv_demands::is_constructor;
use dv_ops::{Coded, Op, begins_insn_at, op_at};
use dv_typing::{RegState, RegType};

/// The class of the object that a constructor call is to initialise. Takes no memory.
pub fn class_to_make(
    image: &Image,
    code: &Coded<'_>,
    op: &Op<'_>,
    state: &RegState,
) -> Option<ClassId>
    requires { IsClean image.now (code_of code.now) }
    ensures { (at : ℕ) → option_map (λ c. c.0) result ≡ made_for image.now (method_of code.now.method) (meant (code_of code.now) at op.now) state.now.regs }
{
    match receiver_of(code, op, state) {
        Some(place) => made_anywhere(image, code, place),
        None => None,
    }
}

/// The class that the instruction at any address makes; none where none stands there or it is no new-instance.
fn made_anywhere(image: &Image, code: &Coded<'_>, at: u32) -> Option<ClassId>
    requires { IsClean image.now (code_of code.now) }
    ensures { option_map (λ c. c.0) result ≡ made_at image.now (method_of code.now.method) at }
{
    if begins_insn_at(code, at) {
        made_by(image, code, at)
    } else {
        None
    }
}

/// The address of the new-instance whose object is the receiver of a constructor call.
pub fn receiver_of(code: &Coded<'_>, op: &Op<'_>, state: &RegState) -> Option<u32>
    ensures { (at : ℕ) → result ≡ receiver_place (meant (code_of code.now) at op.now) state.now.regs }
{
    match op {
        Op::Invoke(_, regs, method) => {
            if is_constructor(method) {
                place_at(state, first_register(regs))
            } else {
                None
            }
        }
        _ => None,
    }
}

/// The class that the new-instance at an address makes; none where another instruction stands there.
pub fn made_by(image: &Image, code: &Coded<'_>, at: u32) -> Option<ClassId>
    requires clean { IsClean image.now (code_of code.now) }
    requires begins { begins_insn (code_of code.now).tiles at ≡ true }
    ensures { option_map (λ c. c.0) result ≡ made_at image.now (method_of code.now.method) at }
{
    let (op, _) = op_at(image, code, at);
    class_of_new(&op)
}

/// The class that an operation makes.
fn class_of_new(op: &Op<'_>) -> Option<ClassId>
    ensures { (code : Code) (at : ℕ) → option_map (λ c. c.0) result ≡ made_by_operation (meant code at op.now) }
{
    match op {
        Op::New(_, class) => Some(*class),
        _ => None,
    }
}

/// The first register of some.
fn first_register(regs: &Regs) -> u16
    ensures { result ≡ first_of (named_registers regs.now) }
{
    if regs.count == 0 { 0 } else { regs.first[0] }
}

/// The new-instance whose object a register has.
fn place_at(state: &RegState, register: u16) -> Option<u32>
    ensures { result ≡ place_of (type_at state.now.regs register) }
{
    match state.regs.items().get(register as usize) {
        Some(RegType::Uninit(at)) => Some(*at),
        _ => None,
    }
}
