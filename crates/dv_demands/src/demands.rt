// What instructions demand of states.
ghost use Rattle.std.specs.Prelude.{◌≡◌, ℕ, option_map};
ghost use Rattle.dv_typing.specs.Demands.{demands, goes_on as goes_on_after, ok, onward_ok};
ghost use Rattle.dv_defs.specs.Op.{Code};
ghost use Rattle.law_flow.specs.Clean.{IsClean};
ghost use Rattle.dv_ops.specs.Places.{IsBoundary};
ghost use Rattle.dv_ops.specs.Meaning.{code_of, meant, method_of};
ghost use Rattle.dv_demands.specs.Fetching.{IsOfBody};
ghost use Rattle.dv_demands.specs.Made.{made_for};

use crate::arguments::elements;
use crate::arrays::{Elements, array};
use crate::assigning::{Wanted, ref_to};
use crate::fields::{element, element_put, field_put, field_value};
use crate::invokes::invoke;
use crate::operands::{both, has_int, has_long, has_reference, int_and, shift, two_longs, zero};
use crate::payloads::width_at;
use crate::reads::{demand, first, int, is_movable, long, reference};
use crate::returns::{return_value, return_void};
use dv_defs::{ClassId, Image, Rule};
use dv_ops::{Coded, Op, begins_insn_next};
use dv_typing::RegState;

/// The rule of the first demand on a state that fails, but for V1. `made` is the class of the object that a constructor call is to
/// initialise. Takes no memory.
pub fn demand_of(
    image: &Image,
    code: &Coded<'_>,
    op: &Op<'_>,
    made: Option<ClassId>,
    state: &RegState,
) -> Option<Rule>
    requires clean { IsClean image.now (code_of code.now) }
    requires fetched { IsOfBody image.now (code_of code.now) op.now }
    requires made { (at : ℕ) → option_map (λ c. c.0) made ≡ made_for image.now (method_of code.now.method) (meant (code_of code.now) at op.now) state.now.regs }
    ensures { (at : ℕ) → result ≡ demands image.now (method_of code.now.method) (meant (code_of code.now) at op.now) state.now }
{
    let regs = &state.regs;
    match op {
        Op::MoveInt(_, b)
        | Op::IntUnary(_, _, b)
        | Op::IntToLong(_, b)
        | Op::NewArray(_, b, _)
        | Op::Switch(b, _) => int(regs, u32::from(*b)),
        Op::MoveLong(_, b) | Op::LongUnary(_, _, b) | Op::LongToInt(_, b) => {
            long(regs, u32::from(*b))
        }
        Op::Enter(b) | Op::Exit(b) | Op::Cast(b, _) | Op::InstanceOf(_, b, _) => {
            reference(regs, u32::from(*b))
        }
        Op::MoveObject(_, b) => demand(is_movable(regs, u32::from(*b)), Rule::V(6)),
        Op::ResultInt(_) => demand(has_int(&state.result), Rule::V(7)),
        Op::ResultLong(_) => demand(has_long(&state.result), Rule::V(7)),
        Op::ResultObject(_) => demand(has_reference(&state.result), Rule::V(7)),
        Op::TakeCaught(_) => demand(state.caught.is_some(), Rule::V(8)),
        Op::IntOp(_, _, b, c) | Op::IntDivide(_, _, b, c) => int_and(regs, *b, *c),
        Op::LongOp(_, _, b, c) | Op::LongDivide(_, _, b, c) | Op::CompareLong(_, b, c) => {
            two_longs(regs, *b, *c)
        }
        Op::LongShift(_, _, b, c) => shift(regs, *b, *c),
        Op::IfBoth(test, a, b, _) => both(*test, regs, *a, *b),
        Op::IfZero(test, a, _) => zero(*test, regs, *a),
        Op::ArrayLength(_, b) => array(regs, u32::from(*b), Elements::Any),
        Op::ArrayGet(suffix, _, b, c) => element(regs, *suffix, *b, *c),
        Op::ArrayPut(suffix, a, b, c) => element_put(regs, *suffix, *a, *b, *c),
        Op::Filled(named, ty) => elements(image, regs, named, ty),
        Op::Fill(a, to) => array(regs, u32::from(*a), Elements::OfWidth(width_at(code, *to))),
        Op::Throw(a) => ref_to(image, regs, u32::from(*a), &Wanted::Throwable),
        Op::FieldGet(_, _, b, field) => {
            ref_to(image, regs, u32::from(*b), &Wanted::Class(field.info.class))
        }
        Op::FieldPut(_, a, b, field) => field_put(image, &code.method, regs, *a, *b, field),
        Op::StaticPut(_, a, field) => field_value(image, regs, *a, field),
        Op::Invoke(call, named, method) => {
            invoke(image, &code.method, regs, *call, named, method, made)
        }
        Op::ReturnVoid => return_void(&code.method, state),
        Op::Return(width, a) => { return_value(image, &code.method, *width, u32::from(*a), state) }
        _ => None,
    }
}

/// The rule of the first demand that fails, V1 last: none where the state is good for the operation. Takes no memory.
pub fn ok_of(
    image: &Image,
    code: &Coded<'_>,
    op: &Op<'_>,
    next: u32,
    made: Option<ClassId>,
    state: &RegState,
) -> Option<Rule>
    requires clean { IsClean image.now (code_of code.now) }
    requires next { IsBoundary (code_of code.now) next }
    requires fetched { IsOfBody image.now (code_of code.now) op.now }
    requires made { (at : ℕ) → option_map (λ c. c.0) made ≡ made_for image.now (method_of code.now.method) (meant (code_of code.now) at op.now) state.now.regs }
    ensures { (at : ℕ) → result ≡ ok image.now (method_of code.now.method) (record { op = meant (code_of code.now) at op.now; next = next }) state.now }
{
    first(
        demand_of(image, code, op, made, state),
        onward(image, code, op, next),
    )
}

/// V1: control goes on to an instruction. What is fetched of a body without static faults is what begins there.
fn onward(image: &Image, code: &Coded<'_>, op: &Op<'_>, next: u32) -> Option<Rule>
    requires clean { IsClean image.now (code_of code.now) }
    requires next { IsBoundary (code_of code.now) next }
    ensures { (at : ℕ) → result ≡ onward_ok image.now (method_of code.now.method) (record { op = meant (code_of code.now) at op.now; next = next }) }
{
    if goes_on(op) {
        demand(begins_insn_next(code, next), Rule::V(1))
    } else {
        None
    }
}

fn goes_on(op: &Op<'_>) -> bool
    ensures { (code : Code) (at : ℕ) → result ≡ goes_on_after (meant code at op.now) }
{
    !matches!(
        op,
        Op::Goto(_) | Op::Throw(_) | Op::ReturnVoid | Op::Return(_, _)
    )
}
