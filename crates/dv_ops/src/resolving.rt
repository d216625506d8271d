// Instructions resolved (AOSP, "Dalvik bytecode format").
ghost use Rattle.std.specs.Prelude.{◌≡◌, ◌<◌, ℕ, true, None, Some, Ok, option_map};
ghost use Rattle.dv_defs.specs.Families.{family_at, pool_in};
ghost use Rattle.dv_defs.specs.Op.{Code, op_of, resolve as resolved};
ghost use Rattle.dv_defs.specs.Images.{Image as Linked};
ghost use Rattle.dv_defs.specs.Tiling.{payload_at};
ghost use Rattle.dv_defs.specs.Numbers.{jump};
ghost use Rattle.dv_ops.specs.Meaning.{code_of, has_payload, has_payload_of, meant, meant_or_rule};
ghost use Rattle.dv_ops.specs.Pooled.{has_field, has_type};
ghost use Rattle.dv_units.specs.Tables.{standard_family};
ghost use Rattle.dv_defs.specs.Body.{most_units};

use crate::parts::{int_op, long_op, move_op, result_op, target};
use crate::pools::{called_at, class_at, named_field_at, string_at, type_at};
use crate::{Arg, Coded, Op};
use dv_defs::{Image, Insn, Rule};
use dv_optable::{Family, kind_of};

/// The operation of an instruction at an address, or the static rule for which there is none: S12 where its index is no place in its
/// pool, S16 where new-instance names no class.
pub fn resolve<'a>(image: &'a Image, code: &Coded<'a>, at: u32, insn: &Insn) -> Result<Op<'a>, Rule>
    requires { at < most_units }
    ensures { has_payload (code_of code.now) at insn.now ≡ true → meant_or_rule (code_of code.now) at result ≡ op_of image.now (code_of code.now) at insn.now }
{
    let Some(family) = family_of(insn.op) else {
        return Err(Rule::S(1));
    };
    resolve_in(image, code, at, insn, family)
}

/// The family of an opcode, none where it is unused or a float's.
#[tactic(auto, using(dv_units::proofs::Opcodes::families_agree))]
fn family_of(op: u8) -> Option<Family>
    ensures { option_map standard_family result ≡ family_at op }
{
    kind_of(op)
}

/// Those with an index into a pool, and the others.
fn resolve_in<'a>(
    image: &'a Image,
    code: &Coded<'a>,
    at: u32,
    insn: &Insn,
    family: Family,
) -> Result<Op<'a>, Rule>
    requires { at < most_units }
    ensures { has_payload_of (Some (standard_family family)) (payload_at (code_of code.now).tiles (jump at insn.now.off)) ≡ true →
        meant_or_rule (code_of code.now) at result ≡ resolved image.now (code_of code.now) at insn.now (standard_family family) }
{
    let a = insn.regs.first[0];
    let place = insn.index as usize;
    match family {
        Family::ConstString => Ok(Op::ConstString(a, string_at(code, place)?)),
        Family::NewInstance => Ok(Op::New(a, class_at(image, code, place)?)),
        Family::ConstClass
        | Family::CheckCast
        | Family::InstanceOf
        | Family::NewArray
        | Family::FilledNewArray => resolve_type(code, insn, family),
        Family::FieldGet(_) | Family::FieldPut(_) | Family::StaticGet(_) | Family::StaticPut(_) =>
            resolve_field(image, code, insn, family),
        Family::Invoke(c) => Ok(Op::Invoke(c, insn.regs, called_at(image, code, place)?)),
        _ => Ok(plain_op(at, insn, family)),
    }
}

/// Those with a type.
fn resolve_type<'a>(code: &Coded<'a>, insn: &Insn, family: Family) -> Result<Op<'a>, Rule>
    requires { has_type (standard_family family) ≡ true }
    ensures { (image : Linked) (at : ℕ) → meant_or_rule (code_of code.now) at result ≡ resolved image (code_of code.now) at insn.now (standard_family family) }
{
    let ty = type_at(code, insn.index as usize)?;
    let [a, b, _, _, _] = insn.regs.first;
    match family {
        Family::ConstClass => Ok(Op::ConstClass(a, ty)),
        Family::CheckCast => Ok(Op::Cast(a, ty)),
        Family::InstanceOf => Ok(Op::InstanceOf(a, b, ty)),
        Family::NewArray => Ok(Op::NewArray(a, b, ty)),
        Family::FilledNewArray => Ok(Op::Filled(insn.regs, ty)),
        _ => unreachable!(),
    }
}

/// Those with a field.
fn resolve_field<'a>(
    image: &'a Image,
    code: &Coded<'a>,
    insn: &Insn,
    family: Family,
) -> Result<Op<'a>, Rule>
    requires { has_field (standard_family family) ≡ true }
    ensures { (at : ℕ) → meant_or_rule (code_of code.now) at result ≡ resolved image.now (code_of code.now) at insn.now (standard_family family) }
{
    let field = named_field_at(image, code, insn.index as usize)?;
    let [a, b, _, _, _] = insn.regs.first;
    match family {
        Family::FieldGet(s) => Ok(Op::FieldGet(s, a, b, field)),
        Family::FieldPut(s) => Ok(Op::FieldPut(s, a, b, field)),
        Family::StaticGet(s) => Ok(Op::StaticGet(s, a, field)),
        Family::StaticPut(s) => Ok(Op::StaticPut(s, a, field)),
        _ => unreachable!(),
    }
}

/// The operation of an instruction that has no index into a pool. A switch and fill-array-data keep where their payload stands.
fn plain_op<'a>(at: u32, insn: &Insn, family: Family) -> Op<'a>
    requires near { at < most_units }
    requires plain { pool_in (Some (standard_family family)) ≡ None }
    ensures { (image : Linked) (code : Code) → has_payload_of (Some (standard_family family)) (payload_at code.tiles (jump at insn.now.off)) ≡ true →
        resolved image code at insn.now (standard_family family) ≡ Ok (meant code at result) }
{
    let [a, b, c, _, _] = insn.regs.first;
    match family {
        Family::Nop => Op::Nop,
        Family::Move(width) => move_op(width, a, b),
        Family::MoveResult(width) => result_op(width, a),
        Family::MoveException => Op::TakeCaught(a),
        Family::ReturnVoid => Op::ReturnVoid,
        Family::Return(width) => Op::Return(width, a),
        Family::Const => Op::Const(a, insn.lit),
        Family::ConstWide => Op::ConstLong(a, insn.lit),
        Family::MonitorEnter => Op::Enter(a),
        Family::MonitorExit => Op::Exit(a),
        Family::ArrayLength => Op::ArrayLength(a, b),
        Family::FillArrayData => Op::Fill(a, target(at, insn.off)),
        Family::Throw => Op::Throw(a),
        Family::Goto => Op::Goto(target(at, insn.off)),
        Family::PackedSwitch | Family::SparseSwitch => Op::Switch(a, target(at, insn.off)),
        Family::CmpLong => Op::CompareLong(a, b, c),
        Family::If(test) => Op::IfBoth(test, a, b, target(at, insn.off)),
        Family::IfZero(test) => Op::IfZero(test, a, target(at, insn.off)),
        Family::ArrayGet(suffix) => Op::ArrayGet(suffix, a, b, c),
        Family::ArrayPut(suffix) => Op::ArrayPut(suffix, a, b, c),
        Family::IntUnary(o) => Op::IntUnary(o, a, b),
        Family::LongUnary(o) => Op::LongUnary(o, a, b),
        Family::IntToLong => Op::IntToLong(a, b),
        Family::LongToInt => Op::LongToInt(a, b),
        Family::IntBinary(o) => int_op(o, a, b, Arg::Reg(c)),
        Family::LongBinary(o) => long_op(o, a, b, c),
        Family::IntTwo(o) => int_op(o, a, a, Arg::Reg(b)),
        Family::LongTwo(o) => long_op(o, a, a, b),
        Family::IntLiteral(o) => int_op(o, a, b, Arg::Lit(insn.lit)),
        _ => unreachable!(),
    }
}
