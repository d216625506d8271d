// Operations by what the opcodes of one family differ in, and where branches lead.
ghost use Rattle.std.specs.Prelude.{◌≡◌, ℕ, ◌<◌};
ghost use Rattle.dv_defs.specs.Numbers.{jump};
ghost use Rattle.dv_defs.specs.Op.{Code, int_op, long_op, move_op, result_op};
ghost use Rattle.dv_ops.specs.Meaning.{arg_of, meant};
ghost use Rattle.dv_units.specs.Tables.{standard_bin, standard_width};
ghost use Rattle.dv_defs.specs.Body.{most_units};

use crate::{Arg, Op};
use dv_optable::{Bin, Width};

/// An address that no instruction has: a body has at most 16,384 units.
const NOWHERE: u32 = 65536;

pub fn move_op<'a>(width: Width, a: u16, b: u16) -> Op<'a>
    ensures { (code : Code) (at : ℕ) → meant code at result ≡ move_op (standard_width width) a b }
{
    match width {
        Width::Narrow => Op::MoveInt(a, b),
        Width::Wide => Op::MoveLong(a, b),
        Width::Reference => Op::MoveObject(a, b),
    }
}

pub fn result_op<'a>(width: Width, a: u16) -> Op<'a>
    ensures { (code : Code) (at : ℕ) → meant code at result ≡ result_op (standard_width width) a }
{
    match width {
        Width::Narrow => Op::ResultInt(a),
        Width::Wide => Op::ResultLong(a),
        Width::Reference => Op::ResultObject(a),
    }
}

pub fn int_op<'a>(operation: Bin, a: u16, b: u16, c: Arg) -> Op<'a>
    ensures { (code : Code) (at : ℕ) → meant code at result ≡ int_op (standard_bin operation) a b (arg_of c) }
{
    match operation {
        Bin::Div | Bin::Rem => Op::IntDivide(operation, a, b, c),
        _ => Op::IntOp(operation, a, b, c),
    }
}

pub fn long_op<'a>(operation: Bin, a: u16, b: u16, c: u16) -> Op<'a>
    ensures { (code : Code) (at : ℕ) → meant code at result ≡ long_op (standard_bin operation) a b c }
{
    match operation {
        Bin::Div | Bin::Rem => Op::LongDivide(operation, a, b, c),
        Bin::Shl | Bin::Shr | Bin::Ushr => Op::LongShift(operation, a, b, c),
        _ => Op::LongOp(operation, a, b, c),
    }
}

/// The address at a distance from another.
pub fn target(at: u32, off: i32) -> u32
    requires { at < most_units }
    ensures { result ≡ jump at off }
{
    let to = i64::from(at) + i64::from(off);
    if to < 0 { NOWHERE } else { to as u32 }
}
