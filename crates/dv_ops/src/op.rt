// Operations.

use crate::members::{Field, Method};
use dv_defs::{Chars, ClassId, Regs, Ty};
use dv_optable::{Bin, Call, Suffix, Test, Unary, Width};

/// The second operand of an operation on ints: a register or a constant.
#[derive(Clone, Copy)]
pub enum Arg {
    Reg(u16),
    Lit(i64),
}

/// An instruction with its operands resolved. Registers stand in the order of the format's operands, addresses count units from the
/// body's start. A switch and fill-array-data have the address of their payload.
#[derive(Clone, Copy)]
pub enum Op<'a> {
    Nop,
    MoveInt(u16, u16),
    MoveLong(u16, u16),
    MoveObject(u16, u16),
    ResultInt(u16),
    ResultLong(u16),
    ResultObject(u16),
    TakeCaught(u16),
    Const(u16, i64),
    ConstLong(u16, i64),
    IntUnary(Unary, u16, u16),
    LongUnary(Unary, u16, u16),
    IntToLong(u16, u16),
    LongToInt(u16, u16),
    IntOp(Bin, u16, u16, Arg),
    LongOp(Bin, u16, u16, u16),
    LongShift(Bin, u16, u16, u16),
    CompareLong(u16, u16, u16),
    Goto(u32),
    IfBoth(Test, u16, u16, u32),
    IfZero(Test, u16, u32),
    Switch(u16, u32),
    IntDivide(Bin, u16, u16, Arg),
    LongDivide(Bin, u16, u16, u16),
    ConstString(u16, &'a Chars),
    ConstClass(u16, &'a Ty),
    Enter(u16),
    Exit(u16),
    Cast(u16, &'a Ty),
    InstanceOf(u16, u16, &'a Ty),
    ArrayLength(u16, u16),
    New(u16, ClassId),
    NewArray(u16, u16, &'a Ty),
    Filled(Regs, &'a Ty),
    Fill(u16, u32),
    Throw(u16),
    ArrayGet(Suffix, u16, u16, u16),
    ArrayPut(Suffix, u16, u16, u16),
    FieldGet(Suffix, u16, u16, Field<'a>),
    FieldPut(Suffix, u16, u16, Field<'a>),
    StaticGet(Suffix, u16, Field<'a>),
    StaticPut(Suffix, u16, Field<'a>),
    Invoke(Call, Regs, Method<'a>),
    ReturnVoid,
    Return(Width, u16),
}
