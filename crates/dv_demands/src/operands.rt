// Operands that are numbers, and comparisons.
ghost use Rattle.std.specs.Prelude.{◌≡◌, ◌&&◌, ◌||◌};
ghost use Rattle.dv_typing.specs.Demands.{first as one_then, arg_int, both_for, zero_for, int as int_at, long as long_at, is_int as is_int_type, is_ref as is_ref_type, is_pending_int, is_pending_long, is_pending_ref};
ghost use Rattle.dv_defs.specs.Parts.{is_equality as is_equality_test};
ghost use Rattle.dv_typing.specs.RegTypes.{type_at};
ghost use Rattle.dv_ops.specs.Meaning.{arg_of};
ghost use Rattle.dv_units.specs.Tables.{standard_test};

use crate::reads::{demand, first, int, is_int, is_ref, long};
use dv_defs::{Rule, Seq};
use dv_ops::Arg;
use dv_optable::Test;
use dv_typing::{PendingType, RegType};

/// An int and a second operand.
pub fn int_and(regs: &Seq<RegType>, one: u16, other: Arg) -> Option<Rule>
    ensures { result ≡ one_then (int_at regs.now one) (arg_int regs.now (arg_of other)) }
{
    first(int(regs, u32::from(one)), argument(regs, other))
}

fn argument(regs: &Seq<RegType>, arg: Arg) -> Option<Rule>
    ensures { result ≡ arg_int regs.now (arg_of arg) }
{
    match arg {
        Arg::Reg(register) => int(regs, u32::from(register)),
        Arg::Lit(_) => None,
    }
}

pub fn two_longs(regs: &Seq<RegType>, one: u16, other: u16) -> Option<Rule>
    ensures { result ≡ one_then (long_at regs.now one) (long_at regs.now other) }
{
    first(long(regs, u32::from(one)), long(regs, u32::from(other)))
}

/// A long, and an int by which it is shifted.
pub fn shift(regs: &Seq<RegType>, one: u16, other: u16) -> Option<Rule>
    ensures { result ≡ one_then (long_at regs.now one) (int_at regs.now other) }
{
    first(long(regs, u32::from(one)), int(regs, u32::from(other)))
}

/// V9: if-eq and if-ne compare two ints or two references.
pub fn both(test: Test, regs: &Seq<RegType>, one: u16, other: u16) -> Option<Rule>
    ensures { result ≡ both_for (standard_test test) regs.now one other }
{
    let (one, other) = (u32::from(one), u32::from(other));
    if is_equality(test) {
        demand(are_comparable(regs, one, other), Rule::V(9))
    } else {
        first(int(regs, one), int(regs, other))
    }
}

fn are_comparable(regs: &Seq<RegType>, one: u32, other: u32) -> bool
    ensures { result ≡ ((is_int_type (type_at regs.now one) && is_int_type (type_at regs.now other)) || (is_ref_type (type_at regs.now one) && is_ref_type (type_at regs.now other))) }
{
    is_int(regs, one) && is_int(regs, other) || is_ref(regs, one) && is_ref(regs, other)
}

pub fn zero(test: Test, regs: &Seq<RegType>, register: u16) -> Option<Rule>
    ensures { result ≡ zero_for (standard_test test) regs.now register }
{
    let register = u32::from(register);
    if is_equality(test) {
        demand(is_int(regs, register) || is_ref(regs, register), Rule::V(9))
    } else {
        int(regs, register)
    }
}

fn is_equality(test: Test) -> bool
    ensures { result ≡ is_equality_test (standard_test test) }
{
    matches!(test, Test::Eq | Test::Ne)
}

/// Whether the result of a call is an int.
pub fn has_int(pending: &PendingType) -> bool
    ensures { result ≡ is_pending_int pending.now }
{
    matches!(pending, PendingType::One(RegType::Int))
}

pub fn has_long(pending: &PendingType) -> bool
    ensures { result ≡ is_pending_long pending.now }
{
    matches!(pending, PendingType::Long)
}

pub fn has_reference(pending: &PendingType) -> bool
    ensures { result ≡ is_pending_ref pending.now }
{
    matches!(pending, PendingType::One(RegType::Class(_)))
}
