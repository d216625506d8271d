// Tests of the types of registers.
ghost use Rattle.std.specs.Prelude.{◌≡◌, ◌&&◌, suc};
ghost use Rattle.dv_typing.specs.Demands.{first as one_then, demand as demand_that, is_int as is_int_type, is_lo as is_low, is_hi as is_high, is_ref as is_ref_type, is_movable as is_movable_type, int as int_at, long as long_at, ref as ref_at};
ghost use Rattle.dv_typing.specs.RegTypes.{type_at};

use dv_defs::{Rule, Seq};
use dv_typing::RegType;

/// The one, then the other.
pub fn first(one: Option<Rule>, next: Option<Rule>) -> Option<Rule>
    ensures { result ≡ one_then one next }
{
    match one {
        Some(broken) => Some(broken),
        None => next,
    }
}

/// A rule, where its test fails.
pub fn demand(holds: bool, broken: Rule) -> Option<Rule>
    ensures { result ≡ demand_that holds broken }
{
    if holds { None } else { Some(broken) }
}

/// Whether a register is Zero or Int.
pub fn is_int(regs: &Seq<RegType>, register: u32) -> bool
    ensures { result ≡ is_int_type (type_at regs.now register) }
{
    matches!(
        regs.items().get(register as usize),
        Some(RegType::Zero | RegType::Int)
    )
}

fn has_low_half(regs: &Seq<RegType>, register: usize) -> bool
    ensures { result ≡ is_low (type_at regs.now register) }
{
    matches!(regs.items().get(register as usize), Some(RegType::LongLo))
}

fn has_high_half(regs: &Seq<RegType>, register: usize) -> bool
    ensures { result ≡ is_high (type_at regs.now register) }
{
    matches!(regs.items().get(register as usize), Some(RegType::LongHi))
}

/// Whether a register is Zero or of a class.
pub fn is_ref(regs: &Seq<RegType>, register: u32) -> bool
    ensures { result ≡ is_ref_type (type_at regs.now register) }
{
    matches!(
        regs.items().get(register as usize),
        Some(RegType::Zero | RegType::Class(_))
    )
}

/// Whether move-object moves a register.
pub fn is_movable(regs: &Seq<RegType>, register: u32) -> bool
    ensures { result ≡ is_movable_type (type_at regs.now register) }
{
    matches!(
        regs.items().get(register as usize),
        Some(RegType::Zero | RegType::Class(_) | RegType::Uninit(_) | RegType::UninitThis)
    )
}

/// V2: an int.
pub fn int(regs: &Seq<RegType>, register: u32) -> Option<Rule>
    ensures { result ≡ int_at regs.now register }
{
    demand(is_int(regs, register), Rule::V(2))
}

/// Whether a long's low half stands in a register and its high half in the next.
fn is_long_at(regs: &Seq<RegType>, register: u32) -> bool
    ensures { result ≡ (is_low (type_at regs.now register) && is_high (type_at regs.now (suc register))) }
{
    let low = register as usize;
    has_low_half(regs, low) && has_high_half(regs, low + 1)
}

/// V3: a long, the low half with the high half after it.
pub fn long(regs: &Seq<RegType>, register: u32) -> Option<Rule>
    ensures { result ≡ long_at regs.now register }
{
    demand(is_long_at(regs, register), Rule::V(3))
}

/// V4: a reference.
pub fn reference(regs: &Seq<RegType>, register: u32) -> Option<Rule>
    ensures { result ≡ ref_at regs.now register }
{
    demand(is_ref(regs, register), Rule::V(4))
}
