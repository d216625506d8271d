// Instructions by the kinds of their operands.
ghost use Rattle.std.specs.Prelude.{◌≡◌, [], ◌∷◌};
ghost use Rattle.dv_defs.specs.Spelling.{few, neighbours, plain, with_literal, with_offset, with_index, insn_eq};

use dv_defs::{Insn, Regs};

pub fn no_registers() -> Regs
    ensures { result ≡ few [] }
{
    Regs {
        count: 0,
        first: [0, 0, 0, 0, 0],
        range: false,
    }
}

pub fn one_register(a: u16) -> Regs
    ensures { result ≡ few (a ∷ []) }
{
    Regs {
        count: 1,
        first: [a, 0, 0, 0, 0],
        range: false,
    }
}

pub fn two_registers(a: u16, b: u16) -> Regs
    ensures { result ≡ few (a ∷ b ∷ []) }
{
    Regs {
        count: 2,
        first: [a, b, 0, 0, 0],
        range: false,
    }
}

pub fn three_registers(a: u16, b: u16, c: u16) -> Regs
    ensures { result ≡ few (a ∷ b ∷ c ∷ []) }
{
    Regs {
        count: 3,
        first: [a, b, c, 0, 0],
        range: false,
    }
}

pub fn neighbours(first: u16, count: u8) -> Regs
    ensures { result ≡ neighbours first count }
{
    Regs {
        count,
        first: [first, 0, 0, 0, 0],
        range: true,
    }
}

pub fn plain(op: u8, regs: Regs) -> Insn
    ensures { result ≡ plain op regs }
{
    Insn {
        op,
        regs,
        lit: 0,
        off: 0,
        index: 0,
    }
}

pub fn with_literal(op: u8, regs: Regs, lit: i64) -> Insn
    ensures { result ≡ with_literal op regs lit }
{
    Insn {
        op,
        regs,
        lit,
        off: 0,
        index: 0,
    }
}

pub fn with_offset(op: u8, regs: Regs, off: i32) -> Insn
    ensures { result ≡ with_offset op regs off }
{
    Insn {
        op,
        regs,
        lit: 0,
        off,
        index: 0,
    }
}

pub fn with_index(op: u8, regs: Regs, index: u32) -> Insn
    ensures { result ≡ with_index op regs index }
{
    Insn {
        op,
        regs,
        lit: 0,
        off: 0,
        index,
    }
}

/// Whether an instruction has a form.
#[tactic(auto, unfolding(dv_defs::specs::Spelling::insn_eq))]
pub fn has_form(insn: &Insn, form: Insn) -> bool
    ensures { result ≡ insn_eq insn.now form }
{
    *insn == form
}
