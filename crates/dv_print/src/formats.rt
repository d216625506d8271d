// What the operands of an opcode are.
ghost use Rattle.std.specs.Prelude.{◌≡◌};
ghost use Rattle.dv_print.specs.Operands.{has_literal, form_of};

use dv_optable::{Format, row_of};

/// How the registers of an instruction stand: each as an operand, in braces, or in braces by the first and the last.
#[derive(Clone, Copy, PartialEq, Eq, Debug)]
pub enum Form {
    Each,
    Braces,
    Neighbours,
}

/// Whether the format of an opcode has a literal.
#[tactic(auto, unfolding(crate::specs::Operands::has_literal))]
pub fn has_literal(op: u8) -> bool
    ensures { result ≡ has_literal op }
{
    match row_of(op) {
        Some(row) => matches!(
            row.format,
            Format::F11n
                | Format::F21s
                | Format::F21h
                | Format::F22b
                | Format::F22s
                | Format::F31i
                | Format::F51l
        ),
        None => false,
    }
}

/// How the registers of an opcode stand.
#[tactic(auto, unfolding(crate::specs::Operands::form_of))]
pub fn form_of(op: u8) -> Form
    ensures { result ≡ form_of op }
{
    match row_of(op) {
        Some(row) => match row.format {
            Format::F35c => Form::Braces,
            Format::F3rc => Form::Neighbours,
            _ => Form::Each,
        },
        None => Form::Each,
    }
}
