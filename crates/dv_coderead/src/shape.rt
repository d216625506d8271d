// What the operands of an opcode are, by its format.
ghost use Rattle.std.specs.Prelude.{◌≡◌, IfSome};
ghost use Rattle.dv_optable.specs.Table.{format_at};
ghost use Rattle.dv_coderead.specs.Operands.{has_label, literal_by, registers_in, IsLiteral};

use dv_optable::{Format, row_of};

/// How the registers of an instruction are written: so many operands, in braces, or in braces by the first and the last.
#[derive(Clone, Copy)]
pub enum Registers {
    Each(u8),
    Braces,
    Neighbours,
}

/// A literal of so many bits, of which the last `zeros` are 0.
#[derive(Clone, Copy)]
pub struct Literal {
    pub bits: u32,
    pub zeros: u32,
}

/// The format of an opcode.
fn format_of(op: u8) -> Option<Format>
    ensures { result ≡ format_at op }
{
    match row_of(op) {
        Some(row) => Some(row.format),
        None => None,
    }
}

/// How the registers of an opcode are written.
pub fn registers_of(op: u8) -> Registers
    ensures { result ≡ registers_in (format_at op) }
{
    match format_of(op) {
        Some(Format::F10x | Format::F10t | Format::F20t | Format::F30t) => Registers::Each(0),
        Some(
            Format::F12x
            | Format::F22x
            | Format::F22b
            | Format::F22t
            | Format::F22s
            | Format::F22c
            | Format::F32x,
        ) => Registers::Each(2),
        Some(Format::F23x) => Registers::Each(3),
        Some(Format::F35c) => Registers::Braces,
        Some(Format::F3rc) => Registers::Neighbours,
        _ => Registers::Each(1),
    }
}

/// The literal of an opcode, if it has one.
pub fn literal_of(op: u8) -> Option<Literal>
    ensures exact { result ≡ literal_by (format_at op) op }
    ensures shape { IfSome result IsLiteral }
{
    let (bits, zeros) = match format_of(op)? {
        Format::F11n => (4, 0),
        Format::F22b => (8, 0),
        Format::F21s | Format::F22s => (16, 0),
        Format::F21h if op == 0x15 => (32, 16),
        Format::F21h => (64, 48),
        Format::F31i => (32, 0),
        Format::F51l => (64, 0),
        _ => return None,
    };
    Some(Literal { bits, zeros })
}

/// Whether an opcode has a label.
pub fn has_label(op: u8) -> bool
    ensures { result ≡ has_label (format_at op) }
{
    matches!(
        format_of(op),
        Some(
            Format::F10t | Format::F20t | Format::F21t | Format::F22t | Format::F30t | Format::F31t
        )
    )
}
