// The operands of an instruction as they are printed.
ghost use Rattle.std.specs.Prelude.{◌≡◌, ◌++◌, ◌∷◌, [], map, codes, decimal, option_map, OnOk, IfOk};
ghost use Rattle.std.specs.Option.{option_to_list};
ghost use Rattle.std.specs.List.{flat_map};
ghost use Rattle.dv_print.specs.Operands.{register_text, registers_of, listed, braces_text, neighbours_text, register_operands, literal_text, literal_operands, label_text, is_wide, pool_operands, operands, operands_text, insn_text, name_of};
ghost use Rattle.dv_names.specs.Written.{string_text, field_text, method_text};

use crate::formats::{Form, form_of, has_literal};
use crate::numbers::{add_decimal, add_signed_decimal};
use crate::references::{add_field, add_method, add_string};
use dv_defs::{Chars, FieldRef, Insn, MethodRef, Regs, Text};
use dv_draft::{Draftop, PoolRef};
use dv_names::print_type;
use dv_optable::row_of;
use std::alloc::{AllocError, Global};

/// The name of an opcode.
#[tactic(auto, unfolding(crate::specs::Operands::name_of))]
fn name_of(op: u8) -> &'static str
    ensures { result.now ≡ name_of op }
{
    match row_of(op) {
        Some(row) => row.name,
        None => "",
    }
}

fn register_text(alloc: Global, register: u16) -> Result<Text, AllocError>
    ensures { IfOk result (λ t. t ≡ register_text register) }
{
    let mut text = vec![in alloc; b'v']?;
    add_decimal(&mut text, u64::from(register))?;
    Text::of(text)
}

fn register_texts(alloc: Global, registers: &[u16]) -> Result<Vec<Text>, AllocError>
    ensures { IfOk result (λ v. v.items ≡ map register_text registers.now) }
{
    let mut texts = Vec::new(alloc);
    for register in registers {
        texts.push(register_text(alloc, *register)?)?;
    }
    Ok(texts)
}

/// Appends texts, each with a comma and a blank before it.
fn add_further(text: &mut Vec<u8>, others: &[Text]) -> Result<(), AllocError>
    ensures { OnOk result (text.new.items ≡ text.old.items ++ flat_map (λ y. codes ", " ++ y) others.now) }
{
    for other in others {
        text.extend_from_slice(b", ")?;
        text.extend_from_slice(other.bytes())?;
    }
    Ok(())
}

/// Appends texts with a comma and a blank between.
fn add_listed(text: &mut Vec<u8>, texts: &[Text]) -> Result<(), AllocError>
    ensures { OnOk result (text.new.items ≡ text.old.items ++ listed texts.now) }
{
    match texts {
        [first, others @ ..] => {
            text.extend_from_slice(first.bytes())?;
            add_further(text, others)
        }
        [] => Ok(()),
    }
}

/// The registers that an instruction has.
fn registers_of(regs: &Regs) -> &[u16]
    ensures { result.now ≡ registers_of regs.now }
{
    let count = usize::from(regs.count);
    if count < 5 {
        &regs.first[..count]
    } else {
        &regs.first
    }
}

/// Appends registers with a comma and a blank between.
fn add_registers(text: &mut Vec<u8>, registers: &[u16]) -> Result<(), AllocError>
    ensures { OnOk result (text.new.items ≡ text.old.items ++ listed (map register_text registers.now)) }
{
    let texts = register_texts(*text.allocator(), registers)?;
    add_listed(text, &texts)?;
    Ok(())
}

fn braces_text(alloc: Global, regs: &Regs) -> Result<Text, AllocError>
    ensures { IfOk result (λ t. t ≡ braces_text regs.now) }
{
    let mut text = vec![in alloc; b'{']?;
    add_registers(&mut text, registers_of(regs))?;
    text.push(b'}')?;
    Text::of(text)
}

/// Appends neighbouring registers, at least one, by the first and the last of them.
fn add_neighbours(text: &mut Vec<u8>, first: u16, last: u64) -> Result<(), AllocError>
    ensures { OnOk result (text.new.items ≡ text.old.items ++ codes "{v" ++ decimal first ++ codes " .. v" ++ decimal last ++ codes "}") }
{
    text.extend_from_slice(b"{v")?;
    add_decimal(text, u64::from(first))?;
    text.extend_from_slice(b" .. v")?;
    add_decimal(text, last)?;
    text.extend_from_slice(b"}")?;
    Ok(())
}

/// Neighbouring registers by the first and the last of them.
fn neighbours_text(alloc: Global, first: u16, count: u8) -> Result<Text, AllocError>
    ensures { IfOk result (λ t. t ≡ neighbours_text first count) }
{
    if count == 0 {
        return Text::of(Vec::from_slice(alloc, b"{}")?);
    }
    let mut text = Vec::new(alloc);
    add_neighbours(&mut text, first, u64::from(first) + (u64::from(count) - 1))?;
    Text::of(text)
}

/// The list of one text.
fn alone(alloc: Global, text: Text) -> Result<Vec<Text>, AllocError>
    ensures { IfOk result (λ v. v.items ≡ text ∷ []) }
{
    let mut texts = Vec::new(alloc);
    texts.push(text)?;
    Ok(texts)
}

fn register_operands(alloc: Global, form: Form, regs: &Regs) -> Result<Vec<Text>, AllocError>
    ensures { IfOk result (λ v. v.items ≡ register_operands form regs.now) }
{
    match form {
        Form::Each => register_texts(alloc, registers_of(regs)),
        Form::Braces => alone(alloc, braces_text(alloc, regs)?),
        Form::Neighbours => alone(alloc, neighbours_text(alloc, regs.first[0], regs.count)?),
    }
}

/// A literal in decimal, with a suffix where it has 64 bits.
fn literal_text(alloc: Global, op: u8, literal: i64) -> Result<Text, AllocError>
    ensures { IfOk result (λ t. t ≡ literal_text op literal) }
{
    let mut text = Vec::new(alloc);
    add_signed_decimal(&mut text, literal)?;
    if 0x16 <= op && op <= 0x19 {
        text.extend_from_slice(b"L")?;
    }
    Text::of(text)
}

/// Appends the literal of an instruction, where its format has one.
fn add_literal(texts: &mut Vec<Text>, insn: &Insn) -> Result<(), AllocError>
    ensures { OnOk result (texts.new.items ≡ texts.old.items ++ literal_operands insn.now) }
{
    if has_literal(insn.op) {
        texts.push(literal_text(*texts.allocator(), insn.op, insn.lit)?)?;
    }
    Ok(())
}

/// Appends a label by its name.
pub fn add_label_text(text: &mut Vec<u8>, name: &Text) -> Result<(), AllocError>
    ensures { OnOk result (text.new.items ≡ text.old.items ++ label_text name.now) }
{
    text.push(b':')?;
    text.extend_from_slice(name.bytes())?;
    Ok(())
}

fn label_text(alloc: Global, name: &Text) -> Result<Text, AllocError>
    ensures { IfOk result (λ t. t ≡ label_text name.now) }
{
    let mut text = Vec::new(alloc);
    add_label_text(&mut text, name)?;
    Text::of(text)
}

/// Appends a label, where there is one.
fn add_label(texts: &mut Vec<Text>, label: &Option<Text>) -> Result<(), AllocError>
    ensures { OnOk result (texts.new.items ≡ texts.old.items ++ option_to_list (option_map label_text label.now)) }
{
    if let Some(name) = label {
        texts.push(label_text(*texts.allocator(), name)?)?;
    }
    Ok(())
}

fn string_operand(alloc: Global, chars: &Chars) -> Result<Text, AllocError>
    ensures { IfOk result (λ t. t ≡ string_text chars.now) }
{
    let mut text = Vec::new(alloc);
    add_string(&mut text, chars)?;
    Text::of(text)
}

fn field_operand(alloc: Global, field: &FieldRef) -> Result<Text, AllocError>
    ensures { IfOk result (λ t. t ≡ field_text field.now) }
{
    let mut text = Vec::new(alloc);
    add_field(&mut text, field)?;
    Text::of(text)
}

fn method_operand(alloc: Global, method: &MethodRef) -> Result<Text, AllocError>
    ensures { IfOk result (λ t. t ≡ method_text method.now) }
{
    let mut text = Vec::new(alloc);
    add_method(&mut text, method)?;
    Text::of(text)
}

/// Appends the entry of a pool that an instruction names, where it names one.
fn add_entry(texts: &mut Vec<Text>, entry: &PoolRef) -> Result<(), AllocError>
    ensures { OnOk result (texts.new.items ≡ texts.old.items ++ pool_operands entry.now) }
{
    let alloc = *texts.allocator();
    let text = match entry {
        PoolRef::None => return Ok(()),
        PoolRef::Str(chars) => string_operand(alloc, chars),
        PoolRef::OfType(ty) => print_type(alloc, ty),
        PoolRef::Field(field) => field_operand(alloc, field),
        PoolRef::Method(method) => method_operand(alloc, method),
    };
    texts.push(text?)?;
    Ok(())
}

/// Registers, then a literal, a label, and an entry of a pool.
fn operands(alloc: Global, op: &Draftop) -> Result<Vec<Text>, AllocError>
    ensures { IfOk result (λ v. v.items ≡ operands op.now) }
{
    let mut texts = register_operands(alloc, form_of(op.insn.op), &op.insn.regs)?;
    add_literal(&mut texts, &op.insn)?;
    add_label(&mut texts, &op.label)?;
    add_entry(&mut texts, &op.pool)?;
    Ok(texts)
}

/// Appends operands with a blank before them, where there are some.
fn add_operands(text: &mut Vec<u8>, operands: &[Text]) -> Result<(), AllocError>
    ensures { OnOk result (text.new.items ≡ text.old.items ++ operands_text operands.now) }
{
    if operands.is_empty() {
        return Ok(());
    }
    text.push(b' ')?;
    add_listed(text, operands)?;
    Ok(())
}

/// Appends the name of an instruction, and its operands.
pub fn add_insn(text: &mut Vec<u8>, op: &Draftop) -> Result<(), AllocError>
    ensures { OnOk result (text.new.items ≡ text.old.items ++ insn_text op.now) }
{
    text.extend_from_slice(name_of(op.insn.op).as_bytes())?;
    let operands = operands(*text.allocator(), op)?;
    add_operands(text, &operands)?;
    Ok(())
}
