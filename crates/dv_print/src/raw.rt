// A raw body as it is printed.
ghost use Rattle.std.specs.Prelude.{◌≡◌, ◌<◌, ◌++◌, length, codes, decimal, IfOk, OnOk};
ghost use Rattle.std.specs.Option.{option_copied};
ghost use Rattle.std.specs.List.{flat_map};
ghost use Rattle.dv_print.specs.Draft.{registers_text};
ghost use Rattle.dv_print.specs.Raw.{string_line, type_line, field_ref_line, method_ref_line, pools_text, separator, units_from, units_text, caught_text, handler_line, try_lines, raw_text};

use crate::handlers::kind_of;
use crate::numbers::{add_decimal, hexadecimal};
use crate::references::{add_field, add_method, add_string, add_type};
use dv_defs::{Body, Chars, FieldRef, Handler, MethodRef, Try, Ty};
use std::alloc::{AllocError, Global};

/// Appends a number of registers.
fn add_registers(text: &mut Vec<u8>, registers: u16) -> Result<(), AllocError>
    ensures { OnOk result (text.new.items ≡ text.old.items ++ registers_text registers) }
{
    text.extend_from_slice(b".registers ")?;
    add_decimal(text, u64::from(registers))?;
    text.extend_from_slice(b"\n")?;
    Ok(())
}

/// Appends the number of a body's registers.
pub fn add_body_registers(text: &mut Vec<u8>, body: &Body) -> Result<(), AllocError>
    ensures { OnOk result (text.new.items ≡ text.old.items ++ registers_text body.now.registers) }
{
    add_registers(text, body.registers)?;
    Ok(())
}

fn add_string_line(text: &mut Vec<u8>, chars: &Chars) -> Result<(), AllocError>
    ensures { OnOk result (text.new.items ≡ text.old.items ++ string_line chars.now) }
{
    text.extend_from_slice(b".rawref ")?;
    add_string(text, chars)?;
    text.extend_from_slice(b"\n")?;
    Ok(())
}

fn add_string_lines(text: &mut Vec<u8>, strings: &[Chars]) -> Result<(), AllocError>
    ensures { OnOk result (text.new.items ≡ text.old.items ++ flat_map string_line strings.now) }
{
    for chars in strings {
        add_string_line(text, chars)?;
    }
    Ok(())
}

fn add_type_line(text: &mut Vec<u8>, ty: &Ty) -> Result<(), AllocError>
    ensures { OnOk result (text.new.items ≡ text.old.items ++ type_line ty.now) }
{
    text.extend_from_slice(b".rawref ")?;
    add_type(text, ty)?;
    text.extend_from_slice(b"\n")?;
    Ok(())
}

fn add_type_lines(text: &mut Vec<u8>, types: &[Ty]) -> Result<(), AllocError>
    ensures { OnOk result (text.new.items ≡ text.old.items ++ flat_map type_line types.now) }
{
    for ty in types {
        add_type_line(text, ty)?;
    }
    Ok(())
}

fn add_field_line(text: &mut Vec<u8>, field: &FieldRef) -> Result<(), AllocError>
    ensures { OnOk result (text.new.items ≡ text.old.items ++ field_ref_line field.now) }
{
    text.extend_from_slice(b".rawref ")?;
    add_field(text, field)?;
    text.extend_from_slice(b"\n")?;
    Ok(())
}

fn add_field_lines(text: &mut Vec<u8>, fields: &[FieldRef]) -> Result<(), AllocError>
    ensures { OnOk result (text.new.items ≡ text.old.items ++ flat_map field_ref_line fields.now) }
{
    for field in fields {
        add_field_line(text, field)?;
    }
    Ok(())
}

fn add_method_line(text: &mut Vec<u8>, method: &MethodRef) -> Result<(), AllocError>
    ensures { OnOk result (text.new.items ≡ text.old.items ++ method_ref_line method.now) }
{
    text.extend_from_slice(b".rawref ")?;
    add_method(text, method)?;
    text.extend_from_slice(b"\n")?;
    Ok(())
}

fn add_method_lines(text: &mut Vec<u8>, methods: &[MethodRef]) -> Result<(), AllocError>
    ensures { OnOk result (text.new.items ≡ text.old.items ++ flat_map method_ref_line methods.now) }
{
    for method in methods {
        add_method_line(text, method)?;
    }
    Ok(())
}

/// Appends the pools: strings, types, fields and methods.
fn add_pools(text: &mut Vec<u8>, body: &Body) -> Result<(), AllocError>
    ensures { OnOk result (text.new.items ≡ text.old.items ++ pools_text body.now) }
{
    add_string_lines(text, body.strings.items())?;
    add_type_lines(text, body.types.items())?;
    add_field_lines(text, body.fields.items())?;
    add_method_lines(text, body.methods.items())?;
    Ok(())
}

/// What stands behind a unit: eight stand on a line.
fn separator(k: usize, count: usize) -> u8
    requires { k < count }
    ensures { result ≡ separator k count }
{
    if k % 8 == 7 || k + 1 == count {
        b'\n'
    } else {
        b' '
    }
}

/// Appends the units, eight a line.
fn add_unit_lines(text: &mut Vec<u8>, units: &[u16]) -> Result<(), AllocError>
    ensures { OnOk result (text.new.items ≡ text.old.items ++ units_from (length units.now) 0 units.now) }
{
    for k in 0..units.len() {
        text.extend_from_slice(&hexadecimal(units[k]))?;
        text.push(separator(k, units.len()))?;
    }
    Ok(())
}

fn add_units(text: &mut Vec<u8>, units: &[u16]) -> Result<(), AllocError>
    ensures { OnOk result (text.new.items ≡ text.old.items ++ units_text units.now) }
{
    text.extend_from_slice(b".units\n")?;
    add_unit_lines(text, units)?;
    text.extend_from_slice(b".end units\n")?;
    Ok(())
}

/// Appends what a handler catches.
fn add_caught(text: &mut Vec<u8>, kind: Option<&Ty>) -> Result<(), AllocError>
    ensures { OnOk result (text.new.items ≡ text.old.items ++ caught_text (option_copied kind.entry)) }
{
    match kind {
        Some(ty) => add_type(text, ty),
        None => text.extend_from_slice(b"all"),
    }
}

/// Appends an address with a blank behind it.
fn add_address(text: &mut Vec<u8>, address: u32) -> Result<(), AllocError>
    ensures { OnOk result (text.new.items ≡ text.old.items ++ decimal address ++ codes " ") }
{
    add_decimal(text, u64::from(address))?;
    text.extend_from_slice(b" ")?;
    Ok(())
}

/// Appends a handler: start, end and handler's address, and what it catches.
fn add_handler(
    text: &mut Vec<u8>,
    types: &[Ty],
    entry: &Try,
    handler: &Handler,
) -> Result<(), AllocError>
    ensures { OnOk result (text.new.items ≡ text.old.items ++ handler_line types.now entry.now handler.now) }
{
    text.extend_from_slice(b".rawtry ")?;
    add_address(text, entry.start)?;
    add_address(text, entry.end)?;
    add_address(text, handler.at)?;
    add_caught(text, kind_of(types, handler))?;
    text.extend_from_slice(b"\n")?;
    Ok(())
}

/// Appends the handlers of a try entry.
fn add_try(text: &mut Vec<u8>, types: &[Ty], entry: &Try) -> Result<(), AllocError>
    ensures { OnOk result (text.new.items ≡ text.old.items ++ try_lines types.now entry.now) }
{
    for handler in entry.handlers.items() {
        add_handler(text, types, entry, handler)?;
    }
    Ok(())
}

/// Appends the handlers of try entries.
fn add_tries(text: &mut Vec<u8>, types: &[Ty], tries: &[Try]) -> Result<(), AllocError>
    ensures { OnOk result (text.new.items ≡ text.old.items ++ flat_map (try_lines types.now) tries.now) }
{
    for entry in tries {
        add_try(text, types, entry)?;
    }
    Ok(())
}

/// The text of a raw body.
fn raw_text(alloc: Global, body: &Body) -> Result<Vec<u8>, AllocError>
    ensures { IfOk result (λ v. v.items ≡ raw_text body.now) }
{
    let mut text = Vec::new(alloc);
    add_body_registers(&mut text, body)?;
    add_pools(&mut text, body)?;
    add_units(&mut text, body.units.items())?;
    add_tries(&mut text, body.types.items(), body.tries.items())?;
    Ok(text)
}

/// Appends a raw body.
pub fn add_raw(text: &mut Vec<u8>, body: &Body) -> Result<(), AllocError>
    ensures { OnOk result (text.new.items ≡ text.old.items ++ raw_text body.now) }
{
    let raw = raw_text(*text.allocator(), body)?;
    text.extend_from_slice(&raw)?;
    Ok(())
}
