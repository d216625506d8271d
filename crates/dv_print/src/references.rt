// Types, strings and references to members as they are printed.
ghost use Rattle.std.specs.Prelude.{◌≡◌, ◌++◌, OnOk};
ghost use Rattle.std.specs.List.{flat_map};
ghost use Rattle.dv_names.specs.Descriptors.{descriptor, prototype};
ghost use Rattle.dv_names.specs.Written.{is_raw, unit_text, string_text, field_text, method_text};

use crate::numbers::hexadecimal;
use dv_defs::{Chars, FieldRef, MethodRef, Proto, Ty};
use dv_names::{print_proto, print_type};
use std::alloc::AllocError;

/// Appends the descriptor of a type.
pub fn add_type(text: &mut Vec<u8>, ty: &Ty) -> Result<(), AllocError>
    ensures { OnOk result (text.new.items ≡ text.old.items ++ descriptor ty.now) }
{
    let name = print_type(*text.allocator(), ty)?;
    text.extend_from_slice(name.bytes())?;
    Ok(())
}

/// Appends the descriptor of a prototype.
pub fn add_proto(text: &mut Vec<u8>, proto: &Proto) -> Result<(), AllocError>
    ensures { OnOk result (text.new.items ≡ text.old.items ++ prototype proto.now) }
{
    let name = print_proto(*text.allocator(), proto)?;
    text.extend_from_slice(name.bytes())?;
    Ok(())
}

/// Printable ASCII other than the quote and the backslash.
fn is_raw(unit: u16) -> bool
    ensures { result ≡ is_raw unit }
{
    32 <= unit && unit <= 126 && unit != 34 && unit != 92
}

/// Appends a unit of a string.
fn add_unit(text: &mut Vec<u8>, unit: u16) -> Result<(), AllocError>
    ensures { OnOk result (text.new.items ≡ text.old.items ++ unit_text unit) }
{
    if is_raw(unit) {
        text.push(unit as u8)?;
        return Ok(());
    }
    text.extend_from_slice(b"\\u")?;
    text.extend_from_slice(&hexadecimal(unit))?;
    Ok(())
}

/// Appends the units of a string.
fn add_units(text: &mut Vec<u8>, units: &[u16]) -> Result<(), AllocError>
    ensures { OnOk result (text.new.items ≡ text.old.items ++ flat_map unit_text units.now) }
{
    for unit in units {
        add_unit(text, *unit)?;
    }
    Ok(())
}

/// Appends a string in quotes.
pub fn add_string(text: &mut Vec<u8>, chars: &Chars) -> Result<(), AllocError>
    ensures { OnOk result (text.new.items ≡ text.old.items ++ string_text chars.now) }
{
    text.extend_from_slice(b"\"")?;
    add_units(text, chars.units())?;
    text.extend_from_slice(b"\"")?;
    Ok(())
}

pub fn add_field(text: &mut Vec<u8>, field: &FieldRef) -> Result<(), AllocError>
    ensures { OnOk result (text.new.items ≡ text.old.items ++ field_text field.now) }
{
    add_type(text, &field.class)?;
    text.extend_from_slice(b"->")?;
    text.extend_from_slice(field.name.bytes())?;
    text.extend_from_slice(b":")?;
    add_type(text, &field.ty)?;
    Ok(())
}

pub fn add_method(text: &mut Vec<u8>, method: &MethodRef) -> Result<(), AllocError>
    ensures { OnOk result (text.new.items ≡ text.old.items ++ method_text method.now) }
{
    add_type(text, &method.class)?;
    text.extend_from_slice(b"->")?;
    text.extend_from_slice(method.name.bytes())?;
    add_proto(text, &method.proto)?;
    Ok(())
}
