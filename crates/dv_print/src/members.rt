// The fields and methods of a class as they are printed.
ghost use Rattle.std.specs.Prelude.{◌≡◌, ◌++◌, codes, IfOk, OnOk};
ghost use Rattle.std.specs.List.{flat_map};
ghost use Rattle.dv_names.specs.Descriptors.{prototype};
ghost use Rattle.dv_print.specs.Draft.{draft_text};
ghost use Rattle.dv_print.specs.Drafting.{draft_of};
ghost use Rattle.dv_print.specs.Listing.{flags_text, value_text, field_line, body_text, body_text_if_any, method_lines};

use crate::catches::add_catches;
use crate::drafting::items_of;
use crate::flags::add_set_flags;
use crate::handlers::catches_of;
use crate::items::add_items;
use crate::numbers::add_signed_decimal;
use crate::raw::{add_body_registers, add_raw};
use crate::references::{add_proto, add_string, add_type};
use dv_defs::{Body, FieldDef, Init, MethodDef};
use std::alloc::{AllocError, Global};

/// Appends the value that a field is defined with.
fn add_value(text: &mut Vec<u8>, value: &Init) -> Result<(), AllocError>
    ensures { OnOk result (text.new.items ≡ text.old.items ++ value_text value.now) }
{
    match value {
        Init::Absent => Ok(()),
        Init::Num(n) => {
            text.extend_from_slice(b" = ")?;
            add_signed_decimal(text, *n)
        }
        Init::Str(chars) => {
            text.extend_from_slice(b" = ")?;
            add_string(text, chars)
        }
        Init::Null => text.extend_from_slice(b" = null"),
    }
}

fn field_line(alloc: Global, field: &FieldDef) -> Result<Vec<u8>, AllocError>
    ensures { IfOk result (λ v. v.items ≡ field_line field.now) }
{
    let mut text = Vec::from_slice(alloc, b".field ")?;
    add_set_flags(&mut text, field.flags)?;
    text.extend_from_slice(field.name.bytes())?;
    text.extend_from_slice(b":")?;
    add_type(&mut text, &field.ty)?;
    add_value(&mut text, &field.init)?;
    text.extend_from_slice(b"\n")?;
    Ok(text)
}

fn add_field(text: &mut Vec<u8>, field: &FieldDef) -> Result<(), AllocError>
    ensures { OnOk result (text.new.items ≡ text.old.items ++ field_line field.now) }
{
    let line = field_line(*text.allocator(), field)?;
    text.extend_from_slice(&line)?;
    Ok(())
}

/// Appends fields on their lines.
pub fn add_fields(text: &mut Vec<u8>, fields: &[FieldDef]) -> Result<(), AllocError>
    ensures { OnOk result (text.new.items ≡ text.old.items ++ flat_map field_line fields.now) }
{
    for field in fields {
        add_field(text, field)?;
    }
    Ok(())
}

/// Appends the text of a body's draft.
#[tactic(auto, unfolding(crate::specs::Drafting::draft_of))]
fn add_draft(text: &mut Vec<u8>, body: &Body) -> Result<(), AllocError>
    ensures { OnOk result (text.new.items ≡ text.old.items ++ draft_text (draft_of body.now)) }
{
    let alloc = *text.allocator();
    add_body_registers(text, body)?;
    add_items(text, &items_of(alloc, body)?)?;
    add_catches(text, &catches_of(alloc, body)?)?;
    Ok(())
}

/// Appends a body: as units where it is raw.
fn add_body(text: &mut Vec<u8>, body: &Body) -> Result<(), AllocError>
    ensures { OnOk result (text.new.items ≡ text.old.items ++ body_text body.now) }
{
    if body.raw {
        add_raw(text, body)
    } else {
        add_draft(text, body)
    }
}

fn add_body_if_any(text: &mut Vec<u8>, body: &Option<Body>) -> Result<(), AllocError>
    ensures { OnOk result (text.new.items ≡ text.old.items ++ body_text_if_any body.now) }
{
    match body {
        Some(body) => add_body(text, body),
        None => Ok(()),
    }
}

/// The line with which a method begins.
fn method_line(alloc: Global, method: &MethodDef) -> Result<Vec<u8>, AllocError>
    ensures { IfOk result (λ v. v.items ≡ codes ".method " ++ flags_text method.now.flags ++ method.now.name ++ prototype method.now.proto ++ codes "\n") }
{
    let mut text = Vec::from_slice(alloc, b".method ")?;
    add_set_flags(&mut text, method.flags)?;
    text.extend_from_slice(method.name.bytes())?;
    add_proto(&mut text, &method.proto)?;
    text.extend_from_slice(b"\n")?;
    Ok(text)
}

/// Appends the line with which a method begins.
fn add_method_line(text: &mut Vec<u8>, method: &MethodDef) -> Result<(), AllocError>
    ensures { OnOk result (text.new.items ≡
        text.old.items ++ (codes ".method " ++ flags_text method.now.flags ++ method.now.name ++ prototype method.now.proto ++ codes "\n")) }
{
    let line = method_line(*text.allocator(), method)?;
    text.extend_from_slice(&line)?;
    Ok(())
}

/// Appends a method up to its end.
fn add_method(text: &mut Vec<u8>, method: &MethodDef) -> Result<(), AllocError>
    ensures { OnOk result (text.new.items ≡ text.old.items ++ method_lines method.now) }
{
    add_method_line(text, method)?;
    add_body_if_any(text, &method.body)?;
    text.extend_from_slice(b".end method\n")?;
    Ok(())
}

/// Appends methods one after another.
pub fn add_methods(text: &mut Vec<u8>, methods: &[MethodDef]) -> Result<(), AllocError>
    ensures { OnOk result (text.new.items ≡ text.old.items ++ flat_map method_lines methods.now) }
{
    for method in methods {
        add_method(text, method)?;
    }
    Ok(())
}
