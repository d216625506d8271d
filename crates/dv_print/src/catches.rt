// The handlers of a draft as they are printed.
ghost use Rattle.std.specs.Prelude.{◌≡◌, ◌++◌, codes, OnOk};
ghost use Rattle.std.specs.List.{flat_map};
ghost use Rattle.dv_print.specs.Draft.{kind_text, catch_text};
ghost use Rattle.dv_print.specs.Operands.{label_text};

use crate::operands::add_label_text;
use crate::references::add_type;
use dv_defs::{Text, Ty};
use dv_draft::Catch;
use std::alloc::AllocError;

/// Appends the directive of a handler, and the type that it catches.
fn add_kind(text: &mut Vec<u8>, kind: &Option<Ty>) -> Result<(), AllocError>
    ensures { OnOk result (text.new.items ≡ text.old.items ++ kind_text kind.now) }
{
    match kind {
        Some(ty) => {
            text.extend_from_slice(b".catch ")?;
            add_type(text, ty)
        }
        None => text.extend_from_slice(b".catchall"),
    }
}

/// Appends the labels between which a handler stands.
fn add_range(text: &mut Vec<u8>, from: &Text, to: &Text) -> Result<(), AllocError>
    ensures { OnOk result (text.new.items ≡ text.old.items ++ codes " {" ++ label_text from.now ++ codes " .. " ++ label_text to.now ++ codes "} ") }
{
    text.extend_from_slice(b" {")?;
    add_label_text(text, from)?;
    text.extend_from_slice(b" .. ")?;
    add_label_text(text, to)?;
    text.extend_from_slice(b"} ")?;
    Ok(())
}

/// Appends a handler on its line.
fn add_catch(text: &mut Vec<u8>, catch: &Catch) -> Result<(), AllocError>
    ensures { OnOk result (text.new.items ≡ text.old.items ++ catch_text catch.now) }
{
    add_kind(text, &catch.kind)?;
    add_range(text, &catch.from, &catch.to)?;
    add_label_text(text, &catch.at)?;
    text.extend_from_slice(b"\n")?;
    Ok(())
}

/// Appends handlers on their lines.
pub fn add_catches(text: &mut Vec<u8>, catches: &[Catch]) -> Result<(), AllocError>
    ensures { OnOk result (text.new.items ≡ text.old.items ++ flat_map catch_text catches.now) }
{
    for catch in catches {
        add_catch(text, catch)?;
    }
    Ok(())
}
