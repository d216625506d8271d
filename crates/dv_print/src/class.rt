// The listing of a class.
ghost use Rattle.std.specs.Prelude.{◌≡◌, ◌++◌, IfOk, OnOk};
ghost use Rattle.std.specs.List.{flat_map};
ghost use Rattle.dv_print.specs.Listing.{class_line, superclass_line, interface_line, class_text};

use crate::flags::add_set_flags;
use crate::members::{add_fields, add_methods};
use dv_defs::{ClassDef, Text};
use std::alloc::{AllocError, Global};

fn add_class_line(text: &mut Vec<u8>, class: &ClassDef) -> Result<(), AllocError>
    ensures { OnOk result (text.new.items ≡ text.old.items ++ class_line class.now) }
{
    text.extend_from_slice(b".class ")?;
    add_set_flags(text, class.flags)?;
    text.extend_from_slice(class.name.bytes())?;
    text.extend_from_slice(b"\n")?;
    Ok(())
}

fn add_superclass(text: &mut Vec<u8>, parent: &Option<Text>) -> Result<(), AllocError>
    ensures { OnOk result (text.new.items ≡ text.old.items ++ superclass_line parent.now) }
{
    let Some(name) = parent else {
        return Ok(());
    };
    text.extend_from_slice(b".super ")?;
    text.extend_from_slice(name.bytes())?;
    text.extend_from_slice(b"\n")?;
    Ok(())
}

fn add_interface(text: &mut Vec<u8>, name: &Text) -> Result<(), AllocError>
    ensures { OnOk result (text.new.items ≡ text.old.items ++ interface_line name.now) }
{
    text.extend_from_slice(b".implements ")?;
    text.extend_from_slice(name.bytes())?;
    text.extend_from_slice(b"\n")?;
    Ok(())
}

fn add_interfaces(text: &mut Vec<u8>, interfaces: &[Text]) -> Result<(), AllocError>
    ensures { OnOk result (text.new.items ≡ text.old.items ++ flat_map interface_line interfaces.now) }
{
    for name in interfaces {
        add_interface(text, name)?;
    }
    Ok(())
}

/// The listing of a class as smali text: the class with its superclass and interfaces, its fields, and its methods.
#[tactic(auto, unfolding(crate::specs::Listing::class_text))]
pub fn print_class(alloc: Global, class: &ClassDef) -> Result<Text, AllocError>
    ensures { IfOk result (λ t. t ≡ class_text class.now) }
{
    let mut text = Vec::new(alloc);
    add_class_line(&mut text, class)?;
    add_superclass(&mut text, &class.parent)?;
    add_interfaces(&mut text, class.interfaces.items())?;
    add_fields(&mut text, class.fields.items())?;
    add_methods(&mut text, class.methods.items())?;
    Text::of(text)
}
