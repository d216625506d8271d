// References to members as they are printed.
ghost use Rattle.std.specs.Prelude.{◌≡◌, ◌++◌, codes, IfOk};
ghost use Rattle.dv_defs.specs.Written.{field_text as text_of_field, method_text as text_of_method};

use dv_defs::{FieldRef, MethodRef, Text};
use dv_names::{print_proto, print_type};
use std::alloc::{AllocError, Global};

/// A field as its class, its name and its type, as `Ldemo/Main;->count:I`.
pub fn field_text(alloc: Global, reference: &FieldRef) -> Result<Text, AllocError>
    ensures { IfOk result (λ t. t ≡ text_of_field reference.now) }
{
    let class = print_type(alloc, &reference.class)?;
    let ty = print_type(alloc, &reference.ty)?;
    joined(alloc, &class, &reference.name, b":", &ty)
}

/// A method as its class, its name and its prototype, as `Ldemo/Main;->sum(II)I`.
pub fn method_text(alloc: Global, reference: &MethodRef) -> Result<Text, AllocError>
    ensures { IfOk result (λ t. t ≡ text_of_method reference.now) }
{
    let class = print_type(alloc, &reference.class)?;
    let proto = print_proto(alloc, &reference.proto)?;
    joined(alloc, &class, &reference.name, b"", &proto)
}

/// An arrow after the class, and a mark between the name and the type.
fn joined(
    alloc: Global,
    class: &Text,
    name: &Text,
    mark: &[u8],
    ty: &Text,
) -> Result<Text, AllocError>
    ensures { IfOk result (λ t. t ≡ class.now ++ codes "->" ++ name.now ++ mark.now ++ ty.now) }
{
    let mut bytes = Vec::from_slice(alloc, class.bytes())?;
    bytes.extend_from_slice(b"->")?;
    bytes.extend_from_slice(name.bytes())?;
    bytes.extend_from_slice(mark)?;
    bytes.extend_from_slice(ty.bytes())?;
    Text::of(bytes)
}
