// Words of declared types.
ghost use Rattle.std.specs.Prelude.{◌≡◌, IfOk, OnOk};
ghost use Rattle.dv_defs.specs.Pools.{class_type as type_of_class};
ghost use Rattle.dv_defs.specs.Types.{is_long as is_long_type, of_class};
ghost use Rattle.dv_typing.specs.RegTypes.{single_type};
ghost use Rattle.dv_bases.specs.Bases.{IsWider};
ghost use Rattle.dv_effects.specs.Effects.{object_type};
ghost use Rattle.dv_effects.specs.Said.{Says};

use dv_bases::{Bases, Part, word_of};
use dv_defs::{Base, ClassId, Image, Text, Ty};
use dv_typing::RegType;
use std::alloc::{AllocError, Global};

/// Whether values of a declared type take two registers.
pub fn is_long(ty: &Ty) -> bool
    ensures { result ≡ is_long_type ty.now }
{
    ty.dims == 0 && matches!(ty.base, Base::J)
}

/// The word of a value of a declared type that is no long.
pub fn single_word(bases: &mut Bases<'_>, ty: &Ty) -> Result<u32, AllocError>
    ensures wider { OnOk result (IsWider bases.old bases.new) }
    ensures told { IfOk result (λ word. Says bases.new word (single_type ty.now)) }
{
    if ty.is_reference() {
        reference_word(bases, ty)
    } else {
        Ok(word_of(Part::Int))
    }
}

/// The word of a class or an array.
pub fn reference_word(bases: &mut Bases<'_>, ty: &Ty) -> Result<u32, AllocError>
    ensures wider { OnOk result (IsWider bases.old bases.new) }
    ensures told { IfOk result (λ word. Says bases.new word (RegType.Class ty.now)) }
{
    bases.class_word(ty)
}

/// The word of a class's objects.
pub fn object_word(
    bases: &mut Bases<'_>,
    alloc: Global,
    image: &Image,
    class: ClassId,
) -> Result<u32, AllocError>
    ensures wider { OnOk result (IsWider bases.old bases.new) }
    ensures told { IfOk result (λ word. Says bases.new word (object_type image.now class.0)) }
{
    let ty = class_type(alloc, image, class)?;
    reference_word(bases, &ty)
}

/// The word of the class of a name.
pub fn named_word(bases: &mut Bases<'_>, alloc: Global, name: &[u8]) -> Result<u32, AllocError>
    ensures wider { OnOk result (IsWider bases.old bases.new) }
    ensures told { IfOk result (λ word. Says bases.new word (RegType.Class (of_class name.now))) }
{
    let ty = type_named(alloc, name)?;
    reference_word(bases, &ty)
}

fn type_named(alloc: Global, name: &[u8]) -> Result<Ty, AllocError>
    ensures { IfOk result (λ t. t ≡ of_class name.now) }
{
    let name = Text::of(Vec::from_slice(alloc, name)?)?;
    Ok(Ty {
        dims: 0,
        base: Base::Class(name),
    })
}

/// The type of a class's objects.
fn class_type(alloc: Global, image: &Image, class: ClassId) -> Result<Ty, AllocError>
    ensures { IfOk result (λ t. t ≡ type_of_class image.now class.0) }
{
    let name = match image.classes.items().get(class.0 as usize) {
        Some(info) => info.def.name.clone()?,
        None => Text::of(Vec::new(alloc))?,
    };
    Ok(Ty {
        dims: 0,
        base: Base::Class(name),
    })
}
