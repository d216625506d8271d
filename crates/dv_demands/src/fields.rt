// What puts of fields and elements demand.
ghost use Rattle.std.specs.Prelude.{◌≡◌};
ghost use Rattle.dv_typing.specs.Demands.{first as one_then, array as array_at, int as int_at, put_for, put_receiver, value_for};
ghost use Rattle.dv_typing.specs.RegTypes.{type_at};
ghost use Rattle.dv_typing.specs.Statics.{is_of_suffix};
ghost use Rattle.dv_ops.specs.Meaning.{field_of, method_of};
ghost use Rattle.dv_units.specs.Tables.{standard_suffix};

use crate::arrays::{Elements, array};
use crate::assigning::{Wanted, ref_to};
use crate::reads::{demand, first, int};
use crate::values::{put, value};
use dv_defs::{Image, Rule, Seq};
use dv_ops::{Field, Method};
use dv_optable::Suffix;
use dv_typing::RegType;

/// A receiver, then the value that is put into its field.
pub fn field_put(
    image: &Image,
    own: &Method<'_>,
    regs: &Seq<RegType>,
    from: u16,
    object: u16,
    field: &Field<'_>,
) -> Option<Rule>
    ensures { result ≡ one_then (put_receiver image.now (method_of own.now) regs.now object (field_of field.now) (type_at regs.now object)) (value_for image.now regs.now from field.now.def.now.ty) }
{
    first(
        receiver(image, own, regs, u32::from(object), field),
        field_value(image, regs, from, field),
    )
}

/// The value that is put into a field.
pub fn field_value(image: &Image, regs: &Seq<RegType>, from: u16, field: &Field<'_>) -> Option<Rule>
    ensures { result ≡ value_for image.now regs.now from field.now.def.now.ty }
{
    let def = field.def;
    value(image, regs, u32::from(from), &def.ty)
}

/// V14: before the superclass's constructor was called, a field of the method's own class may be put.
fn receiver(
    image: &Image,
    own: &Method<'_>,
    regs: &Seq<RegType>,
    object: u32,
    field: &Field<'_>,
) -> Option<Rule>
    ensures { result ≡ put_receiver image.now (method_of own.now) regs.now object (field_of field.now) (type_at regs.now object) }
{
    let class = field.info.class;
    match regs.items().get(object as usize) {
        Some(RegType::UninitThis) => demand(class.0 == own.info.class.0, Rule::V(14)),
        _ => ref_to(image, regs, object, &Wanted::Class(class)),
    }
}

/// An array of a suffix's elements, and an index.
pub fn element(regs: &Seq<RegType>, suffix: Suffix, from: u16, index: u16) -> Option<Rule>
    ensures { result ≡ one_then (array_at regs.now from (is_of_suffix (standard_suffix suffix))) (int_at regs.now index) }
{
    first(
        array(regs, u32::from(from), Elements::OfSuffix(suffix)),
        int(regs, u32::from(index)),
    )
}

/// The same, and the value that is put there.
pub fn element_put(
    regs: &Seq<RegType>,
    suffix: Suffix,
    from: u16,
    to: u16,
    index: u16,
) -> Option<Rule>
    ensures { result ≡ one_then (array_at regs.now to (is_of_suffix (standard_suffix suffix))) (one_then (int_at regs.now index) (put_for regs.now from (standard_suffix suffix))) }
{
    first(
        array(regs, u32::from(to), Elements::OfSuffix(suffix)),
        first(
            int(regs, u32::from(index)),
            put(regs, u32::from(from), suffix),
        ),
    )
}
