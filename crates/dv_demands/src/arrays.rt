// Arrays by the types of their elements.
ghost use Rattle.std.specs.Prelude.{◌≡◌};
ghost use Rattle.dv_typing.specs.Demands.{array as array_at, is_array_of as is_array_of_these, is_fill_type as is_type_filled};
ghost use Rattle.dv_typing.specs.RegTypes.{type_at};
ghost use Rattle.dv_typing.specs.Statics.{is_of_suffix as is_suffixed};
ghost use Rattle.dv_image.specs.Common.{type_of};
ghost use Rattle.dv_units.specs.Tables.{standard_suffix};
ghost use Rattle.dv_demands.specs.Elements.{is_wanted};

use crate::reads::demand;
use crate::values::is_reference;
use dv_defs::{Base, Rule, Seq};
use dv_optable::Suffix;
use dv_typing::RegType;

/// The elements of an array: any, those that a suffix is for, or those that a payload of so many bytes an element fills.
#[derive(Clone, Copy)]
pub enum Elements {
    Any,
    OfSuffix(Suffix),
    OfWidth(u16),
}

/// V10: an array of such elements.
pub fn array(regs: &Seq<RegType>, register: u32, elements: Elements) -> Option<Rule>
    ensures { result ≡ array_at regs.now register (is_wanted elements) }
{
    demand(is_array_of(regs, register, elements), Rule::V(10))
}

fn is_array_of(regs: &Seq<RegType>, register: u32, elements: Elements) -> bool
    ensures { result ≡ is_array_of_these (is_wanted elements) (type_at regs.now register) }
{
    match regs.items().get(register as usize) {
        Some(RegType::Zero) => true,
        Some(RegType::Class(ty)) => ty.dims > 0 && has_type(elements, ty.dims - 1, &ty.base),
        _ => false,
    }
}

/// Whether elements may be of so many dimensions over a base.
fn has_type(elements: Elements, dims: u8, base: &Base) -> bool
    ensures { result ≡ is_wanted elements (type_of dims base.now) }
{
    match elements {
        Elements::Any => true,
        Elements::OfSuffix(suffix) => is_of_suffix(suffix, dims, base),
        Elements::OfWidth(width) => is_fill_type(width, dims, base),
    }
}

fn is_of_suffix(suffix: Suffix, dims: u8, base: &Base) -> bool
    ensures { result ≡ is_suffixed (standard_suffix suffix) (type_of dims base.now) }
{
    match suffix {
        Suffix::Int => dims == 0 && matches!(base, Base::I),
        Suffix::Long => dims == 0 && matches!(base, Base::J),
        Suffix::Object => is_reference(dims, base),
        Suffix::Boolean => dims == 0 && matches!(base, Base::Z),
        Suffix::Byte => dims == 0 && matches!(base, Base::B),
        Suffix::Char => dims == 0 && matches!(base, Base::C),
        Suffix::Short => dims == 0 && matches!(base, Base::S),
    }
}

/// The elements that a payload of so many bytes an element fills.
fn is_fill_type(width: u16, dims: u8, base: &Base) -> bool
    ensures { result ≡ is_type_filled width (type_of dims base.now) }
{
    match base {
        Base::Z | Base::B => dims == 0 && width == 1,
        Base::C | Base::S => dims == 0 && width == 2,
        Base::I => dims == 0 && width == 4,
        Base::J => dims == 0 && width == 8,
        Base::Class(_) => false,
    }
}
