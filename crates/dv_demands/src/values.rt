// Values by their declared types.
ghost use Rattle.std.specs.Prelude.{◌≡◌};
ghost use Rattle.dv_typing.specs.Demands.{single_for, value_for, put_for};
ghost use Rattle.dv_defs.specs.Types.{is_reference as is_reference_type, is_long as is_long_type};
ghost use Rattle.dv_image.specs.Common.{type_of};
ghost use Rattle.dv_units.specs.Tables.{standard_suffix};

use crate::assigning::{Wanted, ref_to};
use crate::reads::{int, long, reference};
use dv_defs::{Base, Image, Rule, Seq, Ty};
use dv_optable::Suffix;
use dv_typing::RegType;

/// A value by its declared type.
pub fn value(image: &Image, regs: &Seq<RegType>, register: u32, ty: &Ty) -> Option<Rule>
    ensures { result ≡ value_for image.now regs.now register ty.now }
{
    if is_long(ty) {
        long(regs, register)
    } else {
        single(image, regs, register, ty.dims, &ty.base)
    }
}

/// A value that one register holds, by a type of so many dimensions over a base.
pub fn single(
    image: &Image,
    regs: &Seq<RegType>,
    register: u32,
    dims: u8,
    base: &Base,
) -> Option<Rule>
    ensures { result ≡ single_for image.now regs.now register (type_of dims base.now) }
{
    if is_reference(dims, base) {
        ref_to(image, regs, register, &Wanted::Over(dims, base))
    } else {
        int(regs, register)
    }
}

pub fn is_long(ty: &Ty) -> bool
    ensures { result ≡ is_long_type ty.now }
{
    ty.dims == 0 && matches!(ty.base, Base::J)
}

/// Whether so many dimensions over a base are a class or an array.
pub fn is_reference(dims: u8, base: &Base) -> bool
    ensures { result ≡ is_reference_type (type_of dims base.now) }
{
    dims > 0 || matches!(base, Base::Class(_))
}

/// What an array-put of a suffix puts.
pub fn put(regs: &Seq<RegType>, register: u32, suffix: Suffix) -> Option<Rule>
    ensures { result ≡ put_for regs.now register (standard_suffix suffix) }
{
    match suffix {
        Suffix::Long => long(regs, register),
        Suffix::Object => reference(regs, register),
        _ => int(regs, register),
    }
}
