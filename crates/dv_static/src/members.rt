// The members that instructions name: S13 and S15.
ghost use Rattle.std.specs.Prelude.{◌≡◌, length, nat_eq, take};
ghost use Rattle.dv_defs.specs.Op.{named_registers};
ghost use Rattle.dv_typing.specs.Statics.{arg_words, fits_instance_field as instance_fits, fits_static_field as static_fits, is_of_suffix as is_suffixed, receiver_words};
ghost use Rattle.dv_defs.specs.Types.{words_of as words_of_type, words_of_all};
ghost use Rattle.dv_ops.specs.Meaning.{field_of, method_of};
ghost use Rattle.dv_units.specs.Tables.{standard_suffix};
ghost use Rattle.dv_static.specs.Words.{left_beside};

use dv_defs::{Base, Flag, Image, Regs, Ty};
use dv_image::has_interface_flag;
use dv_ops::{Field, Method};
use dv_optable::Suffix;

/// Whether a type is one that a suffix is for.
fn is_of_suffix(suffix: Suffix, ty: &Ty) -> bool
    ensures { result ≡ is_suffixed (standard_suffix suffix) ty.now }
{
    match suffix {
        Suffix::Int => ty.dims == 0 && ty.base == Base::I,
        Suffix::Long => ty.dims == 0 && ty.base == Base::J,
        Suffix::Object => ty.is_reference(),
        Suffix::Boolean => ty.dims == 0 && ty.base == Base::Z,
        Suffix::Byte => ty.dims == 0 && ty.base == Base::B,
        Suffix::Char => ty.dims == 0 && ty.base == Base::C,
        Suffix::Short => ty.dims == 0 && ty.base == Base::S,
    }
}

/// Whether iget and iput of a suffix fit a field. One that an interface declares has no place in an object.
pub fn fits_instance_field(image: &Image, suffix: Suffix, field: &Field<'_>) -> bool
    ensures { result ≡ instance_fits image.now (standard_suffix suffix) (field_of field.now) }
{
    let def = field.def;
    !Flag::Static.is_in(def.flags)
        && is_of_suffix(suffix, &def.ty)
        && !has_interface_flag(image, field.info.class.0 as usize)
}

/// Whether sget and sput of a suffix do.
pub fn fits_static_field(suffix: Suffix, field: &Field<'_>) -> bool
    ensures { result ≡ static_fits (standard_suffix suffix) (field_of field.now) }
{
    let def = field.def;
    Flag::Static.is_in(def.flags) && is_of_suffix(suffix, &def.ty)
}

/// Whether registers are as many as the argument words of a method.
pub fn fits_arguments(regs: &Regs, method: &Method<'_>) -> bool
    ensures { result ≡ nat_eq (length (named_registers regs.now)) (arg_words (method_of method.now)) }
{
    words_left(method, count_of(regs)) == Some(0)
}

/// How many registers an instruction names.
#[tactic(auto, using(crate::proofs::Ranges::counted_up))]
fn count_of(regs: &Regs) -> usize
    ensures { result ≡ length (named_registers regs.now) }
{
    if regs.range {
        regs.count as usize
    } else {
        count_of_first(&regs.first, regs.count as usize)
    }
}

fn count_of_first(named: &[u16], count: usize) -> usize
    ensures { result ≡ length (take count named.now) }
{
    if count < named.len() {
        count
    } else {
        named.len()
    }
}

/// What a method's argument words leave of some words; none where they don't fit.
#[tactic(auto, using(crate::proofs::Lefts::left_on, crate::proofs::Lefts::left_short))]
pub fn words_left(method: &Method<'_>, room: usize) -> Option<usize>
    ensures { result ≡ left_beside room (arg_words (method_of method.now)) }
{
    let own = receiver_words(method);
    if room < own {
        return None;
    }
    left_of_types(method.def.proto.params.items(), room - own)
}

fn receiver_words(method: &Method<'_>) -> usize
    ensures { result ≡ receiver_words (method_of method.now) }
{
    if Flag::Static.is_in(method.def.flags) {
        0
    } else {
        1
    }
}

#[tactic(auto, using(crate::proofs::Lefts::types_on, crate::proofs::Lefts::types_short, crate::proofs::Lefts::types_end))]
fn left_of_types(types: &[Ty], room: usize) -> Option<usize>
    ensures { result ≡ left_beside room (words_of_all types.now) }
{
    let mut left = room;
    for ty in types {
        let words = words_of(ty);
        if left < words {
            return None;
        }
        left -= words;
    }
    Some(left)
}

/// How many words a value of a type has.
fn words_of(ty: &Ty) -> usize
    ensures { result ≡ words_of_type ty.now }
{
    if ty.dims == 0 && ty.base == Base::J {
        2
    } else {
        1
    }
}
