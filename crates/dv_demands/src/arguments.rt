// Arguments of calls, and elements of a filled-new-array.
ghost use Rattle.std.specs.Prelude.{◌≡◌, ◌<◌, [], ◌∷◌, IsNone, drop};
ghost use Rattle.dv_typing.specs.Demands.{args_for, each_for};
ghost use Rattle.dv_defs.specs.Op.{named_registers};
ghost use Rattle.dv_defs.specs.Types.{component, words_of};
ghost use Rattle.dv_image.specs.Common.{type_of};
ghost use Rattle.dv_demands.specs.Arguments.{long_arg_for};

use crate::named::register_at;
use crate::reads::{demand, first, long};
use crate::values::{is_long, single};
use dv_defs::{Base, Image, Regs, Rule, Seq, Ty};
use dv_typing::RegType;

/// Arguments by their types, in the registers from a place on among those that are named.
pub fn args(
    image: &Image,
    regs: &Seq<RegType>,
    params: &Seq<Ty>,
    named: &Regs,
    start: usize,
) -> Option<Rule>
    ensures { result ≡ args_for image.now regs.now params.now (drop start (named_registers named.now)) }
{
    let mut place = start;
    for ty in params.items() {
        if let Some(broken) = arg(image, regs, ty, named, place) {
            return Some(broken);
        }
        place += words(ty);
    }
    None
}

/// The first of them.
fn arg(image: &Image, regs: &Seq<RegType>, ty: &Ty, named: &Regs, place: usize) -> Option<Rule>
    ensures arg { result ≡ args_for image.now regs.now (ty.now ∷ []) (drop place (named_registers named.now)) }
    ensures few { IsNone result → place < 256 }
{
    let Some(register) = register_at(named, place) else {
        return Some(Rule::S(15));
    };
    if is_long(ty) {
        long_arg(regs, register, register_at(named, place + 1))
    } else {
        single(image, regs, register, ty.dims, &ty.base)
    }
}

/// A long has two neighbouring registers.
fn long_arg(regs: &Seq<RegType>, register: u32, next: Option<u32>) -> Option<Rule>
    ensures { result ≡ long_arg_for regs.now register next }
{
    match next {
        Some(next) => first(
            long(regs, register),
            demand(next as usize == register as usize + 1, Rule::V(3)),
        ),
        None => Some(Rule::S(15)),
    }
}

fn words(ty: &Ty) -> usize
    ensures { result ≡ words_of ty.now }
{
    if is_long(ty) { 2 } else { 1 }
}

/// A value for each element of an array.
pub fn elements(image: &Image, regs: &Seq<RegType>, named: &Regs, ty: &Ty) -> Option<Rule>
    ensures { result ≡ each_for image.now regs.now (named_registers named.now) (component ty.now) }
{
    each(image, regs, named, ty.dims.saturating_sub(1), &ty.base)
}

fn each(image: &Image, regs: &Seq<RegType>, named: &Regs, dims: u8, base: &Base) -> Option<Rule>
    ensures { result ≡ each_for image.now regs.now (named_registers named.now) (type_of dims base.now) }
{
    for place in 0..usize::from(named.count) {
        let Some(register) = register_at(named, place) else {
            return None;
        };
        if let Some(broken) = single(image, regs, register, dims, base) {
            return Some(broken);
        }
    }
    None
}
