// What returns demand.
ghost use Rattle.std.specs.Prelude.{◌≡◌, not, ◌&&◌};
ghost use Rattle.dv_typing.specs.Demands.{is_void as is_void_result, result_width as width_of_result, same_width, this_initialised as initialised, value_returned as returned};
ghost use Rattle.dv_ops.specs.Meaning.{method_of};
ghost use Rattle.dv_units.specs.Tables.{standard_width};
ghost use Rattle.dv_demands.specs.Returns.{return_void_for, return_for};

use crate::invokes::is_constructor;
use crate::reads::{demand, first};
use crate::values::{is_long, is_reference, value};
use dv_defs::{Image, Rule, Seq, Ty};
use dv_ops::Method;
use dv_optable::Width;
use dv_typing::{RegState, RegType};

/// What return-void demands.
pub fn return_void(own: &Method<'_>, state: &RegState) -> Option<Rule>
    ensures { result ≡ return_void_for (method_of own.now) state.now }
{
    let void = demand(own.def.proto.ret.is_none(), Rule::V(13));
    first(void, this_initialised(own, state))
}

/// What the return of a value demands.
pub fn return_value(
    image: &Image,
    own: &Method<'_>,
    width: Width,
    register: u32,
    state: &RegState,
) -> Option<Rule>
    ensures { result ≡ return_for image.now (method_of own.now) (standard_width width) register state.now }
{
    let ret = &own.def.proto.ret;
    first(
        demand(is_returned(width, ret), Rule::V(13)),
        first(
            this_initialised(own, state),
            value_returned(image, &state.regs, register, ret),
        ),
    )
}

/// V12: a constructor returns after the superclass's constructor was called.
fn this_initialised(own: &Method<'_>, state: &RegState) -> Option<Rule>
    ensures { result ≡ initialised (method_of own.now) state.now }
{
    let pending = is_constructor(own) && state.this_pending;
    demand(!pending, Rule::V(12))
}

fn value_returned(
    image: &Image,
    regs: &Seq<RegType>,
    register: u32,
    ret: &Option<Ty>,
) -> Option<Rule>
    ensures { result ≡ returned image.now regs.now register ret.now }
{
    match ret {
        Some(ty) => value(image, regs, register, ty),
        None => None,
    }
}

/// Whether a return of the width is the one that the result's type wants.
fn is_returned(width: Width, ret: &Option<Ty>) -> bool
    ensures { result ≡ (not (is_void_result ret.now) && same_width (standard_width width) (width_of_result ret.now)) }
{
    match ret {
        Some(ty) => is_same(width, width_of(ty)),
        None => false,
    }
}

fn width_of(ty: &Ty) -> Width
    ensures { standard_width result ≡ width_of_result (Some ty.now) }
{
    if is_long(ty) {
        Width::Wide
    } else if is_reference(ty.dims, &ty.base) {
        Width::Reference
    } else {
        Width::Narrow
    }
}

fn is_same(width: Width, other: Width) -> bool
    ensures { result ≡ same_width (standard_width width) (standard_width other) }
{
    matches!(
        (width, other),
        (Width::Narrow, Width::Narrow)
            | (Width::Wide, Width::Wide)
            | (Width::Reference, Width::Reference)
    )
}
