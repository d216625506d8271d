// The rules of operations: S4, S8 and S13 to S16.
ghost use Rattle.std.specs.Prelude.{◌≡◌, ◌<◌, ◌++◌, false, Option, OnOk, map, option_map};
ghost use Rattle.dv_defs.specs.declared.faults.Rule.TheVariants as rule;
ghost use Rattle.dv_defs.specs.declared.names.Ty.{Ty as Named};
ghost use Rattle.dv_typing.specs.Accepting.{places as places_at};
ghost use Rattle.dv_defs.specs.Op.{Code, named_registers};
ghost use Rattle.dv_defs.specs.Pools.{is_abstract_class as is_abstract_at};
ghost use Rattle.dv_typing.specs.Statics.{is_filled_type as is_filled, op_rules, unless};
ghost use Rattle.dv_ops.specs.Meaning.{code_of, meant, method_of};
ghost use Rattle.dv_units.specs.Tables.{standard_call};
ghost use Rattle.dv_static.specs.Operations.{are_filled, call_rules, has_instances, is_call};
ghost use Rattle.dv_static.specs.Placed.{places_of};
ghost use Rattle.dv_static.specs.Tiles.{tile_of};
ghost use Rattle.dv_defs.specs.Body.{most_units};

use crate::branches::switch_leads;
use crate::calls::fits_call;
use crate::members::{fits_arguments, fits_instance_field, fits_static_field};
use crate::places::{Place, add_unless};
use crate::starts::Starts;
use dv_defs::{Base, ClassId, Flag, Image, Regs, Rule, Ty};
use dv_image::has_interface_flag;
use dv_ops::{Coded, Method, Op};
use dv_optable::Call;
use std::alloc::AllocError;

/// Adds what an operation breaks, beside its registers. `named` is the type by which an invoke names its method.
pub fn add_op_places(
    image: &Image,
    code: &Coded<'_>,
    starts: &Starts<'_>,
    at: u32,
    named: Option<&Ty>,
    op: &Op<'_>,
    places: &mut Vec<Place>,
) -> Result<(), AllocError>
    requires at { at < most_units }
    requires tiles { (code_of code.now).tiles ≡ map tile_of starts.now }
    ensures { OnOk result (places_of places.new.items ≡ places_of places.old.items ++ places_at at (op_rules image.now (code_of code.now) (option_map (λ t. t.now) named.entry) (meant (code_of code.now) at op.now))) }
{
    match op {
        Op::Invoke(call, regs, method) => {
            add_call_places(image, &code.method, at, named, *call, regs, method, places)
        }
        _ => {
            let (is_good, number) = test_of(image, starts, at, op);
            add_unless(is_good, at, Rule::S(number), places)
        }
    }
}

/// The rule that is about an operation other than a call, with its test. Where none is, the test holds.
fn test_of(image: &Image, starts: &Starts<'_>, at: u32, op: &Op<'_>) -> (bool, u8)
    requires at { at < most_units }
    requires no_call { is_call op.now ≡ false }
    ensures { (code : Code) (named : Option Named) → code.tiles ≡ map tile_of starts.now → unless result.0 (rule.S result.1) ≡ op_rules image.now code named (meant code at op.now) }
{
    match op {
        Op::Goto(to) | Op::IfBoth(_, _, _, to) | Op::IfZero(_, _, to) => (
            starts.begins_insn(*to),
            4,
        ),
        Op::Switch(_, to) => (switch_leads(starts, at, *to), 8),
        Op::FieldGet(suffix, _, _, field) | Op::FieldPut(suffix, _, _, field) => (
            fits_instance_field(image, *suffix, field),
            13,
        ),
        Op::StaticGet(suffix, _, field) | Op::StaticPut(suffix, _, field) => (
            fits_static_field(*suffix, field),
            13,
        ),
        Op::New(_, class) => (is_instantiable(image, *class), 16),
        Op::NewArray(_, _, ty) => (ty.dims > 0, 16),
        Op::Filled(_, ty) => (is_filled_type(ty), 16),
        Op::Cast(_, ty) | Op::InstanceOf(_, _, ty) => (ty.is_reference(), 16),
        _ => (true, 0),
    }
}

/// Adds what a call breaks.
#[tactic(auto, using(crate::proofs::Appended::two_after))]
fn add_call_places(
    image: &Image,
    own: &Method<'_>,
    at: u32,
    named: Option<&Ty>,
    call: Call,
    regs: &Regs,
    method: &Method<'_>,
    places: &mut Vec<Place>,
) -> Result<(), AllocError>
    ensures { OnOk result (places_of places.new.items ≡ places_of places.old.items ++ places_at at (call_rules image.now (method_of own.now) (option_map (λ t. t.now) named.entry) (standard_call call) (named_registers regs.now) (method_of method.now))) }
{
    add_unless(
        fits_call(image, own, named, call, method),
        at,
        Rule::S(14),
        places,
    )?;
    add_unless(fits_arguments(regs, method), at, Rule::S(15), places)
}

/// Whether a class has instances of its own.
fn is_instantiable(image: &Image, class: ClassId) -> bool
    ensures { result ≡ has_instances image.now class.0 }
{
    !has_interface_flag(image, class.0 as usize) && !is_abstract_class(image, class)
}

fn is_abstract_class(image: &Image, class: ClassId) -> bool
    ensures { result ≡ is_abstract_at image.now class.0 }
{
    match image.classes.items().get(class.0 as usize) {
        Some(info) => Flag::Abstract.is_in(info.def.flags),
        None => false,
    }
}

/// Whether filled-new-array makes arrays of the type: of int or of references.
fn is_filled_type(ty: &Ty) -> bool
    ensures { result ≡ is_filled ty.now }
{
    ty.dims > 0 && is_filled_component(ty.dims - 1, &ty.base)
}

fn is_filled_component(dims: u8, base: &Base) -> bool
    ensures { result ≡ are_filled dims base.now }
{
    dims == 0 && *base == Base::I || dims > 0 || matches!(base, Base::Class(_))
}
