// What invokes demand.
ghost use Rattle.std.specs.Prelude.{◌≡◌, ℕ, true, option_map, option_and_then};
ghost use Rattle.dv_typing.specs.Demands.{instance_call, invoke_for, is_exactly as is_exactly_class, is_own_or_super as is_of_own_or_super, made_at, receiver_for, super_for};
ghost use Rattle.dv_defs.specs.Op.{Invoke, named_registers};
ghost use Rattle.dv_defs.specs.Pools.{is_constructor as constructs, is_static as is_static_method, parent_at};
ghost use Rattle.dv_typing.specs.RegTypes.{type_at};
ghost use Rattle.dv_ops.specs.Meaning.{method_of};
ghost use Rattle.dv_units.specs.Tables.{standard_call};
ghost use Rattle.dv_demands.specs.Arguments.{object_for};
ghost use Rattle.dv_demands.specs.Made.{made_for, place_of};

use crate::arguments::args;
use crate::assigning::{Wanted, ref_to};
use crate::named::register_at;
use crate::reads::{demand, first};
use dv_defs::{ClassId, Flag, Image, Regs, Rule, Seq};
use dv_ops::Method;
use dv_optable::Call;
use dv_typing::RegType;

const INIT: &[u8] = b"<init>";

/// The receiver and the arguments of a call. `made` is the class of the object that a constructor is to initialise.
pub fn invoke(
    image: &Image,
    own: &Method<'_>,
    regs: &Seq<RegType>,
    call: Call,
    named: &Regs,
    method: &Method<'_>,
    made: Option<ClassId>,
) -> Option<Rule>
    requires { option_map (λ c. c.0) made ≡ made_for image.now (method_of own.now) (Invoke (standard_call call) (named_registers named.now) (method_of method.now)) regs.now }
    ensures { result ≡ invoke_for image.now (method_of own.now) regs.now (standard_call call) (named_registers named.now) (method_of method.now) }
{
    if is_static(method) {
        args(image, regs, &method.def.proto.params, named, 0)
    } else {
        instance(image, own, regs, call, named, method, made)
    }
}

#[tactic(auto, using(crate::proofs::Receivers::first_is, crate::proofs::Receivers::with_receiver, crate::proofs::Receivers::without_receiver))]
fn instance(
    image: &Image,
    own: &Method<'_>,
    regs: &Seq<RegType>,
    call: Call,
    named: &Regs,
    method: &Method<'_>,
    made: Option<ClassId>,
) -> Option<Rule>
    requires { option_map (λ c. c.0) made ≡ made_for image.now (method_of own.now) (Invoke (standard_call call) (named_registers named.now) (method_of method.now)) regs.now }
    ensures { result ≡ instance_call image.now (method_of own.now) regs.now (standard_call call) (named_registers named.now) (method_of method.now) }
{
    match register_at(named, 0) {
        Some(register) => first(
            object(image, own, regs, call, register, method, made),
            args(image, regs, &method.def.proto.params, named, 1),
        ),
        None => Some(Rule::S(15)),
    }
}

/// The receiver: an object to initialise, or one of the method's class.
fn object(
    image: &Image,
    own: &Method<'_>,
    regs: &Seq<RegType>,
    call: Call,
    register: u32,
    method: &Method<'_>,
    made: Option<ClassId>,
) -> Option<Rule>
    requires { constructs (method_of method.now) ≡ true → option_map (λ c. c.0) made ≡ option_and_then (made_at image.now (method_of own.now)) (place_of (type_at regs.now register)) }
    ensures { result ≡ object_for image.now (method_of own.now) regs.now (standard_call call) register (method_of method.now) }
{
    if is_constructor(method) {
        return receiver(image, own, regs, register, method, made);
    }
    first(
        ref_to(image, regs, register, &Wanted::Class(method.info.class)),
        super_receiver(image, own, regs, register, call),
    )
}

/// V11: the receiver of a constructor.
fn receiver(
    image: &Image,
    own: &Method<'_>,
    regs: &Seq<RegType>,
    register: u32,
    method: &Method<'_>,
    made: Option<ClassId>,
) -> Option<Rule>
    requires { option_map (λ c. c.0) made ≡ option_and_then (made_at image.now (method_of own.now)) (place_of (type_at regs.now register)) }
    ensures { result ≡ receiver_for image.now (method_of own.now) (method_of method.now) (type_at regs.now register) }
{
    let class = method.info.class;
    match regs.items().get(register as usize) {
        Some(RegType::Uninit(_)) => demand(is_exactly(made, class), Rule::V(11)),
        Some(RegType::UninitThis) => demand(is_own_or_super(image, own, class), Rule::V(11)),
        _ => Some(Rule::V(11)),
    }
}

fn is_exactly(made: Option<ClassId>, class: ClassId) -> bool
    ensures { result ≡ is_exactly_class (option_map (λ c. c.0) made) class.0 }
{
    match made {
        Some(made) => made.0 == class.0,
        None => false,
    }
}

fn is_own_or_super(image: &Image, own: &Method<'_>, class: ClassId) -> bool
    ensures { result ≡ is_of_own_or_super image.now (method_of own.now) class.0 }
{
    own.info.class.0 == class.0 || is_exactly(parent_of(image, own.info.class), class)
}

fn parent_of(image: &Image, class: ClassId) -> Option<ClassId>
    ensures { option_map (λ c. c.0) result ≡ parent_at image.now class.0 }
{
    match image.classes.items().get(class.0 as usize) {
        Some(info) => info.parent,
        None => None,
    }
}

/// Beside the method's class an invoke-super asks for the caller's own.
fn super_receiver(
    image: &Image,
    own: &Method<'_>,
    regs: &Seq<RegType>,
    register: u32,
    call: Call,
) -> Option<Rule>
    ensures { result ≡ super_for image.now (method_of own.now) regs.now register (standard_call call) }
{
    match call {
        Call::Super => ref_to(image, regs, register, &Wanted::Class(own.info.class)),
        _ => None,
    }
}

fn is_static(method: &Method<'_>) -> bool
    ensures { result ≡ is_static_method (method_of method.now) }
{
    Flag::Static.is_in(method.def.flags)
}

/// Whether a method is a constructor.
pub fn is_constructor(method: &Method<'_>) -> bool
    ensures { result ≡ constructs (method_of method.now) }
{
    !is_static(method) && method.def.name.bytes() == INIT
}
