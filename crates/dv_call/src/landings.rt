// The methods on which calls land (AOSP, "invoke-kind"; JVMS 5.4.6).
ghost use Rattle.std.specs.Prelude.{◌≡◌, Some};
ghost use Rattle.dv_defs.specs.Pools as pools;
ghost use Rattle.dv_machine.specs.Calls as machine;
ghost use Rattle.dv_machine.specs.Calls.{Lands};
ghost use Rattle.dv_ops.specs.Meaning.{method_of};
ghost use Rattle.dv_units.specs.Tables.{standard_call};
ghost use Rattle.dv_words.specs.Stacks.{arg_words};
ghost use Rattle.dv_words.specs.Calls as steps;
ghost use Rattle.dv_words.specs.Steps.{At};
ghost use Rattle.dv_call.specs.Landings as calls;
ghost use Rattle.dv_call.specs.Landings.{IsNumbered, IsOwn, IsRunning, IsSeenByCalls, called, constructs, first_of, landed_of, on_landing, selection};

use crate::tops::running;
use dv_boot::native;
use dv_defs::{ClassId, Flag, Image, MethodId, Named, Native, Regs, Select};
use dv_frames::Stack;
use dv_heap::Heap;
use dv_image::{has_interface_flag, parent_of, select};
use dv_objects::{class_of_object, has_interface};
use dv_ops::{Method, method_at};
use dv_optable::Call;

const INIT: &[u8] = b"<init>";

/// What an invoke comes to: the frame of a method is pushed, a native method runs without a frame, or an exception is thrown. An
/// invoke of an instance method that names no register does nothing.
#[derive(Clone, Copy)]
pub enum Landed<'a> {
    Method(Method<'a>),
    Native(Native),
    Throws(Named),
    Nothing,
}

/// The descriptor of a class.
fn name_of(image: &Image, class: ClassId) -> &[u8]
    ensures { result.now ≡ pools.name_at image.now class.0 }
{
    match image.classes.items().get(class.0 as usize) {
        Some(info) => info.def.name.bytes(),
        None => b"",
    }
}

/// The native method that a method is.
fn native_of(image: &Image, method: &Method<'_>) -> Option<Native>
    ensures { result ≡ machine.native_of image.now (method_of method.now) }
{
    if !Flag::Native.is_in(method.def.flags) {
        return None;
    }
    native(name_of(image, method.info.class), method.def.name.bytes())
}

/// A method runs natively, or gets a frame.
fn run<'a>(image: &Image, method: Method<'a>) -> Landed<'a>
    ensures { landed_of result ≡ on_landing image.now (Lands (method_of method.entry)) }
{
    match native_of(image, &method) {
        Some(native) => Landed::Native(native),
        None => Landed::Method(method),
    }
}

/// A method that isn't abstract runs (JLS 12.3).
fn unless_abstract<'a>(image: &Image, method: Method<'a>) -> Landed<'a>
    ensures { landed_of result ≡ on_landing image.now (machine.unless_abstract (method_of method.entry)) }
{
    if Flag::Abstract.is_in(method.def.flags) {
        return Landed::Throws(Named::AbstractMethod);
    }
    run(image, method)
}

/// The method of a number runs: a selection finds none that is abstract.
fn land_on(image: &Image, found: MethodId) -> Landed<'_>
    ensures { landed_of result ≡ on_landing image.now (machine.on_method (pools.method_at image.now found.0)) }
{
    match method_at(image, found) {
        Some(method) => run(image, method),
        None => Landed::Throws(Named::AbstractMethod),
    }
}

/// What a call of a method selects from a class (JVMS 5.4.6); nothing from a class that isn't there.
fn select_from(image: &Image, class: Option<usize>, method: MethodId) -> Select
    ensures { (g : pools.Method) → pools.method_at image.now method.0 ≡ Some g → result ≡ selection image.now class g.def.name g.def.proto }
{
    let Some(place) = class else {
        return Select::Abstract;
    };
    if place >= image.classes.len() {
        return Select::Abstract;
    }
    select(image, ClassId(place as u32), method)
}

/// A call of a method lands on what it selects from a class (JVMS 6.5, "invokevirtual" and "invokeinterface").
fn land_from<'a>(image: &'a Image, class: Option<usize>, method: &Method<'_>) -> Landed<'a>
    ensures { IsNumbered image.now (method_of method.now) →
        landed_of result ≡ on_landing image.now (machine.selected_from image.now class (method_of method.now).def.name (method_of method.now).def.proto) }
{
    match select_from(image, class, method.id) {
        Select::Found(found) => land_on(image, found),
        Select::Abstract => Landed::Throws(Named::AbstractMethod),
        Select::Clash => Landed::Throws(Named::ClassChange),
    }
}

/// The superclass of the class that declares the method that runs on top.
fn above(image: &Image, stack: &Stack) -> Option<usize>
    ensures { (own : pools.Method) → IsRunning image.now stack.now own → result ≡ pools.parent_at image.now own.info.class.0 }
{
    let own = running(image, stack)?;
    parent_of(image, own.info.class.0 as usize)
}

/// Whether the class of a method is an interface that the class of an object lacks.
fn lacks_interface(image: &Image, heap: &Heap, object: u32, method: &Method<'_>) -> bool
    ensures { result ≡ steps.lacks_interface image.now heap.now (method_of method.now) object }
{
    let interface = method.info.class.0 as usize;
    if has_interface_flag(image, interface) {
        !has_interface(image, heap, object, interface)
    } else {
        false
    }
}

/// A call by the class of an object.
fn land_by_object<'a>(image: &'a Image, heap: &Heap, object: u32, method: &Method<'_>) -> Landed<'a>
    ensures { IsNumbered image.now (method_of method.now) →
        landed_of result ≡ on_landing image.now (steps.by_object image.now heap.now (method_of method.now) object) }
{
    if lacks_interface(image, heap, object, method) {
        Landed::Throws(Named::ClassChange)
    } else {
        land_from(image, class_of_object(image, heap, object), method)
    }
}

/// A call on an object.
fn dispatch<'a>(
    image: &'a Image,
    heap: &Heap,
    stack: &Stack,
    call: Call,
    method: Method<'a>,
    object: u32,
) -> Landed<'a>
    ensures { (own : pools.Method) → IsRunning image.now stack.now own → IsNumbered image.now (method_of method.entry) →
        landed_of result ≡ on_landing image.now (steps.dispatch image.now heap.now own (standard_call call) (method_of method.entry) object) }
{
    match call {
        Call::Static | Call::Direct => unless_abstract(image, method),
        Call::Super => land_from(image, above(image, stack), &method),
        Call::Virtual | Call::Interface => land_by_object(image, heap, object, &method),
    }
}

/// Whether a method is a constructor (JVMS 2.9.1).
pub fn is_constructor(method: &Method<'_>) -> bool
    ensures { result ≡ pools.is_constructor (method_of method.now) }
{
    !Flag::Static.is_in(method.def.flags) && method.def.name.bytes() == INIT
}

/// A constructor is called as it is named.
pub fn construct(method: Method<'_>) -> Landed<'_>
    ensures { landed_of result ≡ constructs (method_of method.entry) }
{
    if Flag::Abstract.is_in(method.def.flags) {
        Landed::Throws(Named::AbstractMethod)
    } else {
        Landed::Method(method)
    }
}

/// The first word of those in the registers that an invoke names.
pub fn receiver(stack: &Stack, regs: &Regs) -> Option<u32>
    ensures { result ≡ first_of (arg_words stack.now regs.now) }
{
    if regs.count == 0 {
        return None;
    }
    Some(stack.word(u32::from(regs.first[0])))
}

/// A call whose receiver, which may be null, is this.
fn on_object<'a>(
    image: &'a Image,
    heap: &Heap,
    stack: &Stack,
    call: Call,
    method: Method<'a>,
    object: u32,
) -> Landed<'a>
    ensures { (own : pools.Method) → IsRunning image.now stack.now own → IsNumbered image.now (method_of method.entry) →
        landed_of result ≡ calls.on_object image.now heap.now own (standard_call call) (method_of method.entry) object }
{
    if object == 0 {
        return Landed::Throws(Named::NullPointer);
    }
    dispatch(image, heap, stack, call, method, object)
}

/// A call of an instance method.
fn on_receiver<'a>(
    image: &'a Image,
    heap: &Heap,
    stack: &Stack,
    call: Call,
    regs: &Regs,
    method: Method<'a>,
) -> Landed<'a>
    ensures { (own : pools.Method) → IsRunning image.now stack.now own → IsNumbered image.now (method_of method.entry) →
        landed_of result ≡ calls.on_receiver image.now heap.now own (standard_call call) (method_of method.entry) (first_of (arg_words stack.now regs.now)) }
{
    let Some(object) = receiver(stack, regs) else {
        return Landed::Nothing;
    };
    if is_constructor(&method) {
        construct(method)
    } else {
        on_object(image, heap, stack, call, method, object)
    }
}

/// What an invoke of a method comes to, whose arguments stand in these registers of the frame on top.
#[tactic(auto, using(crate::proofs::Called::from_seen))]
pub fn land<'a>(
    image: &'a Image,
    heap: &Heap,
    stack: &Stack,
    call: Call,
    regs: &Regs,
    method: Method<'a>,
) -> Landed<'a>
    ensures { (h : At) → IsSeenByCalls image.now heap.now stack.now h → IsOwn h → IsNumbered image.now (method_of method.entry) →
        landed_of result ≡ called h (standard_call call) (method_of method.entry) (arg_words stack.now regs.now) }
{
    if Flag::Static.is_in(method.def.flags) {
        unless_abstract(image, method)
    } else {
        on_receiver(image, heap, stack, call, regs, method)
    }
}
