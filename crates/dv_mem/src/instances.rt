// What objects are instances of (JLS 15.20.2).
ghost use Rattle.std.specs.Prelude.{◌≡◌, ℕ, Bool, IsSome};
ghost use Rattle.dv_defs.specs.declared.names.Ty.{Ty as Kept};
ghost use Rattle.dv_defs.specs.Op.{Cast, InstanceOf};
ghost use Rattle.dv_defs.specs.Parts.{Suffix as Ending};
ghost use Rattle.dv_units.specs.Tables.{standard_suffix};
ghost use Rattle.dv_words.specs.declared.state.Frame.{Frame};
ghost use Rattle.dv_words.specs.Heaps.{kind_of};
ghost use Rattle.dv_words.specs.Mem as steps;
ghost use Rattle.dv_words.specs.Mem.{word_mem};
ghost use Rattle.dv_mem.specs.Operands.{IsArray};
ghost use Rattle.dv_mem.specs.Tops.{Answers, here, seen};

use crate::registers::{go_on, put, word};
use dv_defs::{Base, Image, Named, Next, Ty};
use dv_frames::Stack;
use dv_heap::Heap;
use dv_objects::is_instance_of;
use dv_optable::Suffix;
use dv_words::Kind;

/// Whether an object is an instance of the type of so many dimensions over a base. Null is an instance of nothing.
fn is_of_type(image: &Image, heap: &Heap, object: u32, dims: u8, base: &Base) -> bool
    ensures { (frame : Frame) (next : ℕ) → result ≡ steps.is_instance (here image.now frame heap.now next) (record { dims = dims; base = base.now }) object }
{
    object != 0 && is_instance_of(image, heap, object, dims, base)
}

/// Whether an object is an instance of a type. Null is an instance of nothing.
fn is_instance(image: &Image, heap: &Heap, object: u32, ty: &Ty) -> bool
    ensures { (frame : Frame) (next : ℕ) → result ≡ steps.is_instance (here image.now frame heap.now next) ty.now object }
{
    is_of_type(image, heap, object, ty.dims, &ty.base)
}

/// Whether an array takes an object, or null (JLS 10.5).
fn takes(image: &Image, heap: &Heap, array: u32, object: u32) -> bool
    requires { IsSome (kind_of heap.now array) }
    ensures { (good : Kept → Bool) (frame : Frame) (next : ℕ) → IsArray good heap.now array →
        result ≡ steps.is_storable (here image.now frame heap.now next) array Ending.Object object }
{
    if object == 0 {
        return true;
    }
    match heap.kind(array) {
        Kind::Array(ty) => {
            let dims = ty.dims.saturating_sub(1);
            is_of_type(image, heap, object, dims, &ty.base)
        }
        _ => true,
    }
}

/// Whether an array takes a word. Of an array of primitive values nothing is asked.
pub fn is_storable(image: &Image, heap: &Heap, array: u32, suffix: Suffix, word: u32) -> bool
    requires { IsSome (kind_of heap.now array) }
    ensures { (good : Kept → Bool) (frame : Frame) (next : ℕ) → IsArray good heap.now array →
        result ≡ steps.is_storable (here image.now frame heap.now next) array (standard_suffix suffix) word }
{
    match suffix {
        Suffix::Object => takes(image, heap, array, word),
        _ => true,
    }
}

/// check-cast: null passes.
pub fn cast(image: &Image, heap: &Heap, stack: &mut Stack, next: u32, a: u16, ty: &Ty) -> Next
    ensures { Answers result (word_mem (seen image.now stack.old heap.now next) (Cast a ty.now)) stack.old heap.now stack.new heap.now }
{
    let object = word(stack, a);
    if object != 0 && !is_instance(image, heap, object, ty) {
        return Next::Throw(Named::ClassCast);
    }
    go_on(stack, next);
    Next::On
}

/// instance-of: register a takes 1 where b is an instance of the type, else 0.
pub fn instance_of(
    image: &Image,
    heap: &Heap,
    stack: &mut Stack,
    next: u32,
    a: u16,
    b: u16,
    ty: &Ty,
) -> Next
    ensures { Answers result (word_mem (seen image.now stack.old heap.now next) (InstanceOf a b ty.now)) stack.old heap.now stack.new heap.now }
{
    let yes = is_instance(image, heap, word(stack, b), ty);
    put(stack, next, a, u32::from(yes));
    Next::On
}
