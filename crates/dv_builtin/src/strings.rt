// Texts on the heap.
ghost use Rattle.std.specs.Prelude.{◌≡◌, ℕ, ◌<◌, ◌^◌, List, Ok, length, slice_index};
ghost use Rattle.std.specs.declared.alloc.AllocError.{AllocError as Lacking};
ghost use Rattle.dv_defs.specs.declared.run.Native.TheVariants as natives;
ghost use Rattle.dv_words.specs.Heaps.{kind_of};
ghost use Rattle.dv_words.specs.Stacks.{arg_words};
ghost use Rattle.dv_words.specs.Natives as steps;
ghost use Rattle.dv_words.specs.Natives.{native_step, same_text, text_of};
ghost use Rattle.dv_words.specs.Steps.{At};
ghost use Rattle.dv_builtin.specs.Parts.{unit_in};
ghost use Rattle.dv_builtin.specs.Seeing.{Does, Sees};

use crate::registers::{argument, give};
use dv_defs::{Named, Next, Regs};
use dv_frames::Stack;
use dv_heap::Heap;
use dv_words::Kind;

/// Whether an object is a string.
fn is_string(heap: &Heap, object: u32) -> bool
    ensures { result ≡ steps.is_string (kind_of heap.now object) }
{
    heap.exists(object) && matches!(heap.kind(object), Kind::Str)
}

/// The units of a string. Null and other objects have none.
pub fn text_of(heap: &Heap, object: u32) -> &[u32]
    ensures text { result.now ≡ text_of heap.now object }
    ensures units { (k : ℕ) → slice_index result.now k < 2 ^ 16 }
{
    if is_string(heap, object) {
        heap.words(object)
    } else {
        &[]
    }
}

/// How many units a string has.
fn length_of(heap: &Heap, object: u32) -> u32
    ensures { result ≡ length (text_of heap.now object) }
{
    if is_string(heap, object) {
        heap.size(object)
    } else {
        0
    }
}

/// Whether the second object is a string with the units of the first.
fn same_text(heap: &Heap, first: u32, second: u32) -> bool
    ensures { (h : At) → h.shared.heap ≡ heap.now → result ≡ same_text h first second }
{
    is_string(heap, second) && text_of(heap, first) == heap.words(second)
}

/// The unit at an index.
pub fn unit_at(text: &[u32], index: i32) -> Option<u32>
    ensures { result ≡ unit_in text.now index }
{
    let place = usize::try_from(index).ok()?;
    text.get(place).copied()
}

/// String.length.
pub fn length(heap: &Heap, stack: &mut Stack, next: u32, regs: &Regs) -> Next
    ensures { (h : At) (output : List ℕ) (limit : ℕ) → Sees h stack.old heap.now output limit next →
        Does {E = Lacking} (Ok result) (native_step h natives.Length (arg_words stack.old regs.now)) h.shared stack.old heap.now output stack.new heap.now output }
{
    let string = argument(stack, regs, 0);
    give(stack, next, length_of(heap, string));
    Next::On
}

/// String.charAt.
pub fn char_at(heap: &Heap, stack: &mut Stack, next: u32, regs: &Regs) -> Next
    ensures { (h : At) (output : List ℕ) (limit : ℕ) → Sees h stack.old heap.now output limit next →
        Does {E = Lacking} (Ok result) (native_step h natives.CharAt (arg_words stack.old regs.now)) h.shared stack.old heap.now output stack.new heap.now output }
{
    let string = argument(stack, regs, 0);
    let index = argument(stack, regs, 1).cast_signed();
    match unit_at(text_of(heap, string), index) {
        Some(unit) => {
            give(stack, next, unit);
            Next::On
        }
        None => Next::Throw(Named::IndexOutOfBounds),
    }
}

/// String.equals.
pub fn equals(heap: &Heap, stack: &mut Stack, next: u32, regs: &Regs) -> Next
    ensures { (h : At) (output : List ℕ) (limit : ℕ) → Sees h stack.old heap.now output limit next →
        Does {E = Lacking} (Ok result) (native_step h natives.Equals (arg_words stack.old regs.now)) h.shared stack.old heap.now output stack.new heap.now output }
{
    let string = argument(stack, regs, 0);
    let other = argument(stack, regs, 1);
    give(stack, next, u32::from(same_text(heap, string, other)));
    Next::On
}
