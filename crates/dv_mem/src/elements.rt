// Elements of arrays.
ghost use Rattle.std.specs.Prelude.{◌≡◌, ℕ, Some, Ok, IfOk, IsSome};
ghost use Rattle.dv_typing.specs.Demands.{any_type};
ghost use Rattle.dv_defs.specs.Images.{Image as Linked};
ghost use Rattle.dv_defs.specs.Op.{ArrayGet, ArrayLength, ArrayPut};
ghost use Rattle.dv_defs.specs.Parts.{Suffix as Ending};
ghost use Rattle.dv_typing.specs.Statics.{is_of_suffix};
ghost use Rattle.dv_machine.specs.Mem.{on_object};
ghost use Rattle.dv_machine.specs.State.{Did};
ghost use Rattle.dv_units.specs.Tables.{standard_suffix};
ghost use Rattle.dv_words.specs.Heaps.{kind_of};
ghost use Rattle.dv_words.specs.Words.{int_of};
ghost use Rattle.dv_words.specs.Local.{reg_word};
ghost use Rattle.dv_words.specs.Mem as steps;
ghost use Rattle.dv_words.specs.Mem.{WordHere, WordLeft, array_put, on_index, word_mem};
ghost use Rattle.dv_mem.specs.Elements.{by_found, slot_in, width_of};
ghost use Rattle.dv_mem.specs.Operands.{AreWithin, IsArray, IsNullOrArray};
ghost use Rattle.dv_mem.specs.Tops.{Answers, seen, top_frame};

use crate::instances::is_storable;
use crate::narrowing::kept;
use crate::registers::{go_on, put, word};
use crate::words::{self, is_string, load, store};
use dv_defs::{Image, Named, Next};
use dv_frames::Stack;
use dv_heap::Heap;
use dv_optable::Suffix;

/// An element: the number of its array, and the place of its first word there.
#[derive(Clone, Copy, PartialEq, Eq, Debug)]
pub struct Element {
    pub array: u32,
    pub slot: u32,
}

/// Whether the elements that a suffix is for are long.
fn is_wide(suffix: Suffix) -> bool
    ensures { result ≡ steps.is_wide (standard_suffix suffix) }
{
    matches!(suffix, Suffix::Long)
}

/// The place of an element's first word among so many words.
pub fn slot_of(size: u32, wide: bool, index: i32) -> Option<u32>
    ensures { result ≡ slot_in size wide index }
{
    let index = u32::try_from(index).ok()?;
    if wide {
        (index < size / 2).then(|| index * 2)
    } else {
        (index < size).then(|| index)
    }
}

/// The element of an array at an index.
///
/// # Errors
///
/// The exception that null, or an index out of range, throws (JLS 15.13).
fn find(heap: &Heap, array: u32, wide: bool, index: u32) -> Result<Element, Named>
    ensures there { IfOk result (λ e. AreWithin heap.now e.array e.slot (width_of wide)) }
    ensures same { IfOk result (λ e. e.array ≡ array) }
    ensures exists { IfOk result (λ e. IsSome (kind_of heap.now e.array)) }
    ensures found { (h : WordHere) (s : Ending) (go : ℕ → ℕ → Did WordLeft) → h.heap ≡ heap.now → steps.is_wide s ≡ wide → IsNullOrArray (is_of_suffix s) heap.now array →
        on_object (λ o. on_index h o (int_of index) (go o)) array ≡ by_found (λ e. go e.array e.slot) result }
{
    if array == 0 || !heap.exists(array) {
        return Err(Named::NullPointer);
    }
    match slot_of(heap.size(array), wide, index.cast_signed()) {
        Some(slot) => Ok(Element { array, slot }),
        None => Err(Named::ArrayIndex),
    }
}

/// array-length.
pub fn array_length(heap: &Heap, stack: &mut Stack, next: u32, a: u16, b: u16) -> Next
    ensures { (image : Linked) → IsNullOrArray any_type heap.now (reg_word (top_frame stack.old) b) →
        Answers result (word_mem (seen image stack.old heap.now next) (ArrayLength a b)) stack.old heap.now stack.new heap.now }
{
    let array = word(stack, b);
    if array == 0 || !heap.exists(array) {
        return Next::Throw(Named::NullPointer);
    }
    put(stack, next, a, heap.length(array));
    Next::On
}

/// aget and its kin: register a takes the element of array b at index c.
pub fn array_get(
    heap: &Heap,
    stack: &mut Stack,
    next: u32,
    suffix: Suffix,
    a: u16,
    b: u16,
    c: u16,
) -> Next
    ensures { (image : Linked) → IsNullOrArray (is_of_suffix (standard_suffix suffix)) heap.now (reg_word (top_frame stack.old) b) →
        Answers result (word_mem (seen image stack.old heap.now next) (ArrayGet (standard_suffix suffix) a b c)) stack.old heap.now stack.new heap.now }
{
    let wide = is_wide(suffix);
    let array = word(stack, b);
    let index = word(stack, c);
    match find(heap, array, wide, index) {
        Err(named) => Next::Throw(named),
        Ok(found) => {
            words::put(stack, next, a, load(heap, found.array, found.slot, wide));
            Next::On
        }
    }
}

/// Stores a register to an element that is there.
fn put_found(
    image: &Image,
    heap: &mut Heap,
    stack: &mut Stack,
    next: u32,
    suffix: Suffix,
    a: u16,
    found: Element,
) -> Next
    requires there { AreWithin heap.old found.array found.slot (width_of (steps.is_wide (standard_suffix suffix))) }
    requires exists { IsSome (kind_of heap.old found.array) }
    ensures { IsArray (is_of_suffix (standard_suffix suffix)) heap.old found.array →
        Answers result (array_put (seen image.now stack.old heap.old next) found.array (standard_suffix suffix) a found.slot) stack.old heap.old stack.new heap.new }
{
    let value = words::register(stack, a, is_wide(suffix));
    if !is_storable(image, heap, found.array, suffix, word(stack, a)) {
        return Next::Throw(Named::ArrayStore);
    }
    if is_string(heap, found.array) {
        return Next::On;
    }
    store(heap, found.array, found.slot, kept(suffix, value));
    go_on(stack, next);
    Next::On
}

/// aput and its kin: the element of array b at index c takes register a.
pub fn array_put(
    image: &Image,
    heap: &mut Heap,
    stack: &mut Stack,
    next: u32,
    suffix: Suffix,
    a: u16,
    b: u16,
    c: u16,
) -> Next
    ensures { IsNullOrArray (is_of_suffix (standard_suffix suffix)) heap.old (reg_word (top_frame stack.old) b) →
        Answers result (word_mem (seen image.now stack.old heap.old next) (ArrayPut (standard_suffix suffix) a b c)) stack.old heap.old stack.new heap.new }
{
    let array = word(stack, b);
    let index = word(stack, c);
    match find(heap, array, is_wide(suffix), index) {
        Err(named) => Next::Throw(named),
        Ok(found) => put_found(image, heap, stack, next, suffix, a, found),
    }
}
