// New objects, and strings and Class objects that stand once.
ghost use Rattle.std.specs.Prelude.{◌≡◌, ℕ, Option};
ghost use Rattle.dv_defs.specs.Images.{Image as Linked};
ghost use Rattle.dv_defs.specs.Op.{ConstClass, ConstString, New, NewArray, Throw};
ghost use Rattle.dv_machine.specs.State.{where_room};
ghost use Rattle.dv_words.specs.Heaps.{Got};
ghost use Rattle.dv_words.specs.State.{WordHeap};
ghost use Rattle.dv_words.specs.Words.{int_of};
ghost use Rattle.dv_heap.specs.Answers.{IsGot};
ghost use Rattle.dv_words.specs.Mem.{put_object, word_mem};
ghost use Rattle.dv_words.specs.Stepping.{Answered};
ghost use Rattle.dv_mem.specs.Elements.{count_of};
ghost use Rattle.dv_mem.specs.Tops.{Answers, seen};

use crate::registers::{put, word};
use dv_defs::{Chars, ClassId, Image, Named, Next, Ty};
use dv_frames::Stack;
use dv_heap::{Heap, HeapError};
use std::alloc::AllocError;

/// Writes what was made to a register, and goes on at an address.
fn put_made(
    stack: &mut Stack,
    next: u32,
    a: u16,
    made: Result<u32, HeapError>,
) -> Result<Next, AllocError>
    ensures { (image : Linked) (got : Option Got) (cost : ℕ) (h k : WordHeap) → IsGot made got cost h k →
        Answered result (where_room got (put_object (seen image stack.old h next) a)) stack.old h stack.new k }
{
    match made {
        Ok(object) => {
            put(stack, next, a, object);
            Ok(Next::On)
        }
        Err(HeapError::Full { .. }) => Ok(Next::NoWords),
        Err(HeapError::Memory(error)) => Err(error),
    }
}

/// const-string.
///
/// # Errors
///
/// Want of memory; all is as before then.
pub fn const_string(
    heap: &mut Heap,
    stack: &mut Stack,
    next: u32,
    a: u16,
    chars: &Chars,
) -> Result<Next, AllocError>
    ensures { (image : Linked) → Answered result (word_mem (seen image stack.old heap.old next) (ConstString a chars.now)) stack.old heap.old stack.new heap.new }
{
    let made = heap.intern(chars);
    put_made(stack, next, a, made)
}

/// const-class.
///
/// # Errors
///
/// Want of memory; all is as before then.
pub fn const_class(
    heap: &mut Heap,
    stack: &mut Stack,
    next: u32,
    a: u16,
    ty: &Ty,
) -> Result<Next, AllocError>
    ensures { (image : Linked) → Answered result (word_mem (seen image stack.old heap.old next) (ConstClass a ty.now)) stack.old heap.old stack.new heap.new }
{
    let made = heap.class_object(ty);
    put_made(stack, next, a, made)
}

/// new-instance.
///
/// # Errors
///
/// Want of memory; all is as before then.
pub fn new_instance(
    image: &Image,
    heap: &mut Heap,
    stack: &mut Stack,
    next: u32,
    a: u16,
    class: ClassId,
) -> Result<Next, AllocError>
    ensures { Answered result (word_mem (seen image.now stack.old heap.old next) (New a class.0)) stack.old heap.old stack.new heap.new }
{
    let made = heap.alloc_object(image, class);
    put_made(stack, next, a, made)
}

/// The int of a word as a number of elements, none where it is negative.
pub fn count(word: u32) -> Option<u32>
    ensures { result ≡ count_of (int_of word) }
{
    u32::try_from(word.cast_signed()).ok()
}

/// new-array: a negative size throws before room is asked for.
///
/// # Errors
///
/// Want of memory; all is as before then.
pub fn new_array(
    heap: &mut Heap,
    stack: &mut Stack,
    next: u32,
    a: u16,
    b: u16,
    ty: &Ty,
) -> Result<Next, AllocError>
    ensures { (image : Linked) → Answered result (word_mem (seen image stack.old heap.old next) (NewArray a b ty.now)) stack.old heap.old stack.new heap.new }
{
    let Some(length) = count(word(stack, b)) else {
        return Ok(Next::Throw(Named::NegativeArraySize));
    };
    let made = heap.alloc_array(ty, length);
    put_made(stack, next, a, made)
}

/// throw.
pub fn throw(stack: &Stack, a: u16) -> Next
    ensures { (image : Linked) (heap : WordHeap) (next : ℕ) →
        Answers result (word_mem (seen image stack.now heap next) (Throw a)) stack.now heap stack.now heap }
{
    match word(stack, a) {
        0 => Next::Throw(Named::NullPointer),
        object => Next::ThrowRef(object),
    }
}
