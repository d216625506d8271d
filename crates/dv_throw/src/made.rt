// The exceptions that the machine makes itself.
ghost use Rattle.std.specs.Prelude.{◌≡◌, ◌≢◌, Some, IsSome, option_map};
ghost use Rattle.dv_machine.specs.Unwinding.{throwable_slot as slot_in_throwable};
ghost use Rattle.dv_words.specs.declared.state.Kind.TheVariants as kind;
ghost use Rattle.dv_words.specs.Heaps.{kind_of, with_word};
ghost use Rattle.dv_heap.specs.Answers.{newest_of};
ghost use Rattle.dv_words.specs.Unwinding.{made_object};
ghost use Rattle.dv_throw.specs.Answers.{ThrowsMade};
ghost use Rattle.dv_throw.specs.Unwound.{IsObject, caused_by, raised};

use crate::fields::throwable_slot;
use crate::names::{ERROR, exception_name, number_named};
use dv_defs::{Image, Named, Next};
use dv_heap::{Heap, HeapError};
use dv_image::boot_class;
use dv_objects::is_of_class;
use std::alloc::AllocError;

const CAUSE: &[u8] = b"cause";

/// Makes an exception that the machine throws itself, with no message and no cause, and throws it: `ThrowRef` of the new object, or
/// `NoWords` where the heap is full.
///
/// # Errors
///
/// Want of memory; the heap is as before then.
pub fn make(image: &Image, heap: &mut Heap, named: Named) -> Result<Next, AllocError>
    ensures { ThrowsMade result (made_object image.now heap.old named) heap.old heap.new }
{
    match new_exception(image, heap, named)? {
        Some(object) => Ok(Next::ThrowRef(object)),
        None => Ok(Next::NoWords),
    }
}

/// A new exception, none where the heap is full.
fn new_exception(image: &Image, heap: &mut Heap, named: Named) -> Result<Option<u32>, AllocError>
    ensures { IsObject result (newest_of (made_object image.now heap.old named)) heap.old heap.new }
{
    match heap.alloc_object(image, number_named(image, exception_name(named))) {
        Ok(object) => Ok(Some(object)),
        Err(HeapError::Full { .. }) => Ok(None),
        Err(HeapError::Memory(error)) => Err(error),
    }
}

/// The exception that flies on where an initialiser ended by one: an Error itself, anything else in a new ExceptionInInitializerError
/// (JLS 12.4.2, step 11). None where the heap is full.
pub fn raise(image: &Image, heap: &mut Heap, flying: u32) -> Result<Option<u32>, AllocError>
    ensures { IsObject result (raised image.now heap.old flying) heap.old heap.new }
{
    if is_of_class(image, heap, flying, ERROR, boot_class(image, ERROR)) {
        return Ok(Some(flying));
    }
    wrap(image, heap, flying)
}

/// A new ExceptionInInitializerError with this cause, none where the heap is full.
fn wrap(image: &Image, heap: &mut Heap, cause: u32) -> Result<Option<u32>, AllocError>
    ensures { IsObject result (option_map (caused_by image.now cause) (made_object image.now heap.old Named.InInitializer)) heap.old heap.new }
{
    let Some(object) = new_exception(image, heap, Named::InInitializer)? else {
        return Ok(None);
    };
    put(heap, object, throwable_slot(image, CAUSE), cause);
    Ok(Some(object))
}

/// Writes a word of an object that is no string, where it has that word.
fn put(heap: &mut Heap, object: u32, slot: u32, word: u32)
    requires there { IsSome (kind_of heap.old object) }
    requires no_string { kind_of heap.old object ≢ Some kind.Str }
    ensures { heap.new ≡ with_word heap.old object slot word }
{
    if slot < heap.size(object) {
        heap.put(object, slot, word);
    }
}
