// New strings.
ghost use Rattle.std.specs.Prelude.{◌≡◌, ℕ, List, ◌<◌, ◌^◌, ◌++◌, IfOk, slice_index};
ghost use Rattle.dv_defs.specs.Numbers.{long_of};
ghost use Rattle.dv_defs.specs.declared.run.Native.TheVariants as natives;
ghost use Rattle.dv_words.specs.Stacks.{arg_words};
ghost use Rattle.dv_words.specs.Natives.{arg, native_step, new_text, units_in};
ghost use Rattle.dv_words.specs.Steps.{At};
ghost use Rattle.dv_builtin.specs.Natives.{IsChars};
ghost use Rattle.dv_builtin.specs.Seeing.{Does, Sees};

use crate::chars::{chars_of, some_chars};
use crate::registers::{argument, give};
use crate::strings::text_of;
use crate::units::{add_units, write_bytes};
use dv_defs::{Named, Next, Regs};
use dv_frames::Stack;
use dv_heap::{Heap, HeapError};
use itoa::Buffer;
use std::alloc::{AllocError, Global};

/// Makes a string of these units, which is kept as a result.
fn new_text(
    heap: &mut Heap,
    stack: &mut Stack,
    next: u32,
    units: &[u16],
) -> Result<Next, AllocError>
    ensures { (h : At) (output : List ℕ) (limit : ℕ) → Sees h stack.old heap.old output limit next →
        Does result (new_text h units.now) h.shared stack.old heap.old output stack.new heap.new output }
{
    match heap.alloc_string(units) {
        Ok(string) => {
            give(stack, next, string);
            Ok(Next::On)
        }
        Err(HeapError::Full { .. }) => Ok(Next::NoWords),
        Err(HeapError::Memory(error)) => Err(error),
    }
}

/// The units of two texts, one after the other.
pub fn joined(alloc: Global, front: &[u32], back: &[u32]) -> Result<Vec<u16>, AllocError>
    requires front { (k : ℕ) → slice_index front.now k < 2 ^ 16 }
    requires back { (k : ℕ) → slice_index back.now k < 2 ^ 16 }
    ensures { IfOk result (λ units. units.items ≡ front.now ++ back.now) }
{
    let mut units = Vec::with_capacity(alloc, front.len() + back.len())?;
    add_units(&mut units, front)?;
    add_units(&mut units, back)?;
    Ok(units)
}

/// String.concat.
///
/// # Errors
///
/// Want of memory; all is as before then.
pub fn concat(
    heap: &mut Heap,
    stack: &mut Stack,
    next: u32,
    regs: &Regs,
) -> Result<Next, AllocError>
    ensures { (h : At) (output : List ℕ) (limit : ℕ) → Sees h stack.old heap.old output limit next →
        Does result (native_step h natives.Concat (arg_words stack.old regs.now)) h.shared stack.old heap.old output stack.new heap.new output }
{
    let string = argument(stack, regs, 0);
    let other = argument(stack, regs, 1);
    if other == 0 {
        return Ok(Next::Throw(Named::NullPointer));
    }
    let front = text_of(heap, string);
    let back = text_of(heap, other);
    let units = joined(*stack.words.allocator(), front, back)?;
    new_text(heap, stack, next, units.as_slice())
}

/// The long of two words.
pub fn long(low: u32, high: u32) -> i64
    ensures { result ≡ long_of low high }
{
    (u64::from(low) + u64::from(high) * 0x1_0000_0000).cast_signed()
}

/// Text.ofLong: a long in decimal.
///
/// # Errors
///
/// Want of memory; all is as before then.
pub fn of_long(
    heap: &mut Heap,
    stack: &mut Stack,
    next: u32,
    regs: &Regs,
) -> Result<Next, AllocError>
    ensures { (h : At) (output : List ℕ) (limit : ℕ) → Sees h stack.old heap.old output limit next →
        Does result (native_step h natives.OfLong (arg_words stack.old regs.now)) h.shared stack.old heap.old output stack.new heap.new output }
{
    let number = long(argument(stack, regs, 0), argument(stack, regs, 1));
    let mut buffer = Buffer::new();
    let digits = buffer.format(number).as_bytes();
    let mut units = [0; 40];
    write_bytes(&mut units, digits);
    new_text(heap, stack, next, &units[..digits.len()])
}

/// The units of these chars.
fn units_of(alloc: Global, chars: &[u32]) -> Result<Vec<u16>, AllocError>
    ensures { IfOk result (λ units. units.items ≡ units_in chars.now) }
{
    let mut units = Vec::with_capacity(alloc, chars.len())?;
    add_units(&mut units, chars)?;
    Ok(units)
}

/// Text.ofChars: so many chars of an array, from a place on.
///
/// # Errors
///
/// Want of memory; all is as before then.
pub fn of_chars(
    heap: &mut Heap,
    stack: &mut Stack,
    next: u32,
    regs: &Regs,
) -> Result<Next, AllocError>
    ensures { (h : At) (output : List ℕ) (limit : ℕ) → Sees h stack.old heap.old output limit next →
        (0 < arg (arg_words stack.old regs.now) 0 → IsChars heap.old (arg (arg_words stack.old regs.now) 0)) →
        Does result (native_step h natives.OfChars (arg_words stack.old regs.now)) h.shared stack.old heap.old output stack.new heap.new output }
{
    let array = argument(stack, regs, 0);
    if array == 0 {
        return Ok(Next::Throw(Named::NullPointer));
    }
    let start = argument(stack, regs, 1);
    let count = argument(stack, regs, 2);
    let Some(chars) = some_chars(chars_of(heap, array), start, count) else {
        return Ok(Next::Throw(Named::IndexOutOfBounds));
    };
    let units = units_of(*stack.words.allocator(), chars)?;
    new_text(heap, stack, next, units.as_slice())
}
