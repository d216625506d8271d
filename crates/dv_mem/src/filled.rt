// filled-new-array: a new array with its elements.
ghost use Rattle.std.specs.Prelude.{◌≡◌, ◌≢◌, ◌<◌, length, map, slice_index, Some};
ghost use Rattle.dv_defs.specs.Images.{Image as Linked};
ghost use Rattle.dv_defs.specs.Op.{Filled, named_registers};
ghost use Rattle.dv_words.specs.declared.state.Kind.TheVariants as kind;
ghost use Rattle.dv_words.specs.Heaps.{kind_of};
ghost use Rattle.dv_words.specs.Local.{reg_word};
ghost use Rattle.dv_words.specs.Mem.{stored, word_mem};
ghost use Rattle.dv_words.specs.Stepping.{Answered};
ghost use Rattle.dv_mem.specs.Operands.{AreWithin};
ghost use Rattle.dv_mem.specs.Tops.{seen, top_frame};

use crate::registers::{give, word_at};
use crate::words::takes_words;
use dv_defs::{Next, Regs, Ty};
use dv_frames::Stack;
use dv_heap::{Heap, HeapError};
use std::alloc::AllocError;

/// How many registers an instruction names.
fn count(regs: &Regs) -> u32
    ensures count { result ≡ length (named_registers regs.now) }
    ensures few { result < 256 }
{
    let count = u32::from(regs.count);
    if regs.range { count } else { count.min(5) }
}

/// A register that an instruction names.
fn register(regs: &Regs, place: u32) -> u32
    requires { place < length (named_registers regs.now) }
    ensures { result ≡ slice_index (named_registers regs.now) place }
{
    if regs.range {
        u32::from(regs.first[0]) + place
    } else {
        u32::from(regs.first[place as usize])
    }
}

/// The elements of an array take the registers that an instruction names.
fn fill(heap: &mut Heap, stack: &Stack, array: u32, regs: &Regs)
    requires there { AreWithin heap.old array 0 (length (named_registers regs.now)) }
    requires no_string { kind_of heap.old array ≢ Some kind.Str }
    ensures { heap.new ≡ stored heap.old array 0 (map (reg_word (top_frame stack.now)) (named_registers regs.now)) }
{
    for k in 0..count(regs) {
        heap.put(array, k, word_at(stack, register(regs, k)));
    }
}

/// filled-new-array and filled-new-array/range: the new array is kept as a result.
///
/// # Errors
///
/// Want of memory; all is as before then.
pub fn filled_new_array(
    heap: &mut Heap,
    stack: &mut Stack,
    next: u32,
    regs: &Regs,
    ty: &Ty,
) -> Result<Next, AllocError>
    ensures { (image : Linked) → length heap.old.cells ≡ length heap.old.kinds →
        Answered result (word_mem (seen image stack.old heap.old next) (Filled (named_registers regs.now) ty.now)) stack.old heap.old stack.new heap.new }
{
    let length = count(regs);
    match heap.alloc_array(ty, length) {
        Ok(array) => {
            if takes_words(heap, array, 0, length) {
                fill(heap, stack, array, regs);
                give(stack, next, array);
            }
            Ok(Next::On)
        }
        Err(HeapError::Full { .. }) => Ok(Next::NoWords),
        Err(HeapError::Memory(error)) => Err(error),
    }
}
