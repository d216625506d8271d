// Printing: one step, whole or not at all.
ghost use Rattle.std.specs.Prelude.{◌≡◌, ◌+◌, ◌++◌, ◌∷◌, [], ◌≤◌, length, nat_le, true, IfOk, vec_len, vec_capacity};
ghost use Rattle.dv_defs.specs.declared.run.Native.TheVariants as natives;
ghost use Rattle.dv_words.specs.Stacks.{arg_words};
ghost use Rattle.dv_words.specs.State.{WordHeap};
ghost use Rattle.dv_words.specs.Natives.{native_step};
ghost use Rattle.dv_words.specs.Steps.{At};
ghost use Rattle.dv_builtin.specs.Seeing.{Does, Sees};

use crate::encoding::{add_utf8, utf8_len};
use crate::registers::argument;
use crate::strings::text_of;
use dv_defs::{Named, Next, Regs};
use dv_frames::Stack;
use dv_heap::Heap;
use itoa::Buffer;
use std::alloc::AllocError;

/// Whether so many bytes more may be printed; there is room for them then.
pub fn take_room(output: &mut Vec<u8>, more: usize, limit: u32) -> Result<bool, AllocError>
    ensures items { output.new.items ≡ output.old.items }
    ensures may { IfOk result (λ may. may ≡ nat_le (length output.old.items + more) limit) }
    ensures room { IfOk result (λ may. may ≡ true → vec_len output.new + more ≤ vec_capacity output.new) }
{
    if output.len().saturating_add(more) > limit as usize {
        return Ok(false);
    }
    output.reserve(more)?;
    Ok(true)
}

/// Console.print: a string in UTF-8.
///
/// # Errors
///
/// Want of memory; all is as before then.
pub fn print(
    heap: &Heap,
    stack: &mut Stack,
    output: &mut Vec<u8>,
    limit: u32,
    next: u32,
    regs: &Regs,
) -> Result<Next, AllocError>
    ensures { (h : At) → Sees h stack.old heap.now output.old.items limit next →
        Does result (native_step h natives.Print (arg_words stack.old regs.now)) h.shared stack.old heap.now output.old.items stack.new heap.now output.new.items }
{
    let string = argument(stack, regs, 0);
    if string == 0 {
        return Ok(Next::Throw(Named::NullPointer));
    }
    let text = text_of(heap, string);
    if !take_room(output, utf8_len(text), limit)? {
        return Ok(Next::NoOutput);
    }
    add_utf8(output, text);
    stack.go(next);
    Ok(Next::On)
}

/// Appends a line where there is room.
fn add_line(output: &mut Vec<u8>, line: &[u8])
    requires { vec_len output.old + length line.now + 1 ≤ vec_capacity output.old }
    ensures { output.new.items ≡ output.old.items ++ (line.now ++ 10 ∷ []) }
{
    let _ = output.extend_from_slice(line);
    let _ = output.push(b'\n');
}

/// Console.println: an int in decimal, and a line feed.
///
/// # Errors
///
/// Want of memory; all is as before then.
pub fn println(
    stack: &mut Stack,
    output: &mut Vec<u8>,
    limit: u32,
    next: u32,
    regs: &Regs,
) -> Result<Next, AllocError>
    ensures { (h : At) (heap : WordHeap) → Sees h stack.old heap output.old.items limit next →
        Does result (native_step h natives.Println (arg_words stack.old regs.now)) h.shared stack.old heap output.old.items stack.new heap output.new.items }
{
    let number = argument(stack, regs, 0).cast_signed();
    let mut buffer = Buffer::new();
    let digits = buffer.format(number).as_bytes();
    if !take_room(output, digits.len() + 1, limit)? {
        return Ok(Next::NoOutput);
    }
    add_line(output, digits);
    stack.go(next);
    Ok(Next::On)
}
