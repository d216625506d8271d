// A native method with its argument words.
ghost use Rattle.std.specs.Prelude.{◌≡◌, false, true, Ok};
ghost use Rattle.dv_defs.specs.declared.run.Next.TheVariants as next_is;
ghost use Rattle.dv_words.specs.Stacks.{arg_words};
ghost use Rattle.dv_words.specs.Answering.{IsStackOf};
ghost use Rattle.dv_words.specs.Natives.{native_step};
ghost use Rattle.dv_words.specs.Steps.{At};
ghost use Rattle.dv_builtin.specs.Natives.{TextsFit, is_of_texts};
ghost use Rattle.dv_builtin.specs.Seeing.{Does};

use crate::making::{concat, of_chars, of_long};
use crate::printing::{print, println};
use crate::strings::{char_at, equals, length};
use dv_defs::{Native, Next, Regs};
use dv_frames::Stack;
use dv_heap::Heap;
use std::alloc::AllocError;

/// Does a native method of String, of dvm.Text or of dvm.Console, with the words of the registers that are named, the receiver's first.
/// `limit` is the number of bytes that may be printed in all, and `next` the address after the instruction, in units. Where it is another
/// native, nothing is done.
///
/// # Errors
///
/// Want of memory; all is as before then.
pub fn native_step(
    heap: &mut Heap,
    stack: &mut Stack,
    output: &mut Vec<u8>,
    limit: u32,
    next: u32,
    native: Native,
    regs: &Regs,
) -> Result<Next, AllocError>
    ensures does { (h : At) → h.shared.heap ≡ heap.old → h.shared.output ≡ output.old.items → h.limits.output ≡ limit → h.next ≡ next → IsStackOf stack.old h →
        is_of_texts native ≡ true → TextsFit heap.old native (arg_words stack.old regs.now) →
        Does result (native_step h native (arg_words stack.old regs.now)) h.shared stack.old heap.old output.old.items stack.new heap.new output.new.items }
    ensures other { is_of_texts native ≡ false → (result ≡ Ok next_is.On) × (stack.new ≡ stack.old) × (heap.new ≡ heap.old) × (output.new.items ≡ output.old.items) }
{
    match native {
        Native::Length => Ok(length(heap, stack, next, regs)),
        Native::CharAt => Ok(char_at(heap, stack, next, regs)),
        Native::Equals => Ok(equals(heap, stack, next, regs)),
        Native::Concat => concat(heap, stack, next, regs),
        Native::OfLong => of_long(heap, stack, next, regs),
        Native::OfChars => of_chars(heap, stack, next, regs),
        Native::Print => print(heap, stack, output, limit, next, regs),
        Native::Println => println(stack, output, limit, next, regs),
        _ => Ok(Next::On),
    }
}
