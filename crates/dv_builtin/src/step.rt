// A native method at the instruction that calls it.
ghost use Rattle.std.specs.Prelude.{◌≡◌, ◌↔◌, ◌<◌, ◌≤◌, ℕ, List, IsTrue, Ok, Some, false, true, length, map};
ghost use Rattle.dv_defs.specs.Formats.{size_at};
ghost use Rattle.dv_defs.specs.Op.{Invoke, Op};
ghost use Rattle.dv_defs.specs.Parts.{Call};
ghost use Rattle.dv_defs.specs.Pools.{Method};
ghost use Rattle.dv_defs.specs.Spelling.{all_fit};
ghost use Rattle.dv_defs.specs.declared.run.Next.TheVariants as next_is;
ghost use Rattle.dv_words.specs.Answering.{IsAtInsn, IsStackOf};
ghost use Rattle.dv_words.specs.Local.{reg_word};
ghost use Rattle.dv_words.specs.Natives.{native_step};
ghost use Rattle.dv_words.specs.Steps.{At};
ghost use Rattle.dv_builtin.specs.Natives.{TextsFit, is_of_texts};
ghost use Rattle.dv_builtin.specs.Seeing.{Does};

use crate::natives::native_step;
use dv_defs::{Image, Insn, Native, Next};
use dv_frames::Stack;
use dv_heap::Heap;
use dv_ops::{coded_at, units_of};
use dv_units::insn_size;
use std::alloc::AllocError;

/// Whether an address lies in units, which have 16 bits.
fn is_within(units: &[u16], at: u32) -> bool
    ensures within { IsTrue result ↔ (at < length units.now) }
    ensures whole { all_fit 16 units.now ≡ true }
{
    (at as usize) < units.len()
}

/// The number of units of an instruction with an opcode, 0 where the opcode has no format.
fn size_of(op: u8) -> u32
    ensures size { result ≡ size_at op }
    ensures few { result ≤ 5 }
{
    insn_size(op) as u32
}

/// The address after the instruction, at which the frame on top goes on; none where that goes on outside its method.
fn next_address(image: &Image, stack: &Stack, insn: &Insn) -> Option<u32>
    ensures { (h : At) (op : Op) → h.image ≡ image.now → IsStackOf stack.now h → IsAtInsn h insn.now op → result ≡ Some h.next }
{
    let head = stack.head()?;
    let code = coded_at(image, head.method)?;
    if !is_within(units_of(&code), head.at) {
        return None;
    }
    Some(head.at + size_of(insn.op))
}

/// Does a native method of String, of dvm.Text or of dvm.Console at the instruction that calls it, which is the one at which the frame on
/// top goes on. `limit` is the number of bytes that may be printed in all. Where it is another native, or the frame goes on outside its
/// method, nothing is done.
///
/// # Errors
///
/// Want of memory; all is as before then.
pub fn builtin_step(
    image: &Image,
    heap: &mut Heap,
    stack: &mut Stack,
    output: &mut Vec<u8>,
    limit: u32,
    native: Native,
    insn: &Insn,
) -> Result<Next, AllocError>
    ensures does { (h : At) (call : Call) (args : List ℕ) (m : Method) → h.image ≡ image.now → h.shared.heap ≡ heap.old → h.shared.output ≡ output.old.items → h.limits.output ≡ limit →
        IsStackOf stack.old h → IsAtInsn h insn.now (Invoke call args m) → is_of_texts native ≡ true → TextsFit heap.old native (map (reg_word h.frame) args) →
        Does result (native_step h native (map (reg_word h.frame) args)) h.shared stack.old heap.old output.old.items stack.new heap.new output.new.items }
    ensures other { is_of_texts native ≡ false → (result ≡ Ok next_is.On) × (stack.new ≡ stack.old) × (heap.new ≡ heap.old) × (output.new.items ≡ output.old.items) }
{
    let Some(next) = next_address(image, stack, insn) else {
        return Ok(Next::On);
    };
    native_step(heap, stack, output, limit, next, native, &insn.regs)
}
