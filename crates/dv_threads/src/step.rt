// A step of a thread at an instruction on monitors or a call of a native.
ghost use Rattle.std.specs.Prelude.{◌≡◌, ◌-◌, ◌<◌, ◌≤◌, ◌^◌, ◌↔◌, ℕ, IsTrue, length, map, option_map, slice_get, Ok, None, Some, true};
ghost use Rattle.dv_defs.specs.declared.code.Insn.{Insn as Spelled};
ghost use Rattle.dv_defs.specs.Families.{family_at};
ghost use Rattle.dv_defs.specs.declared.run.Native.{Native as Called};
ghost use Rattle.dv_defs.specs.Formats.{size_at};
ghost use Rattle.dv_defs.specs.Images.{Image as Linked};
ghost use Rattle.dv_defs.specs.Op.{Code, Enter, Exit, Op, named_registers, op_of};
ghost use Rattle.dv_defs.specs.Spelling.{all_fit};
ghost use Rattle.dv_machine.specs.Mem.{on_object};
ghost use Rattle.dv_monitor.specs.State.{count_of};
ghost use Rattle.dv_units.specs.Tables.{standard_family};
ghost use Rattle.dv_words.specs.State.{WordStack, WordThread};
ghost use Rattle.dv_words.specs.Stacks.{top_regs};
ghost use Rattle.dv_words.specs.Words.{word_at};
ghost use Rattle.dv_words.specs.Answering.{IsAtInsn, IsStackOf, Leads};
ghost use Rattle.dv_words.specs.Local.{reg_word};
ghost use Rattle.dv_words.specs.Natives as natives;
ghost use Rattle.dv_words.specs.Steps.{At};
ghost use Rattle.dv_words.specs.Threads as steps;
ghost use Rattle.dv_threads.specs.Kept.{AreAsBefore, HasRoom, IsThreadOf, LeavesThreads, Sees};
ghost use Rattle.dv_threads.specs.Stepping.{is_enter_family, is_exit_family, is_of_threads};
ghost use Rattle.dv_defs.specs.Body.{most_units};

use crate::monitors::{monitor_enter, monitor_exit};
use crate::natives::native_step;
use crate::threads::Threads;
use dv_defs::{Body, Image, Insn, Limits, Native, Next};
use dv_frames::Stack;
use dv_heap::Heap;
use dv_ops::coded_at;
use dv_optable::{Family, kind_of};
use dv_units::insn_size;
use std::alloc::AllocError;

/// The family of an opcode, none where it is unused or a float's.
#[tactic(auto, using(dv_units::proofs::Opcodes::families_agree))]
fn family_of(op: u8) -> Option<Family>
    ensures { option_map standard_family result ≡ family_at op }
{
    kind_of(op)
}

/// Whether it is monitor-enter.
fn is_enter(op: u8) -> bool
    ensures { result ≡ is_enter_family (family_at op) }
{
    matches!(family_of(op), Some(Family::MonitorEnter))
}

/// Whether it is monitor-exit.
fn is_exit(op: u8) -> bool
    ensures { result ≡ is_exit_family (family_at op) }
{
    matches!(family_of(op), Some(Family::MonitorExit))
}

/// The units of a body.
fn units_of(body: &Body) -> &[u16]
    ensures units { result.now ≡ body.now.units }
    ensures short { length result.now ≤ most_units }
{
    body.units.items()
}

/// Whether an address lies in units, which have 16 bits.
fn is_within(units: &[u16], at: u32) -> bool
    ensures within { IsTrue result ↔ (at < length units.now) }
    ensures whole { all_fit 16 units.now ≡ true }
{
    (at as usize) < units.len()
}

/// The number of units of an instruction with an opcode, 0 where the opcode has no format.
fn size_of(op: u8) -> u32
    ensures size { result ≡ size_at op }
    ensures few { result ≤ 5 }
{
    insn_size(op) as u32
}

/// The address after the instruction at which the frame on top goes on, by its opcode.
fn address_after(image: &Image, stack: &Stack, op: u8) -> Option<u32>
    ensures { (h : At) (insn : Spelled) (o : Op) → IsStackOf stack.now h → h.image ≡ image.now → insn.op ≡ op → IsAtInsn h insn o → result ≡ Some h.next }
{
    let head = stack.head()?;
    let code = coded_at(image, head.method)?;
    let units = units_of(code.body);
    if !is_within(units, head.at) {
        return None;
    }
    Some(head.at + size_of(op))
}

/// The word of a register of the frame on top, 0 where there is none.
fn word(stacks: &[Stack], thread: u32, reg: u16) -> u32
    ensures { (s : WordStack) → slice_get stacks.now thread ≡ Some s → result ≡ word_at (top_regs s.levels) reg }
{
    match stacks.get(thread as usize) {
        Some(stack) => stack.word(u32::from(reg)),
        None => 0,
    }
}

/// monitor-enter or monitor-exit of the object in the instruction's register.
fn monitor_step(
    threads: &mut Threads,
    thread: u32,
    next: u32,
    insn: &Insn,
) -> Result<Next, AllocError>
    ensures enters { (own : WordThread) (h : At) (image : Linked) (code : Code) (at a : ℕ) → IsThreadOf threads.old thread next own h → op_of image code at insn.now ≡ Ok (Enter a) →
        count_of h.shared.monitors (reg_word h.frame a) < 2 ^ 64 - 1 →
        Leads result (on_object (steps.monitor_enter h) (reg_word h.frame a)) (LeavesThreads threads.old threads.new own h) (AreAsBefore threads.old threads.new) }
    ensures exits { (own : WordThread) (h : At) (image : Linked) (code : Code) (at a : ℕ) → IsThreadOf threads.old thread next own h → op_of image code at insn.now ≡ Ok (Exit a) →
        Leads result (on_object (steps.monitor_exit h) (reg_word h.frame a)) (LeavesThreads threads.old threads.new own h) (AreAsBefore threads.old threads.new) }
    ensures absent { length threads.old.stacks.items ≤ thread → AreAsBefore threads.old threads.new }
{
    let object = word(&threads.stacks, thread, insn.regs.first[0]);
    if is_enter(insn.op) {
        return monitor_enter(threads, thread, next, object);
    }
    if is_exit(insn.op) {
        return monitor_exit(threads, thread, next, object);
    }
    Ok(Next::On)
}

/// The address after the instruction at which a thread goes on, by its opcode.
fn next_of(image: &Image, stacks: &[Stack], thread: u32, op: u8) -> Option<u32>
    ensures { (s : WordStack) (h : At) (insn : Spelled) (o : Op) → slice_get stacks.now thread ≡ Some s → IsStackOf s h → h.image ≡ image.now → insn.op ≡ op → IsAtInsn h insn o →
        result ≡ Some h.next }
{
    match stacks.get(thread as usize) {
        Some(stack) => address_after(image, stack, op),
        None => None,
    }
}

/// The next step of a thread whose frame on top goes on at this instruction: a call that lands on a native of threads and monitors, or
/// monitor-enter or monitor-exit. Of others nothing is done.
///
/// # Errors
///
/// Want of memory; all is as before then.
pub fn thread_step(
    image: &Image,
    heap: &Heap,
    limits: &Limits,
    threads: &mut Threads,
    thread: u32,
    native: Option<Native>,
    insn: &Insn,
) -> Result<Next, AllocError>
    ensures enters { (own : WordThread) (h : At) (a : ℕ) → IsThreadOf threads.old thread h.next own h → h.image ≡ image.now → IsAtInsn h insn.now (Enter a) → native ≡ None →
        count_of h.shared.monitors (reg_word h.frame a) < 2 ^ 64 - 1 →
        Leads result (on_object (steps.monitor_enter h) (reg_word h.frame a)) (LeavesThreads threads.old threads.new own h) (AreAsBefore threads.old threads.new) }
    ensures exits { (own : WordThread) (h : At) (a : ℕ) → IsThreadOf threads.old thread h.next own h → h.image ≡ image.now → IsAtInsn h insn.now (Exit a) → native ≡ None →
        Leads result (on_object (steps.monitor_exit h) (reg_word h.frame a)) (LeavesThreads threads.old threads.new own h) (AreAsBefore threads.old threads.new) }
    ensures calls { (own : WordThread) (h : At) (op : Op) (n : Called) → IsThreadOf threads.old thread h.next own h → Sees image.now heap.now limits.now h → HasRoom h.limits →
        IsAtInsn h insn.now op → native ≡ Some n → is_of_threads n ≡ true →
        Leads result (natives.native_step h n (map (reg_word h.frame) (named_registers insn.now.regs))) (LeavesThreads threads.old threads.new own h) (AreAsBefore threads.old threads.new) }
    ensures absent { length threads.old.stacks.items ≤ thread → AreAsBefore threads.old threads.new }
{
    let Some(next) = next_of(image, &threads.stacks, thread, insn.op) else {
        return Ok(Next::On);
    };
    match native {
        Some(native) => {
            native_step(
                image, heap, limits, threads, thread, next, native, &insn.regs,
            )
        }
        None => monitor_step(threads, thread, next, insn),
    }
}
