// A step of the frame on top: an instruction on objects, arrays and fields, a division or a cast.
ghost use Rattle.std.specs.Prelude.{◌≡◌, ◌↔◌, ◌<◌, ◌≤◌, ◌||◌, not, ℕ, true, false, length, option_map, Ok, IsTrue};
ghost use Rattle.std.specs.declared.alloc.AllocError.{AllocError};
ghost use Rattle.dv_defs.specs.Families.{family_at};
ghost use Rattle.dv_defs.specs.Formats.{size_at};
ghost use Rattle.dv_defs.specs.Op.{Code, Op as Operation};
ghost use Rattle.dv_defs.specs.Spelling.{all_fit};
ghost use Rattle.dv_typing.specs.Statics.{At};
ghost use Rattle.dv_defs.specs.Tiling.{tiling, tiles_in};
ghost use Rattle.dv_ops.specs.Meaning.{meant};
ghost use Rattle.dv_units.specs.Tables.{standard_family};
ghost use Rattle.dv_words.specs.declared.state.Frame.{Frame as Activation};
ghost use Rattle.dv_words.specs.Mem.{word_mem};
ghost use Rattle.dv_words.specs.Stepping.{Answered};
ghost use Rattle.dv_mem.specs.Operands.{AreOperands};
ghost use Rattle.dv_mem.specs.Stepping.{AreAsBefore, GoesOnAt, IsMeant, MeansNone, is_access, is_fill, is_mem, is_with_payload};
ghost use Rattle.dv_mem.specs.Tops.{here, seen};

use crate::divisions::{divide_ints, divide_longs};
use crate::elements::{array_get, array_length, array_put};
use crate::fields::{field_get, field_put, static_get, static_put};
use crate::filled::filled_new_array;
use crate::filling::fill;
use crate::instances::{cast, instance_of};
use crate::made::{const_class, const_string, new_array, new_instance, throw};
use dv_defs::{Image, Insn, Next};
use dv_frames::Stack;
use dv_heap::Heap;
use dv_ops::{Op, coded_at, resolve, units_of};
use dv_optable::{Family, kind_of};
use dv_units::insn_size;
use std::alloc::AllocError;

/// The family of an opcode, none where it is unused or a float's.
#[tactic(auto, using(dv_units::proofs::Opcodes::families_agree))]
fn family_of(op: u8) -> Option<Family>
    ensures { option_map standard_family result ≡ family_at op }
{
    kind_of(op)
}

/// Whether the instructions of an opcode have a payload.
fn has_payload(op: u8) -> bool
    ensures { result ≡ is_with_payload (family_at op) }
{
    matches!(
        family_of(op),
        Some(Family::PackedSwitch | Family::SparseSwitch | Family::FillArrayData)
    )
}

fn is_fill(op: &Op<'_>) -> bool
    ensures { result ≡ is_fill op.now }
{
    matches!(op, Op::Fill(_, _))
}

/// Whether an instruction of this opcode may be that operation: of those with a payload, fill-array-data alone is done here.
fn may_be(opcode: u8, op: &Op<'_>) -> bool
    ensures { result ≡ (not (is_with_payload (family_at opcode)) || is_fill op.now) }
{
    !has_payload(opcode) || is_fill(op)
}

/// Whether an address lies in units, which have 16 bits.
fn is_within(units: &[u16], at: u32) -> bool
    ensures within { IsTrue result ↔ (at < length units.now) }
    ensures whole { all_fit 16 units.now ≡ true }
{
    (at as usize) < units.len()
}

/// The number of units of an instruction with an opcode, 0 where the opcode has no format.
fn size_of(op: u8) -> u32
    ensures size { result ≡ size_at op }
    ensures few { result ≤ 5 }
{
    insn_size(op) as u32
}

/// Does an operation, if it reads or writes an array or a field; another is passed over.
fn access(
    image: &Image,
    units: &[u16],
    heap: &mut Heap,
    stack: &mut Stack,
    next: u32,
    op: &Op<'_>,
) -> Next
    ensures does { (code : Code) (at : ℕ) → code.tiles ≡ tiles_in (tiling units.now) → is_access (meant code at op.now) ≡ true → AreOperands (seen image.now stack.old heap.old next) (meant code at op.now) →
        Answered {E = AllocError} (Ok result) (word_mem (seen image.now stack.old heap.old next) (meant code at op.now)) stack.old heap.old stack.new heap.new }
    ensures stack_stays { (code : Code) (at : ℕ) → is_access (meant code at op.now) ≡ false → stack.new ≡ stack.old }
    ensures heap_stays { (code : Code) (at : ℕ) → is_access (meant code at op.now) ≡ false → heap.new ≡ heap.old }
{
    match *op {
        Op::ArrayLength(a, b) => array_length(heap, stack, next, a, b),
        Op::Fill(a, to) => fill(units, heap, stack, next, a, to),
        Op::ArrayGet(suffix, a, b, c) => array_get(heap, stack, next, suffix, a, b, c),
        Op::ArrayPut(suffix, a, b, c) => array_put(image, heap, stack, next, suffix, a, b, c),
        Op::FieldGet(_, a, b, field) => field_get(heap, stack, next, a, b, &field),
        Op::FieldPut(_, a, b, field) => field_put(heap, stack, next, a, b, &field),
        Op::StaticGet(_, a, field) => static_get(heap, stack, next, a, &field),
        Op::StaticPut(_, a, field) => static_put(heap, stack, next, a, &field),
        _ => Next::On,
    }
}

/// Does an operation, if it is one on objects, arrays and fields, a division or a cast; another is passed over. The units are those of the
/// method on top, and `next` is the address after its instruction. A caller that has resolved an instruction needn't have it resolved again.
///
/// # Errors
///
/// Want of memory; all is as before then.
pub fn operate(
    image: &Image,
    units: &[u16],
    heap: &mut Heap,
    stack: &mut Stack,
    next: u32,
    op: &Op<'_>,
) -> Result<Next, AllocError>
    ensures does { (code : Code) (at : ℕ) → code.tiles ≡ tiles_in (tiling units.now) → is_mem (meant code at op.now) ≡ true → AreOperands (seen image.now stack.old heap.old next) (meant code at op.now) →
        Answered result (word_mem (seen image.now stack.old heap.old next) (meant code at op.now)) stack.old heap.old stack.new heap.new }
    ensures stack_stays { (code : Code) (at : ℕ) → is_mem (meant code at op.now) ≡ false → stack.new ≡ stack.old }
    ensures heap_stays { (code : Code) (at : ℕ) → is_mem (meant code at op.now) ≡ false → heap.new ≡ heap.old }
{
    match *op {
        Op::IntDivide(o, a, b, c) => Ok(divide_ints(stack, next, o, a, b, c)),
        Op::LongDivide(o, a, b, c) => Ok(divide_longs(stack, next, o, a, b, c)),
        Op::ConstString(a, chars) => const_string(heap, stack, next, a, chars),
        Op::ConstClass(a, ty) => const_class(heap, stack, next, a, ty),
        Op::Cast(a, ty) => Ok(cast(image, heap, stack, next, a, ty)),
        Op::InstanceOf(a, b, ty) => Ok(instance_of(image, heap, stack, next, a, b, ty)),
        Op::New(a, class) => new_instance(image, heap, stack, next, a, class),
        Op::NewArray(a, b, ty) => new_array(heap, stack, next, a, b, ty),
        Op::Filled(regs, ty) => filled_new_array(heap, stack, next, &regs, ty),
        Op::Throw(a) => Ok(throw(stack, a)),
        _ => Ok(access(image, units, heap, stack, next, op)),
    }
}

/// The next step of the frame on top, whose instruction this is: one on objects, arrays and fields, a division or a cast. Where it is
/// another, or none stands there, nothing is done.
///
/// # Errors
///
/// Want of memory; all is as before then.
pub fn mem_step(
    image: &Image,
    heap: &mut Heap,
    stack: &mut Stack,
    insn: &Insn,
) -> Result<Next, AllocError>
    ensures does { (s : Activation) (x : At) → GoesOnAt image.now stack.old insn.now s x → is_mem x.op ≡ true → AreOperands (here image.now s heap.old x.next) x.op →
        Answered result (word_mem (here image.now s heap.old x.next) x.op) stack.old heap.old stack.new heap.new }

    // Any other operation, or none.
    ensures other { (s : Activation) (op : Operation) → IsMeant image.now stack.old insn.now s op → is_mem op ≡ false → AreAsBefore stack.old heap.old stack.new heap.new }
    ensures none { MeansNone image.now stack.old insn.now → AreAsBefore stack.old heap.old stack.new heap.new }
{
    let Some(head) = stack.head() else {
        return Ok(Next::On);
    };
    let Some(code) = coded_at(image, head.method) else {
        return Ok(Next::On);
    };
    let units = units_of(&code);
    if !is_within(units, head.at) {
        return Ok(Next::On);
    }
    let Ok(op) = resolve(image, &code, head.at, insn) else {
        return Ok(Next::On);
    };
    if !may_be(insn.op, &op) {
        return Ok(Next::On);
    }
    operate(image, units, heap, stack, head.at + size_of(insn.op), &op)
}
