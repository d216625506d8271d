// The instruction at which a frame goes on.
ghost use Rattle.std.specs.Prelude.{◌≡◌, Some as Just};
ghost use Rattle.dv_defs.specs.Op.{code_at};
ghost use Rattle.dv_typing.specs.Statics as statics;
ghost use Rattle.dv_ops.specs.Meaning.{code_of};
ghost use Rattle.dv_words.specs.Stacks.{first};
ghost use Rattle.dv_words.specs.State.{WordStack, WordThread};
ghost use Rattle.dv_frames.specs.Tops.{head_of};
ghost use Rattle.dv_words.specs.Answering.{IsStackOf};
ghost use Rattle.dv_words.specs.Steps.{At};
ghost use Rattle.dv_fetch.specs.Opcodes.{opcode_at};
ghost use Rattle.dv_fetch.specs.Standing.{IsAtOp, IsFound};

use crate::spelled::spelled_in;
use dv_defs::Image;
use dv_frames::{Head, Stack};
use dv_ops::{Coded, Op, coded_at, resolve, units_of};
use dv_units::decode;

/// An instruction: the units of its method, its operation, and the address after it.
#[derive(Clone, Copy)]
pub struct Instruction<'a> {
    pub units: &'a [u16],
    pub op: Op<'a>,
    pub next: u32,
}

/// The instruction at which the frame on top goes on.
pub fn instruction_of<'a>(image: &'a Image, stack: &Stack) -> Option<Instruction<'a>>
    ensures { (own : WordThread) (h : At) (x : statics.At) → h.image ≡ image.now → IsStackOf stack.now h → IsAtOp own h x → IsFound result h x.op }
{
    let Some(head) = stack.head() else {
        return None;
    };
    let Some(code) = coded_at(image, head.method) else {
        return None;
    };
    instruction_in(image, head, &code)
}

/// The instruction of a method's code at which a frame goes on: one that is met often is read off its units at once.
fn instruction_in<'a>(image: &'a Image, head: Head, code: &Coded<'a>) -> Option<Instruction<'a>>
    ensures { (stack : WordStack) (own : WordThread) (h : At) (x : statics.At) → h.image ≡ image.now → IsStackOf stack h → IsAtOp own h x → Just head ≡ head_of (first stack.levels) →
        Just (code_of code.now) ≡ code_at image.now head.method.0 → IsFound result h x.op }
{
    match spelled_in(image, code, head.at) {
        Some(found) => Some(found),
        None => decoded_in(image, head, code),
    }
}

/// Any instruction of a method's code at which a frame goes on.
fn decoded_in<'a>(image: &'a Image, head: Head, code: &Coded<'a>) -> Option<Instruction<'a>>
    ensures { (stack : WordStack) (own : WordThread) (h : At) (x : statics.At) → h.image ≡ image.now → IsStackOf stack h → IsAtOp own h x → Just head ≡ head_of (first stack.levels) →
        Just (code_of code.now) ≡ code_at image.now head.method.0 → IsFound result h x.op }
{
    let units = units_of(code);
    if head.at as usize >= units.len() {
        return None;
    }
    let Ok((insn, size)) = decode(units, head.at as usize) else {
        return None;
    };
    let Ok(op) = resolve(image, code, head.at, &insn) else {
        return None;
    };
    Some(Instruction {
        units,
        op,
        next: head.at + size,
    })
}

/// The opcode at which the frame on top goes on; none where the level on top isn't code, or its address is past the units.
pub fn opcode_of(image: &Image, stack: &Stack) -> Option<u8>
    ensures { result ≡ opcode_at image.now (first stack.now.levels) }
{
    let head = stack.head()?;
    let code = coded_at(image, head.method)?;
    let unit = units_of(&code).get(head.at as usize)?;
    Some((unit % 256) as u8)
}
