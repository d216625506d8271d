// Local steps of a frame.
ghost use Rattle.std.specs.Prelude.{◌≡◌, ◌≤◌, ℕ, IfSome, MatchOption, None, Ok, length};
ghost use Rattle.dv_defs.specs.declared.code.Insn.{Insn as Instruction};
ghost use Rattle.dv_defs.specs.Images.{Image as Linked};
ghost use Rattle.dv_defs.specs.Op.{Code, Op, code_at, is_local as is_local_op, op_of};
ghost use Rattle.dv_ops.specs.Meaning.{code_of};
ghost use Rattle.dv_frames.specs.Heads.{frame as framed, head_in};
ghost use Rattle.dv_words.specs.Stepping.{RanLocally, StepsLocally};
ghost use Rattle.dv_local.specs.Units.{HasUnits};
ghost use Rattle.dv_defs.specs.Body.{most_units};

use crate::step::{is_local_opcode, run, step_once};
use dv_defs::{Image, Insn, MethodId};
use dv_frames::Head;
use dv_ops::{Coded, coded_at};
use dv_words::Frame;

/// Whether an instruction touches one frame alone.
pub fn is_local(insn: &Insn) -> bool
    ensures { (image : Linked) (code : Code) (at : ℕ) (op : Op) → op_of image code at insn.now ≡ Ok op → result ≡ is_local_op op }
{
    opcode_is_local(insn.op)
}

/// Whether the instructions of an opcode touch one frame alone.
#[inline]
pub fn opcode_is_local(opcode: u8) -> bool
    ensures { (image : Linked) (code : Code) (at : ℕ) (insn : Instruction) (op : Op) → insn.op ≡ opcode → op_of image code at insn ≡ Ok op → result ≡ is_local_op op }
{
    is_local_opcode(opcode)
}

/// The units of a body.
fn units_in<'a>(code: &Coded<'a>) -> &'a [u16]
    ensures units { result.now ≡ (code_of code.now).body.units }
    ensures short { length result.now ≤ most_units }
{
    let body = code.body;
    body.units.items()
}

/// The units of a method's body, none where it has no body.
pub fn units_of(image: &Image, method: MethodId) -> Option<&[u16]>
    ensures units { MatchOption result (code_at image.now method.0 ≡ None) (λ us. HasUnits image.now method.0 us.now) }
    ensures short { IfSome result (λ us. length us.now ≤ most_units) }
{
    match coded_at(image, method) {
        Some(code) => Some(units_in(&code)),
        None => None,
    }
}

/// A frame without its registers.
fn head_of(frame: &Frame) -> Head
    ensures { result ≡ head_in frame.now }
{
    Head {
        method: frame.method,
        at: frame.at,
        result: frame.result,
        caught: frame.caught,
    }
}

/// Puts another head on a frame.
fn set_head(frame: &mut Frame, head: Head)
    ensures { frame.new ≡ framed head frame.old.regs }
{
    frame.method = head.method;
    frame.at = head.at;
    frame.result = head.result;
    frame.caught = head.caught;
}

/// Does the instruction at a frame's address, where it is a local one; else nothing changes.
pub fn local_step(image: &Image, frame: &mut Frame) -> bool
    ensures { StepsLocally image.now result frame.old frame.new }
{
    let Some(units) = units_of(image, frame.method) else {
        return false;
    };
    let mut head = head_of(frame);
    let done = step_once(units, frame.regs.items_mut(), &mut head);
    set_head(frame, head);
    done
}

/// Does local instructions of a frame one after another, so many at most, up to the first that isn't one; gives how many were done.
pub fn run_frame(image: &Image, frame: &mut Frame, most: u32) -> u32
    ensures { RanLocally image.now most result frame.old frame.new }
{
    let Some(units) = units_of(image, frame.method) else {
        return 0;
    };
    let mut head = head_of(frame);
    let done = run(units, frame.regs.items_mut(), &mut head, most);
    set_head(frame, head);
    done
}
