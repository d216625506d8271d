// Returns.
ghost use Rattle.std.specs.Prelude.{◌≡◌, ◌≤◌, Ok, Some, length};
ghost use Rattle.std.specs.declared.alloc.AllocError.{AllocError};
ghost use Rattle.dv_defs.specs.Formats.{size_at};
ghost use Rattle.dv_defs.specs.Pools as pools;
ghost use Rattle.dv_typing.specs.Statics.{At as Fetched, fetch};
ghost use Rattle.dv_defs.specs.Types as types;
ghost use Rattle.dv_ops.specs.Meaning.{method_of};
ghost use Rattle.dv_words.specs.Stacks.{with_levels};
ghost use Rattle.dv_words.specs.Answering.{IsStackOf, Leads, LeavesStack};
ghost use Rattle.dv_words.specs.Calls as steps;
ghost use Rattle.dv_words.specs.Fetching.{IsThere};
ghost use Rattle.dv_words.specs.Steps.{At};
ghost use Rattle.dv_call.specs.Landings.{IsOwn, IsRunning};
ghost use Rattle.dv_call.specs.Returns.{CallerStands, TopStands, resumed};
ghost use Rattle.dv_defs.specs.Body.{most_units};

use crate::tops::running;
use dv_defs::{Base, Image, MethodId, Next, Ty};
use dv_frames::Stack;
use dv_ops::{Method, coded_at, units_of};
use dv_units::insn_size;
use dv_words::Kept;

/// The number of units of an instruction with an opcode, 0 where the opcode has no format.
fn size_of(op: u8) -> u32
    ensures size { result ≡ size_at op }
    ensures few { result ≤ 5 }
{
    insn_size(op) as u32
}

/// The address after the instruction that stands at this one, none past the units.
pub fn next_in(units: &[u16], at: u32) -> Option<u32>
    requires { length units.now ≤ most_units }
    ensures { (x : Fetched) → IsThere units.now at x → result ≡ Some x.next }
{
    let place = at as usize;
    if place >= units.len() {
        return None;
    }
    Some(at + size_of((units[place] % 256) as u8))
}

/// The same in a method of the image.
fn next_of(image: &Image, method: MethodId, at: u32) -> Option<u32>
    ensures { (x : Fetched) → fetch image.now method.0 at ≡ Some x → result ≡ Some x.next }
{
    let code = coded_at(image, method)?;
    next_in(units_of(&code), at)
}

/// A frame on top goes on after its invoke, and keeps the result. A record takes none.
fn resume(image: &Image, stack: &mut Stack, kept: Kept)
    ensures { TopStands image.now stack.old.levels → stack.new ≡ with_levels stack.old (resumed image.now kept stack.old.levels) }
{
    let Some(head) = stack.head() else { return };
    let Some(next) = next_of(image, head.method, head.at) else {
        return;
    };
    stack.go(next);
    stack.give(kept);
}

/// Drops the frame on top, and hands its result to the level below.
fn go_back(image: &Image, stack: &mut Stack, kept: Kept) -> Next
    ensures { (h : At) → h.image ≡ image.now → IsStackOf stack.old h → CallerStands h →
        Leads {E = AllocError} (Ok result) (steps.back h kept) (LeavesStack h.shared stack.old stack.new) (stack.new ≡ stack.old) }
{
    let _ = stack.pop();
    resume(image, stack, kept);
    Next::On
}

/// return-void: the frame on top is dropped, and its caller goes on after its invoke.
pub fn return_void(image: &Image, stack: &mut Stack) -> Next
    ensures { (h : At) → h.image ≡ image.now → IsStackOf stack.old h → CallerStands h →
        Leads {E = AllocError} (Ok result) (steps.return_void h) (LeavesStack h.shared stack.old stack.new) (stack.new ≡ stack.old) }
{
    go_back(image, stack, Kept::None)
}

fn is_long(ty: &Ty) -> bool
    ensures { result ≡ types.is_long ty.now }
{
    ty.dims == 0 && matches!(ty.base, Base::J)
}

/// Whether a method gives a long.
pub fn gives_long(method: &Method<'_>) -> bool
    ensures { result ≡ steps.is_wide (method_of method.now).def.proto.ret }
{
    match &method.def.proto.ret {
        Some(ty) => is_long(ty),
        None => false,
    }
}

/// The same of the method that runs on top.
fn top_gives_long(image: &Image, stack: &Stack) -> bool
    ensures { (own : pools.Method) → IsRunning image.now stack.now own → result ≡ steps.is_wide own.def.proto.ret }
{
    match running(image, stack) {
        Some(method) => gives_long(&method),
        None => false,
    }
}

/// The word in a register of the frame on top, or the two of a long there and in the next one.
pub fn kept_at(stack: &Stack, reg: u16, wide: bool) -> Kept
    ensures { (h : At) → IsStackOf stack.now h → result ≡ steps.kept_at h.frame reg wide }
{
    let low = stack.word(u32::from(reg));
    if wide {
        Kept::Two(low, stack.word(u32::from(reg) + 1))
    } else {
        Kept::One(low)
    }
}

/// return, return-wide and return-object: the frame on top is dropped, and its caller goes on after its invoke with the result, which is a
/// long where the method gives one.
pub fn return_value(image: &Image, stack: &mut Stack, reg: u16) -> Next
    ensures { (h : At) → h.image ≡ image.now → IsStackOf stack.old h → IsOwn h → CallerStands h →
        Leads {E = AllocError} (Ok result) (steps.return_form h reg) (LeavesStack h.shared stack.old stack.new) (stack.new ≡ stack.old) }
{
    let kept = kept_at(stack, reg, top_gives_long(image, stack));
    go_back(image, stack, kept)
}
