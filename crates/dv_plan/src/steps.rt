// The steps of a body.
ghost use Rattle.std.specs.Prelude.{◌≡◌, ◌<◌, IfOk, OnOk, Some, length, true};
ghost use Rattle.dv_defs.specs.Body.{most_units};
ghost use Rattle.dv_defs.specs.Tiling.{begins_insn};
ghost use Rattle.dv_typing.specs.Statics.{At, fetch};
ghost use Rattle.law_flow.specs.Clean.{IsClean};
ghost use Rattle.dv_ops.specs.Meaning.{code_of};
ghost use Rattle.dv_bases.specs.Bases.{IsWider};
ghost use Rattle.dv_effects.specs.Effects.{IsStep};
ghost use Rattle.dv_plan.specs.Beginnings.{Begin};
ghost use Rattle.dv_plan.specs.Steps.{AreStepsTo, HasStepAt};

use dv_bases::Bases;
use dv_defs::Image;
use dv_effects::{Step, step_of};
use dv_ops::{Coded, op_at, units_of};
use std::alloc::{AllocError, Global};

/// The step from each address of a body at which an instruction begins.
pub fn steps_of(
    alloc: Global,
    bases: &mut Bases<'_>,
    image: &Image,
    code: &Coded<'_>,
    begins: &[bool],
) -> Result<Vec<Option<Step>>, AllocError>
    requires image { bases.old.image ≡ image.now }
    requires clean { IsClean image.now (code_of code.now) }
    requires count { length begins.now ≡ length code.now.body.now.units }
    requires begins { Begin (code_of code.now).tiles begins.now (length begins.now) }
    ensures wider { OnOk result (IsWider bases.old bases.new) }
    ensures steps { IfOk result (λ v. AreStepsTo image.now bases.new (code_of code.now) (length begins.now) v.items) }
{
    let _units = units_of(code);
    let mut steps = Vec::with_capacity(alloc, begins.len())?;
    for at in 0..begins.len() {
        steps.push(step_at(alloc, bases, image, code, begins[at], at)?)?;
    }
    Ok(steps)
}

/// The step from an address, where an instruction begins there.
fn step_at(
    alloc: Global,
    bases: &mut Bases<'_>,
    image: &Image,
    code: &Coded<'_>,
    begins: bool,
    at: usize,
) -> Result<Option<Step>, AllocError>
    requires image { bases.old.image ≡ image.now }
    requires clean { IsClean image.now (code_of code.now) }
    requires begins { begins ≡ begins_insn (code_of code.now).tiles at }
    requires short { at < most_units }
    ensures wider { OnOk result (IsWider bases.old bases.new) }
    ensures step { IfOk result (HasStepAt image.now bases.new (code_of code.now) at) }
{
    if begins {
        Ok(Some(step_from(alloc, bases, image, code, at as u32)?))
    } else {
        Ok(None)
    }
}

/// The step from the instruction at an address.
fn step_from(
    alloc: Global,
    bases: &mut Bases<'_>,
    image: &Image,
    code: &Coded<'_>,
    at: u32,
) -> Result<Step, AllocError>
    requires image { bases.old.image ≡ image.now }
    requires clean { IsClean image.now (code_of code.now) }
    requires begins { begins_insn (code_of code.now).tiles at ≡ true }
    requires short { at < most_units }
    ensures wider { OnOk result (IsWider bases.old bases.new) }
    ensures step { (x : At) → fetch image.now code.now.method.id.0 at ≡ Some x → IfOk result (IsStep bases.new (code_of code.now) at x.op) }
{
    let (op, _) = op_at(image, code, at);
    step_of(bases, alloc, image, at, &op)
}
