// The ways on from instructions.
ghost use Rattle.std.specs.Prelude.{IfOk, IfSome, Some, [], length, map, position, true, ℕ, ◌<◌, ◌∷◌, ◌≡◌};
ghost use Rattle.dv_defs.specs.Body.{most_units};
ghost use Rattle.dv_defs.specs.Tiling.{begins_insn};
ghost use Rattle.dv_typing.specs.Statics.{At, fetch};
ghost use Rattle.law_flow.specs.Clean.{IsClean};
ghost use Rattle.dv_defs.specs.Op.{Code};
ghost use Rattle.dv_typing.specs.Flow.{targets};
ghost use Rattle.dv_ops.specs.Meaning.{code_of, meant};
ghost use Rattle.dv_ops.specs.Places.{IsBoundary};
ghost use Rattle.dv_plan.specs.Beginnings.{Begin};
ghost use Rattle.law_gather.specs.Gathered.{covering_entry, covers};
ghost use Rattle.dv_plan.specs.Ways.{AreWays, HasWays, IsNextAlone, IsWays};

use dv_defs::{Image, Seq, Try};
use dv_ops::{Coded, Op, begins_insn_next, op_at, units_of};
use dv_rules::{Edge, can_throw, targets_from, thrown_at};
use std::alloc::{AllocError, Global};

/// The ways on from an instruction: the addresses of the next one and of its targets, the next one where control goes on to it alone, and the
/// place of the try entry whose handlers it may throw to.
#[derive(Drop)]
pub struct Ways {
    pub targets: Seq<u32>,
    pub next: Option<u32>,
    pub covering: Option<usize>,
}

/// The ways on from each address of a body at which an instruction begins.
pub fn ways_of(
    alloc: Global,
    image: &Image,
    code: &Coded<'_>,
    begins: &[bool],
) -> Result<Vec<Option<Ways>>, AllocError>
    requires clean { IsClean image.now (code_of code.now) }
    requires count { length begins.now ≡ length code.now.body.now.units }
    requires begins { Begin (code_of code.now).tiles begins.now (length begins.now) }
    ensures { IfOk result (λ v. AreWays image.now (code_of code.now) (length begins.now) v.items) }
{
    let _units = units_of(code);
    let mut ways = Vec::with_capacity(alloc, begins.len())?;
    for at in 0..begins.len() {
        ways.push(ways_at(alloc, image, code, begins[at], at)?)?;
    }
    Ok(ways)
}

/// The ways on from an address, where an instruction begins there.
fn ways_at(
    alloc: Global,
    image: &Image,
    code: &Coded<'_>,
    begins: bool,
    at: usize,
) -> Result<Option<Ways>, AllocError>
    requires clean { IsClean image.now (code_of code.now) }
    requires begins { begins ≡ begins_insn (code_of code.now).tiles at }
    requires short { at < most_units }
    ensures { IfOk result (HasWays image.now (code_of code.now) at) }
{
    if begins {
        Ok(Some(ways_from(alloc, image, code, at as u32)?))
    } else {
        Ok(None)
    }
}

/// The ways on from the instruction at an address.
fn ways_from(alloc: Global, image: &Image, code: &Coded<'_>, at: u32) -> Result<Ways, AllocError>
    requires clean { IsClean image.now (code_of code.now) }
    requires begins { begins_insn (code_of code.now).tiles at ≡ true }
    ensures { (x : At) → fetch image.now code.now.method.id.0 at ≡ Some x → IfOk result (IsWays (code_of code.now) at x) }
{
    let (op, next) = op_at(image, code, at);
    let edges = targets_from(alloc, image, code, at, &op, next)?;
    Ok(Ways {
        targets: Seq::of(addresses(alloc, edges.as_slice())?),
        next: next_alone(code, at, &op, next),
        covering: covering_of(code, at, &op, next),
    })
}

/// The next instruction, where an operation goes on to it alone.
fn next_alone(code: &Coded<'_>, at: u32, op: &Op<'_>, next: u32) -> Option<u32>
    requires { IsBoundary (code_of code.now) next }
    ensures { IfSome result (IsNextAlone (code_of code.now) at (record { op = meant (code_of code.now) at op.now; next = next })) }
{
    if goes_straight(op) && at < next && begins_insn_next(code, next) {
        Some(next)
    } else {
        None
    }
}

/// Whether control goes on from an operation to the next instruction alone.
fn goes_straight(op: &Op<'_>) -> bool
    ensures { (code : Code) (at next : ℕ) → result ≡ true → targets (record { op = meant code at op.now; next = next }) ≡ next ∷ [] }
{
    !matches!(
        op,
        Op::Goto(_)
            | Op::IfBoth(_, _, _, _)
            | Op::IfZero(_, _, _)
            | Op::Switch(_, _)
            | Op::Throw(_)
            | Op::ReturnVoid
            | Op::Return(_, _)
    )
}

/// Where edges lead.
fn addresses(alloc: Global, edges: &[Edge]) -> Result<Vec<u32>, AllocError>
    ensures { IfOk result (λ v. v.items ≡ map (λ e. e.to) edges.now) }
{
    let mut addresses = Vec::with_capacity(alloc, edges.len())?;
    for edge in edges {
        addresses.push(edge.to)?;
    }
    Ok(addresses)
}

/// The place of the try entry whose handlers an operation may throw to.
fn covering_of(code: &Coded<'_>, at: u32, op: &Op<'_>, next: u32) -> Option<usize>
    ensures { result ≡ covering_entry (code_of code.now) at (record { op = meant (code_of code.now) at op.now; next = next }) }
{
    if can_throw(op) {
        let body = code.body;
        covering(body.tries.items(), thrown_at(at, op, next))
    } else {
        None
    }
}

/// The place of the first try entry that covers an address.
fn covering(tries: &[Try], at: u32) -> Option<usize>
    ensures { result ≡ position (covers at) tries.now }
{
    tries
        .iter()
        .position(|entry| entry.start <= at && at < entry.end)
}
