// The edges along which states flow.
ghost use Rattle.std.specs.Prelude.{◌≡◌, ℕ, [], ◌∷◌, ◌++◌, Some, IfOk, OnOk, map};
ghost use Rattle.dv_typing.specs.Demands.{goes_on};
ghost use Rattle.dv_typing.specs.Flow.{jumps, thrown_at};
ghost use Rattle.dv_defs.specs.Op.{Code, can_throw};
ghost use Rattle.dv_typing.specs.Statics.{fetch};
ghost use Rattle.law_flow.specs.Clean.{IsClean};
ghost use Rattle.dv_ops.specs.Places.{IsBoundary};
ghost use Rattle.dv_ops.specs.Meaning.{code_of, meant};
ghost use Rattle.dv_rules.specs.Edges.{edges_of, plain_edge};
ghost use Rattle.dv_rules.specs.EdgeParts.{edges_onward, edges_thrown, target_edges};

use crate::catchers::push_handlers;
use crate::switches::push_cases;
use dv_defs::{Image, Ty};
use dv_ops::{Coded, Op, begins_insn_next};
use std::alloc::{AllocError, Global};

/// An edge to the instruction at an address. One to a handler has the type that is caught there, Throwable where all is.
#[derive(PartialEq, Eq, Debug, Drop)]
pub struct Edge {
    pub to: u32,
    pub handler: Option<Ty>,
}

/// The edges from the operation at an address to the next instruction and to targets.
pub fn targets_from(
    alloc: Global,
    image: &Image,
    code: &Coded<'_>,
    at: u32,
    op: &Op<'_>,
    next: u32,
) -> Result<Vec<Edge>, AllocError>
    requires clean { IsClean image.now (code_of code.now) }
    requires fetched { fetch image.now code.now.method.id.0 at ≡ Some (record { op = meant (code_of code.now) at op.now; next = next }) }
    requires next { IsBoundary (code_of code.now) next }
    ensures { IfOk result (λ v. v.items ≡ target_edges (code_of code.now) (record { op = meant (code_of code.now) at op.now; next = next })) }
{
    let mut edges = Vec::new(alloc);
    push_next(code, op, next, &mut edges)?;
    push_jumps(alloc, image, code, at, op, next, &mut edges)?;
    Ok(edges)
}

/// The edges from the operation at an address: to the next instruction and to targets, then to handlers.
pub fn edges_from(
    alloc: Global,
    image: &Image,
    code: &Coded<'_>,
    at: u32,
    op: &Op<'_>,
    next: u32,
) -> Result<Vec<Edge>, AllocError>
    requires clean { IsClean image.now (code_of code.now) }
    requires fetched { fetch image.now code.now.method.id.0 at ≡ Some (record { op = meant (code_of code.now) at op.now; next = next }) }
    requires next { IsBoundary (code_of code.now) next }
    ensures { IfOk result (λ v. v.items ≡ edges_of image.now (code_of code.now) at (record { op = meant (code_of code.now) at op.now; next = next })) }
{
    let mut edges = targets_from(alloc, image, code, at, op, next)?;
    push_thrown(alloc, image, code, at, op, next, &mut edges)?;
    Ok(edges)
}

/// Adds the edge to the next instruction, where control goes on to one.
fn push_next(
    code: &Coded<'_>,
    op: &Op<'_>,
    next: u32,
    edges: &mut Vec<Edge>,
) -> Result<(), AllocError>
    requires { IsBoundary (code_of code.now) next }
    ensures { (at : ℕ) → OnOk result (edges.new.items ≡ edges.old.items ++ edges_onward (code_of code.now) (meant (code_of code.now) at op.now) next) }
{
    if goes_on(op) && begins_insn_next(code, next) {
        push_target(edges, next)
    } else {
        Ok(())
    }
}

/// Whether control goes on to the next address.
fn goes_on(op: &Op<'_>) -> bool
    ensures { (code : Code) (at : ℕ) → result ≡ goes_on (meant code at op.now) }
{
    match op {
        Op::Goto(_) | Op::Throw(_) | Op::ReturnVoid | Op::Return(_, _) => false,
        _ => true,
    }
}

/// Adds edges to the targets of a branch or switch.
fn push_jumps(
    alloc: Global,
    image: &Image,
    code: &Coded<'_>,
    at: u32,
    op: &Op<'_>,
    next: u32,
    edges: &mut Vec<Edge>,
) -> Result<(), AllocError>
    requires clean { IsClean image.now (code_of code.now) }
    requires fetched { fetch image.now code.now.method.id.0 at ≡ Some (record { op = meant (code_of code.now) at op.now; next = next }) }
    ensures { OnOk result (edges.new.items ≡ edges.old.items ++ map plain_edge (jumps (meant (code_of code.now) at op.now))) }
{
    match op {
        Op::Goto(to) => push_target(edges, *to),
        Op::IfBoth(_, _, _, to) => push_target(edges, *to),
        Op::IfZero(_, _, to) => push_target(edges, *to),
        Op::Switch(_, _) => push_cases(alloc, image, code, at, edges),
        _ => Ok(()),
    }
}

/// Adds edges to the handlers, where the operation can throw.
fn push_thrown(
    alloc: Global,
    image: &Image,
    code: &Coded<'_>,
    at: u32,
    op: &Op<'_>,
    next: u32,
    edges: &mut Vec<Edge>,
) -> Result<(), AllocError>
    ensures { OnOk result (edges.new.items ≡ edges.old.items ++ edges_thrown image.now (code_of code.now) at (record { op = meant (code_of code.now) at op.now; next = next })) }
{
    if can_throw(op) {
        push_handlers(alloc, image, code.method.id, thrown_at(at, op, next), edges)
    } else {
        Ok(())
    }
}

/// Whether an operation can throw.
pub fn can_throw(op: &Op<'_>) -> bool
    ensures { (code : Code) (at : ℕ) → result ≡ can_throw (meant code at op.now) }
{
    match op {
        Op::IntDivide(_, _, _, _)
        | Op::LongDivide(_, _, _, _)
        | Op::ConstString(_, _)
        | Op::ConstClass(_, _)
        | Op::Enter(_)
        | Op::Exit(_)
        | Op::Cast(_, _)
        | Op::ArrayLength(_, _)
        | Op::New(_, _)
        | Op::NewArray(_, _, _)
        | Op::Filled(_, _)
        | Op::Fill(_, _)
        | Op::Throw(_)
        | Op::ArrayGet(_, _, _, _)
        | Op::ArrayPut(_, _, _, _)
        | Op::FieldGet(_, _, _, _)
        | Op::FieldPut(_, _, _, _)
        | Op::StaticGet(_, _, _)
        | Op::StaticPut(_, _, _)
        | Op::Invoke(_, _, _) => true,
        _ => false,
    }
}

/// The address whose handlers an exception is searched in: for monitor-exit the next one.
pub fn thrown_at(at: u32, op: &Op<'_>, next: u32) -> u32
    ensures { (code : Code) (k : ℕ) → result ≡ thrown_at at (record { op = meant code k op.now; next = next }) }
{
    match op {
        Op::Exit(_) => next,
        _ => at,
    }
}

/// Adds an edge to an instruction that is no handler.
pub fn push_target(edges: &mut Vec<Edge>, to: u32) -> Result<(), AllocError>
    ensures { OnOk result (edges.new.items ≡ edges.old.items ++ plain_edge to ∷ []) }
{
    edges.push(Edge { to, handler: None })?;
    Ok(())
}
