// The handlers of the draft of a body.
ghost use Rattle.std.specs.Prelude.{◌≡◌, ◌++◌, option_map, IfOk, OnOk};
ghost use Rattle.dv_print.specs.Drafting.{handler_type, catch_of, catches_of_try, drafted_catches};

use crate::drafting::label;
use dv_defs::{Body, Handler, Try, Ty};
use dv_draft::Catch;
use std::alloc::{AllocError, Global};

/// The type that a handler catches.
pub fn kind_of<'a>(types: &'a [Ty], handler: &Handler) -> Option<&'a Ty>
    ensures { option_map (λ t. t.now) result ≡ handler_type types.now handler.now }
{
    match handler.kind {
        Some(kind) => types.get(kind as usize),
        None => None,
    }
}

/// The type that a handler catches, copied.
fn caught_type(types: &[Ty], handler: &Handler) -> Result<Option<Ty>, AllocError>
    ensures { IfOk result (λ kind. kind ≡ handler_type types.now handler.now) }
{
    match kind_of(types, handler) {
        Some(ty) => Ok(Some(ty.clone()?)),
        None => Ok(None),
    }
}

/// A handler of a try entry.
fn catch_of(
    alloc: Global,
    types: &[Ty],
    entry: &Try,
    handler: &Handler,
) -> Result<Catch, AllocError>
    ensures { IfOk result (λ c. c ≡ catch_of types.now entry.now handler.now) }
{
    let from = label(alloc, entry.start)?;
    let to = label(alloc, entry.end)?;
    let at = label(alloc, handler.at)?;
    let kind = caught_type(types, handler)?;
    Ok(Catch {
        line: 0,
        kind,
        from,
        to,
        at,
    })
}

/// Appends the handlers of a try entry.
fn add_catches(catches: &mut Vec<Catch>, types: &[Ty], entry: &Try) -> Result<(), AllocError>
    ensures { OnOk result (catches.new.items ≡ catches.old.items ++ catches_of_try types.now entry.now) }
{
    for handler in entry.handlers.items() {
        catches.push(catch_of(*catches.allocator(), types, entry, handler)?)?;
    }
    Ok(())
}

/// The handlers of a body.
pub fn catches_of(alloc: Global, body: &Body) -> Result<Vec<Catch>, AllocError>
    ensures { IfOk result (λ v. v.items ≡ drafted_catches body.now) }
{
    let mut catches = Vec::new(alloc);
    for entry in body.tries.items() {
        add_catches(&mut catches, body.types.items(), entry)?;
    }
    Ok(catches)
}
