// Edges to the handlers of an address.
ghost use Rattle.std.specs.Prelude.{◌≡◌, [], ◌∷◌, ◌++◌, map, nat_le, nat_lt, ◌&&◌, not, IfOk, OnOk, find, is_some, slice_get, option_and_then, option_map};
ghost use Rattle.dv_defs.specs.Types.{of_class};
ghost use Rattle.dv_defs.specs.Names.{throwable_name};
ghost use Rattle.dv_typing.specs.Flow.{catchers, caught_as, handlers_at, handlers_of};
ghost use Rattle.dv_rules.specs.Edges.{handler_edge};

use crate::flow::Edge;
use dv_defs::{Base, Body, Handler, Image, MethodId, Text, Try, Ty};
use dv_ops::coded_at;
use std::alloc::{AllocError, Global};

const THROWABLE: &[u8] = b"Ljava/lang/Throwable;";

/// Adds an edge for each handler of the try entry that covers an address, up to and with the first that catches all.
#[tactic(auto, unfolding(dv_typing::specs::Flow::handlers_at))]
pub fn push_handlers(
    alloc: Global,
    image: &Image,
    method: MethodId,
    at: u32,
    edges: &mut Vec<Edge>,
) -> Result<(), AllocError>
    ensures { OnOk result (edges.new.items ≡ edges.old.items ++ map handler_edge (handlers_at image.now method.0 at)) }
{
    match coded_at(image, method) {
        Some(code) => push_covering(alloc, code.body, at, edges),
        None => Ok(()),
    }
}

/// The same by the body's try entries.
#[tactic(auto, using(crate::proofs::HandlerSteps::covered_by, crate::proofs::HandlerSteps::covered_by_none))]
fn push_covering(
    alloc: Global,
    body: &Body,
    at: u32,
    edges: &mut Vec<Edge>,
) -> Result<(), AllocError>
    ensures { OnOk result (edges.new.items ≡ edges.old.items ++ map handler_edge (handlers_of body.now body.now.tries at)) }
{
    match covering(body.tries.items(), at) {
        Some(entry) => push_catchers(alloc, body, entry.handlers.items(), edges),
        None => Ok(()),
    }
}

/// The first try entry that covers an address.
fn covering(tries: &[Try], at: u32) -> Option<&Try>
    ensures { option_map (λ t. t.now) result ≡ find (λ t. nat_le t.start at && nat_lt at t.end) tries.now }
{
    for entry in tries {
        if covers(entry, at) {
            return Some(entry);
        }
    }
    None
}

/// Whether a try entry covers an address.
fn covers(entry: &Try, at: u32) -> bool
    ensures { result ≡ (nat_le entry.now.start at && nat_lt at entry.now.end) }
{
    entry.start <= at && at < entry.end
}

/// The edges to the handlers of a try entry, up to and with the first that catches all.
pub fn catcher_edges(alloc: Global, body: &Body, entry: &Try) -> Result<Vec<Edge>, AllocError>
    ensures { IfOk result (λ v. v.items ≡ map handler_edge (catchers body.now entry.now.handlers)) }
{
    let mut edges = Vec::new(alloc);
    push_catchers(alloc, body, entry.handlers.items(), &mut edges)?;
    Ok(edges)
}

/// Adds an edge for each handler, up to and with the first that catches all.
fn push_catchers(
    alloc: Global,
    body: &Body,
    handlers: &[Handler],
    edges: &mut Vec<Edge>,
) -> Result<(), AllocError>
    ensures { OnOk result (edges.new.items ≡ edges.old.items ++ map handler_edge (catchers body.now handlers.now)) }
{
    for handler in handlers {
        push_handler(alloc, body, handler, edges)?;
        if catches_all(handler) {
            return Ok(());
        }
    }
    Ok(())
}

/// Whether a handler catches all.
fn catches_all(handler: &Handler) -> bool
    ensures { result ≡ not (is_some handler.now.kind) }
{
    handler.kind.is_none()
}

/// Adds an edge to a handler.
fn push_handler(
    alloc: Global,
    body: &Body,
    handler: &Handler,
    edges: &mut Vec<Edge>,
) -> Result<(), AllocError>
    ensures { OnOk result (edges.new.items ≡ edges.old.items ++ handler_edge (record { ty = option_and_then (slice_get body.now.types) handler.now.kind; to = handler.now.at }) ∷ []) }
{
    let ty = caught_type(alloc, body, handler.kind)?;
    edges.push(Edge {
        to: handler.at,
        handler: Some(ty),
    })?;
    Ok(())
}

/// What a handler of this kind catches.
fn caught_type(alloc: Global, body: &Body, kind: Option<u32>) -> Result<Ty, AllocError>
    ensures { IfOk result (λ t. t ≡ caught_as (option_and_then (slice_get body.now.types) kind)) }
{
    match kind {
        Some(kind) => pool_type(alloc, body, kind),
        None => throwable(alloc),
    }
}

/// The type at a place of the body's pool.
fn pool_type(alloc: Global, body: &Body, kind: u32) -> Result<Ty, AllocError>
    ensures { IfOk result (λ t. t ≡ caught_as (slice_get body.now.types kind)) }
{
    match body.types.items().get(kind as usize) {
        Some(ty) => ty.clone(),
        None => throwable(alloc),
    }
}

/// Throwable.
fn throwable(alloc: Global) -> Result<Ty, AllocError>
    ensures { IfOk result (λ t. t ≡ of_class throwable_name) }
{
    Ok(Ty {
        dims: 0,
        base: Base::Class(Text::of(Vec::from_slice(alloc, THROWABLE)?)?),
    })
}
