// The ways to handlers.
ghost use Rattle.std.specs.Prelude.{◌≡◌, All, IfOk, OnOk, length, map, true};
ghost use Rattle.dv_typing.specs.Flow.{catchers};
ghost use Rattle.dv_rules.specs.Edges.{handler_edge};
ghost use Rattle.dv_bases.specs.Bases.{IsNumbered, IsWider};
ghost use Rattle.dv_plan.specs.Hops.{AreHops, LeadTo, has_handler, hop_edge};

use dv_bases::{Bases, Reference};
use dv_defs::{Body, Seq, Try};
use dv_rules::{Edge, catcher_edges};
use std::alloc::{AllocError, Global};

/// The way to a handler: its address, and the class that is caught there.
#[derive(Clone, Copy)]
pub struct Hop {
    pub to: u32,
    pub caught: Reference,
}

/// By try entry of a body, the ways to its handlers.
pub fn hops_of(
    alloc: Global,
    bases: &mut Bases<'_>,
    body: &Body,
) -> Result<Vec<Seq<Hop>>, AllocError>
    ensures wider { OnOk result (IsWider bases.old bases.new) }
    ensures hops { IfOk result (λ v. AreHops bases.new body.now (length body.now.tries) v.items) }
{
    let mut hops = Vec::new(alloc);
    for entry in body.tries.items() {
        hops.push(Seq::of(hops_from(alloc, bases, body, entry)?))?;
    }
    Ok(hops)
}

/// The ways to the handlers of a try entry.
fn hops_from(
    alloc: Global,
    bases: &mut Bases<'_>,
    body: &Body,
    entry: &Try,
) -> Result<Vec<Hop>, AllocError>
    ensures wider { OnOk result (IsWider bases.old bases.new) }
    ensures hops { IfOk result (λ v. LeadTo bases.new v.items (map handler_edge (catchers body.now entry.now.handlers))) }
{
    let edges = catcher_edges(alloc, body, entry)?;
    hops_along(alloc, bases, edges.as_slice())
}

/// Edges to handlers as hops.
fn hops_along(alloc: Global, bases: &mut Bases<'_>, edges: &[Edge]) -> Result<Vec<Hop>, AllocError>
    requires { All (λ e. has_handler e ≡ true) edges.now }
    ensures wider { OnOk result (IsWider bases.old bases.new) }
    ensures hops { IfOk result (λ v. LeadTo bases.new v.items edges.now) }
{
    let mut hops = Vec::with_capacity(alloc, edges.len())?;
    for edge in edges {
        hops.push(hop_along(bases, edge)?)?;
    }
    Ok(hops)
}

/// An edge to a handler as a hop.
fn hop_along(bases: &mut Bases<'_>, edge: &Edge) -> Result<Hop, AllocError>
    requires { has_handler edge.now ≡ true }
    ensures wider { OnOk result (IsWider bases.old bases.new) }
    ensures leads { IfOk result (λ h. hop_edge bases.new h ≡ edge.now) }
    ensures numbered { IfOk result (λ h. IsNumbered bases.new h.caught) }
{
    match &edge.handler {
        Some(ty) => Ok(Hop {
            to: edge.to,
            caught: bases.reference(ty)?,
        }),
        None => unreachable!(),
    }
}
