// The static rules of an instruction.
ghost use Rattle.std.specs.Prelude.{◌≡◌, ◌<◌, ◌++◌, OnOk, map, option_map};
ghost use Rattle.dv_typing.specs.Accepting.{places as places_at};
ghost use Rattle.dv_defs.specs.Op.{op_of};
ghost use Rattle.dv_typing.specs.Statics.{insn_rules, resolved_rules};
ghost use Rattle.dv_ops.specs.Meaning.{code_of, meant_or_rule};
ghost use Rattle.dv_static.specs.Placed.{places_of};
ghost use Rattle.dv_static.specs.Tiles.{tile_of};
ghost use Rattle.dv_defs.specs.Body.{most_units};

use crate::branches::{has_payload, moves_on};
use crate::calls::referred;
use crate::operations::add_op_places;
use crate::places::{Place, add_unless};
use crate::registers::registers_below;
use crate::starts::Starts;
use dv_defs::{Image, Insn, Rule, Ty};
use dv_ops::{Coded, Op, resolve};
use std::alloc::AllocError;

/// Adds what an instruction at an address breaks: S5, S11, and what its operation breaks or why it has none.
#[tactic(auto, using(crate::proofs::Appended::three_after))]
pub fn add_insn_places<'a>(
    image: &'a Image,
    code: &Coded<'a>,
    starts: &Starts<'_>,
    at: u32,
    insn: &Insn,
    places: &mut Vec<Place>,
) -> Result<(), AllocError>
    requires at { at < most_units }
    requires tiles { (code_of code.now).tiles ≡ map tile_of starts.now }
    ensures { OnOk result (places_of places.new.items ≡ places_of places.old.items ++ places_at at (insn_rules image.now (code_of code.now) at insn.now)) }
{
    let body = code.body;
    add_unless(moves_on(insn), at, Rule::S(5), places)?;
    add_unless(
        registers_below(body.registers, insn),
        at,
        Rule::S(11),
        places,
    )?;
    let resolved = resolved_at(image, code, starts, at, insn);
    let named = referred(code, insn);
    add_resolved_places(image, code, starts, at, named, &resolved, places)
}

/// The operation of an instruction, or the rule for which there is none.
#[tactic(auto, using(crate::proofs::Unresolved::unresolved))]
fn resolved_at<'a>(
    image: &'a Image,
    code: &Coded<'a>,
    starts: &Starts<'_>,
    at: u32,
    insn: &Insn,
) -> Result<Op<'a>, Rule>
    requires at { at < most_units }
    requires tiles { (code_of code.now).tiles ≡ map tile_of starts.now }
    ensures { meant_or_rule (code_of code.now) at result ≡ op_of image.now (code_of code.now) at insn.now }
{
    if !has_payload(starts, at, insn) {
        return Err(Rule::S(6));
    }
    resolve(image, code, at, insn)
}

/// Adds what an operation breaks, or the rule for which there is none. `named` is the type by which an invoke names its method.
fn add_resolved_places(
    image: &Image,
    code: &Coded<'_>,
    starts: &Starts<'_>,
    at: u32,
    named: Option<&Ty>,
    resolved: &Result<Op<'_>, Rule>,
    places: &mut Vec<Place>,
) -> Result<(), AllocError>
    requires at { at < most_units }
    requires tiles { (code_of code.now).tiles ≡ map tile_of starts.now }
    ensures { OnOk result (places_of places.new.items ≡ places_of places.old.items ++ places_at at (resolved_rules image.now (code_of code.now) (option_map (λ t. t.now) named.entry) (meant_or_rule (code_of code.now) at resolved.now))) }
{
    match resolved {
        Ok(op) => add_op_places(image, code, starts, at, named, op, places),
        Err(rule) => add_unless(false, at, *rule, places),
    }
}
