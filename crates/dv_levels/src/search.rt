// The search for a way along which a register is fed through an element of its own arrays.
ghost use Rattle.std.specs.Prelude.{◌≡◌, ◌<◌, ◌+◌, ℕ, All, [], None, Some, IfOk, IfSome, OnOk, length, slice_index_or, true};
ghost use Rattle.dv_defs.specs.Images as images;
ghost use Rattle.dv_defs.specs.Op.{Code};
ghost use Rattle.dv_ops.specs.Meaning.{code_of};
ghost use Rattle.law_gather.specs.Gathered.{addresses};
ghost use Rattle.law_levels.specs.Levels.{HasNoClass, IsBounded};
ghost use Rattle.dv_plan.specs.Plans.{IsPlan};
ghost use Rattle.dv_levels.specs.Takes.{IsLevel};

use crate::effects::{Level, keeps, taken};
use crate::seen::Seen;
use dv_bases::Bases;
use dv_effects::Step;
use dv_ops::{Coded, units_of};
use dv_plan::{Hop, Mark, Plan, Ways};
use std::alloc::{AllocError, Global};

/// Whether no closed assignment is known to have a class or an array in a register at a place: along a way back there it is copied, and at least
/// once an element of it is read. `left` is how many levels may still be looked at.
pub fn holds_no_class(
    alloc: Global,
    bases: &Bases<'_>,
    code: &Coded<'_>,
    plan: &Plan,
    place: usize,
    register: u16,
    left: &mut usize,
) -> Result<bool, AllocError>
    requires { IsPlan bases.now.image bases.now (code_of code.now) plan.now }
    ensures { IfOk result (λ none. none ≡ true → HasNoClass bases.now.image (code_of code.now) place register) }
{
    let first = Level {
        place,
        register,
        fewer: false,
    };
    let mut seen = Seen::none(alloc, place_count(code), register_count(code))?;
    let mut open = vec![in alloc; first]?;
    while *left > 0 {
        *left -= 1;
        let Some(level) = open.pop() else {
            return Ok(false);
        };
        if level.place == place && level.register == register && level.fewer {
            return Ok(true);
        }
        go_on(bases, code, plan, level, &mut seen, &mut open)?;
    }
    Ok(false)
}

/// How many places there are.
fn place_count(code: &Coded<'_>) -> usize {
    let body = code.body;
    units_of(code)
        .len()
        .saturating_add(body.tries.items().len())
}

/// How many registers there are.
fn register_count(code: &Coded<'_>) -> usize {
    let body = code.body;
    usize::from(body.registers)
}

/// Adds the levels to which one leads: from an instruction, or from a try entry, whose places are behind those of the units.
fn go_on(
    bases: &Bases<'_>,
    code: &Coded<'_>,
    plan: &Plan,
    level: Level,
    seen: &mut Seen,
    open: &mut Vec<Level>,
) -> Result<(), AllocError>
    requires { IsPlan bases.now.image bases.now (code_of code.now) plan.now }
    ensures { (first own : ℕ) → IsLevel bases.now.image (code_of code.now) first own level → All (IsLevel bases.now.image (code_of code.now) first own) open.old.items → OnOk result (All (IsLevel bases.now.image (code_of code.now) first own) open.new.items) }
{
    let count = units_of(code).len();
    if level.place < count {
        from_instruction(bases, code, plan, level, seen, open)
    } else {
        to_handlers(
            plan,
            hops_from(plan, level.place - count),
            level,
            seen,
            open,
        )
    }
}

/// The same of an instruction.
fn from_instruction(
    bases: &Bases<'_>,
    code: &Coded<'_>,
    plan: &Plan,
    level: Level,
    seen: &mut Seen,
    open: &mut Vec<Level>,
) -> Result<(), AllocError>
    requires plan { IsPlan bases.now.image bases.now (code_of code.now) plan.now }
    requires inside { level.place < addresses (code_of code.now) }
    ensures { (first own : ℕ) → IsLevel bases.now.image (code_of code.now) first own level → All (IsLevel bases.now.image (code_of code.now) first own) open.old.items → OnOk result (All (IsLevel bases.now.image (code_of code.now) first own) open.new.items) }
{
    let Some(ways) = ways_at(plan, level.place) else {
        return Ok(());
    };
    let Some(step) = step_at(plan, level.place) else {
        return Ok(());
    };
    let targets = ways.targets.items();
    to_entry(code, plan, ways.covering, level, seen, open)?;
    if keeps(step.effect, level.register) {
        to_targets(plan, targets, level.register, level.fewer, seen, open)?;
    }
    match taken(step.effect, level.register, level.fewer) {
        Some((register, fewer)) => to_targets(plan, targets, register, fewer, seen, open),
        None => Ok(()),
    }
}

/// The ways on from the instruction at an address.
fn ways_at(plan: &Plan, place: usize) -> Option<&Ways>
    ensures { IfSome result (λ ways. slice_index_or plan.now.ways.items place None ≡ Some ways.now) }
{
    match plan.ways.get(place) {
        Some(Some(ways)) => Some(ways),
        _ => None,
    }
}

/// The step of the instruction at an address.
fn step_at(plan: &Plan, place: usize) -> Option<Step>
    ensures { IfSome result (λ step. slice_index_or plan.now.steps.items place None ≡ Some step) }
{
    match plan.steps.get(place) {
        Some(Some(step)) => Some(*step),
        _ => None,
    }
}

/// The ways to the handlers of a try entry.
fn hops_from(plan: &Plan, entry: usize) -> &[Hop]
    ensures { result.now ≡ slice_index_or plan.now.hops.items entry [] }
{
    match plan.hops.get(entry) {
        Some(hops) => hops.items(),
        None => &[],
    }
}

/// Adds the level at the try entry that covers an instruction, where one does.
fn to_entry(
    code: &Coded<'_>,
    plan: &Plan,
    covering: Option<usize>,
    level: Level,
    seen: &mut Seen,
    open: &mut Vec<Level>,
) -> Result<(), AllocError>
    ensures { (image : images.Image) (first own : ℕ) → IfSome covering (λ entry. IsBounded image (code_of code.now) first own (addresses (code_of code.now) + entry) level.register level.fewer) → All (IsLevel image (code_of code.now) first own) open.old.items → OnOk result (All (IsLevel image (code_of code.now) first own) open.new.items) }
{
    let Some(entry) = covering else {
        return Ok(());
    };
    let body = code.body;
    if entry >= body.tries.items().len() {
        return Ok(());
    }
    let place = units_of(code).len() + entry;
    push(
        plan,
        Level {
            place,
            register: level.register,
            fewer: level.fewer,
        },
        seen,
        open,
    )
}

/// Adds levels of a register at targets.
fn to_targets(
    plan: &Plan,
    targets: &[u32],
    register: u16,
    fewer: bool,
    seen: &mut Seen,
    open: &mut Vec<Level>,
) -> Result<(), AllocError>
    ensures { (image : images.Image) (code : Code) (first own : ℕ) → All (λ to. IsBounded image code first own to register fewer) targets.now → All (IsLevel image code first own) open.old.items → OnOk result (All (IsLevel image code first own) open.new.items) }
{
    for to in targets {
        let place = *to as usize;
        push(
            plan,
            Level {
                place,
                register,
                fewer,
            },
            seen,
            open,
        )?;
    }
    Ok(())
}

/// Adds the levels at handlers.
fn to_handlers(
    plan: &Plan,
    hops: &[Hop],
    level: Level,
    seen: &mut Seen,
    open: &mut Vec<Level>,
) -> Result<(), AllocError>
    ensures { (image : images.Image) (code : Code) (first own : ℕ) → All (λ hop. IsBounded image code first own hop.to level.register level.fewer) hops.now → All (IsLevel image code first own) open.old.items → OnOk result (All (IsLevel image code first own) open.new.items) }
{
    for hop in hops {
        let place = hop.to as usize;
        push(
            plan,
            Level {
                place,
                register: level.register,
                fewer: level.fewer,
            },
            seen,
            open,
        )?;
    }
    Ok(())
}

/// Adds a level, unless it was met before. In straight code none is met twice.
fn push(plan: &Plan, level: Level, seen: &mut Seen, open: &mut Vec<Level>) -> Result<(), AllocError>
    ensures { (image : images.Image) (code : Code) (first own : ℕ) → IsLevel image code first own level → All (IsLevel image code first own) open.old.items → OnOk result (All (IsLevel image code first own) open.new.items) }
{
    if is_straight(plan, level.place) || seen.add(level) {
        open.push(level)?;
    }
    Ok(())
}

/// Whether an address is entered by one way alone.
fn is_straight(plan: &Plan, place: usize) -> bool {
    matches!(plan.marks.get(place), Some(Mark::After(_)))
}
