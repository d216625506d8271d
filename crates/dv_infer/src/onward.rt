// What goes on from an instruction.
ghost use Rattle.std.specs.Prelude.{◌≡◌, ◌<◌, ◌+◌, ◌++◌, [], All, None, Some, IfOk, IfSome, OnOk, length, map, slice_index_or};
ghost use Rattle.dv_typing.specs.Statics.{At, fetch};
ghost use Rattle.dv_typing.specs.Transfer.{out};
ghost use Rattle.law_infer.specs.Flowing.{IsReady, fits_at};
ghost use Rattle.dv_worklist.specs.Beside.{fits_beside, onward_kept};
ghost use Rattle.dv_ops.specs.Meaning.{code_of, method_of};
ghost use Rattle.dv_bases.specs.Bases.{IsNumbered};
ghost use Rattle.dv_bases.specs.States.{AreWords, state_of};
ghost use Rattle.dv_effects.specs.declared.effects.Step.{Step as StepValue};
ghost use Rattle.dv_plan.specs.declared.ways.Ways.{Ways as WaysValue};
ghost use Rattle.dv_plan.specs.Plans.{IsPlan};
ghost use Rattle.law_gather.specs.Gathered.{addresses, fits_gathered, handed, hands_on};
ghost use Rattle.law_blocks.specs.Blocks.{onward_blocks, onward_through};
ghost use Rattle.dv_plan.specs.Marks.{before_by};
ghost use Rattle.dv_infer.specs.Straight.{follows_if, follows_in};
ghost use Rattle.dv_infer.specs.Along.{to_handler, to_target};

use dv_bases::{Bases, PendingWord, Words};
use dv_effects::{Step, after, caught};
use dv_ops::{Coded, units_of};
use dv_plan::{Hop, Mark, Plan, Ways};
use dv_types::{ClassTable, Row};
use dv_worklist::Onwards;
use std::alloc::{AllocError, Global};

/// What goes on from a place with a state: from an instruction, or from a try entry, whose places are behind those of the units.
pub fn onward<'a>(
    alloc: Global,
    bases: &'a Bases<'a>,
    table: &'a ClassTable<'a>,
    code: &Coded<'_>,
    plan: &Plan,
    place: usize,
    row: &Row<'a>,
) -> Result<Onwards<Row<'a>>, AllocError>
    requires ready { IsReady bases.now.image (code_of code.now) }
    requires table { table.now ≡ bases.now.image }
    requires plan { IsPlan bases.now.image bases.now (code_of code.now) plan.now }
    requires fits { fits_beside bases.now (fits_gathered bases.now.image (code_of code.now)) place row.now }
    ensures { IfOk result (λ onwards. onwards ≡ map (onward_kept row.now.beside) (onward_blocks bases.now.image (code_of code.now) (before_by plan.now.marks.items) place row.now.state)) }
{
    let words = row.words();
    let count = units_of(code).len();
    if place < count {
        onward_through(alloc, bases, table, code, plan, place, words)
    } else {
        let hops = hops_from(plan, place - count);
        to_handlers(alloc, bases, table, words, hops)
    }
}

/// What goes on from a head of straight code: from each instruction of it what handlers take over of the state before it to the try entry that
/// covers it, and from the last one the state after it to the next instruction and to targets.
fn onward_through<'a>(
    alloc: Global,
    bases: &'a Bases<'a>,
    table: &'a ClassTable<'a>,
    code: &Coded<'_>,
    plan: &Plan,
    place: usize,
    words: &Words,
) -> Result<Onwards<Row<'a>>, AllocError>
    requires ready { IsReady bases.now.image (code_of code.now) }
    requires table { table.now ≡ bases.now.image }
    requires plan { IsPlan bases.now.image bases.now (code_of code.now) plan.now }
    requires place { place < length code.now.body.now.units }
    requires words { AreWords bases.now words.now }
    requires fits { fits_at bases.now.image (code_of code.now) place (state_of bases.now words.now) }
    ensures { IfOk result (λ onwards. onwards ≡ map (onward_kept bases.now) (onward_through bases.now.image (code_of code.now) (before_by plan.now.marks.items) (addresses (code_of code.now)) place (state_of bases.now words.now))) }
{
    let mut onwards = Onwards::none(alloc);
    let mut at = place;
    let mut words = words.copy()?;
    loop {
        let ways = ways_at(plan, at);
        let targets = ways.targets.items();
        push_entry(bases, table, code, &words, ways.covering, &mut onwards)?;
        words = after_step(bases, code, plan, at, words)?;
        match follows(plan, at, targets) {
            Some(next) => at = next,
            None => {
                push_targets(bases, table, words, targets, &mut onwards)?;
                return Ok(onwards);
            }
        }
    }
}

/// The instruction that follows one in straight code.
fn follows(plan: &Plan, at: usize, targets: &[u32]) -> Option<usize>
    ensures { result ≡ follows_in plan.now.marks.items targets.now at }
{
    if targets.len() == 1 {
        follows_at(plan, at, targets[0] as usize)
    } else {
        None
    }
}

/// An address, where it follows another in straight code.
fn follows_at(plan: &Plan, at: usize, to: usize) -> Option<usize>
    ensures { result ≡ follows_if plan.now.marks.items at to }
{
    match before(plan, to) {
        Some(before) if before == at => Some(to),
        _ => None,
    }
}

/// The address before one in straight code.
pub fn before(plan: &Plan, to: usize) -> Option<usize>
    ensures { result ≡ before_by plan.now.marks.items to }
{
    match plan.marks.get(to) {
        Some(Mark::After(before)) => Some(*before),
        _ => None,
    }
}

/// The ways on from the instruction at an address.
fn ways_at(plan: &Plan, place: usize) -> &Ways
    requires within { place < length plan.now.ways.items }
    requires there { (w : WaysValue) × (slice_index_or plan.now.ways.items place None ≡ Some w) }
    ensures { slice_index_or plan.now.ways.items place None ≡ Some result.now }
{
    match &plan.ways[place] {
        Some(ways) => ways,
        None => unreachable!(),
    }
}

/// The step of the instruction at an address.
fn step_at(plan: &Plan, place: usize) -> Step
    requires within { place < length plan.now.steps.items }
    requires there { (s : StepValue) × (slice_index_or plan.now.steps.items place None ≡ Some s) }
    ensures { slice_index_or plan.now.steps.items place None ≡ Some result }
{
    match &plan.steps[place] {
        Some(step) => *step,
        None => unreachable!(),
    }
}

/// The ways to the handlers of a try entry.
fn hops_from(plan: &Plan, entry: usize) -> &[Hop]
    ensures { result.now ≡ slice_index_or plan.now.hops.items entry [] }
{
    match plan.hops.get(entry) {
        Some(hops) => hops.items(),
        None => &[],
    }
}

/// The words after the instruction at an address.
pub fn after_step(
    bases: &Bases<'_>,
    code: &Coded<'_>,
    plan: &Plan,
    place: usize,
    words: Words,
) -> Result<Words, AllocError>
    requires ready { IsReady bases.now.image (code_of code.now) }
    requires plan { IsPlan bases.now.image bases.now (code_of code.now) plan.now }
    requires place { place < length code.now.body.now.units }
    requires words { AreWords bases.now words }
    requires fits { fits_at bases.now.image (code_of code.now) place (state_of bases.now words) }
    ensures words { IfOk result (AreWords bases.now) }
    ensures state { (x : At) → fetch bases.now.image code.now.method.id.0 place ≡ Some x → IfOk result (λ w. state_of bases.now w ≡ out bases.now.image (method_of code.now.method) place x.op (state_of bases.now words)) }
{
    let step = step_at(plan, place);
    after(plan.own, plan.steps.as_slice(), &step, words)
}

/// Adds what goes on to targets.
fn push_targets<'a>(
    bases: &'a Bases<'a>,
    table: &'a ClassTable<'a>,
    words: Words,
    targets: &[u32],
    onwards: &mut Onwards<Row<'a>>,
) -> Result<(), AllocError>
    requires table { table.now ≡ bases.now.image }
    requires words { AreWords bases.now words }
    ensures { OnOk result (onwards.new ≡ onwards.old ++ map (to_target bases.now (state_of bases.now words)) targets.now) }
{
    onwards.push_all(targets, Row::new(bases, table, words))
}

/// Adds what goes on to the try entry that covers an instruction, where one does.
fn push_entry<'a>(
    bases: &'a Bases<'a>,
    table: &'a ClassTable<'a>,
    code: &Coded<'_>,
    words: &Words,
    covering: Option<usize>,
    onwards: &mut Onwards<Row<'a>>,
) -> Result<(), AllocError>
    requires table { table.now ≡ bases.now.image }
    requires words { AreWords bases.now words.now }
    requires inside { IfSome covering (λ entry. entry < length code.now.body.now.tries) }
    ensures { OnOk result (onwards.new ≡ onwards.old ++ map (onward_kept bases.now) (hands_on (code_of code.now) (state_of bases.now words.now) covering)) }
{
    if let Some(entry) = covering {
        let row = Row::new(bases, table, handed(bases, words)?);
        onwards.push(place_of(code, entry), row)?;
    }
    Ok(())
}

/// How many places there are: one for each unit, and behind them one for each try entry.
pub fn place_count(code: &Coded<'_>) -> usize
    ensures { result ≡ addresses (code_of code.now) + length code.now.body.now.tries }
{
    let body = code.body;
    let tries = body.tries.items();
    units_of(code).len() + tries.len()
}

/// The place of a try entry.
fn place_of(code: &Coded<'_>, entry: usize) -> usize
    requires { entry < length code.now.body.now.tries }
    ensures { result ≡ addresses (code_of code.now) + entry }
{
    let body = code.body;
    let _tries = body.tries.items();
    units_of(code).len() + entry
}

/// What handlers take over of words.
fn handed(bases: &Bases<'_>, words: &Words) -> Result<Words, AllocError>
    requires { AreWords bases.now words.now }
    ensures words { IfOk result (AreWords bases.now) }
    ensures state { IfOk result (λ w. state_of bases.now w ≡ handed (state_of bases.now words.now)) }
{
    Ok(Words {
        regs: words.regs.clone()?,
        result: PendingWord::None,
        caught: None,
        this_pending: words.this_pending,
    })
}

/// What goes on to handlers.
fn to_handlers<'a>(
    alloc: Global,
    bases: &'a Bases<'a>,
    table: &'a ClassTable<'a>,
    words: &Words,
    hops: &[Hop],
) -> Result<Onwards<Row<'a>>, AllocError>
    requires table { table.now ≡ bases.now.image }
    requires words { AreWords bases.now words.now }
    requires hops { All (λ h. IsNumbered bases.now h.caught) hops.now }
    ensures { IfOk result (λ onwards. onwards ≡ map (to_handler bases.now (state_of bases.now words.now)) hops.now) }
{
    let mut onwards = Onwards::none(alloc);
    for hop in hops {
        let row = Row::new(bases, table, caught(words, hop.caught)?);
        onwards.push(hop.to as usize, row)?;
    }
    Ok(onwards)
}
