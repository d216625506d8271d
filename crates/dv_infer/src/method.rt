// The least assignment.
ghost use Rattle.std.specs.Prelude.{◌≡◌, ◌≢◌, [], Some, IfOk, IsSome, length, option_map};
ghost use Rattle.dv_typing.specs.Accepting.{AreFaults, IsAcceptedMethod, static_places};
ghost use Rattle.dv_typing.specs.Flow.{IsLeast, IsTyping};
ghost use Rattle.dv_defs.specs.Op.{Code, code_at};
ghost use Rattle.law_infer.specs.Flowing.{IsReady, fits_at, flow_of};
ghost use Rattle.dv_worklist.specs.Beside.{alone};
ghost use Rattle.dv_worklist.specs.Flow as worklist;
ghost use Rattle.dv_worklist.specs.Flow.{AllFit, assigned};
ghost use Rattle.dv_ops.specs.Meaning.{code_of};
ghost use Rattle.dv_rules.specs.Verified.{typing_of};
ghost use Rattle.dv_plan.specs.Plans.{IsPlan};
ghost use Rattle.dv_infer.specs.Errors.{IfFaults};
ghost use Rattle.dv_infer.specs.Judged.{AreJudged, IsJudged};

use crate::errors::InferError;
use crate::faults::typing_faults;
use crate::filling::fill;
use crate::flow::MethodFlow;
use crate::states::states_of;
use crate::work::lengths_of;
use dv_bases::Bases;
use dv_defs::{Image, MethodId, Seq};
use dv_ops::{Coded, coded_at, units_of};
use dv_plan::{Plan, plan_of};
use dv_rules::Map;
use dv_static::static_faults;
use dv_types::{ClassTable, Row};
use dv_worklist::least;
use std::alloc::{AllocError, Global};

/// The least typing of a method's body: a state for each instruction that can be reached.
///
/// # Errors
///
/// `Faults` exactly where the body breaks a static rule or has no typing: the method's faults. `Memory`.
pub fn infer(alloc: Global, image: &Image, method: MethodId) -> Result<Map, InferError>
    requires body { IsSome (code_at image.now method.0) }
    ensures unbroken { (code : Code) → code_at image.now method.0 ≡ Some code → IfOk result (λ _. static_places image.now code ≡ []) }
    ensures typing { (code : Code) → code_at image.now method.0 ≡ Some code → IfOk result (λ m. IsTyping image.now code (typing_of m)) }
    ensures faultless { (code : Code) → code_at image.now method.0 ≡ Some code → IfOk result (λ _. AreFaults image.now code []) }
    ensures least { (code : Code) → code_at image.now method.0 ≡ Some code → IfOk result (λ m. IsLeast image.now code (typing_of m)) }
    ensures faults { (code : Code) → code_at image.now method.0 ≡ Some code → IfFaults result (λ fs. AreFaults image.now code fs) }
    ensures some { IfFaults result (λ fs. fs ≢ []) }
    ensures refused { (code : Code) → code_at image.now method.0 ≡ Some code → IfFaults result (λ _. IsAcceptedMethod image.now code → ⊥) }
{
    let table = ClassTable::new(alloc, image)?;
    infer_by(alloc, image, &table, method)
}

/// The same by a table of the image's classes, which serves for each of its methods.
///
/// # Errors
///
/// As `infer`.
pub fn infer_by(
    alloc: Global,
    image: &Image,
    table: &ClassTable<'_>,
    method: MethodId,
) -> Result<Map, InferError>
    requires table { table.now ≡ image.now }
    requires body { IsSome (code_at image.now method.0) }
    ensures unbroken { (code : Code) → code_at image.now method.0 ≡ Some code → IfOk result (λ _. static_places image.now code ≡ []) }
    ensures typing { (code : Code) → code_at image.now method.0 ≡ Some code → IfOk result (λ m. IsTyping image.now code (typing_of m)) }
    ensures faultless { (code : Code) → code_at image.now method.0 ≡ Some code → IfOk result (λ _. AreFaults image.now code []) }
    ensures least { (code : Code) → code_at image.now method.0 ≡ Some code → IfOk result (λ m. IsLeast image.now code (typing_of m)) }
    ensures faults { (code : Code) → code_at image.now method.0 ≡ Some code → IfFaults result (λ fs. AreFaults image.now code fs) }
    ensures some { IfFaults result (λ fs. fs ≢ []) }
    ensures refused { (code : Code) → code_at image.now method.0 ≡ Some code → IfFaults result (λ _. IsAcceptedMethod image.now code → ⊥) }
{
    let faults = static_faults(alloc, image, method)?;
    if faults.is_empty() {
        judge_unbroken(alloc, image, table, method)
    } else {
        Err(InferError::Faults(Seq::of(faults)))
    }
}

/// The same of a body that breaks no static rule.
fn judge_unbroken(
    alloc: Global,
    image: &Image,
    table: &ClassTable<'_>,
    method: MethodId,
) -> Result<Map, InferError>
    requires table { table.now ≡ image.now }
    requires body { IsSome (code_at image.now method.0) }
    requires unbroken { (code : Code) → code_at image.now method.0 ≡ Some code → static_places image.now code ≡ [] }
    ensures typing { (code : Code) → code_at image.now method.0 ≡ Some code → IfOk result (IsJudged image.now code) }
    ensures faults { (code : Code) → code_at image.now method.0 ≡ Some code → IfFaults result (AreJudged image.now code) }
    ensures some { IfFaults result (λ fs. fs ≢ []) }
{
    let code = coded_at(image, method).unwrap();
    let _classes = &image.classes;
    judge(alloc, image, table, &code)
}

/// The same by the method's plan, which is made for it.
fn judge(
    alloc: Global,
    image: &Image,
    table: &ClassTable<'_>,
    code: &Coded<'_>,
) -> Result<Map, InferError>
    requires table { table.now ≡ image.now }
    requires ready { IsReady image.now (code_of code.now) }
    ensures typing { IfOk result (IsJudged image.now (code_of code.now)) }
    ensures faults { IfFaults result (AreJudged image.now (code_of code.now)) }
{
    let mut bases = Bases::new(alloc, image)?;
    let plan = plan_of(alloc, &mut bases, image, code)?;
    judge_by(alloc, image, table, &bases, code, &plan)
}

/// The same by the least assignment.
fn judge_by(
    alloc: Global,
    image: &Image,
    table: &ClassTable<'_>,
    bases: &Bases<'_>,
    code: &Coded<'_>,
    plan: &Plan,
) -> Result<Map, InferError>
    requires image { image.now ≡ bases.now.image }
    requires table { table.now ≡ bases.now.image }
    requires ready { IsReady bases.now.image (code_of code.now) }
    requires plan { IsPlan bases.now.image bases.now (code_of code.now) plan.now }
    ensures typing { IfOk result (IsJudged image.now (code_of code.now)) }
    ensures faults { IfFaults result (AreJudged image.now (code_of code.now)) }
{
    let lengths = lengths_of(alloc, plan)?;
    let flow = MethodFlow::new(alloc, bases, table, code, plan, &lengths);
    let mut rows = least(&flow, alloc)?;
    fill(bases, table, code, plan, &mut rows)?;
    rows.truncate(units_of(code).len());
    judge_rows(alloc, image, code, rows)
}

/// The same by the rows of the least assignment: their states are made where none has a fault.
fn judge_rows(
    alloc: Global,
    image: &Image,
    code: &Coded<'_>,
    rows: Vec<Option<Row<'_>>>,
) -> Result<Map, InferError>
    requires ready { IsReady image.now (code_of code.now) }
    requires count { length rows.items ≡ length code.now.body.now.units }
    requires fit { AllFit (fits_at image.now (code_of code.now)) (assigned (alone rows.items)) }
    requires least { worklist.IsLeast (flow_of image.now (code_of code.now)) (assigned (alone rows.items)) }
    ensures typing { IfOk result (IsJudged image.now (code_of code.now)) }
    ensures faults { IfFaults result (AreJudged image.now (code_of code.now)) }
{
    let faults = typing_faults(alloc, image, code, &rows)?;
    if faults.is_empty() {
        Ok(Map {
            states: Seq::of(states_of(alloc, rows)?),
        })
    } else {
        Err(InferError::Faults(Seq::of(faults)))
    }
}
