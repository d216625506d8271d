// The typing faults of a method.
ghost use Rattle.std.specs.Prelude.{◌≡◌, ◌++◌, length, Some, IfOk, OnOk, IfSome};
ghost use Rattle.dv_typing.specs.Accepting.{demand_at, fault_at};
ghost use Rattle.dv_typing.specs.Statics.{fetch};
ghost use Rattle.dv_worklist.specs.Beside.{alone};
ghost use Rattle.dv_worklist.specs.Flow.{AllFit, assigned};
ghost use Rattle.law_infer.specs.Flowing.{IsReady, fits_at};
ghost use Rattle.law_infer.specs.Laws.{faults_from};
ghost use Rattle.dv_ops.specs.Meaning.{code_of};

use crate::receivers::made_of;
use crate::states::state_of;
use dv_defs::{Fault, Image, MethodId, Rule};
use dv_demands::ok_of;
use dv_ops::{Coded, op_at, units_of};
use dv_types::Row;
use dv_typing::RegState;
use std::alloc::{AllocError, Global};

/// The demands that the rows of a least assignment fail, by address. Each state is dropped when it is judged: of a method that is refused there are
/// never more.
pub fn typing_faults(
    alloc: Global,
    image: &Image,
    code: &Coded<'_>,
    rows: &[Option<Row<'_>>],
) -> Result<Vec<Fault>, AllocError>
    requires ready { IsReady image.now (code_of code.now) }
    requires count { length rows.now ≡ length code.now.body.now.units }
    requires fit { AllFit (fits_at image.now (code_of code.now)) (assigned (alone rows.now)) }
    ensures { IfOk result (λ v. v.items ≡ faults_from image.now (code_of code.now) (assigned (alone rows.now)) 0 (length code.now.body.now.units)) }
{
    let mut faults = Vec::new(alloc);
    for at in 0..units_of(code).len() {
        let state = state_of(alloc, &rows[at])?;
        let rule = rule_at(image, code, at as u32, &state);
        push_fault(code.method.id, at as u32, rule, &mut faults)?;
    }
    Ok(faults)
}

/// Adds the fault at an address, where a rule is broken there.
fn push_fault(
    method: MethodId,
    at: u32,
    rule: Option<Rule>,
    faults: &mut Vec<Fault>,
) -> Result<(), AllocError>
    ensures { OnOk result (faults.new.items ≡ faults.old.items ++ fault_at method.0 at rule) }
{
    if let Some(rule) = rule {
        faults.push(Fault {
            method,
            address: at,
            rule,
        })?;
    }
    Ok(())
}

/// The rule of the first demand that the state at an address fails; none where no state stands there.
fn rule_at(image: &Image, code: &Coded<'_>, at: u32, state: &Option<RegState>) -> Option<Rule>
    requires ready { IsReady image.now (code_of code.now) }
    requires fits { IfSome state.now (fits_at image.now (code_of code.now) at) }
    ensures { result ≡ demand_at image.now (code_of code.now) (fetch image.now code.now.method.id.0 at) state.now }
{
    match state {
        Some(state) => rule_of(image, code, at, state),
        None => None,
    }
}

/// The rule of the first demand of the instruction at an address that a state fails.
fn rule_of(image: &Image, code: &Coded<'_>, at: u32, state: &RegState) -> Option<Rule>
    requires ready { IsReady image.now (code_of code.now) }
    requires fits { fits_at image.now (code_of code.now) at state.now }
    ensures { result ≡ demand_at image.now (code_of code.now) (fetch image.now code.now.method.id.0 at) (Some state.now) }
{
    let (op, next) = op_at(image, code, at);
    let made = made_of(image, code, &op, state);
    ok_of(image, code, &op, next, made, state)
}
