// States between heads of straight code.
ghost use Rattle.std.specs.Prelude.{◌≡◌, ◌<◌, ◌≤◌, IfOk, IfSome, OnOk, length};
ghost use Rattle.law_infer.specs.Flowing.{IsReady};
ghost use Rattle.law_gather.specs.Gathered.{addresses, fits_gathered};
ghost use Rattle.law_blocks.proofs.Filled.{IsFilled};
ghost use Rattle.dv_worklist.specs.Beside.{alone, fits_beside};
ghost use Rattle.dv_worklist.specs.Flow.{assigned};
ghost use Rattle.dv_ops.specs.Meaning.{code_of};
ghost use Rattle.dv_plan.specs.Marks.{before_by};
ghost use Rattle.dv_plan.specs.Plans.{IsPlan};
ghost use Rattle.dv_infer.specs.Filling.{FitsAll, IsFilledAt, IsRowAfter};

use crate::onward::{after_step, before};
use dv_bases::Bases;
use dv_ops::{Coded, units_of};
use dv_plan::Plan;
use dv_types::{ClassTable, Row};
use std::alloc::AllocError;

/// Fills in the rows between heads of straight code: each is what the instruction before it makes of its row.
pub fn fill<'a>(
    bases: &'a Bases<'a>,
    table: &'a ClassTable<'a>,
    code: &Coded<'_>,
    plan: &Plan,
    rows: &mut Vec<Option<Row<'a>>>,
) -> Result<(), AllocError>
    requires ready { IsReady bases.now.image (code_of code.now) }
    requires table { table.now ≡ bases.now.image }
    requires plan { IsPlan bases.now.image bases.now (code_of code.now) plan.now }
    requires long { addresses (code_of code.now) ≤ length rows.old.items }
    requires fit { FitsAll bases.now (code_of code.now) rows.old.items }
    ensures count { OnOk result (length rows.new.items ≡ length rows.old.items) }
    ensures filled { OnOk result (IsFilled bases.now.image (code_of code.now) (before_by plan.now.marks.items) (assigned (alone rows.old.items)) (assigned (alone rows.new.items))) }
{
    for at in 0..units_of(code).len() {
        fill_at(bases, table, code, plan, at, rows)?;
    }
    Ok(())
}

/// Fills in the row at an address, where it is no head.
fn fill_at<'a>(
    bases: &'a Bases<'a>,
    table: &'a ClassTable<'a>,
    code: &Coded<'_>,
    plan: &Plan,
    at: usize,
    rows: &mut Vec<Option<Row<'a>>>,
) -> Result<(), AllocError>
    requires ready { IsReady bases.now.image (code_of code.now) }
    requires table { table.now ≡ bases.now.image }
    requires plan { IsPlan bases.now.image bases.now (code_of code.now) plan.now }
    requires at { at < addresses (code_of code.now) }
    requires long { addresses (code_of code.now) ≤ length rows.old.items }
    requires fit { FitsAll bases.now (code_of code.now) rows.old.items }
    ensures { OnOk result (IsFilledAt bases.now (code_of code.now) at (before_by plan.now.marks.items at) rows.old.items rows.new.items) }
{
    if let Some(from) = before(plan, at) {
        let row = row_after(bases, table, code, plan, from, &rows[from])?;
        rows[at] = row;
    }
    Ok(())
}

/// The row behind an instruction.
fn row_after<'a>(
    bases: &'a Bases<'a>,
    table: &'a ClassTable<'a>,
    code: &Coded<'_>,
    plan: &Plan,
    at: usize,
    row: &Option<Row<'a>>,
) -> Result<Option<Row<'a>>, AllocError>
    requires ready { IsReady bases.now.image (code_of code.now) }
    requires table { table.now ≡ bases.now.image }
    requires plan { IsPlan bases.now.image bases.now (code_of code.now) plan.now }
    requires at { at < addresses (code_of code.now) }
    requires fits { IfSome row.now (fits_beside bases.now (fits_gathered bases.now.image (code_of code.now)) at) }
    ensures { IfOk result (IsRowAfter bases.now (code_of code.now) at row.now) }
{
    match row {
        Some(row) => {
            let before = row.words().copy()?;
            let words = after_step(bases, code, plan, at, before)?;
            Ok(Some(Row::new(bases, table, words)))
        }
        None => Ok(None),
    }
}
