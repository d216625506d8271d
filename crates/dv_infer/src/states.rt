// The states that rows say.
ghost use Rattle.std.specs.Prelude.{◌≡◌, IfOk, option_map};
ghost use Rattle.dv_worklist.specs.Beside.{alone};

use dv_types::Row;
use dv_typing::RegState;
use std::alloc::{AllocError, Global};

/// The states of rows. Each row is dropped when its state is made.
pub fn states_of(
    alloc: Global,
    rows: Vec<Option<Row<'_>>>,
) -> Result<Vec<Option<RegState>>, AllocError>
    ensures { IfOk result (λ v. v.items ≡ alone rows.entry.items) }
{
    let mut states = Vec::with_capacity(alloc, rows.len())?;
    for row in rows {
        states.push(state_of(alloc, &row)?)?;
    }
    Ok(states)
}

/// The state of a row, where there is one.
pub fn state_of(alloc: Global, row: &Option<Row<'_>>) -> Result<Option<RegState>, AllocError>
    ensures { IfOk result (λ s. s ≡ option_map (λ r. r.state) row.now) }
{
    match row {
        Some(row) => Ok(Some(row.state(alloc)?)),
        None => Ok(None),
    }
}
