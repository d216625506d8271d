// How much work a turn of the worklist is. Nothing is promised of it: it says when more is asked for, and not what.

use crate::onward::{before, place_count};
use dv_ops::Coded;
use dv_plan::Plan;
use std::alloc::{AllocError, Global};

// Work in a turn for so many registers, as for one instruction.
const REGISTERS: usize = 16;

// A body for which less work is done is left alone.
const LITTLE: usize = 4_096;

/// How many levels a search may look at: as many as places have registers.
pub fn patience(code: &Coded<'_>) -> usize {
    let body = code.body;
    place_count(code)
        .saturating_mul(usize::from(body.registers))
        .saturating_add(LITTLE)
}

/// The work of a turn at a place.
pub fn work_at(code: &Coded<'_>, lengths: &[usize], place: usize) -> usize {
    let body = code.body;
    let registers = usize::from(body.registers) / REGISTERS + 1;
    match lengths.get(place) {
        Some(length) => length.saturating_add(registers),
        None => registers,
    }
}

/// By address, how many instructions straight code has from there on.
pub fn lengths_of(alloc: Global, plan: &Plan) -> Result<Vec<usize>, AllocError> {
    let mut lengths = vec![in alloc; 1; plan.marks.len()]?;
    add_lengths(plan, &mut lengths);
    Ok(lengths)
}

/// Adds the length of straight code to the one that it follows, last address first.
fn add_lengths(plan: &Plan, lengths: &mut [usize]) {
    for at in (0..lengths.len()).rev() {
        match before(plan, at) {
            Some(from) if from < at => {
                lengths[from] = lengths[from].saturating_add(lengths[at]);
            }
            _ => {}
        }
    }
}
