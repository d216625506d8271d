// The states of a method as they flow.
ghost use Rattle.std.specs.Prelude.{◌≡◌};
ghost use Rattle.law_infer.specs.Flowing.{IsReady};
ghost use Rattle.dv_ops.specs.Meaning.{code_of};
ghost use Rattle.dv_plan.specs.Plans.{IsPlan};

use crate::leap::leap;
use crate::onward::{onward, place_count};
use crate::work::{patience, work_at};
use dv_bases::Bases;
use dv_ops::Coded;
use dv_plan::Plan;
use dv_types::{ClassTable, Row};
use dv_worklist::{Flow, Onwards};
use std::alloc::{AllocError, Global};
use std::marker::Model;

/// A method of a linked image with a body that breaks no static rule, and what its inference goes by.
#[derive(Drop)]
pub struct MethodFlow<'a> {
    alloc: Global,
    bases: &'a Bases<'a>,
    table: &'a ClassTable<'a>,
    code: &'a Coded<'a>,
    plan: &'a Plan,
    lengths: &'a [usize],
}

impl<'a> Model for MethodFlow<'a> {
    ghost use Rattle.std.specs.Prelude.{◌≡◌};
    ghost use Rattle.law_infer.specs.Flowing.{IsReady};
    ghost use Rattle.dv_ops.specs.Meaning.{code_of};
    ghost use Rattle.dv_plan.specs.Plans.{IsPlan};
    ghost use Rattle.dv_infer.specs.Owned.{NamedCode};

    ghost Value = { NamedCode };

    ghost view = { λ m. record { names = m.bases.now; code = code_of m.code.now; marks = m.plan.now.marks.items } };

    ghost invariant = { λ m. IsReady m.bases.now.image (code_of m.code.now)
        × (m.table.now ≡ m.bases.now.image)
        × IsPlan m.bases.now.image m.bases.now (code_of m.code.now) m.plan.now };
}

impl<'a> MethodFlow<'a> {
    /// The states of a method's body. The lengths are those of its straight code.
    pub fn new(
        alloc: Global,
        bases: &'a Bases<'a>,
        table: &'a ClassTable<'a>,
        code: &'a Coded<'a>,
        plan: &'a Plan,
        lengths: &'a [usize],
    ) -> MethodFlow<'a>
        requires ready { IsReady bases.now.image (code_of code.now) }
        requires table { table.now ≡ bases.now.image }
        requires plan { IsPlan bases.now.image bases.now (code_of code.now) plan.now }
        ensures { result ≡ record { names = bases.now; code = code_of code.now; marks = plan.now.marks.items } }
    {
        MethodFlow {
            alloc,
            bases,
            table,
            code,
            plan,
            lengths,
        }
    }
}

impl<'a> Flow for MethodFlow<'a> {
    type State = Row<'a>;

    ghost use Rattle.dv_worklist.specs.Beside.{fits_beside, flow_beside, rank_beside};
    ghost use Rattle.law_infer.specs.Flowing.{rank_of, top_of};
    ghost use Rattle.law_blocks.specs.Blocks.{blocks_flow, fits_blocks};
    ghost use Rattle.dv_plan.specs.Marks.{before_by};

    ghost graph = { λ m. flow_beside m.names (blocks_flow m.names.image m.code (before_by m.marks)) };

    ghost fits = { λ m. fits_beside m.names (fits_blocks m.names.image m.code (before_by m.marks)) };

    ghost rank = { λ m. rank_beside (rank_of m.names.image m.code) };

    ghost top = { λ m. top_of m.names.image m.code };

    fn size(&self) -> usize {
        place_count(self.code)
    }

    fn entry(&self) -> Result<Row<'a>, AllocError> {
        let plan = self.plan;
        let entry = plan.entry.copy()?;
        Ok(Row::new(self.bases, self.table, entry))
    }

    fn onward(&self, place: usize, row: &Row<'a>) -> Result<Onwards<Row<'a>>, AllocError> {
        onward(
            self.alloc, self.bases, self.table, self.code, self.plan, place, row,
        )
    }

    fn copy(&self, row: &Row<'a>) -> Result<Row<'a>, AllocError> {
        row.copy()
    }

    fn raise(&self, _place: usize, row: &mut Row<'a>, by: &Row<'a>) -> Result<bool, AllocError> {
        Ok(row.raise(by))
    }

    fn work(&self, place: usize) -> usize {
        work_at(self.code, self.lengths, place)
    }

    fn patience(&self) -> usize {
        patience(self.code)
    }

    fn accelerate(
        &self,
        place: usize,
        row: &Row<'a>,
        by: &Row<'a>,
    ) -> Result<Option<Row<'a>>, AllocError> {
        leap(
            self.alloc, self.bases, self.table, self.code, self.plan, place, row, by,
        )
    }
}
