// What the inference of a method's types goes by.
ghost use Rattle.std.specs.Prelude.{◌≡◌, IfOk, OnOk};
ghost use Rattle.law_flow.specs.Clean.{IsClean};
ghost use Rattle.dv_ops.specs.Meaning.{code_of};
ghost use Rattle.dv_bases.specs.Bases.{IsWider};
ghost use Rattle.dv_plan.specs.Plans.{IsPlan};

use crate::beginnings::beginnings;
use crate::hops::{Hop, hops_of};
use crate::marks::{Mark, marks_of};
use crate::steps::steps_of;
use crate::ways::{Ways, ways_of};
use dv_bases::{Bases, Words};
use dv_defs::{Image, Seq};
use dv_effects::{Step, entry_words, object_word};
use dv_ops::Coded;
use std::alloc::{AllocError, Global};

/// What the inference of a method's types goes by: the state on entry, the word of the method's class, by address each instruction's step and the
/// ways on from it, by try entry the ways to its handlers, and which instructions follow one in straight code.
#[derive(Drop)]
pub struct Plan {
    pub entry: Words,
    pub own: u32,
    pub steps: Vec<Option<Step>>,
    pub ways: Vec<Option<Ways>>,
    pub hops: Vec<Seq<Hop>>,
    pub marks: Vec<Mark>,
}

/// The plan of a method. Classes that it names get numbers.
pub fn plan_of(
    alloc: Global,
    bases: &mut Bases<'_>,
    image: &Image,
    code: &Coded<'_>,
) -> Result<Plan, AllocError>
    requires image { bases.old.image ≡ image.now }
    requires clean { IsClean image.now (code_of code.now) }
    ensures wider { OnOk result (IsWider bases.old bases.new) }
    ensures plan { IfOk result (IsPlan image.now bases.new (code_of code.now)) }
{
    let begins = beginnings(alloc, code)?;
    let ways = ways_of(alloc, image, code, begins.as_slice())?;
    let entry = entry_words(alloc, bases, image, code)?;
    let own = object_word(bases, alloc, image, code.method.info.class)?;
    let hops = hops_of(alloc, bases, code.body)?;
    let marks = marks_of(alloc, ways.as_slice(), hops.as_slice())?;
    let steps = steps_of(alloc, bases, image, code, begins.as_slice())?;
    Ok(Plan {
        entry,
        own,
        steps,
        ways,
        hops,
        marks,
    })
}
