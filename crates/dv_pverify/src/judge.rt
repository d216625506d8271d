// Methods judged one after another.
ghost use Rattle.std.specs.Prelude.{◌≡◌, ◌≤◌, ◌<◌, ◌+◌, ◌^◌, ◌++◌, ◌∷◌, [], length, IfOk, IsSome, OnOk};
ghost use Rattle.dv_defs.specs.Op.{code_at};
ghost use Rattle.dv_pverify.specs.Judging.{AreJudged, Judges};

use dv_defs::{Fault, Image, MethodId, Seq};
use dv_infer::{InferError, infer_by};
use dv_io::{Gate, NoGate};
use dv_ops::coded_at;
use dv_rules::Map;
use dv_types::ClassTable;
use std::alloc::{AllocError, Global};

/// The maps of methods, by number, and their faults.
#[derive(Drop)]
pub struct Judged {
    pub maps: Vec<Map>,
    pub faults: Vec<Fault>,
}

/// Judges all methods of an image, one after another.
pub fn judge_one_by_one(alloc: Global, image: &Image) -> Result<Judged, AllocError>
    ensures judged { IfOk result (λ j. AreJudged image.now 0 j.maps.items j.faults.items) }
    ensures count { IfOk result (λ j. length j.maps.items ≡ length image.now.methods) }
{
    let table = ClassTable::new(alloc, image)?;
    judge_range(alloc, image, &table, &NoGate, 0, count_of(image))
}

/// The number of an image's methods.
pub fn count_of(image: &Image) -> u32
    ensures { result ≡ length image.now.methods }
{
    let methods = image.methods.items();
    methods.len() as u32
}

/// Judges so many methods from one on, one after another. The gate is told of each before it is judged.
#[tactic(auto, using(crate::proofs::Judged::judged_one))]
pub fn judge_range<G: Gate>(
    alloc: Global,
    image: &Image,
    table: &ClassTable<'_>,
    gate: &G,
    from: u32,
    count: u32,
) -> Result<Judged, AllocError>
    requires table { table.now ≡ image.now }
    requires range { from + count ≤ length image.now.methods }
    requires fits { from + count < 2 ^ 32 }
    ensures judged { IfOk result (λ j. AreJudged image.now from j.maps.items j.faults.items) }
    ensures count { IfOk result (λ j. length j.maps.items ≡ count) }
{
    let mut judged = Judged {
        maps: Vec::new(alloc),
        faults: Vec::new(alloc),
    };
    for method in from..from + count {
        gate.verifying(method);
        let (map, faults) = judge(alloc, image, table, MethodId(method))?;
        add(&mut judged, map, faults)?;
    }
    Ok(judged)
}

/// Adds what a method gave.
fn add(judged: &mut Judged, map: Map, faults: Vec<Fault>) -> Result<(), AllocError>
    ensures maps { OnOk result (judged.new.maps.items ≡ judged.old.maps.items ++ map ∷ []) }
    ensures faults { OnOk result (judged.new.faults.items ≡ judged.old.faults.items ++ faults.items) }
{
    let mut faults = faults;
    judged.maps.push(map)?;
    judged.faults.append(&mut faults)?;
    Ok(())
}

/// The map of a method and its faults. A method without a body has an empty map, and so has one with faults.
fn judge(
    alloc: Global,
    image: &Image,
    table: &ClassTable<'_>,
    method: MethodId,
) -> Result<(Map, Vec<Fault>), AllocError>
    requires table { table.now ≡ image.now }
    ensures { IfOk result (λ r. Judges image.now (code_at image.now method.0) r.0 r.1.items) }
{
    match coded_at(image, method) {
        Some(_) => judge_body(alloc, image, table, method),
        None => Ok((empty_map(alloc), Vec::new(alloc))),
    }
}

/// The same of a method with a body.
fn judge_body(
    alloc: Global,
    image: &Image,
    table: &ClassTable<'_>,
    method: MethodId,
) -> Result<(Map, Vec<Fault>), AllocError>
    requires table { table.now ≡ image.now }
    requires body { IsSome (code_at image.now method.0) }
    ensures { IfOk result (λ r. Judges image.now (code_at image.now method.0) r.0 r.1.items) }
{
    match infer_by(alloc, image, table, method) {
        Ok(map) => Ok((map, Vec::new(alloc))),
        Err(InferError::Faults(faults)) => Ok((empty_map(alloc), faults.into_vec())),
        Err(InferError::Memory) => Err(AllocError),
    }
}

fn empty_map(alloc: Global) -> Map {
    Map {
        states: Seq::of(Vec::new(alloc)),
    }
}
