// All methods of an image.
ghost use Rattle.std.specs.Prelude.{◌≡◌, ◌≢◌, [], IfOk, length};
ghost use Rattle.dv_typing.specs.Accepting.{Accepts, AreImageFaults};
ghost use Rattle.dv_pverify.specs.Errors.{IfFaults};
ghost use Rattle.dv_pverify.specs.Judging.{AreJudged};

use crate::errors::VerifyError;
use crate::halves::judge_all;
use crate::judge::{Judged, judge_one_by_one};
use dv_defs::{Image, Seq};
use dv_io::Gate;
use dv_rules::Verified;
use std::alloc::Global;
use std::thread::Threads;

/// Verifies each method with a body, several at a time. The gate is told of each method before it is verified, also of one without a body.
/// What can't be started on a thread of its own is verified by the caller.
///
/// # Errors
///
/// `Faults` exactly where the image isn't accepted: the faults of its methods in their order, and the image unchanged. `Memory`.
pub fn verify_all<R: Threads + Sync, G: Gate + Sync>(
    rt: &R,
    alloc: Global,
    image: Image,
    gate: &G,
) -> Result<Verified, VerifyError>
    ensures same { IfOk result (λ v. v.image ≡ image) }
    ensures accepted { IfOk result (λ _. Accepts image) }
    ensures image { IfFaults result (λ i _. i ≡ image) }
    ensures faults { IfFaults result (λ _ fs. AreImageFaults image fs) }
    ensures some { IfFaults result (λ _ fs. fs ≢ []) }
    ensures refused { IfFaults result (λ _ _. Accepts image → ⊥) }
{
    match judge_all(rt, alloc, &image, gate) {
        Ok(judged) => verdict(image, judged),
        Err(_) => Err(VerifyError::Memory),
    }
}

/// Verifies each method with a body, one after another.
///
/// # Errors
///
/// `Faults` exactly where the image isn't accepted: the faults of its methods in their order, and the image unchanged. `Memory`.
pub fn verify_one_by_one(alloc: Global, image: Image) -> Result<Verified, VerifyError>
    ensures same { IfOk result (λ v. v.image ≡ image) }
    ensures accepted { IfOk result (λ _. Accepts image) }
    ensures image { IfFaults result (λ i _. i ≡ image) }
    ensures faults { IfFaults result (λ _ fs. AreImageFaults image fs) }
    ensures some { IfFaults result (λ _ fs. fs ≢ []) }
    ensures refused { IfFaults result (λ _ _. Accepts image → ⊥) }
{
    match judge_one_by_one(alloc, &image) {
        Ok(judged) => verdict(image, judged),
        Err(_) => Err(VerifyError::Memory),
    }
}

/// Accepted where no method has a fault.
#[tactic(auto, using(crate::proofs::Judged::all_faults, crate::proofs::Judged::is_refused))]
fn verdict(image: Image, judged: Judged) -> Result<Verified, VerifyError>
    requires judged { AreJudged image 0 judged.maps.items judged.faults.items }
    requires count { length judged.maps.items ≡ length image.methods }
    ensures same { IfOk result (λ v. v.image ≡ image) }
    ensures accepted { IfOk result (λ _. Accepts image) }
    ensures image { IfFaults result (λ i _. i ≡ image) }
    ensures faults { IfFaults result (λ _ fs. AreImageFaults image fs) }
    ensures some { IfFaults result (λ _ fs. fs ≢ []) }
    ensures refused { IfFaults result (λ _ _. Accepts image → ⊥) }
{
    let maps = Seq::of(judged.maps);
    let faults = Seq::of(judged.faults);
    if faults.is_empty() {
        Ok(Verified { image, maps })
    } else {
        Err(VerifyError::Faults { image, faults })
    }
}
