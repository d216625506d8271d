// Joins of register types and of states.
ghost use Rattle.std.specs.Prelude.{◌≡◌, IfOk, length};
ghost use Rattle.dv_typing.specs.Joins.{join_caught as caught_of_both, join_classes as classes_of_both, join_result as result_of_both, join_type, join_state, joined};

use crate::order::le;
use dv_defs::{Image, Seq, Ty};
use dv_image::common_super;
use dv_typing::{PendingType, RegState, RegType};
use std::alloc::{AllocError, Global};

/// The least register type above two.
#[tactic(auto, using(crate::proofs::Same::equal_join))]
pub fn join_types(
    alloc: Global,
    image: &Image,
    a: &RegType,
    b: &RegType,
) -> Result<RegType, AllocError>
    ensures { IfOk result (λ t. t ≡ join_type image.now a.now b.now) }
{
    if a == b || le(image, a, b) {
        return b.clone();
    }
    if le(image, b, a) {
        return a.clone();
    }
    join_classes(alloc, image, a, b)
}

/// The nearest common superclass of two classes.
fn join_classes(
    alloc: Global,
    image: &Image,
    a: &RegType,
    b: &RegType,
) -> Result<RegType, AllocError>
    ensures { IfOk result (λ t. t ≡ classes_of_both image.now a.now b.now) }
{
    match (a, b) {
        (RegType::Class(class), RegType::Class(other)) => {
            Ok(RegType::Class(common_super(alloc, image, class, other)?))
        }
        _ => Ok(RegType::Conflict),
    }
}

/// The least state above two with equally many registers.
pub fn join(
    alloc: Global,
    image: &Image,
    a: &RegState,
    b: &RegState,
) -> Result<RegState, AllocError>
    requires { length a.now.regs ≡ length b.now.regs }
    ensures { IfOk result (λ s. s ≡ join_state image.now a.now b.now) }
{
    let regs = join_registers(alloc, image, a.regs.items(), b.regs.items())?;
    Ok(RegState {
        regs: Seq::of(regs),
        result: join_results(&a.result, &b.result)?,
        caught: join_caught(alloc, image, &a.caught, &b.caught)?,
        this_pending: a.this_pending || b.this_pending,
    })
}

/// The joins of the registers, one by one.
#[tactic(auto, using(crate::proofs::Registers::joined_on, crate::proofs::Registers::joined_end))]
fn join_registers(
    alloc: Global,
    image: &Image,
    a: &[RegType],
    b: &[RegType],
) -> Result<Vec<RegType>, AllocError>
    requires { length a.now ≡ length b.now }
    ensures { IfOk result (λ ts. ts.items ≡ joined image.now a.now b.now) }
{
    let mut types = Vec::with_capacity(alloc, a.len())?;
    for i in 0..a.len() {
        types.push(join_types(alloc, image, &a[i], &b[i])?)?;
    }
    Ok(types)
}

/// A pending result that both have.
fn join_results(a: &PendingType, b: &PendingType) -> Result<PendingType, AllocError>
    ensures { IfOk result (λ p. p ≡ result_of_both a.now b.now) }
{
    match (a, b) {
        (PendingType::One(ty), PendingType::One(other)) if ty == other => {
            Ok(PendingType::One(other.clone()?))
        }
        (PendingType::Long, PendingType::Long) => Ok(PendingType::Long),
        _ => Ok(PendingType::None),
    }
}

/// The nearest common superclass of the caught types, where both have one.
fn join_caught(
    alloc: Global,
    image: &Image,
    a: &Option<Ty>,
    b: &Option<Ty>,
) -> Result<Option<Ty>, AllocError>
    ensures { IfOk result (λ t. t ≡ caught_of_both image.now a.now b.now) }
{
    match (a, b) {
        (Some(class), Some(other)) => Ok(Some(common_super(alloc, image, class, other)?)),
        _ => Ok(None),
    }
}
