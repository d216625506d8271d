// The order of register types and of states (AOSP, "Dalvik bytecode constraints"; JVMS 4.10.1.2).
ghost use Rattle.std.specs.Prelude.{◌≡◌, ◌↔◌, IsTrue};
ghost use Rattle.dv_typing.specs.RegTypes.{under, IsBelow};
ghost use Rattle.dv_types.specs.Under.{caught_under, pending_under, regs_under, state_under};

use dv_defs::{Image, Ty};
use dv_image::sub;
use dv_typing::{PendingType, RegState, RegType};

/// Whether a register type is under another: each value of the one is one of the other.
pub fn le(image: &Image, a: &RegType, b: &RegType) -> bool
    ensures { result ≡ under image.now a.now b.now }
{
    match (a, b) {
        (_, RegType::Conflict) => true,
        (RegType::Zero, RegType::Zero | RegType::Int | RegType::Class(_)) => true,
        (RegType::Int, RegType::Int) => true,
        (RegType::LongLo, RegType::LongLo) => true,
        (RegType::LongHi, RegType::LongHi) => true,
        (RegType::Class(class), RegType::Class(above)) => sub(image, class, above),
        (RegType::Uninit(at), RegType::Uninit(other)) => at == other,
        (RegType::UninitThis, RegType::UninitThis) => true,
        _ => false,
    }
}

/// Whether a state is under another: each register is, the pending result is equal or none above, the caught type is under or absent
/// above, and `this` is pending only where it is above.
#[tactic(auto, using(crate::proofs::Below::below_is_tested))]
pub fn is_below(image: &Image, a: &RegState, b: &RegState) -> bool
    ensures test { result ≡ state_under image.now a.now b.now }
    ensures below { IsTrue result ↔ IsBelow image.now a.now b.now }
{
    is_state_under(image, a, b)
}

/// The test of it, part by part.
fn is_state_under(image: &Image, a: &RegState, b: &RegState) -> bool
    ensures { result ≡ state_under image.now a.now b.now }
{
    are_under(image, a.regs.items(), b.regs.items())
        && is_pending_under(&a.result, &b.result)
        && is_caught_under(image, &a.caught, &b.caught)
        && (!a.this_pending || b.this_pending)
}

/// Whether there are equally many registers, each under the other's.
#[tactic(auto, using(crate::proofs::Registers::under_on, crate::proofs::Registers::under_fails, crate::proofs::Registers::under_end, crate::proofs::Registers::under_count))]
fn are_under(image: &Image, a: &[RegType], b: &[RegType]) -> bool
    ensures { result ≡ regs_under image.now a.now b.now }
{
    if a.len() != b.len() {
        return false;
    }
    for i in 0..a.len() {
        if !le(image, &a[i], &b[i]) {
            return false;
        }
    }
    true
}

/// Whether the pending result is equal, or none above.
fn is_pending_under(a: &PendingType, b: &PendingType) -> bool
    ensures { result ≡ pending_under a.now b.now }
{
    match (a, b) {
        (_, PendingType::None) => true,
        (PendingType::One(ty), PendingType::One(above)) => ty == above,
        (PendingType::Long, PendingType::Long) => true,
        _ => false,
    }
}

/// Whether the caught type is under the other, or absent above.
fn is_caught_under(image: &Image, a: &Option<Ty>, b: &Option<Ty>) -> bool
    ensures { result ≡ caught_under image.now a.now b.now }
{
    match (a, b) {
        (_, None) => true,
        (Some(ty), Some(above)) => sub(image, ty, above),
        _ => false,
    }
}
