// The registers that an instruction names.
ghost use Rattle.std.specs.Prelude.{◌≡◌, ◌<◌, IfSome, slice_get};
ghost use Rattle.dv_defs.specs.Op.{named_registers};

use dv_defs::Regs;

/// The register at a place among those that are named.
#[tactic(auto, using(crate::proofs::RegisterLists::counted_up, crate::proofs::RegisterLists::counted_out, crate::proofs::RegisterLists::taken, crate::proofs::RegisterLists::taken_out))]
pub fn register_at(named: &Regs, place: usize) -> Option<u32>
    ensures place { result ≡ slice_get (named_registers named.now) place }
    ensures few { IfSome result (λ _. place < 256) }
{
    if place >= usize::from(named.count) {
        return None;
    }
    if named.range {
        return Some(u32::from(named.first[0]) + place as u32);
    }
    match named.first.get(place) {
        Some(register) => Some(u32::from(*register)),
        None => None,
    }
}
