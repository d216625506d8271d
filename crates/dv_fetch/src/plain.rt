// Operations on registers alone, read off the one unit of their instruction (AOSP, "Dalvik executable instruction formats").
ghost use Rattle.std.specs.Prelude.{◌%◌, ◌∷◌, ℕ, IfSome, List};
ghost use Rattle.dv_defs.specs.Images.{Image as Linked};
ghost use Rattle.dv_defs.specs.Op.{Code};
ghost use Rattle.dv_fetch.specs.Spelled.{Spells};

use dv_ops::Op;
use dv_optable::Width;

/// A return, a monitor's entering or leaving, array-length or throw, by the unit of its instruction; none of another.
pub fn plain_op<'a>(first: u16) -> Option<Op<'a>>
    ensures { IfSome result (λ op. (image : Linked) (code : Code) (at : ℕ) (us : List ℕ) → Spells image code at (first ∷ us) op 1) }
{
    let register = first / 256;
    match first % 256 {
        0x0e => Some(Op::ReturnVoid),
        0x0f => Some(Op::Return(Width::Narrow, register)),
        0x10 => Some(Op::Return(Width::Wide, register)),
        0x11 => Some(Op::Return(Width::Reference, register)),
        0x1d => Some(Op::Enter(register)),
        0x1e => Some(Op::Exit(register)),
        0x21 => Some(Op::ArrayLength(register % 16, register / 16)),
        0x27 => Some(Op::Throw(register)),
        _ => None,
    }
}
