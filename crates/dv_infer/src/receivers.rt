// Receivers of constructor calls.
ghost use Rattle.std.specs.Prelude.{◌≡◌, ℕ, option_map};
ghost use Rattle.law_flow.specs.Clean.{IsClean};
ghost use Rattle.law_flow.specs.Fitting.{StateFits};
ghost use Rattle.dv_ops.specs.Meaning.{code_of, meant, method_of};
ghost use Rattle.dv_demands.specs.Made.{made_for};

use dv_defs::{ClassId, Image};
use dv_ops::{Coded, Op};
use dv_rules::{made_by, receiver_of};
use dv_typing::RegState;

/// The class of the object that a constructor call is to initialise. The places in a state that fits are instructions, so none is looked for.
pub fn made_of(image: &Image, code: &Coded<'_>, op: &Op<'_>, state: &RegState) -> Option<ClassId>
    requires clean { IsClean image.now (code_of code.now) }
    requires fits { StateFits image.now (code_of code.now) state.now }
    ensures { (at : ℕ) → option_map (λ c. c.0) result ≡ made_for image.now (method_of code.now.method) (meant (code_of code.now) at op.now) state.now.regs }
{
    match receiver_of(code, op, state) {
        Some(place) => made_by(image, code, place),
        None => None,
    }
}
