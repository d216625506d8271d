// Invokes of five registers at most, read off the three units of their instruction (AOSP, "Dalvik executable instruction formats", 35c).
ghost use Rattle.std.specs.Prelude.{◌≡◌, ◌≤◌, ◌<◌, ◌%◌, ◌/◌, ◌∷◌, ℕ, IfSome, List, Some as Just, slice_get, take};
ghost use Rattle.dv_defs.specs.Decoding.{five};
ghost use Rattle.dv_defs.specs.Families as family;
ghost use Rattle.dv_defs.specs.Families.{family_at};
ghost use Rattle.dv_defs.specs.Formats.{F35c, format_at};
ghost use Rattle.dv_defs.specs.Op.{named_registers, resolved_method};
ghost use Rattle.dv_ops.specs.Meaning.{code_of, method_of};
ghost use Rattle.dv_units.specs.Tables.{standard_call};
ghost use Rattle.dv_fetch.specs.Spelled.{Spells};

use dv_defs::{Image, Regs};
use dv_ops::{Coded, Method, Op, method_at};
use dv_optable::Call;

/// The method at a place of the method's pool; none past its end.
fn method_named<'a>(image: &'a Image, code: &Coded<'a>, place: usize) -> Option<Method<'a>>
    ensures { IfSome result (λ m. resolved_method image.now (slice_get code.now.method.info.now.methods place) ≡ Just (method_of m)) }
{
    match code.method.info.methods.items().get(place) {
        Some(id) => method_at(image, *id),
        None => None,
    }
}

/// `AGop BBBB FEDC`: the first A of vC, vD, vE, vF and vG.
fn registers(first: u16, third: u16) -> Regs
    ensures count { result.count ≡ first / 256 / 16 }
    ensures named { first / 256 / 16 ≤ 5 → named_registers result ≡ take (first / 256 / 16) (five (first / 256 % 16) third) }
{
    let words = [
        third % 16,
        third / 16 % 16,
        third / 256 % 16,
        third / 4096,
        first / 256 % 16,
    ];
    Regs {
        count: (first / 4096) as u8,
        first: words,
        range: false,
    }
}

/// `AGop BBBB FEDC`: invoke-virtual {vC, vD, vE, vF, vG}, a method of the method's pool, and its kin.
fn invoke<'a>(
    opcode: u8,
    call: Call,
    image: &'a Image,
    code: &Coded<'a>,
    first: u16,
    second: u16,
    third: u16,
) -> Option<Op<'a>>
    requires opcode { first % 256 ≡ opcode }
    requires format { format_at opcode ≡ Just F35c }
    requires family { family_at opcode ≡ Just (family.Invoke (standard_call call)) }
    ensures { IfSome result (λ op. (at : ℕ) (us : List ℕ) → Spells image.now (code_of code.now) at (first ∷ second ∷ third ∷ us) op 3) }
{
    let regs = registers(first, third);
    if regs.count > 5 {
        return None;
    }
    let method = method_named(image, code, usize::from(second))?;
    Some(Op::Invoke(call, regs, method))
}

/// An invoke, by the units of its instruction; none of another, or of more registers.
#[tactic(auto, unfolding(dv_defs::specs::Formats::format_at))]
pub fn invoke_op<'a>(
    image: &'a Image,
    code: &Coded<'a>,
    first: u16,
    second: u16,
    third: u16,
) -> Option<Op<'a>>
    ensures { IfSome result (λ op. (at : ℕ) (us : List ℕ) → Spells image.now (code_of code.now) at (first ∷ second ∷ third ∷ us) op 3) }
{
    match first % 256 {
        0x6e => invoke(0x6e, Call::Virtual, image, code, first, second, third),
        0x6f => invoke(0x6f, Call::Super, image, code, first, second, third),
        0x70 => invoke(0x70, Call::Direct, image, code, first, second, third),
        0x71 => invoke(0x71, Call::Static, image, code, first, second, third),
        0x72 => invoke(0x72, Call::Interface, image, code, first, second, third),
        _ => None,
    }
}
