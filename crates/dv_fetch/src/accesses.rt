// Operations on elements and fields, read off the two units of their instruction (AOSP, "Dalvik executable instruction formats").
ghost use Rattle.std.specs.Prelude.{◌≡◌, ◌%◌, ◌∷◌, ℕ, IfSome, List, Some as Just, slice_get};
ghost use Rattle.dv_defs.specs.Families as family;
ghost use Rattle.dv_defs.specs.Families.{family_at};
ghost use Rattle.dv_defs.specs.Formats.{F21c, F22c, F23x, format_at};
ghost use Rattle.dv_defs.specs.Images.{Image as Linked};
ghost use Rattle.dv_defs.specs.Op.{Code, resolved_field};
ghost use Rattle.dv_ops.specs.Meaning.{code_of, field_of};
ghost use Rattle.dv_units.specs.Tables.{standard_suffix};
ghost use Rattle.dv_fetch.specs.Spelled.{Spells};

use dv_defs::Image;
use dv_ops::{Coded, Field, Op, field_at};
use dv_optable::Suffix;

/// The field at a place of the method's pool; none past its end.
fn named_field<'a>(image: &'a Image, code: &Coded<'a>, place: usize) -> Option<Field<'a>>
    ensures { IfSome result (λ x. resolved_field image.now (slice_get code.now.method.info.now.fields place) ≡ Just (field_of x)) }
{
    match code.method.info.fields.items().get(place) {
        Some(id) => field_at(image, *id),
        None => None,
    }
}

/// `AAop CCBB`: aget vAA, vBB, vCC and its kin.
fn array_get<'a>(opcode: u8, suffix: Suffix, first: u16, second: u16) -> Op<'a>
    requires opcode { first % 256 ≡ opcode }
    requires format { format_at opcode ≡ Just F23x }
    requires family { family_at opcode ≡ Just (family.ArrayGet (standard_suffix suffix)) }
    ensures { (image : Linked) (code : Code) (at : ℕ) (us : List ℕ) → Spells image code at (first ∷ second ∷ us) result 2 }
{
    Op::ArrayGet(suffix, first / 256, second % 256, second / 256)
}

/// `AAop CCBB`: aput vAA, vBB, vCC and its kin.
fn array_put<'a>(opcode: u8, suffix: Suffix, first: u16, second: u16) -> Op<'a>
    requires opcode { first % 256 ≡ opcode }
    requires format { format_at opcode ≡ Just F23x }
    requires family { family_at opcode ≡ Just (family.ArrayPut (standard_suffix suffix)) }
    ensures { (image : Linked) (code : Code) (at : ℕ) (us : List ℕ) → Spells image code at (first ∷ second ∷ us) result 2 }
{
    Op::ArrayPut(suffix, first / 256, second % 256, second / 256)
}

/// `BAop CCCC`: iget vA, vB, a field of the method's pool, and its kin.
fn field_get<'a>(
    opcode: u8,
    suffix: Suffix,
    image: &'a Image,
    code: &Coded<'a>,
    first: u16,
    second: u16,
) -> Option<Op<'a>>
    requires opcode { first % 256 ≡ opcode }
    requires format { format_at opcode ≡ Just F22c }
    requires family { family_at opcode ≡ Just (family.FieldGet (standard_suffix suffix)) }
    ensures { IfSome result (λ op. (at : ℕ) (us : List ℕ) → Spells image.now (code_of code.now) at (first ∷ second ∷ us) op 2) }
{
    let field = named_field(image, code, usize::from(second))?;
    let registers = first / 256;
    Some(Op::FieldGet(suffix, registers % 16, registers / 16, field))
}

/// `BAop CCCC`: iput vA, vB, a field of the method's pool, and its kin.
fn field_put<'a>(
    opcode: u8,
    suffix: Suffix,
    image: &'a Image,
    code: &Coded<'a>,
    first: u16,
    second: u16,
) -> Option<Op<'a>>
    requires opcode { first % 256 ≡ opcode }
    requires format { format_at opcode ≡ Just F22c }
    requires family { family_at opcode ≡ Just (family.FieldPut (standard_suffix suffix)) }
    ensures { IfSome result (λ op. (at : ℕ) (us : List ℕ) → Spells image.now (code_of code.now) at (first ∷ second ∷ us) op 2) }
{
    let field = named_field(image, code, usize::from(second))?;
    let registers = first / 256;
    Some(Op::FieldPut(suffix, registers % 16, registers / 16, field))
}

/// `AAop BBBB`: sget vAA, a static field of the method's pool, and its kin.
fn static_get<'a>(
    opcode: u8,
    suffix: Suffix,
    image: &'a Image,
    code: &Coded<'a>,
    first: u16,
    second: u16,
) -> Option<Op<'a>>
    requires opcode { first % 256 ≡ opcode }
    requires format { format_at opcode ≡ Just F21c }
    requires family { family_at opcode ≡ Just (family.StaticGet (standard_suffix suffix)) }
    ensures { IfSome result (λ op. (at : ℕ) (us : List ℕ) → Spells image.now (code_of code.now) at (first ∷ second ∷ us) op 2) }
{
    let field = named_field(image, code, usize::from(second))?;
    Some(Op::StaticGet(suffix, first / 256, field))
}

/// `AAop BBBB`: sput vAA, a static field of the method's pool, and its kin.
fn static_put<'a>(
    opcode: u8,
    suffix: Suffix,
    image: &'a Image,
    code: &Coded<'a>,
    first: u16,
    second: u16,
) -> Option<Op<'a>>
    requires opcode { first % 256 ≡ opcode }
    requires format { format_at opcode ≡ Just F21c }
    requires family { family_at opcode ≡ Just (family.StaticPut (standard_suffix suffix)) }
    ensures { IfSome result (λ op. (at : ℕ) (us : List ℕ) → Spells image.now (code_of code.now) at (first ∷ second ∷ us) op 2) }
{
    let field = named_field(image, code, usize::from(second))?;
    Some(Op::StaticPut(suffix, first / 256, field))
}

/// An operation on an element of an array, by the units of its instruction; none of another.
#[tactic(auto, unfolding(dv_defs::specs::Formats::format_at))]
fn array_op<'a>(first: u16, second: u16) -> Option<Op<'a>>
    ensures { IfSome result (λ op. (image : Linked) (code : Code) (at : ℕ) (us : List ℕ) → Spells image code at (first ∷ second ∷ us) op 2) }
{
    match first % 256 {
        0x44 => Some(array_get(0x44, Suffix::Int, first, second)),
        0x45 => Some(array_get(0x45, Suffix::Long, first, second)),
        0x46 => Some(array_get(0x46, Suffix::Object, first, second)),
        0x47 => Some(array_get(0x47, Suffix::Boolean, first, second)),
        0x48 => Some(array_get(0x48, Suffix::Byte, first, second)),
        0x49 => Some(array_get(0x49, Suffix::Char, first, second)),
        0x4a => Some(array_get(0x4a, Suffix::Short, first, second)),
        0x4b => Some(array_put(0x4b, Suffix::Int, first, second)),
        0x4c => Some(array_put(0x4c, Suffix::Long, first, second)),
        0x4d => Some(array_put(0x4d, Suffix::Object, first, second)),
        0x4e => Some(array_put(0x4e, Suffix::Boolean, first, second)),
        0x4f => Some(array_put(0x4f, Suffix::Byte, first, second)),
        0x50 => Some(array_put(0x50, Suffix::Char, first, second)),
        0x51 => Some(array_put(0x51, Suffix::Short, first, second)),
        _ => None,
    }
}

/// An operation on a field of an object, likewise.
#[tactic(auto, unfolding(dv_defs::specs::Formats::format_at))]
fn field_op<'a>(image: &'a Image, code: &Coded<'a>, first: u16, second: u16) -> Option<Op<'a>>
    ensures { IfSome result (λ op. (at : ℕ) (us : List ℕ) → Spells image.now (code_of code.now) at (first ∷ second ∷ us) op 2) }
{
    match first % 256 {
        0x52 => field_get(0x52, Suffix::Int, image, code, first, second),
        0x53 => field_get(0x53, Suffix::Long, image, code, first, second),
        0x54 => field_get(0x54, Suffix::Object, image, code, first, second),
        0x55 => field_get(0x55, Suffix::Boolean, image, code, first, second),
        0x56 => field_get(0x56, Suffix::Byte, image, code, first, second),
        0x57 => field_get(0x57, Suffix::Char, image, code, first, second),
        0x58 => field_get(0x58, Suffix::Short, image, code, first, second),
        0x59 => field_put(0x59, Suffix::Int, image, code, first, second),
        0x5a => field_put(0x5a, Suffix::Long, image, code, first, second),
        0x5b => field_put(0x5b, Suffix::Object, image, code, first, second),
        0x5c => field_put(0x5c, Suffix::Boolean, image, code, first, second),
        0x5d => field_put(0x5d, Suffix::Byte, image, code, first, second),
        0x5e => field_put(0x5e, Suffix::Char, image, code, first, second),
        0x5f => field_put(0x5f, Suffix::Short, image, code, first, second),
        _ => None,
    }
}

/// An operation on a static field, likewise.
#[tactic(auto, unfolding(dv_defs::specs::Formats::format_at))]
fn static_op<'a>(image: &'a Image, code: &Coded<'a>, first: u16, second: u16) -> Option<Op<'a>>
    ensures { IfSome result (λ op. (at : ℕ) (us : List ℕ) → Spells image.now (code_of code.now) at (first ∷ second ∷ us) op 2) }
{
    match first % 256 {
        0x60 => static_get(0x60, Suffix::Int, image, code, first, second),
        0x61 => static_get(0x61, Suffix::Long, image, code, first, second),
        0x62 => static_get(0x62, Suffix::Object, image, code, first, second),
        0x63 => static_get(0x63, Suffix::Boolean, image, code, first, second),
        0x64 => static_get(0x64, Suffix::Byte, image, code, first, second),
        0x65 => static_get(0x65, Suffix::Char, image, code, first, second),
        0x66 => static_get(0x66, Suffix::Short, image, code, first, second),
        0x67 => static_put(0x67, Suffix::Int, image, code, first, second),
        0x68 => static_put(0x68, Suffix::Long, image, code, first, second),
        0x69 => static_put(0x69, Suffix::Object, image, code, first, second),
        0x6a => static_put(0x6a, Suffix::Boolean, image, code, first, second),
        0x6b => static_put(0x6b, Suffix::Byte, image, code, first, second),
        0x6c => static_put(0x6c, Suffix::Char, image, code, first, second),
        0x6d => static_put(0x6d, Suffix::Short, image, code, first, second),
        _ => None,
    }
}

/// An operation on an element or a field, by the units of its instruction; none of another.
pub fn access_op<'a>(image: &'a Image, code: &Coded<'a>, first: u16, second: u16) -> Option<Op<'a>>
    ensures { IfSome result (λ op. (at : ℕ) (us : List ℕ) → Spells image.now (code_of code.now) at (first ∷ second ∷ us) op 2) }
{
    let opcode = first % 256;
    if opcode < 0x52 {
        array_op(first, second)
    } else if opcode < 0x60 {
        field_op(image, code, first, second)
    } else {
        static_op(image, code, first, second)
    }
}
