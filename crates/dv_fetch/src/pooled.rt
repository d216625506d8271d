// Operations with a string, a type or a class of a pool, read off the two units of their instruction (AOSP, "Dalvik executable instruction formats").
ghost use Rattle.std.specs.Prelude.{◌≡◌, ◌<◌, ◌∷◌, ℕ, IfSome, List, Ok, Some as Just, length, slice_get};
ghost use Rattle.dv_defs.specs.Op.{New, new_op, on_pool};
ghost use Rattle.dv_ops.specs.Meaning.{code_of};
ghost use Rattle.dv_fetch.specs.Spelled.{Spells};

use dv_defs::{Chars, ClassId, Image, Ty};
use dv_image::class_of_base;
use dv_ops::{Coded, Op};

/// The string at a place of the body's pool; none past its end.
fn string_named<'a>(code: &Coded<'a>, place: usize) -> Option<&'a Chars>
    ensures { IfSome result (λ s. slice_get code.now.body.now.strings place ≡ Just s.now) }
{
    let body = code.body;
    body.strings.items().get(place)
}

/// The type at a place of the method's pool; none past its end.
fn type_named<'a>(code: &Coded<'a>, place: usize) -> Option<&'a Ty>
    ensures { IfSome result (λ t. slice_get code.now.method.info.now.types place ≡ Just t.now) }
{
    code.method.info.types.items().get(place)
}

/// A class by its place. An image has no more than 1,057 classes.
fn class_id(image: &Image, place: usize) -> ClassId
    requires { place < length image.now.classes }
    ensures { result.0 ≡ place }
{
    let _classes = &image.classes;
    ClassId(place as u32)
}

/// The class that the type at a place of the method's pool names; none where it is an array or names none.
fn class_named(image: &Image, code: &Coded<'_>, place: usize) -> Option<ClassId>
    ensures { IfSome result (λ c. (a : ℕ) → on_pool (slice_get code.now.method.info.now.types place) (new_op image.now a) ≡ Ok (New a c.0)) }
{
    let ty = type_named(code, place)?;
    if ty.dims > 0 {
        return None;
    }
    let class = class_of_base(image, &ty.base)?;
    Some(class_id(image, class))
}

/// An operation with a string, a type or a class of a pool, by the units of its instruction; none of another.
pub fn pooled_op<'a>(image: &'a Image, code: &Coded<'a>, first: u16, second: u16) -> Option<Op<'a>>
    ensures { IfSome result (λ op. (at : ℕ) (us : List ℕ) → Spells image.now (code_of code.now) at (first ∷ second ∷ us) op 2) }
{
    let register = first / 256;
    let place = usize::from(second);
    match first % 256 {
        0x1a => Some(Op::ConstString(register, string_named(code, place)?)),
        0x1c => Some(Op::ConstClass(register, type_named(code, place)?)),
        0x1f => Some(Op::Cast(register, type_named(code, place)?)),
        0x20 => Some(Op::InstanceOf(register % 16, register / 16, type_named(code, place)?)),
        0x22 => Some(Op::New(register, class_named(image, code, place)?)),
        0x23 => Some(Op::NewArray(register % 16, register / 16, type_named(code, place)?)),
        _ => None,
    }
}
