// What the indices of instructions name. S12 where there is none of the index.
ghost use Rattle.std.specs.Prelude.{◌≡◌, ◌<◌, ℕ, length, None, Some, Ok, Err, MatchResult, slice_get};
ghost use Rattle.dv_defs.specs.Op.{New, new_op, on_pool, resolved_field, resolved_method};
ghost use Rattle.dv_ops.specs.Meaning.{field_of, method_of};

use crate::{Coded, Field, Method, field_at, method_at};
use dv_defs::{Chars, ClassId, Image, Rule, Ty};
use dv_image::class_of_base;

/// The string at a place of the body's pool.
pub fn string_at<'a>(code: &Coded<'a>, place: usize) -> Result<&'a Chars, Rule>
    ensures { MatchResult result (λ s. slice_get code.now.body.now.strings place ≡ Some s.now)
        (λ rule. (rule ≡ Rule.S 12) × (slice_get code.now.body.now.strings place ≡ None)) }
{
    let body = code.body;
    body.strings.items().get(place).ok_or(Rule::S(12))
}

/// The type at a place of the method's pool.
pub fn type_at<'a>(code: &Coded<'a>, place: usize) -> Result<&'a Ty, Rule>
    ensures { MatchResult result (λ t. slice_get code.now.method.info.now.types place ≡ Some t.now)
        (λ rule. (rule ≡ Rule.S 12) × (slice_get code.now.method.info.now.types place ≡ None)) }
{
    code.method.info.types.items().get(place).ok_or(Rule::S(12))
}

/// The field at a place of the method's pool.
pub fn named_field_at<'a>(
    image: &'a Image,
    code: &Coded<'a>,
    place: usize,
) -> Result<Field<'a>, Rule>
    ensures { MatchResult result (λ x. resolved_field image.now (slice_get code.now.method.info.now.fields place) ≡ Some (field_of x))
        (λ rule. (rule ≡ Rule.S 12) × (resolved_field image.now (slice_get code.now.method.info.now.fields place) ≡ None)) }
{
    match code.method.info.fields.items().get(place) {
        Some(id) => field_at(image, *id).ok_or(Rule::S(12)),
        None => Err(Rule::S(12)),
    }
}

/// The method at a place of the method's pool.
pub fn called_at<'a>(image: &'a Image, code: &Coded<'a>, place: usize) -> Result<Method<'a>, Rule>
    ensures { MatchResult result (λ m. resolved_method image.now (slice_get code.now.method.info.now.methods place) ≡ Some (method_of m))
        (λ rule. (rule ≡ Rule.S 12) × (resolved_method image.now (slice_get code.now.method.info.now.methods place) ≡ None)) }
{
    match code.method.info.methods.items().get(place) {
        Some(id) => method_at(image, *id).ok_or(Rule::S(12)),
        None => Err(Rule::S(12)),
    }
}

/// The class at a place. An image has no more than 1,057 classes.
fn class_id(image: &Image, place: usize) -> ClassId
    requires { place < length image.now.classes }
    ensures { result.0 ≡ place }
{
    let _classes = &image.classes;
    ClassId(place as u32)
}

/// The class that a type names: S16 where it is an array or names none.
fn class_named_by(image: &Image, ty: &Ty) -> Result<ClassId, Rule>
    ensures { MatchResult result (λ c. (a : ℕ) → new_op image.now a ty.now ≡ Ok (New a c.0)) (λ rule. (a : ℕ) → new_op image.now a ty.now ≡ Err rule) }
{
    if ty.dims > 0 {
        return Err(Rule::S(16));
    }
    match class_of_base(image, &ty.base) {
        Some(class) => Ok(class_id(image, class)),
        None => Err(Rule::S(16)),
    }
}

/// The class that the type at a place of the method's pool names.
pub fn class_at<'a>(image: &'a Image, code: &Coded<'a>, place: usize) -> Result<ClassId, Rule>
    ensures { MatchResult result (λ c. (a : ℕ) → on_pool (slice_get code.now.method.info.now.types place) (new_op image.now a) ≡ Ok (New a c.0))
        (λ rule. (a : ℕ) → on_pool (slice_get code.now.method.info.now.types place) (new_op image.now a) ≡ Err rule) }
{
    class_named_by(image, type_at(code, place)?)
}
