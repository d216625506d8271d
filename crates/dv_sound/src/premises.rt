// What a run takes of a verified image.
ghost use Rattle.std.specs.Prelude.{◌≡◌, ◌<◌, ◌^◌, ℕ, All, List, OnOk, Some, length, slice_get};
ghost use Rattle.dv_defs.specs.Op.{Code, code_at};
ghost use Rattle.dv_defs.specs.Pools.{Field as FieldOf, field_at as field_numbered};
ghost use Rattle.dv_machine.specs.Accepted.{Accepted};
ghost use Rattle.dv_machine.specs.Opening.{string_of};
ghost use Rattle.dv_machine.specs.WellTyped.{Typings};
ghost use Rattle.law_words.specs.Laws.{IsUnit};
ghost use Rattle.law_words.specs.StepLaws.{AllKeysRise, InitsAreTexts, StringsFit};

use dv_defs::{Chars, FieldId, Image, Init, Limits, MethodId};
use dv_ops::{coded_at, field_at};
use dv_rules::Verified;
use std::alloc::AllocError;

/// The laws of steps hold of a verified image: does nothing.
pub fn is_accepted(verified: &Verified)
    ensures { (T : Typings) × Accepted verified.now.image T }
{
    let image = &verified.image;
    let _classes = &image.classes;
}

/// Keys of sparse switches rise in a verified image: does nothing.
pub fn keys_rise(verified: &Verified)
    ensures { AllKeysRise verified.now.image }
{
    let image = &verified.image;
    let _classes = &image.classes;
}

/// Limits are `u32`, and steps are counted by `u64`: does nothing.
pub fn are_numbers(limits: &Limits)
    ensures threads { limits.now.threads < 2 ^ 32 }
    ensures budget { limits.now.budget < 2 ^ 64 }
{
    let _threads = limits.threads;
    let _budget = limits.budget;
}

/// Units are `u16`: does nothing.
fn are_units(units: &[u16])
    ensures { All IsUnit units.now }
{
    let _ = units.len();
}

/// The units of strings are `u16`: changes nothing.
fn have_units(strings: &[Chars])
    ensures { All (λ s. All IsUnit s) strings.now }
{
    for text in strings {
        are_units(text.units());
    }
}

/// The same of the strings that a method names.
fn method_has_units(image: &Image, method: MethodId)
    ensures { (code : Code) (k : ℕ) (s : List ℕ) → code_at image.now method.0 ≡ Some code → slice_get code.body.strings k ≡ Some s → All IsUnit s }
{
    if let Some(code) = coded_at(image, method) {
        let body = code.body;
        have_units(body.strings.items());
    }
}

/// The method at a place.
fn method_id(image: &Image, place: usize) -> MethodId
    requires { place < length image.now.methods }
    ensures { result.0 ≡ place }
{
    let _methods = &image.methods;
    MethodId(place as u32)
}

/// The field at a place.
fn field_id(image: &Image, place: usize) -> FieldId
    requires { place < length image.now.fields }
    ensures { result.0 ≡ place }
{
    let _fields = &image.fields;
    FieldId(place as u32)
}

/// The same of all that methods name.
pub fn strings_fit(image: &Image)
    ensures { StringsFit image.now }
{
    for place in 0..image.methods.len() {
        method_has_units(image, method_id(image, place));
    }
}

/// A string with which a field is declared is no longer than an int can say. None is that memory holds.
fn text_fits(text: &Chars) -> Result<(), AllocError>
    ensures short { OnOk result (length text.now < 2 ^ 31) }
    ensures units { All IsUnit text.now }
{
    let units = text.units();
    are_units(units);
    if units.len() < 0x8000_0000 {
        Ok(())
    } else {
        Err(AllocError)
    }
}

/// The same of a field.
fn field_fits(image: &Image, field: FieldId) -> Result<(), AllocError>
    ensures { OnOk result ((x : FieldOf) (s : List ℕ) → field_numbered image.now field.0 ≡ Some x → string_of x.def.init ≡ Some s → (length s < 2 ^ 31) × All IsUnit s) }
{
    let Some(field) = field_at(image, field) else {
        return Ok(());
    };
    let def = field.def;
    init_fits(&def.init)
}

/// The same of a field's value.
fn init_fits(init: &Init) -> Result<(), AllocError>
    ensures { OnOk result ((s : List ℕ) → string_of init.now ≡ Some s → (length s < 2 ^ 31) × All IsUnit s) }
{
    if let Init::Str(text) = init {
        text_fits(text)
    } else {
        Ok(())
    }
}

/// The same of all fields.
///
/// # Errors
///
/// Want of memory, where a string has 2^31 units.
pub fn inits_fit(image: &Image) -> Result<(), AllocError>
    ensures { OnOk result (InitsAreTexts image.now) }
{
    for place in 0..image.fields.len() {
        field_fits(image, field_id(image, place))?;
    }
    Ok(())
}
