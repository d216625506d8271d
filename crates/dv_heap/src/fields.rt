// The words of an object's fields, by their declarations.
ghost use Rattle.std.specs.Prelude.{◌≡◌, ◌≤◌, ◌+◌, ◌∷◌, [], length, option_map, IfOk};
ghost use Rattle.dv_machine.specs.Heap.{class_cells, slot_types};
ghost use Rattle.dv_heap.specs.Fields.{declared_as as declaration};

use crate::types::words_of;
use dv_defs::{ClassId, FieldDef, FieldId, FieldInfo, Image};
use std::alloc::AllocError;

/// How a field is declared.
pub fn declared_as<'a>(image: &'a Image, info: &FieldInfo) -> Option<&'a FieldDef>
    ensures { option_map (λ x. x.now) result ≡ declaration image.now info.now }
{
    let class = image.classes.items().get(info.class.0 as usize)?;
    class.def.fields.items().get(info.place as usize)
}

/// How many words an object has for a field.
#[tactic(auto, unfolding(dv_defs::specs::Pools::field_at))]
fn slot_words(image: &Image, field: FieldId) -> u32
    ensures value { result ≡ length (slot_types image.now (field ∷ [])) }
    ensures few { result ≤ 2 }
{
    match image.fields.items().get(field.0 as usize) {
        Some(info) => match declared_as(image, info) {
            Some(def) => words_of(&def.ty),
            None => 0,
        },
        None => 0,
    }
}

/// So many words and those for a field. Where the number is no `u32`, memory is wanting.
fn with_slot(image: &Image, words: u32, field: FieldId) -> Result<u32, AllocError>
    ensures { IfOk result (λ n. n ≡ words + length (slot_types image.now (field ∷ []))) }
{
    words
        .checked_add(slot_words(image, field))
        .ok_or(AllocError)
}

/// How many words the fields have together. Where the number is no `u32`, memory is wanting.
fn words_of_slots(image: &Image, slots: &[FieldId]) -> Result<u32, AllocError>
    ensures { IfOk result (λ n. n ≡ length (slot_types image.now slots.now)) }
{
    let mut words = 0u32;
    for field in slots {
        words = with_slot(image, words, *field)?;
    }
    Ok(words)
}

/// How many words an object of a class has, those of its superclasses' fields included. Where the number is no `u32`, memory is wanting.
pub fn words_of_class(image: &Image, class: ClassId) -> Result<u32, AllocError>
    ensures { IfOk result (λ n. n ≡ length (class_cells image.now class.0)) }
{
    match image.classes.items().get(class.0 as usize) {
        Some(info) => words_of_slots(image, info.slots.items()),
        None => Ok(0),
    }
}
