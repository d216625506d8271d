// What calls on objects select.
ghost use Rattle.std.specs.Prelude.{◌≡◌, ◌≢◌, ◌↔◌, All, IsTrue, Some, IfNone, IfSome, map, option_map, slice_get};
ghost use Rattle.dv_defs.specs.Linked.{key_of as own_key, keyed_at};
ghost use Rattle.dv_defs.specs.Pools.{method_at};
ghost use Rattle.dv_image.specs.Selecting.{IsSelectedFor, selected_by};

use dv_defs::{ClassId, Image, MethodId, Select};

/// What a call of a method selects on an object of a class (JVMS 5.4.6): by the place of the method's name and prototype in the class's
/// table. It takes no memory.
pub fn select(image: &Image, class: ClassId, method: MethodId) -> Select
    ensures { result ≡ selected_by image.now class.0 method.0 }
{
    match key_of(image, method) {
        Some(number) => select_numbered(image, class, number),
        None => Select::Abstract,
    }
}

/// The number of a method's name and prototype.
fn key_of(image: &Image, method: MethodId) -> Option<u32>
    ensures { result ≡ option_map (own_key image.now) (method_at image.now method.0) }
{
    let method = method.0 as usize;
    if method >= image.methods.len() {
        return None;
    }
    match image.index.keys.items().get(method) {
        Some(number) => Some(*number),
        None => None,
    }
}

/// What the table of a class has for the number of a name and prototype.
fn select_numbered(image: &Image, class: ClassId, number: u32) -> Select
    ensures { IsSelectedFor image.now class.0 number result }
{
    let Some(info) = image.classes.items().get(class.0 as usize) else {
        return Select::Abstract;
    };
    match place_of(places_of(image, class), hints_of(image, class), number) {
        Some(place) => entry_at(info.table.items(), place),
        None => Select::Abstract,
    }
}

fn entry_at(table: &[Select], place: usize) -> Select
    ensures { IfSome (slice_get table.now place) (λ entry. result ≡ entry) }
{
    match table.get(place) {
        Some(entry) => *entry,
        None => Select::Abstract,
    }
}

/// The number of a name and prototype for each place of a class's table.
fn places_of(image: &Image, class: ClassId) -> &[u32]
    ensures { result.now ≡ map (own_key image.now) (keyed_at image.now class.0) }
{
    match image.index.places.items().get(class.0 as usize) {
        Some(places) => places.items(),
        None => &[],
    }
}

/// Where such a number is looked for first.
fn hints_of(image: &Image, class: ClassId) -> &[u16] {
    match image.index.hints.items().get(class.0 as usize) {
        Some(hints) => hints.items(),
        None => &[],
    }
}

/// The place of a number: where the hints tell none, all places are gone through.
fn place_of(places: &[u32], hints: &[u16], number: u32) -> Option<usize>
    ensures found { IfSome result (λ place. slice_get places.now place ≡ Some number) }
    ensures missing { IfNone result (All (λ own. own ≢ number) places.now) }
{
    match hinted(places, hints, number) {
        Some(place) => Some(place),
        None => places.iter().position(|own| *own == number),
    }
}

/// The place of a number by the hints, gone through from the slot that the number's low bits tell. A slot has 0 where it is empty, and
/// there the search ends; else it has a place and 1. The place counts only where it has the number.
fn hinted(places: &[u32], hints: &[u16], number: u32) -> Option<usize>
    ensures { IfSome result (λ place. slice_get places.now place ≡ Some number) }
{
    let last = hints.len().checked_sub(1)?;
    for step in 0..hints.len() {
        let slot = (number as usize + step) & last;
        let place = (*hints.get(slot)? as usize).checked_sub(1)?;
        if has_number(places, place, number) {
            return Some(place);
        }
    }
    None
}

fn has_number(places: &[u32], place: usize, number: u32) -> bool
    ensures { IsTrue result ↔ (slice_get places.now place ≡ Some number) }
{
    match places.get(place) {
        Some(own) => *own == number,
        None => false,
    }
}
