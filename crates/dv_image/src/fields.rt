// Where a field of an image is found by its name and type (JVMS 5.4.3.2).
ghost use Rattle.std.specs.Prelude.{◌≡◌, ◌<◌, ◌∷◌, length, nat_lt, option_map, IfSome};
ghost use Rattle.dv_defs.specs.First.{first_in};
ghost use Rattle.dv_defs.specs.LookUp.{field_declared, field_found, interfaces_above, once};
ghost use Rattle.dv_defs.specs.Order.{numbers};
ghost use Rattle.law_linking.specs.FieldPlaces.{is_like as is_like_field, place_from, field_count_at, number_at, id_of};

use crate::classes::parent_of;
use dv_defs::{ClassId, FieldDef, FieldId, Image, Ty};

/// The field of a name and a type: in each class of the walk up, and then in the interfaces above that class.
#[tactic(auto, using(crate::proofs::FieldWalks::found_on, crate::proofs::FieldWalks::found_here, crate::proofs::FieldWalks::found_top, crate::proofs::FieldWalks::found_done))]
pub fn field_of(image: &Image, class: ClassId, name: &[u8], ty: &Ty) -> Option<FieldId>
    ensures { result ≡ option_map (λ f. record { 0 = f.id }) (field_found image.now class.0 name.now ty.now) }
{
    let mut at = Some(class.0 as usize);
    let mut left = image.classes.len();
    while left > 0 {
        let Some(place) = at else { return None };
        if let Some(field) = field_at(image, place, name, ty) {
            return Some(field);
        }
        at = parent_of(image, place);
        left -= 1;
    }
    None
}

/// The field that a class or an interface above it declares.
#[tactic(auto, using(crate::proofs::FieldWalks::own_found, crate::proofs::FieldWalks::own_missing))]
fn field_at(image: &Image, class: usize, name: &[u8], ty: &Ty) -> Option<FieldId>
    ensures { result ≡ id_of (first_in (field_declared image.now name.now ty.now) (class ∷ once (interfaces_above image.now class))) }
{
    if let Some(field) = declared_field(image, class, name, ty) {
        return Some(field);
    }
    interface_field(image, class, name, ty)
}

/// The field that an interface above a class declares.
fn interface_field(image: &Image, class: usize, name: &[u8], ty: &Ty) -> Option<FieldId>
    ensures { result ≡ id_of (first_in (field_declared image.now name.now ty.now) (once (interfaces_above image.now class))) }
{
    match image.index.interfaces.items().get(class) {
        Some(interfaces) => first_field(image, interfaces.items(), name, ty),
        None => None,
    }
}

/// The first field that one of the classes declares.
#[tactic(auto, using(crate::proofs::FieldWalks::own_found, crate::proofs::FieldWalks::own_missing))]
fn first_field(image: &Image, classes: &[ClassId], name: &[u8], ty: &Ty) -> Option<FieldId>
    ensures { result ≡ id_of (first_in (field_declared image.now name.now ty.now) (numbers classes.now)) }
{
    for class in classes {
        if let Some(field) = declared_field(image, class.0 as usize, name, ty) {
            return Some(field);
        }
    }
    None
}

/// The field that a class declares.
fn declared_field(image: &Image, class: usize, name: &[u8], ty: &Ty) -> Option<FieldId>
    ensures { result ≡ id_of (field_declared image.now name.now ty.now class) }
{
    match place_at(image, class, name, ty) {
        Some(place) => Some(field_number(image, class, place)),
        None => None,
    }
}

/// The place of a field among those that a class declares, which says its number.
fn place_at(image: &Image, class: usize, name: &[u8], ty: &Ty) -> Option<usize>
    ensures declared { id_of (field_declared image.now name.now ty.now class) ≡ option_map (λ k. record { 0 = number_at image.now class k }) result }
    ensures within { IfSome result (λ k. k < field_count_at image.now class) }
{
    match image.classes.items().get(class) {
        Some(info) => place_of(info.def.fields.items(), name, ty),
        None => None,
    }
}

fn place_of(fields: &[FieldDef], name: &[u8], ty: &Ty) -> Option<usize>
    ensures place { result ≡ place_from (is_like_field name.now ty.now) fields.now 0 }
    ensures within { IfSome result (λ k. k < length fields.now) }
{
    for i in 0..fields.len() {
        if is_like(&fields[i], name, ty) {
            return Some(i);
        }
    }
    None
}

fn is_like(field: &FieldDef, name: &[u8], ty: &Ty) -> bool
    ensures { result ≡ is_like_field name.now ty.now field.now }
{
    field.name.bytes() == name && field.ty == *ty
}

/// The number of the field at a place of a class. Fields are numbered class by class, so it is found by halving.
fn field_number(image: &Image, class: usize, place: usize) -> FieldId
    requires { place < field_count_at image.now class }
    ensures { result.0 ≡ number_at image.now class place }
{
    let mut low = 0;
    let mut high = image.fields.len();
    while high - low > 1 {
        let middle = low + (high - low) / 2;
        if is_after(image, middle, class, place) {
            high = middle;
        } else {
            low = middle;
        }
    }
    FieldId(low as u32)
}

/// Whether the field of a number stands after the one at a place of a class.
fn is_after(image: &Image, number: usize, class: usize, place: usize) -> bool
    requires { place < field_count_at image.now class }
    ensures { result ≡ nat_lt (number_at image.now class place) number }
{
    match image.fields.items().get(number) {
        Some(field) => {
            let other = field.class.0 as usize;
            class < other || class == other && place < field.place as usize
        }
        None => true,
    }
}
