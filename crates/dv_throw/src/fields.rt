// The fields of Throwable.
ghost use Rattle.std.specs.Prelude.{◌≡◌, option_map};
ghost use Rattle.dv_machine.specs.Unwinding.{is_named_field as is_named, throwable_slot as slot_in_throwable};
ghost use Rattle.dv_ops.specs.Meaning.{field_of};

use crate::names::{THROWABLE, number_named};
use dv_defs::{ClassId, FieldId, Image};
use dv_ops::{Field, field_at};

/// The cell of a field that Throwable declares, by its name; 0 where it declares none of that name.
pub fn throwable_slot(image: &Image, name: &[u8]) -> u32
    ensures { result ≡ slot_in_throwable image.now name.now }
{
    let class = number_named(image, THROWABLE);
    let fields = image.fields.items();
    for place in 0..fields.len() {
        if is_named_field(field_at(image, FieldId(place as u32)), class, name) {
            return fields[place].slot;
        }
    }
    0
}

/// Whether a field has this name and the class declares it.
fn is_named_field(field: Option<Field<'_>>, class: ClassId, name: &[u8]) -> bool
    ensures { result ≡ is_named class.0 name.now (option_map field_of field.entry) }
{
    match field {
        Some(Field { info, def, .. }) => info.class == class && def.name.bytes() == name,
        None => false,
    }
}
