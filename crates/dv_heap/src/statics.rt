// The words of static fields as they are declared.
ghost use Rattle.std.specs.Prelude.{◌≡◌, ◌++◌, ◌∷◌, [], map, option_map, IfOk, OnOk, IsTrue, Some, true, false};
ghost use Rattle.dv_defs.specs.Field.{value_fits};
ghost use Rattle.dv_defs.specs.Flags.{has_flag};
ghost use Rattle.dv_defs.specs.Numbers.{lo_of, hi_of};
ghost use Rattle.dv_defs.specs.Types.{is_long as is_long_type};
ghost use Rattle.dv_machine.specs.Local.{const_value};
ghost use Rattle.dv_machine.specs.Opening.{field_cells, number_cells};
ghost use Rattle.dv_words.specs.Erasure.{erased, erased_values};
ghost use Rattle.dv_heap.specs.Fields.{first_words};
ghost use Rattle.dv_heap.specs.Objects.{words_by};

use crate::blocks::Blocks;
use crate::contents::Contents;
use crate::fields::declared_as;
use crate::types::{is_long, words_of};
use dv_defs::{FieldDef, Flag, Image, Init, Ty};
use std::alloc::{AllocError, Global};

/// The two words of a long, the low one first.
fn halves(n: i64) -> [u32; 2]
    ensures { result ≡ lo_of n ∷ hi_of n ∷ [] }
{
    let bits = n.cast_unsigned();
    [(bits % 0x1_0000_0000) as u32, (bits / 0x1_0000_0000) as u32]
}

/// The word of a number that fits a type which isn't long.
fn int_word(ty: &Ty, n: i64) -> u32
    requires fits { IsTrue (value_fits (Init.Num n) ty.now) }
    requires short { is_long_type ty.now ≡ false }
    ensures { result ≡ erased (const_value n) }
{
    (n as i32).cast_unsigned()
}

/// Adds the block of a static field with a number.
fn add_number(statics: &mut Blocks, ty: &Ty, n: i64) -> Result<(), AllocError>
    requires { IsTrue (value_fits (Init.Num n) ty.now) }
    ensures { OnOk result (statics.new ≡ statics.old ++ record { tag = 0; words = erased_values (number_cells ty.now n) } ∷ []) }
{
    if is_long(ty) {
        statics.push(0, &Contents::Words(&halves(n)))
    } else {
        statics.push(0, &Contents::Words(&[int_word(ty, n)]))
    }
}

/// Adds the block of a static field.
fn add_static(statics: &mut Blocks, field: &FieldDef) -> Result<(), AllocError>
    requires { has_flag field.now.flags Flag.Static ≡ true }
    ensures { OnOk result (statics.new ≡ statics.old ++ record { tag = 0; words = first_words (Some field.now) } ∷ []) }
{
    match field.init {
        Init::Num(n) => add_number(statics, &field.ty, n),
        _ => statics.push(0, &Contents::Zeros(words_of(&field.ty))),
    }
}

/// Adds the block of a field, which has no words where the field isn't static.
pub fn add_field(statics: &mut Blocks, field: Option<&FieldDef>) -> Result<(), AllocError>
    ensures { OnOk result (statics.new ≡ statics.old ++ record { tag = 0; words = first_words (option_map (λ x. x.now) field.entry) } ∷ []) }
{
    match field {
        Some(field) if Flag::Static.is_in(field.flags) => add_static(statics, field),
        _ => statics.push(0, &Contents::Zeros(0)),
    }
}

/// A block for each field of an image, filled as it is declared.
pub fn first_statics(alloc: Global, image: &Image) -> Result<Blocks, AllocError>
    ensures { IfOk result (λ statics. map words_by statics ≡ map erased_values (field_cells image.now image.now.fields 0)) }
{
    let mut statics = Blocks::new(alloc);
    for info in image.fields.items() {
        add_field(&mut statics, declared_as(image, info))?;
    }
    Ok(statics)
}
