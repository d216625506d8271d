// How many words the values of a type have.
ghost use Rattle.std.specs.Prelude.{◌≡◌, ◌≤◌};
ghost use Rattle.dv_defs.specs.Types as types;

use dv_defs::{Base, Ty};

/// Whether a type is long.
pub fn is_long(ty: &Ty) -> bool
    ensures { result ≡ types.is_long ty.now }
{
    ty.dims == 0 && matches!(ty.base, Base::J)
}

/// How many words a value of the type has.
pub fn words_of(ty: &Ty) -> u32
    ensures value { result ≡ types.words_of ty.now }
    ensures few { result ≤ 2 }
{
    if is_long(ty) { 2 } else { 1 }
}

/// How many words an element of an array of this type has.
pub fn element_words(array: &Ty) -> u32
    ensures value { result ≡ types.words_of (types.component array.now) }
    ensures few { result ≤ 2 }
{
    if array.dims <= 1 && matches!(array.base, Base::J) {
        2
    } else {
        1
    }
}
