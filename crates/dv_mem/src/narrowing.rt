// What fields and elements keep of a word.
ghost use Rattle.std.specs.Prelude.{◌≡◌, length, true};
ghost use Rattle.dv_defs.specs.declared.names.Ty.{Ty as Kept};
ghost use Rattle.dv_defs.specs.declared.names.Base.TheVariants as base;
ghost use Rattle.dv_typing.specs.Statics.{is_of_suffix};
ghost use Rattle.dv_units.specs.Tables.{standard_suffix};
ghost use Rattle.dv_words.specs.Mem as steps;
ghost use Rattle.dv_mem.specs.Values.{cut_to, cut_by, listed};

use crate::words::Words;
use dv_defs::{Base, Ty};
use dv_num as num;
use dv_optable::Suffix;

/// The lowest bit.
#[tactic(auto, using(crate::proofs::Cutting::cut_boolean))]
fn boolean(word: u32) -> u32
    ensures { result ≡ cut_to base.Z word }
{
    word % 2
}

/// The low 8 bits, sign-extended.
fn byte(word: u32) -> u32
    ensures { result ≡ cut_to base.B word }
{
    num::to_byte(word.cast_signed()).cast_unsigned()
}

/// The low 16 bits.
fn character(word: u32) -> u32
    ensures { result ≡ cut_to base.C word }
{
    num::to_char(word.cast_signed()).cast_unsigned()
}

/// The low 16 bits, sign-extended.
fn short(word: u32) -> u32
    ensures { result ≡ cut_to base.S word }
{
    num::to_short(word.cast_signed()).cast_unsigned()
}

/// What a value of a base keeps of a word.
#[tactic(auto, using(crate::proofs::Cutting::cut_whole))]
fn cut(base: &Base, word: u32) -> u32
    ensures { result ≡ cut_to base.now word }
{
    match base {
        Base::Z => boolean(word),
        Base::B => byte(word),
        Base::C => character(word),
        Base::S => short(word),
        _ => word,
    }
}

/// What a value of a type keeps of a word.
pub fn narrowed(ty: &Ty, word: u32) -> u32
    ensures { result ≡ steps.narrowed ty.now word }
{
    if ty.dims > 0 {
        word
    } else {
        cut(&ty.base, word)
    }
}

/// What a value of a type keeps of these words.
pub fn narrowed_words(ty: &Ty, value: Words) -> Words
    ensures { listed result ≡ steps.narrowed_all ty.now (listed value) }
{
    match value {
        Words::One(word) => Words::One(narrowed(ty, word)),
        Words::Two(low, high) => Words::Two(narrowed(ty, low), narrowed(ty, high)),
    }
}

/// What an element keeps of a word, by the suffix of the operation.
fn cut_by_suffix(suffix: Suffix, word: u32) -> u32
    ensures { result ≡ cut_by (standard_suffix suffix) word }
{
    match suffix {
        Suffix::Boolean => boolean(word),
        Suffix::Byte => byte(word),
        Suffix::Char => character(word),
        Suffix::Short => short(word),
        _ => word,
    }
}

/// What an element keeps of these words, by the suffix of the operation.
pub fn kept(suffix: Suffix, value: Words) -> Words
    ensures count { length (listed result) ≡ length (listed value) }
    ensures kept { (t : Kept) → is_of_suffix (standard_suffix suffix) t ≡ true → listed result ≡ steps.narrowed_all t (listed value) }
{
    match value {
        Words::One(word) => Words::One(cut_by_suffix(suffix, word)),
        Words::Two(low, high) => Words::Two(
            cut_by_suffix(suffix, low),
            cut_by_suffix(suffix, high),
        ),
    }
}
