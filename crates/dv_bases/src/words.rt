// Register types as words.
ghost use Rattle.std.specs.Prelude.{◌≡◌};
ghost use Rattle.dv_bases.specs.Words.{HasRoom, part_in};

/// A class or an array: how many dimensions over which base.
#[derive(Clone, Copy)]
pub struct Reference {
    pub dims: u8,
    pub base: u32,
}

/// What a word holds: a register type whose class, if it has one, is told by its number.
#[derive(Clone, Copy)]
pub enum Part {
    Conflict,
    Zero,
    Int,
    LongLo,
    LongHi,
    UninitThis,
    Uninit(u32),
    Class(Reference),
}

/// What a word holds.
#[tactic(auto, unfolding(crate::specs::Words::part_in))]
pub fn part_of(word: u32) -> Part
    ensures { result ≡ part_in word }
{
    let rest = word / 8;
    match word % 8 {
        0 => Part::Conflict,
        1 => Part::Zero,
        2 => Part::Int,
        3 => Part::LongLo,
        4 => Part::LongHi,
        5 => Part::UninitThis,
        6 => Part::Uninit(rest),
        _ => Part::Class(Reference {
            dims: (rest % 256) as u8,
            base: rest / 256,
        }),
    }
}

/// The word that holds it.
#[tactic(auto, unfolding(crate::specs::Words::part_in), using(crate::proofs::PartLaws::uninit_is))]
pub fn word_of(held: Part) -> u32
    requires { HasRoom held }
    ensures { part_in result ≡ held }
{
    match held {
        Part::Conflict => 0,
        Part::Zero => 1,
        Part::Int => 2,
        Part::LongLo => 3,
        Part::LongHi => 4,
        Part::UninitThis => 5,
        Part::Uninit(at) => at * 8 + 6,
        Part::Class(class) => word_of_class(class),
    }
}

/// The word of a class or an array.
#[tactic(auto, using(crate::proofs::PartLaws::class_is))]
fn word_of_class(class: Reference) -> u32
    requires { HasRoom (Part.Class class) }
    ensures { part_in result ≡ Part.Class class }
{
    (class.base * 256 + u32::from(class.dims)) * 8 + 7
}
