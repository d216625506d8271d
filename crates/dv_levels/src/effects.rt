// What effects do to bounds of registers.
ghost use Rattle.std.specs.Prelude.{◌≡◌};
ghost use Rattle.dv_levels.specs.Takes.{is_half as half_of, is_kept, taken_by};

use dv_effects::Effect;

/// A register at a place. Its arrays have fewer dimensions there than those of the register where a search began, or only no more.
#[derive(Clone, Copy)]
pub struct Level {
    pub place: usize,
    pub register: u16,
    pub fewer: bool,
}

/// Whether a register keeps its bounds through an effect.
pub fn keeps(effect: Effect, register: u16) -> bool
    ensures { result ≡ is_kept effect register }
{
    match effect {
        Effect::Nothing | Effect::Construct(_) => true,
        Effect::PutLong(k) | Effect::ResultLong(k) => !is_half(k, register),
        Effect::Put(k, _)
        | Effect::CopyInt(k, _)
        | Effect::CopyObject(k, _)
        | Effect::ResultInt(k)
        | Effect::ResultObject(k)
        | Effect::Caught(k)
        | Effect::Element(k, _)
        | Effect::New(k, _) => register != k,
    }
}

/// Whether a register is one of the two of a long.
fn is_half(low: u16, register: u16) -> bool
    ensures { result ≡ half_of low register }
{
    register == low || u32::from(register) == u32::from(low) + 1
}

/// Where an effect takes the object of a register, or an element of it, and whether that is known to have fewer dimensions.
pub fn taken(effect: Effect, register: u16, fewer: bool) -> Option<(u16, bool)>
    ensures { result ≡ taken_by effect register fewer }
{
    match effect {
        Effect::CopyObject(k, from) if from == register => Some((k, fewer)),
        Effect::Element(k, array) if array == register => Some((k, true)),
        _ => None,
    }
}
