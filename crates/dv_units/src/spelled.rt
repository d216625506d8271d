ghost use Rattle.std.specs.Prelude.{◌≡◌, [], ◌∷◌, length};

use std::marker::Model;

/// The units of one instruction, which contracts see as their list.
#[derive(Drop)]
pub struct Spelled {
    units: [u16; 5],
    len: usize,
}

impl Model for Spelled {
    ghost use Rattle.std.specs.Prelude.{ℕ, ◌≤◌, List, take};

    ghost Value = { List ℕ };

    ghost view = { λ s. take s.len s.units };

    ghost invariant = { λ s. s.len ≤ 5 };
}

impl Spelled {
    pub fn one(first: u16) -> Spelled
        ensures { result ≡ first ∷ [] }
    {
        Spelled {
            units: [first, 0, 0, 0, 0],
            len: 1,
        }
    }

    pub fn two(first: u16, second: u16) -> Spelled
        ensures { result ≡ first ∷ second ∷ [] }
    {
        Spelled {
            units: [first, second, 0, 0, 0],
            len: 2,
        }
    }

    pub fn three(first: u16, second: u16, third: u16) -> Spelled
        ensures { result ≡ first ∷ second ∷ third ∷ [] }
    {
        Spelled {
            units: [first, second, third, 0, 0],
            len: 3,
        }
    }

    pub fn five(units: [u16; 5]) -> Spelled
        ensures { result ≡ units }
    {
        Spelled { units, len: 5 }
    }

    pub fn as_slice(&self) -> &[u16]
        ensures { result.now ≡ self.now }
    {
        &self.units[..self.len]
    }
}
