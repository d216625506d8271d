// An instruction as it stands in units, and its operands.
ghost use Rattle.std.specs.Prelude.{◌≡◌, ◌+◌, ◌*◌, ◌/◌, ◌%◌, ◌^◌, ◌<◌, slice_index};
ghost use Rattle.dv_local.specs.Spelled.{double_after, unit_after};

use crate::numbers::double;

/// An instruction at an address of a method's units, whose first unit this is.
#[derive(Clone, Copy)]
pub struct Here<'a> {
    pub units: &'a [u16],
    pub at: u32,
    pub first: u16,
}

/// The unit at a place, 0 past the end.
#[inline(always)]
pub fn unit(units: &[u16], place: usize) -> u16
    ensures { result ≡ slice_index units.now place }
{
    match units.get(place) {
        Some(unit) => *unit,
        None => 0,
    }
}

impl Here<'_> {
    /// The high byte of the first unit.
    #[inline(always)]
    pub fn high(&self) -> u16
        ensures { result ≡ self.now.first / 256 }
    {
        self.first / 256
    }

    /// The low nibble of the high byte.
    #[inline(always)]
    pub fn low_nibble(&self) -> u16
        ensures { result ≡ self.now.first / 256 % 16 }
    {
        self.first / 256 % 16
    }

    /// The high nibble of the high byte.
    #[inline(always)]
    pub fn high_nibble(&self) -> u16
        ensures value { result ≡ self.now.first / 256 / 16 }
        ensures fits { result < 2 ^ 4 }
    {
        self.first / 256 / 16
    }

    /// The unit at a place behind the first one, 0 past the end.
    #[inline(always)]
    pub fn unit(&self, place: usize) -> u16
        requires { place < 2 ^ 16 }
        ensures { result ≡ unit_after self.now place }
    {
        unit(self.units, self.at as usize + 1 + place)
    }

    /// Two units from a place behind the first one, the low one first.
    #[inline(always)]
    pub fn double(&self, place: usize) -> u32
        requires { place < 2 ^ 15 }
        ensures { result ≡ double_after self.now place }
    {
        double(self.unit(place), self.unit(place + 1))
    }

    /// The address behind so many units.
    #[inline(always)]
    pub fn after(&self, size: u32) -> u32
        requires short { self.now.at < 2 ^ 16 }
        requires few { size < 2 ^ 16 }
        ensures { result ≡ self.now.at + size }
    {
        self.at + size
    }
}
