// UTF-16 units, one by one.
ghost use Rattle.std.specs.Prelude.{◌≡◌, ◌++◌, ◌≤◌, ◌<◌, length, take, OnOk};
ghost use Rattle.dv_words.specs.Natives.{units_in};

use std::alloc::AllocError;

/// Appends the low 16 bits of words.
pub fn add_units(units: &mut Vec<u16>, words: &[u32]) -> Result<(), AllocError>
    ensures { OnOk result (units.new.items ≡ units.old.items ++ units_in words.now) }
{
    for word in words {
        units.push((*word % 0x1_0000) as u16)?;
    }
    Ok(())
}

/// Writes bytes as units to the first places.
pub fn write_bytes(units: &mut [u16], bytes: &[u8])
    requires { length bytes.now ≤ length units.old }
    ensures { take (length bytes.now) units.new ≡ bytes.now }
{
    for (place, byte) in bytes.iter().enumerate() {
        units[place] = u16::from(*byte);
    }
}
