// Writing a payload.
ghost use Rattle.std.specs.Prelude.{◌≡◌, ◌++◌, true, option_map, IfOk, OnOk, OnErr, IsSome};
ghost use Rattle.dv_defs.specs.Spelling.{all_fit};
ghost use Rattle.dv_defs.specs.Payloads.{numbers_spelling, bytes_spelling, all_fit_signed, packed_spelling, sparse_spelling, data_spelling, payload_spelling};
ghost use Rattle.dv_defs.specs.Tiling.{is_width};

use crate::fields::{complement_32, fits_signed, two_units, unit};
use dv_defs::Payload;
use std::alloc::{AllocError, Global};

/// Appends signed numbers of 32 bits, each in two units, the low one first.
fn push_numbers(units: &mut Vec<u16>, mut numbers: &[i32]) -> Result<(), AllocError>
    ensures { OnOk result (units.new.items ≡ units.old.items ++ numbers_spelling numbers.entry.now) }
{
    while let [number, rest @ ..] = numbers {
        let (low, high) = two_units(complement_32(*number));
        units.push(low)?;
        units.push(high)?;
        numbers = rest;
    }
    Ok(())
}

/// Appends bytes, the low byte of a unit first.
fn push_bytes(units: &mut Vec<u16>, mut bytes: &[u8]) -> Result<(), AllocError>
    ensures { OnOk result (units.new.items ≡ units.old.items ++ bytes_spelling bytes.entry.now) }
{
    while let [low, high, rest @ ..] = bytes {
        units.push(unit((*high).into(), (*low).into()))?;
        bytes = rest;
    }
    if let [low, ..] = bytes {
        units.push(unit(0, (*low).into()))?;
    }
    Ok(())
}

/// Whether each number fits two units, as all of 32 bits do.
fn numbers_fit(numbers: &[i32]) -> bool
    ensures { result ≡ all_fit_signed numbers.now }
{
    numbers
        .iter()
        .all(|number| fits_signed(i64::from(*number), 32))
}

/// Each byte fits its half of a unit.
fn bytes_fit(bytes: &[u8])
    ensures { all_fit 8 bytes.now ≡ true }
{}

fn packed_units(alloc: Global, first: i32, targets: &[i32]) -> Result<Option<Vec<u16>>, AllocError>
    ensures units { IfOk result (λ o. option_map (λ v. v.items) o ≡ packed_spelling first targets.now) }
    ensures memory { OnErr result (IsSome (packed_spelling first targets.now)) }
{
    if targets.len() >= 0x1_0000 || !numbers_fit(targets) {
        return Ok(None);
    }
    let mut units = Vec::new(alloc);
    units.push(0x0100)?;
    units.push(targets.len() as u16)?;
    push_numbers(&mut units, &[first])?;
    push_numbers(&mut units, targets)?;
    Ok(Some(units))
}

fn sparse_units(
    alloc: Global,
    keys: &[i32],
    targets: &[i32],
) -> Result<Option<Vec<u16>>, AllocError>
    ensures units { IfOk result (λ o. option_map (λ v. v.items) o ≡ sparse_spelling keys.now targets.now) }
    ensures memory { OnErr result (IsSome (sparse_spelling keys.now targets.now)) }
{
    if keys.len() >= 0x1_0000 || targets.len() != keys.len() {
        return Ok(None);
    }
    if !numbers_fit(keys) || !numbers_fit(targets) {
        return Ok(None);
    }
    let mut units = Vec::new(alloc);
    units.push(0x0200)?;
    units.push(keys.len() as u16)?;
    push_numbers(&mut units, keys)?;
    push_numbers(&mut units, targets)?;
    Ok(Some(units))
}

/// Whether an element of data may have this width in bytes.
fn is_width(width: u16) -> bool
    ensures { result ≡ is_width width }
{
    matches!(width, 1 | 2 | 4 | 8)
}

fn data_units(alloc: Global, width: u16, bytes: &[u8]) -> Result<Option<Vec<u16>>, AllocError>
    ensures units { IfOk result (λ o. option_map (λ v. v.items) o ≡ data_spelling width bytes.now) }
    ensures memory { OnErr result (IsSome (data_spelling width bytes.now)) }
{
    bytes_fit(bytes);
    if !is_width(width) {
        return Ok(None);
    }
    let count = bytes.len() / usize::from(width);
    if bytes.len() % usize::from(width) != 0 || count >= 0x1_0000_0000 {
        return Ok(None);
    }
    let (low, high) = two_units(count as u32);
    let mut units = Vec::new(alloc);
    units.push(0x0300)?;
    units.push(width)?;
    units.push(low)?;
    units.push(high)?;
    push_bytes(&mut units, bytes)?;
    Ok(Some(units))
}

/// The units of a payload; none where it has no spelling.
pub fn payload_units(alloc: Global, payload: &Payload) -> Result<Option<Vec<u16>>, AllocError>
    ensures units { IfOk result (λ o. option_map (λ v. v.items) o ≡ payload_spelling payload.now) }
    ensures memory { OnErr result (IsSome (payload_spelling payload.now)) }
{
    match payload {
        Payload::Packed { first, targets } => packed_units(alloc, *first, targets.items()),
        Payload::Sparse { keys, targets } => sparse_units(alloc, keys.items(), targets.items()),
        Payload::Data { width, bytes } => data_units(alloc, *width, bytes.items()),
    }
}
