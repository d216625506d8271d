// Reading a payload by its header.
ghost use Rattle.std.specs.Prelude.{◌≡◌, ◌%◌, ◌++◌, [], ◌∷◌, length, take, Some, IfOk, OnOk, IsTrue};
ghost use Rattle.dv_defs.specs.Payloads.{numbers_spelling, all_fit_signed, payload_spelling};
ghost use Rattle.dv_defs.specs.Tiling.{bytes_in};
ghost use Rattle.dv_units.specs.Payloads.{IsHeader, header_size};

use crate::fields::{bytes, of_two_units, signed_offset};
use crate::header::Header;
use dv_defs::{Payload, Seq};
use std::alloc::{AllocError, Global};

/// Appends the signed number of 32 bits in two units, the low one first.
#[tactic(auto, using(crate::proofs::PayloadParts::number_steps))]
fn push_number(numbers: &mut Vec<i32>, low: u16, high: u16) -> Result<(), AllocError>
    ensures spelled { OnOk result (numbers_spelling numbers.new.items ≡ numbers_spelling numbers.old.items ++ low ∷ high ∷ []) }
    ensures fit { OnOk result (all_fit_signed numbers.new.items ≡ all_fit_signed numbers.old.items) }
{
    numbers.push(signed_offset(of_two_units(low, high), 32))?;
    Ok(())
}

/// The signed numbers of 32 bits in units, each in two, the low one first.
fn numbers_of(alloc: Global, mut units: &[u16]) -> Result<Vec<i32>, AllocError>
    requires { length units.now % 2 ≡ 0 }
    ensures spelled { IfOk result (λ v. numbers_spelling v.items ≡ units.entry.now) }
    ensures fit { IfOk result (λ v. IsTrue (all_fit_signed v.items)) }
{
    let mut numbers = Vec::new(alloc);
    while let [low, high, rest @ ..] = units {
        push_number(&mut numbers, *low, *high)?;
        units = rest;
    }
    Ok(numbers)
}

/// The first bytes in units, the low byte of a unit first.
fn bytes_of(alloc: Global, mut units: &[u16], count: usize) -> Result<Vec<u8>, AllocError>
    ensures { IfOk result (λ v. v.items ≡ take count (bytes_in units.entry.now)) }
{
    let mut all = Vec::new(alloc);
    while let [unit, rest @ ..] = units {
        let (high, low) = bytes(*unit);
        all.push(low)?;
        all.push(high)?;
        units = rest;
    }
    all.truncate(count);
    Ok(all)
}

fn read_packed(alloc: Global, size: u16, units: &[u16]) -> Result<Payload, AllocError>
    requires { IsHeader (Header.Packed size) units.now }
    ensures { IfOk result (λ p. payload_spelling p ≡ Some (take (header_size (Header.Packed size)) units.now)) }
{
    let first = signed_offset(of_two_units(units[2], units[3]), 32);
    let targets = numbers_of(alloc, &units[4..4 + usize::from(size) * 2])?;
    Ok(Payload::Packed {
        first,
        targets: Seq::of(targets),
    })
}

fn read_sparse(alloc: Global, size: u16, units: &[u16]) -> Result<Payload, AllocError>
    requires { IsHeader (Header.Sparse size) units.now }
    ensures { IfOk result (λ p. payload_spelling p ≡ Some (take (header_size (Header.Sparse size)) units.now)) }
{
    let middle = 2 + usize::from(size) * 2;
    let keys = numbers_of(alloc, &units[2..middle])?;
    let targets = numbers_of(alloc, &units[middle..middle + usize::from(size) * 2])?;
    Ok(Payload::Sparse {
        keys: Seq::of(keys),
        targets: Seq::of(targets),
    })
}

fn read_data(alloc: Global, width: u16, count: usize, units: &[u16]) -> Result<Payload, AllocError>
    requires { IsHeader (Header.Data width count) units.now }
    ensures { IfOk result (λ p. payload_spelling p ≡ Some (take (header_size (Header.Data width count)) units.now)) }
{
    let end = 4 + count / 2 + count % 2;
    let bytes = bytes_of(alloc, &units[4..end], count)?;
    Ok(Payload::Data {
        width,
        bytes: Seq::of(bytes),
    })
}

/// The payload of a header at the beginning of units.
pub fn read_payload(alloc: Global, header: Header, units: &[u16]) -> Result<Payload, AllocError>
    requires { IsHeader header units.now }
    ensures { IfOk result (λ p. payload_spelling p ≡ Some (take (header_size header) units.now)) }
{
    match header {
        Header::Packed { size } => read_packed(alloc, size, units),
        Header::Sparse { size } => read_sparse(alloc, size, units),
        Header::Data { width, bytes } => read_data(alloc, width, bytes, units),
    }
}
