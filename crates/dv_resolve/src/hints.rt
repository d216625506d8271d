// Where a call looks first for the place of a name and a prototype.
ghost use Rattle.std.specs.Prelude.{◌≡◌, ◌<◌, ◌^◌, length, IfOk};

use dv_defs::Seq;
use std::alloc::{AllocError, Global};

/// Empty slots for so many places: a power of two, and at least twice as many.
fn empty_slots(alloc: Global, places: usize) -> Result<Vec<u16>, AllocError>
    requires { places < 2 ^ 62 }
    ensures { IfOk result (λ slots. 0 < length slots.items) }
{
    vec![in alloc; 0; (2 * places).next_power_of_two()]
}

/// Notes a mark in the first empty slot from that of a number on.
fn note(slots: &mut [u16], number: u32, mark: u16)
    requires { 0 < length slots.old }
    ensures { length slots.new ≡ length slots.old }
{
    let mask = slots.len() - 1;
    for step in 0..slots.len() {
        let slot = (number as usize + step) & mask;
        if slots[slot] == 0 {
            slots[slot] = mark;
            return;
        }
    }
}

/// Notes places by their numbers, each as itself and 1. Those that no slot can tell are left out.
fn note_all(slots: &mut [u16], numbers: &[u32])
    requires { 0 < length slots.old }
{
    for (mark, number) in (1..=u16::MAX).zip(numbers) {
        note(slots, *number, mark);
    }
}

/// The slots of a class, by the numbers of its places: none, where it has no place.
fn hints_of(alloc: Global, numbers: &[u32]) -> Result<Seq<u16>, AllocError> {
    if numbers.is_empty() {
        return Ok(Seq::of(Vec::new(alloc)));
    }
    let mut slots = empty_slots(alloc, numbers.len())?;
    note_all(slots.as_mut_slice(), numbers);
    Ok(Seq::of(slots))
}

/// By class, the slots in which a call looks for the place of a number: first in the one that the number's low bits tell, then in those
/// behind it, until one has 0 or the place and 1. Who finds a place there reads its number again: nothing is concluded from a slot alone.
pub fn hints_of_all(alloc: Global, places: &[Seq<u32>]) -> Result<Vec<Seq<u16>>, AllocError> {
    let mut hints = Vec::new(alloc);
    for numbers in places {
        hints.push(hints_of(alloc, numbers.items())?)?;
    }
    Ok(hints)
}
