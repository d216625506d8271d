//! A flow of numbers whose least closed assignment was worked out by hand.
ghost use Rattle.std.specs.Prelude.{◌≡◌, ◌++◌, OnOk, map};
ghost use Rattle.test_base.specs.Numbers.{brought};

use dv_worklist::{Flow, Onwards, least};
use std::alloc::{AllocError, Global};
use std::test::Fail;

// The numbers up to 3, ordered by size.
#[derive(Drop)]
struct Numbers {
    alloc: Global,
}

// What a number brings to each of some places.
fn brings(
    onwards: &mut Onwards<u8>,
    number: u8,
    places: &[u32],
    at_least: u8,
) -> Result<(), AllocError>
    ensures { OnOk result (onwards.new ≡ onwards.old ++ map (λ to. brought number (to, at_least)) places.now) }
{
    onwards.push_all(places, number.max(at_least))
}

impl Flow for Numbers {
    type State = u8;

    ghost use Rattle.test_base.specs.Numbers.{numbers, number_fits, number_rank};

    ghost graph = { λ _. numbers };

    ghost fits = { λ _. number_fits };

    ghost rank = { λ _. number_rank };

    ghost top = { λ _. 4 };

    fn size(&self) -> usize {
        6
    }

    fn entry(&self) -> Result<u8, AllocError> {
        Ok(0)
    }

    fn onward(&self, place: usize, number: &u8) -> Result<Onwards<u8>, AllocError> {
        let mut onwards = Onwards::none(self.alloc);
        match place {
            0 => brings(&mut onwards, *number, &[1, 3], 0)?,
            1 => onwards.push(2, (*number).max(1))?,
            2 => brings(&mut onwards, *number, &[1, 4], 0)?,
            3 => onwards.push(4, (*number).max(2))?,
            5 => onwards.push(4, (*number).max(3))?,
            _ => {}
        }
        Ok(onwards)
    }

    fn copy(&self, number: &u8) -> Result<u8, AllocError> {
        Ok(*number)
    }

    fn raise(&self, _place: usize, number: &mut u8, by: &u8) -> Result<bool, AllocError> {
        let rose = *by > *number;
        if rose {
            *number = *by;
        }
        Ok(rose)
    }

    fn work(&self, _place: usize) -> usize {
        1
    }

    fn patience(&self) -> usize {
        0
    }

    // What goes on from place 1 comes back there by place 2 as 1 or more.
    fn accelerate(&self, place: usize, _number: &u8, _by: &u8) -> Result<Option<u8>, AllocError> {
        if place == 1 { Ok(Some(1)) } else { Ok(None) }
    }
}

// Places 1 and 2 are a loop in which 1 is brought, so 1 is raised twice, from nothing to 0 and to 1. Place 4 gets 1 from
// the loop and 2 from the branch. No way leads to place 5. What arrives at a place that has a state asks for more.
#[test]
fn the_least_numbers_are_found(rt: HostRuntime) -> Result<(), Fail> {
    let numbers = Numbers { alloc: rt.alloc() };
    let found = least(&numbers, rt.alloc())?;
    let wanted = [Some(0), Some(1), Some(1), Some(0), Some(2), None];
    assert_eq!(rt; found.as_slice(), &wanted[..]);
    Ok(())
}
