// The rules of a payload: S7, S9 and S10.
ghost use Rattle.std.specs.Prelude.{◌≡◌, ◌++◌, ◌||◌, ◌+ℤ◌, pos, nat_eq, int_lt, OnOk};
ghost use Rattle.dv_typing.specs.Accepting.{payload_places, rises};
ghost use Rattle.dv_static.specs.Placed.{places_of};

use crate::places::{Place, add_unless};
use dv_defs::{Payload, Rule};
use std::alloc::AllocError;

/// More keys of 32 bits than there are numbers of 32 bits.
const TOO_MANY: usize = 1 << 33;

/// Whether each key is below the next.
#[tactic(auto, using(crate::proofs::RisingKeys::at_end))]
fn rise(keys: &[i32]) -> bool
    ensures { result ≡ rises keys.now }
{
    for i in 1..keys.len() {
        if keys[i - 1] >= keys[i] {
            return false;
        }
    }
    true
}

/// Whether neighbouring keys from the first on, where there are any, end at 2147483647 at the latest.
fn end_in_range(first: i32, count: usize) -> bool
    ensures { result ≡ (nat_eq count 0 || int_lt (first +ℤ pos count) (pos 2147483649)) }
{
    count == 0 || count < TOO_MANY && i64::from(first) + (count as i64) < 2147483649
}

/// Adds the rules that the payload at an address breaks.
pub fn add_payload_places(
    at: u32,
    payload: &Payload,
    places: &mut Vec<Place>,
) -> Result<(), AllocError>
    ensures { OnOk result (places_of places.new.items ≡ places_of places.old.items ++ payload_places at payload.now) }
{
    add_unless(at % 2 == 0, at, Rule::S(7), places)?;
    match payload {
        Payload::Packed { first, targets } => {
            add_unless(end_in_range(*first, targets.len()), at, Rule::S(10), places)
        }
        Payload::Sparse { keys, .. } => add_unless(rise(keys.items()), at, Rule::S(9), places),
        Payload::Data { .. } => Ok(()),
    }
}
