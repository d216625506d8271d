// Broken rules with their addresses, in order.
ghost use Rattle.std.specs.Prelude.{◌≡◌, ◌++◌, IfOk, OnOk};
ghost use Rattle.dv_typing.specs.Accepting.{place_unless, sorted};
ghost use Rattle.dv_static.specs.Placed.{order_of, places_of};

use dv_defs::Rule;
use std::alloc::AllocError;

/// A rule that is broken at an address.
#[derive(Clone, Copy, PartialEq, Eq, Debug)]
pub struct Place {
    pub at: u32,
    pub rule: Rule,
}

/// What places are ordered by: the address, then whether the rule is one of typing, then its number.
#[derive(Clone, Copy, PartialEq, Eq, PartialOrd, Ord)]
struct Order {
    address: u32,
    typing: bool,
    number: u8,
}

fn order_of(place: Place) -> Order
    ensures { result ≡ order_of place }
{
    let Place { at, rule } = place;
    match rule {
        Rule::S(number) => Order {
            address: at,
            typing: false,
            number,
        },
        Rule::V(number) => Order {
            address: at,
            typing: true,
            number,
        },
    }
}

/// Adds a place, unless all is well there.
pub fn add_unless(
    good: bool,
    at: u32,
    rule: Rule,
    places: &mut Vec<Place>,
) -> Result<(), AllocError>
    ensures { OnOk result (places_of places.new.items ≡ places_of places.old.items ++ place_unless good at rule) }
{
    if !good {
        places.push(Place { at, rule })?;
    }
    Ok(())
}

/// By address, then by rule, each once.
pub fn in_order(places: Vec<Place>) -> Result<Vec<Place>, AllocError>
    ensures { IfOk result (λ v. places_of v.items ≡ sorted (places_of places.items)) }
{
    let mut ordered = places;
    ordered.sort_by_key(|place| order_of(*place))?;
    ordered.dedup();
    Ok(ordered)
}
