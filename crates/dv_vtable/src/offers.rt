// The methods that interfaces offer, by the numbers of their keys.
ghost use Rattle.std.specs.Prelude.{◌≡◌, ◌<◌, ◌∷◌, Some, [], length, nat_eq, slice_get, IfOk, OnOk};
ghost use Rattle.dv_vtable.specs.Offers.{offer_entry};

use crate::table::Table;
use dv_defs::{MethodId, Seq};
use std::alloc::{AllocError, Global};
use std::marker::Model;

/// The methods of one key, in the order in which they were met.
#[derive(Clone, Copy)]
pub struct Offer<'a> {
    pub number: u32,
    pub first: MethodId,
    pub others: &'a [MethodId],
}

/// Offers in the order in which their keys were met. To a contract it is the list of each key's number with its methods, beside the count
/// of numbers.
#[derive(Drop)]
pub struct Offers {
    firsts: Table,
    /// By the place of a number's entry, its methods after the first.
    others: Vec<Seq<MethodId>>,
}

impl Model for Offers {
    ghost use Rattle.std.specs.Prelude.{◌≡◌, length};
    ghost use Rattle.dv_vtable.specs.Offers.{OffersValue, offers_in};

    ghost Value = { OffersValue };

    ghost view = { λ offers. record { entries = offers_in offers.firsts.entries offers.others.items; count = offers.firsts.count } };

    ghost invariant = { λ offers. length offers.others.items ≡ length offers.firsts.entries };
}

impl Offers {
    /// Without methods, for numbers below a count.
    pub fn new(alloc: Global, count: usize) -> Result<Offers, AllocError>
        ensures { IfOk result (λ offers. offers ≡ record { entries = []; count = count }) }
    {
        let firsts = Table::new(alloc, count)?;
        Ok(Offers {
            firsts,
            others: Vec::new(alloc),
        })
    }

    /// Leaves no method.
    pub fn clear(&mut self)
        ensures { self.new ≡ record { entries = []; count = self.old.count } }
    {
        self.firsts.clear();
        self.others.clear();
    }

    /// Adds a method behind those of its number. A new number goes last.
    pub fn add(&mut self, alloc: Global, number: u32, method: MethodId) -> Result<(), AllocError>
        requires { number < self.old.count }
        ensures { OnOk result (self.new ≡ record { entries = offer_entry nat_eq self.old.entries number method; count = self.old.count }) }
    {
        match self.firsts.place_of(number) {
            Some(place) => self.others[place].push(method)?,
            None => {
                self.others.reserve(1)?;
                self.firsts.enter(number, method)?;
                self.others.push_reserved(Seq::of(Vec::new(alloc)));
            }
        }
        Ok(())
    }

    /// The number of keys.
    pub fn len(&self) -> usize
        ensures { result ≡ length self.now.entries }
    {
        self.others.len()
    }

    /// The methods of the key at a place.
    pub fn at(&self, place: usize) -> Offer<'_>
        requires { place < length self.now.entries }
        ensures { slice_get self.now.entries place ≡ Some (result.number, result.first ∷ result.others.now) }
    {
        let (number, first) = self.firsts.entries()[place];
        Offer {
            number,
            first,
            others: self.others[place].items(),
        }
    }
}
