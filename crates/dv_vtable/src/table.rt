// Methods by the numbers of their keys, in the order in which the keys were met.
ghost use Rattle.std.specs.Prelude.{◌≡◌, ◌<◌, [], nat_eq, position, IfOk, OnErr, OnOk};
ghost use Rattle.std.specs.List.{list_any};
ghost use Rattle.dv_vtable.specs.Chains.{insert_entry};
ghost use Rattle.dv_vtable.specs.Numbered.{numbers_of};

use dv_defs::MethodId;
use std::alloc::{AllocError, Global};
use std::marker::Model;

/// Methods with the numbers of their keys. Each number has the place of its entry, which holds where the entry there has the number. To a
/// contract it is the list of the entries, beside the count of numbers.
#[derive(Drop)]
pub struct Table {
    entries: Vec<(u32, MethodId)>,
    places: Vec<usize>,
}

impl Model for Table {
    ghost use Rattle.std.specs.Prelude.{length};
    ghost use Rattle.dv_vtable.specs.Numbered.{TableValue, HavePlaces, numbers_of};

    ghost Value = { TableValue };

    ghost view = { λ table. record { entries = table.entries.items; count = length table.places.items } };

    ghost invariant = { λ table. HavePlaces (numbers_of table.entries.items) table.places.items };
}

impl Table {
    /// Without entries, for numbers below a count.
    pub fn new(alloc: Global, count: usize) -> Result<Table, AllocError>
        ensures { IfOk result (λ table. table ≡ record { entries = []; count = count }) }
    {
        Ok(Table {
            entries: Vec::new(alloc),
            places: vec![in alloc; 0; count]?,
        })
    }

    /// Leaves no entry.
    pub fn clear(&mut self)
        ensures { self.new ≡ record { entries = []; count = self.old.count } }
    {
        self.entries.clear();
    }

    /// The place of a number's entry.
    pub fn place_of(&self, number: u32) -> Option<usize>
        requires { number < self.now.count }
        ensures { result ≡ position (nat_eq number) (numbers_of self.now.entries) }
    {
        let place = self.places[number as usize];
        if place < self.entries.len() && self.entries[place].0 == number {
            Some(place)
        } else {
            None
        }
    }

    /// Whether a number has an entry.
    pub fn has(&self, number: u32) -> bool
        requires { number < self.now.count }
        ensures { result ≡ list_any (nat_eq number) (numbers_of self.now.entries) }
    {
        self.place_of(number).is_some()
    }

    /// Enters a method. A number that is there keeps its place, and has this method now; a new one goes last.
    pub fn enter(&mut self, number: u32, method: MethodId) -> Result<(), AllocError>
        requires { number < self.old.count }
        ensures ok { OnOk result (self.new ≡ record { entries = insert_entry nat_eq self.old.entries number method; count = self.old.count }) }
        ensures err { OnErr result (self.new ≡ self.old) }
    {
        match self.place_of(number) {
            Some(place) => self.entries[place].1 = method,
            None => {
                self.entries.push((number, method))?;
                self.places[number as usize] = self.entries.len() - 1;
            }
        }
        Ok(())
    }

    /// The entries in their order: a number, and the method that was entered under it last.
    pub fn entries(&self) -> &[(u32, MethodId)]
        ensures { result.now ≡ self.now.entries }
    {
        self.entries.as_slice()
    }
}
