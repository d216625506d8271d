// Entries that are looked up by their order.
ghost use Rattle.std.specs.Prelude.{◌≡◌, [], position, OnOk, IfOk};
ghost use Rattle.dv_defs.specs.Entries.{with_entry};

use crate::Seq;
use std::alloc::{AllocError, Global};
use std::collections::BTreeMap;
use std::marker::Model;

/// Entries in first-seen order, each once. An entry is looked up by its order, so no choice of entries makes look-ups slow. To a contract it is the list of its entries.
#[derive(Drop)]
pub struct Pool<E: Ord> {
    entries: Vec<E>,
    places: BTreeMap<E, usize>,
}

impl<E: Ord> Model for Pool<E> {
    ghost use Rattle.std.specs.Prelude.{List};
    ghost use Rattle.std.specs.Coded.{coded_list};
    ghost use Rattle.std.specs.BTreeMap.{get};
    ghost use Rattle.dv_defs.specs.Entries.{ArePlaces};

    ghost Value = { List E };

    ghost coded = { coded_list E.code };

    ghost view = { λ pool. pool.entries.items };

    ghost invariant = { λ pool. ArePlaces E.eq pool.entries.items (get E.cmp pool.places) };
}

impl<E: Ord + Clone + Drop> Pool<E> {
    pub fn new(alloc: Global) -> Pool<E>
        ensures { result ≡ [] }
    {
        Pool {
            entries: Vec::new(alloc),
            places: BTreeMap::new(alloc),
        }
    }

    /// The place of an entry.
    pub fn place_of(&self, entry: &E) -> Option<usize>
        ensures { result ≡ position (E.eq entry.now) self.now }
    {
        self.places.get(entry).copied()
    }

    /// Adds an entry at the end, unless it is there.
    pub fn add(&mut self, entry: &E) -> Result<(), AllocError>
        // A clone is the entry itself.
        requires exact { (x y : E) → E.is_clone x y → y ≡ x }
        ensures { OnOk result (self.new ≡ with_entry E.eq self.old entry.now) }
    {
        if !self.places.contains_key(entry) {
            let added = entry.clone()?;
            let key = entry.clone()?;
            self.entries.reserve(1)?;
            self.places.insert(key, self.entries.len())?;
            self.entries.push_reserved(added);
        }
        Ok(())
    }

    /// The entries in their order.
    pub fn into_seq(self) -> Result<Seq<E>, AllocError>
        ensures { IfOk result (λ entries. entries ≡ self) }
    {
        let Pool { entries, places: _ } = self;
        Ok(Seq::of(entries))
    }
}
