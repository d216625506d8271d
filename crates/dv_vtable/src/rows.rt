// The table of a class.
ghost use Rattle.std.specs.Prelude.{◌≡◌, ◌<◌, ◌++◌, ◌∷◌, [], length, map, IfOk, OnOk};
ghost use Rattle.dv_defs.specs.Images.{Image};
ghost use Rattle.dv_defs.specs.Linked.{key_of, keyed_at, table_at};
ghost use Rattle.dv_vtable.specs.Choosing.{AreMarked};
ghost use Rattle.dv_vtable.specs.Numbered.{numbers_of};
ghost use Rattle.dv_vtable.specs.Rows.{chain_at, chosen_row, IsRoom, itself_row, offers_at};
ghost use Rattle.dv_vtable.specs.Sources.{AreSources, IsOf};

use crate::chains::{chain_of, enter_chain};
use crate::choosing::chosen;
use crate::offering::{offer_all, superinterfaces_of};
use crate::offers::Offers;
use crate::sources::Sources;
use crate::table::Table;
use dv_defs::{ClassId, MethodId, Select};
use std::alloc::{AllocError, Global};

/// A class's table, with the number of the key for which each place stands.
#[derive(Drop)]
pub struct Row {
    pub selects: Vec<Select>,
    pub numbers: Vec<u32>,
}

/// Room in which one table is made after another.
#[derive(Drop)]
pub struct Room {
    chain: Table,
    offers: Offers,
    marks: Vec<bool>,
}

impl Row {
    /// Adds a place.
    fn add(&mut self, number: u32, select: Select) -> Result<(), AllocError>
        ensures selects { OnOk result (self.new.selects.items ≡ self.old.selects.items ++ select ∷ []) }
        ensures numbers { OnOk result (self.new.numbers.items ≡ self.old.numbers.items ++ number ∷ []) }
    {
        self.selects.push(select)?;
        self.numbers.push(number)?;
        Ok(())
    }

    /// Adds what calls select by the keys of a chain.
    fn add_chain(
        &mut self,
        sources: &Sources<'_>,
        chain: &[(u32, MethodId)],
    ) -> Result<(), AllocError>
        ensures selects { (image : Image) → IsOf sources.now image
            → OnOk result (self.new.selects.items ≡ self.old.selects.items ++ itself_row image chain.now) }
        ensures numbers { OnOk result (self.new.numbers.items ≡ self.old.numbers.items ++ numbers_of chain.now) }
    {
        for (number, method) in chain {
            self.add(*number, sources.itself(*method))?;
        }
        Ok(())
    }

    /// Adds what calls select by the keys that interfaces offer. No class is marked before and after.
    fn add_offers(
        &mut self,
        marks: &mut [bool],
        sources: &Sources<'_>,
        offers: &Offers,
    ) -> Result<(), AllocError>
        requires sources { AreSources sources.now }
        requires count { length marks.old ≡ length sources.now.infos.now }
        requires marks { AreMarked marks.old [] }
        ensures marks { OnOk result (AreMarked marks.new []) }
        ensures selects { (image : Image) → IsOf sources.now image
            → OnOk result (self.new.selects.items ≡ self.old.selects.items ++ chosen_row image offers.now.entries) }
        ensures numbers { OnOk result (self.new.numbers.items ≡ self.old.numbers.items ++ numbers_of offers.now.entries) }
    {
        for place in 0..offers.len() {
            let offer = offers.at(place);
            self.add(offer.number, chosen(marks, sources, offer))?;
        }
        Ok(())
    }
}

impl Room {
    /// Room for the numbers of all keys, and a mark for each class.
    pub fn new(alloc: Global, sources: &Sources<'_>) -> Result<Room, AllocError>
        ensures { IfOk result (λ room. IsRoom sources.now room) }
    {
        let count = sources.keys.keys.len();
        let chain = Table::new(alloc, count)?;
        let offers = Offers::new(alloc, count)?;
        let marks = vec![in alloc; false; sources.infos.len()]?;
        Ok(Room {
            chain,
            offers,
            marks,
        })
    }

    /// Gathers the methods of a class and its superclasses, and what interfaces offer beside them.
    fn gather(
        &mut self,
        alloc: Global,
        sources: &Sources<'_>,
        class: ClassId,
    ) -> Result<(), AllocError>
        requires sources { AreSources sources.now }
        requires class { class.0 < length sources.now.infos.now }
        requires room { IsRoom sources.now self.old }
        ensures room { OnOk result (IsRoom sources.now self.new) }
        ensures chain { (image : Image) → IsOf sources.now image → OnOk result (self.new.chain.entries ≡ chain_at image class.0) }
        ensures offers { (image : Image) → IsOf sources.now image → OnOk result (self.new.offers.entries ≡ offers_at image class.0) }
    {
        let supers = chain_of(alloc, sources.infos, class)?;
        self.chain.clear();
        enter_chain(&mut self.chain, sources.infos, sources.keys, &supers)?;
        let interfaces = superinterfaces_of(alloc, &mut self.marks, sources, &supers)?;
        self.offers.clear();
        offer_all(alloc, &mut self.offers, &self.chain, sources, &interfaces)
    }

    /// The table of a class.
    pub fn row_of(
        &mut self,
        alloc: Global,
        sources: &Sources<'_>,
        class: ClassId,
    ) -> Result<Row, AllocError>
        requires sources { AreSources sources.now }
        requires class { class.0 < length sources.now.infos.now }
        requires room { IsRoom sources.now self.old }
        ensures room { OnOk result (IsRoom sources.now self.new) }
        ensures selects { (image : Image) → IsOf sources.now image → IfOk result (λ row. row.selects.items ≡ table_at image class.0) }
        ensures numbers { (image : Image) → IsOf sources.now image → IfOk result (λ row. row.numbers.items ≡ map (key_of image) (keyed_at image class.0)) }
    {
        self.gather(alloc, sources, class)?;
        let mut row = Row {
            selects: Vec::new(alloc),
            numbers: Vec::new(alloc),
        };
        row.add_chain(sources, self.chain.entries())?;
        row.add_offers(&mut self.marks, sources, &self.offers)?;
        Ok(row)
    }
}
