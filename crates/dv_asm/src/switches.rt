// The payloads that switches name.
ghost use Rattle.std.specs.Prelude.{◌≡◌, ◌<◌, ◌||◌, ℕ, length, IfOk, OnOk};
ghost use Rattle.std.specs.Ordering.{nat_cmp};
ghost use Rattle.std.specs.Option.{option_or};
ghost use Rattle.std.specs.BTreeMap.{get};
ghost use Rattle.std.specs.BTreeSet.{contains};
ghost use Rattle.dv_asm.specs.First.{when};
ghost use Rattle.dv_asm.specs.Items.{item_at};
ghost use Rattle.dv_asm.specs.Places.{address_named_by};
ghost use Rattle.dv_asm.specs.Refusals.{is_address, is_payload_at, is_repeated, stands_payload, switch_of, repeated, repeated_at};
ghost use Rattle.dv_asm.specs.Switches.{AreFirstSwitches, ArePayloadAddresses};

use crate::items::{is_payload, label_of_switch};
use crate::labels::is_place;
use crate::lines::{first_line, when};
use crate::places::Places;
use dv_draft::Item;
use std::alloc::{AllocError, Global};
use std::collections::{BTreeMap, BTreeSet};
use std::marker::Model;

impl Places<'_> {
    /// The address that the item names where it is a switch.
    fn address_named_by(&self, item: &Item) -> Option<u64>
        ensures { result ≡ address_named_by self.now item.now }
    {
        match label_of_switch(item) {
            Some(name) => Some(self.label_address(name)),
            None => None,
        }
    }

    /// Adds the address that an item names with the item's place, where it is a switch and the address isn't there.
    fn add_switch(&self, switches: &mut BTreeMap<u64, usize>, k: usize) -> Result<(), AllocError>
        requires { k < length self.now }
        ensures { OnOk result ((address : ℕ) → get nat_cmp switches.new address
            ≡ option_or (get nat_cmp switches.old address)
            (when (is_address address (address_named_by self.now (item_at self.now k))) k)) }
    {
        if let Some(address) = self.address_named_by(self.item(k))
            && !switches.contains_key(&address)
        {
            switches.insert(address, k)?;
        }
        Ok(())
    }

    /// The addresses that switches name, each with the place of the first switch that names it.
    fn first_switches(&self, alloc: Global) -> Result<BTreeMap<u64, usize>, AllocError>
        ensures { IfOk result (λ switches. AreFirstSwitches self.now switches) }
    {
        let mut switches = BTreeMap::new(alloc);
        for k in 0..self.count() {
            match self.add_switch(&mut switches, k) {
                Ok(()) => {}
                Err(error) => {
                    drop(switches);
                    return Err(error);
                }
            }
        }
        Ok(switches)
    }

    /// Adds the address of an item where it is a payload.
    fn add_payload(&self, payloads: &mut BTreeSet<u64>, k: usize) -> Result<(), AllocError>
        requires { k < length self.now }
        ensures { OnOk result ((address : ℕ) → contains nat_cmp payloads.new address
            ≡ contains nat_cmp payloads.old address || is_payload_at self.now address k) }
    {
        if is_payload(self.item(k)) {
            payloads.insert(self.address_of(k))?;
        }
        Ok(())
    }

    /// The addresses at which payloads stand.
    fn payload_addresses(&self, alloc: Global) -> Result<BTreeSet<u64>, AllocError>
        ensures { IfOk result (λ payloads. ArePayloadAddresses self.now payloads) }
    {
        let mut payloads = BTreeSet::new(alloc);
        for k in 0..self.count() {
            match self.add_payload(&mut payloads, k) {
                Ok(()) => {}
                Err(error) => {
                    drop(payloads);
                    return Err(error);
                }
            }
        }
        Ok(payloads)
    }
}

/// Items with their places, the first switch that names each address, and the addresses at which payloads stand.
/// To a contract it is the list of the items.
#[derive(Drop)]
pub struct Switches<'a> {
    places: &'a Places<'a>,
    first: BTreeMap<u64, usize>,
    payloads: BTreeSet<u64>,
}

impl<'a> Model for Switches<'a> {
    ghost use Rattle.std.specs.Prelude.{List};
    ghost use Rattle.dv_draft.specs.declared.draft.Item.{Item};
    ghost use Rattle.dv_asm.specs.Switches.{AreFirstSwitches, ArePayloadAddresses};

    ghost Value = { List Item };

    ghost view = { λ s. s.places.now };

    ghost invariant = { λ s. AreFirstSwitches s.places.now s.first × ArePayloadAddresses s.places.now s.payloads };
}

impl<'a> Switches<'a> {
    pub fn of(alloc: Global, places: &'a Places<'a>) -> Result<Switches<'a>, AllocError>
        ensures { IfOk result (λ switches. switches ≡ places.now) }
    {
        let first = places.first_switches(alloc)?;
        match places.payload_addresses(alloc) {
            Ok(payloads) => Ok(Switches {
                places,
                first,
                payloads,
            }),
            Err(error) => {
                drop(first);
                Err(error)
            }
        }
    }

    /// The items with their places.
    pub fn places(&self) -> &'a Places<'a>
        ensures { result.now ≡ self.now }
    {
        self.places
    }

    /// The first switch that names an address.
    pub fn switch_of(&self, address: u64) -> Option<usize>
        ensures { result ≡ switch_of self.now address }
    {
        self.first.get(&address).copied()
    }

    /// Whether a payload stands at an address.
    fn stands_payload(&self, address: u64) -> bool
        ensures { result ≡ stands_payload self.now address }
    {
        self.payloads.contains(&address)
    }

    /// Whether an earlier switch names the payload that stands at an address.
    fn is_repeated(&self, k: usize, address: Option<u64>) -> bool
        ensures { result ≡ is_repeated self.now k address }
    {
        match address {
            Some(address) => {
                self.stands_payload(address) && !is_place(k, self.switch_of(address))
            }
            None => false,
        }
    }

    fn repeated_at(&self, k: usize) -> Option<u32>
        requires { k < length self.now }
        ensures { result ≡ repeated_at self.now k }
    {
        let item = self.places().item(k);
        let address = self.places().address_named_by(item);
        when(self.is_repeated(k, address), item.line)
    }

    /// The first line of a switch that names the same payload as an earlier one.
    pub fn repeated(&self) -> Option<u32>
        ensures { result ≡ repeated self.now }
    {
        first_line(self.places().count(), |k| self.repeated_at(k))
    }
}
