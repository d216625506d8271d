// The addresses of items and labels.
ghost use Rattle.std.specs.Prelude.{◌≡◌, ◌+◌, ◌%◌, ◌-ℤ◌, ◌^◌, ◌<◌, ◌≤◌, ◌&&◌, ℕ, false, List, drop, nat_eq, pos, length, vec_len, slice_index_or, IfOk, OnOk, if◌then◌else◌};
ghost use Rattle.std.specs.Cmp.Lexicographic.{slice_cmp};
ghost use Rattle.std.specs.Ordering.{nat_cmp};
ghost use Rattle.std.specs.Option.{option_or};
ghost use Rattle.std.specs.BTreeMap.{get};
ghost use Rattle.dv_asm.specs.First.{when};
ghost use Rattle.dv_asm.specs.Items.{item_at, is_named};
ghost use Rattle.dv_asm.specs.Places.{leads_to_payload, place_of, label_address, distance, address_of, AreAddresses, AreFirstLabels};

use crate::items::{is_label, is_payload, size};
use dv_defs::Text;
use dv_draft::{Item, What};
use std::alloc::{AllocError, Global};
use std::collections::BTreeMap;
use std::marker::Model;

/// More units than any memory holds.
const TOO_MANY: u64 = 1 << 62;

/// Items with the address of each one and where the last one ends, and with the place of the first label of each name.
/// To a contract it is the list of the items.
#[derive(Drop)]
pub struct Places<'a> {
    items: &'a [Item],
    addresses: Vec<u64>,
    labels: BTreeMap<Text, usize>,
}

impl<'a> Model for Places<'a> {
    ghost use Rattle.std.specs.Prelude.{List};
    ghost use Rattle.dv_draft.specs.declared.draft.Item.{Item};
    ghost use Rattle.dv_asm.specs.Places.{ArePlaces};

    ghost Value = { List Item };

    ghost view = { λ p. p.items.now };

    ghost invariant = { λ p. ArePlaces p.items.now p.addresses.items p.labels };
}

/// Whether each item leads to a payload: whether one comes next, labels before it passed over.
fn lead_to_payloads(alloc: Global, items: &[Item]) -> Result<Vec<bool>, AllocError>
    ensures count { IfOk result (λ leading. vec_len leading ≡ length items.now) }
    ensures value { IfOk result (λ leading. (k : ℕ) → k < length items.now
        → slice_index_or leading.items k false ≡ leads_to_payload (drop k items.now)) }
{
    let mut leading = vec![in alloc; false; items.len()]?;
    let mut leads = false;
    for k in (0..items.len()).rev() {
        if !is_label(&items[k]) {
            leads = is_payload(&items[k]);
        }
        leading[k] = leads;
    }
    Ok(leading)
}

/// Where an item stands, if those before it end at `end`, by whether it leads to a payload.
fn aligned(end: u64, leads: bool) -> u64
    requires { end ≤ 2 ^ 62 }
    ensures { result ≡ if nat_eq (end % 2) 1 && leads then end + 1 else end }
{
    if end % 2 == 1 && leads { end + 1 } else { end }
}

/// The address of each item, and where the last one ends.
fn addresses(alloc: Global, items: &[Item]) -> Result<Vec<u64>, AllocError>
    ensures { IfOk result (λ addresses. AreAddresses items.now addresses.items) }
{
    let leading = lead_to_payloads(alloc, items)?;
    let mut addresses = Vec::new(alloc);
    let mut end = 0;
    for k in 0..items.len() {
        let address = aligned(end, leading[k]);
        addresses.push(address)?;
        end = address + size(&items[k]);
        if end >= TOO_MANY {
            return Err(AllocError);
        }
    }
    addresses.push(end)?;
    Ok(addresses)
}

/// Adds an item's name with the item's place, where it is a label of a name that isn't there.
fn add_label(
    labels: &mut BTreeMap<Text, usize>,
    item: &Item,
    place: usize,
) -> Result<(), AllocError>
    ensures { OnOk result ((name : List ℕ) → get (slice_cmp nat_cmp) labels.new name
        ≡ option_or (get (slice_cmp nat_cmp) labels.old name) (when (is_named name item.now) place)) }
{
    if let What::Label(name) = &item.what
        && !labels.contains_key(name)
    {
        labels.insert(name.clone()?, place)?;
    }
    Ok(())
}

/// The names of the labels, each with the place of its first label.
fn first_labels(alloc: Global, items: &[Item]) -> Result<BTreeMap<Text, usize>, AllocError>
    ensures { IfOk result (λ labels. AreFirstLabels items.now labels) }
{
    let mut labels = BTreeMap::new(alloc);
    for k in 0..items.len() {
        match add_label(&mut labels, &items[k], k) {
            Ok(()) => {}
            Err(error) => {
                drop(labels);
                return Err(error);
            }
        }
    }
    Ok(labels)
}

impl<'a> Places<'a> {
    pub fn of(alloc: Global, items: &'a [Item]) -> Result<Places<'a>, AllocError>
        ensures { IfOk result (λ places. places ≡ items.now) }
    {
        Ok(Places {
            items,
            addresses: addresses(alloc, items)?,
            labels: first_labels(alloc, items)?,
        })
    }

    /// The items.
    pub fn items(&self) -> &'a [Item]
        ensures { result.now ≡ self.now }
    {
        self.items
    }

    /// How many items there are.
    pub fn count(&self) -> usize
        ensures { result ≡ length self.now }
    {
        self.items.len()
    }

    /// The item at a place.
    pub fn item(&self, k: usize) -> &Item
        requires { k < length self.now }
        ensures { result.now ≡ item_at self.now k }
    {
        &self.items()[k]
    }

    /// The place among the items of the first label of a name.
    pub fn find_label(&self, name: &Text) -> Option<usize>
        ensures { result ≡ place_of self.now name.now }
    {
        self.labels.get(name).copied()
    }

    /// The address of an item, and at their number where the last one ends.
    pub fn address_of(&self, k: usize) -> u64
        requires { k ≤ length self.now }
        ensures value { result ≡ address_of self.now k }
        ensures small { result ≤ 2 ^ 62 }
    {
        self.addresses[k]
    }

    /// The address of a label, 0 where there is none.
    pub fn label_address(&self, name: &Text) -> u64
        ensures value { result ≡ label_address self.now name.now }
        ensures small { result ≤ 2 ^ 62 }
    {
        match self.find_label(name) {
            Some(k) => self.addresses[k],
            None => 0,
        }
    }

    /// How far a label is from an item.
    pub fn distance(&self, k: usize, name: &Text) -> i64
        requires { k ≤ length self.now }
        ensures { result ≡ distance self.now (address_of self.now k) name.now }
    {
        difference(self.address_of(k), self.label_address(name))
    }
}

/// How far one address is from another.
fn difference(from: u64, to: u64) -> i64
    requires from { from ≤ 2 ^ 62 }
    requires to { to ≤ 2 ^ 62 }
    ensures { result ≡ pos to -ℤ pos from }
{
    to as i64 - from as i64
}
