// Addresses in a body that isn't too long.
ghost use Rattle.std.specs.Prelude.{◌≡◌, ◌<◌, ◌≤◌, None, length};
ghost use Rattle.dv_asm.specs.Items.{item_at};
ghost use Rattle.dv_asm.specs.Places.{address_of, label_address, distance};
ghost use Rattle.dv_asm.specs.Refusals.{too_long, switch_of};
ghost use Rattle.dv_defs.specs.Body.{most_units};

use crate::places::Places;
use crate::switches::Switches;
use dv_defs::Text;
use dv_draft::Item;
use std::marker::Model;

/// Items of a body that isn't too long, with their places and what switches name.
/// To a contract it is the list of the items.
#[derive(Drop)]
pub struct Short<'a> {
    switches: Switches<'a>,
}

impl<'a> Model for Short<'a> {
    ghost use Rattle.std.specs.Prelude.{◌≡◌, List, None};
    ghost use Rattle.dv_draft.specs.declared.draft.Item.{Item};
    ghost use Rattle.dv_asm.specs.Refusals.{too_long};

    ghost Value = { List Item };

    ghost view = { λ s. s.switches };

    ghost invariant = { λ s. too_long s.switches ≡ None };
}

impl<'a> Short<'a> {
    pub fn of(switches: Switches<'a>) -> Short<'a>
        requires { too_long switches ≡ None }
        ensures { result ≡ switches.entry }
    {
        Short { switches }
    }

    /// The items with their places.
    pub fn places(&self) -> &'a Places<'a>
        ensures { result.now ≡ self.now }
    {
        self.switches.places()
    }

    /// No item's end passes the limit.
    pub fn is_short(&self)
        ensures { too_long self.now ≡ None }
    {
        let _ = &self.switches;
    }

    /// How many items there are.
    pub fn count(&self) -> usize
        ensures { result ≡ length self.now }
    {
        self.places().count()
    }

    /// The item at a place.
    pub fn item(&self, k: usize) -> &Item
        requires { k < length self.now }
        ensures { result.now ≡ item_at self.now k }
    {
        self.places().item(k)
    }

    /// The first switch that names an address.
    pub fn switch_of(&self, address: u32) -> Option<usize>
        ensures { result ≡ switch_of self.now address }
    {
        self.switches.switch_of(u64::from(address))
    }

    /// The address of an item, and at their number where the last one ends.
    #[tactic(auto, using(crate::proofs::PlaceLemmas::address_within))]
    pub fn address_of(&self, k: usize) -> u32
        requires { k ≤ length self.now }
        ensures value { result ≡ address_of self.now k }
        ensures small { result ≤ most_units }
    {
        self.is_short();
        self.places().address_of(k) as u32
    }

    /// The address of a label, 0 where there is none.
    #[tactic(auto, using(crate::proofs::PlaceLemmas::label_within))]
    pub fn label_address(&self, name: &Text) -> u32
        ensures value { result ≡ label_address self.now name.now }
        ensures small { result ≤ most_units }
    {
        self.is_short();
        self.places().label_address(name) as u32
    }

    /// How far a label is from an address.
    pub fn distance(&self, from: u32, name: &Text) -> i32
        requires { from ≤ most_units }
        ensures { result ≡ distance self.now from name.now }
    {
        self.label_address(name) as i32 - from as i32
    }
}
