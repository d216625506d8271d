// The items of a body by their addresses.
ghost use Rattle.std.specs.Prelude.{◌≡◌, ◌<◌, All, IfOk, IfSome, length, map, option_map};
ghost use Rattle.dv_defs.specs.Tiling.{begins_insn, begins_item, payload_at, tile_at};
ghost use Rattle.dv_static.specs.Starting.{AreStarts, place_from};
ghost use Rattle.dv_static.specs.Tiles.{tile_of};

use crate::tiles::{Item, Tile};
use dv_defs::Payload;
use std::alloc::{AllocError, Global};
use std::marker::Model;

/// For each address the place of the item that begins there, where one does.
/// To a contract it is the list of the items.
#[derive(Drop)]
pub struct Starts<'a> {
    tiles: &'a [Tile],
    places: Vec<Option<usize>>,
}

impl<'a> Model for Starts<'a> {
    ghost use Rattle.std.specs.Prelude.{List};
    ghost use Rattle.dv_static.specs.declared.tiles.Tile.{Tile};
    ghost use Rattle.dv_static.specs.Starting.{AreStarts};

    ghost Value = { List Tile };

    ghost view = { λ s. s.tiles.now };

    ghost invariant = { λ s. AreStarts s.tiles.now s.places.items };
}

/// For each address the place of the first item that begins there.
fn starts_of(alloc: Global, tiles: &[Tile], units: usize) -> Result<Vec<Option<usize>>, AllocError>
    requires { All (λ t. t.at < units) tiles.now }
    ensures { IfOk result (λ places. AreStarts tiles.now places.items) }
{
    let mut places = vec![in alloc; None; units]?;
    for k in (0..tiles.len()).rev() {
        places[tiles[k].at as usize] = Some(k);
    }
    Ok(places)
}

impl<'a> Starts<'a> {
    /// The items of so many units by their addresses.
    pub fn new(alloc: Global, tiles: &'a [Tile], units: usize) -> Result<Starts<'a>, AllocError>
        requires { All (λ t. t.at < units) tiles.now }
        ensures { IfOk result (λ starts. starts ≡ tiles.now) }
    {
        let places = starts_of(alloc, tiles, units)?;
        Ok(Starts { tiles, places })
    }

    /// The place of the item that begins at an address.
    fn place_at(&self, at: u32) -> Option<usize>
        ensures place { result ≡ place_from 0 self.now at }
        ensures within { IfSome result (λ k. k < length self.now) }
    {
        let at = at as usize;
        if at < self.places.len() {
            self.places[at]
        } else {
            None
        }
    }

    /// The item that begins at an address.
    fn tile_at(&self, at: u32) -> Option<&'a Tile>
        ensures { option_map (λ t. tile_of t.now) result ≡ tile_at (map tile_of self.now) at }
    {
        match self.place_at(at) {
            Some(k) => Some(&self.tiles[k]),
            None => None,
        }
    }

    /// Whether an instruction begins at an address.
    pub fn begins_insn(&self, at: u32) -> bool
        ensures { result ≡ begins_insn (map tile_of self.now) at }
    {
        match self.tile_at(at) {
            Some(tile) => matches!(tile.item, Item::Insn(_)),
            None => false,
        }
    }

    /// Whether an instruction or a payload does.
    pub fn begins_item(&self, at: u32) -> bool
        ensures { result ≡ begins_item (map tile_of self.now) at }
    {
        self.tile_at(at).is_some()
    }

    /// The payload that begins at an address.
    pub fn payload_at(&self, at: u32) -> Option<&'a Payload>
        ensures { option_map (λ p. p.now) result ≡ payload_at (map tile_of self.now) at }
    {
        match &self.tile_at(at)?.item {
            Item::Payload(payload) => Some(payload),
            Item::Insn(_) => None,
        }
    }
}
