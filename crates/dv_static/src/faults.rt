// The static faults of a method.
ghost use Rattle.std.specs.Prelude.{◌≡◌, ◌<◌, ◌∷◌, ◌++◌, ◌%◌, [], All, Ok, Some, IsSome, IfOk, OnOk, map, nat_le};
ghost use Rattle.dv_typing.specs.Accepting.{first_places, item_places, no_units, places_by, rule_at as rule_there, rule_of_unit as rule_of, sorted, static_fault, static_places, tile_places, try_places};
ghost use Rattle.dv_defs.specs.Formats.{is_float as is_float_opcode};
ghost use Rattle.dv_defs.specs.Op.{Code, code_at};
ghost use Rattle.dv_defs.specs.Tiling.{tiling};
ghost use Rattle.dv_typing.specs.Statics.{arg_words};
ghost use Rattle.dv_ops.specs.Meaning.{code_of, method_of};
ghost use Rattle.dv_static.specs.Finding.{places_found};
ghost use Rattle.dv_static.specs.Placed.{place_of, places_of};
ghost use Rattle.dv_static.specs.Tiles.{item_of, tile_of};
ghost use Rattle.dv_defs.specs.Body.{most_units};

use crate::insns::add_insn_places;
use crate::members::words_left;
use crate::payloads::add_payload_places;
use crate::places::{Place, add_unless, in_order};
use crate::starts::Starts;
use crate::tiles::{Item, Tile, Tiled, tiles_of};
use crate::tries::add_try_places;
use dv_defs::{Fault, Image, MethodId, Rule};
use dv_ops::{Coded, coded_at};
use dv_optable::is_float;
use std::alloc::{AllocError, Global};

/// The static rules that a method's body breaks, by address and rule, each once. Where its units aren't instructions and payloads one
/// after another, that is the one fault.
pub fn static_faults(
    alloc: Global,
    image: &Image,
    method: MethodId,
) -> Result<Vec<Fault>, AllocError>
    requires { IsSome (code_at image.now method.0) }
    ensures { (code : Code) → code_at image.now method.0 ≡ Some code → IfOk result (λ v. v.items ≡ map (static_fault method.0) (static_places image.now code)) }
{
    let code = coded_at(image, method).unwrap();
    let places = body_places(alloc, image, &code)?;
    faults_of(alloc, method, &places)
}

/// What is broken at places of a method.
fn faults_of(alloc: Global, method: MethodId, places: &[Place]) -> Result<Vec<Fault>, AllocError>
    ensures { IfOk result (λ v. v.items ≡ map (static_fault method.0) (places_of places.now)) }
{
    let mut faults = Vec::new(alloc);
    for i in 0..places.len() {
        faults.push(fault_of(method, places[i]))?;
    }
    Ok(faults)
}

fn fault_of(method: MethodId, place: Place) -> Fault
    ensures { result ≡ static_fault method.0 (place_of place) }
{
    Fault {
        method,
        address: place.at,
        rule: place.rule,
    }
}

/// What a body breaks, in order.
#[tactic(auto, unfolding(dv_typing::specs::Accepting::static_places))]
fn body_places(alloc: Global, image: &Image, code: &Coded<'_>) -> Result<Vec<Place>, AllocError>
    ensures { IfOk result (λ v. places_of v.items ≡ static_places image.now (code_of code.now)) }
{
    let body = code.body;
    match tiles_of(alloc, body.units.items())? {
        Tiled::Whole(tiles) => {
            let places = whole_places(alloc, image, code, tiles.items());
            drop(tiles);
            places
        }
        Tiled::Broken(at) => one_place(alloc, at, rule_at(body.units.items(), at)),
    }
}

fn one_place(alloc: Global, at: u32, rule: Rule) -> Result<Vec<Place>, AllocError>
    ensures { IfOk result (λ v. places_of v.items ≡ record { at = at; broken = rule } ∷ []) }
{
    let mut places = Vec::new(alloc);
    places.push(Place { at, rule })?;
    Ok(places)
}

/// Why no item begins at an address: S2 where the opcode of a float stands there, else S1.
fn rule_at(units: &[u16], at: u32) -> Rule
    ensures { result ≡ rule_there units.now at }
{
    rule_of_unit(units.get(at as usize).copied())
}

/// The same by the unit that stands there.
fn rule_of_unit(unit: Option<u16>) -> Rule
    ensures { result ≡ rule_of unit }
{
    match unit {
        Some(unit) => {
            if begins_float(unit) {
                Rule::S(2)
            } else {
                Rule::S(1)
            }
        }
        None => Rule::S(1),
    }
}

/// Whether a unit has the opcode of a float.
#[tactic(auto, using(dv_units::proofs::Opcodes::floats_agree))]
fn begins_float(unit: u16) -> bool
    ensures { result ≡ is_float_opcode (unit % 256) }
{
    is_float((unit % 256) as u8)
}

/// What a body breaks whose units are items one after another.
fn whole_places(
    alloc: Global,
    image: &Image,
    code: &Coded<'_>,
    tiles: &[Tile],
) -> Result<Vec<Place>, AllocError>
    requires { tiling code.now.body.now.units ≡ Ok (map tile_of tiles.now) }
    ensures { IfOk result (λ v. places_of v.items ≡ places_by image.now (code_of code.now) (Ok (map tile_of tiles.now))) }
{
    if has_no_units(code) {
        one_place(alloc, 0, Rule::S(1))
    } else {
        all_places(alloc, image, code, tiles)
    }
}

fn has_no_units(code: &Coded<'_>) -> bool
    ensures { result ≡ no_units code.now.body.now.units }
{
    let body = code.body;
    is_empty(body.units.items())
}

fn is_empty(units: &[u16]) -> bool
    ensures { result ≡ no_units units.now }
{
    matches!(units, [])
}

/// What the items and the try entries of a body break, in order.
#[tactic(auto, using(crate::proofs::StartLemmas::all_within, crate::proofs::StartLemmas::all_short))]
fn all_places(
    alloc: Global,
    image: &Image,
    code: &Coded<'_>,
    tiles: &[Tile],
) -> Result<Vec<Place>, AllocError>
    requires { tiling code.now.body.now.units ≡ Ok (map tile_of tiles.now) }
    ensures { IfOk result (λ v. places_of v.items ≡ sorted (places_found image.now (code_of code.now) (map tile_of tiles.now))) }
{
    let body = code.body;
    let starts = Starts::new(alloc, tiles, body.units.len())?;
    let found = found_places(alloc, image, code, &starts, tiles);
    drop(starts);
    in_order(found?)
}

/// The same as they are found.
fn found_places(
    alloc: Global,
    image: &Image,
    code: &Coded<'_>,
    starts: &Starts<'_>,
    tiles: &[Tile],
) -> Result<Vec<Place>, AllocError>
    requires starts { (code_of code.now).tiles ≡ map tile_of starts.now }
    requires short { All (λ t. t.at < most_units) tiles.now }
    ensures { IfOk result (λ v. places_of v.items ≡ places_found image.now (code_of code.now) (map tile_of tiles.now)) }
{
    let mut places = Vec::new(alloc);
    match add_found_places(alloc, image, code, starts, tiles, &mut places) {
        Ok(()) => Ok(places),
        Err(error) => {
            drop(places);
            Err(error)
        }
    }
}

/// Adds what a body breaks at its beginning, item by item, and try entry by try entry.
fn add_found_places(
    alloc: Global,
    image: &Image,
    code: &Coded<'_>,
    starts: &Starts<'_>,
    tiles: &[Tile],
    places: &mut Vec<Place>,
) -> Result<(), AllocError>
    requires starts { (code_of code.now).tiles ≡ map tile_of starts.now }
    requires short { All (λ t. t.at < most_units) tiles.now }
    ensures { OnOk result (places_of places.new.items ≡ ((places_of places.old.items ++ first_places image.now (code_of code.now)) ++ tile_places image.now (code_of code.now) (map tile_of tiles.now)) ++ try_places image.now (code_of code.now) 0 code.now.body.now.tries) }
{
    add_first_places(code, starts, places)?;
    add_tile_places(image, code, starts, tiles, places)?;
    add_try_places(alloc, image, code, starts, places)
}

/// Adds S3, where no instruction begins at address 0, and S11, where there are fewer registers than words of arguments.
fn add_first_places(
    code: &Coded<'_>,
    starts: &Starts<'_>,
    places: &mut Vec<Place>,
) -> Result<(), AllocError>
    requires { (code_of code.now).tiles ≡ map tile_of starts.now }
    ensures { (image : Image) → OnOk result (places_of places.new.items ≡ places_of places.old.items ++ first_places image (code_of code.now)) }
{
    add_unless(starts.begins_insn(0), 0, Rule::S(3), places)?;
    add_unless(has_room(code), 0, Rule::S(11), places)
}

/// Whether the words of a method's arguments have registers.
fn has_room(code: &Coded<'_>) -> bool
    ensures { result ≡ nat_le (arg_words (method_of code.now.method)) code.now.body.now.registers }
{
    let body = code.body;
    words_left(&code.method, body.registers as usize).is_some()
}

/// Adds what the items of a body break.
fn add_tile_places<'a>(
    image: &'a Image,
    code: &Coded<'a>,
    starts: &Starts<'_>,
    tiles: &[Tile],
    places: &mut Vec<Place>,
) -> Result<(), AllocError>
    requires starts { (code_of code.now).tiles ≡ map tile_of starts.now }
    requires short { All (λ t. t.at < most_units) tiles.now }
    ensures { OnOk result (places_of places.new.items ≡ places_of places.old.items ++ tile_places image.now (code_of code.now) (map tile_of tiles.now)) }
{
    for i in 0..tiles.len() {
        add_item_places(image, code, starts, &tiles[i], places)?;
    }
    Ok(())
}

/// Adds what an item breaks.
fn add_item_places<'a>(
    image: &'a Image,
    code: &Coded<'a>,
    starts: &Starts<'_>,
    tile: &Tile,
    places: &mut Vec<Place>,
) -> Result<(), AllocError>
    requires starts { (code_of code.now).tiles ≡ map tile_of starts.now }
    requires short { tile.now.at < most_units }
    ensures { OnOk result (places_of places.new.items ≡ places_of places.old.items ++ item_places image.now (code_of code.now) tile.now.at (item_of tile.now.item)) }
{
    match &tile.item {
        Item::Insn(insn) => add_insn_places(image, code, starts, tile.at, insn, places),
        Item::Payload(payload) => add_payload_places(tile.at, payload, places),
    }
}
