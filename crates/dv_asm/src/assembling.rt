// Assembles a draft.
ghost use Rattle.std.specs.Prelude.{◌≡◌, ◌≤◌, None, Ok, length, map, IfOk, IfErr, OnOk};
ghost use Rattle.dv_defs.specs.Tiling.{tiling};
ghost use Rattle.dv_defs.specs.Body.{IsBody};
ghost use Rattle.dv_asm.specs.Refusals.{Checks, Tells, label_refusal, item_refusal, range_refusal, refusal};
ghost use Rattle.dv_draft.specs.Pools.{pools_of};
ghost use Rattle.dv_asm.specs.Layout.{AreWritable, layout, body_of, body_with, with_kinds, entry_of, units_of, sorted_ranges};
ghost use Rattle.dv_asm.specs.Ranges.{ranges_in};
ghost use Rattle.dv_asm.specs.Tiles.{tiles, tiles_of};

use crate::catches::Catches;
use crate::lines::refuse;
use crate::places::Places;
use crate::short::Short;
use crate::switches::Switches;
use dv_defs::{Body, LineError, LineKind, Seq, Try};
use dv_draft::{Catch, Draft, Pools};
use std::alloc::{AllocError, Global};
use std::collections::BTreeMap;

/// Refuses labels that stand twice, and labels that aren't there.
fn check_labels(places: &Places, catches: &[Catch]) -> Result<(), LineError>
    ensures { Checks result (label_refusal places.now catches.now) }
{
    refuse(places.label_twice(), LineKind::LabelTwice)?;
    refuse(places.no_label(catches), LineKind::NoLabel)
}

/// Refuses payloads of two switches, registers and offsets that don't fit, and bodies that are too long.
fn check_items(switches: &Switches) -> Result<(), LineError>
    ensures { Checks result (item_refusal switches.now) }
{
    let places = switches.places();
    refuse(switches.repeated(), LineKind::Repeated)?;
    refuse(places.register_range(), LineKind::RegisterRange)?;
    refuse(places.offset_range(), LineKind::OffsetRange)?;
    refuse(places.too_long(), LineKind::TooLong)
}

/// The items with what switches name. Refuses payloads of two switches, registers and offsets that don't fit, and
/// bodies that are too long.
fn fitting<'a>(alloc: Global, places: &'a Places<'a>) -> Result<Short<'a>, LineError>
    ensures checks { Checks result (item_refusal places.now) }
    ensures value { IfOk result (λ short. short ≡ places.now) }
{
    let switches = Switches::of(alloc, places)?;
    match check_items(&switches) {
        Ok(()) => Ok(Short::of(switches)),
        Err(error) => {
            drop(switches);
            Err(error)
        }
    }
}

/// The ranges by their starts. Refuses empty ranges and ranges that overlap.
fn sorted_ranges(alloc: Global, catches: &Catches) -> Result<BTreeMap<u32, u32>, LineError>
    ensures checks { Checks result (range_refusal catches.now.short.now catches.now.catches.now) }
    ensures value { IfOk result (λ sorted. ranges_in sorted.entries ≡ sorted_ranges catches.now.short.now catches.now.catches.now) }
{
    refuse(catches.try_range(), LineKind::TryRange)?;
    catches.sorted(alloc)
}

/// The body of its units, its try entries and its pools.
fn body_with(
    registers: u16,
    units: Vec<u16>,
    tries: Vec<Try>,
    pools: Pools,
) -> Result<Body, AllocError>
    requires { IsBody registers units.items tries.items pools.types }
    ensures { IfOk result (λ body. body ≡ body_with registers units.items tries.items pools) }
{
    let (strings, types, fields, methods) = pools.into_seqs()?;
    Ok(Body {
        registers,
        units: Seq::of(units),
        tries: Seq::of(tries),
        strings,
        types,
        fields,
        methods,
        raw: false,
    })
}

/// The units and the try entries of a body. The types that its handlers catch are added to the pools.
fn code_of(
    alloc: Global,
    catches: &Catches,
    sorted: &BTreeMap<u32, u32>,
    pools: &mut Pools,
) -> Result<(Vec<u16>, Vec<Try>), AllocError>
    requires { AreWritable catches.now.short.now pools.old }
    ensures units { IfOk result (λ code. code.0.items ≡ units_of catches.now.short.now pools.old (length catches.now.short.now)) }
    ensures tiled { IfOk result (λ code. tiling code.0.items
        ≡ Ok (tiles_of catches.now.short.now pools.old (length catches.now.short.now))) }
    ensures types { OnOk result (pools.new ≡ record pools.old {
      types = with_kinds catches.now.short.now catches.now.catches.now pools.old.types (ranges_in sorted.now.entries);
    }) }
    ensures tries { IfOk result (λ code. code.1.items
        ≡ map (entry_of catches.now.short.now catches.now.catches.now pools.new.types) (ranges_in sorted.now.entries)) }
{
    let units = catches.short.units(alloc, pools)?;
    let tries = catches.entries(alloc, &mut pools.types, sorted)?;
    Ok((units, tries))
}

/// The body of a draft that isn't refused.
fn body_of(
    alloc: Global,
    registers: u16,
    catches: &Catches,
    sorted: &BTreeMap<u32, u32>,
) -> Result<Body, AllocError>
    requires few { registers ≤ 256 }
    requires sorted { ranges_in sorted.now.entries ≡ sorted_ranges catches.now.short.now catches.now.catches.now }
    requires writable { AreWritable catches.now.short.now (pools_of catches.now.short.now) }
    ensures value { IfOk result (λ body. body ≡ body_of registers catches.now.short.now catches.now.catches.now) }
    ensures tiled { IfOk result (λ body. tiling body.units
        ≡ Ok (tiles_of catches.now.short.now (pools_of catches.now.short.now) (length catches.now.short.now))) }
{
    let short = catches.short;
    short.is_short();
    let mut pools = Pools::of(alloc, short.places().items())?;
    match code_of(alloc, catches, sorted, &mut pools) {
        Ok((units, tries)) => body_with(registers, units, tries, pools),
        Err(error) => {
            drop(pools);
            Err(error)
        }
    }
}

/// The body of items that aren't refused, with these handlers. Refuses empty ranges and ranges that overlap.
fn with_ranges(alloc: Global, registers: u16, catches: &Catches) -> Result<Body, LineError>
    requires few { registers ≤ 256 }
    requires writable { AreWritable catches.now.short.now (pools_of catches.now.short.now) }
    ensures checks { Checks result (range_refusal catches.now.short.now catches.now.catches.now) }
    ensures value { IfOk result (λ body. body ≡ body_of registers catches.now.short.now catches.now.catches.now) }
    ensures tiled { IfOk result (λ body. tiling body.units
        ≡ Ok (tiles_of catches.now.short.now (pools_of catches.now.short.now) (length catches.now.short.now))) }
{
    let sorted = sorted_ranges(alloc, catches)?;
    let body = body_of(alloc, registers, catches, &sorted)?;
    Ok(body)
}

/// The body of items that aren't refused, with the handlers of a draft. Refuses empty ranges and ranges that overlap.
fn with_catches(
    alloc: Global,
    registers: u16,
    short: &Short,
    catches: &[Catch],
) -> Result<Body, LineError>
    requires few { registers ≤ 256 }
    requires writable { AreWritable short.now (pools_of short.now) }
    ensures checks { Checks result (range_refusal short.now catches.now) }
    ensures value { IfOk result (λ body. body ≡ body_of registers short.now catches.now) }
    ensures tiled { IfOk result (λ body. tiling body.units ≡ Ok (tiles_of short.now (pools_of short.now) (length short.now))) }
{
    let catches = Catches::of(alloc, short, catches)?;
    with_ranges(alloc, registers, &catches)
}

/// The body of a draft, whose items have these places, or the first refusal.
fn with_places(alloc: Global, draft: &Draft, places: &Places) -> Result<Body, LineError>
    requires { places.now ≡ draft.now.items }
    ensures checks { Checks result (refusal draft.now) }
    ensures value { IfOk result (λ body. body ≡ layout draft.now) }
    ensures tiled { IfOk result (λ body. tiling body.units ≡ Ok (tiles draft.now)) }
{
    let catches = draft.catches.items();
    check_labels(places, catches)?;
    let short = fitting(alloc, places)?;
    let body = with_catches(alloc, draft.registers, &short, catches);
    drop(short);
    body
}

/// Assembles a draft: its units, its try entries and its pools.
///
/// # Errors
///
/// `LabelTwice`, `NoLabel`, `Repeated` where a second switch names a payload, `RegisterRange`, `OffsetRange`, `TooLong`,
/// `TryRange` where a start isn't before its end, `TryOverlap`: the first of these that stands somewhere, at its first
/// line. And `Memory`.
pub fn assemble(alloc: Global, draft: &Draft) -> Result<Body, LineError>
    ensures sound { IfOk result (λ body. refusal draft.now ≡ None) }
    ensures value { IfOk result (λ body. body ≡ layout draft.now) }
    ensures refused { IfErr result (λ error. Tells error (refusal draft.now)) }

    // The units are tiled by what was assembled.
    ensures tiled { IfOk result (λ body. tiling body.units ≡ Ok (tiles draft.now)) }
{
    let places = Places::of(alloc, draft.items.items())?;
    with_places(alloc, draft, &places)
}
