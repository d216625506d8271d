// Slots of monitors, some of them empty, and the places by object of the monitors that stand far.
ghost use Rattle.std.specs.Prelude.{◌≡◌, ◌≢◌, ℕ, ◌+◌, ◌<◌, ◌≤◌, IfNone, IfSome, None, Some, false, nat_eq, vec_capacity, vec_len};
ghost use Rattle.std.specs.Option.{option_map};
ghost use Rattle.std.specs.HashMap.{get, spare};
ghost use Rattle.dv_machine.specs.Monitors.{given_up, held_in};
ghost use Rattle.dv_monitor.specs.Slots.{IsIndexed, held_value, mapped, object_in, present, slot_at};

use crate::holding::Holding;
use std::collections::HashMap;

/// The places of the monitors that stand far, by object.
pub type Places = HashMap<u32, usize>;

// So many slots are looked through one by one, and a monitor in one of them stands near. Only the others stand in the map: so where few are held, no
// object is hashed.
const NEAR: usize = 8;

// Slots are closed up where there are more than four for each monitor that stands far and for so many more.
const SLACK: usize = 32;

/// The monitor of an object, and its place.
#[inline(always)]
pub fn find(slots: &[Option<Holding>], places: &Places, object: u32) -> Option<(usize, Holding)>
    requires { IsIndexed slots.now (get nat_eq places.now) }
    ensures slot { IfSome result (λ found. slot_at slots.now found.0 ≡ Some found.1) }
    ensures object { IfSome result (λ found. found.1.object ≡ object) }
    ensures held { option_map (λ found. held_value found.1) result ≡ held_in (present slots.now) object }
{
    match find_near(slots, object) {
        Some(found) => Some(found),
        None => find_far(slots, places, object),
    }
}

// The monitor of an object, and its place, where it stands near.
#[inline(always)]
fn find_near(slots: &[Option<Holding>], object: u32) -> Option<(usize, Holding)>
    ensures slot { IfSome result (λ found. slot_at slots.now found.0 ≡ Some found.1) }
    ensures object { IfSome result (λ found. found.1.object ≡ object) }
    ensures none { IfNone result ((place : ℕ) → place < NEAR → object_in (slot_at slots.now place) ≢ Some object) }
{
    for place in 0..slots.len().min(NEAR) {
        if let Some(holding) = slots[place] {
            if holding.object == object {
                return Some((place, holding));
            }
        }
    }
    None
}

// The monitor of an object, and its place, where it stands far.
fn find_far(slots: &[Option<Holding>], places: &Places, object: u32) -> Option<(usize, Holding)>
    requires { IsIndexed slots.now (get nat_eq places.now) }
    ensures slot { IfSome result (λ found. slot_at slots.now found.0 ≡ Some found.1) }
    ensures object { IfSome result (λ found. found.1.object ≡ object) }
    ensures none { IfNone result ((place : ℕ) → NEAR ≤ place → object_in (slot_at slots.now place) ≢ Some object) }
{
    if slots.len() <= NEAR {
        return None;
    }
    let place = *places.get(&object)?;
    let holding = slots[place]?;
    Some((place, holding))
}

/// Notes the place of a new monitor, if it stands far.
pub fn note(places: &mut Places, object: u32, place: usize)
    requires new { get nat_eq places.old object ≡ None }
    requires room { 0 < spare places.old }
    ensures there { get nat_eq places.new object ≡ mapped place }
    ensures others { (other : ℕ) → nat_eq object other ≡ false → get nat_eq places.new other ≡ get nat_eq places.old other }
    ensures spare { spare places.old ≤ spare places.new + 1 }
{
    if place >= NEAR {
        let added: Result<_, _> = places.insert(object, place);
        let _ = added.unwrap();
    }
}

// Forgets the place of a monitor, if it stands far.
fn forget(places: &mut Places, object: u32, place: usize)
    requires { get nat_eq places.old object ≡ mapped place }
    ensures gone { get nat_eq places.new object ≡ None }
    ensures others { (other : ℕ) → nat_eq object other ≡ false → get nat_eq places.new other ≡ get nat_eq places.old other }
    ensures spare { spare places.old ≤ spare places.new }
{
    if place >= NEAR {
        let _ = places.remove(&object);
    }
}

// Notes that a monitor has moved down.
fn note_move(places: &mut Places, object: u32, from: usize, to: usize)
    requires stood { get nat_eq places.old object ≡ mapped from }
    requires down { to ≤ from }
    ensures there { get nat_eq places.new object ≡ mapped to }
    ensures others { (other : ℕ) → nat_eq object other ≡ false → get nat_eq places.new other ≡ get nat_eq places.old other }
    ensures spare { spare places.old ≤ spare places.new }
{
    if to < NEAR {
        forget(places, object, from);
    } else {
        *places.get_mut(&object).unwrap() = to;
    }
}

/// Empties the slot of an object's monitor.
pub fn take_out(slots: &mut Vec<Option<Holding>>, places: &mut Places, object: u32, place: usize)
    requires indexed { IsIndexed slots.old.items (get nat_eq places.old) }
    requires stands { object_in (slot_at slots.old.items place) ≡ Some object }
    ensures indexed { IsIndexed slots.new.items (get nat_eq places.new) }
    ensures present { present slots.new.items ≡ given_up (present slots.old.items) object }
    ensures len { vec_len slots.new ≤ vec_len slots.old }
    ensures capacity { vec_capacity slots.new ≡ vec_capacity slots.old }
    ensures spare { spare places.old ≤ spare places.new }
{
    forget(places, object, place);
    slots[place] = None;
    drop_empty_end(slots);
    if slots.len() / 4 > places.len() + SLACK {
        close_up(slots, places);
    }
}

// Takes off the empty slots at the end.
fn drop_empty_end(slots: &mut Vec<Option<Holding>>)
    ensures slots { (place : ℕ) → slot_at slots.new.items place ≡ slot_at slots.old.items place }
    ensures len { vec_len slots.new ≤ vec_len slots.old }
    ensures capacity { vec_capacity slots.new ≡ vec_capacity slots.old }
{
    while let Some(None) = slots.last() {
        let _ = slots.pop();
    }
}

// Moves each monitor down over the empty slots below it.
fn close_up(slots: &mut Vec<Option<Holding>>, places: &mut Places)
    requires indexed { IsIndexed slots.old.items (get nat_eq places.old) }
    ensures indexed { IsIndexed slots.new.items (get nat_eq places.new) }
    ensures present { present slots.new.items ≡ present slots.old.items }
    ensures len { vec_len slots.new ≤ vec_len slots.old }
    ensures capacity { vec_capacity slots.new ≡ vec_capacity slots.old }
    ensures spare { spare places.old ≤ spare places.new }
{
    let mut to = 0;
    for from in 0..slots.len() {
        if let Some(holding) = slots[from] {
            move_down(slots, places, from, to, holding);
            to += 1;
        }
    }
    slots.truncate(to);
}

// Moves a monitor down to an empty slot, or leaves it where it is.
fn move_down(
    slots: &mut Vec<Option<Holding>>,
    places: &mut Places,
    from: usize,
    to: usize,
    holding: Holding,
)
    requires indexed { IsIndexed slots.old.items (get nat_eq places.old) }
    requires stands { slot_at slots.old.items from ≡ Some holding }
    requires down { to ≤ from }
    requires empty { (place : ℕ) → to ≤ place → place < from → slot_at slots.old.items place ≡ None }
    ensures indexed { IsIndexed slots.new.items (get nat_eq places.new) }
    ensures present { present slots.new.items ≡ present slots.old.items }
    ensures empty { (place : ℕ) → to + 1 ≤ place → place < from + 1 → slot_at slots.new.items place ≡ None }
    ensures len { vec_len slots.new ≡ vec_len slots.old }
    ensures capacity { vec_capacity slots.new ≡ vec_capacity slots.old }
    ensures spare { spare places.old ≤ spare places.new }
{
    note_move(places, holding.object, from, to);
    slots[from] = None;
    slots[to] = Some(holding);
}
