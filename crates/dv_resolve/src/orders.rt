// The orders in which look-ups go through classes.
ghost use Rattle.std.specs.Prelude.{◌≡◌, ◌≤◌, ◌<◌, ◌^◌, ◌∷◌, ◌++◌, ℕ, List, true, [], length, slice_index_or, IfOk, OnOk};
ghost use Rattle.dv_defs.specs.Images.{Image};
ghost use Rattle.dv_defs.specs.LookUp.{interfaces_above, once};
ghost use Rattle.dv_defs.specs.Order.{has_number, numbers};
ghost use Rattle.dv_defs.specs.Pools.{class_number, parent_at, supers};
ghost use Rattle.law_linking.specs.Ordered.{IsOrdered};
ghost use Rattle.dv_resolve.specs.Orders.{AreKnown, AreOrders, GoesOn, IsNoted, IsOrdersOf, KnowsRest, fields_through, place_of};

use dv_defs::{ClassId, ClassInfo, Seq};
use std::alloc::{AllocError, Global};

/// The place of a class that doesn't stand in an order, or too far behind to be told.
const NOWHERE: u16 = 65535;

/// Classes in the order in which a look-up goes through them, each where it comes first.
#[derive(Drop)]
pub struct Order {
    pub classes: Vec<ClassId>,
    /// By class, the place where it stands.
    pub places: Vec<u16>,
}

/// The two orders of look-ups that begin in a class.
#[derive(Drop)]
pub struct Orders {
    pub fields: Order,
    pub methods: Order,
}

/// The superclass of a class.
fn parent_of(infos: &[ClassInfo], class: ClassId) -> Option<ClassId>
    ensures { (image : Image) → image.classes ≡ infos.now → class_number result ≡ parent_at image class.0 }
{
    match infos.get(class.0 as usize) {
        Some(info) => info.parent,
        None => None,
    }
}

/// A class and its superclasses, nearest first.
fn supers_of(alloc: Global, infos: &[ClassInfo], class: ClassId) -> Result<Vec<ClassId>, AllocError>
    ensures { (image : Image) → image.classes ≡ infos.now → IfOk result (λ up. numbers up.items ≡ supers image class.0) }
{
    let mut up = Vec::new(alloc);
    let mut at = Some(class);
    for _ in 0..infos.len() {
        let Some(id) = at else {
            return Ok(up);
        };
        up.push(id)?;
        at = parent_of(infos, id);
    }
    Ok(up)
}

/// The interfaces that a class names and those above them, in the order of look-up.
fn interfaces_of(interfaces: &[Seq<ClassId>], class: ClassId) -> &[ClassId]
    ensures { result.now ≡ slice_index_or interfaces.now class.0 [] }
{
    match interfaces.get(class.0 as usize) {
        Some(above) => above.items(),
        None => &[],
    }
}

/// An order of none of so many classes.
fn empty_order(alloc: Global, count: usize) -> Result<Order, AllocError>
    ensures { IfOk result (λ order. (cs : List ℕ) → GoesOn order cs cs) }
{
    let mut places = Vec::new(alloc);
    places.resize(count, NOWHERE)?;
    Ok(Order {
        classes: Vec::new(alloc),
        places,
    })
}

/// Notes the place of a class that has none yet, and tells whether it had none.
fn note(places: &mut [u16], class: ClassId, place: usize) -> bool
    ensures { IsNoted places.old places.new class.0 place result }
{
    let at = class.0 as usize;
    if at >= places.len() {
        return true;
    }
    if places[at] < NOWHERE {
        return false;
    }
    places[at] = place.min(NOWHERE as usize) as u16;
    true
}

/// Adds a class at the end, unless it is there.
fn add(order: &mut Order, class: ClassId) -> Result<(), AllocError>
    ensures { (rest whole : List ℕ) → GoesOn order.old (class.0 ∷ rest) whole → OnOk result (GoesOn order.new rest whole) }
{
    let place = order.classes.len();
    if note(&mut order.places, class, place) {
        order.classes.push(class)?;
    }
    Ok(())
}

/// Adds these classes at the end, each unless it is there.
fn add_all(order: &mut Order, classes: &[ClassId]) -> Result<(), AllocError>
    ensures { (rest whole : List ℕ) → GoesOn order.old (numbers classes.now ++ rest) whole → OnOk result (GoesOn order.new rest whole) }
{
    for class in classes {
        add(order, *class)?;
    }
    Ok(())
}

/// Where a field is looked for: in each of these classes and the interfaces above it. Where an order from one of them on is known, it is taken over.
fn field_order(
    alloc: Global,
    interfaces: &[Seq<ClassId>],
    up: &[ClassId],
    known: &[Orders],
    count: usize,
) -> Result<Order, AllocError>
    ensures { KnowsRest known.now interfaces.now (numbers up.now)
        → IfOk result (λ order. GoesOn order [] (fields_through interfaces.now (numbers up.now))) }
{
    let mut order = empty_order(alloc, count)?;
    for class in up {
        if let Some(rest) = known.get(class.0 as usize) {
            add_all(&mut order, rest.fields.classes.as_slice())?;
            return Ok(order);
        }
        add(&mut order, *class)?;
        add_all(&mut order, interfaces_of(interfaces, *class))?;
    }
    Ok(order)
}

/// Where a method is looked for: in each of these classes, and then where a field is.
fn method_order(
    alloc: Global,
    up: &[ClassId],
    fields: &[ClassId],
    count: usize,
) -> Result<Order, AllocError>
    ensures { IfOk result (λ order. GoesOn order [] (numbers up.now ++ numbers fields.now)) }
{
    let mut order = empty_order(alloc, count)?;
    add_all(&mut order, up)?;
    add_all(&mut order, fields)?;
    Ok(order)
}

/// The orders of look-ups that begin in a class, over those that are known.
fn orders_of(
    alloc: Global,
    infos: &[ClassInfo],
    interfaces: &[Seq<ClassId>],
    known: &[Orders],
    class: ClassId,
) -> Result<Orders, AllocError>
    ensures { (image : Image) → image.classes ≡ infos.now → IsOrdered image → class.0 < length image.classes
        → ((c : ℕ) → numbers (slice_index_or interfaces.now c []) ≡ once (interfaces_above image c))
        → AreKnown image known.now → IfOk result (IsOrdersOf image class.0) }
{
    let up = supers_of(alloc, infos, class)?;
    let fields = field_order(alloc, interfaces, &up, known, infos.len())?;
    let methods = method_order(alloc, &up, &fields.classes, infos.len())?;
    Ok(Orders { fields, methods })
}

/// By class, the orders of look-ups that begin in it.
pub fn orders_of_all(
    alloc: Global,
    infos: &[ClassInfo],
    interfaces: &[Seq<ClassId>],
) -> Result<Vec<Orders>, AllocError>
    requires { length infos.now < 2 ^ 32 }
    ensures { (image : Image) → image.classes ≡ infos.now → IsOrdered image
        → ((c : ℕ) → numbers (slice_index_or interfaces.now c []) ≡ once (interfaces_above image c))
        → IfOk result (λ all. AreOrders image all.items) }
{
    let mut all = Vec::new(alloc);
    for class in 0..infos.len() {
        let orders = orders_of(alloc, infos, interfaces, &all, ClassId(class as u32))?;
        all.push(orders)?;
    }
    Ok(all)
}

/// The place of a class.
fn place_in(places: &[u16], class: ClassId) -> u16
    ensures { result ≡ place_of places.now class.0 }
{
    match places.get(class.0 as usize) {
        Some(place) => *place,
        None => 0,
    }
}

/// A place before which none of these classes stands: that of the first one.
pub fn first_place(places: &[u16], classes: &[ClassId]) -> usize
    ensures { (c : ℕ) → has_number c (numbers classes.now) ≡ true → result ≤ place_of places.now c }
{
    let mut first = NOWHERE;
    for class in classes {
        first = first.min(place_in(places, *class));
    }
    first as usize
}
