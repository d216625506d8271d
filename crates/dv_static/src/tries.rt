// The rules of try entries: S17 and S18.
ghost use Rattle.std.specs.Prelude.{◌≡◌, ◌++◌, ◌&&◌, length, map, nat_lt, slice_get, IfOk, OnOk};
ghost use Rattle.dv_typing.specs.Accepting.{handlers_good, is_handler_type, try_places};
ghost use Rattle.dv_defs.specs.Names.{throwable_name};
ghost use Rattle.dv_defs.specs.Types.{of_class};
ghost use Rattle.dv_ops.specs.Meaning.{code_of};
ghost use Rattle.dv_static.specs.Placed.{places_of};
ghost use Rattle.dv_static.specs.Tiles.{tile_of};
ghost use Rattle.dv_static.specs.Trying.{entry_places, handler_good, range_good};

use crate::places::{Place, add_unless};
use crate::starts::Starts;
use dv_defs::{Base, Handler, Image, Rule, Text, Try, Ty};
use dv_image::sub;
use dv_ops::Coded;
use std::alloc::{AllocError, Global};

const THROWABLE: &[u8] = b"Ljava/lang/Throwable;";

fn throwable_type(alloc: Global) -> Result<Ty, AllocError>
    ensures { IfOk result (λ t. t ≡ of_class throwable_name) }
{
    let name = Text::of(Vec::from_slice(alloc, THROWABLE)?)?;
    Ok(Ty {
        dims: 0,
        base: Base::Class(name),
    })
}

/// Whether the type at a place of the body's types is under Throwable.
fn is_handler_type(image: &Image, throwable: &Ty, types: &[Ty], place: u32) -> bool
    requires { throwable.now ≡ of_class throwable_name }
    ensures { result ≡ is_handler_type image.now (slice_get types.now place) }
{
    let place = place as usize;
    place < types.len() && sub(image, &types[place], throwable)
}

/// Whether a handler stands at an instruction and catches what is under Throwable, or all where it is the last.
fn is_good_handler(
    image: &Image,
    code: &Coded<'_>,
    starts: &Starts<'_>,
    throwable: &Ty,
    handler: &Handler,
    is_last: bool,
) -> bool
    requires tiles { (code_of code.now).tiles ≡ map tile_of starts.now }
    requires throwable { throwable.now ≡ of_class throwable_name }
    ensures { result ≡ handler_good image.now (code_of code.now) is_last handler.now }
{
    let body = code.body;
    starts.begins_insn(handler.at)
        && match handler.kind {
            None => is_last,
            Some(place) => is_handler_type(image, throwable, body.types.items(), place),
        }
}

/// Whether all handlers of an entry are good.
fn are_good_handlers(
    image: &Image,
    code: &Coded<'_>,
    starts: &Starts<'_>,
    throwable: &Ty,
    handlers: &[Handler],
) -> bool
    requires tiles { (code_of code.now).tiles ≡ map tile_of starts.now }
    requires throwable { throwable.now ≡ of_class throwable_name }
    ensures { result ≡ handlers_good image.now (code_of code.now) handlers.now }
{
    for i in 0..handlers.len() {
        let is_last = i + 1 == handlers.len();
        if !is_good_handler(image, code, starts, throwable, &handlers[i], is_last) {
            return false;
        }
    }
    true
}

/// Whether an entry covers whole items, at least one, from where the entry before it ends at the earliest.
fn is_good_range(code: &Coded<'_>, starts: &Starts<'_>, before: u32, entry: &Try) -> bool
    requires { (code_of code.now).tiles ≡ map tile_of starts.now }
    ensures { result ≡ range_good (code_of code.now) before entry.now }
{
    let body = code.body;
    starts.begins_insn(entry.start)
        && entry.start < entry.end
        && (starts.begins_item(entry.end) || entry.end as usize == body.units.len())
        && before <= entry.start
}

/// Adds the rules that an entry breaks, after one that ends at an address.
fn add_entry_places(
    image: &Image,
    code: &Coded<'_>,
    starts: &Starts<'_>,
    throwable: &Ty,
    before: u32,
    entry: &Try,
    places: &mut Vec<Place>,
) -> Result<(), AllocError>
    requires tiles { (code_of code.now).tiles ≡ map tile_of starts.now }
    requires throwable { throwable.now ≡ of_class throwable_name }
    ensures { OnOk result (places_of places.new.items ≡ places_of places.old.items ++ entry_places image.now (code_of code.now) before entry.now) }
{
    let range = is_good_range(code, starts, before, entry);
    add_unless(range, entry.start, Rule::S(17), places)?;
    let handlers = entry.handlers.items();
    let caught = !handlers.is_empty()
        && are_good_handlers(image, code, starts, throwable, handlers);
    add_unless(caught, entry.start, Rule::S(18), places)
}

/// Adds the rules that the try entries of a body break, one after another.
fn add_each_try(
    image: &Image,
    code: &Coded<'_>,
    starts: &Starts<'_>,
    throwable: &Ty,
    places: &mut Vec<Place>,
) -> Result<(), AllocError>
    requires tiles { (code_of code.now).tiles ≡ map tile_of starts.now }
    requires throwable { throwable.now ≡ of_class throwable_name }
    ensures { OnOk result (places_of places.new.items ≡ places_of places.old.items ++ try_places image.now (code_of code.now) 0 code.now.body.now.tries) }
{
    let body = code.body;
    let tries = body.tries.items();
    let mut before = 0;
    for i in 0..tries.len() {
        let entry = &tries[i];
        add_entry_places(image, code, starts, throwable, before, entry, places)?;
        before = entry.end;
    }
    Ok(())
}

/// Adds the rules that the try entries of a body break.
pub fn add_try_places(
    alloc: Global,
    image: &Image,
    code: &Coded<'_>,
    starts: &Starts<'_>,
    places: &mut Vec<Place>,
) -> Result<(), AllocError>
    requires { (code_of code.now).tiles ≡ map tile_of starts.now }
    ensures { OnOk result (places_of places.new.items ≡ places_of places.old.items ++ try_places image.now (code_of code.now) 0 code.now.body.now.tries) }
{
    let throwable = throwable_type(alloc)?;
    let added = add_each_try(image, code, starts, &throwable, places);
    drop(throwable);
    added
}
