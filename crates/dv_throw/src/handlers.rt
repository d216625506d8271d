// Which handler catches an exception (JLS 11.3, 14.20.1).
ghost use Rattle.std.specs.Prelude.{◌≡◌};
ghost use Rattle.dv_typing.specs.Flow.{catchers, handlers_at, handlers_of as catchers_of};
ghost use Rattle.dv_words.specs.Unwinding.{catches as is_catching, handler_for as catching};
ghost use Rattle.dv_throw.specs.Handlers.{type_caught};

use dv_defs::{Body, Handler, Image, MethodId};
use dv_heap::Heap;
use dv_objects::is_instance;
use dv_ops::coded_at;

/// The address of the first handler that catches an object which flies from an address of a method.
#[tactic(auto, unfolding(dv_typing::specs::Flow::handlers_at))]
pub fn handler_for(
    image: &Image,
    heap: &Heap,
    object: u32,
    method: MethodId,
    at: u32,
) -> Option<u32>
    ensures { result ≡ catching image.now heap.now object (handlers_at image.now method.0 at) }
{
    match coded_at(image, method) {
        Some(code) => first_catching(image, heap, object, code.body, handlers_of(code.body, at)),
        None => None,
    }
}

/// The handlers of the try entry that covers an address, none where no entry does.
fn handlers_of(body: &Body, at: u32) -> &[Handler]
    ensures { catchers body.now result.now ≡ catchers_of body.now body.now.tries at }
{
    for entry in body.tries.items() {
        if entry.start <= at && at < entry.end {
            return entry.handlers.items();
        }
    }
    &[]
}

/// The address of the first of a body's handlers that catches an object. One that catches all ends the search.
fn first_catching(
    image: &Image,
    heap: &Heap,
    object: u32,
    body: &Body,
    handlers: &[Handler],
) -> Option<u32>
    ensures { result ≡ catching image.now heap.now object (catchers body.now handlers.now) }
{
    for handler in handlers {
        if catches(image, heap, object, body, handler) {
            return Some(handler.at);
        }
    }
    None
}

/// Whether a handler of a body catches an object.
fn catches(image: &Image, heap: &Heap, object: u32, body: &Body, handler: &Handler) -> bool
    ensures { result ≡ is_catching image.now heap.now object (type_caught body.now handler.now) }
{
    let Some(place) = handler.kind else {
        return true;
    };
    match body.types.items().get(place as usize) {
        Some(ty) => is_instance(image, heap, object, ty),
        None => true,
    }
}
