// The messages of exceptions.
ghost use Rattle.std.specs.Prelude.{◌≡◌, ◌++◌, ◌<◌, ◌^◌, ℕ, IfOk, OnOk, slice_index};
ghost use Rattle.dv_defs.specs.Texts.{utf8};
ghost use Rattle.dv_words.specs.Heaps.{kind_of};
ghost use Rattle.dv_words.specs.Natives as natives;
ghost use Rattle.dv_words.specs.Natives.{text_of};
ghost use Rattle.dv_final.specs.Final.{message, word_there};

use dv_defs::{Chars, Image, Text};
use dv_heap::Heap;
use dv_names::utf8_of_chars;
use dv_throw::throwable_slot;
use dv_words::Kind;
use std::alloc::{AllocError, Global};

const MESSAGE: &[u8] = b"message";

/// A word of an object, 0 where it has no such word or isn't there.
fn word_there(heap: &Heap, object: u32, slot: u32) -> u32
    ensures { result ≡ word_there heap.now object slot }
{
    if heap.exists(object) && slot < heap.size(object) {
        heap.get(object, slot)
    } else {
        0
    }
}

/// The units of a string; null and other objects have none.
fn text_of(heap: &Heap, object: u32) -> &[u32]
    ensures text { result.now ≡ text_of heap.now object }
    ensures units { (k : ℕ) → slice_index result.now k < 2 ^ 16 }
{
    if is_string(heap, object) {
        heap.words(object)
    } else {
        &[]
    }
}

/// Whether an object is a string.
fn is_string(heap: &Heap, object: u32) -> bool
    ensures { result ≡ natives.is_string (kind_of heap.now object) }
{
    heap.exists(object) && matches!(heap.kind(object), Kind::Str)
}

/// Words as units of UTF-16.
fn chars_of(alloc: Global, words: &[u32]) -> Result<Chars, AllocError>
    requires units { (k : ℕ) → slice_index words.now k < 2 ^ 16 }
    ensures { IfOk result (λ chars. chars ≡ words.now) }
{
    let mut units = Vec::new(alloc);
    for word in words {
        units.push(*word as u16)?;
    }
    Ok(Chars::of(units))
}

/// A string in UTF-8.
fn utf8_of(alloc: Global, heap: &Heap, string: u32) -> Result<Text, AllocError>
    ensures { IfOk result (λ text. text ≡ utf8 (text_of heap.now string)) }
{
    let chars = chars_of(alloc, text_of(heap, string))?;
    utf8_of_chars(alloc, &chars)
}

/// Appends the message of an exception behind a colon and a blank; nothing where it is null.
pub fn add_message(
    line: &mut Vec<u8>,
    image: &Image,
    heap: &Heap,
    exception: u32,
) -> Result<(), AllocError>
    ensures { OnOk result (line.new.items ≡ line.old.items ++ message image.now heap.now exception) }
{
    let string = word_there(heap, exception, throwable_slot(image, MESSAGE));
    if string == 0 {
        return Ok(());
    }
    let text = utf8_of(*line.allocator(), heap, string)?;
    line.extend_from_slice(b": ")?;
    line.extend_from_slice(text.bytes())
}
