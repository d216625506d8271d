// The words of one value of a field or an element.
ghost use Rattle.std.specs.Prelude.{◌≡◌, ◌≢◌, ◌↔◌, ◌<◌, ◌≤◌, ◌+◌, false, Some, IsSome, IsTrue, length, slice_index_or, []};
ghost use Rattle.dv_words.specs.declared.state.Kind.TheVariants as kind;
ghost use Rattle.dv_words.specs.Heaps.{kind_of, words_of_object};
ghost use Rattle.dv_words.specs.Stacks.{changed};
ghost use Rattle.dv_words.specs.Mem as steps;
ghost use Rattle.dv_mem.specs.Elements.{width_of};
ghost use Rattle.dv_mem.specs.Operands.{AreWithin};
ghost use Rattle.dv_mem.specs.Tops.{top_frame};
ghost use Rattle.dv_mem.specs.Values.{listed, words_from, static_from};

use crate::registers;
use dv_defs::FieldId;
use dv_frames::Stack;
use dv_heap::Heap;
use dv_words::Kind;

/// The words of a value: one, or the two of a long, the low one first.
#[derive(Clone, Copy, PartialEq, Eq, Debug)]
pub enum Words {
    One(u32),
    Two(u32, u32),
}

/// The value in a register, or in a register and the one after it.
pub fn register(stack: &Stack, reg: u16, wide: bool) -> Words
    ensures { listed result ≡ steps.words_in (top_frame stack.now) reg wide }
{
    let low = registers::word(stack, reg);
    if wide {
        Words::Two(low, registers::next_word(stack, reg))
    } else {
        Words::One(low)
    }
}

/// Writes a value to a register, or to a register and the one after it, and goes on at an address.
pub fn put(stack: &mut Stack, next: u32, reg: u16, value: Words)
    ensures { stack.new ≡ changed (λ f. steps.put_words (top_frame stack.old) next reg (listed value)) stack.old }
{
    match value {
        Words::One(word) => registers::put(stack, next, reg, word),
        Words::Two(low, high) => registers::put_two(stack, next, reg, low, high),
    }
}

/// Whether an object is a string.
pub fn is_string(heap: &Heap, object: u32) -> bool
    requires { IsSome (kind_of heap.now object) }
    ensures { IsTrue result ↔ (kind_of heap.now object ≡ Some kind.Str) }
{
    matches!(heap.kind(object), Kind::Str)
}

/// Whether an object has so many words from a place on.
pub fn has_words(heap: &Heap, object: u32, slot: u32, count: u32) -> bool
    ensures there { IsTrue result → AreWithin heap.now object slot count }
    ensures exists { IsTrue result → IsSome (kind_of heap.now object) }
    ensures lacking { result ≡ false → 0 < object → IsSome (kind_of heap.now object) → length (words_of_object heap.now object) < slot + count }
{
    if object == 0 || !heap.exists(object) {
        return false;
    }
    u64::from(slot) + u64::from(count) <= u64::from(heap.size(object))
}

/// Whether an object is no string and has so many words from a place on, so that they can be written.
pub fn takes_words(heap: &Heap, object: u32, slot: u32, count: u32) -> bool
    ensures there { IsTrue result → AreWithin heap.now object slot count }
    ensures no_string { IsTrue result → kind_of heap.now object ≢ Some kind.Str }
    ensures lacking { result ≡ false → 0 < object → IsSome (kind_of heap.now object) → kind_of heap.now object ≢ Some kind.Str →
        length (words_of_object heap.now object) < slot + count }
{
    has_words(heap, object, slot, count) && !is_string(heap, object)
}

/// A value of an object.
pub fn load(heap: &Heap, object: u32, slot: u32, wide: bool) -> Words
    requires { AreWithin heap.now object slot (width_of wide) }
    ensures { listed result ≡ words_from heap.now object slot wide }
{
    let low = heap.get(object, slot);
    if wide {
        Words::Two(low, heap.get(object, slot + 1))
    } else {
        Words::One(low)
    }
}

/// Writes a value of an object that is no string.
pub fn store(heap: &mut Heap, object: u32, slot: u32, value: Words)
    requires there { AreWithin heap.old object slot (length (listed value)) }
    requires no_string { kind_of heap.old object ≢ Some kind.Str }
    ensures { heap.new ≡ steps.stored heap.old object slot (listed value) }
{
    match value {
        Words::One(word) => heap.put(object, slot, word),
        Words::Two(low, high) => {
            heap.put(object, slot, low);
            heap.put(object, slot + 1, high);
        }
    }
}

/// The value of a static field.
pub fn load_static(heap: &Heap, field: FieldId, wide: bool) -> Words
    requires { width_of wide ≤ length (slice_index_or heap.now.statics field.0 []) }
    ensures { listed result ≡ static_from heap.now field.0 wide }
{
    let low = heap.static_get(field, 0);
    if wide {
        Words::Two(low, heap.static_get(field, 1))
    } else {
        Words::One(low)
    }
}

/// Writes the value of a static field.
pub fn store_static(heap: &mut Heap, field: FieldId, value: Words)
    requires { length (listed value) ≤ length (slice_index_or heap.old.statics field.0 []) }
    ensures { heap.new ≡ steps.static_stored heap.old field.0 0 (listed value) }
{
    match value {
        Words::One(word) => heap.static_put(field, 0, word),
        Words::Two(low, high) => {
            heap.static_put(field, 0, low);
            heap.static_put(field, 1, high);
        }
    }
}
