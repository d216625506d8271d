// fill-array-data.
ghost use Rattle.std.specs.Prelude.{◌≡◌, ◌≢◌, ◌*◌, ◌<◌, ◌≤◌, ◌^◌, true, false, ℕ, Some, length, IsSome, IsTrue, MatchOption};
ghost use Rattle.dv_typing.specs.Demands.{is_fill_type};
ghost use Rattle.dv_defs.specs.Images.{Image as Linked};
ghost use Rattle.dv_defs.specs.Numbers.{elements};
ghost use Rattle.dv_defs.specs.Op.{Fill};
ghost use Rattle.dv_defs.specs.Tiling.{bytes_in, payload_at, tiles_in, tiling};
ghost use Rattle.dv_defs.specs.Types as types;
ghost use Rattle.dv_defs.specs.Types.{is_class_base};
ghost use Rattle.dv_ops.specs.Meaning.{elements_in, width_in};
ghost use Rattle.dv_words.specs.declared.state.Kind.TheVariants as kind;
ghost use Rattle.dv_words.specs.Heaps.{kind_of, words_of_object};
ghost use Rattle.dv_words.specs.Local.{reg_word};
ghost use Rattle.dv_words.specs.Mem as steps;
ghost use Rattle.dv_words.specs.Mem.{component_of, fill_words, filled, stored, word_mem};
ghost use Rattle.dv_mem.specs.Operands.{AreWithin, IsArray, IsNullOrArray};
ghost use Rattle.dv_mem.specs.Payloads.{element_at};
ghost use Rattle.dv_mem.specs.Tops.{Answers, seen, top_frame};
ghost use Rattle.dv_mem.specs.Values.{listed};

use crate::fields::{is_long, words_of};
use crate::narrowing::narrowed_words;
use crate::payload::{Data, data_at, element};
use crate::registers::{go_on, word};
use crate::words::{Words, is_string, store};
use dv_defs::{Base, Named, Next, Ty};
use dv_frames::Stack;
use dv_heap::Heap;
use dv_words::Kind;

/// The same base, where it is a number's.
fn number(base: &Base) -> Option<Base>
    ensures { MatchOption result (is_class_base base.now ≡ true) (λ b. b ≡ base.now) }
{
    match base {
        Base::Z => Some(Base::Z),
        Base::B => Some(Base::B),
        Base::C => Some(Base::C),
        Base::S => Some(Base::S),
        Base::I => Some(Base::I),
        Base::J => Some(Base::J),
        Base::Class(_) => None,
    }
}

/// The type of an array's elements, none where no payload fills them.
fn component(array: &Ty) -> Option<Ty>
    ensures { MatchOption result ((width : ℕ) → is_fill_type width (types.component array.now) ≡ false) (λ t. t ≡ types.component array.now) }
{
    let base = number(&array.base)?;
    Some(Ty {
        dims: array.dims.saturating_sub(1),
        base,
    })
}

/// What an array of elements of this type keeps of an element.
fn kept(ty: &Ty, width: u16, units: &[u16], place: u32) -> Words
    ensures { is_fill_type width ty.now ≡ true → listed result ≡ fill_words ty.now (element_at width units.now place) }
{
    match element(width, units, place) {
        Words::One(word) => narrowed_words(ty, Words::One(word)),
        long => long,
    }
}

/// The place of the first word of an element of this type.
fn slot_of(ty: &Ty, place: u32) -> u32
    requires { place * types.words_of ty.now < 2 ^ 32 }
    ensures { result ≡ place * types.words_of ty.now }
{
    if is_long(ty) { place * 2 } else { place }
}

/// The elements of an array, of this type, take the data.
fn fill_elements(heap: &mut Heap, array: u32, ty: &Ty, data: Data<'_>)
    requires fits { is_fill_type data.width ty.now ≡ true }
    requires there { AreWithin heap.old array 0 (data.count * types.words_of ty.now) }
    requires no_string { kind_of heap.old array ≢ Some kind.Str }
    ensures { heap.new ≡ stored heap.old array 0 (filled ty.now (elements data.entry.count data.entry.width (bytes_in data.entry.units.now))) }
{
    for k in 0..data.count {
        let value = kept(ty, data.width, data.units, k);
        store(heap, array, slot_of(ty, k), value);
    }
}

/// Whether an object, no string, has so many elements of so many words.
fn has_elements(heap: &Heap, object: u32, count: u32, words: u32) -> bool
    requires { words ≤ 2 }
    ensures there { IsTrue result → AreWithin heap.now object 0 (count * words) }
    ensures no_string { IsTrue result → kind_of heap.now object ≢ Some kind.Str }
    ensures lacking { result ≡ false → 0 < object → IsSome (kind_of heap.now object) → kind_of heap.now object ≢ Some kind.Str →
        length (words_of_object heap.now object) < count * words }
{
    if object == 0 || !heap.exists(object) || is_string(heap, object) {
        return false;
    }
    u64::from(count) * u64::from(words) <= u64::from(heap.size(object))
}

/// Whether a payload of so many bytes an element fills elements of a type.
fn fits(width: u16, ty: &Ty) -> bool
    ensures { result ≡ is_fill_type width ty.now }
{
    match &ty.base {
        Base::Z | Base::B => ty.dims == 0 && width == 1,
        Base::C | Base::S => ty.dims == 0 && width == 2,
        Base::I => ty.dims == 0 && width == 4,
        Base::J => ty.dims == 0 && width == 8,
        Base::Class(_) => false,
    }
}

/// fill-array-data of an array with such elements: all of them, or none where it has fewer.
fn fill_array(
    heap: &mut Heap,
    stack: &mut Stack,
    next: u32,
    array: u32,
    ty: &Ty,
    data: Data<'_>,
) -> Next
    requires { IsSome (kind_of heap.old array) }
    ensures { (image : Linked) → IsArray (is_fill_type data.entry.width) heap.old array → component_of (seen image stack.old heap.old next) array ≡ ty.now →
        Answers result (steps.fill (seen image stack.old heap.old next) (elements data.entry.count data.entry.width (bytes_in data.entry.units.now)) array) stack.old heap.old stack.new heap.new }
{
    if heap.length(array) < data.count {
        return Next::Throw(Named::ArrayIndex);
    }
    if fits(data.width, ty) && has_elements(heap, array, data.count, words_of(ty)) {
        fill_elements(heap, array, ty, data);
        go_on(stack, next);
    }
    Next::On
}

/// fill-array-data: the array takes the payload at an address of these units.
#[tactic(auto, using(crate::proofs::Data::typed_is_data))]
pub fn fill(units: &[u16], heap: &mut Heap, stack: &mut Stack, next: u32, a: u16, to: u32) -> Next
    ensures { (image : Linked) → let p = payload_at (tiles_in (tiling units.now)) to in
        IsNullOrArray (is_fill_type (width_in p)) heap.old (reg_word (top_frame stack.old) a) →
        Answers result (word_mem (seen image stack.old heap.old next) (Fill a (width_in p) (elements_in p))) stack.old heap.old stack.new heap.new }
{
    let array = word(stack, a);
    if array == 0 || !heap.exists(array) {
        return Next::Throw(Named::NullPointer);
    }
    let Some(data) = data_at(units, to) else {
        return Next::On;
    };
    let Kind::Array(ty) = heap.kind(array) else {
        return Next::On;
    };
    let Some(element) = component(ty) else {
        return Next::On;
    };
    fill_array(heap, stack, next, array, &element, data)
}
