// Instance fields and static fields.
ghost use Rattle.std.specs.Prelude.{◌≡◌, ◌≢◌, ◌≤◌, ℕ, Some, IfOk};
ghost use Rattle.dv_defs.specs.Images.{Image as Linked};
ghost use Rattle.dv_defs.specs.Op.{FieldGet, FieldPut, StaticGet, StaticPut};
ghost use Rattle.dv_defs.specs.Parts.{Suffix as Ending};
ghost use Rattle.dv_defs.specs.Types as types;
ghost use Rattle.dv_machine.specs.Mem.{on_object};
ghost use Rattle.dv_machine.specs.State.{Did};
ghost use Rattle.dv_ops.specs.Meaning.{field_of};
ghost use Rattle.dv_words.specs.declared.state.Kind.TheVariants as kind;
ghost use Rattle.dv_words.specs.Heaps.{kind_of};
ghost use Rattle.dv_words.specs.Local.{reg_word};
ghost use Rattle.dv_words.specs.Mem.{WordLeft, word_mem};
ghost use Rattle.dv_mem.specs.Elements.{by_found};
ghost use Rattle.dv_mem.specs.Operands.{AreWithin, HasStaticWords, IsNullOrOwner};
ghost use Rattle.dv_mem.specs.Tops.{Answers, seen, top_frame};

use crate::narrowing::narrowed_words;
use crate::registers::{go_on, word};
use crate::words::{self, has_words, load, load_static, store, store_static, takes_words};
use dv_defs::{Base, Named, Next, Ty};
use dv_frames::Stack;
use dv_heap::Heap;
use dv_ops::Field;

/// Whether a value of the type has two words.
pub fn is_long(ty: &Ty) -> bool
    ensures { result ≡ types.is_long ty.now }
{
    ty.dims == 0 && matches!(ty.base, Base::J)
}

/// How many words a value of the type has.
pub fn words_of(ty: &Ty) -> u32
    ensures words { result ≡ types.words_of ty.now }
    ensures few { result ≤ 2 }
{
    if is_long(ty) { 2 } else { 1 }
}

/// The object with the field, which can be read there.
///
/// # Errors
///
/// The exception that null throws (JLS 15.11.1).
fn read_owner(heap: &Heap, object: u32, field: &Field<'_>) -> Result<u32, Named>
    ensures there { IfOk result (λ o. AreWithin heap.now o field.now.info.slot (types.words_of field.now.def.now.ty)) }
    ensures found { (go : ℕ → Did WordLeft) → IsNullOrOwner (field_of field.now) heap.now object → on_object go object ≡ by_found go result }
{
    let def = field.def;
    if has_words(heap, object, field.info.slot, words_of(&def.ty)) {
        Ok(object)
    } else {
        Err(Named::NullPointer)
    }
}

/// The object with the field, which can be written there: it is no string.
///
/// # Errors
///
/// The exception that null throws (JLS 15.11.1).
fn written_owner(heap: &Heap, object: u32, field: &Field<'_>) -> Result<u32, Named>
    ensures there { IfOk result (λ o. AreWithin heap.now o field.now.info.slot (types.words_of field.now.def.now.ty)) }
    ensures no_string { IfOk result (λ o. kind_of heap.now o ≢ Some kind.Str) }
    ensures found { (go : ℕ → Did WordLeft) → IsNullOrOwner (field_of field.now) heap.now object → on_object go object ≡ by_found go result }
{
    let def = field.def;
    if takes_words(heap, object, field.info.slot, words_of(&def.ty)) {
        Ok(object)
    } else {
        Err(Named::NullPointer)
    }
}

/// iget and its kin: register a takes the field of b.
pub fn field_get(
    heap: &Heap,
    stack: &mut Stack,
    next: u32,
    a: u16,
    b: u16,
    field: &Field<'_>,
) -> Next
    ensures { (image : Linked) (s : Ending) → IsNullOrOwner (field_of field.now) heap.now (reg_word (top_frame stack.old) b) →
        Answers result (word_mem (seen image stack.old heap.now next) (FieldGet s a b (field_of field.now))) stack.old heap.now stack.new heap.now }
{
    let def = field.def;
    match read_owner(heap, word(stack, b), field) {
        Err(named) => Next::Throw(named),
        Ok(object) => {
            let value = load(heap, object, field.info.slot, is_long(&def.ty));
            words::put(stack, next, a, value);
            Next::On
        }
    }
}

/// iput and its kin: the field of b takes register a.
pub fn field_put(
    heap: &mut Heap,
    stack: &mut Stack,
    next: u32,
    a: u16,
    b: u16,
    field: &Field<'_>,
) -> Next
    ensures { (image : Linked) (s : Ending) → IsNullOrOwner (field_of field.now) heap.old (reg_word (top_frame stack.old) b) →
        Answers result (word_mem (seen image stack.old heap.old next) (FieldPut s a b (field_of field.now))) stack.old heap.old stack.new heap.new }
{
    let def = field.def;
    match written_owner(heap, word(stack, b), field) {
        Err(named) => Next::Throw(named),
        Ok(object) => {
            let value = words::register(stack, a, is_long(&def.ty));
            store(
                heap,
                object,
                field.info.slot,
                narrowed_words(&def.ty, value),
            );
            go_on(stack, next);
            Next::On
        }
    }
}

/// sget and its kin: register a takes the static field.
pub fn static_get(heap: &Heap, stack: &mut Stack, next: u32, a: u16, field: &Field<'_>) -> Next
    ensures { (image : Linked) (s : Ending) → HasStaticWords heap.now (field_of field.now) →
        Answers result (word_mem (seen image stack.old heap.now next) (StaticGet s a (field_of field.now))) stack.old heap.now stack.new heap.now }
{
    let def = field.def;
    if heap.static_size(field.id) < words_of(&def.ty) {
        return Next::On;
    }
    let value = load_static(heap, field.id, is_long(&def.ty));
    words::put(stack, next, a, value);
    Next::On
}

/// sput and its kin: the static field takes register a.
pub fn static_put(heap: &mut Heap, stack: &mut Stack, next: u32, a: u16, field: &Field<'_>) -> Next
    ensures { (image : Linked) (s : Ending) → HasStaticWords heap.old (field_of field.now) →
        Answers result (word_mem (seen image stack.old heap.old next) (StaticPut s a (field_of field.now))) stack.old heap.old stack.new heap.new }
{
    let def = field.def;
    if heap.static_size(field.id) < words_of(&def.ty) {
        return Next::On;
    }
    let value = words::register(stack, a, is_long(&def.ty));
    store_static(heap, field.id, narrowed_words(&def.ty, value));
    go_on(stack, next);
    Next::On
}
