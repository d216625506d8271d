// New objects, and strings and Class objects that stand once.
ghost use Rattle.std.specs.Prelude.{◌≡◌, ◌<◌, ◌≤◌, ℕ, ◌+◌, ◌^◌, length, slice_index, replicate, true, false, IfOk, IfErr, OnErr, Some, None, Ok};
ghost use Rattle.dv_machine.specs.Heap.{found_among};
ghost use Rattle.dv_words.specs.declared.state.Kind.TheVariants as kind;
ghost use Rattle.dv_words.specs.Heaps as heaps;
ghost use Rattle.dv_words.specs.Heaps.{has_room, counted_by, newest, cost_of_object, cost_of_array, is_text, is_class_of};
ghost use Rattle.dv_heap.specs.Answers.{IsGot, newest_of, grown_to};
ghost use Rattle.dv_heap.specs.Blocks.{filling};
ghost use Rattle.dv_heap.specs.Keeping.{AreUnits};
ghost use Rattle.dv_heap.specs.Placing.{as_kind};

use super::Heap;
use crate::borrowed::BorrowedKind;
use crate::contents::Contents;
use crate::error::HeapError;
use crate::fields::words_of_class;
use crate::making::{add_class, add_text};
use crate::types::element_words;
use dv_defs::{Chars, ClassId, Image, Ty};
use std::alloc::AllocError;

/// How many words a string of these units needs. Each unit has 16 bits.
fn cost_of_text(units: &[u16]) -> u64
    ensures cost { result ≡ 2 + length units.now }
    ensures few { result ≤ 2 ^ 63 + 1 }
    ensures whole { (j : ℕ) → slice_index units.now j < 2 ^ 16 }
{
    2 + units.len() as u64
}

/// How many words are used once there are so many more, under a limit.
fn room_under(limit: u32, used: u32, needed: u64) -> Result<u32, HeapError>
    requires { needed ≤ 2 ^ 63 + 1 }
    ensures room { IfOk result (λ after. (used + needed ≤ limit) × (after ≡ used + needed)) }
    ensures full { IfErr result (λ e. (limit < used + needed) × (e ≡ HeapError.Full used needed)) }
{
    let after = u64::from(used) + needed;
    if after > u64::from(limit) {
        return Err(HeapError::Full { used, needed });
    }
    Ok(after as u32)
}

impl Heap {
    /// How many words are used once there are so many more.
    fn room_for(&self, needed: u64) -> Result<u32, HeapError>
        requires { needed ≤ 2 ^ 63 + 1 }
        ensures room { IfOk result (λ used. (has_room self.now needed ≡ true) × (used ≡ counted_by self.now.limit self.now.used needed)) }
        ensures full { IfErr result (λ e. (has_room self.now needed ≡ false) × (e ≡ HeapError.Full self.now.used needed)) }
    {
        match self.limit {
            Some(limit) => room_under(limit, self.used, needed),
            None => Ok(self.used),
        }
    }

    /// Adds an object, with so many words used then.
    fn add(
        &mut self,
        kind: BorrowedKind<'_>,
        contents: &Contents,
        used: u32,
    ) -> Result<u32, AllocError>
        requires { AreUnits (as_kind kind) (filling contents.now) }
        ensures added { IfOk result (λ o. (self.new ≡ grown_to self.old (as_kind kind.entry) (filling contents.now) used) × (o ≡ newest self.new)) }
        ensures kept { OnErr result (self.new ≡ self.old) }
    {
        let number = self.objects.add(kind, contents)?;
        self.used = used;
        Ok(number)
    }

    /// Makes an object of a class with so many words, all 0.
    pub(super) fn alloc_words(&mut self, class: ClassId, words: u32) -> Result<u32, HeapError>
        ensures { IsGot result (newest_of (heaps.grown_within self.old (kind.Object class) (replicate words 0) (2 + words))) (2 + words) self.old self.new }
    {
        let used = self.room_for(2 + u64::from(words))?;
        let number = self.add(BorrowedKind::Object(class), &Contents::Zeros(words), used)?;
        Ok(number)
    }

    /// Makes an object of a class, all 0.
    ///
    /// # Errors
    ///
    /// The heap is full, or memory is wanting; all is as before then.
    pub fn alloc_object(&mut self, image: &Image, class: ClassId) -> Result<u32, HeapError>
        ensures { IsGot result (newest_of (heaps.alloc_object image.now self.old class.0)) (cost_of_object image.now class.0) self.old self.new }
    {
        let words = words_of_class(image, class)?;
        self.alloc_words(class, words)
    }

    /// Makes an array of this type with so many elements, all 0.
    ///
    /// # Errors
    ///
    /// The heap is full, or memory is wanting; all is as before then.
    pub fn alloc_array(&mut self, ty: &Ty, length: u32) -> Result<u32, HeapError>
        ensures { IsGot result (newest_of (heaps.alloc_array self.old ty.now length)) (cost_of_array ty.now length) self.old self.new }
    {
        let words = u64::from(length) * u64::from(element_words(ty));
        let used = self.room_for(2 + words)?;
        let words = u32::try_from(words).map_err(|_| AllocError)?;
        let number = self.add(BorrowedKind::Array(ty), &Contents::Zeros(words), used)?;
        Ok(number)
    }

    /// Makes a string of these UTF-16 units.
    ///
    /// # Errors
    ///
    /// The heap is full, or memory is wanting; all is as before then.
    pub fn alloc_string(&mut self, units: &[u16]) -> Result<u32, HeapError>
        ensures { IsGot result (newest_of (heaps.alloc_string self.old units.now)) (2 + length units.now) self.old self.new }
    {
        let used = self.room_for(cost_of_text(units))?;
        let number = self.add(BorrowedKind::Str, &Contents::Units(units), used)?;
        Ok(number)
    }

    /// The interned string of these units, where there is one.
    fn text_of(&self, units: &Chars) -> Option<u32>
        ensures { result ≡ found_among (is_text self.now units.now) self.now.interned }
    {
        self.interned.get(units).copied()
    }

    /// Interns a string of these units.
    fn intern_new(&mut self, units: &Chars) -> Result<u32, HeapError>
        requires { found_among (is_text self.old units.now) self.old.interned ≡ None }
        ensures { IsGot result (heaps.intern self.old units.now) (2 + length units.now) self.old self.new }
    {
        let used = self.room_for(cost_of_text(units.units()))?;
        let number = add_text(&mut self.objects, &mut self.interned, units)?;
        self.used = used;
        Ok(number)
    }

    /// The interned string of these units, which is made where there is none (JLS 3.10.5).
    ///
    /// # Errors
    ///
    /// The heap is full, or memory is wanting; all is as before then.
    pub fn intern(&mut self, units: &Chars) -> Result<u32, HeapError>
        ensures got { IsGot result (heaps.intern self.old units.now) (2 + length units.now) self.old self.new }
        // One that stands already wants nothing.
        ensures known { (o : ℕ) → found_among (is_text self.old units.now) self.old.interned ≡ Some o → result ≡ Ok o }
    {
        match self.text_of(units) {
            Some(object) => Ok(object),
            None => self.intern_new(units),
        }
    }

    /// The Class object of a type, where there is one.
    fn class_object_of(&self, ty: &Ty) -> Option<u32>
        ensures { result ≡ found_among (is_class_of self.now ty.now) self.now.class_objects }
    {
        self.class_objects.get(ty).copied()
    }

    /// Makes a Class object of a type.
    fn new_class_object(&mut self, ty: &Ty) -> Result<u32, HeapError>
        requires { found_among (is_class_of self.old ty.now) self.old.class_objects ≡ None }
        ensures { IsGot result (heaps.class_object self.old ty.now) 2 self.old self.new }
    {
        let used = self.room_for(2)?;
        let number = add_class(&mut self.objects, &mut self.class_objects, ty)?;
        self.used = used;
        Ok(number)
    }

    /// The Class object of a type, which is made where there is none.
    ///
    /// # Errors
    ///
    /// The heap is full, or memory is wanting; all is as before then.
    pub fn class_object(&mut self, ty: &Ty) -> Result<u32, HeapError>
        ensures got { IsGot result (heaps.class_object self.old ty.now) 2 self.old self.new }
        // One that stands already wants nothing.
        ensures known { (o : ℕ) → found_among (is_class_of self.old ty.now) self.old.class_objects ≡ Some o → result ≡ Ok o }
    {
        match self.class_object_of(ty) {
            Some(object) => Ok(object),
            None => self.new_class_object(ty),
        }
    }
}
