// The heap of the guest.
ghost use Rattle.std.specs.Prelude.{◌≡◌, ◌≢◌, ℕ, ◌<◌, ◌^◌, [], map, None, length, slice_index, slice_index_or, is_some, Some, IsSome, IfOk};
ghost use Rattle.dv_words.specs.Standing.{HeapFits};
ghost use Rattle.dv_words.specs.declared.state.Kind.TheVariants as kind;
ghost use Rattle.dv_words.specs.Heaps.{kind_of, length_of, words_of_object, word_in, with_word, static_in, with_static, uncounted, counting};
ghost use Rattle.dv_heap.specs.Answers.{HasWord, HasStatic};
ghost use Rattle.dv_heap.specs.Objects.{words_by};

mod allocating;

use crate::blocks::Blocks;
use crate::objects::Objects;
use crate::statics::first_statics;
use crate::types::element_words;
use dv_defs::{Chars, FieldId, Image, Ty};
use dv_words::Kind;
use indexmap::IndexMap;
use std::alloc::{AllocError, Global};
use std::marker::Model;

/// The objects 1, 2, 3 .. with their words, the words of static fields, the interned strings and the Class objects, and how many words are used.
/// An object's words are those of its fields, of its elements, or of its units; a long has two, the low one first.
#[derive(Drop)]
pub struct Heap {
    objects: Objects,
    statics: Blocks,
    interned: IndexMap<Chars, u32>,
    class_objects: IndexMap<Ty, u32>,
    used: u32,
    limit: Option<u32>,
}

impl Model for Heap {
    ghost use Rattle.dv_words.specs.State.{WordHeap};
    ghost use Rattle.dv_heap.specs.Keeping.{heap_in, IsKept};

    ghost Value = { WordHeap };

    ghost view = { λ h. heap_in h.objects h.statics h.interned.entries h.class_objects.entries h.used h.limit };

    ghost invariant = { λ h. IsKept h.objects h.interned.entries h.class_objects.entries };
}

impl Heap {
    /// No objects, these static fields, and no limit.
    fn over(alloc: Global, statics: Blocks) -> Heap
        ensures { result ≡ record { kinds = []; cells = []; statics = map words_by statics; interned = []; class_objects = []; used = 0; limit = None } }
    {
        Heap {
            objects: Objects::new(alloc),
            statics,
            interned: IndexMap::new(alloc),
            class_objects: IndexMap::new(alloc),
            used: 0,
            limit: None,
        }
    }

    /// The heap's words are `u32`: does nothing. The laws of steps take it.
    pub fn words_fit(&self)
        ensures { HeapFits self.now }
    {
        self.objects.words_fit();
        self.statics.words_fit();
    }

    /// No objects, the static fields as they are declared, and no limit.
    ///
    /// # Errors
    ///
    /// Want of memory.
    pub fn uncounted(alloc: Global, image: &Image) -> Result<Heap, AllocError>
        ensures { IfOk result (λ heap. heap ≡ uncounted image.now) }
    {
        Ok(Heap::over(alloc, first_statics(alloc, image)?))
    }

    /// The same with a limit of so many words.
    ///
    /// # Errors
    ///
    /// Want of memory.
    pub fn new(alloc: Global, image: &Image, limit: u32) -> Result<Heap, AllocError>
        ensures { IfOk result (λ heap. heap ≡ counting (uncounted image.now) limit) }
    {
        let mut heap = Heap::uncounted(alloc, image)?;
        heap.count(limit);
        Ok(heap)
    }

    /// From here on words are counted, from 0 up to the limit. What stands already isn't counted.
    pub fn count(&mut self, limit: u32)
        ensures { self.new ≡ counting self.old limit }
    {
        self.used = 0;
        self.limit = Some(limit);
    }

    /// How many words are used.
    pub fn used(&self) -> u32
        ensures { result ≡ self.now.used }
    {
        self.used
    }

    /// Whether an object has this number.
    pub fn exists(&self, object: u32) -> bool
        ensures { result ≡ is_some (kind_of self.now object) }
    {
        self.objects.exists(object)
    }

    /// What an object is.
    pub fn kind(&self, object: u32) -> &Kind
        requires { IsSome (kind_of self.now object) }
        ensures { Some result.now ≡ kind_of self.now object }
    {
        self.objects.kind(object)
    }

    /// How many words an object has.
    pub fn size(&self, object: u32) -> u32
        requires { IsSome (kind_of self.now object) }
        ensures { result ≡ length (words_of_object self.now object) }
    {
        self.objects.size(object)
    }

    /// How many elements an array has, or units a string.
    pub fn length(&self, object: u32) -> u32
        requires { IsSome (kind_of self.now object) }
        ensures { result ≡ length_of self.now object }
    {
        let words = self.size(object);
        match self.kind(object) {
            Kind::Array(ty) => words / element_words(ty),
            _ => words,
        }
    }

    /// The words of an object. Those of a string are its units.
    pub fn words(&self, object: u32) -> &[u32]
        requires { IsSome (kind_of self.now object) }
        ensures words { result.now ≡ words_of_object self.now object }
        ensures units { kind_of self.now object ≡ Some kind.Str → (k : ℕ) → slice_index result.now k < 2 ^ 16 }
    {
        self.objects.words(object)
    }

    /// A word of an object.
    pub fn get(&self, object: u32, slot: u32) -> u32
        requires { HasWord self.now object slot }
        ensures { result ≡ word_in self.now object slot }
    {
        self.objects.word(object, slot)
    }

    /// Writes a word of an object. The units of a string stay.
    pub fn put(&mut self, object: u32, slot: u32, word: u32)
        requires there { HasWord self.old object slot }
        requires no_string { kind_of self.old object ≢ Some kind.Str }
        ensures { self.new ≡ with_word self.old object slot word }
    {
        self.objects.set_word(object, slot, word);
    }

    /// A unit of a string.
    pub fn unit(&self, object: u32, at: u32) -> u16
        requires string { kind_of self.now object ≡ Some kind.Str }
        requires within { at < length_of self.now object }
        ensures { result ≡ word_in self.now object at }
    {
        self.objects.word(object, at) as u16
    }

    /// How many words a static field has; none where no static field has the number.
    pub fn static_size(&self, field: FieldId) -> u32
        ensures { result ≡ length (slice_index_or self.now.statics field.0 []) }
    {
        let place = field.0 as usize;
        if place < self.statics.len() {
            self.statics.size(place)
        } else {
            0
        }
    }

    /// A word of a static field.
    pub fn static_get(&self, field: FieldId, half: u32) -> u32
        requires { HasStatic self.now field.0 half }
        ensures { result ≡ static_in self.now field.0 half }
    {
        self.statics.word(field.0 as usize, half as usize)
    }

    /// Writes a word of a static field.
    pub fn static_put(&mut self, field: FieldId, half: u32, word: u32)
        requires { HasStatic self.old field.0 half }
        ensures { self.new ≡ with_static self.old field.0 half word }
    {
        self.statics.set_word(field.0 as usize, half as usize, word);
    }
}
