// Objects by their numbers: a block of words for each, whose tag says its kind.
ghost use Rattle.std.specs.Prelude.{◌≡◌, ◌<◌, ◌+◌, [], All, length, slice_index, is_some, pred, IfOk, OnErr, IsSome, Some};
ghost use Rattle.dv_words.specs.Standing.{AllFit};
ghost use Rattle.dv_heap.specs.Blocks.{filling};
ghost use Rattle.dv_heap.specs.Objects.{kind_in, words_in, with_object, with_object_word};
ghost use Rattle.dv_heap.specs.Placing.{as_kind};

use crate::blocks::Blocks;
use crate::borrowed::BorrowedKind;
use crate::contents::Contents;
use crate::kinds::Kinds;
use dv_words::Kind;
use std::alloc::{AllocError, Global};
use std::marker::Model;

/// The objects 1, 2, 3 .. with the words of each.
#[derive(Drop)]
pub struct Objects {
    blocks: Blocks,
    kinds: Kinds,
}

impl Model for Objects {
    ghost use Rattle.std.specs.Prelude.{length};
    ghost use Rattle.dv_heap.specs.Objects as objects;
    ghost use Rattle.dv_heap.specs.Objects.{objects_in, AreTagged};

    ghost Value = { objects.Objects };

    ghost view = { λ a. objects_in a.kinds a.blocks };

    ghost invariant = { λ a. AreTagged (length a.kinds) a.blocks };
}

/// The place of an object's block.
fn block_of(object: u32) -> usize
    requires { 0 < object }
    ensures { result ≡ pred object }
{
    object as usize - 1
}

impl Objects {
    /// No objects.
    pub fn new(alloc: Global) -> Objects
        ensures { result ≡ record { kinds = []; cells = [] } }
    {
        Objects {
            blocks: Blocks::new(alloc),
            kinds: Kinds::new(alloc),
        }
    }

    /// Words are `u32`: does nothing.
    pub fn words_fit(&self)
        ensures { All AllFit self.now.cells }
    {
        self.blocks.words_fit();
    }

    /// Whether an object has this number.
    pub fn exists(&self, object: u32) -> bool
        ensures { result ≡ is_some (kind_in self.now object) }
    {
        object > 0 && block_of(object) < self.blocks.len()
    }

    /// What an object is.
    pub fn kind(&self, object: u32) -> &Kind
        requires { IsSome (kind_in self.now object) }
        ensures { kind_in self.now object ≡ Some result.now }
    {
        self.kinds.get(self.blocks.tag(block_of(object)) as usize)
    }

    /// How many words an object has.
    pub fn size(&self, object: u32) -> u32
        requires { IsSome (kind_in self.now object) }
        ensures { result ≡ length (words_in self.now object) }
    {
        self.blocks.size(block_of(object))
    }

    /// The words of an object.
    pub fn words(&self, object: u32) -> &[u32]
        requires { IsSome (kind_in self.now object) }
        ensures { result.now ≡ words_in self.now object }
    {
        self.blocks.words(block_of(object))
    }

    /// A word of an object.
    pub fn word(&self, object: u32, place: u32) -> u32
        requires positive { 0 < object }
        requires within { place < length (words_in self.now object) }
        ensures { result ≡ slice_index (words_in self.now object) place }
    {
        self.blocks.word(block_of(object), place as usize)
    }

    /// Writes a word of an object.
    pub fn set_word(&mut self, object: u32, place: u32, word: u32)
        requires positive { 0 < object }
        requires within { place < length (words_in self.old object) }
        ensures { self.new ≡ with_object_word self.old object place word }
    {
        self.blocks.set_word(block_of(object), place as usize, word);
    }

    /// The number of one object more. Where that is no `u32`, memory is wanting.
    fn next_number(&self) -> Result<u32, AllocError>
        ensures { IfOk result (λ n. n ≡ length self.now.kinds + 1) }
    {
        u32::try_from(self.blocks.len() + 1).map_err(|_| AllocError)
    }

    /// Adds an object of a kind with these words, and gives its number.
    ///
    /// # Errors
    ///
    /// Want of memory; the objects are as before then.
    pub fn add(&mut self, kind: BorrowedKind<'_>, contents: &Contents) -> Result<u32, AllocError>
        ensures added { IfOk result (λ n. (self.new ≡ with_object self.old (as_kind kind.entry) (filling contents.now)) × (n ≡ length self.new.kinds)) }
        ensures kept { OnErr result (self.new ≡ self.old) }
    {
        let number = self.next_number()?;
        let tag = self.kinds.place(kind)?;
        self.blocks.push(tag, contents)?;
        Ok(number)
    }
}
