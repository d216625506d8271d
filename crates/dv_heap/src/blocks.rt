// Blocks of words in one vector, with a table of where they begin.
ghost use Rattle.std.specs.Prelude.{◌≡◌, ◌<◌, ◌≤◌, ◌+◌, ◌++◌, ◌∷◌, ◌^◌, [], All, map, take, drop, length, slice_index, slice_set, OnOk, OnErr, IfOk, IsOk, vec_len};
ghost use Rattle.dv_words.specs.Standing.{AllFit};
ghost use Rattle.std.specs.Vec.{vec_capacity};
ghost use Rattle.dv_heap.specs.Blocks.{block_at, written, filling, laid_block};
ghost use Rattle.dv_heap.specs.Objects.{words_by};

use crate::contents::Contents;
use std::alloc::{AllocError, Global};
use std::marker::Model;

/// Blocks by their places 0, 1, 2 .., each a tag and so many words.
#[derive(Drop)]
pub struct Blocks {
    words: Vec<u32>,
    starts: Vec<usize>,
}

impl Model for Blocks {
    ghost use Rattle.std.specs.Prelude.{List};
    ghost use Rattle.dv_heap.specs.Blocks.{Block, read_all, AreLaid};

    ghost Value = { List Block };

    ghost view = { λ b. read_all b.starts.items b.words.items };

    ghost invariant = { λ b. AreLaid b.starts.items b.words.items };
}

/// Words are `u32`.
fn have_bits(words: &[u32])
    ensures { AllFit words.now }
{
    let _ = words.len();
}

/// Adds the units as words, for which there is room.
fn add_units(words: &mut Vec<u32>, units: &[u16]) -> Result<(), AllocError>
    requires { vec_len words.old + length units.now ≤ vec_capacity words.old }
    ensures added { words.new.items ≡ words.old.items ++ units.now }
    ensures done { IsOk result }
{
    for unit in units {
        words.push(u32::from(*unit))?;
    }
    Ok(())
}

/// Adds the words that a block is filled with, for which there is room.
fn fill(words: &mut Vec<u32>, contents: &Contents) -> Result<(), AllocError>
    requires { vec_len words.old + length (filling contents.now) ≤ vec_capacity words.old }
    ensures added { words.new.items ≡ words.old.items ++ filling contents.now }
    ensures done { IsOk result }
{
    match contents {
        Contents::Zeros(count) => words.resize(words.len() + *count as usize, 0),
        Contents::Units(units) => add_units(words, units),
        Contents::Words(given) => words.extend_from_slice(given),
    }
}

/// How many words that is. Where the number is no `u32`, memory is wanting.
fn count_of(contents: &Contents) -> Result<u32, AllocError>
    ensures { IfOk result (λ n. n ≡ length (filling contents.now)) }
{
    match contents {
        Contents::Zeros(count) => Ok(*count),
        Contents::Units(units) => u32::try_from(units.len()).map_err(|_| AllocError),
        Contents::Words(given) => u32::try_from(given.len()).map_err(|_| AllocError),
    }
}

/// Adds a block at the end of the words.
fn lay(words: &mut Vec<u32>, tag: u32, contents: &Contents) -> Result<(), AllocError>
    ensures ok { OnOk result (words.new.items ≡ words.old.items ++ laid_block (record { tag = tag; words = filling contents.now })) }
    ensures err { OnErr result (words.new.items ≡ words.old.items) }
{
    let count = count_of(contents)?;
    words.reserve(2 + count as usize)?;
    words.push(tag)?;
    words.push(count)?;
    fill(words, contents)
}

/// So many words from a place on.
fn part(words: &[u32], from: usize, count: usize) -> &[u32]
    requires { from + count ≤ length words.now }
    ensures { result.now ≡ take count (drop from words.now) }
{
    &words[from..from + count]
}

impl Blocks {
    /// No blocks.
    pub fn new(alloc: Global) -> Blocks
        ensures { result ≡ [] }
    {
        Blocks {
            words: Vec::new(alloc),
            starts: Vec::new(alloc),
        }
    }

    /// Words are `u32`: does nothing.
    #[tactic(auto, using(crate::proofs::Bits::read_fits))]
    pub fn words_fit(&self)
        ensures { All AllFit (map words_by self.now) }
    {
        have_bits(&self.words);
    }

    /// How many blocks there are.
    pub fn len(&self) -> usize
        ensures count { result ≡ length self.now }
        ensures fits { result < 2 ^ 63 }
    {
        self.starts.len()
    }

    /// The tag of a block.
    pub fn tag(&self, block: usize) -> u32
        requires { block < length self.now }
        ensures { result ≡ (block_at self.now block).tag }
    {
        self.words[self.starts[block]]
    }

    /// How many words a block has.
    pub fn size(&self, block: usize) -> u32
        requires { block < length self.now }
        ensures { result ≡ length (block_at self.now block).words }
    {
        self.words[self.starts[block] + 1]
    }

    /// The words of a block.
    pub fn words(&self, block: usize) -> &[u32]
        requires { block < length self.now }
        ensures { result.now ≡ (block_at self.now block).words }
    {
        let start = self.starts[block];
        let count = self.size(block) as usize;
        part(self.words.as_slice(), start + 2, count)
    }

    /// A word of a block.
    pub fn word(&self, block: usize, place: usize) -> u32
        requires { place < length (block_at self.now block).words }
        ensures { result ≡ slice_index (block_at self.now block).words place }
    {
        self.words[self.starts[block] + 2 + place]
    }

    /// Writes a word of a block.
    pub fn set_word(&mut self, block: usize, place: usize, word: u32)
        requires { place < length (block_at self.old block).words }
        ensures { self.new ≡ slice_set self.old block (written (block_at self.old block) place word) }
    {
        let at = self.starts[block] + 2 + place;
        self.words[at] = word;
    }

    /// Adds a block.
    ///
    /// # Errors
    ///
    /// Want of memory; the blocks are as before then.
    pub fn push(&mut self, tag: u32, contents: &Contents) -> Result<(), AllocError>
        ensures ok { OnOk result (self.new ≡ self.old ++ record { tag = tag; words = filling contents.now } ∷ []) }
        ensures err { OnErr result (self.new ≡ self.old) }
    {
        let start = self.words.len();
        self.starts.reserve(1)?;
        lay(&mut self.words, tag, contents)?;
        self.starts.push(start)?;
        Ok(())
    }
}
