// The kinds of objects, each once.
ghost use Rattle.std.specs.Prelude.{◌≡◌, ◌<◌, ◌+◌, ◌++◌, ◌^◌, ℕ, suc, [], length, replicate, slice_get, slice_index, IfOk, IfSome, IsTrue, false, Some};
ghost use Rattle.dv_words.specs.declared.state.Kind.TheVariants as kind;
ghost use Rattle.dv_heap.specs.Objects.{IsContinued};
ghost use Rattle.dv_heap.specs.Placing.{as_kind, NotesAtMost};

use crate::borrowed::BorrowedKind;
use dv_defs::{ClassId, Ty};
use dv_words::Kind;
use indexmap::IndexSet;
use std::alloc::{AllocError, Global};
use std::marker::Model;

/// Kinds in the order in which they were first seen, each once. A contract sees the list of them. A kind is found by its hash, but two are found by less
/// where they were seen before: the kind of a class's objects by a table, whose entry is one more than the kind's place, or 0, and the kind of the array
/// that came last by a look at its place.
#[derive(Drop)]
pub struct Kinds {
    kinds: IndexSet<Kind>,
    by_class: Vec<u32>,
    last_array: u32,
}

impl Model for Kinds {
    ghost use Rattle.std.specs.Prelude.{List};
    ghost use Rattle.dv_words.specs.declared.state.Kind.{Kind};
    ghost use Rattle.dv_heap.specs.Placing.{AreNoted};

    ghost Value = { List Kind };

    ghost view = { λ k. k.kinds.keys };

    ghost invariant = { λ k. AreNoted k.kinds.keys k.by_class.items };
}

/// The classes below this number have an entry in the table once they are seen.
const IN_TABLE: usize = 4096;

/// The place of a class's kind, where a table says it.
fn noted(table: &[u32], class: ClassId) -> Option<u32>
    ensures { IfSome result (λ place. slice_index table.now class.0 ≡ suc place) }
{
    match table.get(class.0 as usize) {
        Some(entry) => entry.checked_sub(1),
        None => None,
    }
}

/// Adds so many entries 0 to a table, if memory isn't wanting.
fn lengthen(table: &mut Vec<u32>, more: usize) -> bool
    requires { length table.old.items + more < 2 ^ 64 }
    ensures longer { IsTrue result → table.new.items ≡ table.old.items ++ replicate more 0 }
    ensures same { result ≡ false → table.new.items ≡ table.old.items }
{
    table.resize(table.len() + more, 0).is_ok()
}

/// Whether a table has an entry for a class, which is added if the class's number is low and memory isn't wanting.
fn has_entry(table: &mut Vec<u32>, class: ClassId) -> bool
    ensures entry { IsTrue result → class.0 < length table.new.items }
    ensures same { (other : ℕ) → slice_index table.new.items other ≡ slice_index table.old.items other }
{
    let at = class.0 as usize;
    if at < table.len() {
        return true;
    }
    at < IN_TABLE && lengthen(table, at + 1 - table.len())
}

/// Notes the place of a class's kind in a table, or not, if the table has no entry for the class.
fn note(table: &mut Vec<u32>, class: ClassId, place: u32)
    ensures { NotesAtMost class.0 place table.old.items table.new.items }
{
    if let Some(entry) = place.checked_add(1)
        && has_entry(table, class)
    {
        table[class.0 as usize] = entry;
    }
}

/// Whether the kind at a place is that of arrays of this type.
fn is_array_at(kinds: &IndexSet<Kind>, place: u32, ty: &Ty) -> bool
    ensures { IsTrue result → slice_get kinds.now.keys place ≡ Some (kind.Array ty.now) }
{
    match kinds.get_index(place as usize) {
        Some(Kind::Array(seen)) => seen == ty,
        _ => false,
    }
}

/// The place of a kind, which is added where it isn't there.
fn inserted(kinds: &mut IndexSet<Kind>, kind: Kind) -> Result<u32, AllocError>
    ensures place { IfOk result (λ place. slice_get kinds.new.keys place ≡ Some kind) }
    ensures kept { IsContinued kinds.old.keys kinds.new.keys }
{
    let (place, _) = kinds.insert_full(kind)?;
    u32::try_from(place).map_err(|_| AllocError)
}

impl Kinds {
    /// No kinds.
    pub fn new(alloc: Global) -> Kinds
        ensures { result ≡ [] }
    {
        Kinds {
            kinds: IndexSet::new(alloc),
            by_class: Vec::new(alloc),
            last_array: 0,
        }
    }

    /// The kind at a place.
    pub fn get(&self, place: usize) -> &Kind
        requires { place < length self.now }
        ensures { slice_get self.now place ≡ Some result.now }
    {
        match self.kinds.get_index(place) {
            Some(kind) => kind,
            None => unreachable!(),
        }
    }

    /// The place of a kind by its hash. It is added where it isn't there.
    fn hashed(&mut self, kind: BorrowedKind<'_>) -> Result<u32, AllocError>
        ensures place { IfOk result (λ place. slice_get self.new place ≡ Some (as_kind kind.entry)) }
        ensures kept { IsContinued self.old self.new }
    {
        let kind = kind.cloned()?;
        inserted(&mut self.kinds, kind)
    }

    /// The place of a class's kind, by the table if the class was seen.
    fn of_class(&mut self, class: ClassId) -> Result<u32, AllocError>
        ensures place { IfOk result (λ place. slice_get self.new place ≡ Some (kind.Object class)) }
        ensures kept { IsContinued self.old self.new }
    {
        if let Some(place) = noted(&self.by_class, class) {
            return Ok(place);
        }
        let place = self.hashed(BorrowedKind::Object(class))?;
        note(&mut self.by_class, class, place);
        Ok(place)
    }

    /// The place of the kind of arrays of this type, without a look for it if it was seen last.
    fn of_array(&mut self, ty: &Ty) -> Result<u32, AllocError>
        ensures place { IfOk result (λ place. slice_get self.new place ≡ Some (kind.Array ty.now)) }
        ensures kept { IsContinued self.old self.new }
    {
        if is_array_at(&self.kinds, self.last_array, ty) {
            return Ok(self.last_array);
        }
        let place = self.hashed(BorrowedKind::Array(ty))?;
        self.last_array = place;
        Ok(place)
    }

    /// The place of a kind, which is added where it isn't there.
    ///
    /// # Errors
    ///
    /// Want of memory.
    pub fn place(&mut self, kind: BorrowedKind<'_>) -> Result<u32, AllocError>
        ensures place { IfOk result (λ place. slice_get self.new place ≡ Some (as_kind kind.entry)) }
        ensures kept { IsContinued self.old self.new }
    {
        match kind {
            BorrowedKind::Object(class) => self.of_class(class),
            BorrowedKind::Array(ty) => self.of_array(ty),
            BorrowedKind::Str | BorrowedKind::ClassOf(_) => self.hashed(kind),
        }
    }
}
