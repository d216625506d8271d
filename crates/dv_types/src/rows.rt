// States as words beside what their words say.
ghost use Rattle.std.specs.Prelude.{◌≡◌, ◌||◌, All, IfOk, IfSome, cond, false, length, not};
ghost use Rattle.dv_bases.specs.Bases.{IsNumbered, IsWord};
ghost use Rattle.dv_bases.specs.States.{AreWords, IsPending, caught_of, pending_of, state_of};
ghost use Rattle.dv_typing.specs.Joins.{join_caught, join_result, join_state, joined};
ghost use Rattle.dv_types.specs.Rows.{types_of};
ghost use Rattle.dv_types.specs.Under.{caught_under, pending_under, regs_under, state_under};

use crate::classes::ClassTable;
use crate::word_types::{common_of, have_ground, is_same_word, is_sub, is_word_under, joined_word};
use dv_bases::{Bases, PendingWord, Reference, Words};
use dv_typing::RegState;
use std::alloc::{AllocError, Global};
use std::marker::Model;

/// A state as words, beside the bases that its words number and the table of their classes.
#[derive(Drop)]
pub struct Row<'a> {
    bases: &'a Bases<'a>,
    table: &'a ClassTable<'a>,
    words: Words,
}

impl<'a> Model for Row<'a> {
    ghost use Rattle.dv_bases.specs.Bases.{Names};
    ghost use Rattle.dv_bases.specs.States.{state_of};
    ghost use Rattle.dv_types.specs.Rows.{IsRowOf};
    ghost use Rattle.dv_typing.specs.declared.typing.RegState as typing;
    ghost use Rattle.dv_worklist.specs.Beside.{Kept};

    ghost Value = { Kept typing.RegState Names };

    ghost view = { λ r. record { state = state_of r.bases.now r.words; beside = r.bases.now } };

    ghost invariant = { λ r. IsRowOf r.bases.now r.table.now r.words };
}

impl<'a> Row<'a> {
    /// The state that words say.
    pub fn new(bases: &'a Bases<'a>, table: &'a ClassTable<'a>, words: Words) -> Row<'a>
        requires words { AreWords bases.now words }
        requires image { table.now ≡ bases.now.image }
        ensures { result ≡ record { state = state_of bases.now words; beside = bases.now } }
    {
        Row {
            bases,
            table,
            words,
        }
    }

    /// A copy of the state.
    pub fn copy(&self) -> Result<Row<'a>, AllocError>
        ensures { IfOk result (λ row. row ≡ self.now) }
    {
        Ok(Row {
            bases: self.bases,
            table: self.table,
            words: self.words.copy()?,
        })
    }

    /// The words of the state.
    pub fn words(&self) -> &Words
        ensures state { state_of self.now.beside result.now ≡ self.now.state }
        ensures words { AreWords self.now.beside result.now }
    {
        &self.words
    }

    /// The state itself.
    pub fn state(&self, alloc: Global) -> Result<RegState, AllocError>
        ensures { IfOk result (λ s. s ≡ self.now.state) }
    {
        self.words.state(alloc, self.bases)
    }

    /// Raises the state to the least above it and another, in place, and says whether it rose.
    pub fn raise(&mut self, by: &Row<'a>) -> bool
        requires beside { by.now.beside ≡ self.old.beside }
        requires count { length self.old.state.regs ≡ length by.now.state.regs }
        ensures risen { result ≡ not (state_under self.old.beside.image by.now.state self.old.state) }
        ensures joined { self.new ≡ record { state = cond result (join_state self.old.beside.image self.old.state by.now.state) self.old.state; beside = self.old.beside } }
    {
        raise_words(self.table, self.bases, &mut self.words, &by.words)
    }
}

/// The same of the words.
fn raise_words(table: &ClassTable<'_>, bases: &Bases<'_>, own: &mut Words, by: &Words) -> bool
    requires image { table.now ≡ bases.now.image }
    requires own { AreWords bases.now own.old }
    requires by { AreWords bases.now by.now }
    requires count { length own.old.regs.items ≡ length by.now.regs.items }
    ensures words { AreWords bases.now own.new }
    ensures risen { result ≡ not (state_under bases.now.image (state_of bases.now by.now) (state_of bases.now own.old)) }
    ensures joined { state_of bases.now own.new ≡ cond result (join_state bases.now.image (state_of bases.now own.old) (state_of bases.now by.now)) (state_of bases.now own.old) }
{
    let regs = raise_registers(table, bases, &mut own.regs, &by.regs);
    let result = raise_result(table, bases, &mut own.result, by.result);
    let caught = raise_caught(table, bases, &mut own.caught, by.caught);
    let pending = raise_pending(&mut own.this_pending, by.this_pending);
    is_any(regs, result, caught, pending)
}

/// Whether one of them rose.
fn is_any(regs: bool, pending_result: bool, caught: bool, pending: bool) -> bool
    ensures { result ≡ (regs || (pending_result || (caught || pending))) }
{
    regs || pending_result || caught || pending
}

/// `this` is pending where one has it so.
fn raise_pending(own: &mut bool, by: bool) -> bool
    ensures risen { result ≡ not (not by || own.old) }
    ensures joined { own.new ≡ (own.old || by) }
    ensures kept { result ≡ false → own.new ≡ own.old }
{
    let rises = by && !*own;
    *own = *own || by;
    rises
}

/// Raises the registers, one by one.
fn raise_registers(table: &ClassTable<'_>, bases: &Bases<'_>, own: &mut [u32], by: &[u32]) -> bool
    requires image { table.now ≡ bases.now.image }
    requires own { All (IsWord bases.now) own.old }
    requires by { All (IsWord bases.now) by.now }
    requires count { length own.old ≡ length by.now }
    ensures words { All (IsWord bases.now) own.new }
    ensures risen { result ≡ not (regs_under bases.now.image (types_of bases.now by.now) (types_of bases.now own.old)) }
    ensures joined { types_of bases.now own.new ≡ joined bases.now.image (types_of bases.now own.old) (types_of bases.now by.now) }
    ensures kept { result ≡ false → own.new ≡ own.old }
{
    have_ground(table, bases);
    let mut rose = false;
    for place in 0..own.len() {
        let word = by[place];
        if own[place] != word && !is_word_under(table, bases, word, own[place]) {
            own[place] = joined_word(table, bases, own[place], word);
            rose = true;
        }
    }
    rose
}

/// Raises the pending result: to none, unless both have one.
fn raise_result(
    table: &ClassTable<'_>,
    bases: &Bases<'_>,
    own: &mut PendingWord,
    by: PendingWord,
) -> bool
    requires image { table.now ≡ bases.now.image }
    requires own { IsPending bases.now own.old }
    requires by { IsPending bases.now by }
    ensures word { IsPending bases.now own.new }
    ensures risen { result ≡ not (pending_under (pending_of bases.now by) (pending_of bases.now own.old)) }
    ensures joined { pending_of bases.now own.new ≡ join_result (pending_of bases.now own.old) (pending_of bases.now by) }
    ensures kept { result ≡ false → own.new ≡ own.old }
{
    if is_result_under(table, bases, by, *own) {
        return false;
    }
    *own = PendingWord::None;
    true
}

/// Whether a pending result is the other, or the other is none.
fn is_result_under(
    table: &ClassTable<'_>,
    bases: &Bases<'_>,
    word: PendingWord,
    above: PendingWord,
) -> bool
    requires image { table.now ≡ bases.now.image }
    requires word { IsPending bases.now word }
    requires above { IsPending bases.now above }
    ensures { result ≡ pending_under (pending_of bases.now word) (pending_of bases.now above) }
{
    match (word, above) {
        (_, PendingWord::None) => true,
        (PendingWord::One(word), PendingWord::One(above)) => is_same_word(
            table, bases, word, above,
        ),
        (PendingWord::Long, PendingWord::Long) => true,
        _ => false,
    }
}

/// Raises the caught type: to the nearest common superclass, or none where one has none.
fn raise_caught(
    table: &ClassTable<'_>,
    bases: &Bases<'_>,
    own: &mut Option<Reference>,
    by: Option<Reference>,
) -> bool
    requires image { table.now ≡ bases.now.image }
    requires own { IfSome own.old (IsNumbered bases.now) }
    requires by { IfSome by (IsNumbered bases.now) }
    ensures numbered { IfSome own.new (IsNumbered bases.now) }
    ensures risen { result ≡ not (caught_under bases.now.image (caught_of bases.now by) (caught_of bases.now own.old)) }
    ensures joined { caught_of bases.now own.new ≡ join_caught bases.now.image (caught_of bases.now own.old) (caught_of bases.now by) }
    ensures kept { result ≡ false → own.new ≡ own.old }
{
    have_ground(table, bases);
    if is_caught_under(table, bases, by, *own) {
        return false;
    }
    *own = joined_caught(table, bases, *own, by);
    true
}

/// Whether a caught type is under the other, or the other is absent.
fn is_caught_under(
    table: &ClassTable<'_>,
    bases: &Bases<'_>,
    caught: Option<Reference>,
    above: Option<Reference>,
) -> bool
    requires image { table.now ≡ bases.now.image }
    requires caught { IfSome caught (IsNumbered bases.now) }
    requires above { IfSome above (IsNumbered bases.now) }
    ensures { result ≡ caught_under bases.now.image (caught_of bases.now caught) (caught_of bases.now above) }
{
    match (caught, above) {
        (_, None) => true,
        (Some(class), Some(above)) => is_sub(table, bases, class, above),
        _ => false,
    }
}

/// The nearest common superclass of the caught types, where both have one.
fn joined_caught(
    table: &ClassTable<'_>,
    bases: &Bases<'_>,
    caught: Option<Reference>,
    other: Option<Reference>,
) -> Option<Reference>
    requires image { table.now ≡ bases.now.image }
    requires caught { IfSome caught (IsNumbered bases.now) }
    requires other { IfSome other (IsNumbered bases.now) }
    ensures numbered { IfSome result (IsNumbered bases.now) }
    ensures joined { caught_of bases.now result ≡ join_caught bases.now.image (caught_of bases.now caught) (caught_of bases.now other) }
{
    match (caught, other) {
        (Some(class), Some(other)) => Some(common_of(table, bases, class, other)),
        _ => None,
    }
}
