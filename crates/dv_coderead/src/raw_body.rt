// A raw body, read from its lines.
ghost use Rattle.std.specs.Prelude.{◌≡◌, [], ◌∷◌, ◌++◌, List, IfOk, OnOk};
ghost use Rattle.std.specs.List.{All};
ghost use Rattle.dv_lex.specs.Lines.{HasTokens, IsLineInside};
ghost use Rattle.dv_defs.specs.declared.code.Try.{Try};
ghost use Rattle.dv_defs.specs.Body.{IsBody};
ghost use Rattle.dv_draft.specs.Pools.{no_pools};
ghost use Rattle.dv_coderead.specs.Giving.{on_line, GivesLines};
ghost use Rattle.dv_coderead.specs.Heads.{head_of};
ghost use Rattle.dv_coderead.specs.Kept.{text_line, text_lines};
ghost use Rattle.dv_coderead.specs.Bodies.{HasNext};
ghost use Rattle.dv_coderead.specs.declared.raw_line.RawLine.{RawLine};
ghost use Rattle.dv_coderead.specs.declared.raw_line.RawPlace.TheVariants as place;
ghost use Rattle.dv_coderead.specs.RawLines.{raw_line, AreFew, IsRawLine};
ghost use Rattle.dv_coderead.specs.RawBodies.{place_next, raw_body_of, raw_finished, raw_handler, raw_tries, with_caught};
ghost use Rattle.dv_coderead.specs.RawDrafting.{entry_of, glued, joined, raw_body_made, raw_with, stands_in, IsRawDrafting, Takes};

use crate::Refusal;
use crate::body::number_behind;
use crate::drafting::missing;
use crate::head::Head;
use crate::kept::{Next, next_line};
use crate::pieces::read_tokens;
use crate::raw_line::{RawHandler, RawLine, RawPlace, raw_line};
use dv_defs::{Body, Handler, LineError, Pool, Seq, Try, Ty};
use dv_draft::{PoolRef, Pools, index};
use dv_lex::Line;
use std::alloc::{AllocError, Global};

/// What the lines so far have given.
#[derive(Drop)]
pub struct RawDrafting {
    pub place: RawPlace,
    pub registers: u32,
    pub pools: Pools,
    pub units: Vec<u16>,
    pub handlers: Vec<RawHandler>,
}

impl RawDrafting {
    /// Before the first line.
    fn new(alloc: Global) -> RawDrafting
        ensures place { result.place ≡ place.Start }
        ensures registers { result.registers ≡ 0 }
        ensures pools { result.pools ≡ no_pools }
        ensures units { result.units.items ≡ [] }
        ensures handlers { result.handlers.items ≡ [] }
        ensures drafting { IsRawDrafting result }
    {
        RawDrafting {
            place: RawPlace::Start,
            registers: 0,
            pools: Pools::new(alloc),
            units: Vec::new(alloc),
            handlers: Vec::new(alloc),
        }
    }

    /// Adds an entry of a pool.
    fn add_entry(&mut self, entry: PoolRef) -> Result<(), AllocError>
        requires { IsRawDrafting self.old }
        ensures drafting { OnOk result (IsRawDrafting self.new) }
        ensures place { OnOk result (self.new.place ≡ self.old.place) }
        ensures with { OnOk result ((ls : List RawLine) → raw_with self.new ls ≡ raw_with self.old (RawLine.Entry entry ∷ ls)) }
    {
        let added = self.pools.add(&entry);
        drop(entry);
        added
    }

    /// Adds a line of units.
    fn add_units(&mut self, units: Seq<u16>) -> Result<(), AllocError>
        requires drafting { IsRawDrafting self.old }
        requires line { IsRawLine self.old.place (RawLine.Units units) }
        ensures drafting { OnOk result (IsRawDrafting self.new) }
        ensures place { OnOk result (self.new.place ≡ place_next self.old.place (RawLine.Units units)) }
        ensures with { OnOk result ((ls : List RawLine) → raw_with self.new ls ≡ raw_with self.old (RawLine.Units units ∷ ls)) }
    {
        self.units.extend_from_slice(units.items())?;
        self.place = RawPlace::Units(self.units.len() as u32);
        Ok(())
    }

    /// Adds a handler.
    fn push_handler(&mut self, handler: RawHandler) -> Result<(), AllocError>
        requires { IsRawDrafting self.old }
        ensures drafting { OnOk result (IsRawDrafting self.new) }
        ensures place { OnOk result (self.new.place ≡ self.old.place) }
        ensures with { OnOk result ((ls : List RawLine) → raw_with self.new ls ≡ raw_with self.old (RawLine.Handler handler ∷ ls)) }
    {
        self.handlers.push(handler)?;
        Ok(())
    }

    /// Adds what a line says.
    fn add(&mut self, says: RawLine) -> Result<(), AllocError>
        requires drafting { IsRawDrafting self.old }
        requires line { IsRawLine self.old.place says }
        ensures drafting { OnOk result (IsRawDrafting self.new) }
        ensures place { OnOk result (self.new.place ≡ place_next self.old.place says) }
        ensures with { OnOk result ((ls : List RawLine) → raw_with self.new ls ≡ raw_with self.old (says ∷ ls)) }
    {
        match says {
            RawLine::Registers(registers) => {
                self.registers = registers;
                self.place = RawPlace::Pools;
                Ok(())
            }
            RawLine::Entry(entry) => self.add_entry(entry),
            RawLine::Begin => {
                self.place = RawPlace::Units(0);
                Ok(())
            }
            RawLine::Units(units) => self.add_units(units),
            RawLine::End => {
                self.place = RawPlace::Behind;
                Ok(())
            }
            RawLine::Handler(handler) => self.push_handler(handler),
        }
    }

    /// Reads a line, and adds what it says.
    fn read_line(
        &mut self,
        alloc: Global,
        text: &[u8],
        line: &Line,
        head: Head,
    ) -> Result<(), LineError>
        requires drafting { IsRawDrafting self.old }
        requires inside { IsLineInside text.now line.now }
        requires tokens { HasTokens text.now line.now }
        requires head { head ≡ head_of (text_line text.now line.now).pieces }
        requires few { AreFew self.old.place }
        ensures { Takes self.old (on_line line.now.number (raw_line self.old.place (text_line text.now line.now).pieces)) result self.new }
    {
        let says = told(alloc, text, self.place, line, head)?;
        self.add(says)?;
        Ok(())
    }

    /// The body, where this is all.
    fn body(self, alloc: Global) -> Result<Body, AllocError>
        requires { IsRawDrafting self }
        ensures { IfOk result (λ b. b ≡ raw_with self []) }
    {
        let RawDrafting {
            registers,
            mut pools,
            units,
            handlers,
            ..
        } = self;
        match caught_tries(alloc, &mut pools.types, handlers.as_slice()) {
            Ok(tries) => body_of(registers as u16, units, tries, pools),
            Err(error) => {
                drop(pools);
                Err(error)
            }
        }
    }

    /// The body, behind the last line. `past` is the number of the line behind it.
    ///
    /// # Errors
    ///
    /// `Missing` at that line where there is no count of registers, or no units, or these aren't closed.
    fn finish(self, alloc: Global, past: u32) -> Result<Body, LineError>
        requires { IsRawDrafting self }
        ensures { GivesLines (λ b. b) result (raw_finished past 0 self.place (raw_with self [])) }
    {
        let RawPlace::Behind = self.place else {
            drop(self);
            return Err(missing(past));
        };
        Ok(self.body(alloc)?)
    }
}

/// The body of its units, its try entries and its pools.
fn body_of(
    registers: u16,
    units: Vec<u16>,
    tries: Vec<Try>,
    pools: Pools,
) -> Result<Body, AllocError>
    requires { IsBody registers units.items tries.items pools.types }
    ensures { IfOk result (λ b. b ≡ raw_body_made registers units.items tries.items pools) }
{
    let (strings, types, fields, methods) = pools.into_seqs()?;
    Ok(Body {
        registers,
        units: Seq::of(units),
        tries: Seq::of(tries),
        strings,
        types,
        fields,
        methods,
        raw: true,
    })
}

/// Adds the types that handlers catch.
fn add_caught(types: &mut Pool<Ty>, handlers: &[RawHandler]) -> Result<(), AllocError>
    ensures { OnOk result (types.new ≡ with_caught types.old handlers.now) }
{
    for handler in handlers {
        if let Some(ty) = &handler.kind {
            types.add(ty)?;
        }
    }
    Ok(())
}

/// A handler by the place of its type.
#[tactic(auto, using(dv_defs::proofs::Keys::places))]
fn handler_of(types: &Pool<Ty>, handler: &RawHandler) -> Result<Handler, AllocError>
    ensures { IfOk result (λ h. h ≡ raw_handler types.now handler.now) }
{
    let kind = match &handler.kind {
        Some(ty) => match types.place_of(ty) {
            Some(place) => Some(index(place)?),
            None => None,
        },
        None => None,
    };
    Ok(Handler {
        kind,
        at: handler.at,
    })
}

/// Whether an entry has a handler's range.
fn has_range(entry: &Try, handler: &RawHandler) -> bool
    ensures { result ≡ stands_in entry.now handler.now }
{
    handler.start == entry.start && handler.end == entry.end
}

/// Adds an entry of one handler.
fn add_entry(
    alloc: Global,
    tries: &mut Vec<Try>,
    handler: &RawHandler,
    own: Handler,
) -> Result<(), AllocError>
    ensures { OnOk result (tries.new.items ≡ tries.old.items ++ entry_of handler.now own ∷ []) }
{
    tries.push(Try {
        start: handler.start,
        end: handler.end,
        handlers: Seq::of(vec![in alloc; own]?),
    })?;
    Ok(())
}

/// Adds a handler to the last entry where this has its range, else as an entry of its own.
fn add_handler(
    alloc: Global,
    tries: &mut Vec<Try>,
    handler: &RawHandler,
    own: Handler,
) -> Result<(), AllocError>
    ensures { OnOk result ((us : List Try) → glued tries.new.items us ≡ glued tries.old.items (joined (entry_of handler.now own) us)) }
{
    let Some(last) = tries.last_mut() else {
        return add_entry(alloc, tries, handler, own);
    };
    if !has_range(last, handler) {
        return add_entry(alloc, tries, handler, own);
    }
    last.handlers.push(own)
}

/// The try entries of handlers. Neighbouring ones of one range are one entry.
fn tries(alloc: Global, types: &Pool<Ty>, handlers: &[RawHandler]) -> Result<Vec<Try>, AllocError>
    ensures { IfOk result (λ ts. ts.items ≡ raw_tries types.now handlers.now) }
{
    let mut tries: Vec<Try> = Vec::new(alloc);
    for handler in handlers {
        let own = handler_of(types, handler)?;
        add_handler(alloc, &mut tries, handler, own)?;
    }
    Ok(tries)
}

/// The try entries of handlers. Adds the types that these catch.
fn caught_tries(
    alloc: Global,
    types: &mut Pool<Ty>,
    handlers: &[RawHandler],
) -> Result<Vec<Try>, AllocError>
    ensures types { OnOk result (types.new ≡ with_caught types.old handlers.now) }
    ensures tries { IfOk result (λ ts. ts.items ≡ raw_tries types.new handlers.now) }
{
    add_caught(types, handlers)?;
    tries(alloc, types, handlers)
}

/// What a line of a raw body says.
fn told(
    alloc: Global,
    text: &[u8],
    place: RawPlace,
    line: &Line,
    head: Head,
) -> Result<RawLine, LineError>
    requires inside { IsLineInside text.now line.now }
    requires tokens { HasTokens text.now line.now }
    requires head { head ≡ head_of (text_line text.now line.now).pieces }
    requires few { AreFew place }
    ensures exact { GivesLines (λ s. s) result (on_line line.now.number (raw_line place (text_line text.now line.now).pieces)) }
    ensures line { IfOk result (IsRawLine place) }
{
    let pieces = read_tokens(alloc, text, line.tokens.items())?;
    match raw_line(alloc, place, head, &pieces) {
        Ok(says) => Ok(says),
        Err(Refusal::Fault(kind)) => Err(LineError::At {
            line: line.number,
            kind,
        }),
        Err(Refusal::Memory) => Err(LineError::Memory),
    }
}

/// The raw body that the lines of a method give: those between its `.method` and its `.end method`. They are
/// `.registers`, the entries of the pools, a block of units, and handlers.
///
/// # Errors
///
/// The first bad line with its leftmost fault, or `Missing` at the line behind the last, where there is no count of
/// registers or no block of units, or this or an annotation is left open. Or want of memory.
pub fn read_raw(alloc: Global, text: &[u8], lines: &[Line]) -> Result<Body, LineError>
    requires inside { All (IsLineInside text.now) lines.now }
    requires tokens { All (HasTokens text.now) lines.now }
    requires numbers { All HasNext lines.now }
    ensures { GivesLines (λ b. b) result (raw_body_of (text_lines text.now lines.now)) }
{
    let mut drafting = RawDrafting::new(alloc);
    let mut at = 0;
    loop {
        match next_line(text, lines, at) {
            Next::Line { at: place, head } => {
                match drafting.read_line(alloc, text, &lines[place], head) {
                    Ok(()) => at = place + 1,
                    Err(error) => {
                        drop(drafting);
                        return Err(error);
                    }
                }
            }
            Next::End => return drafting.finish(alloc, number_behind(lines)),
            Next::Unfinished => {
                drop(drafting);
                return Err(missing(number_behind(lines)));
            }
        }
    }
}
