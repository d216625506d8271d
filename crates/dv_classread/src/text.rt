// The classes and the schedule of a text.
ghost use Rattle.std.specs.Prelude.{◌≡◌, ◌+◌, ◌^◌, ◌-◌, ◌<◌, [], length, IfSome};
ghost use Rattle.std.specs.List.{All};
ghost use Rattle.dv_lex.specs.Lines.{reading_of, HasTokens, IsLineInside};
ghost use Rattle.dv_coderead.specs.Giving.{on_line, GivesLines};
ghost use Rattle.dv_coderead.specs.Heads.{head_of};
ghost use Rattle.dv_coderead.specs.Kept.{kept, line_at, open_behind, text_line, text_lines, AreNumbered};
ghost use Rattle.dv_coderead.specs.Bodies.{HasNext};
ghost use Rattle.dv_classread.specs.ClassLines.{class_line};
ghost use Rattle.dv_classread.specs.Classes.{classes_from, classes_with};
ghost use Rattle.dv_classread.specs.Schedules.{cut_at, end_with, IsCutAt};
ghost use Rattle.dv_classread.specs.Texts.{ended_in, EndsBefore, InClass};
ghost use Rattle.dv_classread.specs.Programs.{drafts_in, drafts_of, program_of, with_schedule, CutsIf, GoesOn};

use crate::assembling::assembled_classes;
use crate::class_line::{ClassLine, Standing, lacks_super, read_class_line};
use crate::lines::{as_error, missing_at};
use crate::method::whole_method;
use crate::program::{ClassDraft, ClassesSoFar};
use crate::schedule::{read_schedule, schedule_place};
use dv_coderead::{Head, Next, Refusal, next_line, read_tokens};
use dv_defs::{ClassDef, Entry, LineError, Seq};
use dv_lex::{Line, Stop, good_lines};
use std::alloc::Global;

/// The classes of a text, in its order, and its schedule.
#[derive(Drop)]
pub struct Read {
    pub classes: Seq<ClassDef>,
    pub log: Seq<Entry>,
}

/// What a line says, outside methods.
fn told(
    alloc: Global,
    text: &[u8],
    standing: Standing,
    line: &Line,
    head: Head,
) -> Result<ClassLine, LineError>
    requires inside { IsLineInside text.now line.now }
    requires tokens { HasTokens text.now line.now }
    requires head { head ≡ head_of (text_line text.now line.now).pieces }
    ensures { let l = text_line text.now line.now in GivesLines (λ s. s) result (on_line l.number (class_line standing l.number l.pieces)) }
{
    let pieces = read_tokens(alloc, text, line.tokens.items())?;
    match read_class_line(alloc, standing, line.number, head, &pieces) {
        Ok(says) => Ok(says),
        Err(Refusal::Fault(kind)) => Err(LineError::At {
            line: line.number,
            kind,
        }),
        Err(Refusal::Memory) => Err(LineError::Memory),
    }
}

/// Adds what the line at a place says, or the method that begins there; gives the place behind it. A method that is
/// unfinished at the end of the text is told by this fault.
fn add_next(
    alloc: Global,
    text: &[u8],
    lines: &[Line],
    place: usize,
    head: Head,
    fault: Stop,
    program: &mut ClassesSoFar,
) -> Result<usize, LineError>
    requires inside { All (IsLineInside text.now) lines.now }
    requires tokens { All (HasTokens text.now) lines.now }
    requires numbers { All HasNext lines.now }
    requires numbered { AreNumbered 1 lines.now }
    requires behind { EndsBefore fault.line (text_lines text.now lines.now) }
    requires place { place < length lines.now }
    requires head { head ≡ head_of (line_at text.now lines.now place).pieces }
    ensures { GoesOn text.now lines.now place fault program.old program.new result }
{
    let says = told(alloc, text, program.standing, &lines[place], head)?;
    match says {
        ClassLine::Method(signature) => {
            let (method, next) = whole_method(alloc, text, lines, place + 1, signature, fault)?;
            program.add_method(method)?;
            Ok(next)
        }
        says => {
            program.add(alloc, says)?;
            Ok(place + 1)
        }
    }
}

/// The end of a text behind its last class.
fn ended_in(standing: Standing, end: Option<Stop>, past: u32) -> Result<(), LineError>
    ensures { GivesLines (λ nothing. []) result (ended_in end past (InClass standing)) }
{
    match end {
        Some(fault) => Err(as_error(fault)),
        None if lacks_super(standing) => Err(as_error(missing_at(past))),
        None => Ok(()),
    }
}

/// Adds the classes of lines. The lines end with this fault, if there is one; `past` is the number of the line behind
/// them.
fn add_lines(
    alloc: Global,
    text: &[u8],
    lines: &[Line],
    stop: Option<Stop>,
    past: u32,
    program: &mut ClassesSoFar,
) -> Result<(), LineError>
    requires inside { All (IsLineInside text.now) lines.now }
    requires tokens { All (HasTokens text.now) lines.now }
    requires numbers { All HasNext lines.now }
    requires numbered { AreNumbered 1 lines.now }
    requires behind { EndsBefore past (text_lines text.now lines.now) }
    requires stop { IfSome stop (λ e. EndsBefore e.line (text_lines text.now lines.now)) }
    ensures { let ls = text_lines text.now lines.now in GivesLines (λ nothing. classes_with program.new []) result (classes_from (end_with stop past (open_behind 0 ls)) past program.old (kept 0 ls)) }
{
    let fault = stop.unwrap_or(missing_at(past));
    let mut at = 0;
    loop {
        match next_line(text, lines, at) {
            Next::Line { at: place, head } => {
                at = add_next(alloc, text, lines, place, head, fault, program)?;
            }
            Next::End => return ended_in(program.standing, stop, past),
            Next::Unfinished => return Err(as_error(fault)),
        }
    }
}

/// The classes of lines, before their bodies are assembled. The lines end with this fault, if there is one; `past` is
/// the number of the line behind them.
fn drafts(
    alloc: Global,
    text: &[u8],
    lines: &[Line],
    stop: Option<Stop>,
    past: u32,
) -> Result<Vec<ClassDraft>, LineError>
    requires inside { All (IsLineInside text.now) lines.now }
    requires tokens { All (HasTokens text.now) lines.now }
    requires numbers { All HasNext lines.now }
    requires numbered { AreNumbered 1 lines.now }
    requires behind { EndsBefore past (text_lines text.now lines.now) }
    requires stop { IfSome stop (λ e. EndsBefore e.line (text_lines text.now lines.now)) }
    ensures { let ls = text_lines text.now lines.now in GivesLines (λ v. v.items) result (drafts_of (end_with stop past (open_behind 0 ls)) past ls) }
{
    let mut program = ClassesSoFar::new(alloc);
    match add_lines(alloc, text, lines, stop, past, &mut program) {
        Ok(()) => Ok(program.into_classes()?),
        Err(error) => {
            drop(program);
            Err(error)
        }
    }
}

/// The classes before the schedule, which begins at a place, and the schedule.
fn with_schedule(
    alloc: Global,
    text: &[u8],
    lines: &[Line],
    place: usize,
    stop: Option<Stop>,
    past: u32,
) -> Result<(Vec<ClassDraft>, Vec<Entry>), LineError>
    requires inside { All (IsLineInside text.now) lines.now }
    requires tokens { All (HasTokens text.now) lines.now }
    requires numbers { All HasNext lines.now }
    requires numbered { AreNumbered 1 lines.now }
    requires cut { IsCutAt text.now lines.now place }
    ensures { GivesLines (λ d. (d.0.items, d.1.items)) result (with_schedule stop past (cut_at text.now lines.now place)) }
{
    let first = &lines[place];
    let classes = drafts(alloc, text, &lines[..place], None, first.number)?;
    match read_schedule(alloc, text, first, &lines[place + 1..], stop, past) {
        Ok(log) => Ok((classes, log)),
        Err(error) => {
            drop(classes);
            Err(error)
        }
    }
}

/// Where the schedule begins, if there is one and it is looked for.
#[tactic(auto, unfolding(crate::specs::Programs::drafts_in))]
fn place_if(schedule: bool, text: &[u8], lines: &[Line]) -> Option<usize>
    requires inside { All (IsLineInside text.now) lines.now }
    requires numbered { AreNumbered 1 lines.now }
    ensures { CutsIf schedule text.now lines.now result }
{
    if schedule {
        schedule_place(text, lines)
    } else {
        None
    }
}

/// The classes and the schedule of lines that end so.
fn drafts_in(
    alloc: Global,
    text: &[u8],
    lines: &[Line],
    stop: Option<Stop>,
    schedule: bool,
) -> Result<(Vec<ClassDraft>, Vec<Entry>), LineError>
    requires inside { All (IsLineInside text.now) lines.now }
    requires tokens { All (HasTokens text.now) lines.now }
    requires few { 1 + length lines.now < 2 ^ 32 }
    requires numbers { All HasNext lines.now }
    requires numbered { AreNumbered 1 lines.now }
    requires stop { IfSome stop (λ e. e.line ≡ 1 + length lines.now) }
    ensures { GivesLines (λ d. (d.0.items, d.1.items)) result (drafts_in schedule stop (text_lines text.now lines.now)) }
{
    let past = lines.len() as u32 + 1;
    match place_if(schedule, text, lines) {
        Some(place) => with_schedule(alloc, text, lines, place, stop, past),
        None => {
            let classes = drafts(alloc, text, lines, stop, past)?;
            Ok((classes, Vec::new(alloc)))
        }
    }
}

/// The classes of a text, whose bodies are assembled when all lines are read; with its schedule where one may stand.
///
/// # Errors
///
/// The first bad line with its leftmost fault, else the first refusal of a body that isn't assembled, method by method.
/// Or want of memory.
pub fn read_classes(alloc: Global, text: &[u8], schedule: bool) -> Result<Read, LineError>
    requires { length text.now < 2 ^ 32 - 1 }
    ensures { GivesLines (λ r. r) result (program_of schedule (reading_of text.now)) }
{
    let good = good_lines(alloc, text)?;
    match drafts_in(alloc, text, good.lines.items(), good.stop, schedule) {
        Ok((classes, log)) => {
            drop(good);
            Ok(Read {
                classes: Seq::of(assembled_classes(alloc, classes)?),
                log: Seq::of(log),
            })
        }
        Err(error) => {
            drop(good);
            Err(error)
        }
    }
}
