// What no text of a program shows. All else of assembling is in `cases/reading`.
ghost use Rattle.std.specs.Prelude.{◌≡◌, ◌≤◌, ◌∷◌, [], false, pos};
ghost use Rattle.dv_draft.specs.Draft.{IsFormed, IsOp};

use dv_asm::{assemble, units_are_items};
use dv_defs::{Body, Chars, Insn, LineError, LineKind, Regs, Seq, Text};
use dv_draft::{Catch, Draft, Draftop, Item, PoolRef, What};
use std::alloc::{AllocError, Global};
use std::marker::Model;
use std::process::Abort;
use std::test::Fail;

/// A draft in the making.
#[derive(Drop)]
struct Making {
    alloc: Global,
    items: Vec<Item>,
    catches: Vec<Catch>,
}

impl Model for Making {
    ghost use Rattle.std.specs.Prelude.{List};
    ghost use Rattle.dv_draft.specs.declared.draft.Item.{Item};
    ghost use Rattle.dv_draft.specs.Draft.{AreFormed};

    ghost Value = { List Item };

    ghost view = { λ m. m.items.items };

    ghost invariant = { λ m. AreFormed m.items.items };
}

fn text(alloc: Global, name: &str) -> Result<Text, AllocError> {
    Text::of(Vec::from_slice(alloc, name.as_bytes())?)
}

/// An instruction over at most two registers.
fn insn(op: u8, count: u8, first: u16, second: u16) -> Insn
    ensures { result ≡ record {
      op = op;
      regs = record { count = count; first = first ∷ second ∷ 0 ∷ 0 ∷ 0 ∷ []; range = false };
      lit = pos 0;
      off = pos 0;
      index = 0;
    } }
{
    Insn {
        op,
        regs: Regs {
            count,
            first: [first, second, 0, 0, 0],
            range: false,
        },
        lit: 0,
        off: 0,
        index: 0,
    }
}

impl Making {
    fn new(alloc: Global) -> Making {
        Making {
            alloc,
            items: Vec::new(alloc),
            catches: Vec::new(alloc),
        }
    }

    fn add(&mut self, line: u32, what: What) -> Result<(), AllocError>
        requires { IsFormed what }
    {
        self.items.push(Item { line, what })?;
        Ok(())
    }

    fn label(&mut self, line: u32, name: &str) -> Result<(), AllocError> {
        let name = text(self.alloc, name)?;
        self.add(line, What::Label(name))
    }

    fn op(
        &mut self,
        line: u32,
        insn: Insn,
        label: Option<Text>,
        pool: PoolRef,
    ) -> Result<(), AllocError>
        requires { IsOp (record { insn = insn; label = label; pool = pool }) }
    {
        self.add(line, What::Op(Draftop { insn, label, pool }))
    }

    fn nop(&mut self, line: u32) -> Result<(), AllocError> {
        self.op(line, insn(0x00, 0, 0, 0), None, PoolRef::None)
    }

    fn const_string(&mut self, line: u32, chars: &[u16]) -> Result<(), AllocError> {
        let chars = Chars::of(Vec::from_slice(self.alloc, chars)?);
        self.op(line, insn(0x1a, 1, 0, 0), None, PoolRef::Str(chars))
    }

    fn catch(&mut self, line: u32, from: &str, to: &str, at: &str) -> Result<(), AllocError> {
        let catch = Catch {
            line,
            kind: None,
            from: text(self.alloc, from)?,
            to: text(self.alloc, to)?,
            at: text(self.alloc, at)?,
        };
        self.catches.push(catch)?;
        Ok(())
    }

    fn draft(self, registers: u16) -> Draft
        requires { registers ≤ 256 }
    {
        let Making { items, catches, .. } = self;
        Draft {
            registers,
            items: Seq::of(items),
            catches: Seq::of(catches),
        }
    }
}

fn refusal(line: u32, kind: LineKind) -> Option<LineError> {
    Some(LineError::At { line, kind })
}

fn assembled(alloc: Global, draft: &Draft) -> Result<Body, LineError> {
    assemble(alloc, draft)
}

fn error_of(alloc: Global, draft: &Draft) -> Option<LineError> {
    assembled(alloc, draft).err()
}

/// The units of the body, none where the draft is refused.
fn units_of(alloc: Global, draft: &Draft) -> Result<Vec<u16>, AllocError> {
    match assembled(alloc, draft) {
        Ok(body) => Ok(body.units.into_vec()),
        Err(_) => Ok(Vec::new(alloc)),
    }
}

/// Four nops, each after a label: `a`, `b`, `c`, `d`.
fn add_nops(making: &mut Making) -> Result<(), AllocError> {
    for name in ["a", "b", "c", "d"] {
        making.label(3, name)?;
        making.nop(4)?;
    }
    Ok(())
}

/// Handlers of ranges that touch, on lines 10 and 11, and two handlers of a range that overlaps both, on these lines.
fn add_catches(making: &mut Making, third: u32, fourth: u32) -> Result<(), AllocError> {
    add_nops(making)?;
    making.catch(10, "a", "c", "d")?;
    making.catch(11, "c", "d", "d")?;
    making.catch(third, "b", "d", "d")?;
    making.catch(fourth, "b", "d", "d")
}

/// What was made, or nothing of it.
fn made(making: Making, done: Result<(), AllocError>) -> Result<Draft, AllocError> {
    match done {
        Ok(()) => Ok(making.draft(1)),
        Err(error) => {
            drop(making);
            Err(error)
        }
    }
}

fn overlapping(alloc: Global, third: u32, fourth: u32) -> Result<Draft, AllocError> {
    let mut making = Making::new(alloc);
    let done = add_catches(&mut making, third, fourth);
    made(making, done)
}

// The first line is the least one, also where a later handler has it, as no reader makes it.
#[test]
fn refuses_overlaps(rt: HostRuntime) -> Result<(), Fail> {
    for (third, fourth, line) in [(12, 5, 5), (9, 9, 9)] {
        refuses_overlap(&rt, rt.alloc(), third, fourth, line)?;
    }
    Ok(())
}

fn refuses_overlap(
    rt: &impl Abort,
    alloc: Global,
    third: u32,
    fourth: u32,
    line: u32,
) -> Result<(), AllocError> {
    let draft = overlapping(alloc, third, fourth)?;
    let wanted = refusal(line, LineKind::TryOverlap);
    assert_eq!(rt; error_of(alloc, &draft), wanted);
    drop(draft);
    Ok(())
}

/// Where the draft isn't refused, its pool of strings.
fn strings_of(alloc: Global, draft: &Draft) -> Result<Vec<Chars>, AllocError> {
    match assembled(alloc, draft) {
        Ok(body) => Ok(body.strings.into_vec()),
        Err(_) => Ok(Vec::new(alloc)),
    }
}

/// Instructions that name two strings, the first of them twice.
fn add_names(making: &mut Making) -> Result<(), AllocError> {
    making.const_string(4, &[0x79])?;
    making.const_string(5, &[0x78])?;
    making.const_string(6, &[0x79])
}

fn naming(alloc: Global) -> Result<Draft, AllocError> {
    let mut making = Making::new(alloc);
    let done = add_names(&mut making);
    made(making, done)
}

fn assert_units(rt: &impl Abort, alloc: Global, draft: &Draft) -> Result<(), AllocError> {
    let units: [u16; 6] = [0x001a, 0x0000, 0x001a, 0x0001, 0x001a, 0x0000];
    let assembled = units_of(alloc, draft)?;
    assert_eq!(rt; assembled.as_slice(), units.as_slice());
    drop(assembled);
    Ok(())
}

#[test]
fn names_places_in_pools(rt: HostRuntime) -> Result<(), Fail> {
    units_are_items();
    let draft = naming(rt.alloc())?;
    let done = assert_units(&rt, rt.alloc(), &draft);
    drop(draft);
    done?;
    Ok(())
}

fn assert_strings(rt: &impl Abort, alloc: Global, draft: &Draft) -> Result<(), AllocError> {
    let strings = strings_of(alloc, draft)?;
    match strings.as_slice() {
        [y, x] => {
            assert_eq!(rt; y.units(), [0x79].as_slice());
            assert_eq!(rt; x.units(), [0x78].as_slice());
        }
        _ => panic!(rt; "other strings"),
    }
    drop(strings);
    Ok(())
}

#[test]
fn keeps_strings_in_first_seen_order(rt: HostRuntime) -> Result<(), Fail> {
    let draft = naming(rt.alloc())?;
    let done = assert_strings(&rt, rt.alloc(), &draft);
    drop(draft);
    done?;
    Ok(())
}
