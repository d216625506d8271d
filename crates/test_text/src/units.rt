// Instructions and payloads are spelled by units, and units that spell none are refused.
use dv_defs::{Insn, Payload, Regs, Seq};
use dv_units::{
    UnitError, decode, decode_of_encode, decode_payload, encode, encode_of_decode, encode_payload,
    items_are_apart, payload_size, spellings_are_apart, tables_agree, tiling_is_unique,
    units_spell_items,
};
use std::alloc::{AllocError, Global};
use std::process::Abort;
use std::test::Fail;

// The opcode of an instruction, its registers and their number, its literal, offset and index.
type Parts = (u8, u8, [u16; 5], i64, i32, u32);

// Units, and the instruction that they spell.
type Spelled = (&'static [u16], Parts);

fn insn_of(parts: &Parts, range: bool) -> Insn {
    let (op, count, first, lit, off, index) = *parts;
    Insn {
        op,
        regs: Regs {
            count,
            first,
            range,
        },
        lit,
        off,
        index,
    }
}

// Units and the instruction that they spell, worked by hand from the page on formats: each format once at least,
// and each offset at its bounds.
#[rattlefmt::skip]
static SPELLED: [Spelled; 42] = [
    (&[0x0000], (0x00, 0, [0, 0, 0, 0, 0], 0, 0, 0)),
    (&[0x000e], (0x0e, 0, [0, 0, 0, 0, 0], 0, 0, 0)),
    (&[0x2101], (0x01, 2, [1, 2, 0, 0, 0], 0, 0, 0)),
    (&[0xf112], (0x12, 1, [1, 0, 0, 0, 0], -1, 0, 0)),
    (&[0x7012], (0x12, 1, [0, 0, 0, 0, 0], 7, 0, 0)),
    (&[0x8f12], (0x12, 1, [15, 0, 0, 0, 0], -8, 0, 0)),
    (&[0x050a], (0x0a, 1, [5, 0, 0, 0, 0], 0, 0, 0)),
    (&[0xfe28], (0x28, 0, [0, 0, 0, 0, 0], 0, -2, 0)),
    (&[0x0029, 0xfffe], (0x29, 0, [0, 0, 0, 0, 0], 0, -2, 0)),
    (&[0x0102, 0x012c], (0x02, 2, [1, 300, 0, 0, 0], 0, 0, 0)),
    (&[0x0338, 0x0004], (0x38, 1, [3, 0, 0, 0, 0], 0, 4, 0)),
    (&[0x0313, 0xfffe], (0x13, 1, [3, 0, 0, 0, 0], -2, 0, 0)),
    (&[0xff13, 0x7fff], (0x13, 1, [255, 0, 0, 0, 0], 32767, 0, 0)),
    (&[0x0015, 0x0001], (0x15, 1, [0, 0, 0, 0, 0], 65536, 0, 0)),
    (&[0x0115, 0x8000], (0x15, 1, [1, 0, 0, 0, 0], -2147483648, 0, 0)),
    (&[0x0219, 0xffff], (0x19, 1, [2, 0, 0, 0, 0], -281474976710656, 0, 0)),
    (&[0x011a, 0x0005], (0x1a, 1, [1, 0, 0, 0, 0], 0, 0, 5)),
    (&[0x0090, 0x0201], (0x90, 3, [0, 1, 2, 0, 0], 0, 0, 0)),
    (&[0x00d8, 0xff01], (0xd8, 2, [0, 1, 0, 0, 0], -1, 0, 0)),
    (&[0x2132, 0x0003], (0x32, 2, [1, 2, 0, 0, 0], 0, 3, 0)),
    (&[0x21d0, 0xfffd], (0xd0, 2, [1, 2, 0, 0, 0], -3, 0, 0)),
    (&[0x2152, 0x0007], (0x52, 2, [1, 2, 0, 0, 0], 0, 0, 7)),
    (&[0x002a, 0xfffe, 0xfffe], (0x2a, 0, [0, 0, 0, 0, 0], 0, -65538, 0)),
    (&[0x0003, 0x0100, 0xffff], (0x03, 2, [256, 65535, 0, 0, 0], 0, 0, 0)),
    (&[0x0114, 0x5678, 0x1234], (0x14, 1, [1, 0, 0, 0, 0], 0x12345678, 0, 0)),
    (&[0x0017, 0xffff, 0xffff], (0x17, 1, [0, 0, 0, 0, 0], -1, 0, 0)),
    (&[0x002b, 0x0008, 0x0001], (0x2b, 1, [0, 0, 0, 0, 0], 0, 65544, 0)),
    (&[0x011b, 0x0003, 0x0002], (0x1b, 1, [1, 0, 0, 0, 0], 0, 0, 0x20003)),
    (&[0x1071, 0x0005, 0x0000], (0x71, 1, [0, 0, 0, 0, 0], 0, 0, 5)),
    (&[0x5571, 0x1234, 0x4321], (0x71, 5, [1, 2, 3, 4, 5], 0, 0, 0x1234)),
    (&[0x0118, 0xdef0, 0x9abc, 0x5678, 0x1234], (0x18, 1, [1, 0, 0, 0, 0], 0x1234_5678_9abc_def0, 0, 0)),
    (&[0x0118, 0xfffe, 0xffff, 0xffff, 0xffff], (0x18, 1, [1, 0, 0, 0, 0], -2, 0, 0)),
    (&[0x8028], (0x28, 0, [0, 0, 0, 0, 0], 0, -128, 0)),
    (&[0x7f28], (0x28, 0, [0, 0, 0, 0, 0], 0, 127, 0)),
    (&[0x0029, 0x8000], (0x29, 0, [0, 0, 0, 0, 0], 0, -32768, 0)),
    (&[0x0029, 0x7fff], (0x29, 0, [0, 0, 0, 0, 0], 0, 32767, 0)),
    (&[0x0338, 0x8000], (0x38, 1, [3, 0, 0, 0, 0], 0, -32768, 0)),
    (&[0x0338, 0x7fff], (0x38, 1, [3, 0, 0, 0, 0], 0, 32767, 0)),
    (&[0x2132, 0x8000], (0x32, 2, [1, 2, 0, 0, 0], 0, -32768, 0)),
    (&[0x2132, 0x7fff], (0x32, 2, [1, 2, 0, 0, 0], 0, 32767, 0)),
    (&[0x002a, 0x0000, 0x8000], (0x2a, 0, [0, 0, 0, 0, 0], 0, -2147483648, 0)),
    (&[0x002b, 0xffff, 0x7fff], (0x2b, 1, [0, 0, 0, 0, 0], 0, 2147483647, 0)),
];

// The same, of invoke-static/range.
#[rattlefmt::skip]
static RANGES: [Spelled; 2] = [
    (&[0x0477, 0x0009, 0x0002], (0x77, 4, [2, 0, 0, 0, 0], 0, 0, 9)),
    (&[0x0077, 0x0009, 0x0000], (0x77, 0, [0, 0, 0, 0, 0], 0, 0, 9)),
];

fn are_units(rt: &impl Abort, found: &[u16], expected: &[u16]) {
    assert_eq!(rt; found, expected);
}

fn spells(rt: &impl Abort, alloc: Global, units: &[u16], insn: &Insn) -> Result<(), AllocError> {
    assert!(rt; !units.is_empty() && units.len() < 6);
    let size = units.len() as u32;
    assert!(rt; decode(units, 0) == Ok((*insn, size)));
    let mut out = Vec::new(alloc);
    assert!(rt; encode(insn, &mut out) == Ok(size));
    are_units(rt, &out, units);
    drop(out);
    Ok(())
}

fn spells_row(
    rt: &impl Abort,
    alloc: Global,
    row: &Spelled,
    range: bool,
) -> Result<(), AllocError> {
    let (units, parts) = row;
    spells(rt, alloc, units, &insn_of(parts, range))
}

#[test]
fn spells_both_ways(rt: HostRuntime) -> Result<(), Fail> {
    for row in &SPELLED {
        spells_row(&rt, rt.alloc(), row, false)?;
    }
    for row in &RANGES {
        spells_row(&rt, rt.alloc(), row, true)?;
    }
    Ok(())
}

// Units of no opcode, units that are cut, and units of which a field has another value than its spelling.
static CUT: [&[u16]; 4] = [
    &[0x0014],
    &[0x0090],
    &[0x5571, 0x1234],
    &[0x0118, 0xdef0, 0x9abc, 0x5678],
];

static UNREAD: [&[u16]; 10] = [
    &[0x0100],
    &[0x0200],
    &[0x0300],
    &[0x0129, 0x0001],
    &[0x012a, 0x0001, 0x0000],
    &[0x0103, 0x0001, 0x0000],
    &[0x0071, 0x0000, 0x0001],
    &[0x0171, 0x0000, 0x0000],
    &[0x6071, 0x0000, 0x0000],
    &[0x0077, 0x0009, 0x0002],
];

fn refuses(rt: &impl Abort, units: &[u16], error: UnitError) {
    assert!(rt; !units.is_empty());
    assert!(rt; decode(units, 0).err() == Some(error));
}

#[test]
fn refuses_units(rt: HostRuntime) {
    refuses(&rt, &[0x003e], UnitError::Unused(0x3e));
    refuses(&rt, &[0x00a6, 0x0000], UnitError::Float(0xa6));
    for units in &CUT {
        refuses(&rt, units, UnitError::Cut);
    }
    for units in &UNREAD {
        refuses(&rt, units, UnitError::OperandRange);
    }
}

// An instruction of each format with an operand that does not fit, or not in the form of its format.
#[rattlefmt::skip]
static UNFIT: [Parts; 28] = [
    (0x00, 0, [0, 0, 0, 0, 0], 0, 1, 0),
    (0x01, 2, [0, 16, 0, 0, 0], 0, 0, 0),
    (0x12, 1, [0, 0, 0, 0, 0], 8, 0, 0),
    (0x12, 1, [16, 0, 0, 0, 0], 0, 0, 0),
    (0x0a, 1, [256, 0, 0, 0, 0], 0, 0, 0),
    (0x28, 0, [0, 0, 0, 0, 0], 0, 128, 0),
    (0x29, 0, [0, 0, 0, 0, 0], 0, 32768, 0),
    (0x02, 2, [256, 0, 0, 0, 0], 0, 0, 0),
    (0x38, 1, [3, 0, 0, 0, 0], 0, -32769, 0),
    (0x13, 1, [0, 0, 0, 0, 0], 32768, 0, 0),
    (0x15, 1, [0, 0, 0, 0, 0], 65537, 0, 0),
    (0x19, 1, [0, 0, 0, 0, 0], 65536, 0, 0),
    (0x1a, 1, [0, 0, 0, 0, 0], 0, 0, 65536),
    (0x90, 3, [0, 0, 256, 0, 0], 0, 0, 0),
    (0xd8, 2, [0, 1, 0, 0, 0], -129, 0, 0),
    (0x32, 2, [1, 2, 0, 0, 0], 0, 32768, 0),
    (0xd0, 2, [1, 2, 0, 0, 0], 32768, 0, 0),
    (0x52, 2, [1, 2, 0, 0, 0], 0, 0, 65536),
    (0x2a, 0, [0, 0, 0, 0, 0], 1, 0, 0),
    (0x03, 3, [0, 0, 0, 0, 0], 0, 0, 0),
    (0x14, 1, [1, 0, 0, 0, 0], 0x8000_0000, 0, 0),
    (0x2b, 1, [256, 0, 0, 0, 0], 0, 2, 0),
    (0x1b, 1, [256, 0, 0, 0, 0], 0, 0, 5),
    (0x71, 6, [0, 0, 0, 0, 0], 0, 0, 5),
    (0x18, 1, [256, 0, 0, 0, 0], 0, 0, 0),
    (0x28, 0, [0, 0, 0, 0, 0], 0, -129, 0),
    (0x29, 0, [0, 0, 0, 0, 0], 0, -32769, 0),
    (0x32, 2, [1, 2, 0, 0, 0], 0, -32769, 0),
];

fn refuses_insn(
    rt: &impl Abort,
    alloc: Global,
    insn: &Insn,
    error: UnitError,
) -> Result<(), AllocError> {
    let mut out = vec![in alloc; 0x0000u16]?;
    assert!(rt; encode(insn, &mut out).err() == Some(error));
    are_units(rt, &out, &[0x0000]);
    drop(out);
    Ok(())
}

#[test]
fn refuses_operands(rt: HostRuntime) -> Result<(), Fail> {
    for parts in &UNFIT {
        refuses_insn(
            &rt,
            rt.alloc(),
            &insn_of(parts, false),
            UnitError::OperandRange,
        )?;
    }
    let empty = (0x77, 0, [2, 0, 0, 0, 0], 0, 0, 9);
    refuses_insn(
        &rt,
        rt.alloc(),
        &insn_of(&empty, true),
        UnitError::OperandRange,
    )?;
    Ok(())
}

#[test]
fn refuses_opcodes(rt: HostRuntime) -> Result<(), Fail> {
    let unused = (0x3e, 0, [0, 0, 0, 0, 0], 0, 0, 0);
    refuses_insn(
        &rt,
        rt.alloc(),
        &insn_of(&unused, false),
        UnitError::Unused(0x3e),
    )?;
    let float = (0xa6, 0, [0, 0, 0, 0, 0], 0, 0, 0);
    refuses_insn(
        &rt,
        rt.alloc(),
        &insn_of(&float, false),
        UnitError::Float(0xa6),
    )?;
    Ok(())
}

fn shows(
    rt: &impl Abort,
    alloc: Global,
    error: UnitError,
    expected: &str,
) -> Result<(), AllocError> {
    let shown = format!(in alloc; "{error}")?;
    assert!(rt; shown.as_str() == expected);
    drop(shown);
    Ok(())
}

#[test]
fn shows_an_error(rt: HostRuntime) -> Result<(), Fail> {
    let float = "opcode 0xa6 of a float instruction";
    shows(&rt, rt.alloc(), UnitError::Float(0xa6), float)?;
    shows(
        &rt,
        rt.alloc(),
        UnitError::Unused(0x03),
        "unused opcode 0x03",
    )?;
    Ok(())
}

// The laws' calls, once each.
#[test]
fn reads_back(rt: HostRuntime) -> Result<(), Fail> {
    let add = insn_of(&(0x90, 3, [0, 1, 2, 0, 0], 0, 0, 0), false);
    let mut out = vec![in rt.alloc(); 0x0000u16]?;
    assert!(rt; decode_of_encode(&add, &mut out) == Ok((add, 2)));
    assert!(rt; encode_of_decode(&[0x000e, 0x2101], 1, &mut out) == Ok(1));
    are_units(&rt, &out, &[0x0000, 0x0090, 0x0201, 0x2101]);
    drop(out);
    Ok(())
}

#[test]
fn laws_are_called() {
    spellings_are_apart();
    tables_agree();
    items_are_apart();
    units_spell_items();
    tiling_is_unique();
}

// Payloads and their units, worked by hand from the page on the bytecode.
static PACKED: [(&[u16], i32, &[i32]); 2] = [
    (&[0x0100, 0x0000, 0x0005, 0x0000], 5, &[]),
    (
        &[
            0x0100, 0x0002, 0xfffe, 0xffff, 0x0005, 0x0000, 0xfffd, 0xffff,
        ],
        -2,
        &[5, -3],
    ),
];

static SPARSE: [(&[u16], &[i32], &[i32]); 1] = [(
    &[
        0x0200, 0x0002, 0xffff, 0xffff, 0x0007, 0x0000, 0x0004, 0x0000, 0x0003, 0x0001,
    ],
    &[-1, 7],
    &[4, 65539],
)];

static DATA: [(&[u16], u16, &[u8]); 5] = [
    (
        &[0x0300, 0x0001, 0x0003, 0x0000, 0x0201, 0x0003],
        1,
        &[1, 2, 3],
    ),
    (&[0x0300, 0x0002, 0x0001, 0x0000, 0x1234], 2, &[0x34, 0x12]),
    (
        &[0x0300, 0x0004, 0x0001, 0x0000, 0x5678, 0x1234],
        4,
        &[0x78, 0x56, 0x34, 0x12],
    ),
    (
        &[
            0x0300, 0x0008, 0x0001, 0x0000, 0x0201, 0x0403, 0x0605, 0x0807,
        ],
        8,
        &[1, 2, 3, 4, 5, 6, 7, 8],
    ),
    (&[0x0300, 0x0008, 0x0000, 0x0000], 8, &[]),
];

fn numbers(alloc: Global, numbers: &[i32]) -> Result<Seq<i32>, AllocError> {
    Ok(Seq::of(Vec::from_slice(alloc, numbers)?))
}

fn packed(alloc: Global, first: i32, targets: &[i32]) -> Result<Payload, AllocError> {
    let targets = numbers(alloc, targets)?;
    Ok(Payload::Packed { first, targets })
}

fn sparse(alloc: Global, keys: &[i32], targets: &[i32]) -> Result<Payload, AllocError> {
    let keys = numbers(alloc, keys)?;
    let targets = numbers(alloc, targets)?;
    Ok(Payload::Sparse { keys, targets })
}

fn data(alloc: Global, width: u16, bytes: &[u8]) -> Result<Payload, AllocError> {
    let bytes = Seq::of(Vec::from_slice(alloc, bytes)?);
    Ok(Payload::Data { width, bytes })
}

fn reads_payload(
    rt: &impl Abort,
    alloc: Global,
    units: &[u16],
    payload: &Payload,
) -> Result<(), UnitError> {
    assert!(rt; units.len() > 1 && units.len() < 100);
    assert!(rt; payload_size(units, 1) == Some(units.len() as u32 - 1));
    let read = decode_payload(alloc, units, 1)?;
    assert!(rt; read == *payload);
    drop(read);
    Ok(())
}

// A nop may stand before a payload.
fn spells_payload(
    rt: &impl Abort,
    alloc: Global,
    units: &[u16],
    payload: &Payload,
) -> Result<(), Fail> {
    let mut out = vec![in alloc; 0x0000u16]?;
    assert!(rt; encode_payload(payload, &mut out)? == units.len());
    assert!(rt; out.len() > 1);
    are_units(rt, &out[1..], units);
    let nop = insn_of(&(0x00, 0, [0, 0, 0, 0, 0], 0, 0, 0), false);
    assert!(rt; decode(&out, 0)? == (nop, 1));
    reads_payload(rt, alloc, &out, payload)?;
    Ok(())
}

#[test]
fn spells_payloads_both_ways(rt: HostRuntime) -> Result<(), Fail> {
    let alloc = rt.alloc();
    for (units, first, targets) in &PACKED {
        spells_payload(&rt, alloc, units, &packed(alloc, *first, targets)?)?;
    }
    for (units, keys, targets) in &SPARSE {
        spells_payload(&rt, alloc, units, &sparse(alloc, keys, targets)?)?;
    }
    for (units, width, bytes) in &DATA {
        spells_payload(&rt, alloc, units, &data(alloc, *width, bytes)?)?;
    }
    Ok(())
}

static NO_PAYLOADS: [&[u16]; 10] = [
    // The last byte isn't used, and not 0.
    &[0x0300, 0x0001, 0x0001, 0x0000, 0x0100],
    // No element has 3 bytes, or none.
    &[0x0300, 0x0003, 0x0000, 0x0000],
    &[0x0300, 0x0000, 0x0000, 0x0000],
    // Cut.
    &[0x0300, 0x0002, 0x0001, 0x0000],
    &[0x0300, 0x0002, 0x0000],
    &[0x0100, 0x0001, 0x0000, 0x0000, 0x0005],
    &[0x0200, 0x0001, 0x0000, 0x0000, 0x0005],
    &[0x0100],
    // No mark of a payload.
    &[0x0000, 0x0000, 0x0000, 0x0000],
    &[0x0400, 0x0000, 0x0000, 0x0000],
];

fn has_no_payload(rt: &impl Abort, alloc: Global, units: &[u16], at: usize) {
    assert!(rt; units.len() < 100);
    assert!(rt; payload_size(units, at).is_none());
    let read = decode_payload(alloc, units, at);
    assert!(rt; matches!(read, Err(UnitError::BadPayload)));
}

#[test]
fn refuses_units_of_no_payload(rt: HostRuntime) {
    for units in &NO_PAYLOADS {
        has_no_payload(&rt, rt.alloc(), units, 0);
    }
}

#[test]
fn finds_no_payload_at_or_past_the_end(rt: HostRuntime) {
    let units = [0x0100, 0x0000, 0x0005, 0x0000];
    for at in [4, 5, 100, usize::MAX] {
        has_no_payload(&rt, rt.alloc(), &units, at);
    }
    has_no_payload(&rt, rt.alloc(), &[], 0);
}

fn refuses_payload(rt: &impl Abort, alloc: Global, payload: &Payload) -> Result<(), AllocError> {
    let mut out = vec![in alloc; 0x0000u16]?;
    assert!(rt; encode_payload(payload, &mut out) == Err(UnitError::BadPayload));
    are_units(rt, &out, &[0x0000]);
    drop(out);
    Ok(())
}

#[test]
fn refuses_payloads(rt: HostRuntime) -> Result<(), Fail> {
    let alloc = rt.alloc();
    refuses_payload(&rt, alloc, &data(alloc, 3, &[1, 2, 3])?)?;
    refuses_payload(&rt, alloc, &data(alloc, 4, &[1, 2, 3])?)?;
    refuses_payload(&rt, alloc, &sparse(alloc, &[1, 2], &[4])?)?;
    Ok(())
}
