// The items of a draft as they are printed.
ghost use Rattle.std.specs.Prelude.{◌≡◌, ◌<◌, ◌≤◌, ◌*◌, ◌^◌, ◌++◌, length, take, drop, OnOk, IsTrue};
ghost use Rattle.std.specs.Fmt.{signed_decimal};
ghost use Rattle.std.specs.List.{flat_map, zip};
ghost use Rattle.dv_defs.specs.Tiling.{is_width};
ghost use Rattle.dv_defs.specs.Numbers.{signed_at, low_first, elements};
ghost use Rattle.dv_print.specs.Draft.{label_line, case_line, suffix_of, element_line, element_count, packed_text, sparse_text, data_text, item_text};

use crate::numbers::{add_decimal, add_signed_decimal};
use crate::operands::{add_insn, add_label_text};
use dv_defs::Text;
use dv_draft::{Item, What};
use std::alloc::AllocError;

/// Appends a label on a line of its own.
fn add_label_line(text: &mut Vec<u8>, name: &Text) -> Result<(), AllocError>
    ensures { OnOk result (text.new.items ≡ text.old.items ++ label_line name.now) }
{
    add_label_text(text, name)?;
    text.extend_from_slice(b"\n")?;
    Ok(())
}

/// Appends labels on lines of their own.
fn add_label_lines(text: &mut Vec<u8>, names: &[Text]) -> Result<(), AllocError>
    ensures { OnOk result (text.new.items ≡ text.old.items ++ flat_map label_line names.now) }
{
    for name in names {
        add_label_line(text, name)?;
    }
    Ok(())
}

/// Appends a key of a switch.
fn add_key(text: &mut Vec<u8>, key: i32) -> Result<(), AllocError>
    ensures { OnOk result (text.new.items ≡ text.old.items ++ signed_decimal key) }
{
    add_signed_decimal(text, i64::from(key))?;
    Ok(())
}

/// Appends a key of a sparse switch with its label.
fn add_case(text: &mut Vec<u8>, key: i32, name: &Text) -> Result<(), AllocError>
    ensures { OnOk result (text.new.items ≡ text.old.items ++ case_line (key, name.now)) }
{
    add_key(text, key)?;
    text.extend_from_slice(b" -> ")?;
    add_label_text(text, name)?;
    text.extend_from_slice(b"\n")?;
    Ok(())
}

/// Appends the keys of a sparse switch with their labels.
fn add_cases(text: &mut Vec<u8>, keys: &[i32], names: &[Text]) -> Result<(), AllocError>
    ensures { OnOk result (text.new.items ≡ text.old.items ++ flat_map case_line (zip keys.now names.now)) }
{
    let mut keys = keys;
    let mut names = names;
    while let [key, other_keys @ ..] = keys {
        let [name, other_names @ ..] = names else {
            return Ok(());
        };
        add_case(text, *key, name)?;
        keys = other_keys;
        names = other_names;
    }
    Ok(())
}

/// The number of these bytes, the lowest first.
fn low_first(bytes: &[u8]) -> u64
    requires { length bytes.now ≤ 8 }
    ensures value { result ≡ low_first bytes.now }
    ensures small { low_first bytes.now < 256 ^ length bytes.now }
{
    match bytes {
        [byte, others @ ..] => u64::from(*byte) + 256 * low_first(others),
        [] => 0,
    }
}

/// The signed number of which these are the bytes, in an array of elements of `width` bytes.
fn signed_in(width: u16, n: u64) -> i64
    requires width { IsTrue (is_width width) }
    requires fits { n < 256 ^ width }
    ensures { result ≡ signed_at (8 * width) n }
{
    match width {
        1 => i64::from((n as u8).cast_signed()),
        2 => i64::from((n as u16).cast_signed()),
        4 => i64::from((n as u32).cast_signed()),
        _ => n.cast_signed(),
    }
}

/// The suffix of an array's elements of so many bytes.
fn suffix_of(width: u16) -> &'static [u8]
    ensures { result.now ≡ suffix_of width }
{
    match width {
        1 => b"t",
        2 => b"s",
        8 => b"L",
        _ => b"",
    }
}

/// Appends one element of an array.
fn add_element(text: &mut Vec<u8>, width: u16, bytes: &[u8]) -> Result<(), AllocError>
    requires width { IsTrue (is_width width) }
    requires short { length bytes.now ≤ width }
    ensures { OnOk result (text.new.items ≡ text.old.items ++ element_line width (signed_at (8 * width) (low_first bytes.now))) }
{
    add_signed_decimal(text, signed_in(width, low_first(bytes)))?;
    text.extend_from_slice(suffix_of(width))?;
    text.extend_from_slice(b"\n")?;
    Ok(())
}

/// Whether an array's elements may have so many bytes.
fn is_width(width: u16) -> bool
    ensures { result ≡ is_width width }
{
    matches!(width, 1 | 2 | 4 | 8)
}

/// The first bytes, so many of them, and those behind them.
fn cut(bytes: &[u8], width: u16) -> (&[u8], &[u8])
    ensures first { result.0.now ≡ take width bytes.now }
    ensures rest { result.1.now ≡ drop width bytes.now }
    ensures short { length result.0.now ≤ width }
{
    let width = usize::from(width);
    if width < bytes.len() {
        bytes.split_at(width)
    } else {
        (bytes, &[])
    }
}

/// Appends so many elements of an array.
fn add_elements(
    text: &mut Vec<u8>,
    width: u16,
    count: usize,
    bytes: &[u8],
) -> Result<(), AllocError>
    requires { IsTrue (is_width width) }
    ensures { OnOk result (text.new.items ≡ text.old.items ++ flat_map (element_line width) (elements count width bytes.now)) }
{
    let mut rest = bytes;
    let mut left = count;
    while left > 0 {
        let (element, others) = cut(rest, width);
        add_element(text, width, element)?;
        rest = others;
        left -= 1;
    }
    Ok(())
}

fn add_packed(text: &mut Vec<u8>, first: i32, targets: &[Text]) -> Result<(), AllocError>
    ensures { OnOk result (text.new.items ≡ text.old.items ++ packed_text first targets.now) }
{
    text.extend_from_slice(b".packed-switch ")?;
    add_key(text, first)?;
    text.extend_from_slice(b"\n")?;
    add_label_lines(text, targets)?;
    text.extend_from_slice(b".end packed-switch\n")?;
    Ok(())
}

fn add_sparse(text: &mut Vec<u8>, keys: &[i32], targets: &[Text]) -> Result<(), AllocError>
    ensures { OnOk result (text.new.items ≡ text.old.items ++ sparse_text keys.now targets.now) }
{
    text.extend_from_slice(b".sparse-switch\n")?;
    add_cases(text, keys, targets)?;
    text.extend_from_slice(b".end sparse-switch\n")?;
    Ok(())
}

/// Appends the elements of an array, none where they may not have so many bytes.
fn add_all_elements(text: &mut Vec<u8>, width: u16, bytes: &[u8]) -> Result<(), AllocError>
    ensures { OnOk result (text.new.items ≡ text.old.items ++ flat_map (element_line width) (elements (element_count width bytes.now) width bytes.now)) }
{
    if is_width(width) {
        return add_elements(text, width, bytes.len() / usize::from(width), bytes);
    }
    Ok(())
}

fn add_data(text: &mut Vec<u8>, width: u16, bytes: &[u8]) -> Result<(), AllocError>
    ensures { OnOk result (text.new.items ≡ text.old.items ++ data_text width bytes.now) }
{
    text.extend_from_slice(b".array-data ")?;
    add_decimal(text, u64::from(width))?;
    text.extend_from_slice(b"\n")?;
    add_all_elements(text, width, bytes)?;
    text.extend_from_slice(b".end array-data\n")?;
    Ok(())
}

/// Appends an item on its lines.
fn add_item(text: &mut Vec<u8>, item: &Item) -> Result<(), AllocError>
    ensures { OnOk result (text.new.items ≡ text.old.items ++ item_text item.now) }
{
    match &item.what {
        What::Label(name) => add_label_line(text, name),
        What::Op(op) => {
            add_insn(text, op)?;
            text.extend_from_slice(b"\n")
        }
        What::Packed(first, targets) => add_packed(text, *first, targets.items()),
        What::Sparse(keys, targets) => add_sparse(text, keys.items(), targets.items()),
        What::Data(width, bytes) => add_data(text, *width, bytes.items()),
    }
}

/// Appends items on their lines.
pub fn add_items(text: &mut Vec<u8>, items: &[Item]) -> Result<(), AllocError>
    ensures { OnOk result (text.new.items ≡ text.old.items ++ flat_map item_text items.now) }
{
    for item in items {
        add_item(text, item)?;
    }
    Ok(())
}
