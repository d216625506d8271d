//! Looking up an opcode or a name in the table.

ghost use Rattle.std.specs.Prelude.{◌≡◌, ◌<◌, option_map, map, length, slice_get, IfSome, IsTrue, IsNone};
ghost use Rattle.dv_optable.specs.Families.{can_throw, is_local};
ghost use Rattle.dv_optable.specs.Table.{entry_at, family_at, format_at, is_float, opcode_in, opcode_named, place_at, row};

use crate::family::Family;
use crate::format::Format;
use crate::table::{Opcode, rows};

/// What the table says of an opcode.
#[derive(Clone, Copy, Debug)]
pub struct Row {
    pub name: &'static str,
    pub format: Format,
    /// Whether the instruction can throw.
    pub throws: bool,
    /// Whether it concerns its own frame alone: it can't throw, and is no return and no instance-of.
    pub local: bool,
}

// The place of an opcode in the table.
fn place_of(op: u8) -> Option<u8>
    ensures place { result ≡ place_at op }
    ensures below { IfSome result (λ k. k < 182) }
{
    Some(match op {
        0x00..=0x2c => op,
        0x31..=0x3d => op - 0x04,
        0x44..=0x72 => op - 0x0a,
        0x74..=0x78 => op - 0x0b,
        0x7b..=0x7e => op - 0x0d,
        0x81 => op - 0x0f,
        0x84 => op - 0x11,
        0x8d..=0xa5 => op - 0x19,
        0xb0..=0xc5 => op - 0x23,
        0xd0..=0xe2 => op - 0x2d,
        _ => return None,
    })
}

fn row_at(rows: &'static [Opcode], place: usize) -> Opcode
    requires { place < length rows.now }
    ensures { slice_get (map (λ r. row r.0 r.1.now r.2 r.3) rows.now) place ≡ Some (row result.0 result.1.now result.2 result.3) }
{
    rows[place]
}

fn entry_of(op: u8) -> Option<Opcode>
    ensures { option_map (λ r. row r.0 r.1.now r.2 r.3) result ≡ entry_at op }
{
    let place = place_of(op)?;
    Some(row_at(rows(), place as usize))
}

/// The row of an opcode; none where it is unused or a float's.
#[tactic(auto, unfolding(crate::specs::Table::format_at, crate::specs::Table::family_at))]
pub fn row_of(op: u8) -> Option<Row>
    ensures name { option_map (λ r. r.name.now) result ≡ option_map (λ e. e.name) (entry_at op) }
    ensures format { option_map (λ r. r.format) result ≡ format_at op }
    ensures throws { option_map (λ r. r.throws) result ≡ option_map can_throw (family_at op) }
    ensures local { option_map (λ r. r.local) result ≡ option_map is_local (family_at op) }
    ensures floats { IsTrue (is_float op) → IsNone result }
    ensures named { IfSome result (λ r. opcode_named r.name.now ≡ Some op) }
{
    let (_, name, format, family) = entry_of(op)?;
    Some(Row {
        name,
        format,
        throws: family.can_throw(),
        local: family.is_local(),
    })
}

/// The family of an opcode; none where it is unused or a float's.
#[tactic(auto, unfolding(crate::specs::Table::family_at))]
pub fn kind_of(op: u8) -> Option<Family>
    ensures { result ≡ family_at op }
{
    let (_, _, _, family) = entry_of(op)?;
    Some(family)
}

/// Whether an opcode is one of float or double arithmetic, which this machine leaves out.
#[tactic(auto, unfolding(crate::specs::Table::is_float))]
pub fn is_float(op: u8) -> bool
    ensures { result ≡ is_float op }
{
    matches!(
        op,
        0x2d..=0x30 | 0x7f..=0x80 | 0x82..=0x83 | 0x85..=0x8c | 0xa6..=0xaf | 0xc6..=0xcf
    )
}

fn opcode_among(mut rows: &[Opcode], name: &[u8]) -> Option<u8>
    ensures { result ≡ opcode_in (map (λ r. (r.1.now, r.0)) rows.entry.now) name.now }
{
    while let [row, rest @ ..] = rows {
        if row.1.as_bytes() == name {
            return Some(row.0);
        }
        rows = rest;
    }
    None
}

/// The opcode of a name; none where no row has it.
pub fn name_to_opcode(name: &[u8]) -> Option<u8>
    ensures opcode { result ≡ opcode_named name.now }
    ensures named { IfSome result (λ op. option_map (λ e. e.name) (entry_at op) ≡ Some name.now) }
{
    opcode_among(rows(), name)
}
