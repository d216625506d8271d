// The items of the draft of a body.
ghost use Rattle.std.specs.Prelude.{◌≡◌, ◌++◌, pos, map, option_map, IfOk, OnOk};
ghost use Rattle.std.specs.List.{flat_map};
ghost use Rattle.dv_draft.specs.declared.draft.What.TheVariants as what;
ghost use Rattle.dv_asm.specs.Refusals.{with_operands};
ghost use Rattle.dv_print.specs.Numbers.{label_name};
ghost use Rattle.dv_print.specs.Named.{target_of, label_addresses};
ghost use Rattle.dv_print.specs.Drafting.{drafted_op, labels_from, payload_item, part_item, piece_item, with_no_line, labels_at, items_at, items_in, items_of};

use crate::named::{Named, add_targets, addresses_named, target_of};
use crate::numbers::label_name;
use crate::pieces::{Part, Piece};
use crate::pool_entries::entry_in;
use crate::switches::Pieces;
use dv_defs::{Body, Insn, Payload, Seq, Text};
use dv_draft::{Draftop, Item, What};
use dv_units::pool_of;
use std::alloc::{AllocError, Global};

/// The name of the label at an address.
pub fn label(alloc: Global, address: u32) -> Result<Text, AllocError>
    ensures { IfOk result (λ t. t ≡ label_name address) }
{
    Text::of(label_name(alloc, address)?)
}

/// The names of the labels at these addresses.
fn labels(alloc: Global, addresses: &[u32]) -> Result<Vec<Text>, AllocError>
    ensures { IfOk result (λ v. v.items ≡ map label_name addresses.now) }
{
    let mut labels = Vec::new(alloc);
    for address in addresses {
        labels.push(label(alloc, *address)?)?;
    }
    Ok(labels)
}

/// The names of the labels at these distances from a base.
fn labels_from(alloc: Global, base: u16, targets: &[i32]) -> Result<Seq<Text>, AllocError>
    ensures { IfOk result (λ v. v ≡ labels_from base targets.now) }
{
    let mut addresses = Vec::new(alloc);
    add_targets(&mut addresses, base, targets)?;
    Ok(Seq::of(labels(alloc, &addresses)?))
}

/// The label of an address, where there is one.
fn label_of(alloc: Global, address: Option<u32>) -> Result<Option<Text>, AllocError>
    ensures { IfOk result (λ t. t ≡ option_map label_name address) }
{
    match address {
        Some(address) => Ok(Some(label(alloc, address)?)),
        None => Ok(None),
    }
}

/// An instruction without its offset and its index.
fn without_operands(insn: &Insn) -> Insn
    ensures { result ≡ with_operands insn.now (pos 0) 0 }
{
    Insn {
        op: insn.op,
        regs: insn.regs,
        lit: insn.lit,
        off: 0,
        index: 0,
    }
}

/// An instruction at an address: its label and its entry stand for its offset and its index.
fn op_of(alloc: Global, body: &Body, at: u16, insn: &Insn) -> Result<Draftop, AllocError>
    ensures { IfOk result (λ op. op ≡ drafted_op body.now at insn.now) }
{
    let label = label_of(alloc, target_of(at, insn))?;
    let pool = entry_in(body, pool_of(insn.op), insn.index)?;
    Ok(Draftop {
        insn: without_operands(insn),
        label,
        pool,
    })
}

fn packed_item(alloc: Global, base: u16, first: i32, targets: &[i32]) -> Result<What, AllocError>
    ensures { IfOk result (λ w. w ≡ what.Packed first (labels_from base targets.now)) }
{
    Ok(What::Packed(first, labels_from(alloc, base, targets)?))
}

fn sparse_item(
    alloc: Global,
    base: u16,
    keys: &Seq<i32>,
    targets: &[i32],
) -> Result<What, AllocError>
    ensures { IfOk result (λ w. w ≡ what.Sparse keys.now (labels_from base targets.now)) }
{
    let labels = labels_from(alloc, base, targets)?;
    Ok(What::Sparse(keys.clone()?, labels))
}

/// A payload whose targets count from an address.
fn payload_item(alloc: Global, base: u16, payload: &Payload) -> Result<What, AllocError>
    ensures { IfOk result (λ w. w ≡ payload_item base payload.now) }
{
    match payload {
        Payload::Packed { first, targets } => packed_item(alloc, base, *first, targets.items()),
        Payload::Sparse { keys, targets } => sparse_item(alloc, base, keys, targets.items()),
        Payload::Data { width, bytes } => Ok(What::Data(*width, bytes.clone()?)),
    }
}

/// A piece as an item.
fn piece_item(
    alloc: Global,
    body: &Body,
    pieces: &Pieces,
    piece: &Piece,
) -> Result<Item, AllocError>
    ensures { IfOk result (λ item. item ≡ piece_item body.now pieces.now piece.now) }
{
    let what = match &piece.part {
        Part::Insn(insn) => What::Op(op_of(alloc, body, piece.at, insn)?),
        Part::Payload(payload) => payload_item(alloc, pieces.base_of(piece.at), payload)?,
    };
    Ok(Item { line: 0, what })
}

/// Appends the label at an address, where the address is named.
fn add_label(items: &mut Vec<Item>, named: &Named, address: u32) -> Result<(), AllocError>
    ensures { OnOk result (items.new.items ≡ items.old.items ++ labels_at named.now address) }
{
    if named.has(address) {
        let name = label(*items.allocator(), address)?;
        items.push(Item {
            line: 0,
            what: What::Label(name),
        })?;
    }
    Ok(())
}

/// Appends a piece with the label before it, where its address is named.
fn add_piece(
    items: &mut Vec<Item>,
    body: &Body,
    pieces: &Pieces,
    named: &Named,
    piece: &Piece,
) -> Result<(), AllocError>
    ensures { OnOk result (items.new.items ≡ items.old.items ++ items_at body.now pieces.now named.now piece.now) }
{
    add_label(items, named, u32::from(piece.at))?;
    items.push(piece_item(*items.allocator(), body, pieces, piece)?)?;
    Ok(())
}

/// Appends the pieces with their labels.
fn add_pieces(
    items: &mut Vec<Item>,
    body: &Body,
    pieces: &Pieces,
    named: &Named,
) -> Result<(), AllocError>
    ensures { OnOk result (items.new.items ≡ items.old.items ++ flat_map (items_at body.now pieces.now named.now) pieces.now) }
{
    for piece in pieces.items() {
        add_piece(items, body, pieces, named, piece)?;
    }
    Ok(())
}

/// The pieces with their labels, and the label of the end.
fn items_in(
    alloc: Global,
    body: &Body,
    pieces: &Pieces,
    named: &Named,
) -> Result<Vec<Item>, AllocError>
    ensures { IfOk result (λ v. v.items ≡ items_in body.now pieces.now named.now) }
{
    let mut items = Vec::new(alloc);
    add_pieces(&mut items, body, pieces, named)?;
    add_label(&mut items, named, body.units.items().len() as u32)?;
    Ok(items)
}

/// The items of a body that has these pieces.
fn items_with(alloc: Global, body: &Body, pieces: &Pieces) -> Result<Vec<Item>, AllocError>
    ensures { IfOk result (λ v. v.items ≡ items_in body.now pieces.now (label_addresses pieces.now body.now.tries)) }
{
    let tries = body.tries.items();
    let named = addresses_named(alloc, pieces, tries)?;
    items_in(alloc, body, pieces, &named)
}

/// The items of a body.
pub fn items_of(alloc: Global, body: &Body) -> Result<Vec<Item>, AllocError>
    ensures { IfOk result (λ v. v.items ≡ items_of body.now) }
{
    let units = body.units.items();
    let pieces = Pieces::of(alloc, units)?;
    items_with(alloc, body, &pieces)
}
