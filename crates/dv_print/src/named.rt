// The addresses at which labels stand.
ghost use Rattle.std.specs.Prelude.{◌≡◌, ◌++◌, ℕ, map, IfOk, OnOk};
ghost use Rattle.std.specs.List.{flat_map};
ghost use Rattle.dv_defs.specs.Numbers.{jump};
ghost use Rattle.dv_print.specs.Named.{target_of, named_by_payload, named_by_piece, named_by_try, label_addresses, is_label_address};

use crate::pieces::{Part, Piece};
use crate::switches::Pieces;
use dv_defs::{Insn, Payload, Try};
use dv_units::has_offset;
use std::alloc::{AllocError, Global};
use std::collections::BTreeSet;
use std::marker::Model;

/// The address at a distance from another; none of a body's where it is below 0.
pub fn jump(at: u16, off: i32) -> u32
    ensures { result ≡ jump at off }
{
    let to = i64::from(at) + i64::from(off);
    if to < 0 { 65536 } else { to as u32 }
}

/// The address to which an instruction's offset leads, where its format has one.
pub fn target_of(at: u16, insn: &Insn) -> Option<u32>
    ensures { result ≡ target_of at insn.now }
{
    if has_offset(insn.op) {
        Some(jump(at, insn.off))
    } else {
        None
    }
}

/// Appends the addresses at these distances from a base.
pub fn add_targets(named: &mut Vec<u32>, base: u16, targets: &[i32]) -> Result<(), AllocError>
    ensures { OnOk result (named.new.items ≡ named.old.items ++ map (jump base) targets.now) }
{
    for target in targets {
        named.push(jump(base, *target))?;
    }
    Ok(())
}

/// Appends the addresses that a payload names, if its targets count from a base.
fn add_payload(named: &mut Vec<u32>, base: u16, payload: &Payload) -> Result<(), AllocError>
    ensures { OnOk result (named.new.items ≡ named.old.items ++ named_by_payload base payload.now) }
{
    match payload {
        Payload::Packed { first: _, targets } => add_targets(named, base, targets.items()),
        Payload::Sparse { keys: _, targets } => add_targets(named, base, targets.items()),
        Payload::Data { width: _, bytes: _ } => Ok(()),
    }
}

/// Appends the addresses that a piece names.
fn add_piece(named: &mut Vec<u32>, pieces: &Pieces, piece: &Piece) -> Result<(), AllocError>
    ensures { OnOk result (named.new.items ≡ named.old.items ++ named_by_piece pieces.now piece.now) }
{
    match &piece.part {
        Part::Insn(insn) => {
            if let Some(target) = target_of(piece.at, insn) {
                named.push(target)?;
            }
            Ok(())
        }
        Part::Payload(payload) => { add_payload(named, pieces.base_of(piece.at), payload) }
    }
}

/// Appends the addresses that a try entry names.
fn add_try(named: &mut Vec<u32>, entry: &Try) -> Result<(), AllocError>
    ensures { OnOk result (named.new.items ≡ named.old.items ++ named_by_try entry.now) }
{
    named.push(entry.start)?;
    named.push(entry.end)?;
    for handler in entry.handlers.items() {
        named.push(handler.at)?;
    }
    Ok(())
}

/// Appends the addresses that the pieces name.
fn add_pieces(named: &mut Vec<u32>, pieces: &Pieces) -> Result<(), AllocError>
    ensures { OnOk result (named.new.items ≡ named.old.items ++ flat_map (named_by_piece pieces.now) pieces.now) }
{
    for piece in pieces.items() {
        add_piece(named, pieces, piece)?;
    }
    Ok(())
}

/// Appends the addresses that the try entries name.
fn add_tries(named: &mut Vec<u32>, tries: &[Try]) -> Result<(), AllocError>
    ensures { OnOk result (named.new.items ≡ named.old.items ++ flat_map named_by_try tries.now) }
{
    for entry in tries {
        add_try(named, entry)?;
    }
    Ok(())
}

/// The addresses that are named, each once. A look-up goes by their order. To a contract it is the list of them.
#[derive(Drop)]
pub struct Named {
    addresses: BTreeSet<u32>,
}

impl Model for Named {
    ghost use Rattle.std.specs.Prelude.{ℕ, List};

    ghost Value = { List ℕ };

    ghost view = { λ named. named.addresses.keys };
}

impl Named {
    /// The addresses of a list.
    fn of(alloc: Global, list: &[u32]) -> Result<Named, AllocError>
        ensures { IfOk result (λ named. (address : ℕ) → is_label_address named address ≡ is_label_address list.now address) }
    {
        let mut addresses = BTreeSet::new(alloc);
        for address in list {
            addresses.insert(*address)?;
        }
        Ok(Named { addresses })
    }

    pub fn has(&self, address: u32) -> bool
        ensures { result ≡ is_label_address self.now address }
    {
        self.addresses.contains(&address)
    }
}

/// The addresses that branches, switches, references to payloads and tries name.
pub fn addresses_named(alloc: Global, pieces: &Pieces, tries: &[Try]) -> Result<Named, AllocError>
    ensures { IfOk result (λ named. (address : ℕ) → is_label_address named address
        ≡ is_label_address (label_addresses pieces.now tries.now) address) }
{
    let mut list = Vec::new(alloc);
    add_pieces(&mut list, pieces)?;
    add_tries(&mut list, tries)?;
    Named::of(alloc, &list)
}
