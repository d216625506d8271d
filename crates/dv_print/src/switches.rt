// The pieces of a body, and its switches by the addresses to which they lead.
ghost use Rattle.std.specs.Prelude.{◌≡◌, ◌≤◌, ℕ, false, nat_eq, length, IfOk, OnOk};
ghost use Rattle.std.specs.Ordering.{nat_cmp};
ghost use Rattle.std.specs.Option.{option_map_or, option_or};
ghost use Rattle.std.specs.BTreeMap.{get};
ghost use Rattle.dv_asm.specs.First.{when};
ghost use Rattle.dv_print.specs.Pieces.{pieces_of};
ghost use Rattle.dv_print.specs.Named.{switches_to, switch_address, HasSwitches};
ghost use Rattle.dv_defs.specs.Body.{most_units};

use crate::named::jump;
use crate::pieces::{Part, Piece, pieces_of};
use std::alloc::{AllocError, Global};
use std::collections::BTreeMap;
use std::marker::Model;

/// The pieces of a body in their order, and of each address to which switches lead the address of the first one. To a
/// contract it is the list of the pieces.
#[derive(Drop)]
pub struct Pieces {
    pieces: Vec<Piece>,
    switches: BTreeMap<u32, u16>,
}

impl Model for Pieces {
    ghost use Rattle.std.specs.Prelude.{List};
    ghost use Rattle.dv_print.specs.declared.pieces.Piece.{Piece};
    ghost use Rattle.dv_print.specs.Named.{HasSwitches};

    ghost Value = { List Piece };

    ghost view = { λ p. p.pieces.items };

    ghost invariant = { λ p. HasSwitches p.pieces.items p.switches };
}

/// The address to which a switch leads.
fn target_of_switch(piece: &Piece) -> Option<u32>
    ensures { (address : ℕ) → switches_to address piece.now ≡ option_map_or (λ to. nat_eq to address) result false }
{
    match &piece.part {
        Part::Insn(insn) if matches!(insn.op, 0x2b | 0x2c) => Some(jump(piece.at, insn.off)),
        _ => None,
    }
}

/// Adds the address of a switch, where no switch before it leads where it leads.
fn add_switch(switches: &mut BTreeMap<u32, u16>, piece: &Piece) -> Result<(), AllocError>
    ensures { OnOk result ((address : ℕ) →
        get nat_cmp switches.new address ≡
        option_or (get nat_cmp switches.old address) (when (switches_to address piece.now) piece.now.at)) }
{
    if let Some(to) = target_of_switch(piece)
        && !switches.contains_key(&to)
    {
        switches.insert(to, piece.at)?;
    }
    Ok(())
}

/// Of each address to which switches lead the address of the first one.
fn switches_of(alloc: Global, pieces: &[Piece]) -> Result<BTreeMap<u32, u16>, AllocError>
    ensures { IfOk result (λ switches. HasSwitches pieces.now switches) }
{
    let mut switches = BTreeMap::new(alloc);
    for piece in pieces {
        add_switch(&mut switches, piece)?;
    }
    Ok(switches)
}

impl Pieces {
    /// The pieces of units, none where the units aren't instructions and payloads one after another.
    pub fn of(alloc: Global, units: &[u16]) -> Result<Pieces, AllocError>
        requires { length units.now ≤ most_units }
        ensures { IfOk result (λ pieces. pieces ≡ pieces_of units.now) }
    {
        let pieces = pieces_of(alloc, units)?;
        let switches = switches_of(alloc, &pieces)?;
        Ok(Pieces { pieces, switches })
    }

    pub fn items(&self) -> &[Piece]
        ensures { result.now ≡ self.now }
    {
        &self.pieces
    }

    /// The address from which a payload's targets count: that of the first switch that leads to it, else 0.
    pub fn base_of(&self, address: u16) -> u16
        ensures { result ≡ switch_address self.now address }
    {
        match self.switches.get(&u32::from(address)) {
            Some(base) => *base,
            None => 0,
        }
    }
}
