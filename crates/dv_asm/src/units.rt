// The units of items.
ghost use Rattle.std.specs.Prelude.{◌≡◌, ◌<◌, ◌≤◌, ◌%◌, ◌^◌, ◌++◌, true, [], length, unwrap_or, IfOk, OnOk, IsSome, IsTrue, Ok};
ghost use Rattle.dv_defs.specs.declared.code.Payload.TheVariants as payload;
ghost use Rattle.dv_defs.specs.Spelling.{spelling, AreUnits, all_fit};
ghost use Rattle.dv_defs.specs.Payloads.{payload_spelling};
ghost use Rattle.dv_defs.specs.Tiling.{is_width, tiling};
ghost use Rattle.dv_asm.specs.Places.{address_of};
ghost use Rattle.dv_asm.specs.Layout.{AreSpelled, IsWritable, AreWritable, offset_of, insn_of, spelling_of, padded, units_of};
ghost use Rattle.dv_asm.specs.Tiles.{tiles_of};

use crate::ranges::with_operands;
use crate::short::Short;
use dv_defs::{Insn, Payload, Seq, Text};
use dv_draft::{Draftop, Pools, What};
use dv_units::{UnitError, encode, encode_payload};
use std::alloc::{AllocError, Global};

/// Each byte fits its half of a unit.
fn bytes_fit(bytes: &[u8])
    ensures { all_fit 8 bytes.now ≡ true }
{}

/// Each unit has sixteen bits.
fn units_fit(units: &[u16])
    ensures { AreUnits units.now }
{}

/// Appends a nop, where the units end before an address.
fn pad(units: &mut Vec<u16>, address: u32) -> Result<(), AllocError>
    ensures { OnOk result (units.new.items ≡ padded address units.old.items) }
{
    if (units.len() as u64) < u64::from(address) {
        units.push(0)?;
    }
    Ok(())
}

/// Appends the units of an instruction.
fn append_insn(units: &mut Vec<u16>, insn: &Insn) -> Result<(), AllocError>
    requires { IsSome (spelling insn.now) }
    ensures { OnOk result (units.new.items ≡ units.old.items ++ unwrap_or (spelling insn.now) []) }
{
    match encode(insn, units) {
        Ok(_) => Ok(()),
        Err(error) => match error {
            UnitError::Memory => Err(AllocError),
            _ => unreachable!(),
        },
    }
}

/// Appends the units of a payload.
fn append_payload(units: &mut Vec<u16>, payload: Payload) -> Result<(), AllocError>
    requires { IsSome (payload_spelling payload) }
    ensures { OnOk result (units.new.items ≡ units.old.items ++ unwrap_or (payload_spelling payload) []) }
{
    match encode_payload(&payload, units) {
        Ok(_) => Ok(()),
        Err(error) => match error {
            UnitError::Memory => Err(AllocError),
            _ => unreachable!(),
        },
    }
}

/// The payload of an array's data.
fn data_of(width: u16, bytes: &Seq<u8>) -> Result<Payload, AllocError>
    requires width { IsTrue (is_width width) }
    requires whole { length bytes.now % width ≡ 0 }
    requires few { length bytes.now < 2 ^ 32 }
    ensures value { IfOk result (λ p. p ≡ payload.Data width bytes.now) }
    ensures spelled { IfOk result (λ p. IsSome (payload_spelling p)) }
{
    bytes_fit(bytes.items());
    let bytes = bytes.clone()?;
    Ok(Payload::Data { width, bytes })
}

impl Short<'_> {
    /// How far the label that an item names is from it.
    fn offset_of(&self, k: usize, label: &Option<Text>) -> i32
        requires { k < length self.now }
        ensures { result ≡ offset_of self.now k label.now }
    {
        match label {
            Some(name) => self.distance(self.address_of(k), name),
            None => 0,
        }
    }

    /// The instruction of an item, with its offset and its index.
    fn insn_of(&self, pools: &Pools, k: usize, op: &Draftop) -> Result<Insn, AllocError>
        requires { k < length self.now }
        ensures { IfOk result (λ insn. insn ≡ insn_of self.now pools.now k op.now) }
    {
        let offset = self.offset_of(k, &op.label);
        let index = pools.index_of(&op.pool)?;
        Ok(with_operands(&op.insn, offset, index))
    }

    /// Appends the units of what stands at a place among the items.
    fn append(
        &self,
        units: &mut Vec<u16>,
        pools: &Pools,
        k: usize,
        what: &What,
    ) -> Result<(), AllocError>
        requires within { k < length self.now }
        requires writable { IsWritable self.now pools.now k what.now }
        ensures units { OnOk result (units.new.items ≡ units.old.items ++ unwrap_or (spelling_of self.now pools.now k what.now) []) }
        ensures spelled { OnOk result (IsSome (spelling_of self.now pools.now k what.now)) }
    {
        let alloc = *units.allocator();
        match what {
            What::Label(_) => Ok(()),
            What::Op(op) => append_insn(units, &self.insn_of(pools, k, op)?),
            What::Packed(first, names) => {
                append_payload(units, self.packed_of(alloc, k, *first, names.items())?)
            }
            What::Sparse(keys, names) => {
                append_payload(
                    units,
                    self.sparse_of(alloc, k, keys.items(), names.items())?,
                )
            }
            What::Data(width, bytes) => append_payload(units, data_of(*width, bytes)?),
        }
    }

    /// The units of the items one after another, each at its address.
    pub fn units(&self, alloc: Global, pools: &Pools) -> Result<Vec<u16>, AllocError>
        requires { AreWritable self.now pools.now }
        ensures units { IfOk result (λ units. units.items ≡ units_of self.now pools.now (length self.now)) }
        ensures spelled { OnOk result (AreSpelled self.now pools.now) }
        ensures tiled { IfOk result (λ units. tiling units.items ≡ Ok (tiles_of self.now pools.now (length self.now))) }
    {
        let mut units = Vec::new(alloc);
        for k in 0..self.count() {
            pad(&mut units, self.address_of(k))?;
            self.append(&mut units, pools, k, &self.item(k).what)?;
        }
        units_fit(&units);
        Ok(units)
    }
}
