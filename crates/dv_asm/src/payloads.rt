// The payloads of switches.
ghost use Rattle.std.specs.Prelude.{◌≡◌, ◌<◌, ◌≤◌, ◌^◌, true, length, map, IfOk, OnOk, IsSome};
ghost use Rattle.dv_defs.specs.Payloads.{payload_spelling, all_fit_signed};
ghost use Rattle.dv_asm.specs.Places.{address_of, distance};
ghost use Rattle.dv_asm.specs.Layout.{base_of, targets_of, packed_of, sparse_of};
ghost use Rattle.dv_defs.specs.Body.{most_units};

use crate::short::Short;
use dv_defs::{Payload, Seq, Text};
use std::alloc::{AllocError, Global};

/// The same numbers. Each fits two units.
fn copied(alloc: Global, numbers: &[i32]) -> Result<Seq<i32>, AllocError>
    ensures same { IfOk result (λ copy. copy ≡ numbers.now) }
    ensures fitting { OnOk result (all_fit_signed numbers.now ≡ true) }
{
    let mut copy = Vec::new(alloc);
    for number in numbers {
        copy.push(*number)?;
    }
    Ok(Seq::of(copy))
}

impl Short<'_> {
    /// The address that the targets of a payload at an address count from.
    fn base_of(&self, address: u32) -> u32
        ensures value { result ≡ base_of self.now address }
        ensures small { result ≤ most_units }
    {
        match self.switch_of(address) {
            Some(k) => self.address_of(k),
            None => 0,
        }
    }

    /// How far each of the labels is from an address.
    fn distances(&self, alloc: Global, from: u32, names: &[Text]) -> Result<Vec<i32>, AllocError>
        requires { from ≤ most_units }
        ensures { IfOk result (λ targets. targets.items ≡ map (distance self.now from) names.now) }
    {
        let mut distances = Vec::new(alloc);
        for name in names {
            distances.push(self.distance(from, name))?;
        }
        Ok(distances)
    }

    /// The targets of a payload at an address.
    fn targets_of(
        &self,
        alloc: Global,
        address: u32,
        names: &[Text],
    ) -> Result<Seq<i32>, AllocError>
        ensures value { IfOk result (λ targets. targets ≡ targets_of self.now address names.now) }
        ensures fitting { all_fit_signed (targets_of self.now address names.now) ≡ true }
    {
        self.is_short();
        let base = self.base_of(address);
        Ok(Seq::of(self.distances(alloc, base, names)?))
    }

    /// The payload of a packed switch that stands at a place among the items.
    pub fn packed_of(
        &self,
        alloc: Global,
        k: usize,
        first: i32,
        names: &[Text],
    ) -> Result<Payload, AllocError>
        requires within { k < length self.now }
        requires few { length names.now < 2 ^ 16 }
        ensures value { IfOk result (λ payload. payload ≡ packed_of self.now (address_of self.now k) first names.now) }
        ensures spelled { IfOk result (λ payload. IsSome (payload_spelling payload)) }
    {
        let targets = self.targets_of(alloc, self.address_of(k), names)?;
        Ok(Payload::Packed { first, targets })
    }

    /// The payload of a sparse switch that stands at a place among the items.
    pub fn sparse_of(
        &self,
        alloc: Global,
        k: usize,
        keys: &[i32],
        names: &[Text],
    ) -> Result<Payload, AllocError>
        requires within { k < length self.now }
        requires same { length names.now ≡ length keys.now }
        requires few { length names.now < 2 ^ 16 }
        ensures value { IfOk result (λ payload. payload ≡ sparse_of self.now (address_of self.now k) keys.now names.now) }
        ensures spelled { IfOk result (λ payload. IsSome (payload_spelling payload)) }
    {
        let targets = self.targets_of(alloc, self.address_of(k), names)?;
        let keys = copied(alloc, keys)?;
        Ok(Payload::Sparse { keys, targets })
    }
}
