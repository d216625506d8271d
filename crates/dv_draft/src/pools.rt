// The pools of a body.
ghost use Rattle.std.specs.Prelude.{◌≡◌, ◌<◌, ◌^◌, IfOk, IsOk, OnOk};
ghost use Rattle.dv_draft.specs.Pools.{no_pools, pool_ref, with_ref, index_of, pools_of};

use crate::draft::{Item, PoolRef, What};
use dv_defs::{Chars, FieldRef, MethodRef, Pool, Seq, Ty};
use std::alloc::{AllocError, Global};

/// The strings, types, fields and methods that the instructions of a body name.
#[derive(Drop)]
pub struct Pools {
    pub strings: Pool<Chars>,
    pub types: Pool<Ty>,
    pub fields: Pool<FieldRef>,
    pub methods: Pool<MethodRef>,
}

/// A place as an index. No memory holds so many entries that it doesn't fit.
pub fn index(place: usize) -> Result<u32, AllocError>
    ensures value { IfOk result (λ n. n ≡ place) }
    ensures fits { place < 2 ^ 32 → IsOk result }
{
    u32::try_from(place).map_err(|_| AllocError)
}

impl Pools {
    /// Pools without entries.
    pub fn new(alloc: Global) -> Pools
        ensures { result ≡ no_pools }
    {
        Pools {
            strings: Pool::new(alloc),
            types: Pool::new(alloc),
            fields: Pool::new(alloc),
            methods: Pool::new(alloc),
        }
    }

    /// Adds what an instruction names at the end of its pool, unless it is there.
    #[tactic(auto, using(dv_defs::proofs::Keys::places))]
    pub fn add(&mut self, entry: &PoolRef) -> Result<(), AllocError>
        ensures { OnOk result (self.new ≡ with_ref self.old entry.now) }
    {
        match entry {
            PoolRef::None => Ok(()),
            PoolRef::Str(chars) => self.strings.add(chars),
            PoolRef::OfType(ty) => self.types.add(ty),
            PoolRef::Field(field) => self.fields.add(field),
            PoolRef::Method(method) => self.methods.add(method),
        }
    }

    /// Adds what an item names.
    fn add_item(&mut self, item: &Item) -> Result<(), AllocError>
        ensures { OnOk result (self.new ≡ with_ref self.old (pool_ref item.now.what)) }
    {
        match &item.what {
            What::Op(op) => self.add(&op.pool),
            _ => Ok(()),
        }
    }

    /// What the items name.
    #[tactic(auto, unfolding(crate::specs::Pools::pools_of))]
    pub fn of(alloc: Global, items: &[Item]) -> Result<Pools, AllocError>
        ensures { IfOk result (λ pools. pools ≡ pools_of items.now) }
    {
        let mut pools = Pools::new(alloc);
        for item in items {
            match pools.add_item(item) {
                Ok(()) => {}
                Err(error) => {
                    drop(pools);
                    return Err(error);
                }
            }
        }
        Ok(pools)
    }

    /// The entries of each pool in their order.
    pub fn into_seqs(
        self,
    ) -> Result<(Seq<Chars>, Seq<Ty>, Seq<FieldRef>, Seq<MethodRef>), AllocError>
        ensures strings { IfOk result (λ entries. entries.0 ≡ self.strings) }
        ensures types { IfOk result (λ entries. entries.1 ≡ self.types) }
        ensures fields { IfOk result (λ entries. entries.2 ≡ self.fields) }
        ensures methods { IfOk result (λ entries. entries.3 ≡ self.methods) }
    {
        let Pools {
            strings,
            types,
            fields,
            methods,
        } = self;
        let (strings, types) = into_seqs(strings, types)?;
        let (fields, methods) = into_seqs(fields, methods)?;
        Ok((strings, types, fields, methods))
    }

    /// The index of what an instruction names.
    #[tactic(auto, using(dv_defs::proofs::Keys::places))]
    pub fn index_of(&self, entry: &PoolRef) -> Result<u32, AllocError>
        ensures { IfOk result (λ n. n ≡ index_of self.now entry.now) }
    {
        let place = match entry {
            PoolRef::None => None,
            PoolRef::Str(chars) => self.strings.place_of(chars),
            PoolRef::OfType(ty) => self.types.place_of(ty),
            PoolRef::Field(field) => self.fields.place_of(field),
            PoolRef::Method(method) => self.methods.place_of(method),
        };
        index(place.unwrap_or(0))
    }
}

/// The entries of two pools in their order.
fn into_seqs<E, F>(first: Pool<E>, second: Pool<F>) -> Result<(Seq<E>, Seq<F>), AllocError>
where
    E: Ord + Clone + Drop,
    F: Ord + Clone + Drop,
    ensures first { IfOk result (λ entries. entries.0 ≡ first) }
    ensures second { IfOk result (λ entries. entries.1 ≡ second) }
{
    Ok((first.into_seq()?, second.into_seq()?))
}
