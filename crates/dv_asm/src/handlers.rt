// Try entries and the types that their handlers catch.
ghost use Rattle.std.specs.Prelude.{◌≡◌, map, IfOk, OnOk};
ghost use Rattle.dv_defs.specs.Types.{ty_eq};
ghost use Rattle.dv_draft.specs.Pools.{with_entries};
ghost use Rattle.dv_asm.specs.Layout.{kind_in, with_kinds, catches_of, handler_of, entry_of};
ghost use Rattle.dv_asm.specs.Ranges.{ranges_in};

use crate::catches::Catches;
use crate::short::Short;
use crate::tries::TryRange;
use dv_defs::{Handler, Pool, Seq, Try, Ty};
use dv_draft::{Catch, index};
use std::alloc::{AllocError, Global};
use std::collections::BTreeMap;

impl Short<'_> {
    #[tactic(auto, using(dv_defs::proofs::Keys::places))]
    fn handler_of(&self, types: &Pool<Ty>, catch: &Catch) -> Result<Handler, AllocError>
        ensures { IfOk result (λ handler. handler ≡ handler_of self.now types.now catch.now) }
    {
        let place = match &catch.kind {
            Some(ty) => types.place_of(ty),
            None => None,
        };
        let kind = match place {
            Some(place) => Some(index(place)?),
            None => None,
        };
        let at = self.label_address(&catch.at);
        Ok(Handler { kind, at })
    }
}

impl Catches<'_> {
    /// Adds the types that the handlers of a range catch.
    fn add_kinds(&self, types: &mut Pool<Ty>, range: TryRange) -> Result<(), AllocError>
        ensures { OnOk result (types.new ≡ with_entries ty_eq (kind_in self.now.short.now range) types.old self.now.catches.now) }
    {
        let Some(catches) = self.groups.get(&range) else {
            return Ok(());
        };
        for catch in catches {
            if let Some(ty) = &catch.kind {
                types.add(ty)?;
            }
        }
        Ok(())
    }

    /// Adds the types that the handlers of each range catch.
    fn add_all_kinds(
        &self,
        types: &mut Pool<Ty>,
        sorted: &BTreeMap<u32, u32>,
    ) -> Result<(), AllocError>
        ensures { OnOk result (types.new ≡ with_kinds self.now.short.now self.now.catches.now types.old (ranges_in sorted.now.entries)) }
    {
        for (start, end) in sorted {
            self.add_kinds(types, TryRange::between(start, end))?;
        }
        Ok(())
    }

    /// The handlers of a range, in the order of the text.
    fn handlers_of(
        &self,
        alloc: Global,
        types: &Pool<Ty>,
        range: TryRange,
    ) -> Result<Vec<Handler>, AllocError>
        ensures { IfOk result (λ handlers. handlers.items
            ≡ map (handler_of self.now.short.now types.now) (catches_of self.now.short.now self.now.catches.now range)) }
    {
        let mut handlers = Vec::new(alloc);
        let Some(catches) = self.groups.get(&range) else {
            return Ok(handlers);
        };
        for catch in catches {
            handlers.push(self.short.handler_of(types, catch)?)?;
        }
        Ok(handlers)
    }

    /// The entry of each range.
    fn tries(
        &self,
        alloc: Global,
        types: &Pool<Ty>,
        sorted: &BTreeMap<u32, u32>,
    ) -> Result<Vec<Try>, AllocError>
        ensures { IfOk result (λ tries. tries.items
            ≡ map (entry_of self.now.short.now self.now.catches.now types.now) (ranges_in sorted.now.entries)) }
    {
        let mut tries = Vec::new(alloc);
        for (start, end) in sorted {
            let handlers = self.handlers_of(alloc, types, TryRange::between(start, end))?;
            tries.push(Try {
                start: *start,
                end: *end,
                handlers: Seq::of(handlers),
            })?;
        }
        Ok(tries)
    }

    /// The entry of each range. The types that its handlers catch are added before.
    pub fn entries(
        &self,
        alloc: Global,
        types: &mut Pool<Ty>,
        sorted: &BTreeMap<u32, u32>,
    ) -> Result<Vec<Try>, AllocError>
        ensures types { OnOk result (types.new
            ≡ with_kinds self.now.short.now self.now.catches.now types.old (ranges_in sorted.now.entries)) }
        ensures tries { IfOk result (λ tries. tries.items
            ≡ map (entry_of self.now.short.now self.now.catches.now types.new) (ranges_in sorted.now.entries)) }
    {
        self.add_all_kinds(types, sorted)?;
        self.tries(alloc, types, sorted)
    }
}
