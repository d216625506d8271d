// The handlers of each range.
ghost use Rattle.std.specs.Prelude.{◌≡◌, ◌++◌, ◌∷◌, [], if◌then◌else◌, IfOk, OnOk};
ghost use Rattle.std.specs.BTreeMap.{get};
ghost use Rattle.dv_asm.specs.declared.tries.TryRange.{TryRange};
ghost use Rattle.dv_asm.specs.Refusals.{ranges_of, is_same};
ghost use Rattle.dv_asm.specs.Ranges.{found, range_cmp, AreGroups};

use crate::short::Short;
use crate::tries::TryRange;
use dv_draft::Catch;
use std::alloc::{AllocError, Global};
use std::collections::BTreeMap;

/// Adds a handler to those of its range.
fn add_catch<'a>(
    alloc: Global,
    groups: &mut BTreeMap<TryRange, Vec<&'a Catch>>,
    range: TryRange,
    catch: &'a Catch,
) -> Result<(), AllocError>
    ensures { OnOk result ((r : TryRange) → found (get range_cmp groups.new r)
        ≡ found (get range_cmp groups.old r) ++ (if is_same range r then catch.now ∷ [] else [])) }
{
    match groups.get_mut(&range) {
        Some(group) => group.push(catch)?,
        None => {
            let mut group = Vec::new(alloc);
            group.push(catch)?;
            groups.insert(range, group)?;
        }
    }
    Ok(())
}

impl Short<'_> {
    /// The ranges of the handlers, each with its handlers in the order of the text.
    pub fn groups<'a>(
        &self,
        alloc: Global,
        catches: &'a [Catch],
        ranges: &[TryRange],
    ) -> Result<BTreeMap<TryRange, Vec<&'a Catch>>, AllocError>
        requires { ranges.now ≡ ranges_of self.now catches.now }
        ensures { IfOk result (λ groups. AreGroups self.now catches.now groups) }
    {
        let mut groups = BTreeMap::new(alloc);
        for k in 0..catches.len() {
            match add_catch(alloc, &mut groups, ranges[k], &catches[k]) {
                Ok(()) => {}
                Err(error) => {
                    drop(groups);
                    return Err(error);
                }
            }
        }
        Ok(groups)
    }
}
