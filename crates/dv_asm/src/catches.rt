// The handlers of a draft with their ranges, and where they are refused.
ghost use Rattle.std.specs.Prelude.{◌≡◌, ◌<◌, ◌≤◌, ℕ, true, false, None, Some, length, IfOk, OnOk};
ghost use Rattle.std.specs.List.{list_any};
ghost use Rattle.dv_defs.specs.declared.faults.LineKind.TheVariants as kind;
ghost use Rattle.dv_asm.specs.First.{first_line};
ghost use Rattle.dv_asm.specs.Refusals.{Checks, refused, catch_at, range_of, ranges_of, is_empty, overlaps, overlaps_earlier, try_range, try_range_at, try_overlap, try_overlap_at};
ghost use Rattle.dv_asm.specs.Layout.{with_range, sorted_ranges};
ghost use Rattle.dv_asm.specs.Ranges.{AreApart, AreGroups, ranges_in};

use crate::lines::{first_line, when};
use crate::short::Short;
use crate::tries::TryRange;
use dv_defs::{LineError, LineKind};
use dv_draft::Catch;
use std::alloc::{AllocError, Global};
use std::collections::BTreeMap;

/// The handlers of a draft in the order of the text, the range of each, and the handlers of each range.
#[derive(Drop)]
pub struct Catches<'a> {
    pub short: &'a Short<'a>,
    pub catches: &'a [Catch],
    ranges: Vec<TryRange>,
    pub groups: BTreeMap<TryRange, Vec<&'a Catch>>,
    ghost are_ranges: { ranges.items ≡ ranges_of short.now catches.now },
    pub ghost are_groups: { AreGroups short.now catches.now groups },
}

/// The handler at a place.
pub fn catch_at(catches: &[Catch], k: usize) -> &Catch
    requires { k < length catches.now }
    ensures { result.now ≡ catch_at catches.now k }
{
    &catches[k]
}

/// Whether a range overlaps one of those before.
fn overlaps_earlier(ranges: &[TryRange], range: TryRange) -> bool
    ensures { result ≡ list_any (overlaps range) ranges.now }
{
    ranges.iter().any(|other| range.overlaps(*other))
}

/// Whether a range overlaps one of those by their starts.
fn overlaps_one(sorted: &BTreeMap<u32, u32>, range: TryRange) -> bool
    requires { AreApart sorted.now.entries }
    ensures { result ≡ list_any (overlaps range) (ranges_in sorted.now.entries) }
{
    match sorted.range(..range.end).next_back() {
        Some((start, end)) => range.overlaps(TryRange::between(start, end)),
        None => false,
    }
}

/// Puts a range in its place by its start, where it overlaps none of those that stand there.
fn put(sorted: &mut BTreeMap<u32, u32>, range: TryRange) -> Result<(), AllocError>
    requires some { is_empty range ≡ false }
    requires apart { AreApart sorted.old.entries }
    requires none { list_any (overlaps range) (ranges_in sorted.old.entries) ≡ false }
    ensures apart { OnOk result (AreApart sorted.new.entries) }
    ensures value { OnOk result (ranges_in sorted.new.entries ≡ with_range (ranges_in sorted.old.entries) range) }
{
    sorted.insert(range.start, range.end)?;
    Ok(())
}

impl<'a> Catches<'a> {
    pub fn of(
        alloc: Global,
        short: &'a Short<'a>,
        catches: &'a [Catch],
    ) -> Result<Catches<'a>, AllocError>
        ensures { IfOk result (λ c. (c.short.now ≡ short.now) × (c.catches.now ≡ catches.now)) }
    {
        let ranges = short.ranges_of(alloc, catches)?;
        let groups = short.groups(alloc, catches, &ranges)?;
        Ok(Catches {
            short,
            catches,
            ranges,
            groups,
        })
    }

    fn range_at(&self, k: usize) -> TryRange
        requires { k < length self.now.catches.now }
        ensures { result ≡ range_of self.now.short.now (catch_at self.now.catches.now k) }
    {
        self.ranges[k]
    }

    fn try_range_at(&self, k: usize) -> Option<u32>
        requires { k < length self.now.catches.now }
        ensures { result ≡ try_range_at self.now.short.now self.now.catches.now k }
    {
        when(self.range_at(k).is_empty(), catch_at(self.catches, k).line)
    }

    /// The first line of a handler whose range is empty.
    pub fn try_range(&self) -> Option<u32>
        ensures { result ≡ try_range self.now.short.now self.now.catches.now }
    {
        first_line(self.catches.len(), |k| self.try_range_at(k))
    }

    fn try_overlap_at(&self, k: usize) -> Option<u32>
        requires { k < length self.now.catches.now }
        ensures { result ≡ try_overlap_at self.now.short.now self.now.catches.now k }
    {
        let overlaps = overlaps_earlier(&self.ranges[..k], self.range_at(k));
        when(overlaps, catch_at(self.catches, k).line)
    }

    /// The first line of a handler whose range overlaps another one of an earlier handler. Each is compared with all
    /// before it.
    fn try_overlap(&self) -> Option<u32>
        ensures { result ≡ try_overlap self.now.short.now self.now.catches.now }
    {
        first_line(self.catches.len(), |k| self.try_overlap_at(k))
    }

    /// Whether no handler from a place on has a line before this one.
    fn is_least_from(&self, k: usize, line: u32) -> bool
        ensures { result ≡ true → (j : ℕ) → k ≤ j → j < length self.now.catches.now → line ≤ (catch_at self.now.catches.now j).line }
    {
        for j in k..self.catches.len() {
            if catch_at(self.catches, j).line < line {
                return false;
            }
        }
        true
    }

    /// The first line of a handler whose range overlaps another one of an earlier handler, by the first such handler.
    /// Only where a later handler stands on an earlier line, each is compared with all before it.
    fn overlap_from(&self, first: usize) -> u32
        requires within { first < length self.now.catches.now }
        requires none_before { first_line (try_overlap_at self.now.short.now self.now.catches.now) first ≡ None }
        requires here { overlaps_earlier self.now.short.now self.now.catches.now first ≡ true }
        ensures { try_overlap self.now.short.now self.now.catches.now ≡ Some result }
    {
        let line = catch_at(self.catches, first).line;
        if self.is_least_from(first, line) {
            return line;
        }
        self.try_overlap().unwrap_or(line)
    }

    /// The ranges by their starts, or the line of a handler whose range overlaps another one.
    pub fn sorted(&self, alloc: Global) -> Result<BTreeMap<u32, u32>, LineError>
        requires { try_range self.now.short.now self.now.catches.now ≡ None }
        ensures checks { Checks result (refused kind.TryOverlap (try_overlap self.now.short.now self.now.catches.now)) }
        ensures value { IfOk result (λ sorted. ranges_in sorted.entries ≡ sorted_ranges self.now.short.now self.now.catches.now) }
    {
        let mut sorted = BTreeMap::new(alloc);
        for k in 0..self.catches.len() {
            let range = self.range_at(k);
            if overlaps_one(&sorted, range) {
                return Err(LineError::At {
                    line: self.overlap_from(k),
                    kind: LineKind::TryOverlap,
                });
            }
            put(&mut sorted, range)?;
        }
        Ok(sorted)
    }
}
