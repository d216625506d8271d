// Methods judged by halves of their work: one half by a thread of its own, if one can be started, and the other by the caller.
ghost use Rattle.std.specs.Prelude.{◌≡◌, ◌≤◌, ◌<◌, ◌+◌, ◌^◌, ◌++◌, length, IfOk, OnOk};
ghost use Rattle.std.specs.Thread.{IsSync};
ghost use Rattle.dv_defs.specs.Images as images;
ghost use Rattle.dv_pverify.specs.Judging.{AreJudged};

use crate::judge::{Judged, count_of, judge_range};
use crate::work::Work;
use dv_defs::Image;
use dv_io::Gate;
use dv_types::ClassTable;
use std::alloc::{AllocError, Global};
use std::thread::{Threads, join};

/// How much work is gone about at the same time, in the measure of `Work`: that of four methods as large as methods may be. What is kept of a method
/// while it is judged grows with its work.
const ROOM: u64 = 4 * (256 * 16_384 + 1);

/// Judges ranges of an image's methods. The halves know it by this trait alone: of a closure that holds what borrows a borrower no contract speaks.
trait Judging {
    ghost image: { Self → images.Image };

    /// Judges so many methods from one on, one after another.
    fn judge_range(&self, from: u32, count: u32) -> Result<Judged, AllocError>
        requires range { from + count ≤ length (image self.now).methods }
        requires fits { from + count < 2 ^ 32 }
        ensures judged { IfOk result (λ j. AreJudged (image self.now) from j.maps.items j.faults.items) }
        ensures count { IfOk result (λ j. length j.maps.items ≡ count) };

    /// How much work so many methods from one on are.
    fn work(&self, from: u32, count: u32) -> u64;
}

/// Judges by a table of the image's classes. The gate is told of each method before it is judged.
#[derive(Drop)]
struct Judge<'a, 'b, G> {
    alloc: Global,
    image: &'a Image,
    table: &'a ClassTable<'b>,
    work: &'a Work,
    gate: &'a G,
    ghost same: { table.now ≡ image.now },
}

impl<'a, 'b, G: Gate> Judging for Judge<'a, 'b, G> {
    ghost image = { λ judge. judge.image.now };

    fn judge_range(&self, from: u32, count: u32) -> Result<Judged, AllocError> {
        judge_range(self.alloc, self.image, self.table, self.gate, from, count)
    }

    fn work(&self, from: u32, count: u32) -> u64 {
        self.work.of(from, count)
    }
}

/// Judges all methods of an image, several at a time.
pub fn judge_all<R: Threads + Sync, G: Gate + Sync>(
    rt: &R,
    alloc: Global,
    image: &Image,
    gate: &G,
) -> Result<Judged, AllocError>
    ensures judged { IfOk result (λ j. AreJudged image.now 0 j.maps.items j.faults.items) }
    ensures count { IfOk result (λ j. length j.maps.items ≡ length image.now.methods) }
{
    let count = count_of(image);
    let table = ClassTable::new(alloc, image)?;
    let work = Work::new(alloc, image, count)?;
    let judge = Judge {
        alloc,
        image,
        table: &table,
        work: &work,
        gate,
    };
    let few = work.of(0, count) / 8;
    judge_part(rt, &judge, few, ROOM, 0, count)
}

/// How many of so many methods from one on are about half of their work: some, but not all.
fn half_of<J: Judging>(judge: &J, from: u32, count: u32) -> u32
    requires { 2 ≤ count }
    ensures { (1 ≤ result) × (result < count) }
{
    let half = judge.work(from, count) / 2;
    for less in 1..count - 1 {
        if judge.work(from, less) >= half {
            return less;
        }
    }
    count - 1
}

/// The work of the largest of so many methods from one on.
fn largest_of<J: Judging>(judge: &J, from: u32, count: u32) -> u64 {
    let mut largest = 0;
    for before in 0..count {
        largest = judge.work(from.saturating_add(before), 1).max(largest);
    }
    largest
}

/// Judges so many methods from one on: by halves where they are more than one and more work than a little, and where there is room for the largest of
/// both halves at the same time.
fn judge_part<R: Threads + Sync, J: Judging + Sync>(
    rt: &R,
    judge: &J,
    few: u64,
    room: u64,
    from: u32,
    count: u32,
) -> Result<Judged, AllocError>
    requires range { from + count ≤ length (J.image judge.now).methods }
    requires fits { from + count < 2 ^ 32 }
    ensures judged { IfOk result (λ j. AreJudged (J.image judge.now) from j.maps.items j.faults.items) }
    ensures count { IfOk result (λ j. length j.maps.items ≡ count) }
{
    if count < 2 || judge.work(from, count) <= few {
        return judge.judge_range(from, count);
    }
    let less = half_of(judge, from, count);
    let rest = count - less;
    let middle = from + less;
    let largest = largest_of(judge, from, less);
    let largest_then = largest_of(judge, middle, rest);
    let both = largest.saturating_add(largest_then);
    if both > room {
        return judge.judge_range(from, count);
    }
    let room_first = largest.saturating_add((room - both) / 2);
    let room_then = largest_then.saturating_add((room - both) / 2);
    let (first, then) = join(
        rt,
        || -> Result<Judged, AllocError>
            requires sync { IsSync R.row × IsSync J.row }
            requires range { from + less ≤ length (J.image judge.now).methods }
            requires fits { from + less < 2 ^ 32 }
            ensures judged { IfOk result (λ j. AreJudged (J.image judge.entry.now) from j.maps.items j.faults.items) }
            ensures count { IfOk result (λ j. length j.maps.items ≡ less) }
        { judge_part(rt, judge, few, room_first, from, less) },
        || -> Result<Judged, AllocError>
            requires sync { IsSync R.row × IsSync J.row }
            requires range { middle + rest ≤ length (J.image judge.now).methods }
            requires fits { middle + rest < 2 ^ 32 }
            ensures judged { IfOk result (λ j. AreJudged (J.image judge.entry.now) middle j.maps.items j.faults.items) }
            ensures count { IfOk result (λ j. length j.maps.items ≡ rest) }
        { judge_part(rt, judge, few, room_then, middle, rest) },
    );
    let mut all = first?;
    let then = then?;
    append(&mut all, then)?;
    Ok(all)
}

/// Puts what later methods gave behind what earlier ones gave.
fn append(first: &mut Judged, then: Judged) -> Result<(), AllocError>
    ensures maps { OnOk result (first.new.maps.items ≡ first.old.maps.items ++ then.maps.items) }
    ensures faults { OnOk result (first.new.faults.items ≡ first.old.faults.items ++ then.faults.items) }
{
    let Judged {
        mut maps,
        mut faults,
    } = then;
    first.maps.append(&mut maps)?;
    first.faults.append(&mut faults)?;
    Ok(())
}
