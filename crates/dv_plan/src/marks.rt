// Which instructions follow one in straight code, and which are heads.
ghost use Rattle.std.specs.Prelude.{◌≡◌, IfOk, length, map, replicate, slice_set};
ghost use Rattle.dv_defs.specs.Images as images;
ghost use Rattle.dv_defs.specs.Op.{Code};
ghost use Rattle.law_flow.specs.Clean.{IsClean};
ghost use Rattle.dv_plan.specs.Marks.{AreMarks, LeadToHeads, headed, headed_lists, mark_at, marked, met};
ghost use Rattle.dv_plan.specs.Ways.{AreWays};

use crate::hops::Hop;
use crate::ways::Ways;
use dv_defs::Seq;
use std::alloc::{AllocError, Global};

/// What leads to an address.
#[derive(Clone, Copy)]
pub enum Mark {
    /// Nothing yet.
    Unseen,
    /// The instruction at this address, which goes on there alone, and nothing else.
    After(usize),
    /// Something else.
    Head,
}

/// Marks of the addresses of a body, by the ways on from its instructions and from its try entries. The first is a head.
pub fn marks_of(
    alloc: Global,
    ways: &[Option<Ways>],
    hops: &[Seq<Hop>],
) -> Result<Vec<Mark>, AllocError>
    ensures marks { (image : images.Image) (code : Code) → IsClean image code → AreWays image code (length ways.now) ways.now → IfOk result (λ v. AreMarks image code (length ways.now) v.items) }
    ensures entry { IfOk result (λ v. mark_at v.items 0 ≡ Mark.Head) }
    ensures handlers { IfOk result (λ v. LeadToHeads v.items hops.now) }
{
    let mut marks = vec![in alloc; Mark::Unseen; ways.len()]?;
    mark_all(&mut marks, ways);
    head_handlers(&mut marks, hops);
    head(&mut marks, 0);
    Ok(marks)
}

/// Marks what all instructions lead to.
fn mark_all(marks: &mut Vec<Mark>, ways: &[Option<Ways>])
    requires { marks.old.items ≡ replicate (length ways.now) Mark.Unseen }
    ensures { (image : images.Image) (code : Code) → IsClean image code → AreWays image code (length ways.now) ways.now → AreMarks image code (length ways.now) marks.new.items }
{
    for at in 0..ways.len() {
        mark_from(marks, at, &ways[at]);
    }
}

/// Marks what the instruction at an address leads to, where one begins there.
fn mark_from(marks: &mut Vec<Mark>, at: usize, ways: &Option<Ways>)
    ensures { marks.new.items ≡ marked marks.old.items at ways.now }
{
    if let Some(way) = ways {
        match way.next {
            Some(to) => meet(marks, to, at),
            None => head_all(marks, way.targets.items()),
        }
    }
}

/// An instruction goes on to an address alone.
fn meet(marks: &mut Vec<Mark>, to: u32, at: usize)
    ensures { marks.new.items ≡ slice_set marks.old.items to (met (mark_at marks.old.items to) at) }
{
    let to = to as usize;
    if to < marks.len() {
        marks[to] = match marks[to] {
            Mark::Unseen => Mark::After(at),
            _ => Mark::Head,
        };
    }
}

/// Each of these addresses is a head.
fn head_all(marks: &mut Vec<Mark>, heads: &[u32])
    ensures { marks.new.items ≡ headed marks.old.items heads.now }
{
    for to in heads {
        head(marks, *to as usize);
    }
}

/// An address is a head.
fn head(marks: &mut Vec<Mark>, to: usize)
    ensures { marks.new.items ≡ slice_set marks.old.items to Mark.Head }
{
    if to < marks.len() {
        marks[to] = Mark::Head;
    }
}

/// The handlers of all try entries are heads.
fn head_handlers(marks: &mut Vec<Mark>, hops: &[Seq<Hop>])
    ensures { marks.new.items ≡ headed_lists marks.old.items hops.now }
{
    for list in hops {
        head_hops(marks, list.items());
    }
}

/// The handlers to which these ways lead are heads.
fn head_hops(marks: &mut Vec<Mark>, hops: &[Hop])
    ensures { marks.new.items ≡ headed marks.old.items (map (λ h. h.to) hops.now) }
{
    for hop in hops {
        head(marks, hop.to as usize);
    }
}
