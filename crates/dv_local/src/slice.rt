// A run of local steps of one thread.
ghost use Rattle.std.specs.Prelude.{◌≡◌, ◌+◌, ◌-◌, ◌^◌, min};
ghost use Rattle.dv_words.specs.Stepping.{RanLocally};

use crate::frames::run_frame;
use dv_defs::Image;
use dv_words::Frame;

/// So many local steps of a thread: the frame in which they began, and the frame to which they led.
#[derive(Drop)]
pub struct Slice {
    pub thread: u32,
    pub start: Frame,
    pub steps: u32,
    pub end: Frame,
}

/// Does local steps from a slice's end on, so many at most, and no more than `steps` can count, up to the first instruction that isn't
/// local; gives how many were done. Where the slice's steps led from its start to its end, they do so after it.
pub fn run_slice(image: &Image, slice: &mut Slice, most: u32) -> u32
    ensures ran { RanLocally image.now (min most (2 ^ 32 - 1 - slice.old.steps)) result slice.old.end slice.new.end }
    ensures made { RanLocally image.now slice.old.steps slice.old.steps slice.old.start slice.old.end → RanLocally image.now slice.new.steps slice.new.steps slice.new.start slice.new.end }
    ensures counted { slice.new.steps ≡ slice.old.steps + result }
    ensures thread { slice.new.thread ≡ slice.old.thread }
    ensures start { slice.new.start ≡ slice.old.start }
{
    let most = most.min(u32::MAX - slice.steps);
    let done = run_frame(image, &mut slice.end, most);
    slice.steps += done;
    done
}
