// Two threads that are lent at once, and whose slices come back in either order.
ghost use Rattle.std.specs.Prelude.{◌≡◌};
ghost use Rattle.dv_sound.specs.Lending.{IsLocalRun};

use crate::playing::{Player, assert_end, check, stood, verified};
use crate::slices::{assert_alike, brought, image_of, lent, work, worker_of};
use crate::texts::{AMPLE, BOTH, FOREVER, MAIN_FIRST, SPENT};
use dv_defs::{Ending, Image, Limits};
use dv_local::Slice;
use dv_rules::Verified;
use dv_sound::SafeVm;
use std::alloc::Global;
use std::process::Abort;

/// When main has started a thread both are lent at once, and so many local steps of each are run. Their slices come back in this order, and so
/// many of their steps are done, in that order; how the run stands then, and how it ends when it is run on.
#[derive(Clone, Copy)]
struct Pair {
    limits: Limits,
    most: (u32, u32),
    order: (u32, u32),
    done: (u32, u32),
    ending: Option<Ending>,
    end: (Ending, &'static str),
}

/// Two slices come back, one after the other.
fn bring_both<R: Abort>(
    rt: &R,
    image: &Image,
    run: &mut SafeVm,
    one: Slice,
    other: Slice,
) -> (u32, u32)
    requires same { run.old.verified.image ≡ image.now }
    requires first { IsLocalRun image.now one }
    requires second { IsLocalRun image.now other }
{
    let first = brought(rt, image, run, one);
    assert!(rt; run.fits(&other));
    let second = brought(rt, image, run, other);
    (first, second)
}

/// The slices of a row are run, and come back.
fn bring_pair<R: Abort>(rt: &R, run: &mut SafeVm, pair: &Pair) {
    let image = image_of(run);
    let mut zero = lent(rt, image, run, 0);
    assert_eq!(rt; run.ready(), Some(1));
    let mut one = lent(rt, image, run, 1);
    assert_eq!(rt; run.ready(), None);
    let ran = (
        work(image, &mut zero, pair.most.0),
        work(image, &mut one, pair.most.1),
    );
    assert_eq!(rt; ran, pair.most);
    let done = if pair.order.0 == 0 {
        bring_both(rt, image, run, zero, one)
    } else {
        bring_both(rt, image, run, one, zero)
    };
    check(rt, done == pair.done, "steps that are done", &[pair.order]);
}

/// The same steps by turns.
fn take_pair<R: Abort>(rt: &R, run: &mut SafeVm, pair: &Pair) {
    let (first, second) = pair.order;
    let done = run.turn(worker_of(first), first, pair.done.0).ok();
    assert_eq!(rt; done, Some(pair.done.0));
    let done = run.turn(worker_of(second), second, pair.done.1).ok();
    assert_eq!(rt; done, Some(pair.done.1));
}

/// A run stands as one in which the steps of a row were done by turns.
fn assert_as_by_turns<R: Abort>(
    rt: &R,
    alloc: Global,
    player: Player<'_>,
    run: &SafeVm,
    pair: &Pair,
) {
    let mut like = stood(rt, alloc, player, &[(0, 8)]);
    take_pair(rt, &mut like, pair);
    assert_alike(rt, alloc, run, &like);
    drop(like);
}

fn assert_pair<R: Abort>(rt: &R, alloc: Global, verified: &Verified, pair: &Pair) {
    let player = Player {
        verified,
        limits: pair.limits,
    };
    let mut run = stood(rt, alloc, player, &[(0, 8)]);
    bring_pair(rt, &mut run, pair);
    assert_as_by_turns(rt, alloc, player, &run, pair);
    check(rt, run.ending() == pair.ending, "an ending", &[pair.order]);
    assert_end(rt, alloc, player, run, pair.end.0, pair.end.1);
}

fn assert_pairs<R: Abort>(rt: &R, alloc: Global, text: &str, pairs: &[Pair]) {
    let verified = verified(rt, alloc, text);
    for pair in pairs {
        assert_pair(rt, alloc, &verified, pair);
    }
    drop(verified);
}

/// Main first, with all that both do.
const PAIR: Pair = Pair {
    limits: AMPLE,
    most: (2, 2),
    order: (0, 1),
    done: (2, 2),
    ending: None,
    end: (Ending::Done, MAIN_FIRST),
};

/// Both may do all that they can.
static PAIRS: [Pair; 3] = [
    PAIR,
    Pair {
        most: (1, 2),
        order: (1, 0),
        done: (2, 1),
        ..PAIR
    },
    Pair {
        most: (0, 1),
        done: (0, 1),
        ..PAIR
    },
];

/// After eight steps the budget has room for fourteen.
const CUT: Pair = Pair {
    limits: Limits {
        budget: 22,
        ..AMPLE
    },
    most: (5, 9),
    order: (0, 1),
    done: (5, 9),
    ending: Some(Ending::Steps),
    end: (Ending::Steps, SPENT),
};

/// Or for one less, those of one thread, and fewer.
static PAIRS_CUT: [Pair; 5] = [
    CUT,
    Pair {
        limits: Limits {
            budget: 21,
            ..AMPLE
        },
        done: (5, 8),
        ..CUT
    },
    Pair {
        limits: Limits {
            budget: 21,
            ..AMPLE
        },
        order: (1, 0),
        done: (9, 4),
        ..CUT
    },
    Pair {
        limits: Limits {
            budget: 13,
            ..AMPLE
        },
        done: (5, 0),
        ..CUT
    },
    Pair {
        limits: Limits {
            budget: 11,
            ..AMPLE
        },
        order: (1, 0),
        done: (3, 0),
        ..CUT
    },
];

#[test]
fn two_threads_are_lent_at_once(rt: HostRuntime) {
    let alloc = rt.alloc();
    assert_pairs(&rt, alloc, BOTH, PAIRS.as_slice());
    assert_pairs(&rt, alloc, FOREVER, PAIRS_CUT.as_slice());
}
