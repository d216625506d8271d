// Slices that fit, and slices that don't.
ghost use Rattle.std.specs.Prelude.{◌≡◌};
ghost use Rattle.dv_sound.specs.Lending.{IsLocalRun};

use crate::playing::{Player, stood, verified};
use crate::slices::{begun, brought, copy_of, image_of, is_seen, lent, seen, top, turn, work};
use crate::texts::{AMPLE, BOTH, FOREVER};
use dv_defs::{Image, MethodId, Seq};
use dv_local::Slice;
use dv_rules::Verified;
use dv_sound::SafeVm;
use dv_words::Frame;
use std::alloc::Global;
use std::process::Abort;

/// A slice that nobody was lent: it begins where main stood before it took a turn of so many steps. Main may be lent then. Whether the slice
/// fits, how many of its steps are done, and whether main may take a turn behind that.
#[derive(Clone, Copy)]
struct Stale {
    moved: u32,
    lent: bool,
    most: u32,
    fits: bool,
    done: u32,
    home: bool,
}

/// Main is lent, where it is to be.
fn lend_main<R: Abort>(rt: &R, image: &Image, run: &mut SafeVm, away: bool)
    requires { run.old.verified.image ≡ image.now }
    ensures { run.new.verified.image ≡ image.now }
{
    if away {
        drop(lent(rt, image, run, 0));
    }
}

/// A slice of main as it stands, with so many steps, that nobody was lent.
fn stale_slice<R: Abort>(rt: &R, image: &Image, run: &SafeVm, most: u32) -> Slice
    ensures { IsLocalRun image.now result }
{
    let frame = top(rt, run, 0);
    let mut slice = begun(rt, image, 0, &frame);
    drop(frame);
    assert_eq!(rt; work(image, &mut slice, most), most);
    slice
}

/// A slice comes back; where no step of it is done nothing changes.
fn assert_brought<R: Abort>(
    rt: &R,
    alloc: Global,
    image: &Image,
    run: &mut SafeVm,
    slice: Slice,
    wanted: u32,
)
    requires same { run.old.verified.image ≡ image.now }
    requires made { IsLocalRun image.now slice }
{
    let before = seen(rt, alloc, run);
    let done = brought(rt, image, run, slice);
    assert_eq!(rt; done, wanted);
    assert_eq!(rt; is_seen(rt, alloc, run, &before), done == 0);
    drop(before);
}

/// The slice of a row comes back.
fn bring_stale<R: Abort>(rt: &R, alloc: Global, run: &mut SafeVm, row: &Stale) {
    let image = image_of(run);
    let slice = stale_slice(rt, image, run, row.most);
    turn(rt, image, run, Some((0, row.moved)));
    lend_main(rt, image, run, row.lent);
    assert_eq!(rt; run.fits(&slice), row.fits);
    assert_brought(rt, alloc, image, run, slice, row.done);
    let next = run.turn(0, 0, 1).ok();
    assert_eq!(rt; next, Some(u32::from(row.home)));
}

/// Main has started a thread.
fn assert_stale<R: Abort>(rt: &R, alloc: Global, verified: &Verified, row: &Stale) {
    let player = Player {
        verified,
        limits: AMPLE,
    };
    let mut run = stood(rt, alloc, player, &[(0, 8)]);
    bring_stale(rt, alloc, &mut run, row);
    drop(run);
}

fn assert_stales<R: Abort>(rt: &R, alloc: Global, text: &str, rows: &[Stale]) {
    let verified = verified(rt, alloc, text);
    for row in rows {
        assert_stale(rt, alloc, &verified, row);
    }
    drop(verified);
}

/// Main is at home, and no slice of it fits.
const STALE: Stale = Stale {
    moved: 0,
    lent: false,
    most: 2,
    fits: false,
    done: 0,
    home: true,
};

static STALES: [Stale; 4] = [
    STALE,
    // who did the steps isn't asked
    Stale {
        lent: true,
        fits: true,
        done: 2,
        ..STALE
    },
    Stale {
        most: 0,
        lent: true,
        fits: true,
        ..STALE
    },
    // main went on before it was lent, and stays away
    Stale {
        moved: 1,
        lent: true,
        home: false,
        ..STALE
    },
];

/// After two steps of a loop it stands where it stood.
static IN_A_LOOP: [Stale; 2] = [
    Stale {
        moved: 2,
        lent: true,
        most: 5,
        fits: true,
        done: 5,
        home: true,
    },
    Stale {
        moved: 3,
        lent: true,
        most: 5,
        home: false,
        ..STALE
    },
];

#[test]
fn slices_begin_where_their_threads_stand(rt: HostRuntime) {
    let alloc = rt.alloc();
    assert_stales(&rt, alloc, BOTH, STALES.as_slice());
    assert_stales(&rt, alloc, FOREVER, IN_A_LOOP.as_slice());
}

/// What is put into a slice of a lent thread.
#[derive(Clone, Copy)]
enum Change {
    Nothing,
    Thread(u32),
    Steps(u32),
    End(u32),
    At(u32),
    Method(u32),
    Caught(u32),
    Registers(&'static [u32]),
}

fn put<R: Abort>(rt: &R, alloc: Global, slice: &mut Slice, change: Change) {
    match change {
        Change::Nothing => {}
        Change::Thread(thread) => slice.thread = thread,
        Change::Steps(steps) => slice.steps = steps,
        Change::End(at) => slice.end.at = at,
        Change::At(at) => slice.start.at = at,
        Change::Method(method) => slice.start.method = MethodId(method),
        Change::Caught(object) => slice.start.caught = Some(object),
        Change::Registers(words) => {
            let words = Vec::from_slice(alloc, words).ok().expect(rt, "memory");
            slice.start.regs = Seq::of(words);
        }
    }
}

/// A slice of a thread at this frame, with a change.
fn changed<R: Abort>(rt: &R, alloc: Global, thread: u32, frame: &Frame, by: Change) -> Slice {
    let mut slice = Slice {
        thread,
        start: copy_of(rt, frame),
        steps: 0,
        end: copy_of(rt, frame),
    };
    put(rt, alloc, &mut slice, by);
    slice
}

/// A slice of thread 1 at its second instruction, whose registers are 5, 0 and its object, the fifth that was made, with a change, and whether it
/// fits. A slice fits by its thread and by the frame from which it began.
static FITTING: [(Change, bool); 16] = [
    (Change::Nothing, true),
    (Change::Steps(7), true),
    (Change::End(9), true),
    (Change::Registers(&[5, 0, 5]), true),
    (Change::At(1), true),
    (Change::Thread(0), false),
    (Change::Thread(2), false),
    (Change::Thread(u32::MAX), false),
    (Change::At(0), false),
    (Change::At(2), false),
    (Change::Method(0), false),
    (Change::Caught(5), false),
    (Change::Registers(&[6, 0, 5]), false),
    (Change::Registers(&[5, 0, 4]), false),
    (Change::Registers(&[5, 0]), false),
    (Change::Registers(&[5, 0, 5, 0]), false),
];

/// Whether a slice of thread 1 at this frame fits, with a change.
fn fits<R: Abort>(rt: &R, alloc: Global, run: &SafeVm, frame: &Frame, by: Change) -> bool {
    let slice = changed(rt, alloc, 1, frame, by);
    let is_fitting = run.fits(&slice);
    drop(slice);
    is_fitting
}

fn assert_fitting<R: Abort>(rt: &R, alloc: Global, run: &SafeVm, away: bool) {
    let frame = top(rt, run, 1);
    for (number, (change, is_fitting)) in FITTING.iter().enumerate() {
        let found = fits(rt, alloc, run, &frame, *change);
        assert_eq!(rt; found, *is_fitting && away, "row {number}");
    }
    drop(frame);
}

/// Slices of thread 1, at home, with main away, away itself, and back.
fn assert_all_fitting<R: Abort>(rt: &R, alloc: Global, run: &mut SafeVm) {
    let image = image_of(run);
    assert_fitting(rt, alloc, run, false);
    lend_main(rt, image, run, true);
    assert_fitting(rt, alloc, run, false);
    let slice = lent(rt, image, run, 1);
    assert_fitting(rt, alloc, run, true);
    assert_eq!(rt; brought(rt, image, run, slice), 0);
    assert_fitting(rt, alloc, run, false);
}

fn assert_slices_fit<R: Abort>(rt: &R, alloc: Global, verified: &Verified) {
    let player = Player {
        verified,
        limits: AMPLE,
    };
    let mut run = stood(rt, alloc, player, &[(0, 8), (1, 1)]);
    assert_all_fitting(rt, alloc, &mut run);
    drop(run);
}

#[test]
fn slices_fit_by_thread_and_frame(rt: HostRuntime) {
    let alloc = rt.alloc();
    let verified = verified(&rt, alloc, BOTH);
    assert_slices_fit(&rt, alloc, &verified);
    drop(verified);
}
