// The workers, each in a thread of its own. A worker whose thread can't be made is run by the caller.
ghost use Rattle.std.specs.Prelude.{◌≡◌, ◌<◌, ◌≤◌, ◌+◌, ◌^◌, [], sum, vec_len, vec_capacity};
ghost use Rattle.std.specs.Thread.{IsSend, IsSync};
ghost use Rattle.dv_workers.specs.Seats.{IsAside, names_of};

use crate::began::Began;
use crate::hall::{Hall, Place};
use dv_defs::Image;
use dv_io::{Gate, Sink};
use std::sync::Wait;
use std::sync::ledger::Share;
use std::thread::{Threads, join};

/// What workers hand back: their turns, and the share that counts them.
#[derive(Drop)]
pub struct Crew<L: Began> {
    pub share: Share<L>,
    pub turns: Vec<u64>,
    ghost counted: { share.amount ≡ sum turns.items },
}

/// A worker at its place: a seat that doesn't hold, and a share.
#[derive(Drop)]
pub struct Post<'a, 'v, K: Sink + Drop, L: Began> {
    pub hall: &'a Hall<'v, K, L>,
    pub image: &'v Image,
    pub seat: Place<'v, K, L>,
    pub share: Share<L>,
    pub ghost seated: { (seat.table_id ≡ hall.now.table.shared.table_id) × IsAside (names_of hall.now.table.shared.key.value) seat.me },
    pub ghost same: { image.now ≡ hall.now.table.shared.key.value.verified.image },
}

/// The work of one worker.
fn alone<'a, 'v, K: Sink + Drop, L: Began, R: Wait, G: Gate>(
    rt: &R,
    gate: &G,
    post: Post<'a, 'v, K, L>,
    worker: u32,
) -> (u64, Share<L>)
    requires { (worker < 8) × (0 < post.share.parts) × (post.share.amount ≡ 0) }
    ensures { (result.1.parts ≡ post.entry.share.parts) × (result.1.amount ≡ result.0) }
{
    let Post {
        hall,
        image,
        mut seat,
        mut share,
        ..
    } = post;
    let turns = hall.work_through(rt, gate, image, &mut seat, &mut share, worker);
    (turns, share)
}

/// A second post, with one part of the share.
fn split<'a, 'v, K: Sink + Drop, L: Began>(
    post: Post<'a, 'v, K, L>,
) -> (Post<'a, 'v, K, L>, Post<'a, 'v, K, L>)
    requires { (1 < post.share.parts) × (post.share.amount ≡ 0) }
    ensures { (result.0.share.parts + 1 ≡ post.entry.share.parts) × (result.0.share.amount ≡ 0) × (result.1.share.parts ≡ 1) × (result.1.share.amount ≡ 0) }
{
    let Post {
        hall,
        image,
        mut seat,
        mut share,
        ..
    } = post;
    let mine = share.split_off(1, 0);
    let other = hall.seat(&mut seat);
    let rest = Post {
        hall,
        image,
        seat: other,
        share,
    };
    let one = Post {
        hall,
        image,
        seat,
        share: mine,
    };
    (rest, one)
}

/// So many workers, with the numbers from 0 on. The last one goes first.
pub fn run_crew<
    'a,
    'v,
    K: Sink + Send + Drop,
    L: Began + Send + Sync,
    R: Threads + Wait + Sync,
    G: Gate + Sync,
>(rt: &R, gate: &G, post: Post<'a, 'v, K, L>, count: u32, mut room: Vec<u64>) -> Crew<L>
    requires share { (post.share.parts ≡ count) × (post.share.amount ≡ 0) }
    requires count { (0 < count) × (count ≤ 8) }
    requires room { (room.items ≡ []) × (8 ≤ vec_capacity room) }
    ensures { (result.share.parts ≡ count) × (vec_len result.turns ≡ count) × (8 ≤ vec_capacity result.turns) }
{
    if count == 1 {
        let (turns, share) = alone(rt, gate, post, 0);
        room.push_reserved(turns);
        return Crew { share, turns: room };
    }
    let (other, mine) = split(post);
    let less = count - 1;
    let ((turns, share), rest) = join(
        rt,
        move || -> (u64, Share<L>)
            requires sync { IsSync R.row × IsSync G.row × IsSend K.row }
            requires post { (less < 8) × (mine.share.parts ≡ 1) × (mine.share.amount ≡ 0) }
            ensures { (result.1.parts ≡ 1) × (result.1.amount ≡ result.0) }
        { alone(rt, gate, mine, less) },
        move || -> Crew<L>
            requires sync { IsSync R.row × IsSync G.row × IsSend K.row }
            requires share { (other.share.parts ≡ less) × (other.share.amount ≡ 0) }
            requires count { (0 < less) × (less ≤ 8) }
            requires room { (room.items ≡ []) × (8 ≤ vec_capacity room) }
            ensures { (result.share.parts ≡ less) × (vec_len result.turns ≡ less) × (8 ≤ vec_capacity result.turns) }
        { run_crew(rt, gate, other, less, room) },
    );
    gathered(rest, turns, share)
}

/// The turns of one worker more.
fn gathered<L: Began>(rest: Crew<L>, turns: u64, mine: Share<L>) -> Crew<L>
    requires { (mine.amount ≡ turns) × (vec_len rest.turns < 8) × (8 ≤ vec_capacity rest.turns) }
    ensures { (result.share.parts ≡ rest.share.parts + mine.parts) × (vec_len result.turns ≡ vec_len rest.turns + 1) × (8 ≤ vec_capacity result.turns) }
{
    let Crew {
        mut share,
        turns: mut all,
        ..
    } = rest;
    all.push_reserved(turns);
    share.merge(mine);
    Crew { share, turns: all }
}
