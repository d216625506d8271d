// States of which no text shows the order or the join: their counts of registers differ, or a result is pending in both.
use crate::states::Kind::{Class, Conflict, Int, Zero};
use crate::states::Pending::{Long, Nothing, One};
use crate::states::StateRow::{Awaiting, Full, Plain};
use crate::states::{StateRow, check, is_state, linked, state};
use dv_defs::Image;
use dv_types::{is_below, join};
use dv_typing::RegState;
use std::alloc::Global;
use std::process::Abort;

const OBJECT: &str = "Ljava/lang/Object;";

const STRING: &str = "Ljava/lang/String;";

const THROWABLE: &str = "Ljava/lang/Throwable;";

const ERROR: &str = "Ljava/lang/Error;";

const EXCEPTION: &str = "Ljava/lang/Exception;";

// Two states, and whether the first is under the second.
static STATES: [(StateRow, StateRow, bool); 10] = [
    // of equally many registers
    (Plain(&[Zero]), Plain(&[Zero, Conflict]), false),
    (Plain(&[Zero, Conflict]), Plain(&[Zero]), false),
    // a pending result is equal, or there is none above
    (Awaiting(&[Int], One(Int)), Awaiting(&[Int], One(Int)), true),
    (
        Awaiting(&[Int], One(Zero)),
        Awaiting(&[Int], One(Int)),
        false,
    ),
    (
        Awaiting(&[Int], One(Class(STRING))),
        Awaiting(&[Int], One(Class(OBJECT))),
        false,
    ),
    (Awaiting(&[Int], Long), Awaiting(&[Int], Long), true),
    (Awaiting(&[Int], Long), Awaiting(&[Int], One(Int)), false),
    (Awaiting(&[Int], One(Int)), Awaiting(&[Int], Long), false),
    (
        Full(&[Zero], One(Int), ERROR),
        Full(&[Int], One(Int), THROWABLE),
        true,
    ),
    (Full(&[Zero], Nothing, ERROR), Plain(&[Zero]), false),
];

// Whether a state is under another.
fn is_under<R: Abort>(
    rt: &R,
    alloc: Global,
    image: &Image,
    one: StateRow,
    above: StateRow,
) -> bool {
    let one = state(rt, alloc, one);
    let above = state(rt, alloc, above);
    let is_under = is_below(image, &one, &above);
    drop(one);
    drop(above);
    is_under
}

fn assert_below<R: Abort>(
    rt: &R,
    alloc: Global,
    image: &Image,
    rows: &[(StateRow, StateRow, bool)],
) {
    for (number, (one, above, wanted)) in rows.iter().enumerate() {
        let found = is_under(rt, alloc, image, *one, *above);
        check(rt, found == *wanted, number);
    }
}

#[test]
fn states_are_ordered_as_the_rules_tell(rt: HostRuntime) {
    let image = linked(&rt, rt.alloc(), "");
    assert_below(&rt, rt.alloc(), &image, STATES.as_slice());
    drop(image);
}

// Two states with equally many registers, and the least state above both.
static JOINS: [(StateRow, StateRow, StateRow); 6] = [
    // a pending result that both have
    (
        Awaiting(&[Zero], One(Int)),
        Awaiting(&[Int], One(Int)),
        Awaiting(&[Int], One(Int)),
    ),
    (
        Awaiting(&[Int], One(Int)),
        Awaiting(&[Int], One(Zero)),
        Plain(&[Int]),
    ),
    (
        Awaiting(&[Int], One(Class(STRING))),
        Awaiting(&[Int], One(Class(OBJECT))),
        Plain(&[Int]),
    ),
    (
        Awaiting(&[Int], Long),
        Awaiting(&[Int], Long),
        Awaiting(&[Int], Long),
    ),
    (
        Awaiting(&[Int], Long),
        Awaiting(&[Int], One(Int)),
        Plain(&[Int]),
    ),
    (
        Full(&[Int, Zero], Long, ERROR),
        Full(&[Zero, Zero], Long, EXCEPTION),
        Full(&[Int, Zero], Long, THROWABLE),
    ),
];

fn joined<R: Abort>(
    rt: &R,
    alloc: Global,
    image: &Image,
    one: &RegState,
    other: &RegState,
) -> RegState {
    assert!(rt; one.regs.len() == other.regs.len());
    let joined = join(alloc, image, one, other);
    joined.ok().expect(rt, "memory")
}

// The least state above two.
fn join_of<R: Abort>(
    rt: &R,
    alloc: Global,
    image: &Image,
    one: StateRow,
    other: StateRow,
) -> RegState {
    let one = state(rt, alloc, one);
    let other = state(rt, alloc, other);
    let joined = joined(rt, alloc, image, &one, &other);
    drop(one);
    drop(other);
    joined
}

fn assert_joins<R: Abort>(
    rt: &R,
    alloc: Global,
    image: &Image,
    rows: &[(StateRow, StateRow, StateRow)],
) {
    for (number, (one, other, wanted)) in rows.iter().enumerate() {
        let joined = join_of(rt, alloc, image, *one, *other);
        check(rt, is_state(rt, alloc, joined, *wanted), number);
    }
}

#[test]
fn states_join_as_the_rules_tell(rt: HostRuntime) {
    let image = linked(&rt, rt.alloc(), "");
    assert_joins(&rt, rt.alloc(), &image, JOINS.as_slice());
    drop(image);
}
