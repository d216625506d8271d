// A program, and what the rules say of its methods: states on entry, states after instructions, rules that states break, and edges. The program
// never asks by number and address; what a text shows of states is a case (`cases/verifying`).
use crate::states::Kind::{Class, Conflict, Int, LongHi, LongLo, Uninit, UninitThis, Zero};
use crate::states::Pending::{Long, One};
use crate::states::StateRow;
use crate::states::StateRow::{Constructing, Full, Plain};
use dv_defs::Rule;

const STRING: &str = "Ljava/lang/String;";

const EXCEPTION: &str = "Ljava/lang/Exception;";

const THROWABLE: &str = "Ljava/lang/Throwable;";

/// The program, each instruction of the longer bodies with its address in units.
pub const PROGRAM: &str = r#".class LA;
.super Ljava/lang/Object;
.method constructor <init>(J)V
.registers 4
invoke-direct {p0}, Ljava/lang/Object;-><init>()V
return-void
.end method
.method static take(IJLjava/lang/String;)V
.registers 5
return-void
.end method
.method static open()V
.registers 1
const/4 v0, 0x0
.end method
.method static steps()V
.registers 6
# 00
const/4 v1, 0x3
new-instance v0, LA;
# 03
invoke-direct {v0, v2, v3}, LA;-><init>(J)V
long-to-int v0, v2
return-void
.end method
.method static ways(ILjava/lang/Throwable;)V
.registers 3
# 00
packed-switch v1, :d
:a
# 03
div-int v0, v1, v1
:b
# 05
monitor-exit v2
:c
# 06
nop
return-void
:e
:h
# 08
move-exception v0
return-void
:i
# 0a
move-exception v0
throw v0
:d
.packed-switch 0x1
:b
:a
:b
.end packed-switch
.catch Ljava/lang/Exception; {:a .. :b} :h
.catchall {:a .. :b} :i
.catchall {:c .. :e} :h
.end method
"#;

// A method by its name, and the state on entry to it.
pub static ENTRIES: [(&str, StateRow); 2] = [
    (
        "take",
        Plain(&[Conflict, Int, LongLo, LongHi, Class(STRING)]),
    ),
    (
        "<init>",
        Constructing(&[Conflict, UninitThis, LongLo, LongHi]),
    ),
];

// An address of `steps`, a state before the instruction there and the state after it.
pub static STEPS: [(u32, StateRow, StateRow); 6] = [
    // the halves of other longs beside a register that is written
    (
        0x00,
        Plain(&[LongHi, Zero, LongLo, LongHi, Conflict, Conflict]),
        Plain(&[LongHi, Int, LongLo, LongHi, Conflict, Conflict]),
    ),
    // what is pending and what was caught is known for one instruction, `this` stays pending
    (
        0x00,
        Full(&[Int, Conflict, Int, Int, Int, Int], One(Int), THROWABLE),
        Constructing(&[Int, Int, Int, Int, Int, Int]),
    ),
    // an object of a place, before which older ones of that place are lost
    (
        0x01,
        Plain(&[Int, Uninit(1), Uninit(3), Class(STRING), UninitThis, Zero]),
        Plain(&[
            Uninit(1),
            Conflict,
            Uninit(3),
            Class(STRING),
            UninitThis,
            Zero,
        ]),
    ),
    // a receiver of a place at which nothing is made
    (
        0x03,
        Plain(&[Uninit(6), Uninit(1), LongLo, LongHi, Uninit(6), Zero]),
        Plain(&[Conflict, Uninit(1), LongLo, LongHi, Conflict, Zero]),
    ),
    (
        0x06,
        Plain(&[LongLo, LongHi, LongLo, LongHi, Zero, Zero]),
        Plain(&[Int, Conflict, LongLo, LongHi, Zero, Zero]),
    ),
    // behind a return
    (
        0x07,
        Full(
            &[Int, LongHi, LongLo, Int, UninitThis, Uninit(1)],
            Long,
            EXCEPTION,
        ),
        Constructing(&[Int, LongHi, LongLo, Int, UninitThis, Uninit(1)]),
    ),
];

// A method, an address of it, a state before the instruction there and the rule that the state breaks, if any.
pub static DEMANDS: [(&str, u32, StateRow, Option<Rule>); 3] = [
    ("open", 0x00, Plain(&[Conflict]), Some(Rule::V(1))),
    // a low half with no high half behind it
    (
        "steps",
        0x06,
        Plain(&[Int, Int, LongLo, Int, Int, Int]),
        Some(Rule::V(3)),
    ),
    (
        "steps",
        0x06,
        Plain(&[Conflict, Conflict, LongLo, LongHi, Int, Int]),
        None,
    ),
];

// An address of `ways`, and the edges from the instruction there: where each leads, and what it catches if it leads to a handler.
pub static EDGES: [(u32, &[(u32, Option<&str>)]); 4] = [
    // on and to the targets of the cases, in their order
    (
        0x00,
        &[(0x03, None), (0x05, None), (0x03, None), (0x05, None)],
    ),
    // to the handlers of the range
    (
        0x03,
        &[
            (0x05, None),
            (0x08, Some(EXCEPTION)),
            (0x0a, Some(THROWABLE)),
        ],
    ),
    // monitor-exit is searched at the next address
    (0x05, &[(0x06, None), (0x08, Some(THROWABLE))]),
    (0x07, &[]),
];
