// Local instructions, and what they make of a frame (AOSP, "Dalvik bytecode format").
use dv_words::Kept;

/// A body, six registers before its first instruction, what is kept for the frame and what it caught, the registers after, and the address.
#[derive(Clone, Copy)]
pub struct Row {
    pub body: &'static str,
    pub before: [u32; 6],
    pub result: Kept,
    pub caught: Option<u32>,
    pub after: [u32; 6],
    pub at: u32,
}

const MINUS_ONE: u32 = 0xffff_ffff;

const ROW: Row = Row {
    body: "nop",
    before: [1, 2, 3, 4, 5, 6],
    result: Kept::One(99),
    caught: None,
    after: [1, 2, 3, 4, 5, 6],
    at: 1,
};

pub const LOCAL: &[Row] = &[
    ROW,
    Row {
        body: "move-result-wide v2",
        result: Kept::Two(70, 71),
        after: [1, 2, 70, 71, 5, 6],
        ..ROW
    },
    Row {
        body: "move-exception v3",
        result: Kept::None,
        caught: Some(12),
        after: [1, 2, 3, 12, 5, 6],
        ..ROW
    },
    Row {
        body: "const-wide v0, 0x123456789abcdef0L",
        after: [0x9abc_def0, 0x1234_5678, 3, 4, 5, 6],
        at: 5,
        ..ROW
    },
    Row {
        body: "if-lt v0, v1, :there\nnop\n:there",
        at: 3,
        ..ROW
    },
];

/// Bodies that begin with an instruction that isn't local.
pub const OTHER: &[Row] = &[
    Row {
        body: "const-string v0, \"a\"",
        ..ROW
    },
    Row {
        body: "const-class v0, LMain;",
        ..ROW
    },
    Row {
        body: "div-int v0, v1, v2",
        ..ROW
    },
    Row {
        body: "rem-long/2addr v0, v2",
        ..ROW
    },
    Row {
        body: "array-length v0, v1",
        ..ROW
    },
    Row {
        body: "new-instance v0, Ljava/lang/Object;",
        ..ROW
    },
    Row {
        body: "new-array v0, v1, [I",
        ..ROW
    },
    Row {
        body: "aget v0, v1, v2",
        ..ROW
    },
    Row {
        body: "check-cast v0, LMain;",
        ..ROW
    },
    Row {
        body: "monitor-enter v0",
        ..ROW
    },
    Row {
        body: "throw v0",
        ..ROW
    },
    Row {
        body: "return v0",
        ..ROW
    },
    Row {
        body: "invoke-static {}, LMain;->m0()V",
        ..ROW
    },
];

/// Eight local steps, and a division.
pub const SLICE: Row = Row {
    body: "const/4 v0, 0\nconst/4 v1, 3\n:top\nadd-int/lit8 v0, v0, 1\nif-lt v0, v1, :top\ndiv-int v0, v0, v1",
    before: [9, 9, 9, 9, 9, 9],
    ..ROW
};

/// The steps that a slice has, how many more may be done, how many are, the first register, and the address.
pub const SLICES: &[(u32, u32, u32, u32, u32)] = &[
    (0, 0, 0, 9, 0),
    (0, 1, 1, 0, 1),
    (0, 3, 3, 1, 4),
    (0, 4, 4, 1, 2),
    (0, 7, 7, 3, 4),
    (0, 8, 8, 3, 6),
    (5, 9, 8, 3, 6),
    (5, MINUS_ONE, 8, 3, 6),
    // no more than can be counted
    (MINUS_ONE - 3, 8, 3, 1, 4),
    (MINUS_ONE, 8, 0, 9, 0),
];
